//! The columns of blocks of a codeword as doubled lanes, and the sums of a row of blocks over them. A column begins
//! twelve words after the one before it.

ghost use Rattle.std.specs.Prelude.{◌≡◌, ℕ, ◌+◌, ◌*◌, ◌%◌, ◌<◌, ◌≤◌, length};
ghost use Rattle.nr_bitvec.specs.{Bit.◌⊕◌, Bit.bit, Packed.place};
ghost use Rattle.nr_lifting.specs.DoubledLanes.{is_set};
ghost use Rattle.nr_shifttable.specs.Tails.{value_in};
ghost use Rattle.nr_ldpcenc.specs.inside.Doubled.{col_bit, AreTwice, HasColumns, IsTwice};
ghost use Rattle.nr_ldpcenc.specs.{Rows.one_at, inside.Solving.sum_before, inside.Words.AgreeBelow, inside.Words.sum_between};

use crate::word_blocks::write_block;
use nr_bitvec::Bits;
use nr_lifting::{Lane, add_window};
use nr_shifttable::Entry;

// By how much an entry rotates its block.
fn rotation_by<const Z: usize>(value: u16) -> usize
    requires { 0 < Z }
    ensures value { result ≡ value % Z }
    ensures below { result < Z }
{
    let rotation = usize::from(value);
    // The standard has no value from 384 on, so at that size nothing is to be divided.
    if Z == 384 && rotation < 384 {
        rotation
    } else {
        rotation % Z
    }
}

// Adds to a block what an entry has.
fn add_entry<const Z: usize, const W: usize>(
    set: usize,
    entry: &Entry,
    cols: &[u64],
    sum: &mut [u64; W],
)
    requires above { 64 * W < Z + 64 }
    requires below { Z ≤ 64 * W }
    requires some { 0 < Z }
    requires most { W ≤ 6 }
    requires set { set < 8 }
    requires words { 12 * (entry.now.col + 1) ≤ length cols.now }
    requires twice { IsTwice Z entry.now.col cols.now }
    ensures { (t : ℕ) → t < Z → is_set sum.new t
        ≡ is_set sum.old t ⊕ col_bit Z cols.now (one_at Z t entry.now.col (value_in set entry.now)) }
{
    add_window(
        sum,
        cols,
        12 * usize::from(entry.col),
        rotation_by::<Z>(entry.values[set]),
    );
}

// Adds to a block the sum of a row of blocks before a column. A copy of the block is read and stored once, so that it stays
// in registers, two words in one.
#[inline(never)]
pub(crate) fn add_row<const Z: usize, const W: usize>(
    set: usize,
    row: &[Entry],
    before: usize,
    cols: &[u64],
    sum: &mut [u64; W],
)
    requires above { 64 * W < Z + 64 }
    requires below { Z ≤ 64 * W }
    requires some { 0 < Z }
    requires most { W ≤ 6 }
    requires set { set < 8 }
    requires words { 12 * before ≤ length cols.now }
    requires twice { AreTwice Z before cols.now }
    ensures { (t : ℕ) → t < Z → is_set sum.new t
        ≡ is_set sum.old t ⊕ sum_before set Z (col_bit Z cols.now) before t row.now }
{
    let mut total = *sum;
    for entry in row {
        if usize::from(entry.col) < before {
            add_entry::<Z, W>(set, entry, cols, &mut total);
        }
    }
    *sum = total;
}

// Adds to a block the sum of a row of blocks from column `from` on and before another one. Most entries of a row are before
// it, and are passed over.
pub(crate) fn add_rest<const Z: usize, const W: usize>(
    set: usize,
    row: &[Entry],
    from: usize,
    before: usize,
    cols: &[u64],
    sum: &mut [u64; W],
)
    requires above { 64 * W < Z + 64 }
    requires below { Z ≤ 64 * W }
    requires some { 0 < Z }
    requires most { W ≤ 6 }
    requires set { set < 8 }
    requires order { from ≤ before }
    requires words { 12 * before ≤ length cols.now }
    requires twice { AreTwice Z before cols.now }
    ensures { (t : ℕ) → t < Z → is_set sum.new t ≡ is_set sum.old t
        ⊕ sum_between set Z (col_bit Z cols.now) from before t row.now }
{
    for entry in row {
        let col = usize::from(entry.col);
        if from <= col && col < before {
            add_entry::<Z, W>(set, entry, cols, sum);
        }
    }
}

// Puts a block in the place of column `j`, the first one that is not there yet.
fn put_column<const Z: usize, const W: usize>(cols: &mut [u64], j: usize, lane: &Lane<Z, W>)
    requires below { Z ≤ 64 * W }
    requires some { 0 < Z }
    requires most { W ≤ 6 }
    requires words { 12 * (j + 1) ≤ length cols.old }
    requires twice { AreTwice Z j cols.old }
    ensures twice { AreTwice Z (j + 1) cols.new }
    ensures column { (t : ℕ) → t < Z → is_set cols.new (768 * j + t) ≡ bit lane.now t }
    ensures before { (t : ℕ) → t < 768 * j → place cols.new t ≡ place cols.old t }
    ensures words { length cols.new ≡ length cols.old }
{
    lane.put_doubled(cols, 12 * j);
}

// Takes the first `n` columns from a word.
pub(crate) fn load_columns<const Z: usize, const W: usize>(n: usize, bits: &Bits, cols: &mut [u64])
    requires above { 64 * W < Z + 64 }
    requires below { Z ≤ 64 * W }
    requires some { 0 < Z }
    requires most { W ≤ 6 }
    requires few { n ≤ 68 }
    requires inside { n * Z ≤ length bits.now.items }
    requires words { 12 * n ≤ length cols.old }
    ensures twice { AreTwice Z n cols.new }
    ensures same { AgreeBelow (n * Z) (bit bits.now.items) (col_bit Z cols.new) }
    ensures words { length cols.new ≡ length cols.old }
{
    for j in 0..n {
        let lane: Lane<Z, W> = Lane::load(bits, j * Z);
        put_column(cols, j, &lane);
    }
}

// Puts a block in the place of column `j` and into the word.
pub(crate) fn put_block<const Z: usize, const W: usize>(
    j: usize,
    cols: &mut [u64],
    bits: &mut Bits,
    lane: &Lane<Z, W>,
)
    requires below { Z ≤ 64 * W }
    requires some { 0 < Z }
    requires most { W ≤ 6 }
    requires column { j < 26 }
    requires inside { (j + 1) * Z ≤ length bits.old.items }
    requires columns { HasColumns Z j j cols.old bits.old.items }
    ensures columns { HasColumns Z (j + 1) (j + 1) cols.new bits.new.items }
    ensures block { (t : ℕ) → t < Z → bit bits.new.items (j * Z + t) ≡ bit lane.now t }
    ensures before { AgreeBelow (j * Z) (bit bits.old.items) (bit bits.new.items) }
    ensures long { length bits.new.items ≡ length bits.old.items }
{
    put_column(cols, j, lane);
    write_block(j, bits, lane);
}
