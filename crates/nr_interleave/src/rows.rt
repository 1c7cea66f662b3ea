//! De-interleaving: writes bits that stand column by column in a matrix into its rows.

ghost use Rattle.std.specs.Prelude.{◌≡◌, ℕ, ◌+◌, ◌*◌, ◌/◌, ◌%◌, ◌^◌, ◌<◌, ◌≤◌, ◌==◌};
ghost use Rattle.std.specs.{Prelude.◌++◌, Prelude.Bool, Prelude.length, Prelude.slice_index_or, Int.bit_at};
ghost use Rattle.nr_bitvec.specs.Bit.{bit};
ghost use Rattle.nr_interleave.specs.inside.Octets.{MakesOctets};
ghost use Rattle.nr_interleave.specs.inside.Unspreading.{ArePut, Follows, HasOctets, row_by_row};

use crate::octets::{octets_exchanged, row_octets};
use nr_bitvec::Bits;
use nr_bitvec::words::window;

// 64 columns of the matrix, from bit `from` of a list on. Each word has eight of them, as octets of their rows. The list
// is read first, in as few words as have them, and the words are stored at the end. So the steps between are taken for
// two words at once.
#[inline(never)]
fn column_octets<const QM: usize>(masks: &[u64; 3], bits: &Bits, from: usize) -> [u64; 8]
    requires few { QM ≤ 8 }
    requires octets { MakesOctets QM masks.now }
    requires short { from < 2 ^ 32 }
    ensures { HasOctets QM result bits.now.items from }
{
    let mut read = [0; 8];
    for word in 0..QM {
        read[word] = bits.window(from + 64 * word);
    }
    let mut octets = [0; 8];
    for eight in 0..8 {
        let at = 8 * QM * eight;
        octets[eight] = row_octets::<QM>(masks, window(&read, at / 64, at % 64));
    }
    octets
}

// The rows of 64 columns, from bit `from` of a list on. The words after them are of no use.
#[inline(never)]
fn row_words<const QM: usize>(masks: &[u64; 3], bits: &Bits, from: usize) -> [u64; 8]
    requires few { QM ≤ 8 }
    requires octets { MakesOctets QM masks.now }
    requires short { from < 2 ^ 32 }
    ensures { (r j : ℕ) → r < QM → j < 64
        → (bit_at (slice_index_or result r 0) j == 1) ≡ bit bits.now.items (from + (QM * j + r)) }
{
    octets_exchanged(&column_octets::<QM>(masks, bits, from))
}

// Puts `wide` columns, from `column` on, into the rows of a list, one of which has `columns` bits.
fn put_columns<const QM: usize>(
    rows: &[u64; 8],
    columns: usize,
    column: usize,
    wide: usize,
    selected: &mut Bits,
)
    requires few { QM ≤ 8 }
    requires wide { wide ≤ 64 }
    requires inside { column + wide ≤ columns }
    requires short { columns ≤ 2 ^ 24 }
    requires rows { QM * columns ≤ length selected.old.items }
    ensures put { (r k : ℕ) → r < QM → k < wide
        → bit selected.new.items (r * columns + (column + k)) ≡ (bit_at (slice_index_or rows.now r 0) k == 1) }
    ensures before { (r k : ℕ) → r < QM → k < column
        → bit selected.new.items (r * columns + k) ≡ bit selected.old.items (r * columns + k) }
    ensures long { length selected.new.items ≡ length selected.old.items }
    ensures room { selected.new.room ≡ selected.old.room }
{
    for row in 0..QM {
        selected.put(row * columns + column, wide, rows[row]);
    }
}

// Puts a word of a row after what is pending of the row, at bit `at` of a list. It puts as much as fills a word of the
// list, and returns what is pending then. Bits before the row's first lose their values if they are in that word.
fn put_behind(at: usize, pending: u64, word: u64, selected: &mut Bits) -> u64
    requires inside { at + 64 ≤ length selected.old.items }
    ensures put { Follows selected.old.items selected.new.items at pending word result }
    ensures long { length selected.new.items ≡ length selected.old.items }
    ensures room { selected.new.room ≡ selected.old.room }
{
    let turn = at % 64;
    selected.put(at - turn, 64, pending | word << turn);
    word >> 1 >> (63 - turn)
}

// Puts 64 columns, from `column` on, into the rows of a list, after what is pending of each row.
fn put_group<const QM: usize>(
    rows: &[u64; 8],
    columns: usize,
    column: usize,
    pending: &mut [u64; QM],
    selected: &mut Bits,
)
    requires few { QM ≤ 8 }
    requires inside { column + 64 ≤ columns }
    requires short { columns ≤ 2 ^ 24 }
    requires rows { QM * columns ≤ length selected.old.items }
    ensures put { (cell : ℕ → ℕ → Bool)
        → ((r k : ℕ) → r < QM → k < 64 → (bit_at (slice_index_or rows.now r 0) k == 1) ≡ cell r (column + k))
        → ArePut QM cell columns column pending.old selected.old.items
        → ArePut QM cell columns (column + 64) pending.new selected.new.items }
    ensures long { length selected.new.items ≡ length selected.old.items }
    ensures room { selected.new.room ≡ selected.old.room }
{
    for row in 0..QM {
        pending[row] = put_behind(row * columns + column, pending[row], rows[row], selected);
    }
}

// Puts what is pending of the columns below `column` into the rows of a list.
fn put_pending<const QM: usize>(
    columns: usize,
    column: usize,
    pending: &[u64; QM],
    selected: &mut Bits,
)
    requires few { QM ≤ 8 }
    requires words { column % 64 ≡ 0 }
    requires inside { column ≤ columns }
    requires short { columns ≤ 2 ^ 24 }
    requires rows { QM * columns ≤ length selected.old.items }
    ensures put { (cell : ℕ → ℕ → Bool) → ArePut QM cell columns column pending.now selected.old.items
        → (r k : ℕ) → r < QM → k < column → bit selected.new.items (r * columns + k) ≡ cell r k }
    ensures long { length selected.new.items ≡ length selected.old.items }
    ensures room { selected.new.room ≡ selected.old.room }
{
    for row in 0..QM {
        let at = row * columns + column;
        selected.put(at - at % 64, at % 64, pending[row]);
    }
}

// Gives a list the `count` bits of another one, or leaves it as it is if it has as many. Only their number matters.
fn lengthen(bits: &Bits, from: usize, count: usize, selected: &mut Bits)
    requires inside { from + count ≤ length bits.now.items }
    requires room { count ≤ length selected.old.items + selected.old.room }
    ensures long { length selected.new.items ≡ count }
    ensures room { length selected.old.items + selected.old.room
        ≤ length selected.new.items + selected.new.room }
{
    if selected.len() != count {
        selected.clear();
        selected.extend_range(bits, from, count);
    }
}

// Puts the rows of the matrix, by the masks of the modulation order, in place of a list's bits.
pub(crate) fn by_rows<const QM: usize>(
    masks: &[u64; 3],
    bits: &Bits,
    from: usize,
    count: usize,
    selected: &mut Bits,
)
    requires some { 0 < QM }
    requires few { QM ≤ 8 }
    requires octets { MakesOctets QM masks.now }
    requires whole { count % QM ≡ 0 }
    requires inside { from + count ≤ length bits.now.items }
    requires short { from + count ≤ 2 ^ 24 }
    requires room { count ≤ length selected.old.items + selected.old.room }
    ensures items { selected.new.items ≡ row_by_row QM bits.now.items from count }
    ensures room { length selected.old.items + selected.old.room
        ≤ length selected.new.items + selected.new.room }
{
    lengthen(bits, from, count, selected);
    let columns = count / QM;
    let whole = columns / 64;
    let mut pending = [0; QM];
    for group in 0..whole {
        let rows = row_words::<QM>(masks, bits, from + QM * (64 * group));
        put_group::<QM>(&rows, columns, 64 * group, &mut pending, selected);
    }
    put_pending::<QM>(columns, 64 * whole, &pending, selected);
    let rows = row_words::<QM>(masks, bits, from + QM * (64 * whole));
    put_columns::<QM>(&rows, columns, 64 * whole, columns - 64 * whole, selected);
}

// Puts the bits back place by place, for an order that no modulation has.
pub(crate) fn by_seats(qm: usize, bits: &Bits, from: usize, count: usize, selected: &mut Bits)
    requires some { 0 < qm }
    requires whole { count % qm ≡ 0 }
    requires inside { from + count ≤ length bits.now.items }
    requires short { from + count ≤ 2 ^ 24 }
    requires room { count ≤ selected.old.room }
    ensures items { selected.new.items ≡ selected.old.items ++ row_by_row qm bits.now.items from count }
    ensures room { selected.new.room + count ≡ selected.old.room }
{
    let columns = count / qm;
    for k in 0..count {
        selected.push_in_room(bits.get(from + (qm * (k % columns) + k / columns)));
    }
}
