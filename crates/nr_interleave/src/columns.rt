//! Interleaves 64 columns of the matrix at a time.

ghost use Rattle.std.specs.Prelude.{◌≡◌, ℕ, ◌+◌, ◌*◌, ◌/◌, ◌%◌, ◌^◌, ◌<◌, ◌≤◌, ◌==◌};
ghost use Rattle.std.specs.Prelude.{◌++◌, Bool, List, drop, length, slice_index_or, take};
ghost use Rattle.std.specs.Int.{bit_at};
ghost use Rattle.nr_bitvec.specs.Bit.{bit};
ghost use Rattle.nr_interleave.specs.{Interleaving.interleaving_of, inside.Octets.MakesColumns};
ghost use Rattle.nr_interleave.specs.inside.Spreading.{HasColumnBits, HasRows};

use crate::octets::{column_word, octets_exchanged};
use nr_bitvec::Bits;

// The words of the matrix's rows from a column on. A row's bits past its end are those of the next row.
fn read_rows<const QM: usize>(bits: &Bits, columns: usize, column: usize) -> [u64; 8]
    requires few { QM ≤ 8 }
    requires columns { columns ≤ 2 ^ 24 }
    requires column { column ≤ 2 ^ 24 }
    ensures { HasRows QM result bits.now.items columns column }
{
    let mut rows = [0; 8];
    for row in 0..QM {
        rows[row] = bits.window(row * columns + column);
    }
    rows
}

// 64 columns of the matrix from a column on, eight in a word. The words are stored, so that the steps are taken for two
// of them at once.
#[inline(never)]
fn column_words<const QM: usize>(
    masks: &[u64; 3],
    bits: &Bits,
    columns: usize,
    column: usize,
) -> [u64; 8]
    requires few { QM ≤ 8 }
    requires masks { MakesColumns QM masks.now }
    requires columns { columns ≤ 2 ^ 24 }
    requires column { column ≤ 2 ^ 24 }
    ensures { HasColumnBits QM result bits.now.items columns column }
{
    let rows = read_rows::<QM>(bits, columns, column);
    let octets = octets_exchanged(&rows);
    let mut words = [0; 8];
    for eight in 0..8 {
        words[eight] = column_word::<QM>(masks, octets[eight]);
    }
    words
}

// Puts the first `count` columns of some words at the end of a list.
fn push_columns<const QM: usize>(words: &[u64; 8], count: usize, spread: &mut Bits)
    requires some { 0 < QM }
    requires few { QM ≤ 8 }
    requires count { count ≤ 64 }
    requires room { QM * count ≤ spread.old.room }
    ensures items { (xs : List Bool) (column : ℕ) → length xs % QM ≡ 0 → column + count ≤ length xs / QM
        → HasColumnBits QM words.now xs (length xs / QM) column
        → spread.new.items ≡ spread.old.items ++ take (QM * count) (drop (QM * column) (interleaving_of QM xs)) }
    ensures room { spread.new.room + QM * count ≡ spread.old.room }
{
    let whole = count / 8;
    for eight in 0..whole {
        spread.push_word(QM * 8, words[eight]);
    }
    if count % 8 > 0 {
        spread.push_word(QM * (count % 8), words[whole]);
    }
}

// Puts the interleaved bits at the end of a list, by the masks of the modulation order.
pub(crate) fn by_columns<const QM: usize>(masks: &[u64; 3], bits: &Bits, spread: &mut Bits)
    requires some { 0 < QM }
    requires few { QM ≤ 8 }
    requires masks { MakesColumns QM masks.now }
    requires whole { length bits.now.items % QM ≡ 0 }
    requires room { length bits.now.items ≤ spread.old.room }
    ensures items { spread.new.items ≡ spread.old.items ++ interleaving_of QM bits.now.items }
    ensures room { spread.new.room + length bits.now.items ≡ spread.old.room }
{
    let columns = bits.len() / QM;
    let whole = columns / 64;
    // Their number is a constant here, so that no width is computed for each word.
    for group in 0..whole {
        let words = column_words::<QM>(masks, bits, columns, 64 * group);
        push_columns::<QM>(&words, 64, spread);
    }
    let words = column_words::<QM>(masks, bits, columns, 64 * whole);
    push_columns::<QM>(&words, columns - 64 * whole, spread);
}
