//! Converts between eight columns of a matrix in a word, one after the other, and octets of its rows. Eight such words
//! are exchanged with eight words of the rows.

ghost use Rattle.std.specs.Prelude.{◌≡◌, ℕ, ◌+◌, ◌*◌, ◌/◌, ◌%◌, ◌<◌, ◌≤◌, ◌==◌, ◌++◌};
ghost use Rattle.std.specs.{Prelude.length, Prelude.slice_index_or, Int.bit_at};
ghost use Rattle.nr_interleave.specs.inside.Octets.{apart_from, exchanged_from, together_from, Gets, MakesColumns, MakesOctets};

use std::simd::prelude::*;

// Masks of the columns that stay where they are, while the others move apart. They are those of the first four columns,
// of the first two of each four, and of the first of each two.
pub(crate) const OF_2: [u64; 3] = [0x00ff, 0x0000_000f_0000_000f, 0x0003_0003_0003_0003];

pub(crate) const OF_4: [u64; 3] = [0xffff, 0x0000_00ff_0000_00ff, 0x000f_000f_000f_000f];

pub(crate) const OF_6: [u64; 3] = [0x00ff_ffff, 0x0000_0fff_0000_0fff, 0x003f_003f_003f_003f];

pub(crate) const OF_8: [u64; 3] = [0xffff_ffff, 0x0000_ffff_0000_ffff, 0x00ff_00ff_00ff_00ff];

// Keeps the places of a mask, and fills those `lane` above them from the places `by` lower.
fn apart(word: u64, mask: u64, lane: usize, by: usize) -> u64
    requires lane { lane < 64 }
    requires by { by ≤ lane }
    ensures { Gets (apart_from mask lane by) word result }
{
    word & mask | word << by & mask << lane
}

// Keeps the places of a mask, and fills those after them from the places `by` higher: the inverse of `apart`.
fn together(word: u64, mask: u64, lane: usize, by: usize) -> u64
    requires lane { lane < 64 }
    requires by { by ≤ lane }
    ensures { Gets (together_from mask lane by) word result }
{
    word & mask | word >> by & mask << (lane - by)
}

// The places of a mask, and those `by` above them, in each other's place.
fn exchanged(word: u64, mask: u64, by: usize) -> u64
    requires { by < 64 }
    ensures { Gets (exchanged_from mask by) word result }
{
    word & !(mask | mask << by) | word << by & mask << by | word >> by & mask
}

// Eight columns of `QM` places, the first lowest, as octets of their rows, of which the first is lowest too.
pub(crate) fn row_octets<const QM: usize>(masks: &[u64; 3], word: u64) -> u64
    requires few { QM ≤ 8 }
    requires octets { MakesOctets QM masks.now }
    ensures { (r c : ℕ) → r < QM → c < 8
        → (bit_at result (8 * r + c) == 1) ≡ (bit_at word (QM * c + r) == 1) }
{
    let halves = apart(word, masks[0], 32, 32 - 4 * QM);
    let quarters = apart(halves, masks[1], 16, 16 - 2 * QM);
    let columns = apart(quarters, masks[2], 8, 8 - QM);
    let pairs = exchanged(columns, 0x00aa_00aa_00aa_00aa, 7);
    let fours = exchanged(pairs, 0x0000_cccc_0000_cccc, 14);
    exchanged(fours, 0x0000_0000_f0f0_f0f0, 28)
}

// Octets of eight columns' rows as the columns, of `QM` places each: what `row_octets` undoes.
pub(crate) fn column_word<const QM: usize>(masks: &[u64; 3], octets: u64) -> u64
    requires few { QM ≤ 8 }
    requires columns { MakesColumns QM masks.now }
    ensures { (c r : ℕ) → c < 8 → r < QM
        → (bit_at result (c * QM + r) == 1) ≡ (bit_at octets (8 * r + c) == 1) }
{
    let fours = exchanged(octets, 0x0000_0000_f0f0_f0f0, 28);
    let pairs = exchanged(fours, 0x0000_cccc_0000_cccc, 14);
    let columns = exchanged(pairs, 0x00aa_00aa_00aa_00aa, 7);
    let quarters = together(columns, masks[2], 8, 8 - QM);
    let halves = together(quarters, masks[1], 16, 16 - 2 * QM);
    together(halves, masks[0], 32, 32 - 4 * QM)
}

// The octets of eight words, the lowest of each first, in two halves.
fn octets_of(words: &[u64]) -> (u8x32, u8x32)
    requires { length words.now ≡ 8 }
    ensures { (p j : ℕ) → p < 64 → j < 8 → bit_at (slice_index_or (result.0 ++ result.1) p 0) j
        ≡ bit_at (slice_index_or words.now (p / 8) 0) (8 * (p % 8) + j) }
{
    let low = u64x4::from_slice(words);
    let high = u64x4::from_slice(&words[4..]);
    (low.to_le_bytes(), high.to_le_bytes())
}

// The eight words of two halves of octets, the lowest of each first.
fn words_of(low: u8x32, high: u8x32) -> [u64; 8]
    ensures { (k j : ℕ) → k < 8 → j < 64 → bit_at (slice_index_or result k 0) j
        ≡ bit_at (slice_index_or (low ++ high) (8 * k + j / 8) 0) (j % 8) }
{
    let mut words = [0; 8];
    u64x4::from_le_bytes(low).copy_to_slice(&mut words);
    u64x4::from_le_bytes(high).copy_to_slice(&mut words[4..]);
    words
}

// Two halves of octets that take turns.
fn in_turn(low: u8x32, high: u8x32) -> (u8x32, u8x32)
    ensures { (p : ℕ) → p < 64
        → slice_index_or (result.0 ++ result.1) p 0 ≡ slice_index_or (low ++ high) (32 * (p % 2) + p / 2) 0 }
{
    low.interleave(high)
}

// Eight words as a matrix of octets, a row each, with its rows and columns exchanged. Each of three steps turns the index
// of an octet by one bit, and together they exchange the halves of the index.
pub(crate) fn octets_exchanged(words: &[u64; 8]) -> [u64; 8]
    ensures { (k j : ℕ) → k < 8 → j < 64
        → bit_at (slice_index_or result k 0) j ≡ bit_at (slice_index_or words.now (j / 8) 0) (8 * k + j % 8) }
{
    let (low, high) = octets_of(words);
    let (low, high) = in_turn(low, high);
    let (low, high) = in_turn(low, high);
    let (low, high) = in_turn(low, high);
    words_of(low, high)
}
