//! Received bits, 64 codeword indexes at a time. One list of bits marks the indexes that were received, another one holds the
//! bits received there.

ghost use Rattle.std.specs.Prelude.{◌≡◌, ℕ, ◌+◌, ◌<◌, ◌≤◌, ◌==◌, ◌&&◌, ◌||◌, ◌↔◌, not};
ghost use Rattle.std.specs.Prelude.{Bool, true, false, length, IsTrue};
ghost use Rattle.std.specs.{Int.bit_at, Option.option_or};
ghost use Rattle.nr_bitvec.specs.{Bit.bit, Marks.marked_bit, Marks.marks_with};
ghost use Rattle.nr_harqbuf.specs.Marks.{says, word_bit, word_says};
ghost use Rattle.nr_harqbuf.specs.inside.Words.{bit_in};

use nr_bitvec::words::low_bits;
use nr_bitvec::{Bits, Marks};

// What was received of 64 codeword indexes, after more of them was received.
#[derive(Clone, Copy)]
pub(crate) struct MergedWord {
    // Which indexes were received.
    pub(crate) heard: u64,
    // The bits received there first.
    pub(crate) value: u64,
    // Which of them were not received before.
    pub(crate) news: u64,
    // Whether none was received again with the other bit.
    pub(crate) agreed: bool,
}

impl MergedWord {
    // Merges the bits `bits` of the indexes marked in `now` into the bits `value` of those marked in `heard`. The first bit
    // received at an index is kept.
    pub(crate) fn of(heard: u64, value: u64, now: u64, bits: u64) -> MergedWord
        ensures first { (j : ℕ) → j < 64 → bit_in result.heard result.value j
            ≡ option_or (bit_in heard value j) (bit_in now bits j) }
        ensures news { (j : ℕ) → j < 64 → (bit_at result.news j == 1)
            ≡ ((bit_at now j == 1) && not (bit_at heard j == 1)) }
        ensures agreed { IsTrue result.agreed ↔ ((j : ℕ) → j < 64 → (bit_at heard j == 1) ≡ true
            → (bit_at now j == 1) ≡ true → (bit_at bits j == 1) ≡ (bit_at value j == 1)) }
    {
        let news = now & !heard;
        MergedWord {
            heard: heard | now,
            value: value ^ (news & (value ^ bits)),
            news,
            agreed: now & heard & (value ^ bits) == 0,
        }
    }
}

// Puts the `count` lowest bits of `word` in the place of those of `now` from bit `at` on. Mostly they are the same.
pub(crate) fn put_changed(bits: &mut Bits, at: usize, count: usize, now: u64, word: u64)
    requires count { count ≤ 64 }
    requires inside { at + count ≤ length bits.old.items }
    requires now { (j : ℕ) → j < 64 → (bit_at now j == 1) ≡ bit bits.old.items (at + j) }
    ensures within { (t : ℕ) → t < count → bit bits.new.items (at + t) ≡ (bit_at word t == 1) }
    ensures before { (t : ℕ) → t < at → bit bits.new.items t ≡ bit bits.old.items t }
    ensures after { (t : ℕ) → at + count ≤ t → bit bits.new.items t ≡ bit bits.old.items t }
    ensures long { length bits.new.items ≡ length bits.old.items }
    ensures room { bits.new.room ≡ bits.old.room }
{
    if word != now {
        bits.put(at, count, word);
    }
}

/// Merges up to 64 received bits into the lists. Bit i of `now`, for i below `count`, marks codeword index `at` + i as
/// received, with bit i of `bits`. An index that was marked before keeps its bit. Returns true if no such index is received
/// again with the other bit; the lists then hold exactly what they held before together with the new bits. Allocates nothing.
pub fn merge_word(
    heard: &mut Bits,
    value: &mut Bits,
    at: usize,
    count: usize,
    now: u64,
    bits: u64,
) -> bool
    requires count { count ≤ 64 }
    requires inside { at + count ≤ length heard.old.items }
    requires both { length value.old.items ≡ length heard.old.items }
    ensures first { (p : ℕ) → marked_bit (marks_with heard.new.items value.new.items) p
        ≡ option_or (marked_bit (marks_with heard.old.items value.old.items) p) (word_bit at count now bits p) }
    ensures says { IsTrue result → (p : ℕ) (b : Bool) → says (marks_with heard.new.items value.new.items) p b
        ≡ (says (marks_with heard.old.items value.old.items) p b || word_says at count now bits p b) }
    ensures agree { IsTrue result ↔ ((p : ℕ) (b : Bool) → word_says at count now bits p b ≡ true
        → says (marks_with heard.old.items value.old.items) p (not b) ≡ false) }
    ensures kept { (p : ℕ) → bit heard.old.items p ≡ true
        → (bit heard.new.items p ≡ true) × (bit value.new.items p ≡ bit value.old.items p) }
    ensures heard { length heard.new.items ≡ length heard.old.items }
    ensures value { length value.new.items ≡ length value.old.items }
    ensures heard_room { heard.new.room ≡ heard.old.room }
    ensures value_room { value.new.room ≡ value.old.room }
{
    let before = heard.window(at);
    let old = value.window(at);
    let word = MergedWord::of(before, old, low_bits(now, count), bits);
    heard.put(at, count, word.heard);
    value.put(at, count, word.value);
    word.agreed
}

/// Tells whether `word` has the received bit at every marked index. Allocates nothing.
pub fn agrees(marks: &Marks, word: &Bits) -> bool
    ensures { IsTrue result ↔ ((p : ℕ) → bit marks.now.heard.items p ≡ true
        → bit word.now.items p ≡ bit marks.now.value.items p) }
{
    let mut agreed = true;
    for i in 0..marks.heard.len().div_ceil(64) {
        let at = 64 * i;
        agreed &= marks.heard.window(at) & (marks.value.window(at) ^ word.window(at)) == 0;
    }
    agreed
}
