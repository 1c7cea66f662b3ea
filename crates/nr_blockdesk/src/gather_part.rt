//! What a code block's part of a transmission has, put together by words. It goes by runs of the circular buffer, whose
//! places are contiguous in the codeword.

ghost use Rattle.std.specs.Prelude.{◌≡◌, ℕ, ◌+◌, ◌-◌, ◌*◌, ◌<◌, ◌≤◌, ◌==◌, ◌||◌, ◌&&◌};
ghost use Rattle.std.specs.Prelude.{nat_le, nat_lt};
ghost use Rattle.std.specs.Prelude.{length, IsFalse, IsTrue, Bool};
ghost use Rattle.std.specs.{Int.bit_at, List.list_any, List.range_with_len};
ghost use Rattle.nr_bitvec.specs.Bit.{bit};
ghost use Rattle.nr_bitvec.specs.Marks.{marks_in};
ghost use Rattle.nr_harqbuf.specs.Marks.{says, word_says};
ghost use Rattle.nr_ratematch.specs.Selection.{Circular, place_of};
ghost use Rattle.nr_blockdesk.specs.inside.Words.{HasRoomFor, bit_says, positions_on, received_marks};
ghost use Rattle.nr_blockdesk.specs.inside.PartMasks.{AreEmpty, is_listed};

use crate::selected::Selected;
use nr_bitvec::{Bits, Marks};
use nr_harqbuf::merge_word;
use nr_ratematch::Buffer;

// Puts 64 bits one after another into the masks from position `at` on, as `merge_word` does. Mostly none of these
// positions is marked yet.
fn gather_word(part_masks: &mut Marks, at: usize, now: u64, bits: u64) -> bool
    requires inside { at + 64 ≤ length part_masks.old.heard.items }
    ensures part_masks { IsTrue result → (p : ℕ) (v : Bool) → says (marks_in part_masks.new) p v
        ≡ (says (marks_in part_masks.old) p v || word_says at 64 now bits p v) }
    ensures marks { length part_masks.new.heard.items ≡ length part_masks.old.heard.items }
    ensures bits { length part_masks.new.value.items ≡ length part_masks.old.value.items }
{
    let Marks { heard, value } = part_masks;
    if heard.window(at) != 0 {
        return merge_word(heard, value, at, 64, now, bits);
    }
    heard.put(at, 64, now);
    value.put(at, 64, bits);
    true
}

// Puts the `count` selected bits from bit `k` on into the masks, from word `word` on, if their places are contiguous
// there. Returns whether no position that the masks marked before is marked again with the other bit.
fn gather_words(
    selected: &Selected,
    k: usize,
    word: usize,
    count: usize,
    part_masks: &mut Marks,
) -> bool
    requires inside { 64 * word + count ≤ length part_masks.old.heard.items }
    requires selected { k + count ≤ length selected.now.value.items }
    ensures part_masks { IsTrue result → (b : Circular) (rv : ℕ)
        → ((j : ℕ) → j < count → place_of b rv (k + j) ≡ 64 * word + j)
        → (p : ℕ) (v : Bool) → says (marks_in part_masks.new) p v
        ≡ (says (marks_in part_masks.old) p v
        || list_any (bit_says b rv (received_marks selected.now) selected.now.value.items p v) (range_with_len k count)) }
    ensures marks { length part_masks.new.heard.items ≡ length part_masks.old.heard.items }
    ensures bits { length part_masks.new.value.items ≡ length part_masks.old.value.items }
{
    // Lists have at most 2^24 bits, as `len` says: so no place overflows.
    let (_, _) = (part_masks.heard.len(), selected.value.len());
    let mut one_bit = true;
    let whole = count / 64;
    for i in 0..whole {
        let now = selected.marks(k + 64 * i);
        let bits = selected.value.window(k + 64 * i);
        one_bit &= gather_word(part_masks, 64 * (word + i), now, bits);
    }
    let now = selected.marks(k + 64 * whole);
    let bits = selected.value.window(k + 64 * whole);
    one_bit &= merge_word(
        &mut part_masks.heard,
        &mut part_masks.value,
        64 * (word + whole),
        count % 64,
        now,
        bits,
    );
    one_bit
}

// Puts the `count` selected bits from bit `k` on into the masks, from position `position` on, as
// `gather_words` does. The first of them fill a word of the masks, so that the others go by whole words.
fn gather_run(
    selected: &Selected,
    k: usize,
    position: usize,
    count: usize,
    part_masks: &mut Marks,
) -> bool
    requires inside { position + count ≤ length part_masks.old.heard.items }
    requires selected { k + count ≤ length selected.now.value.items }
    ensures part_masks { IsTrue result → (b : Circular) (rv : ℕ)
        → ((j : ℕ) → j < count → place_of b rv (k + j) ≡ position + j)
        → (p : ℕ) (v : Bool) → says (marks_in part_masks.new) p v
        ≡ (says (marks_in part_masks.old) p v
        || list_any (bit_says b rv (received_marks selected.now) selected.now.value.items p v) (range_with_len k count)) }
    ensures marks { length part_masks.new.heard.items ≡ length part_masks.old.heard.items }
    ensures bits { length part_masks.new.value.items ≡ length part_masks.old.value.items }
{
    // Lists have at most 2^24 bits, as `len` says: so no place overflows.
    let (_, _) = (part_masks.heard.len(), selected.value.len());
    let first = count.min((64 - position % 64) % 64);
    let now = selected.marks(k);
    let bits = selected.value.window(k);
    let one_bit = merge_word(
        &mut part_masks.heard,
        &mut part_masks.value,
        position,
        first,
        now,
        bits,
    );
    let word = (position + first) / 64;
    one_bit & gather_words(selected, k + first, word, count - first, part_masks)
}

// Puts the selected bits of a code block into its masks, all turns of the buffer at once. Returns whether they give no
// position both bits; if they do, the masks are empty.
pub(crate) fn gather_part(
    buffer: &Buffer,
    rv: u32,
    selected: &mut Selected,
    part_masks: &mut Marks,
) -> bool
    requires version { rv < 4 }
    requires both { length (received_marks selected.old) ≡ length selected.old.value.items }
    requires empty { AreEmpty (positions_on buffer.now) part_masks.old }
    ensures part_masks { IsTrue result → (p : ℕ) (v : Bool) → says (marks_in part_masks.new) p v
        ≡ list_any (bit_says buffer.now rv (received_marks selected.old) selected.old.value.items p v)
        (range_with_len 0 (length selected.old.value.items)) }
    ensures room { (n : ℕ) → HasRoomFor n selected.old → HasRoomFor n selected.new }
    ensures empty { IsFalse result → AreEmpty (positions_on buffer.now) part_masks.new }
    ensures marks { length part_masks.new.heard.items ≡ length part_masks.old.heard.items }
    ensures bits { length part_masks.new.value.items ≡ length part_masks.old.value.items }
{
    let turn = buffer.turn(rv);
    if !selected.fold_turns(turn as usize) {
        return false;
    }
    let count = (selected.value.len() as u32).min(turn);
    let mut one_bit = true;
    let mut k = 0;
    while k < count {
        let (position, run) = buffer.run(rv, k, count - k);
        one_bit &= gather_run(
            selected,
            k as usize,
            position as usize,
            run as usize,
            part_masks,
        );
        k += run;
    }
    if one_bit {
        return true;
    }
    part_masks.heard.zero();
    false
}

// Sets the bits of a list from bit `at` on that are set in the `count` lowest bits of `now`.
fn mark_word(list: &mut Bits, at: usize, count: usize, now: u64)
    requires count { count ≤ 64 }
    requires inside { at + count ≤ length list.old.items }
    ensures items { (p : ℕ) → bit list.new.items p
        ≡ (bit list.old.items p || (nat_le at p && nat_lt p (at + count) && (bit_at now (p - at) == 1))) }
    ensures long { length list.new.items ≡ length list.old.items }
{
    let before = list.window(at);
    list.put(at, count, before | now);
}

// Puts the `count` selected bits from bit `k` on into two lists, from position `position` on, if their places are contiguous
// there. `told.heard` gets the positions that are told zero, and `told.value` those that are told one.
fn tell_run(selected: &Selected, k: usize, position: usize, count: usize, told: &mut Marks)
    requires inside { position + count ≤ length told.old.heard.items }
    requires selected { k + count ≤ length selected.now.value.items }
    ensures told { (b : Circular) (rv : ℕ) → ((j : ℕ) → j < count → place_of b rv (k + j) ≡ position + j)
        → (p : ℕ) (v : Bool) → is_listed (marks_in told.new) p v ≡ (is_listed (marks_in told.old) p v
        || list_any (bit_says b rv (received_marks selected.now) selected.now.value.items p v) (range_with_len k count)) }
    ensures long { length told.new.heard.items ≡ length told.old.heard.items }
{
    // Lists have at most 2^24 bits, as `len` says: so no place overflows.
    let (_, _) = (told.heard.len(), selected.value.len());
    let mut at = 0;
    while at < count {
        let some = (count - at).min(64 - (position + at) % 64);
        let now = selected.marks(k + at);
        let bits = selected.value.window(k + at);
        mark_word(&mut told.heard, position + at, some, now & !bits);
        mark_word(&mut told.value, position + at, some, now & bits);
        at += some;
    }
}

// Puts the selected bits of a code block into two lists, as `tell_run` does. A position that is told both bits is in both.
pub(crate) fn gather_told(buffer: &Buffer, rv: u32, selected: &Selected, told: &mut Marks)
    requires version { rv < 4 }
    requires empty { AreEmpty (positions_on buffer.now) told.old }
    ensures told { (p : ℕ) (v : Bool) → is_listed (marks_in told.new) p v
        ≡ list_any (bit_says buffer.now rv (received_marks selected.now) selected.now.value.items p v)
        (range_with_len 0 (length selected.now.value.items)) }
    ensures long { length told.new.heard.items ≡ positions_on buffer.now }
{
    told.value.zero();
    let count = selected.value.len() as u32;
    let mut k = 0;
    while k < count {
        let (position, run) = buffer.run(rv, k, count - k);
        tell_run(selected, k as usize, position as usize, run as usize, told);
        k += run;
    }
}
