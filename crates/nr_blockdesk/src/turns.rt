//! Several turns of the buffer in one part. What they tell is put together in the first of them, by words. So a part of many
//! turns of a short buffer takes no longer than one of a long buffer.

ghost use Rattle.std.specs.Prelude.{◌≡◌, ℕ, ◌+◌, ◌<◌, ◌≤◌, ◌||◌, ◌&&◌, Bool, length, min, nat_le};
ghost use Rattle.std.specs.{Prelude.nat_lt, Prelude.IsTrue, List.list_any, List.range_with_len};
ghost use Rattle.nr_ratematch.specs.Selection.{Circular, place_of};
ghost use Rattle.nr_blockdesk.specs.inside.Words.{HasRoomFor, bit_says, received_marks, selected_says};

use crate::selected::Selected;
use nr_bitvec::words::low_bits;
use nr_harqbuf::merge_word;

impl Selected {
    // Puts what the `count` bits from bit `from + at` on tell onto those from bit `at` on. Returns whether none of them is
    // told both values. If every bit was received, the bits are compared and nothing is written.
    fn fold_word(&mut self, from: usize, at: usize, count: usize) -> bool
        requires count { count ≤ 64 }
        requires inside { from + at + count ≤ length self.old.value.items }
        requires both { length (received_marks self.old) ≡ length self.old.value.items }
        ensures said { IsTrue result → (k : ℕ) (v : Bool) → selected_says self.new k v
            ≡ (selected_says self.old k v
            || (nat_le at k && nat_lt k (at + count) && selected_says self.old (from + k) v)) }
        ensures long { length self.new.value.items ≡ length self.old.value.items }
        ensures both { length (received_marks self.new) ≡ length self.old.value.items }
        ensures room { (n : ℕ) → HasRoomFor n self.old → HasRoomFor n self.new }
    {
        // So no place overflows.
        self.value.is_short();
        let bits = self.value.window(from + at);
        if self.whole {
            return low_bits(self.value.window(at) ^ bits, count) == 0;
        }
        let now = self.heard.window(from + at);
        merge_word(&mut self.heard, &mut self.value, at, count, now, bits)
    }

    // Puts what the `count` bits from bit `from` on tell onto those from bit 0 on, as `fold_word` does.
    fn fold(&mut self, from: usize, count: usize) -> bool
        requires apart { count ≤ from }
        requires inside { from + count ≤ length self.old.value.items }
        requires both { length (received_marks self.old) ≡ length self.old.value.items }
        ensures said { IsTrue result → (k : ℕ) (v : Bool) → selected_says self.new k v
            ≡ (selected_says self.old k v || (nat_lt k count && selected_says self.old (from + k) v)) }
        ensures long { length self.new.value.items ≡ length self.old.value.items }
        ensures both { length (received_marks self.new) ≡ length self.old.value.items }
        ensures room { (n : ℕ) → HasRoomFor n self.old → HasRoomFor n self.new }
    {
        // So no place overflows.
        self.value.is_short();
        let mut one_bit = true;
        let mut at = 0;
        while at < count {
            let some = (count - at).min(64);
            one_bit &= self.fold_word(from, at, some);
            at += some;
        }
        one_bit
    }

    // Puts what all turns of the buffer tell onto the first, which has `turn` bits. Returns whether no bit of it is told both
    // values. The turns beyond the second are put onto the first two before, as one turn of twice the length.
    pub(crate) fn fold_turns(&mut self, turn: usize) -> bool
        requires some { 0 < turn }
        requires both { length (received_marks self.old) ≡ length self.old.value.items }
        ensures said { IsTrue result → (b : Circular) (rv : ℕ)
            → ((k : ℕ) → place_of b rv (k + turn) ≡ place_of b rv k) → (p : ℕ) (v : Bool)
            → list_any (bit_says b rv (received_marks self.new) self.new.value.items p v)
            (range_with_len 0 (min (length self.old.value.items) turn))
            ≡ list_any (bit_says b rv (received_marks self.old) self.old.value.items p v)
            (range_with_len 0 (length self.old.value.items)) }
        ensures long { length self.new.value.items ≡ length self.old.value.items }
        ensures both { length (received_marks self.new) ≡ length self.old.value.items }
        ensures room { (n : ℕ) → HasRoomFor n self.old → HasRoomFor n self.new }
    {
        let count = self.value.len();
        if count <= turn {
            return true;
        }
        let one_bit = self.fold_turns(2 * turn);
        one_bit & self.fold(turn, count.min(2 * turn) - turn)
    }
}
