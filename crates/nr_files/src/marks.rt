//! Marks of places as lists of bits, written a word at a time.

ghost use Rattle.std.specs.Prelude.{◌≡◌, ℕ, ◌+◌, ◌^◌, ◌≤◌, ◌&&◌, ◌||◌, nat_le, nat_lt, true, length};
ghost use Rattle.std.specs.Prelude.{take, drop, replicate, IfOk};
ghost use Rattle.nr_bitvec.specs.{Bit.bit, BitList.low_first};

use nr_bitvec::Bits;
use std::alloc::{AllocError, Global};

// A mark at each of `count` places, at most 2^24.
pub(crate) fn ones(alloc: Global, count: u32) -> Result<Bits, AllocError>
    requires { count ≤ 2 ^ 24 }
    ensures { IfOk result (λ marks. marks.items ≡ replicate count true) }
{
    let mut marks = Bits::with_room(alloc, count)?;
    let count = count as usize;
    for i in 0..count.div_ceil(64) {
        marks.push_word((count - 64 * i).min(64), u64::MAX);
    }
    Ok(marks)
}

// Marks the places from `from` up to `end`, and not `end`, which the list has.
pub(crate) fn mark(marks: &mut Bits, from: usize, end: usize)
    requires { end ≤ length marks.old.items }
    ensures long { length marks.new.items ≡ length marks.old.items }
    ensures marked { (m : ℕ) → bit marks.new.items m
        ≡ (bit marks.old.items m || (nat_le from m && nat_lt m end)) }
{
    let count = end.saturating_sub(from);
    for i in 0..count.div_ceil(64) {
        marks.put(from + 64 * i, (count - 64 * i).min(64), u64::MAX);
    }
}

// The marks of at most 2^24 places as a list of bits.
pub(crate) fn packed(alloc: Global, marks: &[bool]) -> Result<Bits, AllocError>
    requires { length marks.now ≤ 2 ^ 24 }
    ensures { IfOk result (λ bits. bits.items ≡ marks.now) }
{
    let count = marks.len();
    let mut bits = Bits::with_room(alloc, count as u32)?;
    for i in 0..count.div_ceil(64) {
        let wide = (count - 64 * i).min(64);
        bits.push_word(wide, gather(marks, 64 * i, wide));
    }
    Ok(bits)
}

// The `count` marks from place `from` on, at most 64, the first lowest.
fn gather(marks: &[bool], from: usize, count: usize) -> u64
    requires count { count ≤ 64 }
    requires inside { from + count ≤ length marks.now }
    ensures { low_first count result ≡ take count (drop from marks.now) }
{
    let mut word = 0;
    for j in 0..count {
        word |= u64::from(marks[from + j]) << j;
    }
    word
}
