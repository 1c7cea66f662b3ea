//! Places drawn by a random generator, PCG32 of `rand_pcg`, from a seed and a threshold: place n is drawn if and only if word n
//! of the generator is below the threshold. Contracts cite specs/Drawing.antt.
//!
//! `drawn` returns the drawn places as a list of bits, `overwrite` writes an octet at each of them without allocating, and
//! `draw_side` draws for up to 64 generators at once.
#![tactic(auto)]

ghost use Rattle.std.specs.Prelude.{◌≡◌, ℕ, ◌+◌, ◌++◌, ◌^◌, ◌≤◌, length, IfOk};
ghost use Rattle.nr_bitvec.specs.BitList.{low_first};
ghost use Rattle.nr_drawing.specs.Drawing.{AreOverwritten, marks_drawn, places_drawn};

mod side;
mod states;

use nr_bitvec::{Bits, reversed};
use rand_core::utils::NextWord;
use rand_pcg::Pcg32;
pub use side::{draw_side, side_by_side};
use std::alloc::{AllocError, Global};

// The stream of the generator.
const STREAM: u64 = 54;

/// Returns one bit for each of the first `count` places (at most 2^24), set if the place is drawn.
///
/// # Errors
///
/// `AllocError` if an allocation fails.
pub fn drawn(alloc: Global, seed: u64, threshold: u32, count: u32) -> Result<Bits, AllocError>
    requires { count ≤ 2 ^ 24 }
    ensures { IfOk result (λ marks. marks.items ≡ places_drawn seed threshold count) }
{
    // A second generator begins at the second half, and the two draw in turn: neither waits for a word of the other.
    let half = count / 128;
    let mut early = Pcg32::new(seed, STREAM);
    let mut late = Pcg32::new(seed, STREAM);
    late.advance(64 * u64::from(half));
    let mut marks = Bits::with_room(alloc, count)?;
    let mut behind = Bits::with_room(alloc, 64 * half)?;
    for _ in 0..half {
        let words = draw_both(&mut early, &mut late, threshold);
        marks.push_word(64, words.0);
        behind.push_word(64, words.1);
    }
    let left = count as usize - 128 * half as usize;
    marks.extend_range(&behind, 0, 64 * half as usize);
    push_draws(&mut marks, &mut late, threshold, left);
    Ok(marks)
}

/// Writes `octet` at each drawn place and leaves all others unchanged. Allocates nothing.
pub fn overwrite(seed: u64, threshold: u32, octet: u8, octets: &mut [u8])
    ensures { AreOverwritten octet (places_drawn seed threshold (length octets.old))
        octets.old octets.new }
{
    let mut generator = Pcg32::new(seed, STREAM);
    for i in 0..octets.len() {
        if generator.next_word() < threshold {
            octets[i] = octet;
        }
    }
}

// Takes the next `count` words of the generator and appends a bit for each, set if it is below the threshold. The list has room for
// them.
fn push_draws(marks: &mut Bits, generator: &mut Pcg32, threshold: u32, count: usize)
    requires { count ≤ marks.old.room }
    ensures { marks.new.items ≡ marks.old.items ++ marks_drawn threshold count generator.old }
{
    for i in 0..count.div_ceil(64) {
        let wide = (count - 64 * i).min(64);
        let word = draw(generator, threshold, wide);
        marks.push_word(wide, word);
    }
}

// Takes the next 64 words of both generators. Bit i of a result is set if word i of that generator is below the threshold.
fn draw_both(early: &mut Pcg32, late: &mut Pcg32, threshold: u32) -> (u64, u64)
    ensures early { (n : ℕ) → low_first 64 result.0 ++ marks_drawn threshold n early.new
        ≡ marks_drawn threshold (64 + n) early.old }
    ensures late { (n : ℕ) → low_first 64 result.1 ++ marks_drawn threshold n late.new
        ≡ marks_drawn threshold (64 + n) late.old }
{
    // The negative of the marks so far, the last lowest: to subtract a mark takes one instruction.
    let mut first: u64 = 0;
    let mut second: u64 = 0;
    for _ in 0..64u32 {
        first = (first << 1).wrapping_sub(u64::from(early.next_word() < threshold));
        second = (second << 1).wrapping_sub(u64::from(late.next_word() < threshold));
    }
    (
        reversed(first.wrapping_neg()),
        reversed(second.wrapping_neg()),
    )
}

// Takes the next `count` words of the generator, at most 64. Bit i is set if word i is below the threshold.
fn draw(generator: &mut Pcg32, threshold: u32, count: usize) -> u64
    requires { count ≤ 64 }
    ensures { (n : ℕ) → low_first count result ++ marks_drawn threshold n generator.new
        ≡ marks_drawn threshold (count + n) generator.old }
{
    let mut word = 0;
    for j in 0..count {
        word |= u64::from(generator.next_word() < threshold) << j;
    }
    word
}
