//! 64 generators of the stream that draw side by side. Their states stand in one array, so that the compiler can use vectors.

ghost use Rattle.std.specs.Prelude.{◌≡◌, ℕ, ◌+◌, ◌++◌, ◌^◌, ◌<◌, ◌≤◌, ◌==◌, IfSome, count_by};
ghost use Rattle.std.specs.Prelude.{if◌then◌else◌, length, nat_lt, not, slice_index, slice_index_or};
ghost use Rattle.std.specs.Int.{bit_at, from_bool};
ghost use Rattle.std.specs.List.{range_with_len};
ghost use Rattle.nr_bitvec.specs.Bit.{bit};
ghost use Rattle.rand_pcg.specs.Lcg.{increment_of, next_state};
ghost use Rattle.rand_pcg.specs.Pcg.{multiplier_64, output_xsh_rr, pcg32};
ghost use Rattle.nr_drawing.specs.Drawing.{drawn_by, seeded};
ghost use Rattle.nr_drawing.specs.inside.Streams.{on_stream};

use crate::STREAM;
use rand_pcg::Pcg32;
use std::simd::prelude::*;

// The multiplier of the generator.
const MULTIPLIER: u64 = 6364136223846793005;

// The increment of the stream.
const INCREMENT: u64 = 109;

// The states of 64 generators, or None if one of them is not on the stream, because then its increment is another.
pub(crate) fn states_of(generators: &[Pcg32]) -> Option<[u64; 64]>
    requires { length generators.now ≡ 64 }
    ensures { IfSome result (λ states. (j : ℕ) → j < 64
        → slice_index_or generators.now j (seeded 0) ≡ on_stream (slice_index states j)) }
{
    let mut states = [0; 64];
    for j in 0..64 {
        let state = generators[j].state();
        if generators[j] != Pcg32::from_state(state, STREAM) {
            return None;
        }
        states[j] = state;
    }
    Some(states)
}

// Draws the next places of all 64 generators, as `draw_side` does. `start` holds their states.
pub(crate) fn draw_all(
    generators: &mut [Pcg32],
    start: [u64; 64],
    threshold: u32,
    arrived: &mut [u64],
) -> [u32; 64]
    requires generators { length generators.old ≡ 64 }
    requires states { (j : ℕ) → j < 64
        → slice_index_or generators.old j (seeded 0) ≡ on_stream (slice_index start j) }
    requires few { length arrived.old < 2 ^ 32 }
    ensures arrived { (j m : ℕ) → j < 64 → m < length arrived.old
        → (bit_at (slice_index arrived.new m) j == 1)
        ≡ not (bit (drawn_by generators.old threshold (length arrived.old) j) m) }
    ensures counted { (j : ℕ) → j < 64 → slice_index result j
        ≡ count_by (bit (drawn_by generators.old threshold (length arrived.old) j))
        (range_with_len 0 (length arrived.old)) }
    ensures next { (j n : ℕ) → j < 64
        → drawn_by generators.old threshold (length arrived.old + n) j
        ≡ drawn_by generators.old threshold (length arrived.old) j
        ++ drawn_by generators.new threshold n j }
    ensures long { length arrived.new ≡ length arrived.old }
    ensures all { length generators.new ≡ 64 }
{
    let mut states = start;
    let mut counts = [0; 64];
    for m in 0..arrived.len() {
        arrived[m] = !draw_word(&mut states, threshold, &mut counts);
    }
    put_back(generators, &states);
    counts
}

// Sets each of the 64 generators to its state.
fn put_back(generators: &mut [Pcg32], states: &[u64; 64])
    requires { length generators.old ≡ 64 }
    ensures each { (j : ℕ) → j < 64
        → slice_index_or generators.new j (seeded 0) ≡ on_stream (slice_index states.now j) }
    ensures long { length generators.new ≡ length generators.old }
{
    for j in 0..64 {
        generators[j] = Pcg32::from_state(states[j], STREAM);
    }
}

// Takes one word of each of the 64 generators. Bit j of the result tells whether the word of generator j is below the threshold,
// and if so, its count goes up by one.
fn draw_word(states: &mut [u64; 64], threshold: u32, counts: &mut [u32; 64]) -> u64
    requires few { (j : ℕ) → j < 64 → slice_index counts.old j + 1 < 2 ^ 32 }
    ensures drawn { (j : ℕ) → j < 64 → (bit_at result j == 1)
        ≡ nat_lt (pcg32 (on_stream (slice_index states.old j))).0 threshold }
    ensures counted { (j : ℕ) → j < 64 → slice_index counts.new j
        ≡ slice_index counts.old j + (if bit_at result j == 1 then 1 else 0) }
    ensures next { (j : ℕ) → j < 64 → on_stream (slice_index states.new j)
        ≡ (pcg32 (on_stream (slice_index states.old j))).1 }
{
    let marks = draw_marks(states, threshold);
    count_marks(&marks, counts);
    packed(u8x64::from_array(marks))
}

// Packs 64 marks into a word: bit j is set if mark j is 1.
fn packed(marks: u8x64) -> u64
    ensures { (j : ℕ) → j < 64 → (bit_at result j == 1) ≡ (slice_index marks j == 1) }
{
    marks.simd_eq(u8x64::splat(1)).to_bitmask()
}

// Takes one word of each of the 64 generators. Mark j is 1 if the word of generator j is below the threshold, otherwise 0.
fn draw_marks(states: &mut [u64; 64], threshold: u32) -> [u8; 64]
    ensures drawn { (j : ℕ) → j < 64 → slice_index result j
        ≡ from_bool (nat_lt (output_xsh_rr (slice_index states.old j)) threshold) }
    ensures next { (j : ℕ) → j < 64 → slice_index states.new j
        ≡ next_state 64 multiplier_64 (increment_of 64 54) (slice_index states.old j) }
{
    let mut marks = [0; 64];
    for j in 0..64 {
        marks[j] = u8::from(word_of(states[j]) < threshold);
        states[j] = next_of(states[j]);
    }
    marks
}

// Adds mark j to count j.
fn count_marks(marks: &[u8; 64], counts: &mut [u32; 64])
    requires small { (j : ℕ) → j < 64 → slice_index marks.now j ≤ 1 }
    requires few { (j : ℕ) → j < 64 → slice_index counts.old j + 1 < 2 ^ 32 }
    ensures { (j : ℕ) → j < 64
        → slice_index counts.new j ≡ slice_index counts.old j + slice_index marks.now j }
{
    for j in 0..64 {
        counts[j] += u32::from(marks[j]);
    }
}

// The output of a state (XSH-RR), as `rand_pcg` computes it.
fn word_of(state: u64) -> u32
    ensures { result ≡ output_xsh_rr state }
{
    let turns = (state >> 59) as u32;
    let word = ((((state >> 18) ^ state) >> 27) & 0xffff_ffff) as u32;
    word.rotate_right(turns)
}

// The state that follows a state on the stream.
fn next_of(state: u64) -> u64
    ensures { result ≡ next_state 64 multiplier_64 (increment_of 64 54) state }
{
    state.wrapping_mul(MULTIPLIER).wrapping_add(INCREMENT)
}
