//! 64 generators that draw places side by side: bit j of a word belongs to generator j.

ghost use Rattle.std.specs.Prelude.{◌≡◌, ℕ, ◌+◌, ◌++◌, ◌^◌, ◌<◌, ◌≤◌, ◌==◌, IfOk, count_by};
ghost use Rattle.std.specs.Prelude.{if◌then◌else◌, length, map};
ghost use Rattle.std.specs.Prelude.{nat_lt, not, slice_index, slice_index_or};
ghost use Rattle.std.specs.Int.{bit_at};
ghost use Rattle.std.specs.List.{range_with_len};
ghost use Rattle.nr_bitvec.specs.Bit.{bit};
ghost use Rattle.rand_pcg.specs.Pcg.{pcg32};
ghost use Rattle.nr_drawing.specs.Drawing.{AreRounds, IsAmong, drawn_by, seeded};

use crate::STREAM;
use crate::states::{draw_all, states_of};
use rand_core::utils::NextWord;
use rand_pcg::Pcg32;
use std::alloc::{AllocError, Global};

/// Returns a generator for each seed, in the same order.
///
/// # Errors
///
/// `AllocError` if an allocation fails.
pub fn side_by_side(alloc: Global, seeds: &[u64]) -> Result<Vec<Pcg32>, AllocError>
    ensures { IfOk result (λ generators. generators.items ≡ map seeded seeds.now) }
{
    let mut generators = Vec::new(alloc);
    for seed in seeds {
        generators.push(Pcg32::new(*seed, STREAM))?;
    }
    Ok(generators)
}

/// Draws the next places of some of 64 generators: those whose numbers, 0 to 63, `listed` holds in ascending order. `arrived`
/// gets a word for each place, whose bit j is cleared if generator j draws the place and set otherwise. Returns how many places
/// each of these generators has drawn. Nothing is promised of the bits, counts and states of generators that are not listed.
/// Allocates nothing.
pub fn draw_side(
    generators: &mut [Pcg32],
    listed: &[usize],
    threshold: u32,
    arrived: &mut [u64],
) -> [u32; 64]
    requires generators { length generators.old ≡ 64 }
    requires listed { AreRounds listed.now }
    requires few { length arrived.old < 2 ^ 32 }
    ensures arrived { (j m : ℕ) → IsAmong listed.now j → m < length arrived.old
        → (bit_at (slice_index arrived.new m) j == 1)
        ≡ not (bit (drawn_by generators.old threshold (length arrived.old) j) m) }
    ensures counted { (j : ℕ) → IsAmong listed.now j → slice_index result j
        ≡ count_by (bit (drawn_by generators.old threshold (length arrived.old) j))
        (range_with_len 0 (length arrived.old)) }
    ensures next { (j n : ℕ) → IsAmong listed.now j
        → drawn_by generators.old threshold (length arrived.old + n) j
        ≡ drawn_by generators.old threshold (length arrived.old) j
        ++ drawn_by generators.new threshold n j }
    ensures long { length arrived.new ≡ length arrived.old }
    ensures all { length generators.new ≡ 64 }
{
    if listed.len() == 64 {
        if let Some(states) = states_of(generators) {
            return draw_all(generators, states, threshold, arrived);
        }
    }
    let mut counts = [0; 64];
    for m in 0..arrived.len() {
        arrived[m] = !draw_few(generators, listed, threshold, &mut counts);
    }
    counts
}

// Takes one word of each listed generator. Bit j of the result tells whether the word of generator j is below the threshold, and if
// so, its count goes up by one.
fn draw_few(
    generators: &mut [Pcg32],
    listed: &[usize],
    threshold: u32,
    counts: &mut [u32; 64],
) -> u64
    requires generators { length generators.old ≡ 64 }
    requires listed { AreRounds listed.now }
    requires few { (j : ℕ) → j < 64 → slice_index counts.old j + 1 < 2 ^ 32 }
    ensures drawn { (j : ℕ) → IsAmong listed.now j → (bit_at result j == 1)
        ≡ nat_lt (pcg32 (slice_index_or generators.old j (seeded 0))).0 threshold }
    ensures counted { (j : ℕ) → IsAmong listed.now j → slice_index counts.new j
        ≡ slice_index counts.old j + (if bit_at result j == 1 then 1 else 0) }
    ensures most { (j : ℕ) → j < 64 → slice_index counts.new j ≤ slice_index counts.old j + 1 }
    ensures next { (j : ℕ) → IsAmong listed.now j → slice_index_or generators.new j (seeded 0)
        ≡ (pcg32 (slice_index_or generators.old j (seeded 0))).1 }
    ensures long { length generators.new ≡ length generators.old }
{
    let mut word = 0;
    for i in 0..listed.len() {
        let round = listed[i];
        let drawn = generators[round].next_word() < threshold;
        word |= u64::from(drawn) << round;
        counts[round] += u32::from(drawn);
    }
    word
}
