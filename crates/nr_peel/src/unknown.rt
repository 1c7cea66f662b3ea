//! Which positions of a code block are known and which aren't, and how many.

ghost use Rattle.std.specs.Prelude.{◌≡◌, ◌+◌, ◌-◌, ◌^◌, ◌<◌, ◌≤◌, ◌==◌, ◌++◌, ℕ, not, true};
ghost use Rattle.std.specs.{Prelude.filter, Prelude.length, Prelude.IfOk, Prelude.OnOk, Int.bit_at, List.range_with_len};
ghost use Rattle.nr_bitvec.specs.{Bit.bit, Marks.marked_bit, Marks.marks_with};
ghost use Rattle.nr_peel.specs.{Peeling.gained_in, Peeling.left_of, Peeling.unknown_in, State.any_bits, State.any_known};
ghost use Rattle.nr_peel.specs.inside.{State.lifted_checks, Sweeps.AreLanes};

use crate::any_sweep::AnySweep;
use crate::bit_parallel::lanes::Lanes;
use crate::bit_parallel::learning::read_lane;
use crate::lifted::Lifted;
use nr_bitvec::Bits;
use nr_lifting::{lane_count, without};
use std::alloc::{AllocError, Global};

// Adds those of `count` positions from `at` on that a word doesn't mark, the first of them by its lowest bit. Mostly it marks
// all.
fn push_unknown(unknown: &mut Vec<u32>, at: u32, count: u32, word: u64) -> Result<(), AllocError>
    requires few { count ≤ 64 }
    requires short { at + count < 2 ^ 32 }
    ensures { OnOk result (unknown.new.items ≡ unknown.old.items
        ++ filter (λ p. not (bit_at word (p - at) == 1)) (range_with_len at count)) }
{
    if word == u64::MAX {
        return Ok(());
    }
    for j in 0..count {
        if word >> j & 1 == 0 {
            unknown.push(at + j)?;
        }
    }
    Ok(())
}

impl<const W: usize, const D: usize> Lanes<W, D> {
    // How many positions below K' aren't known, if the fillers are.
    pub(crate) fn left(&self, lifted: &Lifted<'_>) -> u32
        requires lanes { AreLanes (lifted_checks lifted.now) self.now }
        requires fillers { (p : ℕ) → lifted.now.plan.kdash ≤ p → p < lifted.now.plan.k
            → bit self.now.known.items p ≡ true }
        ensures { result ≡ left_of lifted.now.plan.kdash self.now.known.items }
    {
        let size = lifted.plan.z;
        let mut left = 0;
        for j in 0..lifted.plan.k / size {
            left += size - lane_count(&self.known.lane(j as usize, 0));
        }
        left
    }

    // How many positions are known and not given, a column at a time.
    #[tactic(auto, using(crate::proofs::MarkedFacts::marked_bounds, crate::proofs::StartFacts::size_most, crate::proofs::UnknownFacts::counted_marked))]
    pub(crate) fn gained(&self, lifted: &Lifted<'_>, given: &Bits) -> u32
        requires lanes { AreLanes (lifted_checks lifted.now) self.now }
        requires given { length given.now.items ≡ (lifted_checks lifted.now).size }
        ensures { result ≡ gained_in self.now.known.items given.now.items }
    {
        let size = lifted.plan.z as usize;
        let mut gained = 0;
        for j in 0..lifted.plan.graph.cols() as usize {
            let known = self.known.lane(j, 0);
            let lane: [u64; W] = read_lane(given, j * size, size);
            gained += lane_count(&without(&known, &lane));
        }
        gained
    }
}

impl AnySweep {
    // The bit of a position, if it is known.
    pub(crate) fn known(&self, pos: usize) -> Option<bool>
        requires known { pos < length (any_known self.now) }
        requires bits { pos < length (any_bits self.now) }
        ensures { result ≡ marked_bit (marks_with (any_known self.now) (any_bits self.now)) pos }
    {
        if self.known_from(pos).0 & 1 == 1 {
            Some(self.bits_from(pos).0 & 1 == 1)
        } else {
            None
        }
    }

    // The positions that aren't known, ascending.
    pub(crate) fn unknown(&self, alloc: Global, size: u32) -> Result<Vec<u32>, AllocError>
        requires { length (any_known self.now) ≡ size }
        ensures { IfOk result (λ v. v.items ≡ unknown_in (any_known self.now)) }
    {
        let mut unknown = Vec::new(alloc);
        let mut at = 0;
        while at < size {
            let (word, count) = self.known_from(at as usize);
            push_unknown(&mut unknown, at, count as u32, word)?;
            at += count as u32;
        }
        Ok(unknown)
    }
}
