//! What a peeler was given and what it did, whatever number of words its lanes take.

ghost use Rattle.std.specs.Prelude.{◌≡◌, ◌+◌, ◌<◌, ◌^◌, IfOk, OnErr, OnOk, length};
ghost use Rattle.nr_segment.specs.CodeBlock.{numbers};
ghost use Rattle.nr_peel.specs.{Peeling.fillers, inside.Copies.IsSameProgress, inside.Starts.HasBegun};
ghost use Rattle.nr_peel.specs.inside.State.{lifted_checks};

use crate::bit_parallel::steps::Steps;
use crate::lifted::Lifted;
use nr_bitvec::Bits;
use std::alloc::{AllocError, Global};

// The fillers of a plan, marked.
#[tactic(auto, using(crate::proofs::FillerFacts::filler_facts))]
fn filler_marks(alloc: Global, lifted: &Lifted<'_>) -> Result<Bits, AllocError>
    ensures { IfOk result (λ b. b.items ≡ fillers (lifted_checks lifted.now) (numbers lifted.now.plan)) }
{
    let mut marks = Bits::zeros(alloc, lifted.plan.graph.cols() * lifted.plan.z)?;
    for pos in lifted.plan.kdash..lifted.plan.k {
        marks.set(pos as usize, true);
    }
    Ok(marks)
}

// The positions given, and how many below K' aren't known. Then the steps that fixed positions, and how many visits there
// were of a row and a position of it.
#[derive(Drop)]
pub(crate) struct Progress {
    pub(crate) given: Bits,
    pub(crate) left: u32,
    pub(crate) order: Steps,
    pub(crate) touches: u64,
}

impl Progress {
    // The fillers are given, and nothing was done. There is room for all steps.
    pub(crate) fn new(
        alloc: Global,
        lifted: &Lifted<'_>,
        kept: bool,
    ) -> Result<Progress, AllocError>
        ensures kept { IfOk result (λ p. p.order.kept ≡ kept) }
        ensures begun { IfOk result (HasBegun (lifted_checks lifted.now) (numbers lifted.now.plan)) }
    {
        let given = filler_marks(alloc, lifted)?;
        // Each row fixes one position at most.
        let rows = lifted.plan.graph.rows() as usize * lifted.plan.z as usize;
        let order = Steps::new(alloc, rows, kept)?;
        Ok(Progress {
            given,
            left: 0,
            order,
            touches: 0,
        })
    }

    // The same was given and done as by another peeler of the code. There is room for as many steps.
    pub(crate) fn copy_from(&mut self, from: &Progress) -> Result<(), AllocError>
        requires { length self.old.given.items ≡ length from.now.given.items }
        ensures same { OnOk result (IsSameProgress from.now self.new) }
        ensures err { OnErr result (self.new ≡ self.old) }
    {
        self.order = from.order.try_clone()?;
        self.given.zero();
        self.given.union_with(&from.given);
        self.left = from.left;
        self.touches = from.touches;
        Ok(())
    }

    // Counts visits of a row and a position of it. No other function raises the count.
    pub(crate) fn count_visits(&mut self, visits: u64)
        requires { self.old.touches + visits < 2 ^ 64 }
        ensures { self.new ≡ record self.old { touches = self.old.touches + visits } }
    {
        self.touches += visits;
    }
}
