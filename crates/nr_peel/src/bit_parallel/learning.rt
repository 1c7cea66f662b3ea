//! How positions are given to a sweep, one or many at a time. Then all that follows is fixed.

ghost use Rattle.std.specs.Prelude.{◌≡◌, ◌+◌, ◌*◌, ◌<◌, ◌≤◌, ◌==◌, ◌^◌, ℕ, length};
ghost use Rattle.std.specs.Prelude.{true, IfOk, slice_set};
ghost use Rattle.nr_bitvec.specs.{Bit.bit, Packed.IsClear};
ghost use Rattle.nr_lifting.specs.DoubledLanes.{is_set};
ghost use Rattle.nr_segment.specs.CodeBlock.{numbers};
ghost use Rattle.nr_peel.specs.{inside.Giving.GivesPositions, Peeling.fillers, Peeling.IsStarted, Peeling.left_of};
ghost use Rattle.nr_peel.specs.inside.{State.lifted_checks, State.sweep_view, Sweeps.AreLanes, Sweeps.lane_words, Starts.HasBegun};
ghost use Rattle.nr_peel.specs.inside.{Learning.IsSettled, Learning.Learns, Searches.IsDone, Settled.IsHeld, Settled.Keeps};
ghost use Rattle.nr_shifttable.specs.Accepted.{IsTable};

use crate::bit_parallel::lanes::Lanes;
use crate::bit_parallel::sweep::Sweep;
use crate::lifted::Lifted;
use crate::progress::Progress;
use nr_bitvec::words::low_bits;
use nr_bitvec::{Bits, Marks};
use nr_lifting::{common, is_blank, lane_count};
use std::alloc::{AllocError, Global};

// The block of `size` bits of a list from bit `from` on. Only a last word that isn't full is cut.
#[tactic(auto, using(nr_bitvec::proofs::NumberFacts::cond_one))]
pub(crate) fn read_lane<const W: usize>(bits: &Bits, from: usize, size: usize) -> [u64; W]
    requires few { size ≤ 384 }
    requires words { size ≤ 64 * W }
    requires short { from < 2 ^ 32 }
    ensures bits { (t : ℕ) → t < size → is_set result t ≡ bit bits.now.items (from + t) }
    ensures clear { IsClear result size }
{
    let mut lane = [0; W];
    let whole = size / 64;
    for i in 0..whole {
        lane[i] = bits.window(from + 64 * i);
    }
    let rest = size % 64;
    if rest != 0 {
        let word = bits.window(from + 64 * whole);
        lane[whole] = low_bits(word, rest);
    }
    lane
}

// The lane that marks one row.
fn one_marked<const W: usize>(row: usize) -> [u64; W]
    requires { row < 64 * W }
    ensures marks { (t : ℕ) → is_set result t ≡ (row == t) }
    ensures clear { IsClear result (row + 1) }
{
    let mut lane = [0; W];
    lane[row / 64] |= 1 << (row % 64);
    lane
}

impl<const W: usize, const D: usize> Lanes<W, D> {
    // Positions are given: those that weren't known take their bits.
    #[tactic(auto, using(crate::proofs::GivenLaneFacts::given_none))]
    pub(crate) fn give(&mut self, lifted: &Lifted<'_>, heard: &Bits, values: &Bits)
        requires lanes { AreLanes (lifted_checks lifted.now) self.old }
        requires long { length heard.now.items ≡ (lifted_checks lifted.now).size }
        ensures { GivesPositions (lifted_checks lifted.now) (bit heard.now.items) (bit values.now.items)
            self.old self.new }
    {
        let size = lifted.plan.z as usize;
        for j in 0..lifted.plan.graph.cols() as usize {
            let given: [u64; W] = read_lane(heard, j * size, size);
            let lane = self.known.lacking(j, 0, &given);
            if !is_blank(&lane) {
                let bits = common(&lane, &read_lane(values, j * size, size));
                self.known.union_with(j, &lane);
                self.seen.mark_column(j, lane_count(&lane) == lifted.plan.z);
                self.bits.union_with(j, &bits);
            }
        }
    }

    // The fillers are given, as zeros. Mostly a plan has none.
    pub(crate) fn give_fillers(&mut self, lifted: &Lifted<'_>, marks: &Bits, zeros: &Bits)
        requires lanes { AreLanes (lifted_checks lifted.now) self.old }
        requires marks { marks.now.items ≡ fillers (lifted_checks lifted.now) (numbers lifted.now.plan) }
        ensures { GivesPositions (lifted_checks lifted.now) (bit marks.now.items) (bit zeros.now.items)
            self.old self.new }
    {
        if lifted.plan.kdash < lifted.plan.k {
            self.give(lifted, marks, zeros);
        }
    }

    // A position is given: if it wasn't known it takes its bit.
    pub(crate) fn give_one(&mut self, lifted: &Lifted<'_>, pos: u32, value: bool)
        requires lanes { AreLanes (lifted_checks lifted.now) self.old }
        requires inside { pos < (lifted_checks lifted.now).size }
        ensures { GivesPositions (lifted_checks lifted.now) (λ p. pos == p) (λ p. value)
            self.old self.new }
    {
        if !self.known.get(pos as usize) {
            let j = (pos / lifted.plan.z) as usize;
            let lane = one_marked((pos % lifted.plan.z) as usize);
            self.known.union_with(j, &lane);
            self.seen.mark_column(j, false);
            if value {
                self.bits.union_with(j, &lane);
            }
        }
    }
}

impl<const W: usize, const D: usize> Sweep<W, D> {
    // The fillers alone are given, as zeros.
    pub(crate) fn start(
        alloc: Global,
        lifted: &Lifted<'_>,
        progress: &mut Progress,
    ) -> Result<Sweep<W, D>, AllocError>
        requires table { IsTable lifted.now.table.now }
        requires words { W ≤ 6 }
        requires short { lifted.now.plan.z ≤ 64 * W }
        requires twice { D ≡ 2 * W }
        requires fit { W ≡ lane_words lifted.now.plan.z }
        requires begun { HasBegun (lifted_checks lifted.now) (numbers lifted.now.plan) progress.old }
        ensures settled { IfOk result (IsSettled lifted.now progress.new) }
        ensures kept { IfOk result (λ s. progress.new.order.kept ≡ progress.old.order.kept) }
        ensures started { IfOk result (λ s. IsStarted lifted.now.table.now lifted.now.plan.graph
            (numbers lifted.now.plan) (sweep_view lifted.now progress.new s)) }
    {
        let mut sweep = Sweep::new(alloc, lifted)?;
        // An empty list has zeros alone.
        let zeros = Bits::new(alloc);
        sweep.lanes.give_fillers(lifted, &progress.given, &zeros);
        sweep.go_on(lifted, progress);
        Ok(sweep)
    }

    // All that follows becomes known, and what is left is counted.
    fn go_on(&mut self, lifted: &Lifted<'_>, progress: &mut Progress)
        requires table { IsTable lifted.now.table.now }
        requires held { IsHeld (lifted_checks lifted.now) self.old progress.old }
        requires fillers { (p : ℕ) → lifted.now.plan.kdash ≤ p → p < lifted.now.plan.k
            → bit self.old.lanes.known.items p ≡ true }
        ensures given { progress.new.given ≡ progress.old.given }
        ensures held { IsHeld (lifted_checks lifted.now) self.new progress.new }
        ensures quiet { (i : ℕ) → i < (lifted_checks lifted.now).rows
            → IsDone (lifted_checks lifted.now) progress.new.order.kept self.new i }
        ensures visited { progress.old.touches ≤ progress.new.touches }
        ensures keeps { Keeps (lifted_checks lifted.now) self.old.lanes self.new.lanes
            progress.old.order progress.new.order }
        ensures counted { progress.new.left
            ≡ left_of lifted.now.plan.kdash self.new.lanes.known.items }
    {
        self.propagate(lifted, progress);
        progress.left = self.lanes.left(lifted);
    }

    // Positions are given: those that weren't known take their bits.
    pub(crate) fn learn_all(&mut self, lifted: &Lifted<'_>, progress: &mut Progress, marks: &Marks)
        requires settled { IsSettled lifted.now progress.old self.old }
        requires long { length marks.now.heard.items ≡ (lifted_checks lifted.now).size }
        ensures settled { IsSettled lifted.now progress.new self.new }
        ensures learns { Learns (bit marks.now.heard.items) (bit marks.now.value.items)
            (sweep_view lifted.now progress.old self.old) (sweep_view lifted.now progress.new self.new) }
    {
        progress.given.union_with(&marks.heard);
        self.lanes.give(lifted, &marks.heard, &marks.value);
        self.go_on(lifted, progress);
    }

    // A position is given, and takes a bit if it was not known.
    pub(crate) fn learn(
        &mut self,
        lifted: &Lifted<'_>,
        progress: &mut Progress,
        pos: u32,
        value: bool,
    )
        requires settled { IsSettled lifted.now progress.old self.old }
        requires inside { pos < (lifted_checks lifted.now).size }
        ensures settled { IsSettled lifted.now progress.new self.new }
        ensures learns { Learns (λ p. pos == p) (λ p. value)
            (sweep_view lifted.now progress.old self.old) (sweep_view lifted.now progress.new self.new) }
        ensures given { progress.new.given.items ≡ slice_set progress.old.given.items pos true }
    {
        progress.given.set(pos as usize, true);
        self.lanes.give_one(lifted, pos, value);
        self.go_on(lifted, progress);
    }
}
