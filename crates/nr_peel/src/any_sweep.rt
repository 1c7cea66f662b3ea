//! A sweep with lanes of one, two, three, four or six words, so that small code blocks stay cheap.

ghost use Rattle.std.specs.Prelude.{◌≡◌, ◌+◌, ◌==◌, ◌<◌, ◌≤◌, ℕ, true, IfOk, length, slice_set};
ghost use Rattle.std.specs.Int.{bit_at};
ghost use Rattle.nr_bitvec.specs.Bit.{bit};
ghost use Rattle.nr_shifttable.specs.Accepted.{IsTable};
ghost use Rattle.nr_segment.specs.CodeBlock.{numbers};
ghost use Rattle.nr_peel.specs.{inside.Learning.IsAnySettled, inside.Learning.Learns, Peeling.IsStarted, Peeling.gained_in};
ghost use Rattle.nr_peel.specs.{inside.Starts.HasBegun, State.any_bits, State.any_known, State.any_view};
ghost use Rattle.nr_peel.specs.inside.{Copies.AnySweepsFit, Copies.ServesAny, State.lifted_checks};

use crate::bit_parallel::sweep::Sweep;
use crate::lifted::Lifted;
use crate::progress::Progress;
use nr_bitvec::Marks;
use std::alloc::{AllocError, Global};

// A sweep whose lanes take one, two, three or four words, or as many as the largest lifting size. No other file tells
// them apart.
#[derive(Drop)]
pub(crate) enum AnySweep {
    One(Sweep<1, 2>),
    Two(Sweep<2, 4>),
    Three(Sweep<3, 6>),
    Four(Sweep<4, 8>),
    Six(Sweep<6, 12>),
}

impl AnySweep {
    // The fillers alone are given, as zeros.
    #[tactic(auto, unfolding(crate::specs::inside::Sweeps::lane_words))]
    pub(crate) fn new(
        alloc: Global,
        lifted: &Lifted<'_>,
        progress: &mut Progress,
    ) -> Result<AnySweep, AllocError>
        requires table { IsTable lifted.now.table.now }
        requires begun { HasBegun (lifted_checks lifted.now) (numbers lifted.now.plan) progress.old }
        ensures settled { IfOk result (IsAnySettled lifted.now progress.new) }
        ensures kept { IfOk result (λ s. progress.new.order.kept ≡ progress.old.order.kept) }
        ensures started { IfOk result (λ s. IsStarted lifted.now.table.now lifted.now.plan.graph
            (numbers lifted.now.plan) (any_view lifted.now progress.new s)) }
    {
        Ok(match lifted.plan.z.div_ceil(64) {
            1 => AnySweep::One(Sweep::start(alloc, lifted, progress)?),
            2 => AnySweep::Two(Sweep::start(alloc, lifted, progress)?),
            3 => AnySweep::Three(Sweep::start(alloc, lifted, progress)?),
            4 => AnySweep::Four(Sweep::start(alloc, lifted, progress)?),
            _ => AnySweep::Six(Sweep::start(alloc, lifted, progress)?),
        })
    }

    // Becomes as another sweep of the code, and serves as well.
    pub(crate) fn copy_from(&mut self, from: &AnySweep)
        requires { AnySweepsFit self.old from.now }
        ensures { ServesAny from.now self.new }
    {
        match (self, from) {
            (AnySweep::One(sweep), AnySweep::One(from)) => sweep.copy_from(from),
            (AnySweep::Two(sweep), AnySweep::Two(from)) => sweep.copy_from(from),
            (AnySweep::Three(sweep), AnySweep::Three(from)) => sweep.copy_from(from),
            (AnySweep::Four(sweep), AnySweep::Four(from)) => sweep.copy_from(from),
            (AnySweep::Six(sweep), AnySweep::Six(from)) => sweep.copy_from(from),
            // The lifting size decides how many words a lane takes.
            _ => unreachable!(),
        }
    }

    // Positions are given: those that weren't known take their bits.
    pub(crate) fn learn_all(&mut self, lifted: &Lifted<'_>, progress: &mut Progress, marks: &Marks)
        requires settled { IsAnySettled lifted.now progress.old self.old }
        requires long { length marks.now.heard.items ≡ (lifted_checks lifted.now).size }
        ensures settled { IsAnySettled lifted.now progress.new self.new }
        ensures learns { Learns (bit marks.now.heard.items) (bit marks.now.value.items)
            (any_view lifted.now progress.old self.old) (any_view lifted.now progress.new self.new) }
    {
        match self {
            AnySweep::One(sweep) => sweep.learn_all(lifted, progress, marks),
            AnySweep::Two(sweep) => sweep.learn_all(lifted, progress, marks),
            AnySweep::Three(sweep) => sweep.learn_all(lifted, progress, marks),
            AnySweep::Four(sweep) => sweep.learn_all(lifted, progress, marks),
            AnySweep::Six(sweep) => sweep.learn_all(lifted, progress, marks),
        }
    }

    // A position is given, and takes a bit if it was not known.
    pub(crate) fn learn(
        &mut self,
        lifted: &Lifted<'_>,
        progress: &mut Progress,
        pos: u32,
        value: bool,
    )
        requires settled { IsAnySettled lifted.now progress.old self.old }
        requires inside { pos < (lifted_checks lifted.now).size }
        ensures settled { IsAnySettled lifted.now progress.new self.new }
        ensures learns { Learns (λ p. pos == p) (λ p. value)
            (any_view lifted.now progress.old self.old) (any_view lifted.now progress.new self.new) }
        ensures given { progress.new.given.items ≡ slice_set progress.old.given.items pos true }
    {
        match self {
            AnySweep::One(sweep) => sweep.learn(lifted, progress, pos, value),
            AnySweep::Two(sweep) => sweep.learn(lifted, progress, pos, value),
            AnySweep::Three(sweep) => sweep.learn(lifted, progress, pos, value),
            AnySweep::Four(sweep) => sweep.learn(lifted, progress, pos, value),
            AnySweep::Six(sweep) => sweep.learn(lifted, progress, pos, value),
        }
    }

    // Which of the positions from one on are known, the first of them lowest, and how many these are.
    pub(crate) fn known_from(&self, pos: usize) -> (u64, usize)
        requires { pos < length (any_known self.now) }
        ensures known { (j : ℕ) → j < result.1
            → (bit_at result.0 j == 1) ≡ bit (any_known self.now) (pos + j) }
        ensures some { 0 < result.1 }
        ensures few { result.1 ≤ 64 }
        ensures inside { pos + result.1 ≤ length (any_known self.now) }
    {
        match self {
            AnySweep::One(sweep) => sweep.lanes.known.word_from(pos),
            AnySweep::Two(sweep) => sweep.lanes.known.word_from(pos),
            AnySweep::Three(sweep) => sweep.lanes.known.word_from(pos),
            AnySweep::Four(sweep) => sweep.lanes.known.word_from(pos),
            AnySweep::Six(sweep) => sweep.lanes.known.word_from(pos),
        }
    }

    // The bits from a position on, the first of them lowest, and how many these are.
    pub(crate) fn bits_from(&self, pos: usize) -> (u64, usize)
        requires { pos < length (any_bits self.now) }
        ensures bits { (j : ℕ) → j < result.1
            → (bit_at result.0 j == 1) ≡ bit (any_bits self.now) (pos + j) }
        ensures some { 0 < result.1 }
        ensures few { result.1 ≤ 64 }
    {
        match self {
            AnySweep::One(sweep) => sweep.lanes.bits.word_from(pos),
            AnySweep::Two(sweep) => sweep.lanes.bits.word_from(pos),
            AnySweep::Three(sweep) => sweep.lanes.bits.word_from(pos),
            AnySweep::Four(sweep) => sweep.lanes.bits.word_from(pos),
            AnySweep::Six(sweep) => sweep.lanes.bits.word_from(pos),
        }
    }

    // How many positions are known and not given.
    pub(crate) fn gained(&self, lifted: &Lifted<'_>, progress: &Progress) -> u32
        requires { IsAnySettled lifted.now progress.now self.now }
        ensures { result ≡ gained_in (any_known self.now) progress.now.given.items }
    {
        match self {
            AnySweep::One(sweep) => sweep.lanes.gained(lifted, &progress.given),
            AnySweep::Two(sweep) => sweep.lanes.gained(lifted, &progress.given),
            AnySweep::Three(sweep) => sweep.lanes.gained(lifted, &progress.given),
            AnySweep::Four(sweep) => sweep.lanes.gained(lifted, &progress.given),
            AnySweep::Six(sweep) => sweep.lanes.gained(lifted, &progress.given),
        }
    }
}
