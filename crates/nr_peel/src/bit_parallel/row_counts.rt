//! For each row the count of its positions that aren't known. A row block is due if rows of it may have a count of one. Each
//! search and each lowering of a row block's counts is an operation.

ghost use Rattle.std.specs.Prelude.{◌≡◌, ◌≢◌, ℕ, ◌+◌, ◌*◌, ◌^◌, ◌<◌, ◌≤◌, ◌==◌, ◌&&◌};
ghost use Rattle.std.specs.Prelude.{IfOk, if◌then◌else◌, false, length, slice_index, true};
ghost use Rattle.nr_bitvec.specs.{Bit.bit, Packed.IsClear};
ghost use Rattle.nr_lifting.specs.DoubledLanes.{is_set, marked_count};
ghost use Rattle.nr_peel.specs.inside.Due.{due_in, with_operations, work_of};

use nr_lifting::{BitSlicedCounts, lane_count};
use std::alloc::AllocError;
use std::marker::Model;

// Counts of rows. A row block that isn't due has no row with a count of one.
#[derive(Drop)]
pub(crate) struct RowCounts<const W: usize> {
    planes: BitSlicedCounts<5, W>,
    due: [bool; 46],
    operations: u64,
}

impl<const W: usize> Model for RowCounts<W> {
    ghost use Rattle.nr_peel.specs.inside.Due.{AreKept, DueCounts, due_counts};

    ghost Value = { DueCounts };

    ghost view = { λ a. due_counts a.planes a.due a.operations };

    ghost invariant = { λ a. AreKept a.planes a.due };
}

impl<const W: usize> RowCounts<W> {
    // Counts of row blocks, in each of which all are as `degrees` has it. Due are those whose count is one.
    #[tactic(auto, using(crate::proofs::DueBlockFacts::due_none, crate::proofs::DueBlockFacts::due_more, std::proofs::lemmas::Grind::common_steps))]
    pub(crate) fn new(planes: BitSlicedCounts<5, W>, degrees: &[u8]) -> RowCounts<W>
        requires some { 0 < planes.lanes }
        requires few { length degrees.now ≤ 46 }
        requires long { length planes.items ≡ length degrees.now * planes.lanes }
        requires alike { (i t : ℕ) → t < planes.lanes
            → slice_index planes.items (i * planes.lanes + t) ≡ slice_index degrees.now i }
        ensures items { result.items ≡ planes.entry.items }
        ensures lanes { result.lanes ≡ planes.entry.lanes }
        ensures worked { work_of result ≤ length degrees.now }
    {
        let mut due = [false; 46];
        for i in 0..degrees.len() {
            due[i] = degrees[i] == 1;
        }
        RowCounts {
            planes,
            due,
            operations: 0,
        }
    }

    // Takes the counts of as many other rows.
    pub(crate) fn copy_from(&mut self, from: &RowCounts<W>)
        requires lanes { self.old.lanes ≡ from.now.lanes }
        requires long { length self.old.items ≡ length from.now.items }
        ensures { self.new ≡ from.now }
    {
        self.planes.copy_from(&from.planes);
        self.due = from.due;
        self.operations = from.operations;
    }

    // Takes one off those counts of row block `i` that a lane marks. None of them is 0. The row block is due then. If all
    // of them are marked, no count is read.
    #[tactic(auto, using(crate::proofs::DueBlockFacts::kept_low))]
    pub(crate) fn lower(&mut self, i: usize, lane: &[u64; W], whole: bool)
        requires block { (i + 1) * self.old.lanes ≤ length self.old.items }
        requires whole { whole ≡ true → (t : ℕ) → t < self.old.lanes → is_set lane.now t ≡ true }
        requires enough { (t : ℕ) → t < self.old.lanes
            → (if is_set lane.now t then 1 else 0) ≤ slice_index self.old.items (i * self.old.lanes + t) }
        requires room { self.old.operations + 1 < 2 ^ 64 }
        ensures falls { (h t : ℕ) → t < self.old.lanes
            → slice_index self.new.items (h * self.old.lanes + t)
            + (if (i == h) && is_set lane.now t then 1 else 0)
            ≡ slice_index self.old.items (h * self.old.lanes + t) }
        ensures long { length self.new.items ≡ length self.old.items }
        ensures lanes { self.new.lanes ≡ self.old.lanes }
        ensures operations { self.new.operations ≡ self.old.operations + 1 }
        ensures due { due_in self.new.due ≤ due_in self.old.due + 1 }
    {
        self.operations += 1;
        self.due[i] = true;
        if whole {
            self.planes.lower_each(i);
        } else {
            self.planes.lower(i, lane);
        }
    }

    // Marks those counts of row block `i` that are exactly one. If it isn't due nothing is read.
    #[tactic(auto, using(crate::proofs::DueBlockFacts::kept_low, crate::proofs::DueBlockFacts::kept_none))]
    pub(crate) fn ones(&mut self, i: usize) -> [u64; W]
        requires words { W ≤ 6 }
        requires block { (i + 1) * self.old.lanes ≤ length self.old.items }
        requires room { self.old.operations + 1 < 2 ^ 64 }
        ensures ones { (t : ℕ) → t < self.old.lanes → is_set result t
            ≡ (slice_index self.old.items (i * self.old.lanes + t) == 1) }
        ensures clear { IsClear result self.old.lanes }
        ensures items { self.new.items ≡ self.old.items }
        ensures lanes { self.new.lanes ≡ self.old.lanes }
        ensures operations { self.new.operations
            ≡ self.old.operations + (if bit self.old.due i then 1 else 0) }
        ensures due { due_in self.new.due ≤ due_in self.old.due }
        ensures kept { 0 < marked_count (is_set result) self.old.lanes → self.new.due ≡ self.old.due }
        ensures paid { marked_count (is_set result) self.old.lanes ≡ 0
            → work_of self.new ≡ work_of self.old }
    {
        if !self.due[i] {
            return [0; W];
        }
        self.operations += 1;
        let ones = self.planes.ones(i);
        if lane_count(&ones) == 0 {
            self.due[i] = false;
        }
        ones
    }

    // Whether rows of row block `i` may have a count of one.
    #[tactic(auto, using(crate::proofs::DueBlockFacts::kept_low, crate::proofs::DueBlockFacts::kept_due))]
    pub(crate) fn is_due(&self, i: usize) -> bool
        requires { (i + 1) * self.now.lanes ≤ length self.now.items }
        ensures { result ≡ false → (t : ℕ) → t < self.now.lanes
            → slice_index self.now.items (i * self.now.lanes + t) ≢ 1 }
    {
        let due = &self.due;
        due[i]
    }

    // Counts `n` operations.
    pub(crate) fn count_operations(&mut self, n: u64)
        requires { self.old.operations + n < 2 ^ 64 }
        ensures { self.new ≡ with_operations self.old n }
    {
        self.operations += n;
    }
}
