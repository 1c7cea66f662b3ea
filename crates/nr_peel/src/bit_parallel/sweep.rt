//! Passes of peeling: row block after row block has its turn, all its rows at a time.

ghost use Rattle.std.specs.Prelude.{◌≡◌, ◌*◌, ◌<◌, ◌≤◌, ℕ, IfOk, length, slice_index};
ghost use Rattle.nr_shifttable.specs.{Accepted.IsTable, Accepted.entries_in, Tails.row_of};
ghost use Rattle.nr_peel.specs.inside.{Settled.IsHeld, Settled.Keeps, Searches.IsDone, Searches.Passes, Searches.Visits};
ghost use Rattle.nr_peel.specs.inside.{Copies.Serves, Copies.SweepsFit, Starts.IsBlankSweep, State.lifted_checks};
ghost use Rattle.nr_peel.specs.inside.Sweeps.{lane_words};

use crate::bit_parallel::lanes::Lanes;
use crate::bit_parallel::row_counts::RowCounts;
use crate::lifted::Lifted;
use crate::progress::Progress;
use nr_lifting::{BitSlicedCounts, lane_count};
use std::alloc::{AllocError, Global};

// For each row block how many positions its rows have, which are their counts with which nothing is known.
#[tactic(auto, using(crate::proofs::TableGridFacts::rows_short))]
fn degrees(lifted: &Lifted<'_>) -> [u8; 46]
    requires { IsTable lifted.now.table.now }
    ensures { (i : ℕ) → i < (lifted_checks lifted.now).rows → slice_index result i
        ≡ length (row_of (entries_in lifted.now.plan.graph lifted.now.table.now) i) }
{
    let mut counts = [0; 46];
    for i in 0..lifted.plan.graph.rows() {
        counts[i as usize] = lifted.row(i).len() as u8;
    }
    counts
}

// What is known of a code block, and for each row the count of its positions that weren't known when counts last fell.
#[derive(Drop)]
pub(crate) struct Sweep<const W: usize, const D: usize> {
    pub(crate) lanes: Lanes<W, D>,
    pub(crate) counts: RowCounts<W>,
}

impl<const W: usize, const D: usize> Sweep<W, D> {
    // Nothing is known.
    pub(crate) fn new(alloc: Global, lifted: &Lifted<'_>) -> Result<Sweep<W, D>, AllocError>
        requires table { IsTable lifted.now.table.now }
        requires words { W ≤ 6 }
        requires short { lifted.now.plan.z ≤ 64 * W }
        requires twice { D ≡ 2 * W }
        requires fit { W ≡ lane_words lifted.now.plan.z }
        ensures { IfOk result (IsBlankSweep (lifted_checks lifted.now)) }
    {
        let lanes = Lanes::new(alloc, lifted)?;
        let degrees = degrees(lifted);
        let degrees = &degrees[..lifted.plan.graph.rows() as usize];
        let planes = BitSlicedCounts::new(alloc, degrees, lifted.plan.z as usize)?;
        let counts = RowCounts::new(planes, degrees);
        Ok(Sweep { lanes, counts })
    }

    // Becomes as another sweep of the code, and serves as well.
    pub(crate) fn copy_from(&mut self, from: &Sweep<W, D>)
        requires { SweepsFit self.old from.now }
        ensures { Serves from.now self.new }
    {
        self.lanes.copy_from(&from.lanes);
        self.counts.copy_from(&from.counts);
    }

    // Row block `i` has its turn. Its counts catch up, each row with a count of one fixes its position, and the counts fall by
    // what they fixed. Whether there is such a row. Before the last pass a row block waits if it can fix its own column alone.
    // One that has nothing to look at and isn't due is passed over.
    fn visit(&mut self, lifted: &Lifted<'_>, progress: &mut Progress, i: u32, last: bool) -> bool
        requires table { IsTable lifted.now.table.now }
        requires block { i < (lifted_checks lifted.now).rows }
        requires held { IsHeld (lifted_checks lifted.now) self.old progress.old }
        ensures { Visits (lifted_checks lifted.now) i last result self.old self.new progress.old progress.new }
    {
        if !self.lanes.seen.is_behind(i as usize) && !self.counts.is_due(i as usize) {
            return false;
        }
        if !last && self.lanes.may_wait(lifted, i) {
            return false;
        }
        let caught = self.lanes.catch_up(lifted, &mut self.counts, i);
        progress.count_visits(caught);
        let ones = self
            .lanes
            .search_block(lifted, &mut self.counts, &mut progress.order, i);
        let rows = lane_count(&ones);
        if rows == 0 {
            return false;
        }
        // Each position of these rows is visited by the sum, and the one that was unknown once more.
        let visits = u64::from(rows) * (lifted.row(i).len() as u64 + 1);
        self.lanes.settle(lifted, &mut self.counts, i, &ones);
        progress.count_visits(visits);
        true
    }

    // The first row blocks have their turns. Whether a row had a count of one. In a last pass no row block waits.
    fn pass(&mut self, lifted: &Lifted<'_>, progress: &mut Progress, rows: u32, last: bool) -> bool
        requires table { IsTable lifted.now.table.now }
        requires few { rows ≤ (lifted_checks lifted.now).rows }
        requires held { IsHeld (lifted_checks lifted.now) self.old progress.old }
        ensures { Passes (lifted_checks lifted.now) rows last result self.old self.new progress.old progress.new }
    {
        let mut found = false;
        for i in 0..rows {
            found |= self.visit(lifted, progress, i, last);
        }
        found
    }

    // How many row blocks lead up to the last one that doesn't wait.
    fn awake(&self, lifted: &Lifted<'_>) -> u32
        ensures { result ≤ (lifted_checks lifted.now).rows }
    {
        let mut rows = 4;
        for i in 4..lifted.plan.graph.rows() {
            let own = (lifted.plan.graph.info_cols() + i) as usize;
            if self.lanes.seen.has_begun(own) {
                rows = i + 1;
            }
        }
        rows
    }

    // Rows with a count of one fix their positions. The row blocks that may not wait go first, since they are mostly few. Those
    // that wait come last, when no other row is left, and only if steps are kept: no receiver asks for what they fix. Whether
    // there is such a row.
    pub(crate) fn search(
        &mut self,
        lifted: &Lifted<'_>,
        progress: &mut Progress,
        awake: u32,
    ) -> bool
        requires table { IsTable lifted.now.table.now }
        requires few { awake ≤ (lifted_checks lifted.now).rows }
        requires held { IsHeld (lifted_checks lifted.now) self.old progress.old }
        ensures { Passes (lifted_checks lifted.now) (lifted_checks lifted.now).rows progress.old.order.kept result
            self.old self.new progress.old progress.new }
    {
        let rows = lifted.plan.graph.rows();
        if self.pass(lifted, progress, awake, false) {
            return true;
        }
        if self.pass(lifted, progress, rows, false) {
            return true;
        }
        if !progress.order.kept {
            return false;
        }
        self.pass(lifted, progress, rows, true)
    }

    // Fixes positions until no row has exactly one unknown position, but for rows whose block waits if no steps are kept.
    pub(crate) fn propagate(&mut self, lifted: &Lifted<'_>, progress: &mut Progress)
        requires table { IsTable lifted.now.table.now }
        requires held { IsHeld (lifted_checks lifted.now) self.old progress.old }
        ensures given { progress.new.given ≡ progress.old.given }
        ensures held { IsHeld (lifted_checks lifted.now) self.new progress.new }
        ensures quiet { (i : ℕ) → i < (lifted_checks lifted.now).rows
            → IsDone (lifted_checks lifted.now) progress.new.order.kept self.new i }
        ensures visited { progress.old.touches ≤ progress.new.touches }
        ensures keeps { Keeps (lifted_checks lifted.now) self.old.lanes self.new.lanes
            progress.old.order progress.new.order }
    {
        let awake = self.awake(lifted);
        'passes: while self.search(lifted, progress, awake) {}
    }
}
