//! How the counts of a row block follow what became known, entry by entry.

ghost use Rattle.std.specs.Prelude.{◌≡◌, ◌+◌, ◌*◌, ◌^◌, ◌<◌, ℕ, count_by, length, not, slice_index, sum};
ghost use Rattle.std.specs.Prelude.{true};
ghost use Rattle.nr_bitvec.specs.{Bit.bit, Packed.IsClear};
ghost use Rattle.nr_lifting.specs.DoubledLanes.{is_set};
ghost use Rattle.nr_shifttable.specs.Accepted.{IsTable};
ghost use Rattle.nr_peel.specs.inside.{Due.work_of, Seen.CountsOthers, Seen.CountsUnseen, Seen.NeedsNoLook, State.lifted_checks};
ghost use Rattle.nr_peel.specs.inside.{Settled.LanesCatchUp, Settled.RowsSettle, Sweeps.AreLanes};

use crate::bit_parallel::lanes::Lanes;
use crate::bit_parallel::row_counts::RowCounts;
use crate::lifted::Lifted;
use nr_lifting::lane_count;

impl<const W: usize, const D: usize> Lanes<W, D> {
    // The counts of row block `i` fall by the positions that they don't know of yet. Returns how many pairs there are of a row
    // and such a position of it. An entry whose column gained nothing since its last turn is passed over.
    pub(crate) fn catch_up(&mut self, lifted: &Lifted<'_>, counts: &mut RowCounts<W>, i: u32) -> u64
        requires table { IsTable lifted.now.table.now }
        requires block { i < (lifted_checks lifted.now).rows }
        requires lanes { AreLanes (lifted_checks lifted.now) self.old }
        requires same { counts.old.lanes ≡ lifted.now.plan.z }
        requires long { length counts.old.items ≡ (lifted_checks lifted.now).rows * lifted.now.plan.z }
        requires counted { CountsUnseen (lifted_checks lifted.now) self.old.seen counts.old.items }
        requires few { sum counts.old.items < 2 ^ 64 }
        requires roomy { work_of counts.old + 2 * sum counts.old.items < 2 ^ 63 }
        ensures { LanesCatchUp (lifted_checks lifted.now) i result self.old self.new counts.old counts.new }
    {
        let row = lifted.row(i);
        let mut visits = 0;
        for k in 0..row.len() {
            let entry = &row[k];
            let col = usize::from(entry.col);
            if self.seen.is_stale(i as usize, col) {
                if self.seen.take_whole(i as usize, k, col) {
                    counts.lower(i as usize, &self.seen.all, true);
                    visits += u64::from(lifted.plan.z);
                    continue;
                }
                let rotation = lifted.rotation(entry);
                let known = self.known.lane(col, rotation as usize);
                let fresh = self.seen.take_news(i as usize, k, col, &known);
                let count = lane_count(&fresh);
                if count != 0 {
                    counts.lower(i as usize, &fresh, count == lifted.plan.z);
                    visits += u64::from(count);
                }
            }
        }
        self.seen.mark_caught_up(i as usize);
        visits
    }

    // These rows have fixed their last unknown position: their counts drop to zero.
    pub(crate) fn settle(
        &mut self,
        lifted: &Lifted<'_>,
        counts: &mut RowCounts<W>,
        i: u32,
        ones: &[u64; W],
    )
        requires table { IsTable lifted.now.table.now }
        requires block { i < (lifted_checks lifted.now).rows }
        requires lanes { AreLanes (lifted_checks lifted.now) self.old }
        requires same { counts.old.lanes ≡ lifted.now.plan.z }
        requires long { length counts.old.items ≡ (lifted_checks lifted.now).rows * lifted.now.plan.z }
        requires own { NeedsNoLook (lifted_checks lifted.now) i self.old.seen }
        requires counted { CountsOthers (lifted_checks lifted.now) i ones.now self.old.seen counts.old.items }
        requires clear { IsClear ones.now lifted.now.plan.z }
        requires one { (t : ℕ) → t < lifted.now.plan.z → is_set ones.now t ≡ true
            → slice_index counts.old.items (i * lifted.now.plan.z + t) ≡ 1 }
        requires whole { (t : ℕ) → t < lifted.now.plan.z → is_set ones.now t ≡ true
            → count_by (λ p. not (bit self.old.known.items p)) ((lifted_checks lifted.now).row i t) ≡ 0 }
        requires room { counts.old.operations + 1 < 2 ^ 64 }
        ensures { RowsSettle (lifted_checks lifted.now) i ones.now self.old self.new counts.old counts.new }
    {
        self.seen.mark_caught_up(i as usize);
        counts.lower(i as usize, ones, lane_count(ones) == lifted.plan.z);
    }
}
