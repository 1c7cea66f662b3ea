//! What is known of a code block, in lanes, and how a row of blocks fixes positions: all its rows at a time.

ghost use Rattle.std.specs.Prelude.{◌≡◌, ◌+◌, ◌-◌, ◌*◌, ◌%◌, ◌^◌, ◌<◌, ◌≤◌, ◌==◌, ◌||◌};
ghost use Rattle.std.specs.Prelude.{ℕ, if◌then◌else◌, All, not, IfOk, count_by, false, length, slice_index, take, true};
ghost use Rattle.nr_peel.specs.inside.{Certificates.HasRoom, Due.work_of, Lanes.TakesLane, Lanes.lacks, Starts.AreBlank};
ghost use Rattle.nr_peel.specs.inside.{Copies.IsSameSeen, Copies.LanesFit, Seen.NeedsNoLook, Seen.has_seen, State.lifted_checks};
ghost use Rattle.nr_peel.specs.inside.{Searches.may_wait, Sweeps.AreLanes, Sweeps.BlockCountsOf, Sweeps.IsBlockSought};
ghost use Rattle.nr_peel.specs.inside.Sweeps.{has_count, lane_words};
ghost use Rattle.nr_bitvec.specs.{Bit.bit, Packed.IsClear};
ghost use Rattle.nr_lifting.specs.DoubledLanes.{is_set, marked_count};
ghost use Rattle.nr_shifttable.specs.{Accepted.IsTable, Accepted.entries_in, Tails.row_of, Tails.value_in};
ghost use Rattle.nr_ldpcenc.specs.{Parity.parity, Rows.one_at, Rows.positions};

use crate::bit_parallel::row_counts::RowCounts;
use crate::bit_parallel::seen_lanes::SeenLanes;
use crate::bit_parallel::steps::Steps;
use crate::lifted::Lifted;
use nr_lifting::{DoubledLanes, common, is_blank, lane_count};
use nr_shifttable::Entry;
use std::alloc::{AllocError, Global};

// The sum of the bits of each row of a row of blocks, modulo two.
pub(crate) fn row_sum<const W: usize, const D: usize>(
    bits: &DoubledLanes<W, D>,
    lifted: &Lifted<'_>,
    row: &[Entry],
) -> [u64; W]
    requires same { bits.now.lanes ≡ lifted.now.plan.z }
    requires columns { All (λ e. (e.col + 1) * lifted.now.plan.z ≤ length bits.now.items) row.now }
    ensures sums { (t : ℕ) → t < lifted.now.plan.z → is_set result t
        ≡ parity (bit bits.now.items) (positions lifted.now.plan.set lifted.now.plan.z t row.now) }
    ensures clear { IsClear result lifted.now.plan.z }
{
    let mut sum = [0; W];
    for entry in row {
        let rotation = lifted.rotation(entry);
        bits.add_rotated(usize::from(entry.col), rotation as usize, &mut sum);
    }
    sum
}

// The rows of a row block that have one unknown position each, and the sum of the bits of every row of it. An unknown
// position takes the sum of its row.
#[derive(Drop)]
pub(crate) struct RowsWithOne<const W: usize> {
    pub(crate) ones: [u64; W],
    pub(crate) sums: [u64; W],
}

// The rotation that undoes another, without a division.
fn turned_back(size: u32, rotation: u32) -> u32
    requires { rotation < size }
    ensures value { result ≡ (size - rotation) % size }
    ensures small { result < size }
{
    if rotation == 0 { 0 } else { size - rotation }
}

// What is known of a code block: the positions that are, and their bits (zero elsewhere). Then which of them the counts of
// the rows know of. A lane takes `W` words, and a doubled lane `D`, twice as many.
#[derive(Drop)]
pub(crate) struct Lanes<const W: usize, const D: usize> {
    pub(crate) known: DoubledLanes<W, D>,
    pub(crate) bits: DoubledLanes<W, D>,
    pub(crate) seen: SeenLanes<W>,
}

impl<const W: usize, const D: usize> Lanes<W, D> {
    // Nothing is known.
    pub(crate) fn new(alloc: Global, lifted: &Lifted<'_>) -> Result<Lanes<W, D>, AllocError>
        requires table { IsTable lifted.now.table.now }
        requires words { W ≤ 6 }
        requires short { lifted.now.plan.z ≤ 64 * W }
        requires twice { D ≡ 2 * W }
        requires fit { W ≡ lane_words lifted.now.plan.z }
        ensures { IfOk result (AreBlank (lifted_checks lifted.now)) }
    {
        let size = lifted.plan.z as usize;
        let cols = lifted.plan.graph.cols() as usize;
        let known = DoubledLanes::new(alloc, cols, size)?;
        let bits = DoubledLanes::new(alloc, cols, size)?;
        let seen = SeenLanes::new(alloc, lifted)?;
        Ok(Lanes { known, bits, seen })
    }

    // The same is known as by another peeler of the code, and the counts know of the same.
    pub(crate) fn copy_from(&mut self, from: &Lanes<W, D>)
        requires { LanesFit self.old from.now }
        ensures known { self.new.known ≡ from.now.known }
        ensures bits { self.new.bits ≡ from.now.bits }
        ensures seen { IsSameSeen from.now.seen self.new.seen }
    {
        self.known.copy_from(&from.known);
        self.bits.copy_from(&from.bits);
        self.seen.copy_from(&from.seen);
    }

    // The rows of a lane fix the positions of the block of entry `k` of row block `i` that aren't known, to each row's sum.
    // `seen` tells which rows, since the row block is caught up.
    pub(crate) fn fix_lane(
        &mut self,
        lifted: &Lifted<'_>,
        order: &mut Steps,
        i: usize,
        k: usize,
        entry: &Entry,
        rows: &RowsWithOne<W>,
    )
        requires short { lifted.now.plan.z ≤ 64 * W }
        requires block { i < 46 }
        requires entry { slice_index self.old.seen.starts i + k < length self.old.seen.lanes.items }
        requires seen { (t : ℕ) → t < lifted.now.plan.z → has_seen self.old.seen i k t
            ≡ bit self.old.known.items (one_at lifted.now.plan.z t entry.now.col (value_in lifted.now.plan.set entry.now)) }
        requires known { (entry.now.col + 1) * lifted.now.plan.z ≤ length self.old.known.items }
        requires bits { (entry.now.col + 1) * lifted.now.plan.z ≤ length self.old.bits.items }
        requires column { entry.now.col < 68 }
        requires same { self.old.known.lanes ≡ lifted.now.plan.z }
        requires same_bits { self.old.bits.lanes ≡ lifted.now.plan.z }
        requires clear { IsClear rows.now.ones lifted.now.plan.z }
        requires room { HasRoom order.old (length order.old.list.items
            + marked_count (lacks lifted.now.plan.z entry.now.col (value_in lifted.now.plan.set entry.now)
            rows.now.ones (bit self.old.known.items)) lifted.now.plan.z) }
        ensures { TakesLane lifted.now i k entry.now rows.now.ones rows.now.sums self.old self.new order.old order.new }
    {
        let size = lifted.plan.z;
        let lane = self.seen.missing(i, k, &rows.ones);
        if !is_blank(&lane) {
            let rotation = lifted.rotation(entry);
            let col = usize::from(entry.col);
            order.add_lane(entry, size, rotation, &lane);
            let back = turned_back(size, rotation);
            let set = common(&lane, &rows.sums);
            self.known.union_rotated(col, &lane, back as usize);
            self.seen.mark_column(col, false);
            self.seen.fix(i, k, col, &lane);
            if !is_blank(&set) {
                self.bits.union_rotated(col, &set, back as usize);
            }
        }
    }

    // Whether nothing is known of the column of a row block's last entry. From row block 4 on no other row block has this
    // column.
    fn has_leaf(&self, i: u32, row: &[Entry]) -> bool {
        if i < 4 || row.len() < 2 {
            return false;
        }
        let last = &row[row.len() - 1];
        !self.seen.has_begun(usize::from(last.col))
    }

    // Finds the entry that holds the one unknown position of these check rows: the last entry if nothing is known of its column,
    // otherwise the first such. Also returns how many entries were read, which the bound on operations counts.
    #[tactic(auto, using(crate::proofs::RowTallyFacts::row_fits))]
    fn first_missing(
        &self,
        lifted: &Lifted<'_>,
        i: u32,
        row: &[Entry],
        ones: &[u64; W],
    ) -> (usize, u64)
        requires table { IsTable lifted.now.table.now }
        requires block { i < (lifted_checks lifted.now).rows }
        requires row { row.now ≡ row_of (entries_in lifted.now.plan.graph lifted.now.table.now) i }
        requires lanes { AreLanes (lifted_checks lifted.now) self.now }
        requires one { (t : ℕ) → t < lifted.now.plan.z → is_set ones.now t ≡ true
            → count_by (λ p. not (bit self.now.known.items p)) ((lifted_checks lifted.now).row i t) ≡ 1 }
        ensures inside { result.0 ≤ length row.now }
        ensures known { (t : ℕ) → t < lifted.now.plan.z → is_set ones.now t ≡ true
            → count_by (λ p. not (bit self.now.known.items p))
            (take result.0 ((lifted_checks lifted.now).row i t)) ≡ 0 }
        ensures few { result.1 ≤ 1 }
        ensures least { result.1 ≡ 1 → 2 ≤ length row.now }
    {
        if row.len() < 2 || !self.has_leaf(i, row) {
            return (0, 0);
        }
        let last = row.len() - 1;
        let entry = &row[last];
        let rotation = lifted.rotation(entry);
        let known = self.known.lane(usize::from(entry.col), rotation as usize);
        if !is_blank(&common(&known, ones)) {
            return (0, 1);
        }
        (last, 1)
    }

    // Whether row block `i` may wait: nothing is known of the column that it alone has, so that its rows fix nothing else.
    pub(crate) fn may_wait(&self, lifted: &Lifted<'_>, i: u32) -> bool
        requires block { i < (lifted_checks lifted.now).rows }
        requires lanes { AreLanes (lifted_checks lifted.now) self.now }
        ensures { result ≡ true → may_wait (lifted_checks lifted.now) self.now.known.items i ≡ true }
    {
        if i < 4 {
            return false;
        }
        let own = (lifted.plan.graph.info_cols() + i) as usize;
        !self.seen.has_begun(own) && is_blank(&self.known.lane(own, 0))
    }

    // The rows of row block `i` with a count of one fix their positions. Returns these rows. If there are some, an entry is at most
    // two operations: one for the sum, one for what it fixes.
    #[tactic(auto, using(crate::proofs::RowTallyFacts::row_fits))]
    pub(crate) fn search_block(
        &mut self,
        lifted: &Lifted<'_>,
        counts: &mut RowCounts<W>,
        order: &mut Steps,
        i: u32,
    ) -> [u64; W]
        requires table { IsTable lifted.now.table.now }
        requires block { i < (lifted_checks lifted.now).rows }
        requires lanes { AreLanes (lifted_checks lifted.now) self.old }
        requires own { NeedsNoLook (lifted_checks lifted.now) i self.old.seen }
        requires same { counts.old.lanes ≡ lifted.now.plan.z }
        requires long { length counts.old.items
            ≡ (lifted_checks lifted.now).rows * lifted.now.plan.z }
        requires counted { BlockCountsOf (lifted_checks lifted.now) (bit self.old.known.items)
            counts.old.items i }
        requires room { HasRoom order.old (length order.old.list.items
            + marked_count (λ t. has_count 1 counts.old.items (i * lifted.now.plan.z + t))
            lifted.now.plan.z) }
        requires few { counts.old.operations < 2 ^ 63 }
        ensures sought { IsBlockSought (lifted_checks lifted.now) i result self.old self.new order.old order.new }
        ensures ones { (t : ℕ) → t < lifted.now.plan.z → is_set result t ≡ true
            → slice_index counts.old.items (i * lifted.now.plan.z + t) ≡ 1 }
        ensures all { (t : ℕ) → t < lifted.now.plan.z
            → slice_index counts.old.items (i * lifted.now.plan.z + t) ≡ 1 → is_set result t ≡ true }
        ensures clear { IsClear result lifted.now.plan.z }
        ensures none { marked_count (is_set result) lifted.now.plan.z ≡ 0
            → (self.new ≡ self.old) × (order.new ≡ order.old) }
        ensures counts { counts.new.items ≡ counts.old.items }
        ensures lanes { counts.new.lanes ≡ counts.old.lanes }
        ensures operations { counts.old.operations
            + (if bit counts.old.due i then 1 else 0)
            + (if marked_count (is_set result) lifted.now.plan.z == 0 then 0
            else length (row_of (entries_in lifted.now.plan.graph lifted.now.table.now) i))
            ≤ counts.new.operations }
        ensures worked { work_of counts.new ≤ work_of counts.old
            + 3 * (marked_count (is_set result) lifted.now.plan.z
            * length (row_of (entries_in lifted.now.plan.graph lifted.now.table.now) i)) }
    {
        let ones = counts.ones(i as usize);
        if lane_count(&ones) == 0 {
            return ones;
        }
        let row = lifted.row(i);
        let (from, read) = self.first_missing(lifted, i, row, &ones);
        let sums = row_sum(&self.bits, lifted, row);
        let rows = RowsWithOne { ones, sums };
        counts.count_operations(read + 2 * row.len() as u64 - from as u64);
        for k in from..row.len() {
            self.fix_lane(lifted, order, i as usize, k, &row[k], &rows);
        }
        ones
    }
}
