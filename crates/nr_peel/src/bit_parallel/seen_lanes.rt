//! What the counts of the rows know of: for each entry of the base graph, in which rows its position.

ghost use Rattle.std.specs.Prelude.{◌≡◌, ℕ, ◌+◌, ◌*◌, ◌<◌, ◌≤◌, ◌==◌, ◌&&◌, ◌||◌, [], All};
ghost use Rattle.std.specs.Prelude.{IfOk, get_or, length, not, set, slice_index, false, true};
ghost use Rattle.std.specs.Int.{bit_at};
ghost use Rattle.nr_bitvec.specs.{Bit.bit, Packed.IsClear};
ghost use Rattle.nr_lifting.specs.DoubledLanes.{is_set};
ghost use Rattle.nr_shifttable.specs.{Accepted.IsTable, Accepted.entries_in, Tails.row_of};
ghost use Rattle.nr_peel.specs.inside.Seen.{HasLooked, HasSeenNone, MarksColumn, has_seen, is_behind, is_stale};
ghost use Rattle.nr_peel.specs.inside.{Copies.IsSameSeen, State.lifted_checks};

use crate::lifted::Lifted;
use nr_bitvec::words::low_bits;
use nr_lifting::{add_lane, is_blank, without};
use std::alloc::{AllocError, Global};

// The row blocks that have an entry in each column, a bit each.
#[tactic(auto, using(crate::proofs::TableGridFacts::rows_short))]
fn find_holders(lifted: &Lifted<'_>) -> [u64; 68]
    requires { IsTable lifted.now.table.now }
    ensures { (i : ℕ) → i < (lifted_checks lifted.now).rows → All (λ e. bit_at (slice_index result e.col) i ≡ 1)
        (row_of (entries_in lifted.now.plan.graph lifted.now.table.now) i) }
{
    let mut holders = [0; 68];
    for i in 0..lifted.plan.graph.rows() {
        for entry in lifted.row(i) {
            holders[usize::from(entry.col)] |= 1 << i;
        }
    }
    holders
}

// Which positions the counts of the rows know of.
#[derive(Drop)]
pub(crate) struct SeenLanes<const W: usize> {
    // For each entry, row block after row block, the rows whose counts know of its position.
    pub(crate) lanes: Vec<[u64; W]>,
    // Where the entries of a row block begin.
    pub(crate) starts: [u16; 47],
    // Which row blocks have an entry in a column.
    pub(crate) holders: [u64; 68],
    // Which row blocks have not yet seen the new positions of a column.
    pub(crate) stale: [u64; 68],
    // Whether any position of a column ever became known.
    pub(crate) begun: [bool; 68],
    // Whether all positions of a column became known at once.
    pub(crate) whole: [bool; 68],
    // Which row blocks may have an entry to look at.
    pub(crate) behind: u64,
    // The lane of all rows.
    pub(crate) all: [u64; W],
}

impl<const W: usize> SeenLanes<W> {
    // The counts know of nothing, and nothing is known.
    #[tactic(auto, using(crate::proofs::TableGridFacts::rows_short))]
    pub(crate) fn new(alloc: Global, lifted: &Lifted<'_>) -> Result<SeenLanes<W>, AllocError>
        requires table { IsTable lifted.now.table.now }
        requires words { W ≤ 6 }
        requires short { lifted.now.plan.z ≤ 64 * W }
        ensures { IfOk result (HasSeenNone (lifted_checks lifted.now)) }
    {
        let rows = lifted.plan.graph.rows() as usize;
        let mut starts = [0; 47];
        for i in 0..rows {
            starts[i + 1] = starts[i] + lifted.row(i as u32).len() as u16;
        }
        let count = usize::from(starts[rows]);
        let lanes = vec![in alloc; [0; W]; count]?;
        let mut all = [0; W];
        for i in 0..W {
            all[i] = low_bits(u64::MAX, (lifted.plan.z as usize).saturating_sub(64 * i));
        }
        Ok(SeenLanes {
            lanes,
            starts,
            holders: find_holders(lifted),
            stale: [0; 68],
            begun: [false; 68],
            whole: [false; 68],
            behind: 0,
            all,
        })
    }

    // The counts know of what those of another peeler of the code do.
    pub(crate) fn copy_from(&mut self, from: &SeenLanes<W>)
        requires { length self.old.lanes.items ≡ length from.now.lanes.items }
        ensures { IsSameSeen from.now self.new }
    {
        self.lanes.copy_from_slice(&from.lanes);
        self.starts = from.starts;
        self.holders = from.holders;
        self.stale = from.stale;
        self.begun = from.begun;
        self.whole = from.whole;
        self.behind = from.behind;
        self.all = from.all;
    }

    // Whether any position of a column ever became known.
    pub(crate) fn has_begun(&self, j: usize) -> bool {
        let begun = &self.begun;
        j < 68 && begun[j]
    }

    // Positions of a column became known, and maybe the whole column at once. All row blocks have yet to look at it, and those
    // with an entry in it have not caught up.
    pub(crate) fn mark_column(&mut self, j: usize, whole: bool)
        requires { j < 68 }
        ensures { MarksColumn j whole self.old self.new }
    {
        self.stale[j] = u64::MAX;
        self.begun[j] = true;
        self.whole[j] = whole;
        self.behind |= self.holders[j];
    }

    // Whether row block `i` may have an entry to look at.
    pub(crate) fn is_behind(&self, i: usize) -> bool
        requires { i < 64 }
        ensures { result ≡ is_behind self.now i }
    {
        self.behind >> i & 1 == 1
    }

    // Row block `i` has looked at all its entries.
    #[tactic(auto, using(crate::proofs::SeenLaneFacts::rest_from))]
    pub(crate) fn mark_caught_up(&mut self, i: usize)
        requires { i < 64 }
        ensures behind { (h : ℕ) → h < 64 → is_behind self.new h ≡ (is_behind self.old h && not (i == h)) }
        ensures others { self.new ≡ record self.old { behind = self.new.behind } }
    {
        self.behind &= !(1 << i);
    }

    // Whether row block `i` has yet to look at column `j`.
    pub(crate) fn is_stale(&self, i: usize, j: usize) -> bool
        requires block { i < 64 }
        requires column { j < 68 }
        ensures { result ≡ is_stale self.now i j }
    {
        let stale = &self.stale;
        stale[j] >> i & 1 == 1
    }

    // Row block `i` looks at column `j`, that of its entry `k`, whose position is known in the rows of a lane. Returns the rows
    // whose counts didn't know of it.
    pub(crate) fn take_news(&mut self, i: usize, k: usize, j: usize, known: &[u64; W]) -> [u64; W]
        requires block { i < 46 }
        requires entry { slice_index self.old.starts i + k < length self.old.lanes.items }
        requires column { j < 68 }
        ensures fresh { (t : ℕ) → is_set result t ≡ (is_set known.now t && not (has_seen self.old i k t)) }
        ensures clear { (n : ℕ) → IsClear known.now n → IsClear result n }
        ensures lanes { self.new.lanes.items
            ≡ set self.old.lanes.items (slice_index self.old.starts i + k) known.now }
        ensures looked { HasLooked i j self.old self.new }
    {
        let at = usize::from(self.starts[i]) + k;
        let fresh = without(known, &self.lanes[at]);
        self.lanes[at] = *known;
        self.stale[j] &= !(1 << i);
        fresh
    }

    // As `take_news`, of a column that became known at once and that the counts of no row knew of. No lane of the column is read.
    // Returns whether the column is such a one.
    pub(crate) fn take_whole(&mut self, i: usize, k: usize, j: usize) -> bool
        requires block { i < 46 }
        requires entry { slice_index self.old.starts i + k < length self.old.lanes.items }
        requires column { j < 68 }
        ensures no { result ≡ false → self.new ≡ self.old }
        ensures yes { result ≡ true → bit self.old.whole j ≡ true }
        ensures none { result ≡ true → (t : ℕ) → has_seen self.old i k t ≡ false }
        ensures lanes { result ≡ true → self.new.lanes.items
            ≡ set self.old.lanes.items (slice_index self.old.starts i + k) self.old.all }
        ensures looked { result ≡ true → HasLooked i j self.old self.new }
    {
        let at = usize::from(self.starts[i]) + k;
        let whole = &self.whole;
        if !whole[j] || !is_blank(&self.lanes[at]) {
            return false;
        }
        self.lanes[at] = self.all;
        self.stale[j] &= !(1 << i);
        true
    }

    // The rows of a lane whose counts don't know of the position of entry `k` of row block `i`.
    pub(crate) fn missing(&self, i: usize, k: usize, rows: &[u64; W]) -> [u64; W]
        requires block { i < 46 }
        requires entry { slice_index self.now.starts i + k < length self.now.lanes.items }
        ensures bits { (t : ℕ) → is_set result t ≡ (is_set rows.now t && not (has_seen self.now i k t)) }
        ensures clear { (n : ℕ) → IsClear rows.now n → IsClear result n }
    {
        without(rows, &self.lanes[usize::from(self.starts[i]) + k])
    }

    // Row block `i` fixed the position of its entry `k`, in column `j`, in the rows of a lane whose counts didn't know of it. They
    // know of it now, so that the row block has no look to take at this column.
    pub(crate) fn fix(&mut self, i: usize, k: usize, j: usize, rows: &[u64; W])
        requires block { i < 46 }
        requires entry { slice_index self.old.starts i + k < length self.old.lanes.items }
        requires column { j < 68 }
        requires apart { (t : ℕ) → is_set rows.now t ≡ true → has_seen self.old i k t ≡ false }
        ensures seen { (e t : ℕ) → is_set (get_or self.new.lanes.items e []) t
            ≡ (is_set (get_or self.old.lanes.items e []) t || ((slice_index self.old.starts i + k == e) && is_set rows.now t)) }
        ensures long { length self.new.lanes.items ≡ length self.old.lanes.items }
        ensures looked { HasLooked i j self.old self.new }
    {
        let lane = &mut self.lanes[usize::from(self.starts[i]) + k];
        add_lane(lane, rows);
        self.stale[j] &= !(1 << i);
    }
}
