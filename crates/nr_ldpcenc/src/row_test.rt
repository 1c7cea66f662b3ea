//! Checks a word, one row of blocks at a time.

ghost use Rattle.std.specs.Prelude.{◌≡◌, ◌↔◌, ℕ, ◌+◌, ◌*◌, ◌<◌, ◌≤◌, false, length, IsTrue};
ghost use Rattle.nr_bitvec.specs.Bit.{bit};
ghost use Rattle.nr_ldpcenc.specs.{inside.Doubled.col_bit, inside.Doubled.AreTwice, Rows.plan_checks, Rows.Meets};
ghost use Rattle.nr_ldpcenc.specs.inside.Solving.{sum_before};
ghost use Rattle.nr_segment.specs.CodeBlock.{positions_of};

use crate::doubled_columns::{add_row, load_columns};
use crate::solver::set_in;
use nr_bitvec::Bits;
use nr_lifting::{AtEachSize, AtSize, BlockOperation, Lane, is_blank};
use nr_segment::Plan;
use nr_shifttable::{Entry, Table};

// Whether a word meets each row of a row of blocks, which has no column from `columns` on.
fn row_is_met<const Z: usize, const W: usize>(
    set: usize,
    row: &[Entry],
    columns: usize,
    cols: &[u64],
) -> bool
    requires above { 64 * W < Z + 64 }
    requires below { Z ≤ 64 * W }
    requires some { 0 < Z }
    requires most { W ≤ 6 }
    requires set { set < 8 }
    requires few { columns ≤ 68 }
    requires words { length cols.now ≡ 816 }
    requires twice { AreTwice Z columns cols.now }
    ensures { IsTrue result ↔ ((t : ℕ) → t < Z
        → sum_before set Z (col_bit Z cols.now) columns t row.now ≡ false) }
{
    let mut sum = [0; W];
    add_row::<Z, W>(set, row, columns, cols, &mut sum);
    let lane: Lane<Z, W> = Lane::clipped(&sum);
    is_blank(lane.words())
}

// The test whether a word meets every row, as `meets`.
#[derive(Drop)]
pub(crate) struct TestWord<'a> {
    pub(crate) table: &'a Table,
    pub(crate) plan: &'a Plan,
    pub(crate) bits: &'a Bits,
}

impl BlockOperation for TestWord<'_> {
    type Answer = bool;

    ghost ready = { λ t z. (t.plan.now.z ≡ z) × (length t.bits.now.items ≡ positions_of t.plan.now) };

    ghost done = { λ t z met _. IsTrue met ↔ Meets (plan_checks t.table.now t.plan.now) (bit t.bits.now.items) };
}

impl<const Z: usize, const W: usize> AtSize<Z, W> for TestWord<'_> {
    fn run(&mut self) -> bool {
        let (table, plan) = (self.table, self.plan);
        let set = set_in(plan) as usize;
        let columns = plan.graph.cols() as usize;
        let mut cols = [0; 816];
        load_columns::<Z, W>(columns, self.bits, &mut cols);
        for i in 0..plan.graph.rows() {
            if !row_is_met::<Z, W>(set, table.row_entries(plan.graph, i), columns, &cols) {
                return false;
            }
        }
        true
    }
}

impl AtEachSize for TestWord<'_> {}
