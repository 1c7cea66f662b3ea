//! Where the entries of a base graph lie in the lifted matrix of a plan.

ghost use Rattle.std.specs.Prelude.{◌≡◌, ◌+◌, ◌*◌, ◌/◌, ◌%◌, ◌^◌, ◌<◌, ◌≤◌};
ghost use Rattle.nr_shifttable.specs.{Accepted.entries_in, Tails.column_of, Tails.row_of, Tails.value_in};
ghost use Rattle.nr_ldpcenc.specs.Rows.{one_at};

use nr_segment::Plan;
use nr_shifttable::{Entry, Table};

// What a number is multiplied by in place of a division by a lifting size, which takes longer. The high half of the
// product is the quotient.
pub(crate) fn reciprocal(z: u32) -> u64
    requires { 0 < z }
    ensures { result ≡ 2 ^ 32 / z + 1 }
{
    (1u64 << 32) / u64::from(z) + 1
}

// What is left of a value after it is divided by a lifting size.
#[tactic(auto, using(crate::proofs::QuotientFacts::quotient_facts))]
fn remainder(value: u16, z: u32, reciprocal: u64) -> u32
    requires some { 0 < z }
    requires few { z ≤ 384 }
    requires inverse { reciprocal ≡ 2 ^ 32 / z + 1 }
    ensures { result ≡ value % z }
{
    let whole = (u64::from(value) * reciprocal) >> 32;
    u32::from(value) - whole as u32 * z
}

// A table, and the plan by which it is lifted, with the reciprocal of its lifting size.
#[derive(Clone, Copy)]
pub(crate) struct Lifted<'t> {
    pub(crate) table: &'t Table,
    pub(crate) plan: Plan,
    pub(crate) reciprocal: u64,
    pub(crate) ghost in_sets: { plan.set < 8 },
    pub(crate) ghost inverse: { reciprocal ≡ 2 ^ 32 / plan.z + 1 },
}

impl<'t> Lifted<'t> {
    // An entry's shift value, reduced modulo the lifting size.
    pub(crate) fn rotation(&self, entry: &Entry) -> u32
        ensures value { result ≡ value_in self.now.plan.set entry.now % self.now.plan.z }
        ensures small { result < self.now.plan.z }
        ensures size { self.now.plan.z ≤ 384 }
    {
        remainder(
            entry.values[self.plan.set as usize],
            self.plan.z,
            self.reciprocal,
        )
    }

    // The position that row `lane` of an entry's block has.
    pub(crate) fn place(&self, entry: &Entry, lane: u32) -> u32
        requires { lane < self.now.plan.z }
        ensures { result
            ≡ one_at self.now.plan.z lane entry.now.col (value_in self.now.plan.set entry.now) }
    {
        let z = self.plan.z;
        let rotated = lane + self.rotation(entry);
        let rotated = if rotated < z { rotated } else { rotated - z };
        u32::from(entry.col) * z + rotated
    }

    // The entries of a row of blocks.
    pub(crate) fn row(&self, i: u32) -> &'t [Entry]
        ensures { result.now ≡ row_of (entries_in self.now.plan.graph self.now.table.now) i }
    {
        self.table.row_entries(self.plan.graph, i)
    }

    // The entries of a column of blocks.
    pub(crate) fn column(&self, j: u32) -> &'t [Entry]
        ensures { result.now ≡ column_of (entries_in self.now.plan.graph self.now.table.now) j }
    {
        self.table.col_entries(self.plan.graph, j)
    }
}
