//! Peeling of sets of positions side by side, a set for each bit of a word: what is known in up to 64 rounds.

ghost use Rattle.std.specs.Prelude.{◌≡◌, ◌+◌, ◌-◌, ◌*◌, ◌<◌, ◌≤◌, ◌&&◌, ℕ, IsTrue, false, true};
ghost use Rattle.std.specs.Prelude.{length};
ghost use Rattle.nr_bitvec.specs.Bit.{bit};
ghost use Rattle.nr_graphpick.specs.Graph.{info_cols_of};
ghost use Rattle.nr_shifttable.specs.Accepted.{IsTable, entries_in};
ghost use Rattle.nr_ldpcenc.specs.Rows.{plan_checks};
ghost use Rattle.nr_peel.specs.{Closure.Within, Closure.closure, Slices.slice, inside.Slices.IsSwept, inside.Slices.NoneLoneBut};
ghost use Rattle.nr_peel.specs.inside.State.{lifted_checks};

use crate::lifted::{Lifted, reciprocal};
use crate::slices::visiting::visit_unless;
use nr_segment::Plan;
use nr_shifttable::{Table, laws};

pub(crate) mod lacking;
mod visiting;

// The most rows of a row of blocks.
const MOST_LANES: usize = 384;

// The most rows of blocks.
const MOST_ROWS: usize = 46;

// Goes over all rows once, but those that are left out. Whether some row had exactly one position outside a set.
fn sweep(
    lifted: &Lifted<'_>,
    left_out: &[bool; MOST_ROWS],
    some: &mut [u64],
    more: &mut [u64],
    known: &mut [u64],
) -> bool
    requires table { IsTable lifted.now.table.now }
    requires some { 384 ≤ length some.old }
    requires more { 384 ≤ length more.old }
    requires long { length known.old ≡ (lifted_checks lifted.now).size }
    ensures swept { IsSwept (lifted_checks lifted.now) result known.old known.new }
    ensures none { result ≡ false → NoneLoneBut (lifted_checks lifted.now) (bit left_out.now) known.old
        (lifted_checks lifted.now).rows }
    ensures some_long { length some.new ≡ length some.old }
    ensures more_long { length more.new ≡ length more.old }
{
    let mut again = false;
    for i in 0..lifted.plan.graph.rows() {
        let row = lifted.row(i);
        if visit_unless(lifted, row, left_out[i as usize], some, more, known) {
            again = true;
        }
    }
    again
}

// Sweeps until nothing changes.
fn sweep_all(lifted: &Lifted<'_>, left_out: &[bool; MOST_ROWS], known: &mut [u64])
    requires table { IsTable lifted.now.table.now }
    requires long { length known.old ≡ (lifted_checks lifted.now).size }
    ensures kept { (j : ℕ) → j < 64 → Within (slice known.old j) (slice known.new j) }
    ensures inside { (j : ℕ) → j < 64
        → Within (slice known.new j) (closure (lifted_checks lifted.now) (slice known.old j)) }
    ensures none { NoneLoneBut (lifted_checks lifted.now) (bit left_out.now) known.new (lifted_checks lifted.now).rows }
    ensures long { length known.new ≡ length known.old }
{
    let mut some = [0; MOST_LANES];
    let mut more = [0; MOST_LANES];
    'sweeps: while sweep(lifted, left_out, &mut some, &mut more, known) {}
}

// Makes each set its closure: over all rows.
fn close_slices(table: &Table, plan: &Plan, known: &mut [u64])
    requires { length known.old ≡ (plan_checks table.now plan.now).size }
    ensures closed { (j p : ℕ) → j < 64 → slice known.new j p
        ≡ closure (plan_checks table.now plan.now) (slice known.old j) p }
    ensures long { length known.new ≡ length known.old }
{
    // Each table is an accepted one, so that its parity checks are sound.
    laws::tables_are_sound(table);
    let lifted = Lifted {
        table,
        plan: *plan,
        reciprocal: reciprocal(plan.z),
    };
    sweep_all(&lifted, &[false; MOST_ROWS], known);
}

// Whether `count` words from `from` on are zero.
fn is_blank(known: &[u64], from: usize, count: usize) -> bool
    requires { from + count ≤ length known.now }
    ensures { IsTrue result → (j u : ℕ) → u < count → slice known.now j (from + u) ≡ false }
{
    for u in 0..count {
        if known[from + u] != 0 {
            return false;
        }
    }
    true
}

// The rows of blocks from 4 on of whose own columns no set has a position.
fn unheard(lifted: &Lifted<'_>, known: &[u64]) -> [bool; MOST_ROWS]
    requires { length known.now ≡ (lifted_checks lifted.now).size }
    ensures { (i : ℕ) → bit result i ≡ true → 4 ≤ i }
{
    let z = lifted.plan.z as usize;
    let parity = lifted.plan.graph.info_cols() as usize;
    let mut left_out = [false; MOST_ROWS];
    for i in 4..lifted.plan.graph.rows() as usize {
        left_out[i] = is_blank(known, (parity + i) * z, z);
    }
    left_out
}

// Whether no set has a position of the own columns of the rows of blocks that are left out.
fn are_unheard(lifted: &Lifted<'_>, left_out: &[bool; MOST_ROWS], known: &[u64]) -> bool
    requires { length known.now ≡ (lifted_checks lifted.now).size }
    ensures { IsTrue result → (i j u : ℕ) → i < (lifted_checks lifted.now).rows → u < lifted.now.plan.z
        → bit left_out.now i ≡ true
        → slice known.now j ((info_cols_of lifted.now.plan.graph + i) * lifted.now.plan.z + u) ≡ false }
{
    let z = lifted.plan.z as usize;
    let parity = lifted.plan.graph.info_cols() as usize;
    for i in 0..lifted.plan.graph.rows() as usize {
        if left_out[i] && !is_blank(known, (parity + i) * z, z) {
            return false;
        }
    }
    true
}

/// Adds to each of 64 sets of positions of a code block all that they fix before the extension columns (TS 38.212, 5.3.2).
/// Set j has the positions whose word has bit j. Of what they fix in the extension columns it may add some. Rows are left out
/// where nothing is given of their own columns. Takes no memory.
pub fn close_low(table: &Table, plan: &Plan, known: &mut [u64])
    requires long { length known.old ≡ (plan_checks table.now plan.now).size }
    requires there { 0 < length (entries_in plan.now.graph table.now) }
    ensures kept { (j : ℕ) → j < 64 → Within (slice known.old j) (slice known.new j) }
    ensures inside { (j : ℕ) → j < 64
        → Within (slice known.new j) (closure (plan_checks table.now plan.now) (slice known.old j)) }
    ensures low { (j p : ℕ) → j < 64 → p < (info_cols_of plan.now.graph + 4) * plan.now.z
        → slice known.new j p ≡ closure (plan_checks table.now plan.now) (slice known.old j) p }
    ensures long { length known.new ≡ length known.old }
{
    // Each table is an accepted one, so that its parity checks are sound.
    laws::tables_are_sound(table);
    let lifted = Lifted {
        table,
        plan: *plan,
        reciprocal: reciprocal(plan.z),
    };
    let left_out = unheard(&lifted, known);
    sweep_all(&lifted, &left_out, known);
    if !are_unheard(&lifted, &left_out, known) {
        close_slices(table, plan, known);
    }
}
