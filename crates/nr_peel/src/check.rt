//! Checks of fix orders and of stopping sets, which share nothing with the peeler but the places of the entries.

ghost use Rattle.std.specs.Prelude.{◌≡◌, ◌≢◌, ◌*◌, ◌<◌, ◌≤◌, ◌↔◌, ℕ, true, false, Bool, IsTrue};
ghost use Rattle.std.specs.Prelude.{List, count_by, nat_lt, length};
ghost use Rattle.nr_bitvec.specs.Bit.{bit};
ghost use Rattle.nr_shifttable.specs.Accepted.{IsTable};
ghost use Rattle.nr_ldpcenc.specs.Rows.{plan_checks, Meets};
ghost use Rattle.nr_peel.specs.{Closure.AgreeOn, Closure.closure, Closure.stands, inside.State.lifted_checks, declared.fix.Fix.Fix};
ghost use Rattle.nr_peel.specs.Certificates.{IsBeside, IsFixOrder, IsRising, IsStoppingSet, accepts, after_steps};

use crate::fix::Fix;
use crate::lifted::{Lifted, reciprocal};
use nr_bitvec::Bits;
use nr_segment::Plan;
use nr_shifttable::{Table, laws};

// Whether a step is accepted from the marked positions.
fn accepts(lifted: &Lifted<'_>, known: &Bits, step: Fix) -> bool
    requires table { IsTable lifted.now.table.now }
    requires long { length known.now.items ≡ (lifted_checks lifted.now).size }
    ensures { result ≡ accepts (lifted_checks lifted.now) (bit known.now.items) step }
{
    let z = lifted.plan.z;
    let lane = u32::from(step.lane);
    let row = u32::from(step.row);
    if row >= lifted.plan.graph.rows() {
        return false;
    }
    if lane >= z {
        return false;
    }
    if step.pos >= lifted.plan.graph.cols() * z {
        return false;
    }
    let mut there = false;
    for entry in lifted.row(row) {
        let pos = lifted.place(entry, lane);
        if pos == step.pos {
            there = true;
        } else if !known.get(pos as usize) {
            return false;
        }
    }
    there
}

// Whether the first positions are all marked.
fn all_known(known: &Bits, count: u32) -> bool
    requires { count ≤ length known.now.items }
    ensures { IsTrue result ↔ ((p : ℕ) → p < count → bit known.now.items p ≡ true) }
{
    for p in 0..count {
        if !known.get(p as usize) {
            return false;
        }
    }
    true
}

/// Whether the steps are a fix order from the positions that `known` marks, for a code block of a plan. Each step is in
/// range, its position is in its row, and every other position of the row was known before. At the end every position
/// below K' is known. `known` then marks also the positions of the accepted steps, up to the first that was not.
pub fn check_order(table: &Table, plan: &Plan, known: &mut Bits, steps: &[Fix]) -> bool
    requires { length known.old.items
        ≡ (plan_checks table.now plan.now).size }
    ensures yes { IsTrue result
        ↔ IsFixOrder (plan_checks table.now plan.now) plan.now.kdash
        (bit known.old.items) steps.now }
    ensures after { (p : ℕ) → bit known.new.items p
        ≡ after_steps (plan_checks table.now plan.now)
        (bit known.old.items) steps.now p }
    ensures long { length known.new.items ≡ length known.old.items }
    ensures room { known.new.room ≡ known.old.room }
    ensures reached { IsTrue result → (p : ℕ) → p < plan.now.kdash
        → closure (plan_checks table.now plan.now)
        (bit known.old.items) p ≡ true }
    ensures words { IsTrue result → (v w : ℕ → Bool)
        → Meets (plan_checks table.now plan.now) v
        → Meets (plan_checks table.now plan.now) w
        → AgreeOn (bit known.old.items) v w → (p : ℕ) → p < plan.now.kdash → v p ≡ w p }
{
    // Each table is an accepted one, so that its parity checks are sound.
    laws::tables_are_sound(table);
    let lifted = Lifted {
        table,
        plan: *plan,
        reciprocal: reciprocal(plan.z),
    };
    for step in steps {
        if !accepts(&lifted, known, *step) {
            return false;
        }
        known.set(step.pos as usize, true);
    }
    all_known(known, plan.kdash)
}

// Whether the positions ascend and are in range, and none of them is marked.
fn is_beside(size: u32, given: &Bits, set: &[u32]) -> bool
    requires { length given.now.items ≡ size }
    ensures { IsTrue result ↔ IsBeside size (bit given.now.items) set.now }
{
    let mut least = 0;
    for pos in set {
        if *pos < least || *pos >= size {
            return false;
        }
        if given.get(*pos as usize) {
            return false;
        }
        least = *pos + 1;
    }
    true
}

// How many positions of a list are below a bound.
fn count_below(set: &[u32], bound: u32) -> usize
    ensures { result ≡ count_by (λ p. nat_lt p bound) set.now }
{
    let mut count = 0;
    for pos in set {
        if *pos < bound {
            count += 1;
        }
    }
    count
}

// How many positions of a row are members of an ascending set.
fn members(lifted: &Lifted<'_>, row: u32, lane: u32, set: &[u32]) -> usize
    requires lane { lane < lifted.now.plan.z }
    requires rising { IsRising set.now }
    ensures { result ≡ count_by (λ p. stands p set.now) ((lifted_checks lifted.now).row row lane) }
{
    let mut count = 0;
    for entry in lifted.row(row) {
        if set.binary_search(&lifted.place(entry, lane)).is_ok() {
            count += 1;
        }
    }
    count
}

// Whether no row has exactly one member of an ascending set; the rows are numbered through.
fn never_one(lifted: &Lifted<'_>, set: &[u32]) -> bool
    requires { IsRising set.now }
    ensures { IsTrue result ↔ ((i t : ℕ) → i < (lifted_checks lifted.now).rows
        → t < (lifted_checks lifted.now).lanes
        → count_by (λ p. stands p set.now) ((lifted_checks lifted.now).row i t) ≢ 1) }
{
    let z = lifted.plan.z;
    let rows = lifted.plan.graph.rows();
    for k in 0..rows * z {
        if members(lifted, k / z, k % z, set) == 1 {
            return false;
        }
    }
    true
}

/// Whether the set is a stopping set beside the positions that `given` marks, for a code block of a plan. It is strictly
/// ascending, in range, with no given position and with one below K'. No row has exactly one member. Then no steps are a
/// fix order from the given positions.
pub fn check_stuck(table: &Table, plan: &Plan, given: &Bits, set: &[u32]) -> bool
    requires { length given.now.items
        ≡ (plan_checks table.now plan.now).size }
    ensures yes { IsTrue result
        ↔ IsStoppingSet (plan_checks table.now plan.now) plan.now.kdash
        (bit given.now.items) set.now }
    ensures out { IsTrue result → (p : ℕ) → stands p set.now ≡ true
        → closure (plan_checks table.now plan.now)
        (bit given.now.items) p ≡ false }
    ensures no_order { IsTrue result → (steps : List Fix)
        → ¬ (IsFixOrder (plan_checks table.now plan.now) plan.now.kdash
        (bit given.now.items) steps) }
{
    // Each table is an accepted one, so that its parity checks are sound.
    laws::tables_are_sound(table);
    let lifted = Lifted {
        table,
        plan: *plan,
        reciprocal: reciprocal(plan.z),
    };
    let size = plan.graph.cols() * plan.z;
    if !is_beside(size, given, set) {
        return false;
    }
    if count_below(set, plan.kdash) == 0 {
        return false;
    }
    never_one(&lifted, set)
}
