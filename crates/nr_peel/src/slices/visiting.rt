//! A row of blocks adds to each of 64 sets of positions what its rows fix.

ghost use Rattle.std.specs.Prelude.{◌≡◌, ◌+◌, ◌-◌, ◌*◌, ◌%◌, ◌<◌, ◌≤◌, ◌==◌, ◌||◌};
ghost use Rattle.std.specs.Prelude.{◌&&◌, ℕ, All, false, true, length, not, slice_index};
ghost use Rattle.nr_peel.specs.{Closure.any_below, Closure.stands, Slices.slice};
ghost use Rattle.nr_peel.specs.inside.Slices.{GainsInBlock, is_in_run, lacks_one, row_in, some_lone_below};

use crate::lifted::Lifted;
use nr_shifttable::Entry;

// Makes the first words zero.
fn clear(words: &mut [u64], count: usize)
    requires { count ≤ length words.old }
    ensures zero { (j t : ℕ) → t < count → slice words.new j t ≡ false }
    ensures long { length words.new ≡ length words.old }
{
    for t in 0..count {
        words[t] = 0;
    }
}

// Begins the tallies of `count` rows from row `at` on with a position of each, whose positions are those from `from` on. To clear
// the tallies first would take a tenth of the time.
#[tactic(auto, using(crate::proofs::SliceFacts::run_rules))]
fn begin_run(
    some: &mut [u64],
    more: &mut [u64],
    known: &[u64],
    at: usize,
    from: usize,
    count: usize,
)
    requires some { at + count ≤ length some.old }
    requires more { at + count ≤ length more.old }
    requires known { from + count ≤ length known.now }
    ensures some { (j t : ℕ) → j < 64 → slice some.new j t
        ≡ ((is_in_run at count t && not (slice known.now j (from + (t - at))))
        || (not (is_in_run at count t) && slice some.old j t)) }
    ensures more { (j t : ℕ) → j < 64 → slice more.new j t ≡ (not (is_in_run at count t) && slice more.old j t) }
    ensures some_long { length some.new ≡ length some.old }
    ensures more_long { length more.new ≡ length more.old }
{
    for k in 0..count {
        some[at + k] = !known[from + k];
        more[at + k] = 0;
    }
}

// Begins the tallies of `z` rows with the position that each has in a column of blocks. The column begins at `from`.
fn begin(some: &mut [u64], more: &mut [u64], known: &[u64], z: usize, from: usize, rotation: usize)
    requires some { z ≤ length some.old }
    requires more { z ≤ length more.old }
    requires known { from + z ≤ length known.now }
    requires rotation { rotation < z }
    ensures some { (j t : ℕ) → j < 64 → t < z
        → slice some.new j t ≡ not (slice known.now j (from + (t + rotation) % z)) }
    ensures more { (j t : ℕ) → j < 64 → t < z → slice more.new j t ≡ false }
    ensures some_long { length some.new ≡ length some.old }
    ensures more_long { length more.new ≡ length more.old }
{
    let rest = z - rotation;
    begin_run(some, more, known, 0, from + rotation, rest);
    begin_run(some, more, known, rest, from, rotation);
}

// Tallies one position of each of `count` rows from row `at` on, whose positions are those from `from` on. `some` has the
// sets outside which a row has a position so far, and `more` those outside which it has several.
#[tactic(auto, using(crate::proofs::SliceFacts::run_rules))]
fn tally_run(
    some: &mut [u64],
    more: &mut [u64],
    known: &[u64],
    at: usize,
    from: usize,
    count: usize,
)
    requires some { at + count ≤ length some.old }
    requires more { at + count ≤ length more.old }
    requires known { from + count ≤ length known.now }
    ensures some { (j t : ℕ) → j < 64 → slice some.new j t
        ≡ (slice some.old j t || (is_in_run at count t && not (slice known.now j (from + (t - at))))) }
    ensures more { (j t : ℕ) → j < 64 → slice more.new j t
        ≡ (slice more.old j t || (is_in_run at count t
        && (slice some.old j t && not (slice known.now j (from + (t - at)))))) }
    ensures some_long { length some.new ≡ length some.old }
    ensures more_long { length more.new ≡ length more.old }
{
    for k in 0..count {
        let missing = !known[from + k];
        more[at + k] |= some[at + k] & missing;
        some[at + k] |= missing;
    }
}

// Tallies the position that each of `z` rows has in a column of blocks. The column begins at `from`.
fn tally(some: &mut [u64], more: &mut [u64], known: &[u64], z: usize, from: usize, rotation: usize)
    requires some { z ≤ length some.old }
    requires more { z ≤ length more.old }
    requires known { from + z ≤ length known.now }
    requires rotation { rotation < z }
    ensures some { (j t : ℕ) → j < 64 → t < z → slice some.new j t
        ≡ (slice some.old j t || not (slice known.now j (from + (t + rotation) % z))) }
    ensures more { (j t : ℕ) → j < 64 → t < z → slice more.new j t
        ≡ (slice more.old j t || (slice some.old j t && not (slice known.now j (from + (t + rotation) % z)))) }
    ensures some_long { length some.new ≡ length some.old }
    ensures more_long { length more.new ≡ length more.old }
{
    let rest = z - rotation;
    tally_run(some, more, known, 0, from + rotation, rest);
    tally_run(some, more, known, rest, from, rotation);
}

// Leaves in `some` the sets outside which a row has one position and no more. Whether there is one for some row.
fn settle(some: &mut [u64], more: &[u64], count: usize) -> bool
    requires some { count ≤ length some.old }
    requires more { count ≤ length more.now }
    ensures lone { (j t : ℕ) → j < 64 → t < count → slice some.new j t
        ≡ (slice some.old j t && not (slice more.now j t)) }
    ensures any { result ≡ any_below (λ t. not (slice_index some.new t == 0)) count }
    ensures long { length some.new ≡ length some.old }
{
    let mut any = 0;
    for t in 0..count {
        some[t] &= !more[t];
        any |= some[t];
    }
    any != 0
}

// Finds for each row of a row of blocks the sets outside which it has exactly one position. Whether there is one for some
// row.
#[tactic(auto, using(crate::proofs::RowTallyFacts::tally_rules))]
fn find_lone(
    lifted: &Lifted<'_>,
    row: &[Entry],
    some: &mut [u64],
    more: &mut [u64],
    known: &[u64],
) -> bool
    requires some { 384 ≤ length some.old }
    requires more { 384 ≤ length more.old }
    requires columns { All (λ e. (e.col + 1) * lifted.now.plan.z ≤ length known.now) row.now }
    ensures lone { (j t : ℕ) → j < 64 → t < lifted.now.plan.z → slice some.new j t
        ≡ lacks_one (slice known.now j) (row_in lifted.now row.now t) }
    ensures any { result
        ≡ some_lone_below known.now (row_in lifted.now row.now) lifted.now.plan.z }
    ensures some_long { length some.new ≡ length some.old }
    ensures more_long { length more.new ≡ length more.old }
{
    let z = lifted.plan.z as usize;
    let Some(first) = row.first() else {
        clear(some, z);
        return false;
    };
    let from = usize::from(first.col) * z;
    let rotation = lifted.rotation(first) as usize;
    begin(some, more, known, z, from, rotation);
    for n in 1..row.len() {
        let entry = &row[n];
        let from = usize::from(entry.col) * z;
        let rotation = lifted.rotation(entry) as usize;
        tally(some, more, known, z, from, rotation);
    }
    settle(some, more, z)
}

// Adds to `count` positions from `from` on the sets of as many rows from row `at` on.
#[tactic(auto, using(crate::proofs::SliceFacts::run_rules))]
fn fill_run(known: &mut [u64], sets: &[u64], at: usize, from: usize, count: usize)
    requires known { from + count ≤ length known.old }
    requires sets { at + count ≤ length sets.now }
    ensures filled { (j p : ℕ) → j < 64 → slice known.new j p
        ≡ (slice known.old j p || (is_in_run from count p && slice sets.now j (at + (p - from)))) }
    ensures long { length known.new ≡ length known.old }
{
    for k in 0..count {
        known[from + k] |= sets[at + k];
    }
}

// Adds to the position that each of `z` rows has in a column of blocks the row's sets.
fn fill(known: &mut [u64], sets: &[u64], z: usize, from: usize, rotation: usize)
    requires known { from + z ≤ length known.old }
    requires sets { z ≤ length sets.now }
    requires rotation { rotation < z }
    ensures filled { (j p : ℕ) → j < 64 → slice known.new j p
        ≡ (slice known.old j p || (is_in_run from z p && slice sets.now j ((p - from + (z - rotation)) % z))) }
    ensures long { length known.new ≡ length known.old }
{
    let rest = z - rotation;
    fill_run(known, sets, 0, from + rotation, rest);
    fill_run(known, sets, rest, from, rotation);
}

// Adds to all positions of each row of a row of blocks the row's sets.
fn fill_block(lifted: &Lifted<'_>, row: &[Entry], sets: &[u64], known: &mut [u64])
    requires sets { 384 ≤ length sets.now }
    requires columns { All (λ e. (e.col + 1) * lifted.now.plan.z ≤ length known.old) row.now }
    ensures filled { (j p : ℕ) → j < 64 → slice known.new j p ≡ (slice known.old j p
        || any_below (λ t. slice sets.now j t && stands p (row_in lifted.now row.now t)) lifted.now.plan.z) }
    ensures long { length known.new ≡ length known.old }
{
    let z = lifted.plan.z as usize;
    for entry in row {
        let from = usize::from(entry.col) * z;
        let rotation = lifted.rotation(entry) as usize;
        fill(known, sets, z, from, rotation);
    }
}

// Adds to each set the positions of those rows of a row of blocks that have exactly one position outside it. Whether
// there is such a row for some set.
fn visit(
    lifted: &Lifted<'_>,
    row: &[Entry],
    some: &mut [u64],
    more: &mut [u64],
    known: &mut [u64],
) -> bool
    requires some { 384 ≤ length some.old }
    requires more { 384 ≤ length more.old }
    requires columns { All (λ e. (e.col + 1) * lifted.now.plan.z ≤ length known.old) row.now }
    ensures any { result
        ≡ some_lone_below known.old (row_in lifted.now row.now) lifted.now.plan.z }
    ensures gains { GainsInBlock (row_in lifted.now row.now) lifted.now.plan.z known.old known.new }
    ensures still { result ≡ false → known.new ≡ known.old }
    ensures long { length known.new ≡ length known.old }
    ensures some_long { length some.new ≡ length some.old }
    ensures more_long { length more.new ≡ length more.old }
{
    if !find_lone(lifted, row, some, more, known) {
        return false;
    }
    fill_block(lifted, row, some, known);
    true
}

// Visits a row of blocks, unless it is left out.
pub(crate) fn visit_unless(
    lifted: &Lifted<'_>,
    row: &[Entry],
    left_out: bool,
    some: &mut [u64],
    more: &mut [u64],
    known: &mut [u64],
) -> bool
    requires some { 384 ≤ length some.old }
    requires more { 384 ≤ length more.old }
    requires columns { All (λ e. (e.col + 1) * lifted.now.plan.z ≤ length known.old) row.now }
    ensures any { result ≡ (not left_out
        && some_lone_below known.old (row_in lifted.now row.now) lifted.now.plan.z) }
    ensures gains { left_out ≡ false
        → GainsInBlock (row_in lifted.now row.now) lifted.now.plan.z known.old known.new }
    ensures still { result ≡ false → known.new ≡ known.old }
    ensures long { length known.new ≡ length known.old }
    ensures some_long { length some.new ≡ length some.old }
    ensures more_long { length more.new ≡ length more.old }
{
    if left_out {
        return false;
    }
    visit(lifted, row, some, more, known)
}
