//! The shape that an accepted table has in its parity columns (TS 38.212, 5.3.2).

ghost use Rattle.std.specs.Prelude.{◌≡◌, ◌≤◌};
ghost use Rattle.nr_shifttable.specs.FirstFault.{is_zero, zero_at, lone_zero, zero_pair, two_agree, three_agree, rows_agree};
ghost use Rattle.nr_shifttable.specs.FirstFault.{first_column_ok, diagonals_ok, extension_ok, rows_present, graph_checked};
ghost use Rattle.nr_shifttable.specs.inside.Orders.{Ascending};

use crate::entry::Entry;
use crate::fault::TableFault;
use crate::sorted::{Sorted, values_in};
use nr_graphpick::Graph;

// Whether the values are 0 in all sets.
fn is_zero(values: &[u16]) -> bool
    ensures { result ≡ is_zero values.now }
{
    values.iter().all(|value| *value == 0)
}

// Whether the entry is at this column, with value 0 in all sets.
fn zero_at(col: u32, entry: &Entry) -> bool
    ensures { result ≡ zero_at col entry.now }
{
    u32::from(entry.col) == col && is_zero(&entry.values)
}

// Whether there is one such entry, and no other.
fn lone_zero(col: u32, entries: &[Entry]) -> bool
    ensures { result ≡ lone_zero col entries.now }
{
    match entries {
        [entry] => zero_at(col, entry),
        _ => false,
    }
}

// Whether there are two such entries, at this column and the next, and no other.
fn zero_pair(col: u32, entries: &[Entry]) -> bool
    requires { col ≤ 24 }
    ensures { result ≡ zero_pair col entries.now }
{
    match entries {
        [first, second] => zero_at(col, first) && zero_at(col + 1, second),
        _ => false,
    }
}

// Whether at least two of three values are equal.
fn two_agree(a: u16, b: u16, c: u16) -> bool
    ensures { result ≡ two_agree a b c }
{
    a == b || b == c || a == c
}

// Whether at least two of the three values are equal in each lifting-size set.
fn three_agree(a: &[u16; 8], b: &[u16; 8], c: &[u16; 8]) -> bool
    ensures { result ≡ three_agree a.now b.now c.now }
{
    for set in 0..8 {
        if !two_agree(a[set], b[set], c[set]) {
            return false;
        }
    }
    true
}

// Whether there are values that agree in rows 0 and 3 and in one of rows 1 and 2.
#[tactic(auto, unfolding(crate::specs::FirstFault::rows_agree))]
fn rows_agree(
    row0: Option<[u16; 8]>,
    row1: Option<[u16; 8]>,
    row2: Option<[u16; 8]>,
    row3: Option<[u16; 8]>,
) -> bool
    ensures { result ≡ rows_agree row0 row1 row2 row3 }
{
    match (row0, row1, row2, row3) {
        (Some(a), Some(b), None, Some(d)) => three_agree(&a, &b, &d),
        (Some(a), None, Some(c), Some(d)) => three_agree(&a, &c, &d),
        _ => false,
    }
}

// Whether the first parity column, `n`, has entries in rows 0 and 3 and in one of rows 1 and 2, with
// values that agree.
#[tactic(auto, unfolding(crate::specs::FirstFault::first_column_ok))]
fn first_column_ok(n: u32, entries: &Sorted) -> bool
    ensures { result ≡ first_column_ok n entries.now }
{
    rows_agree(
        values_in(entries.row(0), n),
        values_in(entries.row(1), n),
        values_in(entries.row(2), n),
        values_in(entries.row(3), n),
    )
}

// Whether rows 0 to 3 have the double diagonal of zeros in columns `n + 1` to `n + 3`, and nothing
// else there and above.
#[tactic(auto, unfolding(crate::specs::FirstFault::diagonals_ok))]
fn diagonals_ok(n: u32, entries: &Sorted) -> bool
    requires { n ≤ 22 }
    ensures { result ≡ diagonals_ok n entries.now }
{
    lone_zero(n + 1, entries.tail(0, n + 1))
        && zero_pair(n + 1, entries.tail(1, n + 1))
        && zero_pair(n + 2, entries.tail(2, n + 1))
        && lone_zero(n + 3, entries.tail(3, n + 1))
}

// Whether each row from 4 on that has an entry has, from column `n + 4` on, zeros at its own column
// alone.
#[tactic(auto, unfolding(crate::specs::FirstFault::extension_ok))]
fn extension_ok(n: u32, rows: u32, entries: &Sorted) -> bool
    requires few { n ≤ 22 }
    requires rows { rows ≤ 46 }
    ensures { result ≡ extension_ok n rows entries.now }
{
    for row in 4..rows {
        if !entries.row(row).is_empty() && !lone_zero(n + row, entries.tail(row, n + 4)) {
            return false;
        }
    }
    true
}

// Whether each row from 4 on has an entry.
#[tactic(auto, unfolding(crate::specs::FirstFault::rows_present))]
fn rows_present(rows: u32, entries: &Sorted) -> bool
    ensures { result ≡ rows_present rows entries.now }
{
    for row in 4..rows {
        if entries.row(row).is_empty() {
            return false;
        }
    }
    true
}

/// Checks the entries of one base graph. A table does not need to have the graph, so having no entry at all is
/// accepted.
///
/// # Errors
///
/// In this order: `Core`, `Extension`, `MissingRow`.
#[tactic(auto, unfolding(crate::specs::FirstFault::graph_checked))]
pub(crate) fn judge(graph: Graph, entries: &Sorted) -> Result<(), TableFault>
    ensures order { Ascending 0 entries.now }
    ensures value { result ≡ graph_checked graph entries.now }
{
    let n = graph.info_cols();
    let rows = graph.rows();
    if entries.entries().is_empty() {
        return Ok(());
    }
    if !(first_column_ok(n, entries) && diagonals_ok(n, entries)) {
        return Err(TableFault::Core(graph));
    }
    if !extension_ok(n, rows, entries) {
        return Err(TableFault::Extension(graph));
    }
    if !rows_present(rows, entries) {
        return Err(TableFault::MissingRow(graph));
    }
    Ok(())
}
