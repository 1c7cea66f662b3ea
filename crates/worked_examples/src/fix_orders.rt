//! Fix orders and stopping sets of peelers over a practice table, and what their checks say of others, by hand.

use crate::peeling::{PART, Shown, Told, WHOLE, is_order, is_stuck, marks_of, shown_over};
use crate::practice::practice;
use nr_bitvec::Bits;
use nr_graphpick::Graph;
use nr_peel::Fix;
use nr_segment::{Plan, plan};
use nr_shifttable::Table;
use std::alloc::{AllocError, Global};
use std::slice::from_ref;
use std::test::Fail;

/// The positions of columns, in their order, without the one at an index, and then one more.
type Set<'a> = (&'a [u32], usize, Option<u32>);

/// These positions at a lifting size of at most 32.
fn set_of(
    alloc: Global,
    z: u32,
    (columns, without, more): Set<'_>,
) -> Result<Vec<u32>, AllocError> {
    let mut set = Vec::new(alloc);
    let mut count = 0;
    for pos in 0..1664 {
        if columns.contains(&(pos / z.max(1))) {
            if count != without {
                set.push(pos)?;
            }
            count = count.saturating_add(1);
        }
    }
    if let Some(pos) = more {
        set.push(pos)?;
    }
    Ok(set)
}

/// Past the last index.
const NONE: usize = usize::MAX;

/// The columns that are left of the first 24 bits.
const LEFT: &[u32] = &[1, 12, 13, 21, 31, 41, 51];

/// Whether what is stuck is a set, and whether that is accepted as a stopping set.
fn is_stuck_on(
    alloc: Global,
    table: &Table,
    plan: &Plan,
    shown: &Shown,
    set: Set<'_>,
) -> Result<(bool, bool), Fail> {
    let set = set_of(alloc, plan.z, set)?;
    let is_it = shown.stuck.as_slice() == set.as_slice();
    Ok((is_it, is_stuck(table, plan, &shown.given, &set)))
}

/// What is stuck over a table after the first 24 bits, beside a set.
fn stuck_over(alloc: Global, table: &Table, set: Set<'_>) -> Result<(bool, bool), Fail> {
    let plan = plan(Graph::Two, 24)?;
    let shown = shown_over(alloc, table, &plan, Told::Ranges(PART))?;
    is_stuck_on(alloc, table, &plan, &shown, set)
}

/// Sets, and whether they are stuck and stopping sets or neither. Those that are not: an empty list, one out of order, one with a
/// position past the last, and one with a filler.
const SETS: &[(Set<'static>, bool)] = &[
    ((LEFT, NONE, None), true),
    ((&[], NONE, None), false),
    ((LEFT, 0, Some(4)), false),
    ((LEFT, NONE, Some(208)), false),
    ((&[1, 6, 12, 13, 21, 31, 41, 51], NONE, None), false),
];

/// Whether all sets are as they are to be.
fn sets_are_right(alloc: Global, table: &Table) -> Result<bool, Fail> {
    for (set, accepted) in SETS.iter().copied() {
        if stuck_over(alloc, table, set)? != (accepted, accepted) {
            return Ok(false);
        }
    }
    Ok(true)
}

/// A change of a list of steps: those that fix a position are left out, so many others stay, and the last one is repeated.
type Change = (u32, usize, bool);

/// A peeler's steps, changed.
fn changed_order(
    alloc: Global,
    order: &[Fix],
    (without, most, repeated): Change,
) -> Result<Vec<Fix>, AllocError> {
    let mut changed = Vec::new(alloc);
    for step in order {
        if step.pos != without && changed.len() < most {
            changed.push(*step)?;
        }
    }
    if repeated && let Some(step) = order.last() {
        changed.push(*step)?;
    }
    Ok(changed)
}

/// Whether the changed steps are a fix order.
fn is_changed_order(
    alloc: Global,
    table: &Table,
    plan: &Plan,
    shown: &Shown,
    change: Change,
) -> Result<bool, Fail> {
    let changed = changed_order(alloc, &shown.order, change)?;
    Ok(is_order(table, plan, &shown.given, &changed)?)
}

/// Whether the changed steps are a fix order over a table, after all that is sent.
fn is_order_after_all(alloc: Global, table: &Table, change: Change) -> Result<bool, Fail> {
    let plan = plan(Graph::Two, 24)?;
    let shown = shown_over(alloc, table, &plan, Told::Ranges(WHOLE))?;
    is_changed_order(alloc, table, &plan, &shown, change)
}

/// The peeler's own steps, and with the last one repeated; without the step that fixes position 0; and no step.
const CHANGES: &[(Change, bool)] = &[
    ((208, NONE, false), true),
    ((208, NONE, true), true),
    ((0, NONE, true), false),
    ((208, 0, false), false),
];

/// Whether the changed steps are fix orders as they are to be.
fn orders_are_right(alloc: Global, table: &Table) -> Result<bool, Fail> {
    for (change, accepted) in CHANGES.iter().copied() {
        if is_order_after_all(alloc, table, change)? != accepted {
            return Ok(false);
        }
    }
    Ok(true)
}

/// Whether one step is accepted over a table if every position was given.
fn is_step(alloc: Global, table: &Table, (row, lane, pos): (u16, u16, u32)) -> Result<bool, Fail> {
    let plan = plan(Graph::Two, 24)?;
    let given = marks_of(alloc, &plan, &[(0, 208)])?;
    let step = Fix { row, lane, pos };
    Ok(is_order(table, &plan, &given, from_ref(&step))?)
}

/// Rows, lanes and positions. Row 0 has position 0 and not position 1; the last row is 41, the last lane 3 and the last position
/// 207. Position 65,536 is 0 in 16 bits.
const STEPS: &[((u16, u16, u32), bool)] = &[
    ((0, 0, 0), true),
    ((0, 0, 1), false),
    ((42, 0, 0), false),
    ((0, 4, 0), false),
    ((0, 0, 208), false),
    ((0, 0, 65_536), false),
];

/// Whether the steps are accepted as they are to be.
fn steps_are_right(alloc: Global, table: &Table) -> Result<bool, Fail> {
    for (step, accepted) in STEPS.iter().copied() {
        if is_step(alloc, table, step)? != accepted {
            return Ok(false);
        }
    }
    Ok(true)
}

/// The columns that stay unknown if all others are received. Column 0 is only in rows 0, 2, 10, 20, 30 and 40.
/// Each of these has another of these columns, and row 1 has two.
const COLUMNS: &[u32] = &[0, 11, 12, 20, 30, 40, 50];

/// How many of a set's members can be left out of it so that it is a stopping set.
fn needless(alloc: Global, table: &Table, plan: &Plan, given: &Bits) -> Result<u32, AllocError> {
    let mut needless = 0u32;
    for i in 0..7 * plan.z as usize {
        let fewer = set_of(alloc, plan.z, (COLUMNS, i, None))?;
        if is_stuck(table, plan, given, &fewer) {
            needless = needless.saturating_add(1);
        }
    }
    Ok(needless)
}

/// How many positions are left, whether the columns are stuck and are a stopping set, and how many of their positions are
/// needless.
pub(crate) type Columns = (u32, (bool, bool), u32);

/// What is found about the columns, by what a peeler shows.
pub(crate) fn columns_of(
    alloc: Global,
    table: &Table,
    plan: &Plan,
    shown: &Shown,
) -> Result<Columns, Fail> {
    let stuck = is_stuck_on(alloc, table, plan, shown, (COLUMNS, NONE, None))?;
    let needless = needless(alloc, table, plan, &shown.given)?;
    Ok((shown.left, stuck, needless))
}

/// What is found about the columns if this many bits are coded over a table.
fn columns_at(alloc: Global, table: &Table, bits: u32) -> Result<Columns, Fail> {
    let plan = plan(Graph::Two, bits)?;
    let shown = shown_over(alloc, table, &plan, Told::Without(COLUMNS))?;
    columns_of(alloc, table, &plan, &shown)
}

/// Whether seven columns are a stopping set at lifting size 7, at which a block fills little of a word, and at 32.
fn columns_are_right(alloc: Global, table: &Table) -> Result<bool, Fail> {
    for (bits, z) in [(40, 7), (250, 32)] {
        if columns_at(alloc, table, bits)? != (z, (true, true), 0) {
            return Ok(false);
        }
    }
    Ok(true)
}

/// Whether all of these are right over a table.
fn are_right_over(alloc: Global, table: &Table) -> Result<[bool; 4], Fail> {
    Ok([
        sets_are_right(alloc, table)?,
        orders_are_right(alloc, table)?,
        steps_are_right(alloc, table)?,
        columns_are_right(alloc, table)?,
    ])
}

/// Whether they are right over the practice table.
fn are_right(alloc: Global) -> Result<[bool; 4], Fail> {
    let table = practice(alloc, 0, 1, false)?;
    are_right_over(alloc, &table)
}

// The first 24 bits leave a stopping set, and other lists are none. An order needs each first step. Steps are in range and in
// their row. Seven columns are a stopping set.
#[test]
fn orders_and_sets_are_accepted_as_they_are_to_be(rt: HostRuntime) -> Result<(), Fail> {
    assert!(rt; are_right(rt.alloc())? == [true; 4]);
    Ok(())
}
