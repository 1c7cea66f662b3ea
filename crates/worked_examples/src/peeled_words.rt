//! What shows a peeler's results beside the checks. The words are of made-up tables of both base graphs, at sizes of
//! each set. A part of each was received, position by position or many positions at a time.

use crate::peeling::{Shown, Told, is_order, is_stuck, learn, learn_all, shown_over};
use crate::practice::made_up_table;
use nr_bitvec::Bits;
use nr_graphpick::Graph;
use nr_peel::Peeler;
use nr_segment::{Plan, plan};
use nr_shifttable::Table;
use std::alloc::{AllocError, Global};
use std::test::Fail;

/// Marks positions, each with the chance `share` of 256. With a larger share the same positions are marked, too.
fn drawn(alloc: Global, size: u32, share: u64, seed: u64) -> Result<Bits, AllocError> {
    let mut marks = Bits::zeros(alloc, size.min(30_000))?;
    let mut state = seed;
    for pos in 0..marks.len() {
        state = state
            .wrapping_mul(6_364_136_223_846_793_005)
            .wrapping_add(1_442_695_040_888_963_407);
        if pos < marks.len() {
            marks.set(pos, state >> 56 < share);
        }
    }
    Ok(marks)
}

/// Ones in all places that are not marked.
fn turned(marks: &Bits) -> Result<Bits, AllocError> {
    let mut values = marks.try_clone()?;
    for pos in 0..marks.len() {
        if pos < values.len() {
            values.set(pos, !marks.get(pos));
        }
    }
    Ok(values)
}

/// Gives marked positions of the word of zeros, one after another.
fn hear_each(peeler: &mut Peeler<'_>, marks: &Bits) {
    for pos in 0..marks.len() {
        if marks.get(pos) {
            learn(peeler, pos as u32, false);
        }
    }
}

/// Gives marked positions of the word of zeros at a time. What the values have elsewhere is nothing to a peeler.
fn hear_at_a_time(peeler: &mut Peeler<'_>, marks: &Bits) -> Result<(), AllocError> {
    let values = turned(marks)?;
    learn_all(peeler, marks.try_clone()?, values);
    Ok(())
}

/// Gives positions of the word of zeros, each with the chance `share` of 256. They go one after another, or first half
/// of them at a time and then all of them.
pub(crate) fn hear_drawn(
    alloc: Global,
    peeler: &mut Peeler<'_>,
    size: u32,
    share: u64,
    each: bool,
) -> Result<(), AllocError> {
    let seed = share.wrapping_add(7);
    let marks = drawn(alloc, size, share, seed)?;
    if each {
        hear_each(peeler, &marks);
        return Ok(());
    }
    let half = drawn(alloc, size, share / 2, seed)?;
    hear_at_a_time(peeler, &half)?;
    hear_at_a_time(peeler, &marks)
}

/// Whether the checks accept the fix order, or the stopping set if positions are left.
pub(crate) fn is_shown(
    table: &Table,
    plan: &Plan,
    peeler: &Peeler<'_>,
) -> Result<bool, AllocError> {
    if peeler.left() == 0 {
        is_order(table, plan, peeler.given(), peeler.order())
    } else {
        Ok(is_stuck(table, plan, peeler.given(), &peeler.stuck()?))
    }
}

/// Whether the checks accept it by what a peeler showed.
fn is_accepted(table: &Table, plan: &Plan, shown: &Shown) -> Result<bool, AllocError> {
    if shown.left == 0 {
        is_order(table, plan, &shown.given, &shown.order)
    } else {
        Ok(is_stuck(table, plan, &shown.given, &shown.stuck))
    }
}

/// Whether no pair of a row and a position was visited more than twice.
fn is_bounded(table: &Table, plan: &Plan, shown: &Shown) -> bool {
    let pairs = u64::from(table.entries(plan.graph)).saturating_mul(u64::from(plan.z));
    shown.touches <= pairs.saturating_mul(2)
}

/// Gives a new peeler a part of a word: whether it comes out whole, or none if something disagrees.
fn peeled(
    alloc: Global,
    table: &Table,
    plan: &Plan,
    share: u64,
    each: bool,
) -> Result<Option<bool>, Fail> {
    let shown = shown_over(alloc, table, plan, Told::Drawn(share, each))?;
    let is_right = is_accepted(table, plan, &shown)? && is_bounded(table, plan, &shown);
    Ok(is_right.then_some(shown.left == 0))
}

/// Peels eleven words of which ever more was received: how many came out whole, how many didn't, and how many
/// disagreed.
fn count(alloc: Global, table: &Table, plan: &Plan, each: bool) -> Result<[u32; 3], Fail> {
    let mut counts = [0u32; 3];
    for step in 0..11u64 {
        let kind = match peeled(alloc, table, plan, 25 * step + 6, each)? {
            Some(true) => 0,
            Some(false) => 1,
            None => 2,
        };
        counts[kind] = counts[kind].saturating_add(1);
    }
    Ok(counts)
}

/// Whether some words come out whole over a table, some don't, and nothing disagrees.
fn agrees_over(alloc: Global, table: &Table, plan: &Plan, each: bool) -> Result<bool, Fail> {
    let [whole, stuck, other] = count(alloc, table, plan, each)?;
    Ok(whole > 0 && stuck > 0 && other == 0)
}

/// The lifting size of so many bits, and whether the checks accept what shows all their words.
fn agrees(alloc: Global, graph: Graph, bits: u32, each: bool) -> Result<(u32, bool), Fail> {
    let plan = plan(graph, bits)?;
    let table = made_up_table(alloc, graph)?;
    Ok((plan.z, agrees_over(alloc, &table, &plan, each)?))
}

// Two small sizes position by position. Then many positions at a time: sizes of all eight sets, and the smallest ones.
const OF_GRAPH_1: &[(u32, u32, bool)] = &[
    (40, 2, true),
    (650, 30, true),
    (390, 18, false),
    (430, 20, false),
    (700, 32, false),
    (8440, 384, false),
    (7030, 320, false),
    (1230, 56, false),
    (6330, 288, false),
    (60, 3, false),
    (80, 4, false),
    (100, 5, false),
    (120, 6, false),
    (140, 7, false),
    (160, 8, false),
    (180, 9, false),
    (200, 10, false),
    (240, 11, false),
    (250, 12, false),
    (270, 13, false),
    (300, 14, false),
    (4570, 208, false),
    (650, 30, false),
];

const OF_GRAPH_2: &[(u32, u32, bool)] = &[
    (40, 7, true),
    (2390, 240, true),
    (100, 18, false),
    (115, 20, false),
    (1275, 128, false),
    (3830, 384, false),
    (790, 80, false),
    (40, 7, false),
    (1435, 144, false),
    (1750, 176, false),
    (150, 26, false),
    (2390, 240, false),
];

/// The first number of bits whose words do not come out as they are to, or whose lifting size is another.
fn first_other(
    alloc: Global,
    graph: Graph,
    list: &[(u32, u32, bool)],
) -> Result<Option<u32>, Fail> {
    for (bits, z, each) in list.iter().copied() {
        if agrees(alloc, graph, bits, each)? != (z, true) {
            return Ok(Some(bits));
        }
    }
    Ok(None)
}

#[test]
fn words_are_peeled_as_the_checks_say(rt: HostRuntime) -> Result<(), Fail> {
    assert!(rt; first_other(rt.alloc(), Graph::One, OF_GRAPH_1)? == None);
    assert!(rt; first_other(rt.alloc(), Graph::Two, OF_GRAPH_2)? == None);
    Ok(())
}
