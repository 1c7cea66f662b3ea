//! Peelers over a practice table, beside what comes out by hand.

ghost use Rattle.std.specs.Prelude.{◌≡◌, ◌*◌};
ghost use Rattle.nr_graphpick.specs.Graph.{cols_of};

use crate::codewords::WORD_01;
use crate::peeled_words::hear_drawn;
use crate::practice::practice;
use nr_bitvec::{Bits, Marks};
use nr_graphpick::Graph;
use nr_ldpcenc::EncFault;
use nr_peel::{Fix, Peeler, check_order, check_stuck};
use nr_segment::{Plan, plan};
use nr_shifttable::Table;
use std::alloc::{AllocError, Global};
use std::test::Fail;

/// Positions from one up to another.
pub(crate) type Range = (u32, u32);

/// Whether a position is in one of these.
fn is_in(ranges: &[Range], pos: u32) -> bool {
    for (from, to) in ranges.iter().copied() {
        if from <= pos && pos < to {
            return true;
        }
    }
    false
}

/// How many positions a word of a plan has.
pub(crate) fn size_of(plan: &Plan) -> u32
    ensures { result ≡ cols_of plan.now.graph * plan.now.z }
{
    plan.graph.cols() * plan.z
}

/// Marks of positions of a code block.
pub(crate) fn marks_of(alloc: Global, plan: &Plan, ranges: &[Range]) -> Result<Bits, AllocError> {
    let mut marks = Bits::zeros(alloc, size_of(plan).min(30_000))?;
    for pos in 0..marks.len() {
        if is_in(ranges, pos as u32) && pos < marks.len() {
            marks.set(pos, true);
        }
    }
    Ok(marks)
}

/// What is known of a position that the code has.
pub(crate) fn known(peeler: &Peeler<'_>, pos: u32) -> Option<bool> {
    if (pos as usize) < peeler.given().len() {
        peeler.known(pos)
    } else {
        None
    }
}

/// Gives a position that the code has.
pub(crate) fn learn(peeler: &mut Peeler<'_>, pos: u32, value: bool) {
    if (pos as usize) < peeler.given().len() {
        peeler.learn(pos, value);
    }
}

/// Gives marked positions of the code at a time.
pub(crate) fn learn_all(peeler: &mut Peeler<'_>, heard: Bits, value: Bits) {
    if heard.len() == peeler.given().len() && value.len() == heard.len() {
        peeler.learn_all(&Marks { heard, value });
    }
}

/// Whether the steps are a fix order from marked positions.
pub(crate) fn is_order(
    table: &Table,
    plan: &Plan,
    given: &Bits,
    steps: &[Fix],
) -> Result<bool, AllocError> {
    let mut marks = given.try_clone()?;
    Ok(marks.len() == size_of(plan) as usize && check_order(table, plan, &mut marks, steps))
}

/// Whether the positions are a stopping set beside marked positions.
pub(crate) fn is_stuck(table: &Table, plan: &Plan, given: &Bits, set: &[u32]) -> bool {
    given.len() == size_of(plan) as usize && check_stuck(table, plan, given, set)
}

/// Gives a range of positions of a word at a time.
fn hear_range(
    alloc: Global,
    peeler: &mut Peeler<'_>,
    plan: &Plan,
    octets: &[u8],
    range: Range,
) -> Result<(), AllocError> {
    let marks = marks_of(alloc, plan, &[range])?;
    let word = Bits::from_bytes(alloc, &octets[..octets.len().min(26)])?;
    learn_all(peeler, marks, word);
    Ok(())
}

/// Gives ranges of positions of a word.
fn hear(
    alloc: Global,
    peeler: &mut Peeler<'_>,
    plan: &Plan,
    octets: &[u8],
    ranges: &[Range],
) -> Result<(), AllocError> {
    for range in ranges.iter().copied() {
        hear_range(alloc, peeler, plan, octets, range)?;
    }
    Ok(())
}

/// A new peeler.
pub(crate) fn new_peeler<'t>(
    alloc: Global,
    table: &'t Table,
    plan: &Plan,
) -> Result<Peeler<'t>, EncFault> {
    Peeler::new(alloc, table, plan)
}

/// Gives all positions but those of these columns, one after another, as zeros.
fn hear_without(peeler: &mut Peeler<'_>, plan: &Plan, columns: &[u32]) {
    for pos in 0..size_of(plan) {
        if !columns.contains(&(pos / plan.z.max(1))) {
            learn(peeler, pos, false);
        }
    }
}

/// Which positions a peeler is given.
#[derive(Clone, Copy)]
pub(crate) enum Told<'a> {
    /// Ranges of the word of block 01, each of them at a time.
    Ranges(&'a [Range]),
    /// All but these columns of the word of zeros, one after another.
    Without(&'a [u32]),
    /// Drawn positions of the word of zeros, each with this chance of 256, one after another or many at a time.
    Drawn(u64, bool),
}

/// What a peeler knows: how many positions below K' are left, which positions are known, and the bits of these.
type Knows = (u32, [u8; 26], [u8; 26]);

/// What a peeler knows.
fn knows(peeler: &Peeler<'_>) -> Knows {
    let mut places = [0; 26];
    let mut bits = [0; 26];
    for pos in 0..208 {
        let place = 128 >> (pos % 8);
        match known(peeler, pos) {
            Some(bit) => {
                places[pos as usize / 8] |= place;
                bits[pos as usize / 8] |= if bit { place } else { 0 };
            }
            None => {}
        }
    }
    (peeler.left(), places, bits)
}

/// What a peeler shows: all that tests read of it, so that one function alone owns a peeler.
#[derive(Drop)]
pub(crate) struct Shown {
    pub(crate) left: u32,
    pub(crate) touches: u64,
    knows: Knows,
    pub(crate) given: Bits,
    pub(crate) order: Vec<Fix>,
    pub(crate) stuck: Vec<u32>,
}

/// What a peeler shows now.
pub(crate) fn show(alloc: Global, peeler: &Peeler<'_>) -> Result<Shown, AllocError> {
    Ok(Shown {
        left: peeler.left(),
        touches: peeler.touches(),
        knows: knows(peeler),
        given: peeler.given().try_clone()?,
        order: Vec::from_slice(alloc, peeler.order())?,
        stuck: peeler.stuck()?,
    })
}

/// What a peeler shows after it was given positions.
fn shown_after(
    alloc: Global,
    peeler: &mut Peeler<'_>,
    plan: &Plan,
    told: Told<'_>,
) -> Result<Shown, AllocError> {
    match told {
        Told::Ranges(ranges) => hear(alloc, peeler, plan, &WORD_01, ranges)?,
        Told::Without(columns) => hear_without(peeler, plan, columns),
        Told::Drawn(share, each) => hear_drawn(alloc, peeler, size_of(plan), share, each)?,
    }
    show(alloc, peeler)
}

/// The same of a peeler that is not used after that.
fn shown_at_last(
    alloc: Global,
    peeler: Peeler<'_>,
    plan: &Plan,
    told: Told<'_>,
) -> Result<Shown, AllocError> {
    let mut peeler = peeler;
    shown_after(alloc, &mut peeler, plan, told)
}

/// What a new peeler shows after it was given positions.
pub(crate) fn shown_over(
    alloc: Global,
    table: &Table,
    plan: &Plan,
    told: Told<'_>,
) -> Result<Shown, Fail> {
    match new_peeler(alloc, table, plan) {
        Ok(peeler) => Ok(shown_at_last(alloc, peeler, plan, told)?),
        Err(fault) => Err(fault.into()),
    }
}

/// What a peeler over a table knows that was given these positions of the word.
fn knows_over(alloc: Global, table: &Table, ranges: &[Range]) -> Result<Knows, Fail> {
    let plan = plan(Graph::Two, 24)?;
    let shown = shown_over(alloc, table, &plan, Told::Ranges(ranges))?;
    Ok(shown.knows)
}

/// What it knows over the practice table.
fn knows_after(alloc: Global, ranges: &[Range]) -> Result<Knows, Fail> {
    let table = practice(alloc, 0, 1, false)?;
    knows_over(alloc, &table, ranges)
}

/// Columns 2 to 5, 10 and 11.
pub(crate) const PART: &[Range] = &[(8, 24), (40, 48)];

/// And then all that is sent after them.
pub(crate) const WHOLE: &[Range] = &[(8, 24), (40, 48), (48, 208)];

/// The fillers are columns 6 to 9, and each tenth column after them is a copy of one.
const FILLERS: Knows = (
    24,
    [
        0x00, 0x00, 0x00, 0xff, 0xff, 0x00, 0x00, 0x00, 0xff, 0xff, 0x00, 0x00, 0x00, 0xff, 0xff,
        0x00, 0x00, 0x00, 0xff, 0xff, 0x00, 0x00, 0x00, 0xff, 0xff, 0x00,
    ],
    [0; 26],
);

/// Column 0 is fixed by its copies. Column 1 is in rows 1, 11, 21, 31 and 41, each of which has another column that was not
/// received. So columns 1, 12, 13, 21, 31, 41 and 51 are left.
const SEVEN_LEFT: Knows = (
    4,
    [
        0xf0, 0xff, 0xff, 0xff, 0xff, 0xff, 0x00, 0xff, 0xff, 0xff, 0xf0, 0xff, 0xff, 0xff, 0xff,
        0xf0, 0xff, 0xff, 0xff, 0xff, 0xf0, 0xff, 0xff, 0xff, 0xff, 0xf0,
    ],
    [
        0x00, 0x10, 0x21, 0x00, 0x00, 0x03, 0x00, 0x22, 0x00, 0x00, 0x00, 0x10, 0x88, 0x00, 0x00,
        0x00, 0x40, 0x22, 0x00, 0x00, 0x00, 0x10, 0x88, 0x00, 0x00, 0x00,
    ],
);

// A new peeler; the first 24 bits; and all that is sent, which fixes the word.
#[test]
fn a_peeler_knows_what_follows(rt: HostRuntime) -> Result<(), Fail> {
    assert!(rt; knows_after(rt.alloc(), &[])? == FILLERS);
    assert!(rt; knows_after(rt.alloc(), PART)? == SEVEN_LEFT);
    assert!(rt; knows_after(rt.alloc(), WHOLE)? == (0, [0xff; 26], WORD_01));
    Ok(())
}
