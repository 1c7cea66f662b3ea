//! Words of practice tables, by hand.

use crate::bit_lists::bits_of;
use crate::practice::practice;
use nr_bitvec::Bits;
use nr_graphpick::Graph;
use nr_ldpcenc::{EncFault, Word, encode, fill, meets};
use nr_segment::{Plan, plan};
use nr_shifttable::Table;
use std::alloc::{AllocError, Global};
use std::test::Fail;

/// By hand, a digit a column. E and O are the sums of the even and of the odd information columns. The first four parity
/// columns are 0, E, E + O and O. Each later one is an information column, rotated.
pub(crate) const WORD_01: [u8; 26] = [
    0x01, 0x10, 0x21, 0x00, 0x00, 0x03, 0x30, 0x22, 0x00, 0x00, 0x08, 0x10, 0x88, 0x00, 0x00, 0x02,
    0x40, 0x22, 0x00, 0x00, 0x08, 0x10, 0x88, 0x00, 0x00, 0x02,
];

/// The octets of the first 208 bits of a word.
pub(crate) fn octets_of(word: &Word) -> [u8; 26] {
    let mut octets = [0; 26];
    for i in 0..26 {
        octets[i] = word.bits().octet(8 * i);
    }
    octets
}

/// Whether the table has the plan's base graph, the word its length, and the word meets every row.
pub(crate) fn is_met(table: &Table, plan: &Plan, word: &Word) -> bool {
    table.has(plan.graph)
        && word.len() == (plan.graph.cols() * plan.z) as usize
        && meets(table, plan, word)
}

/// The word of bits that are K', as they are here.
pub(crate) fn word_of(
    alloc: Global,
    table: &Table,
    plan: &Plan,
    bits: &Bits,
) -> Result<Word, EncFault> {
    if bits.len() == plan.kdash as usize {
        encode(alloc, table, plan, bits)
    } else {
        Err(EncFault::Memory)
    }
}

/// Whether a new word of 24 bits has 208 zeros, which meet every row of a table.
fn is_new_word_met(alloc: Global, table: &Table) -> Result<bool, Fail> {
    let plan = plan(Graph::Two, 24)?;
    let word = Word::new(alloc, &plan)?;
    Ok(word.len() == 208 && is_met(table, &plan, &word))
}

/// Whether a fault is written so.
fn is_written(alloc: Global, fault: EncFault, name: &str) -> Result<bool, AllocError> {
    match fault.to_string(alloc) {
        Ok(text) => Ok(text.as_str() == name),
        Err(error) => Err(error),
    }
}

#[test]
fn faults_of_the_encoder_are_written(rt: HostRuntime) {
    assert!(rt; is_written(rt.alloc(), EncFault::NoGraph, "NoGraph") == Ok(true));
    assert!(rt; is_written(rt.alloc(), EncFault::Memory, "Memory") == Ok(true));
}

/// The word of a code block of 24 bits by base graph 2.
fn encoded(alloc: Global, table: &Table, octets: &[u8; 3]) -> Result<Word, Fail> {
    match word_of(
        alloc,
        table,
        &plan(Graph::Two, 24)?,
        &bits_of(alloc, octets)?,
    ) {
        Ok(word) => Ok(word),
        Err(fault) => Err(fault.into()),
    }
}

/// Turns a bit that the word has.
fn flip(word: &mut Word, i: usize) {
    if i < word.len() {
        let bit = word.get(i);
        word.set(i, !bit);
    }
}

/// Whether a word meets every row, and how many of its 208 bits can be turned so that it still does.
fn idle_bits(table: &Table, plan: &Plan, word: &mut Word) -> (bool, u32) {
    let whole = is_met(table, plan, word);
    let mut idle = 0u32;
    for i in 0..208 {
        flip(word, i);
        if is_met(table, plan, word) {
            idle = idle.saturating_add(1);
        }
        flip(word, i);
    }
    (whole, idle)
}

/// The same of the word of block 01.
fn idle_bits_of_01(alloc: Global, table: &Table) -> Result<(bool, u32), Fail> {
    let plan = plan(Graph::Two, 24)?;
    let mut word = encoded(alloc, table, &[0x01, 0x10, 0x21])?;
    Ok(idle_bits(table, &plan, &mut word))
}

/// Whether the word of block 80 over its own table meets that table's rows, and then another's.
fn met_by(alloc: Global, own: &Table, other: &Table) -> Result<[bool; 2], Fail> {
    let plan = plan(Graph::Two, 24)?;
    let word = encoded(alloc, own, &[0x80, 0x91, 0x88])?;
    Ok([is_met(own, &plan, &word), is_met(other, &plan, &word)])
}

/// Whether the words of block 80 over two tables each meet the rows of their own alone, and a new word the first one's.
fn met_over(alloc: Global, first: &Table, second: &Table) -> Result<[bool; 3], Fail> {
    Ok([
        met_by(alloc, first, second)? == [true, false],
        met_by(alloc, second, first)? == [true, false],
        is_new_word_met(alloc, first)?,
    ])
}

/// What `met_over` says of this table and of one whose first parity column is rotated by another of its values.
fn met_over_first(alloc: Global, first: &Table) -> Result<[bool; 3], Fail> {
    let second = practice(alloc, 1, 0, true)?;
    met_over(alloc, first, &second)
}

/// What it says of two practice tables.
fn met_rows(alloc: Global) -> Result<[bool; 3], Fail> {
    let first = practice(alloc, 0, 1, true)?;
    met_over_first(alloc, &first)
}

/// Puts the ten information columns of block 01, the lowest bit first, and ones in every third place after them.
fn begin(word: &mut Word) {
    if word.len() == 208 {
        word.put(0, 40, 0x84_0880);
    }
    for i in 0..56 {
        flip(word, 3 * i + 40);
    }
}

/// Fills a word of block 01 from its first K bits on.
fn fill_01(table: &Table, plan: &Plan, word: &mut Word) {
    begin(word);
    if table.has(plan.graph) && word.len() == (plan.graph.cols() * plan.z) as usize {
        fill(table, plan, word);
    }
}

/// The octets of a word that is filled over a table.
fn filled(alloc: Global, table: &Table) -> Result<[u8; 26], Fail> {
    let plan = plan(Graph::Two, 24)?;
    let mut word = Word::new(alloc, &plan)?;
    fill_01(table, &plan, &mut word);
    Ok(octets_of(&word))
}

/// Why 24 bits are not encoded in base graph 1 over a table of base graph 2.
fn without_graph_1(alloc: Global, table: &Table) -> Result<Option<EncFault>, Fail> {
    let plan = plan(Graph::One, 24)?;
    let bits = bits_of(alloc, &[0x01, 0x10, 0x21])?;
    Ok(word_of(alloc, table, &plan, &bits).err())
}

/// Whether words over a table are as they are to be over the practice table.
fn are_right_over(alloc: Global, table: &Table) -> Result<[bool; 3], Fail> {
    Ok([
        idle_bits_of_01(alloc, table)? == (true, 0),
        filled(alloc, table)? == WORD_01,
        without_graph_1(alloc, table)? == Some(EncFault::NoGraph),
    ])
}

/// Whether they are over the practice table.
fn are_right(alloc: Global) -> Result<[bool; 3], Fail> {
    let table = practice(alloc, 0, 1, false)?;
    are_right_over(alloc, &table)
}

/// `meets` is false after any one of the 208 bits was turned. `fill` gives the word that `encode` gives, whatever was in its
/// parity columns. `encode` with a plan of base graph 1: NoGraph. Over two tables the word of each meets the rows of its own
/// alone. A new word meets every row.
#[test]
fn words_are_met_filled_and_refused(rt: HostRuntime) -> Result<(), Fail> {
    assert!(rt; are_right(rt.alloc())? == [true; 3]);
    assert!(rt; met_rows(rt.alloc())? == [true; 3]);
    Ok(())
}
