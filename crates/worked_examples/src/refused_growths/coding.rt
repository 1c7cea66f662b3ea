//! Calls of rate matching and of processes. If a growth is refused and memory is there again, the call
//! is made again, and returns the true result.

use super::has_memory;
use crate::practice::{PLAIN, on_one_layer, practice};
use crate::receptions::{HandedUp, left_of, told};
use nr_bitvec::Bits;
use nr_blockdesk::{DeskFault, Heard, Processes};
use nr_graphpick::Graph;
use nr_ldpcenc::Word;
use nr_ratematch::{Buffer, select};
use nr_segment::{Plan, plan};
use nr_shifttable::Table;
use std::alloc::{AllocError, Global};
use std::test::Fail;

/// 65 bits of version 0 of a word of zeros.
fn select_65(alloc: Global, plan: &Plan, word: &Word) -> Result<Bits, AllocError> {
    let Ok(buffer) = Buffer::new(plan, None) else {
        return Bits::zeros(alloc, 0);
    };
    if word.len() != (plan.graph.cols() * plan.z) as usize {
        return Bits::zeros(alloc, 0);
    }
    select(alloc, &buffer, word, 0, 65)
}

/// Whether these are 65 zeros.
fn are_zeros(bits: &Bits) -> bool {
    for k in 0..bits.len() {
        if bits.get(k) {
            return false;
        }
    }
    bits.len() == 65
}

/// Whether 65 zeros are selected.
fn selects_zeros(alloc: Global, plan: &Plan, word: &Word) -> Result<bool, AllocError> {
    match select_65(alloc, plan, word) {
        Ok(bits) => Ok(are_zeros(&bits)),
        Err(error) => Err(error),
    }
}

#[test]
fn selects(rt: HostRuntime) -> Result<(), Fail> {
    let plan = plan(Graph::Two, 40)?;
    let word = Word::new(rt.alloc(), &plan)?;
    let answer = selects_zeros(rt.alloc(), &plan, &word);
    if answer.is_err() && has_memory(rt.alloc()) {
        assert!(rt; selects_zeros(rt.alloc(), &plan, &word) == Ok(true));
    }
    assert!(rt; answer?);
    Ok(())
}

/// What a call on a process returns: nothing if it begins, or was to receive before it did.
type Answer = Result<Option<HandedUp>, DeskFault>;

/// What a process returns, if it has begun, to the first `g` bits of version 0.
fn takes(processes: &mut Processes<'_>, p: u8, g: u32, places: &[Heard]) -> Answer {
    if p < 16 && processes.begun(p) {
        match processes.take(p, &on_one_layer(0, g, 1), places) {
            Ok(outcome) => Ok(Some(told(&outcome))),
            Err(fault) => Err(fault),
        }
    } else {
        Ok(None)
    }
}

/// A process begins with an octet.
fn begins(processes: &mut Processes<'_>, p: u8) -> Answer {
    if p < 16 {
        processes.begin(p, 8)?;
    }
    Ok(None)
}

/// How many positions below K' of the first code block of a process are left, if it has begun.
fn left(processes: &Processes<'_>, p: u8) -> Option<u32> {
    if p < 16 {
        let receiver = processes.receiver(p)?;
        Some(left_of(receiver).0)
    } else {
        None
    }
}

/// How many are left of processes 0 and 1.
fn left_of_two(processes: &Processes<'_>) -> [Option<u32>; 2] {
    [left(processes, 0), left(processes, 1)]
}

/// A process begins, and hears so many ones that 4 positions are left.
fn begin_one(processes: &mut Processes<'_>, p: u8) -> Answer {
    match begins(processes, p) {
        Ok(_) => takes(processes, p, 24, &[Heard::One; 24]),
        Err(fault) => Err(fault),
    }
}

/// Processes 0 and 1 begin so.
fn begin_two(processes: &mut Processes<'_>) -> Answer {
    match begin_one(processes, 0) {
        Ok(_) => begin_one(processes, 1),
        Err(fault) => Err(fault),
    }
}

/// A call on a process: it begins, or hears a place.
fn calls(processes: &mut Processes<'_>, p: u8, is_begin: bool) -> Answer {
    if is_begin {
        begins(processes, p)
    } else {
        takes(processes, p, 25, &[Heard::One; 25])
    }
}

/// What a call on process 0 of two returns, and again if the first is refused, and how many positions are left after
/// each.
type Answers = [(Answer, [Option<u32>; 2]); 2];

/// The answers of processes that have not begun.
fn answers_of(
    alloc: Global,
    processes: &mut Processes<'_>,
    is_begin: bool,
) -> Result<Answers, Fail> {
    begin_two(processes)?;
    let answer = calls(processes, 0, is_begin);
    let first = (answer, left_of_two(processes));
    if answer.is_ok() {
        return Ok([first; 2]);
    }
    // If all growths are refused, no call can be made again.
    Bits::zeros(alloc, 64)?;
    let again = calls(processes, 0, is_begin);
    Ok([first, (again, left_of_two(processes))])
}

/// The answers of new processes.
fn answers_over(alloc: Global, table: &Table, is_begin: bool) -> Result<Answers, Fail> {
    let mut processes = Processes::new(alloc, table, PLAIN);
    answers_of(alloc, &mut processes, is_begin)
}

/// The answers of new processes over the practice table.
fn answers(alloc: Global, is_begin: bool) -> Result<Answers, Fail> {
    let table = practice(alloc, 0, 1, false)?;
    answers_over(alloc, &table, is_begin)
}

// A process that begins anew has received nothing, and the other one is as before.
#[test]
fn begins_anew(rt: HostRuntime) -> Result<(), Fail> {
    let [(answer, kept), again] = answers(rt.alloc(), true)?;
    assert!(rt; answer.is_ok() || kept == [Some(4); 2]);
    assert!(rt; again == (Ok(None), [Some(24), Some(4)]));
    answer?;
    Ok(())
}

// Place 24 is one of the four that are left.
#[test]
fn hears(rt: HostRuntime) -> Result<(), Fail> {
    let [(answer, kept), again] = answers(rt.alloc(), false)?;
    assert!(rt; answer.is_ok() || kept == [Some(4); 2]);
    assert!(rt; again == (Ok(Some(HandedUp::Open)), [Some(3), Some(4)]));
    answer?;
    Ok(())
}
