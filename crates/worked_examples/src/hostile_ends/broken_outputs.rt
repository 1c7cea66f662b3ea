//! Whole commands over an output that takes one octet a put and is Broken at each put in turn. And a text over an
//! output with little room.

ghost use Rattle.std.specs.Prelude.{◌<◌};

use super::{ROUNDS, SCHEDULE};
use crate::ends::{Case, Command, End, ended};
use nr_commands::RunFault;
use nr_streams::{Tape, put_all};
use std::alloc::{AllocError, Global};
use std::process::Abort;

/// Whether a command writes this many octets of a text and no more, if its output is Broken at the put after them. After
/// the text's last octet there is no put.
fn breaks_behind(
    alloc: Global,
    command: Command,
    schedule: &[u8],
    text: &[u8],
    count: u32,
) -> Result<bool, AllocError> {
    let Some(first) = text.get(..count as usize) else {
        return Ok(false);
    };
    let case = Case {
        command,
        schedule,
        breaks: (End::Output, count.saturating_add(1)),
        text: first,
    };
    let (answer, _, is_first) = ended(alloc, case)?;
    let is_told = if first.len() == text.len() {
        answer.is_ok()
    } else {
        matches!(answer, Err(RunFault::Write))
    };
    Ok(is_told && is_first)
}

/// A command over a schedule whose output is Broken at each of its puts in turn.
fn breaks_at_each_put(
    rt: &impl Abort,
    alloc: Global,
    command: Command,
    schedule: &[u8],
    text: &[u8],
) {
    for count in 0..=text.len().min(1000) as u32 {
        assert!(rt; breaks_behind(alloc, command, schedule, text, count) == Ok(true));
    }
}

/// Commands, their schedules, and all that they write.
const OUTPUTS: &[(Command, &[u8], &[u8])] = &[
    (
        Command::Cut,
        SCHEDULE,
        b"block 1 a 8 b 24 graph 2 c 1 l 0 kdash 24 kb 6 z 4 set 0 k 40 n 200\nattached 1 011021\ncode 1 0 011021\n",
    ),
    (Command::Check, SCHEDULE, b"graph 2 entries 105\n"),
    // Block 01 with its CRC is 011021, with Zc 4: columns 2 to 7 after the fillers, by four bits a symbol.
    (Command::Send, SCHEDULE, b"sent 1 1 000a51\n"),
    // 24 bits leave column 1 of block 01's word.
    (
        Command::Run,
        SCHEDULE,
        b"sent 1 1 000a51\n\
        left 1 1 0 4\n\
        block 1 open tx 1 failed 1 of 1\n\
        total blocks 1 delivered 0 open 1 contradiction 0 codeblocks 1 failed 1\n",
    ),
    // With column 1 columns 12 and 13 are left and the rotations of column 1, which are columns 21, 31, 41 and 51.
    (
        Command::Audit,
        SCHEDULE,
        b"stuck 1 0 28 4 5 6 7 48 49 50 51 52 53 54 55 84 85 86 87 124 125 126 127 164 165 166 167 \
        204 205 206 207\n",
    ),
    // Column 1 is left of the first round too, which the second one ends; 32 bits leave nothing, and of 208 positions 16
    // are fillers.
    (
        Command::Run,
        ROUNDS,
        b"sent 1 1 000a51\n\
        left 1 1 0 4\n\
        process 3 block 1 open tx 1 failed 1 of 1\n\
        sent 2 1 10210330\n\
        left 2 1 0 0\n\
        process 3 block 1 delivered tx 1 failed 0 of 1 01\n\
        total rounds 2 delivered 1 open 1 contradiction 0 codeblocks 2 failed 1\n",
    ),
    (
        Command::Audit,
        ROUNDS,
        b"process 3 stuck 1 0 28 4 5 6 7 48 49 50 51 52 53 54 55 84 85 86 87 124 125 126 127 164 165 166 167 \
        204 205 206 207\n\
        process 3 order 1 0 160\n",
    ),
];

#[test]
fn outputs_are_broken_at_each_put(rt: HostRuntime) {
    for (command, schedule, text) in OUTPUTS.iter().copied() {
        breaks_at_each_put(&rt, rt.alloc(), command, schedule, text);
    }
}

/// What is written of `abcdef` on a new Tape: whether all was put, how many octets are there, and whether they are its first.
fn put_onto(
    alloc: Global,
    room: u32,
    step: u32,
    fail: u32,
) -> Result<(bool, usize, bool), AllocError>
    requires { 0 < step }
{
    let text = b"abcdef";
    let mut tape = Tape::new(alloc, room, step, fail)?;
    let answer = put_all(&mut tape, text);
    let written = tape.bytes();
    Ok((answer == Ok(()), written.len(), text.starts_with(written)))
}

#[test]
fn text_is_put_until_the_output_is_broken(rt: HostRuntime) {
    for (room, step, fail, count) in [
        (6, 6, 0, 6),
        (6, 4, 0, 6),
        (9, 1, 7, 6),
        (9, 1, 6, 5),
        (6, 4, 2, 4),
        (5, 2, 0, 5),
        (6, 6, 1, 0),
        (0, 1, 0, 0),
    ] {
        let found = put_onto(rt.alloc(), room, step.max(1), fail);
        assert!(rt; found == Ok((count == 6, count, true)));
    }
}

/// Whether a Tape of 2,000,000 octets takes a text of so many, 4,096 a put, and how many it holds then.
fn taken(alloc: Global, length: usize) -> Result<(bool, usize), AllocError> {
    let mut text = Vec::new(alloc);
    text.resize(length, b'0')?;
    let mut tape = Tape::new(alloc, 2_000_000, 4096, 0)?;
    let answer = put_all(&mut tape, &text);
    Ok((answer.is_ok(), tape.bytes().len()))
}

// Its room and no more.
#[test]
fn a_tape_has_room_for_2_000_000_octets(rt: HostRuntime) {
    for (length, want) in [
        (2_000_000, (true, 2_000_000)),
        (2_000_001, (false, 2_000_000)),
    ] {
        assert!(rt; taken(rt.alloc(), length) == Ok(want), "{length} octets");
    }
}
