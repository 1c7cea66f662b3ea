//! Whole commands over a file that is Broken at each of its pulls in turn. A command that a file refuses has pulled no more,
//! and has written nothing.

use super::{ROUNDS, SCHEDULE};
use crate::ends::{Case, Command, End, ended};
use nr_commands::RunFault;
use nr_files::{BlocksFault, ScheduleFault, SettingsFault};
use nr_shifttable::TableFault;
use std::alloc::{AllocError, Global};
use std::process::Abort;

/// How often a file is pulled that is read to its end. The table's 2,677 octets are pulled by 64, the other files by
/// one, and once more for the end.
fn pulls_of(file: End, schedule: &[u8]) -> u32 {
    match file {
        End::Table => 43,
        End::Settings => 17,
        End::Blocks => 4,
        End::Schedule => schedule.len().min(1000) as u32 + 1,
        End::Output => 0,
    }
}

/// How often each file is pulled if this one is Broken at its k-th pull. Those before it are pulled to their ends,
/// and those after it never.
fn pulls_until(command: Command, file: End, k: u32) -> [u32; 4] {
    match file {
        End::Table => [k, 0, 0, 0],
        End::Blocks if matches!(command, Command::Cut) => [0, 0, k, 0],
        End::Settings => [43, k, 0, 0],
        End::Blocks => [43, 17, k, 0],
        End::Schedule => [43, 17, 4, k],
        End::Output => [43, 17, 4, 0],
    }
}

/// The fault of an end that is Broken.
fn fault_of(end: End) -> RunFault {
    match end {
        End::Table => RunFault::Table(TableFault::Read),
        End::Settings => RunFault::Settings(SettingsFault::Read),
        End::Blocks => RunFault::Blocks(BlocksFault::Read),
        End::Schedule => RunFault::Schedule(ScheduleFault::Read),
        End::Output => RunFault::Write,
    }
}

/// Whether a command says that a file is Broken at its k-th pull, pulls as often as it should, and writes nothing.
fn breaks_at(
    alloc: Global,
    command: Command,
    schedule: &[u8],
    file: End,
    k: u32,
) -> Result<bool, AllocError> {
    let case = Case {
        command,
        schedule,
        breaks: (file, k),
        text: b"",
    };
    let (answer, pulls, is_empty) = ended(alloc, case)?;
    let is_told = answer == Err(fault_of(file));
    Ok(is_told && pulls == pulls_until(command, file, k) && is_empty)
}

/// A command over a schedule and a file that is Broken at its k-th pull, for each k: the last one meets the end.
fn breaks_at_each_pull(
    rt: &impl Abort,
    alloc: Global,
    command: Command,
    schedule: &[u8],
    file: End,
) {
    for k in 1..=pulls_of(file, schedule) {
        assert!(rt; breaks_at(alloc, command, schedule, file, k) == Ok(true));
    }
}

/// Commands over a schedule and a file: each one that reads the file. They go through rounds by a schedule of ten columns.
const FILES: &[(&[u8], End, &[Command])] = &[
    (
        SCHEDULE,
        End::Table,
        &[Command::Check, Command::Send, Command::Run, Command::Audit],
    ),
    (
        SCHEDULE,
        End::Settings,
        &[Command::Send, Command::Run, Command::Audit],
    ),
    (
        SCHEDULE,
        End::Blocks,
        &[Command::Cut, Command::Send, Command::Run, Command::Audit],
    ),
    (
        SCHEDULE,
        End::Schedule,
        &[Command::Send, Command::Run, Command::Audit],
    ),
    (ROUNDS, End::Table, &[Command::Run, Command::Audit]),
    (ROUNDS, End::Settings, &[Command::Run, Command::Audit]),
    (ROUNDS, End::Blocks, &[Command::Run, Command::Audit]),
    (ROUNDS, End::Schedule, &[Command::Run, Command::Audit]),
];

#[test]
fn files_are_broken_at_each_pull(rt: HostRuntime) {
    for (schedule, file, commands) in FILES.iter().copied() {
        for command in commands.iter().copied() {
            breaks_at_each_pull(&rt, rt.alloc(), command, schedule, file);
        }
    }
}
