//! The commands over files and an output in memory, each of which can be made to break.

ghost use Rattle.std.specs.Prelude.{◌≡◌, ◌<◌, ◌^◌, Some, IfOk};

use crate::practice::practice_text;
use nr_commands::{RunFault, check, cut};
use nr_linkcommands::{audit, run, send};
use nr_streams::{Broken, Feed, Source, Tape};
use std::alloc::{AllocError, Global};

/// A command of the program; `cut` at the highest code rate.
#[derive(Clone, Copy)]
pub(crate) enum Command {
    Cut,
    Check,
    Send,
    Run,
    Audit,
}

/// What a command reads, and what it writes to.
#[derive(Clone, Copy, PartialEq, Eq)]
pub(crate) enum End {
    Table,
    Settings,
    Blocks,
    Schedule,
    Output,
}

/// A command over block 01 and a schedule, the time at which an end breaks, and what is to be written by then.
#[derive(Clone, Copy)]
pub(crate) struct Case<'a> {
    pub(crate) command: Command,
    pub(crate) schedule: &'a [u8],
    pub(crate) breaks: (End, u32),
    pub(crate) text: &'a [u8],
}

/// The blocks file.
const BLOCKS: &[u8] = b"01\n";

/// The settings of the highest code rate.
const SETTINGS: &[u8] = b"rate2048 = 2048\n";

/// More octets than these commands write.
const ROOM: u32 = 4096;

/// A Feed, and how often it was pulled.
#[derive(Drop)]
struct Counted {
    feed: Feed,
    pulls: u32,
}

impl Source for Counted {
    ghost remaining = { λ source. Some source.feed.octets };

    ghost failures = { λ source. source.feed.failed };

    fn pull(&mut self, buf: &mut [u8]) -> Result<usize, Broken> {
        self.pulls = self.pulls.saturating_add(1);
        self.feed.pull(buf)
    }
}

/// The time at which this end breaks, if that one breaks at this time: 0 is never.
fn breaks_at(end: End, breaks: (End, u32)) -> u32 {
    if end == breaks.0 { breaks.1 } else { 0 }
}

/// A Source of a file's text, which gives so many octets a pull.
fn source_of(
    alloc: Global,
    text: &[u8],
    step: u32,
    end: End,
    breaks: (End, u32),
) -> Result<Counted, AllocError>
    requires { 0 < step }
    ensures { IfOk result (λ source. source.feed.failed < 2 ^ 32) }
{
    Ok(Counted {
        feed: Feed::new(Vec::from_slice(alloc, text)?, step, breaks_at(end, breaks)),
        pulls: 0,
    })
}

/// Does a command.
fn perform(
    alloc: Global,
    command: Command,
    table: &mut Counted,
    settings: &mut Counted,
    blocks: &mut Counted,
    schedule: &mut Counted,
    tape: &mut Tape,
) -> Result<(), RunFault>
    requires table { table.old.feed.failed < 2 ^ 32 }
    requires settings { settings.old.feed.failed < 2 ^ 32 }
    requires blocks { blocks.old.feed.failed < 2 ^ 32 }
    requires schedule { schedule.old.feed.failed < 2 ^ 32 }
    requires puts { tape.old.failures ≡ 0 }
{
    match command {
        Command::Cut => cut(alloc, 2048, blocks, tape),
        Command::Check => check(alloc, table, tape),
        Command::Send => send(alloc, table, settings, blocks, schedule, tape),
        Command::Run => run(alloc, table, settings, blocks, schedule, tape),
        Command::Audit => audit(alloc, table, settings, blocks, schedule, tape),
    }
}

/// The practice table's file, which gives 64 octets a pull.
fn table_source(alloc: Global, breaks: (End, u32)) -> Result<Counted, AllocError>
    ensures { IfOk result (λ source. source.feed.failed < 2 ^ 32) }
{
    let text = practice_text(alloc)?;
    source_of(alloc, text.as_bytes(), 64, End::Table, breaks)
}

/// How a command ended: what it returned, and how often it pulled the table, the settings, the blocks and the schedule. Then
/// whether it wrote what it was to write.
pub(crate) type Ended = (Result<(), RunFault>, [u32; 4], bool);

// Each of the following functions owns one file, because a proof grows with what a function owns at the same time.

/// How a command ends over these files. The output takes one octet a put.
fn ended_over_files(
    alloc: Global,
    case: Case<'_>,
    table: &mut Counted,
    settings: &mut Counted,
    blocks: &mut Counted,
    schedule: &mut Counted,
) -> Result<Ended, AllocError>
    requires table { table.old.feed.failed < 2 ^ 32 }
    requires settings { settings.old.feed.failed < 2 ^ 32 }
    requires blocks { blocks.old.feed.failed < 2 ^ 32 }
    requires schedule { schedule.old.feed.failed < 2 ^ 32 }
{
    let mut tape = Tape::new(alloc, ROOM, 1, breaks_at(End::Output, case.breaks))?;
    let answer = perform(
        alloc,
        case.command,
        table,
        settings,
        blocks,
        schedule,
        &mut tape,
    );
    let pulls = [table.pulls, settings.pulls, blocks.pulls, schedule.pulls];
    Ok((answer, pulls, tape.bytes() == case.text))
}

/// How a command ends over these files and the schedule. The schedule gives one octet a pull, as the blocks file and the
/// settings do.
fn ended_over_three(
    alloc: Global,
    case: Case<'_>,
    table: &mut Counted,
    settings: &mut Counted,
    blocks: &mut Counted,
) -> Result<Ended, AllocError>
    requires table { table.old.feed.failed < 2 ^ 32 }
    requires settings { settings.old.feed.failed < 2 ^ 32 }
    requires blocks { blocks.old.feed.failed < 2 ^ 32 }
{
    let mut schedule = source_of(alloc, case.schedule, 1, End::Schedule, case.breaks)?;
    ended_over_files(alloc, case, table, settings, blocks, &mut schedule)
}

/// How a command ends over these files, the blocks file and the schedule.
fn ended_over_two(
    alloc: Global,
    case: Case<'_>,
    table: &mut Counted,
    settings: &mut Counted,
) -> Result<Ended, AllocError>
    requires table { table.old.feed.failed < 2 ^ 32 }
    requires settings { settings.old.feed.failed < 2 ^ 32 }
{
    let mut blocks = source_of(alloc, BLOCKS, 1, End::Blocks, case.breaks)?;
    ended_over_three(alloc, case, table, settings, &mut blocks)
}

/// How a command ends over a table and the other files.
fn ended_over_table(alloc: Global, case: Case<'_>, table: &mut Counted) -> Result<Ended, AllocError>
    requires { table.old.feed.failed < 2 ^ 32 }
{
    let mut settings = source_of(alloc, SETTINGS, 1, End::Settings, case.breaks)?;
    ended_over_two(alloc, case, table, &mut settings)
}

/// How a command ends under the practice table and the highest code rate.
pub(crate) fn ended(alloc: Global, case: Case<'_>) -> Result<Ended, AllocError> {
    let mut table = table_source(alloc, case.breaks)?;
    ended_over_table(alloc, case, &mut table)
}
