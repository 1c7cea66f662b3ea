//! The command `audit`.

ghost use Rattle.std.specs.Prelude.{◌≡◌, ◌<◌, ◌^◌, true};
ghost use Rattle.nr_refusal.specs.Refusal.{FailsAs};
ghost use Rattle.nr_commands.specs.Command.{Writes};
ghost use Rattle.nr_files.specs.Rounds.{first_block, of_process, round_of};
ghost use Rattle.nr_linkcommands.specs.{AuditLines.audit_block, FourFiles.IsOverFourFiles, FourFiles.pulls, FourFiles.puts};
ghost use Rattle.nr_linkcommands.specs.AuditText.{audit_said, audit_words, text_of_audit};
ghost use Rattle.nr_linkcommands.specs.inside.Walks.{AreScheduled, HasProcess, round_text};

mod lines;
mod replay;

use crate::heads::head_of;
use crate::laws;
use crate::ready::{Ready, Text, over_files};
use crate::schedule_walk::{Walk, end_all, follow};
use lines::code_line;
use nr_blockdesk::Receiver;
use nr_commands::{RunFault, put_line};
use nr_files::{Round, Transmission, round_of};
use nr_streams::{Sink, Source};
use replay::replay;
use std::alloc::Global;

/// Sends and receives each transmission of a schedule as `run` does, without a line. Then it writes for each transport
/// block, counted from 1, a line for each of its code blocks, counted from 0:
///
/// - `order <n> <r> <steps>` if every position below K' is recovered, with the number of positions that peeling
///   recovered: those that are known but were neither received nor are fillers;
/// - `stuck <n> <r> <count> <positions>` if one is not, with all positions that are unknown, ascending. They are a
///   stopping set, which is why peeling cannot go on (TS 38.212, 5.3.2).
///
/// All four files are read to their ends and checked, in the order of the parameters, and then every transport block,
/// before the first put. Then each line is written as soon as it is made.
///
/// # Errors
///
/// Those of `run`.
pub fn audit<T: Source, S: Source, B: Source, D: Source, O: Sink>(
    alloc: Global,
    table: &mut T,
    settings: &mut S,
    blocks: &mut B,
    schedule: &mut D,
    out: &mut O,
) -> Result<(), RunFault>
    requires table { T.failures table.old < 2 ^ 32 }
    requires settings { S.failures settings.old < 2 ^ 32 }
    requires blocks { B.failures blocks.old < 2 ^ 32 }
    requires schedule { D.failures schedule.old < 2 ^ 32 }
    requires puts { O.failures out.old < 2 ^ 32 }
    ensures { IsOverFourFiles audit_said result (pulls T.Source table.old table.new) (pulls S.Source settings.old settings.new)
        (pulls B.Source blocks.old blocks.new) (pulls D.Source schedule.old schedule.new) (puts O.Sink out.old out.new) }
{
    over_files::<AuditCommand, _, _, _, _, _>(alloc, table, settings, blocks, schedule, out)
}

// The text of `audit`.
struct AuditCommand;

impl Text for AuditCommand {
    ghost text = { text_of_audit };

    fn write<O: Sink>(ready: &Ready, out: &mut O) -> Result<(), RunFault> {
        let mut rounds = AuditRounds;
        follow(ready, &mut rounds, out)?;
        end_all(ready, &mut rounds, out)
    }
}

// What `audit` keeps of rounds: nothing. A round is sent and received when it ends.
#[derive(Drop)]
struct AuditRounds;

impl<'t> Walk<'t> for AuditRounds {
    ghost words = { audit_words };

    ghost Keeps = { λ rounds ready before later ended. Unit {0} };

    fn end_round<O: Sink>(
        &mut self,
        ready: &Ready<'t>,
        process: u32,
        before: &[Transmission],
        out: &mut O,
    ) -> Result<(), RunFault> {
        write_round(ready, process, before, out)
    }

    fn transmit<O: Sink>(
        &mut self,
        ready: &Ready<'t>,
        transmission: &Transmission,
        _: &[Transmission],
        _: &mut O,
    ) -> Result<(), RunFault> {
        Ok(())
    }
}

// Writes the lines of the round that a process is in after these transmissions, if it is in one.
fn write_round<O: Sink>(
    ready: &Ready,
    process: u32,
    before: &[Transmission],
    out: &mut O,
) -> Result<(), RunFault>
    requires puts { O.failures out.old < 2 ^ 32 }
    requires scheduled { AreScheduled ready.now before.now }
    requires placed { HasProcess ready.now process }
    ensures text { Writes (O.written out.old) (O.written out.new) result
        (round_text audit_words ready.now process (round_of process before.now)) }
    ensures put { FailsAs RunFault.Write result (O.failures out.old) (O.failures out.new) }
{
    laws::plans_are_sound();
    let round = round_in(ready, process, before);
    match ready.block_of(process, round.block) {
        None => Ok(()),
        Some(number) => {
            let sender = &ready.senders[number as usize - 1];
            sender.is_sound();
            let head = head_of(ready, process)?;
            let receiver = replay(ready.alloc, sender, process, round.transmissions)?;
            write_codes(ready.alloc, &head, number, &receiver, out)
        }
    }
}

// The round that a process is in after these transmissions. If the schedule names no processes, no transmission is fresh:
// they need no search, since those of the process are all of its round.
fn round_in<'s>(ready: &Ready, process: u32, before: &'s [Transmission]) -> Round<'s>
    requires { AreScheduled ready.now before.now }
    ensures block { ready.now.schedule.now.by_process ≡ true
        → result.block ≡ first_block (round_of process before.now) }
    ensures transmissions { of_process process result.transmissions.now ≡ round_of process before.now }
{
    if ready.schedule.by_process {
        return round_of(process, before);
    }
    Round {
        block: None,
        transmissions: before,
    }
}

// Writes the line of each code block of block `number`, by its receiver, each after `head`.
fn write_codes<O: Sink>(
    alloc: Global,
    head: &str,
    number: u32,
    receiver: &Receiver,
    out: &mut O,
) -> Result<(), RunFault>
    requires { O.failures out.old < 2 ^ 32 }
    ensures text { Writes (O.written out.old) (O.written out.new) result
        (audit_block head.now number receiver.now.link receiver.now.heard) }
    ensures put { FailsAs RunFault.Write result (O.failures out.old) (O.failures out.new) }
{
    for r in 0..receiver.plan().c {
        put_line(out, code_line(alloc, head, number, receiver, r))?;
    }
    Ok(())
}
