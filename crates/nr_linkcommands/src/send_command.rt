//! The command `send`, and its lines, which `run` writes too.

ghost use Rattle.std.specs.Prelude.{IfOk, IsErr, IsOk, length, ◌<◌, ◌^◌, ◌≡◌};
ghost use Rattle.std.specs.{Option.option_map, Result.result_map_both, Result.result_ok};
ghost use Rattle.nr_refusal.specs.Refusal.{FailsAs};
ghost use Rattle.nr_blockdesk.specs.Sent.{sent_said, tx_said};
ghost use Rattle.nr_commands.specs.Command.{Writes};
ghost use Rattle.nr_files.specs.Schedule.{HasBlock};
ghost use Rattle.nr_linkcommands.specs.FourFiles.{IsOverFourFiles, pulls, puts};
ghost use Rattle.nr_linkcommands.specs.SendLines.{answer_line, rate_name, refusal_name, refused_line, sent_line};
ghost use Rattle.nr_linkcommands.specs.SendText.{send_said, text_of_send, transmission_line};

use crate::ready::{Ready, Text, over_files};
use nr_bitvec::Bits;
use nr_blockdesk::{DeskFault, Sender, Tx};
use nr_commands::{RunFault, hex_line, put_line};
use nr_files::Transmission;
use nr_ratematch::RmFault;
use nr_streams::{Sink, Source};
use std::alloc::{AllocError, Global};
use std::fmt::Write;

/// Encodes each transport block of a blocks file once (TS 38.212, 6.2.1 to 6.2.4 and 7.2.1 to 7.2.4), and writes a line
/// for each transmission of a schedule: the bits that are sent (6.2.5, 6.2.6, 7.2.5 and 7.2.6), or the name of the
/// error that rejects it.
///
/// All four files are read to their ends and checked, in the order of the parameters, and then every transport block,
/// before the first put. Then each line is written as soon as it is made.
///
/// # Errors
///
/// In this order: `Table`, `Settings`, `Blocks`, `Schedule` with the first error of a file; `Desk` with the first
/// transport block that cannot be sent. After these the Sink is unchanged. `Write` if a put failed, after which a first
/// part of the text is written. `Memory` if memory runs out, after which nothing or a first part of the text is
/// written.
pub fn send<T: Source, S: Source, B: Source, D: Source, O: Sink>(
    alloc: Global,
    table: &mut T,
    settings: &mut S,
    blocks: &mut B,
    schedule: &mut D,
    out: &mut O,
) -> Result<(), RunFault>
    requires table { T.failures table.old < 2 ^ 32 }
    requires settings { S.failures settings.old < 2 ^ 32 }
    requires blocks { B.failures blocks.old < 2 ^ 32 }
    requires schedule { D.failures schedule.old < 2 ^ 32 }
    requires puts { O.failures out.old < 2 ^ 32 }
    ensures { IsOverFourFiles send_said result (pulls T.Source table.old table.new) (pulls S.Source settings.old settings.new)
        (pulls B.Source blocks.old blocks.new) (pulls D.Source schedule.old schedule.new) (puts O.Sink out.old out.new) }
{
    over_files::<SendCommand, _, _, _, _, _>(alloc, table, settings, blocks, schedule, out)
}

// The text of `send`.
struct SendCommand;

impl Text for SendCommand {
    ghost text = { text_of_send };

    fn write<O: Sink>(ready: &Ready, out: &mut O) -> Result<(), RunFault> {
        for transmission in &ready.schedule.transmissions {
            write_transmission(ready, transmission, out)?;
        }
        Ok(())
    }
}

// Writes the line of a transmission.
fn write_transmission<O: Sink>(
    ready: &Ready,
    transmission: &Transmission,
    out: &mut O,
) -> Result<(), RunFault>
    requires puts { O.failures out.old < 2 ^ 32 }
    requires named { HasBlock (length ready.now.senders.items) transmission.now }
    ensures text { Writes (O.written out.old) (O.written out.new) result
        (transmission_line ready.now.senders.items transmission.now) }
    ensures put { FailsAs RunFault.Write result (O.failures out.old) (O.failures out.new) }
{
    let sender = &ready.senders[transmission.block as usize - 1];
    write_sent(ready.alloc, sender, transmission, out)?;
    Ok(())
}

// Writes the line of a transmission by the sender of its block, and returns the bits that it sends, unless it is refused.
pub(crate) fn write_sent<O: Sink>(
    alloc: Global,
    sender: &Sender,
    transmission: &Transmission,
    out: &mut O,
) -> Result<Option<Bits>, RunFault>
    requires puts { O.failures out.old < 2 ^ 32 }
    ensures text { Writes (O.written out.old) (O.written out.new) result
        (answer_line transmission.now.number transmission.now.block
        (sent_said sender.now.link transmission.now.tx sender.now.block)) }
    ensures sent { IfOk result (λ sent. option_map (λ bits. bits.items) sent
        ≡ result_ok (sent_said sender.now.link transmission.now.tx sender.now.block)) }
    ensures put { FailsAs RunFault.Write result (O.failures out.old) (O.failures out.new) }
{
    let (number, block) = (transmission.number, transmission.block);
    match bits_or_refusal(sender, &transmission.tx)? {
        Ok(bits) => {
            put_line(out, sent_line(alloc, number, block, &bits))?;
            Ok(Some(bits))
        }
        Err(fault) => {
            put_line(out, refused_line(alloc, number, block, fault))?;
            Ok(None)
        }
    }
}

/// Returns the bits of a transmission, or why it is rejected.
///
/// # Errors
///
/// `AllocError` if memory runs out for a transmission that is not rejected.
pub(crate) fn bits_or_refusal(
    sender: &Sender,
    tx: &Tx,
) -> Result<Result<Bits, DeskFault>, AllocError>
    ensures said { IfOk result
        (λ said. result_map_both (λ bits. bits.items) (λ fault. fault) said
        ≡ sent_said sender.now.link tx.now sender.now.block) }
    ensures judged { IsErr result → IsOk (tx_said sender.now.link tx.now) }
{
    match sender.send(tx) {
        Ok(bits) => Ok(Ok(bits)),
        Err(DeskFault::Memory) => Err(AllocError),
        Err(fault) => Ok(Err(fault)),
    }
}

// The line of transmission `number` of block `block`: the bits that it sends.
fn sent_line(alloc: Global, number: u32, block: u32, bits: &Bits) -> Result<Vec<u8>, AllocError>
    ensures { IfOk result (λ line. line.items ≡ sent_line number block bits.now.items) }
{
    let mut head = String::new(alloc);
    write!(head, "sent {number} {block} ")?;
    hex_line(head, bits)
}

// The line of transmission `number` of block `block`, which is refused.
#[tactic(auto, unfolding(crate::specs::SendLines::refused_line))]
fn refused_line(
    alloc: Global,
    number: u32,
    block: u32,
    fault: DeskFault,
) -> Result<Vec<u8>, AllocError>
    ensures { IfOk result (λ line. line.items ≡ refused_line number block fault) }
{
    let mut line = String::new(alloc);
    let name = refusal_name(fault);
    writeln!(line, "refused {number} {block} {name}")?;
    Ok(line.into_bytes())
}

// The name of a refusal.
fn refusal_name(fault: DeskFault) -> &'static str
    ensures { result.now ≡ refusal_name fault }
{
    match fault {
        DeskFault::Size => "Size",
        DeskFault::Pick(_) => "Pick",
        DeskFault::Seg(_) => "Seg",
        DeskFault::Graph => "Graph",
        DeskFault::Rv => "Rv",
        DeskFault::Rm(fault) => rate_name(fault),
        DeskFault::Length => "Length",
        DeskFault::Memory => "Memory",
    }
}

// The name of a refusal of rate matching.
fn rate_name(fault: RmFault) -> &'static str
    ensures { result.now ≡ rate_name fault }
{
    match fault {
        RmFault::NoBuffer => "NoBuffer",
        RmFault::Order => "Order",
        RmFault::Layers => "Layers",
        RmFault::Total => "Total",
        RmFault::Ragged => "Ragged",
        RmFault::NoneScheduled => "NoneScheduled",
    }
}
