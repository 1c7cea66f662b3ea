//! What the commands over a schedule have in common: four files are read and checked, each transport block gets a
//! sender, and a text is written about both.

ghost use Rattle.std.specs.Prelude.{ℕ, List, All, IfErr, IfOk, Some, if◌then◌else◌, length, map, ◌+◌, ◌-◌};
ghost use Rattle.std.specs.Prelude.{◌≡◌, ◌≢◌, ◌<◌, ◌≤◌, ◌^◌};
ghost use Rattle.std.proofs.Props.{props};
ghost use Rattle.nr_refusal.specs.Refusal.{FailsAs, Gives};
ghost use Rattle.nr_blockdesk.specs.Sent.{SenderView};
ghost use Rattle.nr_commands.specs.Command.{IsBlockFault, Writes};
ghost use Rattle.nr_files.specs.{Blocks.IsBlockLength, Schedule.IsTimetable, Schedule.Timetable, Schedule.timetable_by};
ghost use Rattle.nr_linkcommands.specs.FourFiles.{IsOverFourFiles, pulls, puts, said_over};
ghost use Rattle.nr_linkcommands.specs.{Inputs.sender_said, Inputs.senders_from, inside.Linked.IsPlaced-prop};
ghost use Rattle.nr_linkcommands.specs.RoundTexts.{process_count};

use crate::inputs::read_inputs;
use nr_bitvec::Bits;
use nr_blockdesk::{DeskFault, Sender, Settings};
use nr_commands::RunFault;
use nr_files::{PROCESSES, Schedule};
use nr_shifttable::Table;
use nr_streams::{Sink, Source};
use std::alloc::Global;

/// What a command over four files works from: the files have been read and checked, and each transport block has a
/// sender.
#[derive(Drop)]
pub(crate) struct Ready<'t> {
    /// The allocator.
    pub(crate) alloc: Global,
    /// The transmissions, in their order, and whether they name HARQ processes.
    pub(crate) schedule: &'t Schedule,
    /// A sender for each transport block, that of block 1 first.
    pub(crate) senders: Vec<Sender<'t>>,
    pub(crate) ghost few: { length senders.items ≤ 256 },
    pub(crate) ghost timetable: { IsTimetable (length senders.items)
        (timetable_by schedule.now) } by { Prim.hlevel (props, IsPlaced-prop) },
}

impl<'t> Ready<'t> {
    /// Makes a sender for each transport block. The octets of a block are freed, because its codewords contain them.
    ///
    /// # Errors
    ///
    /// `Desk` with the number, counted from 1, of the first transport block that is rejected, and the reason. `Memory`
    /// if memory runs out.
    pub(crate) fn new(
        alloc: Global,
        table: &'t Table,
        settings: Settings,
        blocks: Vec<Vec<u8>>,
        schedule: &'t Schedule,
    ) -> Result<Ready<'t>, RunFault>
        requires few { length blocks.items ≤ 256 }
        requires sizes { All (λ block. IsBlockLength (length block.items)) blocks.items }
        requires timetable { IsTimetable (length blocks.items) (timetable_by schedule.now) }
        ensures schedule { IfOk result (λ ready. ready.schedule.now ≡ schedule.entry.now) }
        ensures said { Gives RunFault.Memory (λ ready. ready.senders.items) result
            (senders_from table.entry.now settings 1 (map (λ block. block.items) blocks.items)) }
        ensures of_block { IfErr result (λ e. e ≢ RunFault.Memory → IsBlockFault e) }
    {
        let senders = senders_of(alloc, table, settings, &blocks)?;
        Ok(Ready {
            alloc,
            schedule,
            senders,
        })
    }

    /// Returns how many processes the schedule has: sixteen, or as many as there are blocks.
    pub(crate) fn process_count(&self) -> u32
        ensures { result ≡ process_count self.now.schedule.now.by_process (length self.now.senders.items) }
    {
        if self.schedule.by_process {
            PROCESSES
        } else {
            self.senders.len() as u32
        }
    }

    /// Returns the block of a process's round: the one that its first transmission names, or block n for process n - 1.
    pub(crate) fn block_of(&self, process: u32, named: Option<u32>) -> Option<u32>
        requires { process < 2 ^ 32 - 1 }
        ensures { result ≡ (if self.now.schedule.now.by_process then named else Some (process + 1)) }
    {
        if self.schedule.by_process {
            named
        } else {
            Some(process + 1)
        }
    }
}

// A sender for each of these transport blocks, whose octets are given, which encodes it (TS 38.212, 6.2.1 to 6.2.4 and
// 7.2.1 to 7.2.4).
//
// Errors: `Desk`, the first transport block that is refused, counted from 1, and why; `Memory`.
fn senders_of<'t>(
    alloc: Global,
    table: &'t Table,
    settings: Settings,
    blocks: &[Vec<u8>],
) -> Result<Vec<Sender<'t>>, RunFault>
    requires few { length blocks.now ≤ 256 }
    requires sizes { All (λ block. IsBlockLength (length block.items)) blocks.now }
    ensures said { Gives RunFault.Memory (λ senders. senders.items) result
        (senders_from table.entry.now settings 1 (map (λ block. block.items) blocks.now)) }
    ensures each { IfOk result (λ senders. length senders.items ≡ length blocks.now) }
    ensures of_block { IfErr result (λ e. e ≢ RunFault.Memory → IsBlockFault e) }
{
    let mut senders = Vec::new(alloc);
    for (index, block) in blocks.iter().enumerate() {
        let number = index as u32 + 1;
        senders.push(sender(alloc, table, settings, number, block)?)?;
    }
    Ok(senders)
}

// The sender of transport block `number`, whose octets are given.
fn sender<'t>(
    alloc: Global,
    table: &'t Table,
    settings: Settings,
    number: u32,
    octets: &[u8],
) -> Result<Sender<'t>, RunFault>
    requires { IsBlockLength (length octets.now) }
    ensures said { Gives RunFault.Memory (λ sender. sender) result
        (sender_said table.entry.now settings number octets.now) }
    ensures of_block { IfErr result (λ e. e ≢ RunFault.Memory → IsBlockFault e) }
{
    let bits = Bits::from_bytes(alloc, octets)?;
    match Sender::new(alloc, table, settings, &bits) {
        Ok(sender) => Ok(sender),
        Err(DeskFault::Memory) => Err(RunFault::Memory),
        Err(fault) => Err(RunFault::Desk(number, fault)),
    }
}

/// The text that a command writes once its files are accepted.
pub(crate) trait Text {
    /// The text for a sender of each transport block, and the schedule.
    ghost text: { List SenderView → Timetable → List ℕ };

    /// Writes the text, each line as soon as it is made, or together with those that are made with it.
    ///
    /// # Errors
    ///
    /// `Write` if a put failed, or `Memory` if memory runs out. A first part of the text is written then.
    fn write<O: Sink>(ready: &Ready, out: &mut O) -> Result<(), RunFault>
        requires puts { O.failures out.old < 2 ^ 32 }
        ensures text { Writes (O.written out.old) (O.written out.new) result
            (text ready.now.senders.items (timetable_by ready.now.schedule.now)) }
        ensures put { FailsAs RunFault.Write result (O.failures out.old) (O.failures out.new) };
}

/// Reads the four files to their ends and checks them, in the order of the parameters, then checks every transport
/// block, and writes the text of the command `C`.
///
/// # Errors
///
/// Those of `run`.
pub(crate) fn over_files<C: Text, T: Source, S: Source, B: Source, D: Source, O: Sink>(
    alloc: Global,
    table: &mut T,
    settings: &mut S,
    blocks: &mut B,
    schedule: &mut D,
    out: &mut O,
) -> Result<(), RunFault>
    requires table { T.failures table.old < 2 ^ 32 }
    requires settings { S.failures settings.old < 2 ^ 32 }
    requires blocks { B.failures blocks.old < 2 ^ 32 }
    requires schedule { D.failures schedule.old < 2 ^ 32 }
    requires puts { O.failures out.old < 2 ^ 32 }
    ensures { IsOverFourFiles (said_over C.text) result (pulls T.Source table.old table.new)
        (pulls S.Source settings.old settings.new) (pulls B.Source blocks.old blocks.new)
        (pulls D.Source schedule.old schedule.new) (puts O.Sink out.old out.new) }
{
    let inputs = read_inputs(alloc, table, settings, blocks, schedule)?;
    // Moved out, so that they are dropped after they are encoded.
    let octets = inputs.blocks;
    let ready = Ready::new(
        alloc,
        &inputs.table,
        inputs.settings,
        octets,
        &inputs.schedule,
    )?;
    C::write(&ready, out)
}
