//! The command `run`.

ghost use Rattle.std.specs.Prelude.{IfOk, ◌<◌, ◌^◌, ◌≡◌};
ghost use Rattle.nr_linkcommands.specs.{FourFiles.IsOverFourFiles, FourFiles.pulls, FourFiles.puts, RunLines.last_line};
ghost use Rattle.nr_linkcommands.specs.RunText.{counted_word, run_said, text_of_run};

mod ends;
mod laws;
mod lines;
mod slot;
mod walk;

use crate::ready::{Ready, Text, over_files};
use crate::schedule_walk::{end_all, follow};
use ends::Totals;
pub use laws::{erasures_alone_are_safe, lines_are_own, rounds_are_calls, runs_are_safe};
use lines::last_line;
use nr_commands::{RunFault, put_line};
use nr_streams::{Sink, Source};
use std::alloc::{AllocError, Global};
use walk::RunSlots;

/// Sends the transport blocks of a blocks file over a link that erases and flips bits as a schedule says. For each
/// transmission it writes a line as `send` does and, if the transmission was sent, a line for each code block with the
/// number of positions that are still unknown. A line for each transport block with the outcome of everything received
/// follows, and then the totals.
///
/// All four files are read to their ends and checked, in the order of the parameters, and then every transport block,
/// before the first put. Then each line is written as soon as it is made, those of the code blocks of a transmission
/// together. Each block is encoded once. A receiver is made at the first transmission of its block, or of its process's
/// round, that is not rejected, and freed after the last, so a schedule that goes block by block holds one at a time.
///
/// # Errors
///
/// In this order: `Table`, `Settings`, `Blocks`, `Schedule` with the first error of a file; `Desk` with the first
/// transport block that cannot be sent. After these the Sink is unchanged. `Write` if a put failed, after which a first
/// part of the text is written. `Memory` if memory runs out, after which nothing or a first part of the text is
/// written.
pub fn run<T: Source, S: Source, B: Source, D: Source, O: Sink>(
    alloc: Global,
    table: &mut T,
    settings: &mut S,
    blocks: &mut B,
    schedule: &mut D,
    out: &mut O,
) -> Result<(), RunFault>
    requires table { T.failures table.old < 2 ^ 32 }
    requires settings { S.failures settings.old < 2 ^ 32 }
    requires blocks { B.failures blocks.old < 2 ^ 32 }
    requires schedule { D.failures schedule.old < 2 ^ 32 }
    requires puts { O.failures out.old < 2 ^ 32 }
    ensures { IsOverFourFiles run_said result (pulls T.Source table.old table.new) (pulls S.Source settings.old settings.new)
        (pulls B.Source blocks.old blocks.new) (pulls D.Source schedule.old schedule.new) (puts O.Sink out.old out.new) }
{
    over_files::<RunCommand, _, _, _, _, _>(alloc, table, settings, blocks, schedule, out)
}

// The text of `run`.
struct RunCommand;

impl Text for RunCommand {
    ghost text = { text_of_run };

    fn write<O: Sink>(ready: &Ready, out: &mut O) -> Result<(), RunFault> {
        let mut rounds = RunSlots::new(ready)?;
        follow(ready, &mut rounds, out)?;
        end_all(ready, &mut rounds, out)?;
        put_line(out, totals_line(ready, &rounds.totals))
    }
}

// The last line.
fn totals_line(ready: &Ready, totals: &Totals) -> Result<Vec<u8>, AllocError>
    ensures { IfOk result (λ line. line.items
        ≡ last_line (counted_word ready.now.schedule.now.by_process) totals.now) }
{
    let name = if ready.schedule.by_process {
        "rounds"
    } else {
        "blocks"
    };
    last_line(ready.alloc, name, totals)
}
