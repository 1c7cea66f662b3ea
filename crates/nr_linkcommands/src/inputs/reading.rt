//! Reads and checks the four files of a command over a schedule.

ghost use Rattle.std.specs.Prelude.{◌≡◌, ◌≢◌, ◌^◌, ◌<◌, ◌≤◌, All, length, IfOk, IfErr, IfSome, Err};
ghost use Rattle.nr_refusal.specs.Refusal.{Gives, FailsAs};
ghost use Rattle.nr_shifttable.specs.Accepted.{IsTable};
ghost use Rattle.nr_files.specs.Blocks.{IsBlockLength};
ghost use Rattle.nr_files.specs.Schedule.{HasBlock, IsTimetable, schedule_said, timetable_by};
ghost use Rattle.nr_linkcommands.specs.FourFiles.{OfFour, pulls};
ghost use Rattle.nr_linkcommands.specs.Inputs.{LeavesLater, files_said, given_by};

use super::Inputs;
use nr_commands::RunFault;
use nr_files::{
    BlocksFault, Schedule, ScheduleFault, SettingsFault, read_blocks, read_schedule, read_settings,
};
use nr_shifttable::{Table, TableFault};
use nr_streams::Source;
use std::alloc::Global;

/// Reads the four files of a command over a schedule, each to its end, and checks them, in the order of the parameters.
///
/// # Errors
///
/// In this order: `Table`, `Settings`, `Blocks`, `Schedule`, each with the first error of its file. The files after one
/// that is rejected are not read. `Memory` if memory runs out.
pub fn read_inputs<T: Source, S: Source, B: Source, D: Source>(
    alloc: Global,
    table: &mut T,
    settings: &mut S,
    blocks: &mut B,
    schedule: &mut D,
) -> Result<Inputs, RunFault>
    requires table { T.failures table.old < 2 ^ 32 }
    requires settings { S.failures settings.old < 2 ^ 32 }
    requires blocks { B.failures blocks.old < 2 ^ 32 }
    requires schedule { D.failures schedule.old < 2 ^ 32 }
    ensures said { OfFour (pulls T.Source table.old table.new) (pulls S.Source settings.old settings.new)
        (pulls B.Source blocks.old blocks.new) (pulls D.Source schedule.old schedule.new)
        (λ files. Gives RunFault.Memory given_by result (files_said files)) }
    ensures accepted { IfOk result (λ inputs. IsTable inputs.table) }
    ensures few { IfOk result (λ inputs. length inputs.blocks.items ≤ 256) }
    ensures sizes { IfOk result
        (λ inputs. All (λ block. IsBlockLength (length block.items)) inputs.blocks.items) }
    ensures named { IfOk result
        (λ inputs. All (HasBlock (length inputs.blocks.items)) inputs.schedule.transmissions.items) }
    ensures timetable { IfOk result
        (λ inputs. IsTimetable (length inputs.blocks.items) (timetable_by inputs.schedule)) }
    ensures table { FailsAs (RunFault.Table TableFault.Read) result
        (T.failures table.old) (T.failures table.new) }
    ensures settings { FailsAs (RunFault.Settings SettingsFault.Read) result
        (S.failures settings.old) (S.failures settings.new) }
    ensures blocks { FailsAs (RunFault.Blocks BlocksFault.Read) result
        (B.failures blocks.old) (B.failures blocks.new) }
    ensures schedule { FailsAs (RunFault.Schedule ScheduleFault.Read) result
        (D.failures schedule.old) (D.failures schedule.new) }
    ensures later { IfErr result (λ e. LeavesLater e settings.old settings.new
        blocks.old blocks.new schedule.old schedule.new) }
    ensures unput { result ≢ Err RunFault.Write }
{
    let table = Table::read(alloc, table)?;
    let settings = read_settings(alloc, settings)?;
    let blocks = read_blocks(alloc, blocks)?;
    let schedule = schedule_for(alloc, &blocks, schedule)?;
    Ok(Inputs {
        table,
        settings,
        blocks,
        schedule,
    })
}

// Reads the schedule file of these transport blocks.
fn schedule_for<D: Source>(
    alloc: Global,
    blocks: &[Vec<u8>],
    schedule: &mut D,
) -> Result<Schedule, ScheduleFault>
    requires few { length blocks.now ≤ 256 }
    requires pulls { D.failures schedule.old < 2 ^ 32 }
    ensures said { D.failures schedule.new ≡ D.failures schedule.old → IfSome (D.remaining schedule.old)
        (λ octets. Gives ScheduleFault.Memory timetable_by result
        (schedule_said (length blocks.now) octets)) }
    ensures timetable { IfOk result (λ s. IsTimetable (length blocks.now) (timetable_by s)) }
    ensures pulled { FailsAs ScheduleFault.Read result
        (D.failures schedule.old) (D.failures schedule.new) }
{
    read_schedule(alloc, blocks.len() as u32, schedule)
}
