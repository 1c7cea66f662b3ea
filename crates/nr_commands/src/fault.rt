//! The errors of the commands.

ghost use Rattle.std.specs.Prelude.{◌≡◌};
ghost use Rattle.nr_commands.specs.Faults.{blocks_refusal, schedule_refusal, settings_refusal, table_refusal};
ghost use Rattle.nr_commands.specs.declared.fault.RunFault.TheVariants.{Memory};

use nr_files::{BlocksFault, ScheduleFault, SettingsFault};
use nr_shifttable::TableFault;
use nr_transmission::DeskFault;
use std::alloc::{AllocError, AllocFailed};
use thiserror::Error;

/// Why a command fails. It prints as what follows `linksim: refused: ` on standard error.
#[derive(Clone, Copy, Debug, PartialEq, Eq, Error)]
pub enum RunFault {
    /// The shift table file is rejected.
    #[error("table {0}")]
    Table(TableFault),
    /// The settings file is rejected.
    #[error("settings {0}")]
    Settings(SettingsFault),
    /// The blocks file is rejected.
    #[error("blocks {0}")]
    Blocks(BlocksFault),
    /// The schedule file is rejected.
    #[error("schedule {0}")]
    Schedule(ScheduleFault),
    /// The transport block of this number, counted from 1, is rejected.
    #[error("block {0} {1}")]
    Desk(u32, DeskFault),
    /// The output could not be written.
    #[error("output Write")]
    Write,
    /// Memory ran out.
    #[error("memory")]
    Memory,
}

impl From<AllocError> for RunFault {
    ghost from_gives = { λ _ fault. fault ≡ Memory };

    fn from(_error: AllocError) -> RunFault {
        RunFault::Memory
    }
}

impl<T: Drop> From<AllocFailed<T>> for RunFault {
    ghost from_gives = { λ _ fault. fault ≡ Memory };

    fn from(_failed: AllocFailed<T>) -> RunFault {
        RunFault::Memory
    }
}

impl From<BlocksFault> for RunFault {
    ghost from_gives = { λ said fault. fault ≡ blocks_refusal said };

    fn from(said: BlocksFault) -> RunFault {
        match said {
            BlocksFault::Memory => RunFault::Memory,
            _ => RunFault::Blocks(said),
        }
    }
}

impl From<TableFault> for RunFault {
    ghost from_gives = { λ said fault. fault ≡ table_refusal said };

    fn from(said: TableFault) -> RunFault {
        match said {
            TableFault::Memory => RunFault::Memory,
            _ => RunFault::Table(said),
        }
    }
}

impl From<SettingsFault> for RunFault {
    ghost from_gives = { λ said fault. fault ≡ settings_refusal said };

    fn from(said: SettingsFault) -> RunFault {
        match said {
            SettingsFault::Memory => RunFault::Memory,
            _ => RunFault::Settings(said),
        }
    }
}

impl From<ScheduleFault> for RunFault {
    ghost from_gives = { λ said fault. fault ≡ schedule_refusal said };

    fn from(said: ScheduleFault) -> RunFault {
        match said {
            ScheduleFault::Memory => RunFault::Memory,
            _ => RunFault::Schedule(said),
        }
    }
}
