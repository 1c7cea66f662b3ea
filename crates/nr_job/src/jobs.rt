//! What a run of the program is to do.

ghost use Rattle.std.specs.Prelude.{◌≡◌};
ghost use Rattle.nr_job.specs.declared.jobs.JobFault.TheVariants.{Memory};

use std::alloc::AllocError;
use thiserror::Error;

/// What a run of the program is to do. The path `-` is standard input.
#[derive(Debug, PartialEq, Eq, Drop)]
pub enum Job {
    /// `cut`: the target code rate times 2048, in 1..=2048, and the path of the blocks.
    Cut(u32, String),
    /// `check`: the path of the shift table.
    Check(String),
    /// `send`: the paths of its four files, of which at most one is `-`.
    Send(Files),
    /// `run`: the paths of the same four files.
    Run(Files),
    /// `audit`: the paths of the same four files.
    Audit(Files),
}

/// The paths of the files that a command over a schedule reads.
#[derive(Debug, PartialEq, Eq, Drop)]
pub struct Files {
    /// The path of the shift table.
    pub table: String,
    /// The path of the settings.
    pub settings: String,
    /// The path of the transport blocks.
    pub blocks: String,
    /// The path of the schedule.
    pub schedule: String,
}

/// Why the command line asks for no job.
#[derive(Debug, PartialEq, Eq, Drop, Error)]
pub enum JobFault {
    /// The command line is not one of the program. The text says why, and how the program is used.
    #[error("{0}")]
    Usage(String),
    /// The command line asks for help or the version, which is the text.
    #[error("{0}")]
    Help(String),
    /// Memory ran out.
    #[error("out of memory")]
    Memory,
}

impl From<AllocError> for JobFault {
    ghost from_gives = { λ _ fault. fault ≡ Memory };

    fn from(_error: AllocError) -> JobFault {
        JobFault::Memory
    }
}
