//! What a command line asks the program for: one of five jobs over files, or help, or an explanation of how it is used.
//! An accepted job is the one that clap's own function of the arguments gives, without an error of clap's. If clap
//! accepts the arguments and they ask for a job, only running out of memory can prevent it.
//!
//! The crate has the commands with their options and the texts of their help. `clap` parses the command line.
#![tactic(auto)]

mod command_line;
mod jobs;

pub use command_line::job;
pub use jobs::{Files, Job, JobFault};
