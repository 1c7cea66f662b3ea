//! The three commands over a schedule of transmissions (TS 38.212, 6.2 and 7.2). If a command returns Ok, it has
//! written the text that `send_said`, `run_said` or `audit_said` defines for the octets of the four files. If it
//! returns an error, that is the error they define and nothing was written, unless memory ran out or the `Sink` failed,
//! after which a first part of the text may have been written. By laws, a link that only erases never delivers a block
//! other than the one sent, and the lines of a process depend on that process alone.
//!
//! `send` writes the bits sent, `run` what a receiver makes of them over a link that erases and flips bits, and `audit`
//! why.
#![tactic(auto)]

mod audit_command;
mod channel;
mod heads;
mod inputs;
mod laws;
mod ready;
mod run_command;
mod schedule_walk;
mod send_command;

pub use audit_command::audit;
pub use inputs::{Inputs, read_inputs};
pub use run_command::{
    erasures_alone_are_safe, lines_are_own, rounds_are_calls, run, runs_are_safe,
};
pub use send_command::send;
