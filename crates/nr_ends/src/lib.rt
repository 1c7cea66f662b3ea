//! How a run of the program ends: what it writes, where, and with which status. The status and the text are defined as
//! a function of how the run ends.
//!
//! The crate also has the Sources and Sinks over files and standard streams, whose octets are not known to any
//! contract.
#![tactic(auto)]

mod ending;
mod streams;

pub use ending::{Ending, finish};
pub use streams::{Complaints, Incoming, Outgoing, source_of};
