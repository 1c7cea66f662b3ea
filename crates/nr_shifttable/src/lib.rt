//! The shift table of the LDPC codes of NR (3GPP TS 38.212, 5.3.2), read from a file that the user supplies.
//! `Table::read` accepts exactly the files whose parity columns have the shape that encoding and peeling rely on, and
//! returns the first error of any other. The result is defined as `table_said` of the file's octets
//! (specs/Accepted.antt).
//!
//! A `Table` is the set of entries that was accepted, and its other calls read that set. `laws` say what follows from
//! its shape.
#![tactic(auto)]

mod accept;
mod by_columns;
mod entry;
mod fault;
mod items;
pub mod laws;
mod listed;
mod sorted;
mod starts;
mod table;

pub use entry::{Entry, Item, KeptEntry};
pub use fault::{EntriesFault, TableFault};
pub use nr_streams::{Broken, Endless, Feed, Source};
pub use table::Table;
