//! Input and output as traits, so that contracts can speak about them: a `Source` gives octets, a `Sink` takes them,
//! and each has an implementation over memory. `read_to_end` reads a Source up to a limit, and `put_all` writes a whole
//! text. Failures are counted, and the result of each call tells whether the count rose (specs/Source.antt,
//! specs/Sink.antt).
//!
//! `Records` reads texts of comma-separated fields, and `stripped` and `numeral` read a field. No clause of TS 38.212
//! is about this crate.
#![tactic(auto)]

mod fields;
mod records;
mod sink;
mod source;

pub use fields::{numeral, short_number, stripped};
pub use records::Records;
pub use sink::{Sink, Tape, put_all};
pub use source::{Broken, Endless, Feed, ReadFault, Source, read_to_end};
