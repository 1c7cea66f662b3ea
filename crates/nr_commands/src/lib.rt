//! The two commands over one file, `cut` and `check`. If a command returns Ok, it has written the text that `cut_said`
//! or `check_said` defines for the file's octets. If it returns an error, that is the error they define and nothing was
//! written, unless memory ran out or the `Sink` failed, after which a first part of the text may have been written
//! (specs/Command.antt).
//!
//! `cut` shows what TS 38.212 makes of each transport block up to its code blocks (6.2.1 to 6.2.3, 7.2.1 to 7.2.3).
//! `check` checks a shift table. `put_line` writes a single line.
#![tactic(auto)]

mod check_lines;
mod checking;
mod cut_lines;
mod cut_text;
mod cutting;
mod delivering;
mod fault;
mod hex;
mod laws;

pub use checking::check;
pub use cut_text::judge;
pub use cutting::cut;
pub use delivering::put_line;
pub use fault::RunFault;
pub use hex::hex_line;
pub use nr_streams::{Sink, Tape};
