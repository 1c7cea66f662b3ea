//! The peeler of a code block of NR's LDPC codes (3GPP TS 38.212, 5.3.2). It fixes the positions of a codeword that did
//! not arrive, by rows that have one unknown position. What is known is the closure of what was given
//! (specs/Peeling.antt, specs/Closure.antt). Each fix is a step that can be checked. The visits and the operations have
//! bounds.
//!
//! A peeler has all its memory from `Peeler::new` on. It works by words. Row block after row block has its turn, in
//! which the counts of its rows catch up with what became known (specs/inside/Searches.antt, specs/inside/Seen.antt).
//! At the largest lifting size, with as many entries as the published tables have, it takes at most 8.2 octets a
//! position. That was measured, and no clause says it. An unrecorded one keeps no list of steps, and takes far less.
//! `check_order` and `check_stuck` judge certificates. `close_low` closes 64 sets of positions side by side.
#![tactic(auto)]

mod any_sweep;
mod bit_parallel;
mod check;
mod fix;
pub mod laws;
mod lifted;
mod peeler;
mod progress;
mod recording;
mod slices;
mod unknown;

pub use check::{check_order, check_stuck};
pub use fix::Fix;
pub use peeler::Peeler;
pub use recording::{Recorded, Recording, Unrecorded};
pub use slices::close_low;
pub use slices::lacking::count_lacking;
