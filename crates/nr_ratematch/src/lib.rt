//! Rate matching for the LDPC code of NR (TS 38.212, 5.4.2): how many bits of each code block are sent, and which ones.
//! Contracts cite specs/Lengths.antt and specs/Selection.antt, which defines selection as going round the circular
//! buffer without its fillers. By a law, a selected bit is never punctured and never a filler. Only `select` allocates
//! memory.
//!
//! `lengths` shares the bits of a transmission out to the scheduled code blocks. A `Buffer` tells the codeword index of
//! each selected bit, counted from the start of the redundancy version. `select` and `select_onto` copy the bits, a run
//! of the buffer at a time.
#![tactic(auto)]

mod buffer;
mod cycle;
mod fault;
mod laws;
mod mask;
mod selection;
mod sharing;

pub use buffer::Buffer;
pub use fault::RmFault;
pub use laws::{buffers_are_circular, places_are_sent, selection_ends};
pub use mask::Mask;
pub use selection::{select, select_onto};
pub use sharing::{MOST_BLOCKS, lengths, lengths_are_shared};
