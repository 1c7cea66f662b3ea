//! The table of the lifting sizes, and running an operation at one of them.

mod choice;
mod table;

pub use choice::{AtEachSize, AtSize, BlockOperation, at_size};
pub use table::{SIZES, set_of, size_table, smallest};
