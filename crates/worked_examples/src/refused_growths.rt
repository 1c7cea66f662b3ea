//! The calls whose growths neither the program nor the library for C reaches. `tests/refused-growths` refuses each
//! growth of these tests in turn. A test ends out of memory exactly if a growth is refused, and first compares what
//! the call was to change with what was before.

use nr_bitvec::Bits;
use std::alloc::Global;

mod coding;
mod commands;
mod low;

/// Whether there is memory, as there is if only one growth was refused.
fn has_memory(alloc: Global) -> bool {
    Bits::zeros(alloc, 1).is_ok()
}
