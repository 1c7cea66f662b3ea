//! The errors of encoding a code block.

use thiserror::Error;

/// Why a code block was not encoded.
#[derive(Clone, Copy, Debug, PartialEq, Eq, Error)]
pub enum EncFault {
    /// The table lacks the plan's base graph.
    #[error("NoGraph")]
    NoGraph,
    /// Memory ran out.
    #[error("Memory")]
    Memory,
}
