//! The errors of rate matching.

use thiserror::Error;

/// Why the bits of a transmission cannot be shared out, or why a code block has no buffer (TS 38.212, 5.4.2.1).
#[derive(Clone, Copy, Debug, PartialEq, Eq, Error)]
pub enum RmFault {
    /// The limited buffer keeps no bit of a code block.
    #[error("NoBuffer")]
    NoBuffer,
    /// The modulation order is not 1, 2, 4, 6 or 8.
    #[error("Order")]
    Order,
    /// The number of transmission layers is not within 1 to 4.
    #[error("Layers")]
    Layers,
    /// The total number of bits is not within 1 to 4,194,304.
    #[error("Total")]
    Total,
    /// The total number of bits does not make whole modulation symbols on all layers: it is not a multiple of Qm NL.
    #[error("Ragged")]
    Ragged,
    /// No code block is scheduled.
    #[error("NoneScheduled")]
    NoneScheduled,
}
