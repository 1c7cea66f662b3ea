//! What a receiver hands up.

use nr_bitvec::Bits;

/// What a receiver hands up after a transmission.
#[derive(Debug, Drop)]
pub enum Outcome {
    /// The one transport block that explains all that arrived.
    Delivered(Bits),
    /// Some code block still has a position below K' that isn't fixed.
    Open,
    /// No transport block explains all that arrived.
    Contradiction,
}
