//! Transmissions.

use nr_ratematch::Mask;

/// One transmission of a transport block (TS 38.212, 5.4.2).
#[derive(Clone, Copy, Debug, PartialEq, Eq)]
pub struct Tx {
    /// The redundancy version: 0 to 3.
    pub rv: u32,
    /// G, the total number of bits sent: 1 to 4,194,304, a multiple of `qm * nl`.
    pub g: u32,
    /// Qm, the bits of a modulation symbol: 1, 2, 4, 6 or 8.
    pub qm: u32,
    /// NL, the number of transmission layers: 1 to 4.
    pub nl: u32,
    /// The CBG mask, which says which code blocks are scheduled.
    pub mask: Mask,
}
