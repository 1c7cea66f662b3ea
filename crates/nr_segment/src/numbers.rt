//! The segmentation parameters and the errors of computing them.

ghost use Rattle.std.specs.Prelude.{◌≡◌, Ok};
ghost use Rattle.nr_segment.specs.Plan.{plan_of, IsSound};

use nr_graphpick::Graph;
use thiserror::Error;

/// The segmentation parameters: the numbers of TS 38.212, 5.2.2 and 5.3.2, by which a transport block of `b` bits with
/// its CRC is cut into code blocks of a base graph.
#[derive(Clone, Copy, Debug, PartialEq, Eq)]
pub struct Plan {
    /// The base graph.
    pub graph: Graph,
    /// B, the bits of the transport block with its CRC: 24 to 1,310,744.
    pub b: u32,
    /// L, the CRC bits of each code block: 24, or 0 if there is only one code block.
    pub l: u32,
    /// C, the number of code blocks: 1 to 344.
    pub c: u32,
    /// K', the bits of each code block with its CRC but without fillers.
    pub kdash: u32,
    /// Kb, the number of columns over which the K' bits are spread.
    pub kb: u32,
    /// Zc, the lifting size.
    pub z: u32,
    /// The set index of Zc: 0 to 7.
    pub set: u32,
    /// K, the bits of each code block with its fillers: 22 Zc or 10 Zc.
    pub k: u32,
    /// N, the bits to which a code block is encoded: 66 Zc or 50 Zc.
    pub n: u32,
    pub ghost planned: { plan_of graph b
        ≡ Ok (record { l = l; c = c; kdash = kdash; kb = kb; z = z; set = set; k = k; n = n }) },
    pub ghost sound: { IsSound graph b
        (record { l = l; c = c; kdash = kdash; kb = kb; z = z; set = set; k = k; n = n }) },
}

/// Why a number of bits cannot be segmented.
#[derive(Clone, Copy, Debug, PartialEq, Eq, Error)]
pub enum SegFault {
    /// There are fewer than 24 bits.
    #[error("Short")]
    Short,
    /// There are more than 1,310,744 bits.
    #[error("Long")]
    Long,
    /// The code blocks would not all have the same number of bits.
    #[error("Uneven")]
    Uneven,
}
