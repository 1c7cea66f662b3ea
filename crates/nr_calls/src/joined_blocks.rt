//! What joining code blocks gives.

use arrayvec::ArrayVec;
use nr_bitvec::Bits;
use nr_ratematch::MOST_BLOCKS;

// The bits of a transport block, whether the CRC of each code block fits, and whether that of the transport block does.
#[derive(Drop)]
pub(crate) struct JoinedBlocks {
    pub(crate) block: Bits,
    pub(crate) passed: ArrayVec<bool, MOST_BLOCKS>,
    pub(crate) block_passed: bool,
}
