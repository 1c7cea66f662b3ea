//! The 51 lifting sizes of the LDPC codes of 5G NR (3GPP TS 38.212, Table 5.3.2-1), and operations on rotated blocks of
//! bits. `SIZES`, `set_of` and `smallest` give the table (specs/Sizes.antt). Contracts describe the operations bit by
//! bit (specs/Blocks.antt, specs/Lane.antt). Only `DoubledLanes::new` and `BitSlicedCounts::new` allocate memory.
//!
//! Blocks are handled 64 bits at a time. `sizes` has the table and runs an operation at the size that is asked for.
//! `lanes` stores blocks in words: `Lane` is generic in the lifting size; `DoubledLanes` holds lanes whose size is
//! known only at run time; `BitSlicedCounts` holds counts that are lowered by a lane at a time and is generic in the
//! number of their binary digits (specs/DoubledLanes.antt, specs/Planes.antt). The last two are also generic in the
//! words of a lane, so that small blocks take only a word or two. `blocks` has the calls for users who know a size only
//! at run time.
#![tactic(auto)]

mod blocks;
mod lanes;
mod sizes;

pub use blocks::{add_block, tally_block};
pub use lanes::{
    BitSlicedCounts, DoubledLanes, Lane, add_lane, add_window, common, is_blank, lane_count,
    without,
};
pub use sizes::{AtEachSize, AtSize, BlockOperation, SIZES, at_size, set_of, size_table, smallest};
