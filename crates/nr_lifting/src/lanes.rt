//! Lanes of bits in 64-bit words, lanes stored twice over, and counts that are lowered by a lane at a time.

mod bit_sliced_counts;
mod doubled_lanes;
mod doubled_words;
mod lane;
mod lane_words;
mod planes;

pub use bit_sliced_counts::BitSlicedCounts;
pub use doubled_lanes::DoubledLanes;
pub use doubled_words::add_window;
pub use lane::Lane;
pub use lane_words::{add_lane, common, is_blank, lane_count, without};
