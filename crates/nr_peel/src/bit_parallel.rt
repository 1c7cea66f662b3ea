//! Peeling by words: up to 384 rows of a row block at a time.

pub(crate) mod catching_up;
pub(crate) mod lanes;
pub(crate) mod learning;
pub(crate) mod row_counts;
pub(crate) mod seen_lanes;
pub(crate) mod steps;
pub(crate) mod sweep;
