//! The data coding chain of NR's shared channels (3GPP TS 38.212, Release 15) for callers in C. Each export returns 0 or the
//! number of its first error (nr_calls/specs/Statuses.antt) and has no `requires`. What it writes is a stated function of its
//! arguments. On an error it writes nothing, with two exceptions: `nr_table_check` reports what is wrong with a table, and
//! `nr_table_entries` says how many entries its output must hold. The main contracts are those of `nr_send`, `nr_receive`,
//! `nr_receiver_take` and `nr_simulate`. That no memory outlives a call is tested, by tests/c-library.
//!
//! This crate has the exports of a static library; their bodies are those of nr_calls. In C a slice is a pointer and a length,
//! and a `Global` is no argument. A shift table is a list of entries that the caller keeps.
#![tactic(auto)]

pub mod link;
pub mod many;
pub mod packed;
pub mod soft;
pub mod stages;
pub mod table;
