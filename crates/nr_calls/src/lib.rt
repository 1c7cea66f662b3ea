//! The data coding chain of NR's shared channels (3GPP TS 38.212, Release 15) as calls for C. Each call returns 0 or the number
//! of its first error (specs/Statuses.antt). It has no `requires`, because it checks all of its arguments, and what it writes
//! is a stated function of them. On an error it writes nothing, with two exceptions: `nr_table_check` reports what is wrong
//! with a table, and `nr_table_entries` says how many entries its output must hold. The main contracts are those of
//! `nr_send`, `nr_receive`, `nr_receiver_take` and `nr_simulate`.
//!
//! These are the bodies of nr_c's exports. They are a library of their own, because checking a static library takes longer.
#![tactic(auto)]

mod batch;
mod coded_block;
pub mod codeword;
pub mod crc;
pub mod crossing;
pub mod cutting;
pub mod drawing;
pub mod encoding;
pub mod entries;
pub mod fault;
mod findings;
mod joined_blocks;
pub mod joining;
pub mod keeping;
mod laws;
mod linking;
pub mod many;
mod many_rows;
pub mod many_sent;
mod marks;
pub mod matching;
pub mod packed;
mod placed;
pub mod placing;
pub mod plan;
pub mod rates;
pub mod receiving;
mod resuming;
pub mod rooms;
mod rounds;
pub mod sending;
mod side;
pub mod simulating;
pub mod stages;
pub mod table;
mod taken;
