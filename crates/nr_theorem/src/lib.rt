//! The theorem of this repository, as the one clause of one call. `carry` sends a transport block and receives what arrived of
//! it, whatever that is. Its clause is the record `Theorem` (specs/Theorem.antt), which has a field for each part of the
//! theorem.

#![tactic(auto)]

mod laws;
mod transfer;

pub use transfer::{Arrival, Carried, carry};
