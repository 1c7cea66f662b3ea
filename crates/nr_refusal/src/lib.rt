//! The vocabulary in which contracts say how a call fails: a step-by-step definition fixes which error comes first, the
//! call returns exactly that one, and running out of memory is the only other error (`Gives`). Calls that read a Source
//! or write a Sink count its failures with `FailsAs`.
//!
//! Everything is defined in specs/Refusal.antt, with lemmas in proofs/. The crate has no code and allocates nothing,
//! and no clause of TS 38.212 is about it.
#![tactic(auto)]
