//! The worked cases of TS 38.212 and of this project's formats, each as a test of the call that it names. All expected
//! values come from the standard's text or were worked out by hand, and none from these crates.
//!
//! This is the only crate with tests, because a crate that has some is proved twice. The texts of commands are tested
//! in `tests/program_tests`, with the built program.
#![tactic(auto)]

#[cfg(test)]
mod base_graphs;
#[cfg(test)]
mod bit_lists;
#[cfg(test)]
mod certificates;
#[cfg(test)]
mod codewords;
#[cfg(test)]
mod concatenation;
#[cfg(test)]
mod crcs;
#[cfg(test)]
mod endless;
#[cfg(test)]
mod ends;
#[cfg(test)]
mod fix_orders;
#[cfg(test)]
mod greatest_sizes;
#[cfg(test)]
mod hostile_ends;
#[cfg(test)]
mod kept_entries;
#[cfg(test)]
mod lifting_sizes;
#[cfg(test)]
mod peeled_words;
#[cfg(test)]
mod peeling;
#[cfg(test)]
mod practice;
#[cfg(test)]
mod receptions;
#[cfg(test)]
mod refused_growths;
#[cfg(test)]
mod segmentation;
#[cfg(test)]
mod shift_tables;
#[cfg(test)]
mod stores;
#[cfg(test)]
mod stuck_receivers;
#[cfg(test)]
mod table_sources;
#[cfg(test)]
mod transport_blocks;
#[cfg(test)]
mod visit_counts;
