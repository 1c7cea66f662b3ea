//! The HARQ buffer of one code block: what has been received of it, kept from transmission to transmission. Buffers can be combined
//! because every redundancy version sends bits of the same codeword (TS 38.212, 5.4.2).
//!
//! A `Store` keeps the first bit received at each codeword index and whether any index was received with both bits, which takes two
//! bits an index. Lemmas (laws.rt) say that this is enough: it determines which codewords are consistent with everything received,
//! however many transmissions that were (specs/Record.antt).
#![tactic(auto)]

mod laws;
mod marks;
mod store;

pub use laws::{fits_by_record, kept_again, record_continues, record_merges};
pub use marks::{agrees, merge_word};
pub use store::Store;
