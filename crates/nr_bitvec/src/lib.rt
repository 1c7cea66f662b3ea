//! Lists of at most 2^24 bits, and octets read as bits with the most significant one first, as TS 38.212 has them. A
//! contract sees a `Bits` as the list of its bits and the room that it has for more (specs/BitList.antt), and says what
//! a call does to that list. `octets_round_trip` is the law that octets survive being read and packed again.
//!
//! A list is stored in 64-bit words in std's `Vec`. Single bits and their sum modulo two are defined in specs/Bit.antt.
#![tactic(auto)]

mod bits;
mod laws;
mod marks;
mod octets;
pub mod words;

pub use bits::Bits;
pub use laws::octets_round_trip;
pub use marks::Marks;
pub use octets::reversed;
