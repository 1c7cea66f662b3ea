//! The LDPC codewords of NR (3GPP TS 38.212, 5.3.2), for every accepted shift table and each of the 51 lifting sizes. A
//! codeword is defined as the only word that begins with the code block's bits and meets every check row
//! (specs/Codeword.antt). The rows are defined as sums of the word over a matrix of rotated identities
//! (specs/Rows.antt), never as the order in which an encoder solves them.
//!
//! A `Word` has one bit for each column of the parity-check matrix, including the two block columns that are punctured.
#![tactic(auto)]

mod doubled_columns;
mod encoder;
mod fault;
mod laws;
mod row_test;
mod solver;
mod word;
mod word_blocks;

pub use encoder::{encode, meets};
pub use fault::EncFault;
pub use laws::{codewords_are_plain, core_rows_add_up, one_codeword};
pub use word::{Word, fill};
