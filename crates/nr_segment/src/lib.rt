//! The segmentation of a transport block into code blocks (TS 38.212, 5.2.2 and 5.3.2). `plan` returns the segmentation
//! parameters, or the reason why there are none; its contract defines each number as the standard does
//! (specs/Plan.antt). `cut` returns one code block of a transport block with its CRC, and `join` puts the code blocks
//! together again, which is a proved law (specs/CodeBlock.antt).
//!
//! A `Plan` can only hold the numbers that belong to its base graph and to B, because its type says so. `part` tells
//! where a bit of a code block comes from. `plan` and `part` allocate nothing.
#![tactic(auto)]

mod code_block;
pub mod laws;
mod numbers;
mod segmentation;

pub use code_block::{cut, join, part};
pub use laws::{code_blocks_are_long, join_puts_parts, join_undoes_cut, plans_are_sound};
pub use numbers::{Plan, SegFault};
pub use segmentation::plan;
