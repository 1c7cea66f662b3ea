//! One step of peeling.

/// A step that fixes a position: the row of blocks, the row in it, and the position of the codeword.
#[derive(Clone, Copy, Debug, PartialEq, Eq)]
pub struct Fix {
    /// The row of blocks.
    pub row: u16,
    /// The row in it.
    pub lane: u16,
    /// The position that is fixed.
    pub pos: u32,
}
