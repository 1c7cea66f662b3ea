//! Which positions were received, and the bits received there.

ghost use Rattle.std.specs.Prelude.{◌≡◌, ◌^◌, ◌≤◌, false, length, replicate, IfOk};

use crate::bits::Bits;
use std::alloc::{AllocError, Global};

/// The positions at which a bit was received, together with the bits received there. Both lists have the same length.
#[derive(Drop)]
pub struct Marks {
    /// One bit for each position, set if a bit was received there.
    pub heard: Bits,
    /// The received bits. The bit of a position that is not marked has no meaning.
    pub value: Bits,
    ghost both: { length value.items ≡ length heard.items },
}

impl Marks {
    /// Returns `n` positions with none of them received, where `n` is at most 2^24.
    ///
    /// # Errors
    ///
    /// `AllocError` if memory runs out.
    pub fn blank(alloc: Global, n: u32) -> Result<Marks, AllocError>
        requires { n ≤ 2 ^ 24 }
        ensures heard { IfOk result (λ marks. marks.heard.items ≡ replicate n false) }
        ensures value { IfOk result (λ marks. marks.value.items ≡ replicate n false) }
    {
        let heard = Bits::zeros(alloc, n)?;
        let value = Bits::zeros(alloc, n)?;
        Ok(Marks { heard, value })
    }
}
