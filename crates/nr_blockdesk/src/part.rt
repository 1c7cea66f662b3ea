//! A code block's part of a transmission.

ghost use Rattle.std.specs.Prelude.{◌≡◌, ◌↔◌, ℕ, ◌+◌, ◌%◌, ◌^◌, ◌<◌, ◌≤◌, true, length, IsTrue};
ghost use Rattle.nr_bitvec.specs.Bit.{bit};

use crate::arrival::Arrival;
use nr_bitvec::words::low_bits;

/// What was received of a code block: `count` places of a transmission from place `from` on.
#[derive(Drop)]
pub(crate) struct Part<'p, 'm> {
    pub(crate) arrival: &'p Arrival<'m>,
    pub(crate) from: u32,
    pub(crate) count: u32,
    ghost inside: { from + count ≤ length arrival.now.marks.now.heard.items },
    ghost short: { from + count < 2 ^ 32 },
    ghost whole: { count % arrival.now.tx.now.qm ≡ 0 },
}

impl Part<'_, '_> {
    // Whether a bit was received at each place. Looks at 64 places at once.
    pub(crate) fn arrived_whole(&self) -> bool
        ensures { IsTrue result ↔ ((m : ℕ) → m < self.now.count
            → bit self.now.arrival.now.marks.now.heard.items (self.now.from + m) ≡ true) }
    {
        let heard = &self.arrival.marks.heard;
        let (from, count) = (self.from as usize, self.count as usize);
        let whole = count / 64;
        for i in 0..whole {
            if heard.window(from + 64 * i) != u64::MAX {
                return false;
            }
        }
        low_bits(!heard.window(from + 64 * whole), count % 64) == 0
    }
}
