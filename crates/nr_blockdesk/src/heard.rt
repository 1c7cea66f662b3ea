//! What arrives at a receiver.

ghost use Rattle.std.specs.Prelude.{◌≡◌, ◌≤◌, ◌==◌};

/// What arrives at one place of a transmission.
#[derive(Clone, Copy, Debug, PartialEq, Eq)]
pub enum Heard {
    /// A zero.
    Zero,
    /// A one.
    One,
    /// Nothing: the link erased the place.
    Erased,
}

impl Heard {
    ghost use Rattle.nr_blockdesk.specs.Marks.{place_heard};

    // 1 if a bit is received, and the bit: zero if none is.
    pub(crate) fn marks(self) -> (u64, u64)
        ensures mark { result.0 ≤ 1 }
        ensures digit { result.1 ≤ 1 }
        ensures same { place_heard (result.0 == 1) (result.1 == 1) ≡ self }
    {
        let mark = u64::from(!matches!(self, Heard::Erased));
        let digit = u64::from(matches!(self, Heard::One));
        (mark, digit)
    }
}
