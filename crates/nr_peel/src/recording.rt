//! Whether a peeler records the steps that fix positions.

ghost use Rattle.std.specs.Prelude.{◌≡◌, Bool, true, false};

/// Whether a peeler records its steps.
pub trait Recording {
    ghost recorded: { Bool };

    /// Whether it does.
    fn is_recorded() -> bool
        ensures { result ≡ recorded };
}

/// The steps are recorded, in memory that is taken when the peeler is made.
pub struct Recorded;

/// The steps are forgotten.
pub struct Unrecorded;

impl Recording for Recorded {
    ghost recorded = { true };

    fn is_recorded() -> bool {
        true
    }
}

impl Recording for Unrecorded {
    ghost recorded = { false };

    fn is_recorded() -> bool {
        false
    }
}
