//! What a caller can prove of a peeler by its contracts alone.

ghost use Rattle.std.specs.Prelude.{◌≤◌};
ghost use Rattle.nr_bitvec.specs.Bit.{bit};
ghost use Rattle.nr_peel.specs.Peeling.{checks_for};
ghost use Rattle.nr_peel.specs.Touches.{pairs_in};

use nr_peel::Peeler;

/// The visits that a receiver's peeler counts: at least one of each pair of a row and a known position of it.
pub(crate) fn visits(peeler: &Peeler<'_>) -> u64
    ensures { pairs_in (checks_for peeler.now) (bit peeler.now.known) ≤ result }
{
    peeler.touches()
}
