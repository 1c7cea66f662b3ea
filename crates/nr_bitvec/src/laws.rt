//! Laws about the definitions, which no code needs.

ghost use Rattle.nr_bitvec.specs.BitList.{OctetsRoundTrip};

/// Law: octets that are read as bits and packed again are the same octets.
pub fn octets_round_trip()
    ensures { OctetsRoundTrip }
{}
