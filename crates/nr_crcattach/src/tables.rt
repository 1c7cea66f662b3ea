//! The tables with which eight octets enter a check at once.

ghost use Rattle.std.specs.Prelude.{◌≡◌};
ghost use Rattle.nr_crcattach.specs.{inside.Octets.octet_tables, declared.Poly.Poly};

mod a24;
mod b24;
mod c16;

use crate::Poly;

impl Poly {
    // The remainders of the octets that are followed by zero octets, for each number of zero octets from
    // 0 to 7. They are in the order of the octets' numbers.
    pub(crate) fn octet_tables(self) -> &'static [[u32; 256]; 8]
        ensures { result.now ≡ octet_tables self }
    {
        match self {
            Poly::A24 => &a24::A24_RESIDUES,
            Poly::B24 => &b24::B24_RESIDUES,
            Poly::C16 => &c16::C16_RESIDUES,
        }
    }
}
