//! The parity bits of octets.

ghost use Rattle.std.specs.Prelude.{◌≡◌};
ghost use Rattle.nr_calls.specs.{Crc.crc_said, Crc.poly_of, Statuses.HasValue, Statuses.Returns, Statuses.memory_last};

use crate::fault::Fault;
use nr_bitvec::Bits;
use nr_crcattach::{Poly, crc};
use std::alloc::Global;

// The most octets that parity bits are made of: 2^24 bits.
const MOST_OCTETS: usize = 2_097_152;

/// Computes the parity bits of octets as a number (TS 38.212, 5.1). `nr_c` exports this call and says what each status
/// means.
pub fn nr_crc(alloc: Global, poly: u32, octets: &[u8], out: &mut u32) -> u32
    ensures { Returns memory_last result out.old out.new HasValue (crc_said poly octets.now) }
{
    let Some(poly) = poly_of(poly) else {
        return Fault::Poly.status();
    };
    if octets.len() > MOST_OCTETS {
        return Fault::Many.status();
    }
    match Bits::from_bytes(alloc, octets) {
        Ok(bits) => {
            *out = crc(poly, &bits);
            0
        }
        Err(_) => Fault::Memory.status(),
    }
}

// The generator polynomial of a number.
fn poly_of(number: u32) -> Option<Poly>
    ensures { result ≡ poly_of number }
{
    match number {
        0 => Some(Poly::A24),
        1 => Some(Poly::B24),
        2 => Some(Poly::C16),
        _ => None,
    }
}
