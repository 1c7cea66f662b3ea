//! Computes a check 64 bits at a time from the remainders of their eight octets. Remainders are stored with their bits
//! reversed here, the first parity bit lowest, because the words have their bits in that order too.

ghost use Rattle.std.specs.Prelude.{◌≡◌, ◌<◌, ◌^◌};
ghost use Rattle.nr_bitvec.specs.BitList.{low_first};
ghost use Rattle.nr_crcattach.specs.{Crc.degree, inside.Octets.Continues, inside.Octets.flip, declared.Poly.Poly};

use crate::Poly;
use nr_bitvec::reversed;

impl Poly {
    // The check of bits, of which `remainder` is the check, with the bits of a word after them, the lowest first. The
    // remainder is added to the first of the word's bits, in three octets. So the lookups of the other five come first,
    // and wait for no word before this one.
    pub(crate) fn with_word(self, remainder: u32, word: u64) -> u32
        requires { remainder < 2 ^ degree self }
        ensures value { Continues self (flip (degree self) remainder) (low_first 64 word) (flip (degree self) result) }
        ensures fits { result < 2 ^ degree self }
    {
        let tables = self.octet_tables();
        let later = tables[4][(word >> 24 & 0xff) as usize]
            ^ tables[3][(word >> 32 & 0xff) as usize]
            ^ tables[2][(word >> 40 & 0xff) as usize]
            ^ tables[1][(word >> 48 & 0xff) as usize]
            ^ tables[0][(word >> 56) as usize];
        let joined = u64::from(remainder) ^ word;
        later
            ^ tables[7][(joined & 0xff) as usize]
            ^ tables[6][(joined >> 8 & 0xff) as usize]
            ^ tables[5][(joined >> 16 & 0xff) as usize]
    }

    // A remainder with its bits in the other order.
    pub(crate) fn flipped(self, remainder: u32) -> u32
        ensures value { result ≡ flip (degree self) remainder }
        ensures fits { result < 2 ^ degree self }
    {
        (reversed(u64::from(remainder)) >> (64 - self.degree())) as u32
    }
}
