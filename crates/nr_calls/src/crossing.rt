//! What crosses between C and the chain: settings, transmissions, and bits as octets.

ghost use Rattle.std.specs.Prelude.{◌≡◌, ℕ, ◌*◌, ◌<◌, ◌≤◌, ◌^◌, length, slice_index_or};
ghost use Rattle.std.specs.Int.{bit_at};
ghost use Rattle.nr_calls.specs.Crossing.{AreBits, AreOctets, digit, settings_in, tx_of};

use nr_bitvec::{Bits, reversed};
use nr_blockdesk::{Settings, Tx};
use nr_ratematch::Mask;
use std::simd::prelude::*;

// What each bit of an octet weighs, the lowest first.
const PLACES: [u8; 8] = [1, 2, 4, 8, 16, 32, 64, 128];

/// The settings that both ends of a link share.
#[repr(C)]
#[derive(Clone, Copy)]
pub struct NrSettings {
    /// The code rate in 2048ths, 1 to 2048.
    pub rate2048: u32,
    /// TBS_LBRM in bits, which limits the circular buffer (TS 38.212, 5.4.2.1), or 0 for no limit.
    pub lbrm: u32,
    /// Reserved for later fields; it is not read.
    pub reserved: [u32; 2],
}

impl NrSettings {
    // The settings that these are.
    pub(crate) fn settings(&self) -> Settings
        ensures { result ≡ settings_in self.now }
    {
        let lbrm = if self.lbrm == 0 {
            None
        } else {
            Some(self.lbrm)
        };
        Settings {
            rate2048: self.rate2048,
            lbrm,
        }
    }
}

/// One transmission of a transport block (TS 38.212, 5.4.2).
#[repr(C)]
#[derive(Clone, Copy)]
pub struct NrTx {
    /// The redundancy version: 0 to 3.
    pub rv: u32,
    /// G, the number of bits sent: 1 to 4,194,304, a multiple of `qm * nl`.
    pub g: u32,
    /// Qm, the bits of a modulation symbol: 1, 2, 4, 6 or 8.
    pub qm: u32,
    /// NL, the transmission layers: 1 to 4.
    pub nl: u32,
    /// 0 if every code block is scheduled, any other number if `blocks` says which.
    pub some: u64,
    /// Code block r, counted from 0, is scheduled if bit r mod 64 of word r div 64 is set.
    pub blocks: [u64; 6],
    /// Reserved for later fields; it is not read.
    pub reserved: [u32; 4],
}

impl NrTx {
    // The transmission that this is.
    pub(crate) fn tx(&self) -> Tx
        ensures { result ≡ tx_of self.now }
    {
        let mask = if self.some == 0 {
            Mask::All
        } else {
            Mask::Only(self.blocks)
        };
        Tx {
            rv: self.rv,
            g: self.g,
            qm: self.qm,
            nl: self.nl,
            mask,
        }
    }
}

// Writes an octet for each bit.
pub(crate) fn write_bits(bits: &Bits, out: &mut [u8])
    requires { length out.old ≡ length bits.now.items }
    ensures { AreBits bits.now.items out.new }
{
    // A list has at most 2^24 bits, as `len` says: so no place overflows.
    let whole = bits.len() / 64;
    for i in 0..whole {
        let at = 64 * i;
        write_word(bits.window(at), &mut out[at..at + 64]);
    }
    write_word(bits.window(64 * whole), &mut out[64 * whole..]);
}

// An octet for each of the lowest eight bits of a word.
fn digits_of(word: u64) -> u8x8
    ensures { (k : ℕ) → k < 8 → slice_index_or result k 0 ≡ bit_at word k }
{
    let octet = (word & 255) as u8;
    (u8x8::splat(octet) & u8x8::from_array(PLACES)).simd_min(u8x8::splat(1))
}

// Writes an octet for each bit of a word, the lowest first, for as many bits as there are octets, eight at a time.
pub(crate) fn write_word(word: u64, out: &mut [u8])
    ensures { (k : ℕ) → k < length out.new → slice_index_or out.new k 0 ≡ bit_at word k }
{
    let mut rest = word;
    let whole = out.len() / 8;
    for i in 0..whole {
        digits_of(rest).copy_to_slice(&mut out[8 * i..]);
        rest >>= 8;
    }
    for i in 8 * whole..out.len() {
        out[i] = (rest & 1) as u8;
        rest >>= 1;
    }
}

// Writes an octet for each eight bits, the first bit most significant, eight octets at a time.
pub(crate) fn write_octets(bits: &Bits, out: &mut [u8])
    requires { 8 * length out.old ≡ length bits.now.items }
    ensures { AreOctets bits.now.items out.new }
{
    // So no place overflows.
    bits.is_short();
    let whole = out.len() / 8;
    for i in 0..whole {
        let word = reversed(bits.window(64 * i));
        out[8 * i..8 * i + 8].copy_from_slice(&word.to_be_bytes());
    }
    for i in 8 * whole..out.len() {
        out[i] = bits.octet(8 * i);
    }
}
