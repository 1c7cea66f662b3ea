//! The parity bits of TS 38.212, 5.1, and their attachment to transport blocks (6.2.1, 7.2.1) and code blocks (5.2.2).
//! The values are from catalogues of checks and by hand.

use crate::bit_lists::{bits_of, copied, has_octets, joined};
use nr_bitvec::Bits;
use nr_crcattach::{Poly, attach_code, crc, crc_range};
use std::alloc::Global;
use std::test::Fail;

// The octets of the text "123456789", over which the catalogues of checks give their values.
const DIGITS: [u8; 9] = [0x31, 0x32, 0x33, 0x34, 0x35, 0x36, 0x37, 0x38, 0x39];

// The three CRCs of the first bits of some octets.
fn crcs_of(alloc: Global, octets: &[u8], count: usize) -> Result<[u32; 3], Fail> {
    let bits = copied(&bits_of(alloc, octets)?, 0, count)?;
    Ok([
        crc(Poly::A24, &bits),
        crc(Poly::B24, &bits),
        crc(Poly::C16, &bits),
    ])
}

// By long division.
#[test]
fn lists_of_0_to_9_bits_have_their_crcs(rt: HostRuntime) -> Result<(), Fail> {
    for (count, want) in [
        (0, [0, 0, 0]),
        (1, [0x86_4cfb, 0x80_0063, 0x1021]),
        (2, [0x8a_d50d, 0x80_00a5, 0x2042]),
        (3, [0x93_e6e1, 0x80_0129, 0x4084]),
        (4, [0x27_cdc2, 0x252, 0x9129]),
        (5, [0x4f_9b84, 0x4a4, 0x3273]),
        (6, [0x9f_3708, 0x948, 0x64e6]),
        (7, [0x3e_6e10, 0x80_12f3, 0xd9ed]),
        (8, [0xfa_90db, 0x25e6, 0xb3da]),
        (9, [0xf5_21b6, 0x80_4baf, 0x67b4]),
    ] {
        assert!(rt;
            crcs_of(rt.alloc(), &[0x93, 0x80], count)? == want,
            "{count} bits"
        );
    }
    Ok(())
}

// A short list followed by the parity bits of a code block.
fn attached_code(alloc: Global, bits: &Bits) -> Result<Bits, Fail> {
    if bits.len() < 10_000 {
        Ok(attach_code(alloc, bits)?)
    } else {
        Ok(Bits::new(alloc))
    }
}

// Whether the digits as a code block are followed by 23ef52.
fn is_attached(alloc: Global) -> Result<bool, Fail> {
    let octets = [
        0x31, 0x32, 0x33, 0x34, 0x35, 0x36, 0x37, 0x38, 0x39, 0x23, 0xef, 0x52,
    ];
    let code = attached_code(alloc, &bits_of(alloc, &DIGITS)?)?;
    Ok(has_octets(&code, &octets)?)
}

// Three zeros with the digits after them.
fn after_three_zeros(alloc: Global) -> Result<Bits, Fail> {
    let octet = bits_of(alloc, &[0])?;
    let zeros = copied(&octet, 0, 3)?;
    let digits = bits_of(alloc, &DIGITS)?;
    joined(zeros, &digits)
}

// The CRC16 of the digits' 72 bits in that list; 0 of any other list.
fn crc_after_three_zeros(alloc: Global) -> Result<u32, Fail> {
    let bits = after_three_zeros(alloc)?;
    if bits.len() != 75 {
        return Ok(0);
    }
    Ok(crc_range(Poly::C16, &bits, 3, 72))
}

// `attach_code` of the digits, and `crc_range` of the digits after three zeros, so that no octet of them is at a multiple of
// eight.
#[test]
fn the_digits_have_their_crcs(rt: HostRuntime) -> Result<(), Fail> {
    assert!(rt; is_attached(rt.alloc())?);
    assert!(rt; crc_after_three_zeros(rt.alloc())? == 0x31c3);
    Ok(())
}
