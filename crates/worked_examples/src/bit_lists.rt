//! Lists of bits: octets, most significant bit first (TS 38.212, 6.2.1 and 7.2.1), and words of 64, lowest bit first.

use nr_bitvec::Bits;
use std::alloc::{AllocError, Global};
use std::test::Fail;

/// The bits of a few octets.
pub(crate) fn bits_of(alloc: Global, octets: &[u8]) -> Result<Bits, Fail> {
    let few = octets.len().min(1000);
    Ok(Bits::from_bytes(alloc, &octets[..few])?)
}

/// A list's bits from one place on.
pub(crate) fn copied(bits: &Bits, from: usize, len: usize) -> Result<Bits, Fail> {
    let from = from.min(bits.len());
    let len = len.min(bits.len() - from);
    Ok(bits.copy_range(from, len)?)
}

/// A short list with another after it.
pub(crate) fn joined(bits: Bits, more: &Bits) -> Result<Bits, Fail> {
    let mut bits = bits;
    if bits.len() < 10_000 && more.len() < 10_000 {
        bits.extend(more)?;
    }
    Ok(bits)
}

/// Whether a list has these octets.
pub(crate) fn has_octets(bits: &Bits, octets: &[u8]) -> Result<bool, AllocError> {
    match bits.to_bytes() {
        Ok(found) => Ok(found.as_slice() == octets),
        Err(error) => Err(error),
    }
}

/// Whether a list is equal to its clone.
pub(crate) fn is_cloned(bits: &Bits) -> Result<bool, AllocError> {
    match bits.try_clone() {
        Ok(copy) => Ok(copy == *bits),
        Err(error) => Err(error),
    }
}

/// Puts a bit at the end of a short list.
fn push(bits: &mut Bits, bit: bool) -> Result<(), AllocError> {
    if bits.len() < 10_000 {
        bits.push(bit)?;
    }
    Ok(())
}

// Eight bits of a list, from bit 4 on, are 11.
fn has_11_from_bit_4(bits: &Bits) -> Result<bool, Fail> {
    let eight = copied(bits, 4, 8)?;
    Ok(has_octets(&eight, &[0x11])?)
}

// Whether three octets are 24 bits, are read back, are equal to their clone, and have 11 from bit 4 on.
fn three_octets(alloc: Global) -> Result<[bool; 4], Fail> {
    let octets = [0x01, 0x10, 0x21];
    let bits = bits_of(alloc, &octets)?;
    Ok([
        bits.len() == 24,
        has_octets(&bits, &octets)?,
        is_cloned(&bits)?,
        has_11_from_bit_4(&bits)?,
    ])
}

// A one put in room, and a zero pushed.
fn one_and_zero(alloc: Global) -> Result<Bits, Fail> {
    let mut bits = Bits::with_room(alloc, 1)?;
    bits.push_in_room(true);
    push(&mut bits, false)?;
    Ok(bits)
}

// So many ones, at most 1000.
fn ones(alloc: Global, count: u32) -> Result<Bits, AllocError> {
    let mut bits = Bits::new(alloc);
    for _ in 0..count.min(1000) {
        push(&mut bits, true)?;
    }
    Ok(bits)
}

// Whether a one and a zero, extended by a one, are 101.
fn are_101(alloc: Global) -> Result<bool, Fail> {
    let more = ones(alloc, 1)?;
    let bits = joined(one_and_zero(alloc)?, &more)?;
    Ok(has_octets(&bits, &[0xa0])?)
}

// Whether 64 ones from bit 1 on are eight octets.
fn has_64_ones(bits: &Bits) -> Result<bool, Fail> {
    let some = copied(bits, 1, 64)?;
    Ok(has_octets(&some, &[0xff; 8])?)
}

// Whether a list that is cleared has nothing but the zero that is pushed then.
fn is_cleared(bits: &mut Bits) -> Result<bool, AllocError> {
    bits.clear();
    push(bits, false)?;
    Ok(bits.len() == 1 && has_octets(bits, &[0])?)
}

// Whether 65 ones have their octets, 64 of them theirs, and a zero in place of ones its own.
fn ones_have_octets(alloc: Global) -> Result<[bool; 3], Fail> {
    let nine = [0xff, 0xff, 0xff, 0xff, 0xff, 0xff, 0xff, 0xff, 0x80];
    let mut bits = ones(alloc, 65)?;
    Ok([
        has_octets(&bits, &nine)?,
        has_64_ones(&bits)?,
        is_cleared(&mut bits)?,
    ])
}

// 65 ones are nine octets. `copy_range(1, 64)` of them are eight. After `clear` and one push nothing of the ones is left.
#[test]
fn lists_have_their_octets(rt: HostRuntime) -> Result<(), Fail> {
    assert!(rt; three_octets(rt.alloc())? == [true; 4]);
    assert!(rt; are_101(rt.alloc())?);
    assert!(rt; ones_have_octets(rt.alloc())? == [true; 3]);
    Ok(())
}
