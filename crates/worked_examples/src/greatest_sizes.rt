//! Calls that take memory, each at the greatest size that its users have. With ample memory each gives its whole result: no
//! clause can say that memory was really lacking if a call is refused.

use crate::bit_lists::has_octets;
use nr_bitvec::Bits;
use nr_cbconcat::append;
use std::alloc::{AllocError, Global};
use std::test::Fail;

// The most octets that are the bits of one list.
const MOST_OCTETS: usize = 1 << 21;

// So many octets, which count from 0 to 250 and again.
fn counted(alloc: Global, count: usize) -> Result<Vec<u8>, AllocError> {
    let mut octets = vec![in alloc; 0; count.min(MOST_OCTETS)]?;
    for (i, octet) in octets.iter_mut().enumerate() {
        *octet = (i % 251) as u8;
    }
    Ok(octets)
}

// The bits of so many of these octets.
fn counted_bits(alloc: Global, count: usize) -> Result<Bits, Fail> {
    let octets = counted(alloc, count)?;
    let most = octets.len().min(MOST_OCTETS);
    Ok(Bits::from_bytes(alloc, &octets[..most])?)
}

// Whether the octets of so many octets' bits are these octets.
fn are_read_back(alloc: Global, count: usize) -> Result<bool, Fail> {
    let bits = counted_bits(alloc, count)?;
    let octets = counted(alloc, count)?;
    Ok(has_octets(&bits, &octets)?)
}

// Puts the bits of a list of at most half the length after it once more.
fn double(bits: &mut Bits, by_append: bool) -> Result<(), AllocError> {
    let more = bits.try_clone()?;
    if bits.len() > 1 << 23 || more.len() > 1 << 23 {
        return Ok(());
    }
    if by_append {
        append(bits, &more)
    } else {
        bits.extend(&more)
    }
}

// How many bits two halves have together, and their first octet and that of the second half.
fn halves(alloc: Global, by_append: bool) -> Result<(usize, u8, u8), Fail> {
    let mut bits = counted_bits(alloc, MOST_OCTETS / 2)?;
    double(&mut bits, by_append)?;
    Ok((bits.len(), bits.octet(8), bits.octet((1 << 23) + 16)))
}

// How many bits so many octets have with a one pushed after them, and the last eight of these.
fn pushed(alloc: Global, count: usize) -> Result<(usize, u8), Fail> {
    let mut bits = counted_bits(alloc, count)?;
    if bits.len() < 1 << 24 {
        bits.push(true)?;
    }
    Ok((bits.len(), bits.octet(bits.len().saturating_sub(8))))
}

// `to_bytes` of 2^24 bits. `extend` and `append` of 2^23 bits to as many. `push` to 2,000,000 bits, the last seven of which
// are those of 3. Calls of the library for C show the greatest sizes of the coding chain.
#[test]
fn calls_at_their_greatest_sizes_give_their_results(rt: HostRuntime) -> Result<(), Fail> {
    assert!(rt; are_read_back(rt.alloc(), MOST_OCTETS)?);
    assert!(rt; halves(rt.alloc(), false)? == (1 << 24, 1, 2));
    assert!(rt; halves(rt.alloc(), true)? == (1 << 24, 1, 2));
    assert!(rt; pushed(rt.alloc(), 250_000)? == (2_000_001, 7));
    Ok(())
}
