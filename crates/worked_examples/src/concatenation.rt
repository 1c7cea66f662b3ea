//! Code blocks put one after another (TS 38.212, 5.5).

use crate::bit_lists::{bits_of, copied, has_octets};
use nr_bitvec::Bits;
use nr_cbconcat::append;
use std::alloc::Global;
use std::test::Fail;

// Short bits with those of a code block after them.
fn appended(joined: Bits, block: &Bits) -> Result<Bits, Fail> {
    let mut joined = joined;
    if joined.len() < 1000 && block.len() < 1000 {
        append(&mut joined, block)?;
    }
    Ok(joined)
}

// The first bits of an octet.
fn first_of(alloc: Global, octet: u8, count: usize) -> Result<Bits, Fail> {
    let bits = bits_of(alloc, &[octet])?;
    copied(&bits, 0, count)
}

// The first bits of 101, and the others appended to them.
fn appended_in(alloc: Global, first: usize) -> Result<Bits, Fail> {
    let all = first_of(alloc, 0b1010_0000, 3)?;
    let block = copied(&all, first, 3)?;
    appended(copied(&all, 0, first)?, &block)
}

// `append` of 01 to 1, and of 1 to 1 0.
#[test]
fn one_and_then_01_is_101_and_10_and_then_1(rt: HostRuntime) -> Result<(), Fail> {
    for first in [1, 2] {
        let bits = appended_in(rt.alloc(), first)?;
        assert!(rt; bits.len() == 3 && has_octets(&bits, &[0b1010_0000])?);
    }
    Ok(())
}
