//! Lists of bits that grow, code blocks that are joined or appended, and interleaving to a list of its own.

use super::has_memory;
use crate::bit_lists::{has_octets, is_cloned};
use nr_bitvec::Bits;
use nr_cbconcat::append;
use nr_crcattach::attach_code;
use nr_graphpick::Graph;
use nr_interleave::spread;
use nr_segment::{Plan, join, plan};
use std::alloc::{AllocError, Global};
use std::process::Abort;
use std::test::Fail;

// One word of bits, so one more bit needs another.
const OCTETS: [u8; 8] = [0x31, 0x32, 0x33, 0x34, 0x35, 0x36, 0x37, 0x38];

// That a list has the bits of those octets alone.
fn is_as_before(rt: &impl Abort, bits: &Bits) {
    assert!(rt; bits.len() == 64 && bits.octet(0) == 0x31 && bits.octet(56) == 0x38);
}

// Puts a one after a short list.
fn push_one(bits: &mut Bits) -> Result<(), AllocError> {
    if bits.len() < 1000 {
        bits.push(true)?;
    }
    Ok(())
}

// Pushes, and once more if that is refused.
fn push_one_again(rt: &impl Abort, alloc: Global, bits: &mut Bits) -> Result<(), AllocError> {
    let answer = push_one(bits);
    if answer.is_err() {
        is_as_before(rt, bits);
        if has_memory(alloc) {
            assert!(rt; push_one(bits).is_ok());
            ends_in_one(rt, bits);
        }
    }
    answer
}

// The last seven bits of 38, and 1.
fn ends_in_one(rt: &impl Abort, bits: &Bits) {
    assert!(rt; bits.octet(57) == 0x71);
}

#[test]
fn pushes(rt: HostRuntime) -> Result<(), AllocError> {
    let mut bits = Bits::from_bytes(rt.alloc(), &OCTETS)?;
    push_one_again(&rt, rt.alloc(), &mut bits)?;
    ends_in_one(&rt, &bits);
    Ok(())
}

// Puts a short list after another, also by the call of code blocks.
fn add(bits: &mut Bits, more: &Bits, is_block: bool) -> Result<(), AllocError> {
    if bits.len() > 1000 || more.len() > 1000 {
        return Ok(());
    }
    if is_block {
        append(bits, more)
    } else {
        bits.extend(more)
    }
}

// The last four bits of 38 and the first four of 31.
fn are_twice_the_octets(rt: &impl Abort, bits: &Bits) {
    assert!(rt; bits.octet(60) == 0x83);
}

// Puts a list after another, and once more if that is refused.
fn add_again(
    rt: &impl Abort,
    alloc: Global,
    bits: &mut Bits,
    more: &Bits,
    is_block: bool,
) -> Result<(), AllocError> {
    let answer = add(bits, more, is_block);
    if answer.is_err() {
        is_as_before(rt, bits);
        if has_memory(alloc) {
            assert!(rt; add(bits, more, is_block).is_ok());
            are_twice_the_octets(rt, bits);
        }
    }
    answer
}

// Puts the octets' bits after themselves.
fn double(rt: &impl Abort, alloc: Global, is_block: bool) -> Result<(), AllocError> {
    let more = Bits::from_bytes(alloc, &OCTETS)?;
    let mut bits = Bits::from_bytes(alloc, &OCTETS)?;
    add_again(rt, alloc, &mut bits, &more, is_block)?;
    are_twice_the_octets(rt, &bits);
    Ok(())
}

#[test]
fn extends(rt: HostRuntime) -> Result<(), AllocError> {
    double(&rt, rt.alloc(), false)
}

#[test]
fn appends(rt: HostRuntime) -> Result<(), AllocError> {
    double(&rt, rt.alloc(), true)
}

// Eight bits in four rows: their octet.
fn spread_octet(alloc: Global, bits: &Bits) -> Result<u8, AllocError> {
    match spread_eight(alloc, bits) {
        Ok(bits) => Ok(bits.octet(0)),
        Err(error) => Err(error),
    }
}

// Eight bits in four rows.
fn spread_eight(alloc: Global, bits: &Bits) -> Result<Bits, AllocError> {
    if bits.len() == 8 {
        spread(alloc, 4, bits)
    } else {
        Err(AllocError)
    }
}

// Rows 01, 11, 00 and 00 of the matrix, read column by column.
#[test]
fn spreads(rt: HostRuntime) -> Result<(), AllocError> {
    let bits = Bits::from_bytes(rt.alloc(), &[0b0111_0000])?;
    let answer = spread_octet(rt.alloc(), &bits);
    if answer.is_err() && has_memory(rt.alloc()) {
        assert!(rt; spread_octet(rt.alloc(), &bits) == Ok(0b0100_1100));
    }
    assert!(rt; answer? == 0b0100_1100);
    Ok(())
}

// Joins two code blocks, if they have the plan's bits.
fn join_two(alloc: Global, plan: &Plan, blocks: &[Bits]) -> Result<Bits, AllocError> {
    let long = plan.kdash as usize;
    if plan.c == 2 && blocks.len() == 2 && blocks[0].len() == long && blocks[1].len() == long {
        join(alloc, plan, blocks)
    } else {
        Err(AllocError)
    }
}

// How many bits two code blocks of zeros have, joined.
fn joined_length(alloc: Global, plan: &Plan, blocks: &[Bits]) -> Result<usize, AllocError> {
    match join_two(alloc, plan, blocks) {
        Ok(bits) => Ok(bits.len()),
        Err(error) => Err(error),
    }
}

// Two code blocks of 1952 zeros.
fn two_of_zeros(alloc: Global) -> Result<Vec<Bits>, AllocError> {
    let mut blocks = Vec::new(alloc);
    for _ in 0..2 {
        blocks.push(Bits::zeros(alloc, 1952)?)?;
    }
    Ok(blocks)
}

// 3856 bits with base graph 2 are two code blocks of 1952 bits, each with its CRC, which is zero for zeros.
#[test]
fn joins(rt: HostRuntime) -> Result<(), Fail> {
    let two = plan(Graph::Two, 3856)?;
    let blocks = two_of_zeros(rt.alloc())?;
    let answer = joined_length(rt.alloc(), &two, &blocks);
    if answer.is_err() && has_memory(rt.alloc()) {
        assert!(rt; joined_length(rt.alloc(), &two, &blocks) == Ok(3856));
    }
    assert!(rt; answer? == 3856);
    Ok(())
}

#[test]
fn gives_its_octets(rt: HostRuntime) -> Result<(), AllocError> {
    let bits = Bits::from_bytes(rt.alloc(), &OCTETS)?;
    let answer = has_octets(&bits, &OCTETS);
    if answer.is_err() && has_memory(rt.alloc()) {
        assert!(rt; has_octets(&bits, &OCTETS) == Ok(true));
    }
    assert!(rt; answer?);
    Ok(())
}

#[test]
fn clones(rt: HostRuntime) -> Result<(), AllocError> {
    let bits = Bits::from_bytes(rt.alloc(), &OCTETS)?;
    let answer = is_cloned(&bits);
    if answer.is_err() && has_memory(rt.alloc()) {
        assert!(rt; is_cloned(&bits) == Ok(true));
    }
    assert!(rt; answer?);
    Ok(())
}

// A short list followed by the parity bits of a code block: their first octet.
fn attached_octet(alloc: Global, bits: &Bits) -> Result<u8, AllocError> {
    if bits.len() != 64 {
        return Err(AllocError);
    }
    match attach_code(alloc, bits) {
        Ok(code) => Ok(code.octet(64)),
        Err(error) => Err(error),
    }
}

// A code block of 64 zeros has zeros for parity bits.
#[test]
fn attaches(rt: HostRuntime) -> Result<(), AllocError> {
    let bits = Bits::zeros(rt.alloc(), 64)?;
    let answer = attached_octet(rt.alloc(), &bits);
    if answer.is_err() && has_memory(rt.alloc()) {
        assert!(rt; attached_octet(rt.alloc(), &bits) == Ok(0));
    }
    assert!(rt; answer? == 0);
    Ok(())
}
