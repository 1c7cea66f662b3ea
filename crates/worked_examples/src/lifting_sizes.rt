//! The lifting sizes (TS 38.212, Table 5.3.2-1 and 5.2.2), and rotated blocks of bits (5.3.2).

use crate::bit_lists::{bits_of, has_octets};
use nr_bitvec::Bits;
use nr_lifting::{Lane, add_block, set_of, smallest, tally_block};
use std::alloc::Global;
use std::test::Fail;

// The sets are those of Table 5.3.2-1.
#[test]
fn sets_of_lifting_sizes_and_of_other_numbers(rt: HostRuntime) {
    for (size, set) in [
        (2, Some(0)),
        (384, Some(1)),
        (5, Some(2)),
        (56, Some(3)),
        (288, Some(4)),
        (352, Some(5)),
        (26, Some(6)),
        (15, Some(7)),
        (0, None),
        (1, None),
        (17, None),
        (62, None),
        (383, None),
        (385, None),
        (512, None),
    ] {
        assert!(rt; set_of(size) == set, "at {size}");
    }
}

// By hand from the table: the columns, the bits that they have to hold, and the least size.
#[test]
fn least_sizes(rt: HostRuntime) {
    for (kb, need, size) in [
        (6, 24, Some(4)),
        (6, 40, Some(7)),
        (8, 304, Some(40)),
        (22, 312, Some(15)),
        (22, 24, Some(2)),
        (22, 8448, Some(384)),
        (9, 0, Some(2)),
        (u32::MAX, u32::MAX, Some(2)),
        (22, 8449, None),
        (0, 1, None),
        (1, u32::MAX, None),
    ] {
        assert!(rt; smallest(kb, need) == size, "{need} bits in {kb} columns");
    }
}

// Five bits from bit 1 on, rotated and added to none.
fn turned_lane(list: Bits, p: usize) -> Bits {
    let mut list = list;
    if list.len() >= 6 && p < 5 {
        let src: Lane<5, 1> = Lane::load(&list, 1);
        let mut lane: Lane<5, 1> = Lane::zero();
        lane.add_shifted(&src, p);
        lane.store(&mut list, 1);
    }
    list
}

// Five bits rotated and added by the call that takes the size when it runs.
fn turned_block(alloc: Global, src: &Bits, p: usize) -> Result<Bits, Fail> {
    let mut acc = bits_of(alloc, &[0b1_00000_11])?;
    if acc.len() == 8 && src.len() == 8 && p < 5 {
        add_block(5, &mut acc, 1, src, 1, p);
    }
    Ok(acc)
}

// An octet in which five bits are rotated by 2, as a block and as a lane.
fn turned_by_2(alloc: Global) -> Result<[u8; 2], Fail> {
    let src = bits_of(alloc, &[0b1_10110_11])?;
    let block = turned_block(alloc, &src, 2)?.octet(0);
    Ok([block, turned_lane(src, 2).octet(0)])
}

// 72 bits, of which the last is a one, rotated.
fn last_turned(alloc: Global, p: usize) -> Result<Bits, Fail> {
    let mut list = bits_of(alloc, &[0, 0, 0, 0, 0, 0, 0, 0, 1])?;
    if list.len() == 72 && p < 72 {
        let mut lane: Lane<72, 2> = Lane::zero();
        lane.add_shifted(&Lane::load(&list, 0), p);
        lane.store(&mut list, 0);
    }
    Ok(list)
}

// Five bits counted twice: those met once or more, and those met twice.
fn tallied_twice(list: &Bits, out: Bits) -> Bits {
    let mut out = out;
    if list.len() >= 5 && out.len() >= 16 {
        let src: Lane<5, 1> = Lane::load(list, 0);
        let mut ones: Lane<5, 1> = Lane::zero();
        let mut more: Lane<5, 1> = Lane::zero();
        Lane::tally(&mut ones, &mut more, &src, 0);
        Lane::tally(&mut ones, &mut more, &src, 0);
        ones.store(&mut out, 0);
        more.store(&mut out, 8);
    }
    out
}

// Whether five bits are counted as met once and twice after two tallies.
fn is_met_twice(alloc: Global) -> Result<bool, Fail> {
    let list = bits_of(alloc, &[0b10110_000])?;
    let out = tallied_twice(&list, bits_of(alloc, &[0, 0])?);
    Ok(has_octets(&out, &[0b10110_000, 0b10110_000])?)
}

// Those that the call counts which takes the size when it runs.
fn met_by_block(alloc: Global) -> Result<[u8; 2], Fail> {
    let src = bits_of(alloc, &[0b10110_000])?;
    let mut ones = bits_of(alloc, &[0])?;
    let mut more = bits_of(alloc, &[0])?;
    if src.len() == 8 && ones.len() == 8 && more.len() == 8 {
        tally_block(5, &mut ones, &mut more, &src, 0, 0);
        tally_block(5, &mut ones, &mut more, &src, 0, 2);
    }
    Ok([ones.octet(0), more.octet(0)])
}

// Bit t of 10110 turned by 2 is bit (t + 2) mod 5; the ones beside the five bits stay. A lane of 72 bits with bit 71 alone,
// rotated by 7, 8 and 71: by hand, the one comes to place 71 - p. `tally` twice with the same lane: the first time nothing is
// counted yet, and the second time each one is. `tally_block` counts the five bits and then the same turned by 2, which are 11010.
#[test]
fn lanes_are_turned_and_tallied(rt: HostRuntime) -> Result<(), Fail> {
    assert!(rt; turned_by_2(rt.alloc())? == [0b1_11010_11; 2]);
    for (p, want) in [
        (7, [0, 0, 0, 0, 0, 0, 0, 0, 0x80]),
        (8, [0, 0, 0, 0, 0, 0, 0, 1, 0]),
        (71, [0x80, 0, 0, 0, 0, 0, 0, 0, 0]),
    ] {
        assert!(rt; has_octets(&last_turned(rt.alloc(), p)?, &want)?);
    }
    assert!(rt; is_met_twice(rt.alloc())?);
    assert!(rt; met_by_block(rt.alloc())? == [0b11110_000, 0b10010_000]);
    Ok(())
}
