//! What the peelers of receivers show is accepted by its checkers. That is an order if no position below K' is left,
//! and otherwise the positions that peeling is stuck on. Then how often a peeler visits pairs of rows and positions, if each
//! place is received in a transmission of its own.

use crate::practice::{PLAIN, practice};
use crate::receptions::{ALL, End, First, HandedUp, NONE, Places, end_of_firsts, end_over};
use nr_blockdesk::Settings;
use nr_ratematch::Mask;
use std::alloc::{AllocError, Global};
use std::slice::from_ref;
use std::test::Fail;

/// All of 320 places but those of columns 11, 12, 20, 30, 40 and 50.
pub(crate) const MOST: Places<'static> = &[
    (0, 32),
    (47, 95),
    (103, 165),
    (173, 235),
    (243, 305),
    (313, 319),
];

// The places at which the words of two octets differ.
const FLIPS: Places<'static> = &[
    (3, 3),
    (10, 10),
    (15, 15),
    (22, 23),
    (26, 27),
    (34, 34),
    (38, 38),
    (60, 60),
    (67, 67),
    (72, 72),
    (76, 76),
    (102, 102),
    (105, 105),
    (114, 114),
    (118, 118),
    (140, 140),
    (147, 147),
    (152, 152),
    (156, 156),
    (182, 182),
];

const ONE_BIT: Settings = Settings {
    rate2048: 2048,
    lbrm: Some(1),
};

/// Octet 01 by 24 bits and then the last 4 of 28.
const IN_TWO: &[First<'static>] = &[(24, ALL, NONE), (28, &[(24, 27)], NONE)];

const CASES: &[(&[u8], Settings, &[First<'static>])] = &[
    // 24 zeros: erased, and then sent whole; one position with both bits; sent whole, and then one more as the other bit.
    // Then a flipped parity bit; six columns erased, and then one position of them.
    (&[0; 3], PLAIN, &[(320, NONE, NONE), (320, ALL, NONE)]),
    (&[0; 3], PLAIN, &[(1, ALL, NONE), (1, ALL, ALL)]),
    (&[0; 3], PLAIN, &[(320, ALL, NONE), (1, ALL, ALL)]),
    (&[0; 3], PLAIN, &[(320, ALL, &[(110, 110)])]),
    (&[0; 3], PLAIN, &[(320, MOST, NONE)]),
    (
        &[0; 3],
        PLAIN,
        &[(320, MOST, NONE), (320, &[(96, 96)], NONE)],
    ),
    // Octet 01: nothing; all of the buffer; four positions left, and then told; two places of six erased. Then 22 flips to
    // the word of another block; every place erased; a buffer of one bit. And a block whose first bit alone is a one.
    (&[0x01], PLAIN, &[]),
    (&[0x01], PLAIN, &[(184, ALL, NONE)]),
    (&[0x01], PLAIN, &[(24, ALL, NONE)]),
    (&[0x01], PLAIN, IN_TWO),
    (&[0x01], PLAIN, &[(6, &[(0, 0), (2, 2), (4, 5)], NONE)]),
    (&[0x01], PLAIN, &[(184, ALL, FLIPS)]),
    (&[0x01], PLAIN, &[(184, NONE, ALL)]),
    (&[0x01], ONE_BIT, &[(4, ALL, NONE)]),
    (&[0x80], PLAIN, &[(32, ALL, NONE)]),
];

#[test]
fn blocks_are_certified(rt: HostRuntime) -> Result<(), Fail> {
    for (octets, settings, firsts) in CASES.iter().copied() {
        assert!(rt; end_of_firsts(rt.alloc(), settings, octets, firsts)?.accepted);
    }
    Ok(())
}

const QUARTER: Settings = Settings {
    rate2048: 512,
    lbrm: None,
};

/// What comes of four bits of 3832 zeros at the rate 0.25.
fn end_of_two_code_blocks(alloc: Global, mask: Mask, heard: Places<'_>) -> Result<End, Fail> {
    let table = practice(alloc, 0, 1, false)?;
    let first = (4, heard, NONE);
    end_over(
        alloc,
        &table,
        QUARTER,
        &[0; 479],
        (4, mask),
        from_ref(&first),
    )
}

// 479 octets at the rate 0.25 are two code blocks. Nothing is received of them; then four bits of the second, which
// alone is scheduled.
#[test]
fn two_code_blocks_are_certified(rt: HostRuntime) -> Result<(), Fail> {
    for (mask, heard) in [(Mask::All, NONE), (Mask::Only([2, 0, 0, 0, 0, 0]), ALL)] {
        let end = end_of_two_code_blocks(rt.alloc(), mask, heard)?;
        assert!(rt; end.left == 1952 && end.accepted);
    }
    Ok(())
}

/// Each place of the buffer as a range.
fn places_of(alloc: Global) -> Result<Vec<(usize, usize)>, AllocError> {
    let mut places = Vec::new(alloc);
    for m in 0..184 {
        places.push((m, m))?;
    }
    Ok(places)
}

/// Transmissions of the whole buffer, of each of which one place is received.
fn place_by_place<'a>(alloc: Global, places: Places<'a>) -> Result<Vec<First<'a>>, AllocError> {
    let mut firsts = Vec::new(alloc);
    for m in 0..places.len() {
        firsts.push((184, &places[m..m + 1], NONE))?;
    }
    Ok(firsts)
}

/// What comes of octet 01 of which each place of the buffer is received in a transmission of its own.
fn end_place_by_place(alloc: Global) -> Result<End, Fail> {
    let places = places_of(alloc)?;
    let firsts = place_by_place(alloc, &places)?;
    end_of_firsts(alloc, PLAIN, &[0x01], &firsts)
}

/// Whether each pair was visited once or twice. The table has 105 entries, so with four lanes 420 pairs.
fn is_visited(end: End) -> bool {
    420 <= end.touches && end.touches <= 840
}

// Octet 01 place by place, and in two parts.
#[test]
fn each_pair_is_visited_once_or_twice(rt: HostRuntime) -> Result<(), Fail> {
    let end = end_place_by_place(rt.alloc())?;
    assert!(rt; end.told == HandedUp::Delivered(0x01) && end.accepted && is_visited(end));
    assert!(rt; is_visited(end_of_firsts(rt.alloc(), PLAIN, &[0x01], IN_TWO)?));
    Ok(())
}
