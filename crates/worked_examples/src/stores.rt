//! What is kept of the bits received: the first of each position, and whether a position was received with
//! both.

use nr_graphpick::Graph;
use nr_harqbuf::Store;
use nr_segment::plan;
use std::alloc::Global;
use std::test::Fail;

// A store of 208 positions that received these bits one after another.
fn heard(alloc: Global, hearings: &[(u32, bool)]) -> Result<Store, Fail> {
    let mut store = Store::new(alloc, &plan(Graph::Two, 24)?)?;
    for (pos, bit) in hearings {
        if *pos < store.positions() {
            store.hear(*pos, *bit);
        }
    }
    Ok(store)
}

// What was received first of a position that the codeword has.
fn first_of(store: &Store, pos: u32) -> Option<bool> {
    if pos < store.positions() {
        store.heard(pos)
    } else {
        None
    }
}

// After these bits, what was received first of a position, and whether some position was received with both.
fn told(alloc: Global, hearings: &[(u32, bool)], pos: u32) -> Result<(Option<bool>, bool), Fail> {
    let store = heard(alloc, hearings)?;
    Ok((first_of(&store, pos), store.clash()))
}

#[test]
fn a_position_keeps_its_first_bit_and_both_bits_clash(rt: HostRuntime) -> Result<(), Fail> {
    for (hearings, pos, want) in [
        (
            [(14, false), (207, true), (14, false)],
            14,
            (Some(false), false),
        ),
        (
            [(14, false), (207, true), (14, false)],
            207,
            (Some(true), false),
        ),
        (
            [(14, false), (207, true), (14, true)],
            14,
            (Some(false), true),
        ),
        (
            [(14, false), (14, true), (207, true)],
            207,
            (Some(true), true),
        ),
        ([(14, false), (14, true), (0, true)], 0, (Some(true), true)),
        ([(14, false), (207, true), (0, true)], 13, (None, false)),
    ] {
        assert!(rt; told(rt.alloc(), &hearings, pos)? == want);
    }
    Ok(())
}
