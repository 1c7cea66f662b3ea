//! What files in memory are read of: feeds, by steps and to their ends.

use nr_streams::{Feed, ReadFault, read_to_end};
use std::alloc::Global;
use std::test::Fail;

// Reads a feed of the octets of "shift": their number or the fault.
fn read_shift(
    alloc: Global,
    step: u32,
    fail: u32,
    limit: usize,
) -> Result<Result<usize, ReadFault>, Fail> {
    let mut feed = Feed::new(Vec::from_slice(alloc, b"shift")?, step.max(1), fail);
    match read_to_end(alloc, &mut feed, limit) {
        Ok(octets) => Ok(Ok(octets.len())),
        Err(fault) => Ok(Err(fault)),
    }
}

// A feed gives at most a step a pull, and goes on failing once it has failed. More octets than are allowed are met before
// the failure after them.
#[test]
fn feeds_are_read_to_their_ends(rt: HostRuntime) -> Result<(), Fail> {
    for (step, fail, limit, want) in [
        (1, 0, 5, Ok(5)),
        (2, 0, 6, Ok(5)),
        (9, 0, 5, Ok(5)),
        (1, 0, 4, Err(ReadFault::TooLong)),
        (9, 0, 4, Err(ReadFault::TooLong)),
        (9, 2, 4, Err(ReadFault::TooLong)),
        (1, 1, 5, Err(ReadFault::Broken)),
        (1, 6, 5, Err(ReadFault::Broken)),
        (1, 7, 5, Ok(5)),
        (2, 3, 5, Err(ReadFault::Broken)),
    ] {
        assert!(rt;
            read_shift(rt.alloc(), step, fail, limit)? == want,
            "step {step} fail {fail}"
        );
    }
    Ok(())
}
