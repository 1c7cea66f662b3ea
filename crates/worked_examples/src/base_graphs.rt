//! The choice between the two base graphs for sizes that no transport block of whole octets has (TS 38.212, 6.2.2 and 7.2.2).

use nr_graphpick::{Graph, PickFault, pick};
use std::test::Fail;

// Around the standard's bounds of 292 and 3824 bits, and of the sizes and rates that are accepted.
#[test]
fn picks_by_size_and_rate(rt: HostRuntime) {
    for (a, rate2048, want) in [
        (1, 2048, Ok(Graph::Two)),
        (292, 2048, Ok(Graph::Two)),
        (293, 2048, Ok(Graph::One)),
        (3825, 1372, Ok(Graph::One)),
        (1_310_720, 512, Ok(Graph::Two)),
        (1_310_720, 513, Ok(Graph::One)),
        (1_310_721, 512, Err(PickFault::SizeRange)),
        (0, 1, Err(PickFault::SizeRange)),
        (0, 0, Err(PickFault::RateRange)),
        (8, 2049, Err(PickFault::RateRange)),
    ] {
        assert!(rt; pick(a, rate2048) == want, "{a} bits at {rate2048}");
    }
}

#[test]
fn faults_of_the_choice_are_written_by_their_names(rt: HostRuntime) -> Result<(), Fail> {
    for (fault, want) in [
        (PickFault::RateRange, "RateRange"),
        (PickFault::SizeRange, "SizeRange"),
    ] {
        assert!(rt; fault.to_string(rt.alloc())?.as_str() == want);
    }
    Ok(())
}
