//! Plans for sizes that no transport block has with that base graph, by hand from TS 38.212, 5.2.2, 5.3.2 and Table 5.3.2-1.

use nr_graphpick::Graph;
use nr_segment::{SegFault, plan};
use std::test::Fail;

// The plan for a base graph and b: its l, c, kdash, kb, z, set, k and n.
fn numbers(graph: Graph, b: u32) -> Result<[u32; 8], SegFault> {
    let made = plan(graph, b)?;
    Ok([
        made.l, made.c, made.kdash, made.kb, made.z, made.set, made.k, made.n,
    ])
}

// The least plan of base graph 1, and refused ones.
#[test]
fn plans_of_other_sizes(rt: HostRuntime) {
    assert!(rt; numbers(Graph::One, 24) == Ok([0, 1, 24, 22, 2, 0, 44, 132]));
    for (graph, b, fault) in [
        (Graph::Two, 23, SegFault::Short),
        (Graph::One, 0, SegFault::Short),
        (Graph::Two, 1_310_745, SegFault::Long),
        (Graph::One, u32::MAX, SegFault::Long),
    ] {
        assert!(rt; numbers(graph, b) == Err(fault));
    }
}

#[test]
fn refusals_are_written_by_their_names(rt: HostRuntime) -> Result<(), Fail> {
    for (fault, want) in [
        (SegFault::Short, "Short"),
        (SegFault::Long, "Long"),
        (SegFault::Uneven, "Uneven"),
    ] {
        assert!(rt; fault.to_string(rt.alloc())?.as_str() == want);
    }
    Ok(())
}
