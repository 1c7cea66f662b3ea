//! Why entries that a caller kept are refused. Those of a table, and tables made of them, are in `tests/c_library_tests`.

use nr_graphpick::Graph;
use nr_shifttable::{EntriesFault, Entry, KeptEntry, Table, TableFault};
use std::alloc::Global;
use std::test::Fail;

// An entry that a caller keeps, with one value in all sets.
fn kept(graph: u16, row: u16, col: u16, value: u16) -> KeptEntry {
    let entry = Entry {
        row,
        col,
        values: [value; 8],
    };
    KeptEntry { graph, entry }
}

// Why entries are refused.
fn fault_of(alloc: Global, entries: &[KeptEntry]) -> Option<EntriesFault> {
    Table::of_entries(alloc, entries).err()
}

// Why zeros at two places are refused.
fn fault_of_two(
    alloc: Global,
    first: (u16, u16, u16),
    second: (u16, u16, u16),
) -> Option<EntriesFault> {
    let (first_graph, first_row, first_col) = first;
    let (second_graph, second_row, second_col) = second;
    let first = kept(first_graph, first_row, first_col, 0);
    let second = kept(second_graph, second_row, second_col, 0);
    fault_of(alloc, &[first, second])
}

// Base graph 1 has 46 rows and 68 columns, and base graph 2 has 42 and 52; there is no other. A range comes before an
// order.
#[test]
fn entries_out_of_range_and_of_order(rt: HostRuntime) {
    for (first, second, fault) in [
        ((2, 42, 0), (2, 42, 1), EntriesFault::Range(1)),
        ((2, 0, 52), (2, 1, 0), EntriesFault::Range(1)),
        ((1, 46, 0), (2, 0, 0), EntriesFault::Range(1)),
        ((1, 0, 68), (1, 0, 68), EntriesFault::Range(1)),
        ((2, 41, 51), (2, 42, 0), EntriesFault::Range(2)),
        ((2, 41, 51), (2, 41, 52), EntriesFault::Range(2)),
        ((1, 45, 67), (1, 46, 0), EntriesFault::Range(2)),
        ((1, 45, 67), (1, 45, 68), EntriesFault::Range(2)),
        ((1, 45, 67), (2, 0, 65535), EntriesFault::Range(2)),
        ((2, 3, 5), (2, 2, 52), EntriesFault::Range(2)),
        ((2, 0, 0), (0, 0, 0), EntriesFault::Range(2)),
        ((2, 0, 0), (3, 0, 0), EntriesFault::Range(2)),
        ((2, 0, 0), (65535, 0, 0), EntriesFault::Range(2)),
        ((2, 3, 5), (2, 3, 5), EntriesFault::Order(2)),
        ((2, 3, 5), (2, 3, 4), EntriesFault::Order(2)),
        ((2, 3, 5), (2, 2, 6), EntriesFault::Order(2)),
        ((1, 1, 0), (1, 0, 67), EntriesFault::Order(2)),
        ((2, 0, 0), (1, 0, 1), EntriesFault::Order(2)),
        ((2, 41, 51), (1, 45, 67), EntriesFault::Order(2)),
    ] {
        let said = fault_of_two(rt.alloc(), first, second);
        assert!(rt; said == Some(fault), "{first:?} {second:?}");
    }
}

#[test]
fn faults_of_entries_are_written_with_their_numbers(rt: HostRuntime) -> Result<(), Fail> {
    for (fault, want) in [
        (EntriesFault::Range(4_294_967_295), "Range 4294967295"),
        (EntriesFault::Order(2), "Order 2"),
        (EntriesFault::Table(TableFault::Core(Graph::One)), "Core 1"),
        (EntriesFault::Memory, "Memory"),
    ] {
        assert!(rt; fault.to_string(rt.alloc())?.as_str() == want);
    }
    Ok(())
}
