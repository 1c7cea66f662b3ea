//! Files without an end: each gives one octet a pull, and is pulled once more than it may have octets. Those of the program
//! are rows of `tests/program_tests`.

use nr_files::{SettingsFault, read_settings};
use nr_shifttable::{Table, TableFault};
use nr_streams::{Endless, ReadFault, read_to_end};
use std::alloc::Global;

/// Why a table without an end is refused, and after how many pulls.
fn read_table(alloc: Global) -> (Option<TableFault>, u32) {
    let mut source = Endless::new();
    let fault = Table::read(alloc, &mut source).err();
    (fault, source.pulls())
}

/// Why settings without an end are refused, and after how many pulls.
fn read_rates(alloc: Global) -> (Option<SettingsFault>, u32) {
    let mut source = Endless::new();
    let fault = read_settings(alloc, &mut source).err();
    (fault, source.pulls())
}

/// Why a source is refused that may have so many octets, and after how many pulls.
fn read_source(alloc: Global, limit: usize) -> (Option<ReadFault>, u32) {
    let mut source = Endless::new();
    let fault = read_to_end(alloc, &mut source, limit).err();
    (fault, source.pulls())
}

// A table file has at most 4,194,304 octets, and settings 65,536. The call that reads both has lower limits here.
#[test]
fn endless_files_are_too_long(rt: HostRuntime) {
    assert!(rt; read_table(rt.alloc()) == (Some(TableFault::TooLong), 4_194_305));
    assert!(rt; read_rates(rt.alloc()) == (Some(SettingsFault::TooLong), 65_537));
    for (limit, pulls) in [(0, 1), (1, 2), (5, 6), (70_000, 70_001)] {
        assert!(rt; read_source(rt.alloc(), limit) == (Some(ReadFault::TooLong), pulls));
    }
}
