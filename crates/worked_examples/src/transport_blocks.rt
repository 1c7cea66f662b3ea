//! Why there is no sender of a block over the practice table. What senders send is in `tests/program_tests/test_send.py`, and
//! the word of a block in `tests/c_library_tests/test_by_hand.py`.

use crate::practice::{practice, zeros};
use crate::receptions::sender_of;
use nr_bitvec::Bits;
use nr_blockdesk::{DeskFault, Settings};
use nr_graphpick::PickFault;
use nr_ratematch::RmFault;
use nr_segment::SegFault;
use nr_shifttable::Table;
use std::alloc::{AllocError, Global};
use std::test::Fail;

/// Why there is no sender of a block, if the limited buffer keeps no bit.
fn fault_of(alloc: Global, table: &Table, rate2048: u32, block: &Bits) -> Option<DeskFault> {
    let settings = Settings {
        rate2048,
        lbrm: Some(0),
    };
    sender_of(alloc, table, settings, block).err()
}

/// Why there is no sender of so many zero bits over the practice table.
fn refused(alloc: Global, rate2048: u32, count: u32) -> Result<Option<DeskFault>, Fail> {
    let table = practice(alloc, 0, 1, false)?;
    let block = zeros(alloc, count)?;
    Ok(fault_of(alloc, &table, rate2048, &block))
}

// 9 bits are no octets. 7640 bits at the rate 0.25 are 7664 with their CRC, which three code blocks can't share. 296 bits
// at the full rate want base graph 1.
#[test]
fn blocks_are_refused_in_order(rt: HostRuntime) -> Result<(), Fail> {
    for (rate2048, count, fault) in [
        (0, 9, DeskFault::Size),
        (2048, 0, DeskFault::Size),
        (0, 8, DeskFault::Pick(PickFault::RateRange)),
        (512, 7640, DeskFault::Seg(SegFault::Uneven)),
        (2048, 296, DeskFault::Graph),
        (2048, 8, DeskFault::Rm(RmFault::NoBuffer)),
    ] {
        let cause = refused(rt.alloc(), rate2048, count)?;
        assert!(rt; cause == Some(fault));
    }
    Ok(())
}

/// Whether a fault is written so.
fn is_written(alloc: Global, fault: DeskFault, name: &str) -> Result<bool, AllocError> {
    match fault.to_string(alloc) {
        Ok(text) => Ok(text.as_str() == name),
        Err(error) => Err(error),
    }
}

const NAMES: &[(DeskFault, &str)] = &[
    (DeskFault::Size, "Size"),
    (DeskFault::Pick(PickFault::RateRange), "RateRange"),
    (DeskFault::Seg(SegFault::Uneven), "Uneven"),
    (DeskFault::Graph, "Graph"),
    (DeskFault::Rv, "Rv"),
    (DeskFault::Rm(RmFault::NoBuffer), "NoBuffer"),
    (DeskFault::Memory, "Memory"),
];

#[test]
fn the_innermost_fault_is_written(rt: HostRuntime) {
    for (fault, name) in NAMES.iter().copied() {
        assert!(rt; is_written(rt.alloc(), fault, name) == Ok(true), "{name}");
    }
}
