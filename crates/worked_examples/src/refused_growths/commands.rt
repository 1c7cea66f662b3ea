//! The output over memory, and a blocks file that breaks.

use super::has_memory;
use nr_files::{BlocksFault, read_blocks};
use nr_streams::{Feed, Tape, put_all};
use std::alloc::{AllocError, Global};
use std::test::Fail;

/// Whether a text is whole on a new Tape of little room.
fn holds_a_text(alloc: Global) -> Result<bool, AllocError> {
    let mut tape = Tape::new(alloc, 8, 8, 0)?;
    let answer = put_all(&mut tape, b"text");
    Ok(answer == Ok(()) && tape.bytes() == b"text".as_slice())
}

#[test]
fn a_tape_is_made(rt: HostRuntime) -> Result<(), Fail> {
    let answer = holds_a_text(rt.alloc());
    if answer.is_err() && has_memory(rt.alloc()) {
        assert!(rt; holds_a_text(rt.alloc()) == Ok(true));
    }
    assert!(rt; answer?);
    Ok(())
}

/// Why a blocks file is refused that breaks after its line `01`.
fn fault_of_a_broken_file(alloc: Global) -> Result<Option<BlocksFault>, AllocError> {
    let mut source = Feed::new(Vec::from_slice(alloc, b"01\n")?, 1, 4);
    match read_blocks(alloc, &mut source).err() {
        Some(BlocksFault::Memory) => Err(AllocError),
        fault => Ok(fault),
    }
}

// Want of memory is met before the file breaks, and is the answer: the file is not read on.
#[test]
fn a_broken_blocks_file_is_read(rt: HostRuntime) -> Result<(), Fail> {
    let answer = fault_of_a_broken_file(rt.alloc());
    assert!(rt; answer? == Some(BlocksFault::Read));
    Ok(())
}
