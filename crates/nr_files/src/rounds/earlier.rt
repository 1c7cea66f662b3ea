//! The transmissions of the records so far, and the round in which each HARQ process is after them.

ghost use Rattle.std.specs.Prelude.{ℕ, ◌≡◌, ◌<◌, ◌++◌, [], ◌∷◌, None, OnOk, slice_index_or};
ghost use Rattle.nr_files.specs.Rounds.{fresh_block, round_of};

use crate::schedule::{PROCESSES, Transmission};
use std::alloc::{AllocError, Global};

/// The transmissions of the records so far.
#[derive(Drop)]
pub(crate) struct Earlier {
    /// The transmissions, in their order.
    pub(crate) transmissions: Vec<Transmission>,
    // For each HARQ process the block of its last fresh transmission, which began the round that it is in.
    blocks: [Option<u32>; 16],
    ghost begun: { (process : ℕ) → process < 16
        → slice_index_or blocks process None ≡ fresh_block (round_of process transmissions.items) },
}

impl Earlier {
    /// Returns a list without transmissions.
    pub(crate) fn new(alloc: Global) -> Earlier
        ensures { result.transmissions.items ≡ [] }
    {
        Earlier {
            transmissions: Vec::new(alloc),
            blocks: [None; 16],
        }
    }

    /// Adds the next transmission.
    ///
    /// # Errors
    ///
    /// `AllocError` if memory runs out.
    pub(crate) fn push(&mut self, transmission: Transmission) -> Result<(), AllocError>
        ensures { OnOk result (self.new.transmissions.items
            ≡ self.old.transmissions.items ++ transmission ∷ []) }
    {
        let (process, block, fresh) = (
            transmission.process,
            transmission.block,
            transmission.fresh,
        );
        self.transmissions.push(transmission)?;
        if fresh && process < PROCESSES {
            self.blocks[process as usize] = Some(block);
        }
        Ok(())
    }

    /// Returns the block of the last new-data transmission of a process below 16, if it has one.
    pub(crate) fn fresh_block(&self, process: u32) -> Option<u32>
        ensures { process < 16
            → result ≡ fresh_block (round_of process self.now.transmissions.items) }
    {
        if process < PROCESSES {
            self.blocks[process as usize]
        } else {
            None
        }
    }
}
