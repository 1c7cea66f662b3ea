//! What is decoded over the transmissions of a transport block, and writing it to a caller's memory.

ghost use Rattle.std.specs.Prelude.{◌≡◌, length, true};
ghost use Rattle.nr_blockdesk.specs.Receiving.{verdict};
ghost use Rattle.nr_calls.specs.Findings.{AreWritten, IsHandedUp, is_room, outcome_number, places, room_in};
ghost use Rattle.nr_calls.specs.inside.Words.{block_fits, findings_of, has_room};

use crate::crossing::write_octets;
use nr_blockdesk::Outcome;
use std::alloc::Global;

// What is found over some transmissions: the number of the outcome after each of them, and the outcome at last. It says
// too how many positions below K' of each code block are left after the last.
#[derive(Drop)]
pub(crate) struct Found {
    pub(crate) outcomes: Vec<u32>,
    pub(crate) left: Vec<u32>,
    pub(crate) last: Outcome,
}

// How many entries or octets each place of a caller has.
#[derive(Clone, Copy)]
pub(crate) struct Room {
    pub(crate) outcomes: usize,
    pub(crate) left: usize,
    pub(crate) block: usize,
}

impl Room {
    // Whether it is room for what is found over so many transmissions of a transport block of `a` bits in `c` code blocks.
    pub(crate) fn is_for(&self, c: u32, a: u32, transmissions: usize) -> bool
        ensures { result ≡ is_room self.now c a transmissions }
    {
        self.outcomes == transmissions && self.left == c as usize && self.block == a as usize / 8
    }
}

impl Found {
    // Nothing is found, and no memory is taken.
    pub(crate) fn none(alloc: Global) -> Found {
        Found {
            outcomes: Vec::new(alloc),
            left: Vec::new(alloc),
            last: Outcome::Open,
        }
    }

    // Writes all of it.
    pub(crate) fn write(&self, outcomes: &mut [u32], left: &mut [u32], block: &mut [u8])
        requires { has_room (room_in (places outcomes.old left.old block.old))
            (findings_of self.now) ≡ true }
        ensures { AreWritten block.old (findings_of self.now)
            (places outcomes.new left.new block.new) }
    {
        outcomes.copy_from_slice(&self.outcomes);
        left.copy_from_slice(&self.left);
        hand_up(&self.last, block);
    }
}

// Writes a block that is delivered.
pub(crate) fn hand_up(outcome: &Outcome, block: &mut [u8])
    requires { block_fits (length block.old) (verdict outcome.now) ≡ true }
    ensures { IsHandedUp (verdict outcome.now) block.old block.new }
{
    if let Outcome::Delivered(bits) = outcome {
        write_octets(bits, block);
    }
}

// The number of an outcome, as it is returned to C.
pub(crate) fn outcome_number(outcome: &Outcome) -> u32
    ensures { result ≡ outcome_number (verdict outcome.now) }
{
    match outcome {
        Outcome::Open => 0,
        Outcome::Delivered(_) => 1,
        Outcome::Contradiction => 2,
    }
}
