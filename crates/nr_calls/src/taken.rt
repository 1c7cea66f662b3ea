//! What a receiver has decoded after one more transmission, and writing it to its caller's memory.

ghost use Rattle.std.specs.Prelude.{◌≡◌, true};
ghost use Rattle.nr_blockdesk.specs.Receiving.{verdict};
ghost use Rattle.nr_calls.specs.{Findings.IsHandedUp, Findings.outcome_number, inside.Words.planned_of, inside.Words.taken_room};
ghost use Rattle.nr_calls.specs.Keeping.{is_kept_room, kept_places, kept_room};

use crate::findings::{hand_up, outcome_number};
use crate::rooms::room_length;
use nr_blockdesk::Outcome;
use nr_segment::Plan;

// How many octets or entries each place of a caller has.
#[derive(Clone, Copy)]
pub(crate) struct KeptRoom {
    pub(crate) room: usize,
    pub(crate) left: usize,
    pub(crate) block: usize,
}

impl KeptRoom {
    // Whether it is the room that a receiver of transport blocks of `a` bits needs.
    pub(crate) fn is_for(&self, plan: &Plan, a: u32) -> bool
        ensures { result ≡ is_kept_room self.now (planned_of plan.now) a }
    {
        self.room == room_length(plan)
            && self.left == plan.c as usize
            && self.block == a as usize / 8
    }
}

// What a receiver has after one more transmission: its room's octets, how many positions below K' of each code block are
// left, and the outcome.
#[derive(Drop)]
pub(crate) struct Taken {
    pub(crate) room: Vec<u8>,
    pub(crate) left: Vec<u32>,
    pub(crate) last: Outcome,
}

impl Taken {
    // Writes all of it.
    pub(crate) fn write(
        &self,
        room: &mut [u8],
        outcome: &mut u32,
        left: &mut [u32],
        block: &mut [u8],
    )
        requires { taken_room (kept_room (kept_places room.old outcome.old left.old block.old)) self.now
            ≡ true }
        ensures room { room.new ≡ self.now.room.items }
        ensures outcome { outcome.new ≡ outcome_number (verdict self.now.last) }
        ensures left { left.new ≡ self.now.left.items }
        ensures block { IsHandedUp (verdict self.now.last) block.old block.new }
    {
        room.copy_from_slice(&self.room);
        left.copy_from_slice(&self.left);
        *outcome = outcome_number(&self.last);
        hand_up(&self.last, block);
    }
}
