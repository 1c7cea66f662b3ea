//! What was received of a code block, in the order in which its bits were selected.

ghost use Rattle.std.specs.Prelude.{◌≡◌, ℕ, ◌+◌, ◌%◌, ◌^◌, ◌≤◌, ◌<◌, ◌==◌, length, take, drop};
ghost use Rattle.std.specs.{Prelude.OnOk, Int.bit_at};
ghost use Rattle.nr_bitvec.specs.Bit.{bit};
ghost use Rattle.nr_interleave.specs.Interleaving.{interleaving_of};
ghost use Rattle.nr_blockdesk.specs.inside.Words.{HasRoomFor, received_marks};

use crate::arrival::Arrival;
use crate::part::Part;
use nr_bitvec::Bits;
use nr_interleave::unspread_into;
use std::alloc::{AllocError, Global};

/// Marks of the selected bits received, and their bits.
#[derive(Drop)]
pub(crate) struct Selected {
    pub(crate) heard: Bits,
    pub(crate) value: Bits,
    // Every bit was received. This is the usual case, and then the marks are not written.
    pub(crate) whole: bool,
}

impl Selected {
    // Lists without room.
    pub(crate) fn new(alloc: Global) -> Selected {
        Selected {
            heard: Bits::new(alloc),
            value: Bits::new(alloc),
            whole: false,
        }
    }

    // Asks for memory for `most` bits in each list. What they have is lost.
    pub(crate) fn make_room(&mut self, alloc: Global, most: u32) -> Result<(), AllocError>
        requires { most ≤ 2 ^ 24 }
        ensures { OnOk result (HasRoomFor most self.new) }
    {
        make_room(&mut self.heard, alloc, most)?;
        make_room(&mut self.value, alloc, most)
    }

    // Takes up a code block's part.
    pub(crate) fn load(&mut self, part: &Part<'_, '_>)
        requires room { HasRoomFor part.now.count self.old }
        ensures marks { interleaving_of part.now.arrival.now.tx.now.qm (received_marks self.new)
            ≡ take part.now.count (drop part.now.from part.now.arrival.now.marks.now.heard.items) }
        ensures bits { interleaving_of part.now.arrival.now.tx.now.qm self.new.value.items
            ≡ take part.now.count (drop part.now.from part.now.arrival.now.marks.now.value.items) }
        ensures both { length (received_marks self.new) ≡ length self.new.value.items }
        ensures room { (n : ℕ) → HasRoomFor n self.old → HasRoomFor n self.new }
    {
        let Arrival { tx, marks, .. } = part.arrival;
        let (from, count) = (part.from as usize, part.count as usize);
        self.whole = part.arrived_whole();
        if !self.whole {
            unspread_into(tx.qm, &marks.heard, from, count, &mut self.heard);
        }
        unspread_into(tx.qm, &marks.value, from, count, &mut self.value);
    }

    // Marks of the 64 bits from bit `k` on, the first of them lowest.
    pub(crate) fn marks(&self, k: usize) -> u64
        ensures { (j : ℕ) → j < 64 → k + j < length self.now.value.items
            → (bit_at result j == 1) ≡ bit (received_marks self.now) (k + j) }
    {
        if self.whole {
            u64::MAX
        } else {
            self.heard.window(k)
        }
    }
}

// Asks for memory for `most` bits in a list, unless it has it. What it has is lost.
fn make_room(bits: &mut Bits, alloc: Global, most: u32) -> Result<(), AllocError>
    requires { most ≤ 2 ^ 24 }
    ensures { OnOk result (most ≤ length bits.new.items + bits.new.room) }
{
    bits.clear();
    if bits.room() < most {
        *bits = Bits::with_room(alloc, most)?;
    }
    Ok(())
}
