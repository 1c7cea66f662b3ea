//! Receiving a transmission.

ghost use Rattle.std.specs.Prelude.{◌≡◌, length};
ghost use Rattle.nr_blockdesk.specs.{Marks.reception_by, Receiving.Takes};

use super::Receiver;
use crate::arrival::Arrival;
use crate::hearing::hear;
use crate::outcome::Outcome;
use crate::sender::longest;
use crate::{laws, receiver_laws};
use nr_bitvec::{Bits, Marks};
use nr_peel::Recording;
use nr_transmission::{DeskFault, Tx};

impl<'t, K: Recording> Receiver<'t, K> {
    /// `take` of places as marks: those at which a bit was received are marked. The bits of erased places may be whatever
    /// they are.
    ///
    /// # Errors
    ///
    /// Those of `take`, in its order. `Length` is met if there are not G places. Nothing is received then.
    pub fn take_marks(&mut self, tx: &Tx, marks: &Marks) -> Result<Outcome, DeskFault>
        ensures { Takes self.old self.new (reception_by tx.now marks.now.heard.items marks.now.value.items)
            result }
    {
        let lengths = self.link.heard_lengths(tx, marks.heard.len())?;
        // Asked for before anything is heard: later nothing may fail. Not written, since nearly all answers are `Open`.
        let list = Bits::with_room(self.alloc, self.link.a())?;
        self.selected.make_room(self.alloc, longest(&lengths))?;
        laws::accepted_are_matched();
        laws::parts_are_at();
        laws::places_have_one_owner();
        laws::sent_bits_are_at();
        laws::record_continues();
        receiver_laws::records_continue();
        receiver_laws::explains_by_record();
        receiver_laws::explained_is_delivered();
        receiver_laws::delivered_is_only();
        receiver_laws::explained_never_contradicts();
        let arrival = Arrival {
            buffer: self.link.buffer(),
            tx,
            lengths: &lengths,
            marks,
        };
        hear(
            &arrival,
            &mut self.stores,
            &mut self.code_blocks,
            &mut self.part_masks,
            &mut self.selected,
        );
        Ok(self.answer(list))
    }
}
