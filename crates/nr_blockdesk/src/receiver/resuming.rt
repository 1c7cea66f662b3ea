//! Going on from a record that was kept elsewhere, by one transmission.

ghost use Rattle.std.specs.Prelude.{◌≡◌, Ok, [], length, IfOk, IsErrOf, IsOk};
ghost use Rattle.nr_blockdesk.specs.{Explains.reception_said, Marks.reception_by};
ghost use Rattle.nr_blockdesk.specs.Receiving.{AreStoresFor, RefusesAs, Takes};

use super::Receiver;
use crate::arrival::Arrival;
use crate::code_block::CodeBlock;
use crate::hearing::hear;
use crate::link::Link;
use crate::outcome::Outcome;
use crate::part_masks::empty_masks;
use crate::selected::Selected;
use crate::sender::longest;
use crate::{laws, receiver_laws};
use nr_bitvec::{Bits, Marks};
use nr_harqbuf::Store;
use nr_peel::Recording;
use nr_transmission::{DeskFault, Tx};
use std::alloc::Global;

impl<'t, K: Recording> Receiver<'t, K> {
    /// `of_stores` and then `take_marks`, for less: the receiver that goes on from a record by one transmission, and what
    /// may be handed up. The stores receive the transmission first. So the peelers learn all of it at once, and what
    /// follows is fixed once.
    ///
    /// # Errors
    ///
    /// In this order: `Rv`, `Rm` and `Length`, as `take_marks`; `Memory`, if memory runs out.
    #[tactic(auto, using(crate::proofs::ReceptionFacts::said_by))]
    pub fn resume(
        alloc: Global,
        link: Link<'t>,
        mut stores: Vec<Store>,
        tx: &Tx,
        marks: &Marks,
    ) -> Result<(Receiver<'t, K>, Outcome), DeskFault>
        requires fit { AreStoresFor link stores.items }
        ensures refused { RefusesAs DeskFault.Memory result
            (reception_said link.entry (reception_by tx.now marks.now.heard.items marks.now.value.items)) }
        ensures judged { IsErrOf result DeskFault.Memory → IsOk
            (reception_said link.entry (reception_by tx.now marks.now.heard.items marks.now.value.items)) }
        ensures link { IfOk result (λ made. made.0.link ≡ link.entry) }
        ensures takes { IfOk result (λ made.
            Takes (record { link = made.0.link; heard = stores.items; peelings = [] }) made.0
            (reception_by tx.now marks.now.heard.items marks.now.value.items) (Ok made.1)) }
    {
        let lengths = link.heard_lengths(tx, marks.heard.len())?;
        let list = Bits::with_room(alloc, link.a())?;
        let mut selected = Selected::new(alloc);
        selected.make_room(alloc, longest(&lengths))?;
        let mut part_masks = empty_masks(alloc, link.plan())?;
        link.is_sound();
        laws::accepted_are_matched();
        laws::parts_are_at();
        laws::places_have_one_owner();
        laws::sent_bits_are_at();
        laws::record_continues();
        receiver_laws::records_continue();
        receiver_laws::explains_by_record();
        receiver_laws::explained_is_delivered();
        receiver_laws::delivered_is_only();
        receiver_laws::explained_never_contradicts();
        let arrival = Arrival {
            buffer: link.buffer(),
            tx,
            lengths: &lengths,
            marks,
        };
        // Nothing is learned until all is stored.
        let mut none: Vec<CodeBlock<'t, K>> = Vec::new(alloc);
        hear(
            &arrival,
            &mut stores,
            &mut none,
            &mut part_masks,
            &mut selected,
        );
        let mut receiver = Receiver::of_stores(alloc, link, stores)?;
        let outcome = receiver.answer(list);
        Ok((receiver, outcome))
    }
}
