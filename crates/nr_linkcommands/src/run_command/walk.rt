//! What `run` does with each transmission and each round, and what it keeps of them. A slot has a receiver only as long
//! as later transmissions continue its round.

ghost use Rattle.std.specs.Prelude.{IfOk, List, Ok, OnOk, [], if◌then◌else◌, length, replicate, ◌++◌, ◌-◌, ◌<◌};
ghost use Rattle.std.specs.Prelude.{◌^◌, ◌≡◌};
ghost use Rattle.nr_refusal.specs.Refusal.{FailsAs};
ghost use Rattle.nr_blockdesk.specs.{Explains.Reception, Heard.heard_record, Sent.sent_said};
ghost use Rattle.nr_commands.specs.Command.{Writes};
ghost use Rattle.nr_linkcommands.specs.inside.Ends.{HasReceived, HoldsState, IsOver, IsRxState, IsWithin, KeepsRounds};
ghost use Rattle.nr_linkcommands.specs.inside.Ends.{empty_slot};
ghost use Rattle.nr_linkcommands.specs.{RoundTexts.process_count, RunLines.left_lines};
ghost use Rattle.nr_linkcommands.specs.RunText.{lines_of, received_of, run_words, totals_of};

use super::ends::{Totals, no_totals, write_round_end};
use super::lines::left_lines;
use super::slot::{RxState, Slot, close, empty_slots, next_state};
use crate::channel::arrival_of;
use crate::laws;
use crate::ready::Ready;
use crate::schedule_walk::Walk;
use crate::send_command::write_sent;
use nr_bitvec::Bits;
use nr_blockdesk::Sender;
use nr_commands::{RunFault, put_line};
use nr_files::{Transmission, goes_on};
use nr_streams::Sink;
use std::alloc::{AllocError, Global};

/// What a run keeps from one transmission to the next.
#[derive(Drop)]
pub(crate) struct RunSlots<'t> {
    /// For each process, from 0, what it has received in its current round.
    slots: Vec<Slot<'t>>,
    /// How the rounds that have ended did so.
    pub(crate) totals: Totals,
}

impl<'t> RunSlots<'t> {
    /// Returns a slot for each process, none of them in a round.
    ///
    /// # Errors
    ///
    /// `AllocError` if memory runs out.
    pub(crate) fn new(ready: &Ready<'t>) -> Result<RunSlots<'t>, AllocError>
        ensures slots { IfOk result (λ rounds. rounds.slots.items ≡ replicate
            (process_count ready.now.schedule.now.by_process (length ready.now.senders.items)) empty_slot) }
        ensures totals { IfOk result (λ rounds. rounds.totals ≡ totals_of []) }
        ensures within { IfOk result (λ rounds. IsWithin 0 rounds.totals) }
    {
        Ok(RunSlots {
            slots: empty_slots(ready.alloc, ready.process_count() as usize)?,
            totals: no_totals(),
        })
    }
}

impl<'t> Walk<'t> for RunSlots<'t> {
    ghost words = { run_words };

    ghost Keeps = { λ rounds ready before later ended. KeepsRounds ready.schedule.now.by_process
        ready.senders.items before later ended rounds.slots.items rounds.totals };

    fn end_round<O: Sink>(
        &mut self,
        ready: &Ready<'t>,
        process: u32,
        _before: &[Transmission],
        out: &mut O,
    ) -> Result<(), RunFault> {
        let slot = &self.slots[process as usize];
        self.totals = write_round_end(ready, process, slot, self.totals, out)?;
        Ok(())
    }

    fn transmit<O: Sink>(
        &mut self,
        ready: &Ready<'t>,
        transmission: &Transmission,
        later: &[Transmission],
        out: &mut O,
    ) -> Result<(), RunFault> {
        let sender = &ready.senders[transmission.block as usize - 1];
        let slot = &mut self.slots[transmission.process as usize];
        begin_round(transmission.fresh, slot);
        send_and_receive(ready.alloc, sender, &mut slot.state, transmission, out)?;
        close(goes_on(transmission.process, later), slot);
        slot.block = Some(transmission.block);
        Ok(())
    }
}

// Forgets what was received, if a transmission is fresh.
fn begin_round(fresh: bool, slot: &mut Slot)
    ensures { slot.new ≡ (if fresh then empty_slot else slot.old) }
{
    if fresh {
        *slot = Slot::new();
    }
}

// Makes a transmission of a sender's transport block, and writes its lines.
fn send_and_receive<'t, O: Sink>(
    alloc: Global,
    sender: &Sender<'t>,
    state: &mut Option<RxState<'t>>,
    transmission: &Transmission,
    out: &mut O,
) -> Result<(), RunFault>
    requires puts { O.failures out.old < 2 ^ 32 }
    requires room { HasReceived (2 ^ 64 - 2) state.old }
    requires same_link { IsOver sender.now.link state.old }
    ensures text { (list : List Reception) → HoldsState sender.now.link list state.old
        → Writes (O.written out.old) (O.written out.new) result
        (lines_of sender.now list transmission.now) }
    ensures held { OnOk result ((list : List Reception) → HoldsState sender.now.link list state.old
        → HoldsState sender.now.link (list ++ received_of sender.now transmission.now) state.new) }
    ensures put { FailsAs RunFault.Write result (O.failures out.old) (O.failures out.new) }
{
    match write_sent(alloc, sender, transmission, out)? {
        None => Ok(()),
        Some(bits) => receive_sent(alloc, sender, state, transmission, bits, out),
    }
}

// Receives what arrives of the bits that a transmission sends, and writes the lines of the code blocks.
fn receive_sent<'t, O: Sink>(
    alloc: Global,
    sender: &Sender<'t>,
    state: &mut Option<RxState<'t>>,
    transmission: &Transmission,
    bits: Bits,
    out: &mut O,
) -> Result<(), RunFault>
    requires puts { O.failures out.old < 2 ^ 32 }
    requires room { HasReceived (2 ^ 64 - 2) state.old }
    requires same_link { IsOver sender.now.link state.old }
    requires sent { sent_said sender.now.link transmission.now.tx sender.now.block ≡ Ok bits.items }
    ensures text { (list : List Reception) → HoldsState sender.now.link list state.old
        → Writes (O.written out.old) (O.written out.new) result
        (left_lines transmission.now.number transmission.now.block sender.now.link
        (heard_record sender.now.link (list ++ received_of sender.now transmission.now))) }
    ensures held { OnOk result ((list : List Reception) → HoldsState sender.now.link list state.old
        → HoldsState sender.now.link (list ++ received_of sender.now transmission.now) state.new) }
    ensures put { FailsAs RunFault.Write result (O.failures out.old) (O.failures out.new) }
{
    laws::plans_are_sound();
    sender.is_sound();
    // What arrives takes memory only after that of the line is free again.
    let after = state_after(alloc, sender, state, transmission, bits)?;
    let kept = state.insert(after);
    put_line(out, left_lines(alloc, transmission, &kept.receiver))
}

// The state of a receiver after a transmission that sends these bits. The state before is used up.
fn state_after<'t>(
    alloc: Global,
    sender: &Sender<'t>,
    state: &mut Option<RxState<'t>>,
    transmission: &Transmission,
    bits: Bits,
) -> Result<RxState<'t>, AllocError>
    requires room { HasReceived (2 ^ 64 - 2) state.old }
    requires same_link { IsOver sender.now.link state.old }
    requires sent { sent_said sender.now.link transmission.now.tx sender.now.block ≡ Ok bits.items }
    ensures { IfOk result (λ after. (list : List Reception) → HoldsState sender.now.link list state.old
        → IsRxState sender.now.link (list ++ received_of sender.now transmission.now) after) }
{
    laws::accepted_send_all();
    let arrival = arrival_of(alloc, transmission, bits)?;
    next_state(sender, state.take(), &transmission.tx, &arrival)
}
