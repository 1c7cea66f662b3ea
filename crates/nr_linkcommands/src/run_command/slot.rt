//! A slot of a run: what the receiver of a transport block has received, and what remains of it afterwards.

ghost use Rattle.std.specs.Prelude.{◌≡◌, ◌+◌, ◌-◌, ◌^◌, ◌<◌, ◌≤◌, ◌++◌, [], ◌∷◌, List};
ghost use Rattle.std.specs.Prelude.{length, replicate, true, IfOk, OnOk};
ghost use Rattle.nr_blockdesk.specs.{Explains.IsAccepted, Explains.Reception, Link.Link};
ghost use Rattle.nr_linkcommands.specs.inside.Ends.{HasReceived, HoldsSlot, HoldsState, IsOver, IsRxState, IsSummary, empty_slot};
ghost use Rattle.nr_linkcommands.specs.{inside.Receptions.reception_of, RunLines.unfixed_blocks};

use crate::channel::receive;
use crate::laws;
use nr_bitvec::Marks;
use nr_blockdesk::{Outcome, Receiver, Sender, Tx, Unrecorded};
use std::alloc::{AllocError, Global};

/// The receiver of a transport block with what it found, which exists once something has been received.
#[derive(Drop)]
pub struct RxState<'t> {
    /// The receiver.
    pub receiver: Receiver<'t, Unrecorded>,
    /// The outcome of everything received so far.
    pub outcome: Outcome,
    /// How many transmissions were received.
    pub count: u64,
}

/// What remains of a receiver's state after the last transmission of its round.
#[derive(Drop)]
pub struct RxSummary {
    /// The outcome of everything received.
    pub outcome: Outcome,
    /// How many transmissions were received.
    pub count: u64,
    /// How many code blocks have an unknown position below K'.
    pub failed: u32,
}

/// The slot of a transport block or of a HARQ process. It has a receiver from the first transmission that is received
/// to the last one.
#[derive(Drop)]
pub struct Slot<'t> {
    /// The transport block of the current round, once a transmission named it.
    pub block: Option<u32>,
    /// The receiver's state, while later transmissions continue the round.
    pub state: Option<RxState<'t>>,
    /// What remains of it after the last one.
    pub summary: Option<RxSummary>,
}

impl<'t> Slot<'t> {
    /// Returns a slot without a round.
    pub fn new() -> Slot<'t>
        ensures { result ≡ empty_slot }
    {
        Slot {
            block: None,
            state: None,
            summary: None,
        }
    }
}

/// Returns `count` slots without a round.
///
/// # Errors
///
/// `AllocError` if memory runs out.
pub fn empty_slots<'t>(alloc: Global, count: usize) -> Result<Vec<Slot<'t>>, AllocError>
    ensures { IfOk result (λ slots. slots.items ≡ replicate count empty_slot) }
{
    let mut slots = Vec::with_capacity(alloc, count)?;
    for _ in 0..count {
        slots.push_reserved(Slot::new());
    }
    Ok(slots)
}

/// Returns the state of the receiver of a sender's transport block after one more transmission.
///
/// # Errors
///
/// `AllocError` if memory runs out.
pub(crate) fn next_state<'t>(
    sender: &Sender<'t>,
    state: Option<RxState<'t>>,
    tx: &Tx,
    arrival: &Marks,
) -> Result<RxState<'t>, AllocError>
    requires room { HasReceived (2 ^ 64 - 2) state }
    requires same_link { IsOver sender.now.link state }
    requires accepted { IsAccepted sender.now.link (reception_of tx.now arrival.now) }
    ensures { IfOk result (λ after. (list : List Reception) → HoldsState sender.now.link list state.entry
        → IsRxState sender.now.link (list ++ reception_of tx.now arrival.now ∷ []) after) }
{
    let mut state = state_or_new(sender, state)?;
    receive_more(&mut state, tx, arrival)?;
    Ok(state)
}

// The state, which is made if there is none.
fn state_or_new<'t>(
    sender: &Sender<'t>,
    state: Option<RxState<'t>>,
) -> Result<RxState<'t>, AllocError>
    requires room { HasReceived (2 ^ 64 - 2) state }
    requires same_link { IsOver sender.now.link state }
    ensures same_link { IfOk result (λ after. after.receiver.link ≡ sender.now.link) }
    ensures state { IfOk result (λ after. (list : List Reception)
        → HoldsState sender.now.link list state.entry → IsRxState sender.now.link list after) }
    ensures room { IfOk result (λ after. after.count ≤ 2 ^ 64 - 2) }
{
    match state {
        Some(state) => Ok(state),
        None => new_state(sender),
    }
}

// The state before anything is received.
pub(crate) fn new_state<'t>(sender: &Sender<'t>) -> Result<RxState<'t>, AllocError>
    ensures state { IfOk result (IsRxState sender.now.link []) }
    ensures room { IfOk result (λ state. state.count ≤ 2 ^ 64 - 2) }
{
    laws::nothing_is_open();
    sender.is_sound();
    let receiver = sender.receiver_as()?;
    Ok(RxState {
        receiver,
        outcome: Outcome::Open,
        count: 0,
    })
}

// Receives a transmission.
fn receive_more(state: &mut RxState, tx: &Tx, arrival: &Marks) -> Result<(), AllocError>
    requires room { state.old.count ≤ 2 ^ 64 - 2 }
    requires accepted { IsAccepted state.old.receiver.link (reception_of tx.now arrival.now) }
    ensures { OnOk result ((link : Link) (list : List Reception) → IsRxState link list state.old
        → IsRxState link (list ++ reception_of tx.now arrival.now ∷ []) state.new) }
{
    let outcome = receive(&mut state.receiver, tx, arrival)?;
    state.outcome = outcome;
    state.count += 1;
    Ok(())
}

/// Returns how many code blocks have an unknown position below K'.
#[tactic(auto, using(nr_drawing::proofs::SideFacts::counted_more), unfolding(crate::specs::RunLines::unfixed_blocks))]
pub fn unfixed(receiver: &Receiver<'_, Unrecorded>) -> u32
    ensures value { result ≡ unfixed_blocks receiver.now.link receiver.now.heard }
    ensures few { result < 2 ^ 32 }
{
    let blocks = receiver.plan().c;
    let mut count = 0;
    for r in 0..blocks {
        if receiver.left(r) > 0 {
            count += 1;
        }
    }
    count
}

/// Frees the receiver of a slot, unless a later transmission continues its round.
pub fn close(goes_on: bool, slot: &mut Slot)
    ensures { (link : Link) (list : List Reception) → HoldsSlot true link list slot.old
        → HoldsSlot goes_on link list slot.new }
{
    if !goes_on {
        slot.summary = slot.state.take().map(summary_of);
    }
}

// What is kept of a state.
fn summary_of(state: RxState) -> RxSummary
    ensures { (link : Link) (list : List Reception) → IsRxState link list state.entry
        → IsSummary link list result }
{
    let failed = unfixed(&state.receiver);
    RxSummary {
        outcome: state.outcome,
        count: state.count,
        failed,
    }
}
