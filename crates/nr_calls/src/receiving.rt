//! Receiving a transport block over its transmissions.

ghost use Rattle.std.specs.Prelude.{◌≡◌, ◌++◌, ◌∷◌, [], Err, List, length, map, true, false, IfErr, IfOk};
ghost use Rattle.nr_refusal.specs.Refusal.{Gives, with_fault};
ghost use Rattle.nr_blockdesk.specs.Explains.{Reception, reception, reception_said};
ghost use Rattle.nr_blockdesk.specs.Heard.{IsRecordOf, heard_more};
ghost use Rattle.nr_blockdesk.specs.Link.{IsLink};
ghost use Rattle.nr_blockdesk.specs.Marks.{reception_by};
ghost use Rattle.nr_blockdesk.specs.Outcome.{IsDecided};
ghost use Rattle.nr_blockdesk.specs.Receiving.{RefusesAs, verdict};
ghost use Rattle.nr_calls.specs.Crossing.{settings_in};
ghost use Rattle.nr_calls.specs.Entries.{are_placed};
ghost use Rattle.nr_calls.specs.Findings.{AreWritten, lefts, outcome_number, outcomes_of, places, room_in};
ghost use Rattle.nr_calls.specs.inside.Words.{IsLastBlock, findings_of, has_room, one_more_said};
ghost use Rattle.nr_calls.specs.Receiving.{heard_octet, heard_said, receive_into_said};
ghost use Rattle.nr_calls.specs.Statuses.{Returns, memory_anywhere};

use crate::crossing::{NrSettings, NrTx};
use crate::entries::{NrEntry, table_by};
use crate::fault::Fault;
use crate::findings::{Found, Room, outcome_number};
use crate::laws;
use crate::linking::{LinkParams, judge_heard, link_on};
use crate::marks::{mark, no_marks};
use crate::plan::plan_on;
use nr_bitvec::Marks;
use nr_blockdesk::{DeskFault, Link, Outcome, Receiver, Tx, Unrecorded};
use std::alloc::{AllocError, Global};

/// Decodes a transport block after each of the transmissions `txs` (TS 38.212, 5.4.2 and 5.5). `nr_c` exports this call
/// and says what each status means.
pub fn nr_receive(
    alloc: Global,
    table: &[NrEntry],
    settings: &NrSettings,
    a: u32,
    txs: &[NrTx],
    heard: &[u8],
    outcomes: &mut [u32],
    left: &mut [u32],
    block: &mut [u8],
) -> u32
    ensures said { Returns memory_anywhere result (places outcomes.old left.old block.old)
        (places outcomes.new left.new block.new) (AreWritten block.old)
        (receive_into_said table.now (settings_in settings.now) a txs.now heard.now
        (room_in (places outcomes.old left.old block.old))) }
    ensures placed { are_placed table.now ≡ false → result ≡ 31 }
{
    let room = Room {
        outcomes: outcomes.len(),
        left: left.len(),
        block: block.len(),
    };
    let params = LinkParams::of(table, settings, a);
    match receive(alloc, params, txs, heard, room) {
        Ok(found) => {
            found.write(outcomes, left, block);
            0
        }
        Err(fault) => fault.status(),
    }
}

// What is found, for so much room. The room is judged before the receiver allocates anything.
#[tactic(auto, unfolding(crate::specs::Receiving::receive_into_said, crate::specs::Receiving::receive_by))]
fn receive(
    alloc: Global,
    params: LinkParams<'_>,
    txs: &[NrTx],
    octets: &[u8],
    room: Room,
) -> Result<Found, Fault>
    ensures said { Gives Fault.Memory findings_of result (receive_into_said params.entry.entries.now
        params.entry.settings params.entry.a txs.now octets.now room) }
    ensures room { IfOk result (λ found. has_room room (findings_of found) ≡ true) }
    ensures placed { are_placed params.entry.entries.now ≡ false → result ≡ Err Fault.Entries }
{
    let table = table_by(alloc, params.entries)?;
    let plan = plan_on(params.settings.rate2048, params.a)?;
    if !room.is_for(plan.c, params.a, txs.len()) {
        return Err(Fault::Room);
    }
    let link = link_on(&table, params.settings, params.a)?;
    receive_over(alloc, link, txs, octets)
}

// What is found over a link.
pub(crate) fn receive_over(
    alloc: Global,
    link: Link<'_>,
    txs: &[NrTx],
    octets: &[u8],
) -> Result<Found, Fault>
    ensures said { Gives Fault.Memory findings_of result (heard_said link.entry [] txs.now octets.now) }
    ensures outcomes { IfOk result (λ found. length found.outcomes.items ≡ length txs.now) }
    ensures left { IfOk result (λ found. length found.left.items ≡ link.entry.plan.c) }
    ensures block { IfOk result (λ found. IsLastBlock link.entry.a (verdict found.last)) }
{
    let mut receiver = receiver_over(alloc, link)?;
    let found = Found::none(alloc);
    hear_all(
        alloc,
        &mut receiver,
        txs,
        octets,
        &mut no_marks(alloc),
        found,
    )
}

// A receiver that is put back to another one over its link, which has received nothing yet. Memory alone refuses it.
pub(crate) fn receiver_again<'t>(
    receiver: Receiver<'t, Unrecorded>,
    first: &Receiver<'t, Unrecorded>,
) -> Result<Receiver<'t, Unrecorded>, Fault>
    requires { receiver.link ≡ first.now.link }
    ensures same { IfOk result (λ receiver. receiver ≡ first.now) }
    ensures err { IfErr result (λ fault. fault ≡ Fault.Memory) }
{
    match receiver.restored(first) {
        Ok(receiver) => Ok(receiver),
        Err(_) => Err(Fault::Memory),
    }
}

// The receiver over a link, which has received nothing yet. Memory alone refuses it.
pub(crate) fn receiver_over<'t>(
    alloc: Global,
    link: Link<'t>,
) -> Result<Receiver<'t, Unrecorded>, Fault>
    ensures link { IfOk result (λ receiver. receiver.link ≡ link.entry) }
    ensures sound { IfOk result (λ receiver. IsLink receiver.link) }
    ensures empty { IfOk result (λ receiver. IsRecordOf receiver.link [] receiver.heard) }
    ensures err { IfErr result (λ fault. fault ≡ Fault.Memory) }
{
    link.is_sound();
    match Receiver::over(alloc, link) {
        Ok(receiver) => Ok(receiver),
        Err(_) => Err(Fault::Memory),
    }
}

// What is found over some transmissions by a receiver that has received nothing yet. The places are those of one
// transmission after the other, and each transmission's are marked in the same memory. The lists are those of what was
// found before, which is lost.
pub(crate) fn hear_all(
    alloc: Global,
    receiver: &mut Receiver<'_, Unrecorded>,
    txs: &[NrTx],
    octets: &[u8],
    marks: &mut Marks,
    before: Found,
) -> Result<Found, Fault>
    requires sound { IsLink receiver.old.link }
    requires empty { IsRecordOf receiver.old.link [] receiver.old.heard }
    ensures link { receiver.new.link ≡ receiver.old.link }
    ensures said { Gives Fault.Memory findings_of result
        (heard_said receiver.old.link [] txs.now octets.now) }
    ensures outcomes { IfOk result (λ found. length found.outcomes.items ≡ length txs.now) }
    ensures left { IfOk result (λ found. length found.left.items ≡ receiver.old.link.plan.c) }
    ensures block { IfOk result (λ found. IsLastBlock receiver.old.link.a (verdict found.last)) }
{
    laws::nothing_is_open();
    laws::delivered_is_only();
    let Found {
        mut outcomes,
        left,
        ..
    } = before;
    outcomes.clear();
    let mut last = Outcome::Open;
    let (mut later, mut places) = (txs, octets);
    while let Some((tx, rest)) = later.split_first() {
        let g = tx.g as usize;
        if places.len() < g {
            return Err(Fault::Desk(DeskFault::Length));
        }
        let (heard, after) = places.split_at(g);
        last = hear_next(alloc, receiver, &tx.tx(), heard, marks, &mut outcomes)?;
        later = rest;
        places = after;
    }
    if !places.is_empty() {
        return Err(Fault::Desk(DeskFault::Length));
    }
    let left = left_in(left, receiver)?;
    Ok(Found {
        outcomes,
        left,
        last,
    })
}

// How many positions below K' of each code block are not fixed.
pub(crate) fn left_of(
    alloc: Global,
    receiver: &Receiver<'_, Unrecorded>,
) -> Result<Vec<u32>, AllocError>
    ensures { IfOk result
        (λ left. left.items ≡ lefts receiver.now.link receiver.now.heard) }
{
    left_in(Vec::new(alloc), receiver)
}

// The same in a list whose items are lost.
fn left_in(mut left: Vec<u32>, receiver: &Receiver<'_, Unrecorded>) -> Result<Vec<u32>, AllocError>
    ensures { IfOk result
        (λ left. left.items ≡ lefts receiver.now.link receiver.now.heard) }
{
    let count = block_count(receiver);
    left.clear();
    left.reserve(count as usize)?;
    for r in 0..count {
        left.push_reserved(receiver.left(r));
    }
    Ok(left)
}

// C, the number of code blocks.
fn block_count(receiver: &Receiver<'_, Unrecorded>) -> u32
    ensures { result ≡ receiver.now.link.plan.c }
{
    receiver.plan().c
}

// The outcome after one more transmission, whose number goes to the end of those before it.
fn hear_next(
    alloc: Global,
    receiver: &mut Receiver<'_, Unrecorded>,
    tx: &Tx,
    octets: &[u8],
    marks: &mut Marks,
    outcomes: &mut Vec<u32>,
) -> Result<Outcome, Fault>
    ensures link { receiver.new.link ≡ receiver.old.link }
    ensures refused { RefusesAs Fault.Memory result (with_fault Fault.Desk
        (reception_said receiver.old.link (reception tx.now (map heard_octet octets.now)))) }
    ensures heard { IfOk result (λ outcome. (list : List Reception)
        → IsRecordOf receiver.old.link list receiver.old.heard
        → IsRecordOf receiver.old.link
        (list ++ reception tx.now (map heard_octet octets.now) ∷ []) receiver.new.heard) }
    ensures outcome { (list : List Reception) → IsRecordOf receiver.old.link list receiver.old.heard
        → Gives Fault.Memory verdict result (one_more_said receiver.old.link list
        (reception tx.now (map heard_octet octets.now))) }
    ensures outcomes { IfOk result (λ outcome. (list : List Reception)
        → IsRecordOf receiver.old.link list receiver.old.heard
        → outcomes.old.items ≡ outcomes_of receiver.old.link list
        → outcomes.new.items ≡ outcomes_of receiver.old.link
        (list ++ reception tx.now (map heard_octet octets.now) ∷ [])) }
{
    let outcome = hear(alloc, receiver, tx, octets, marks)?;
    let noted = noted(outcomes, outcome)?;
    Ok(noted)
}

// An outcome, whose number goes to the end of those before it.
pub(crate) fn noted(outcomes: &mut Vec<u32>, outcome: Outcome) -> Result<Outcome, AllocError>
    ensures same { IfOk result (λ noted. noted ≡ outcome) }
    ensures pushed { IfOk result (λ noted. outcomes.new.items
        ≡ outcomes.old.items ++ outcome_number (verdict outcome) ∷ []) }
{
    match outcomes.push(outcome_number(&outcome)) {
        Ok(()) => Ok(outcome),
        Err(_) => Err(AllocError),
    }
}

// The outcome after one more transmission, whose places are marked in `marks`.
fn hear(
    alloc: Global,
    receiver: &mut Receiver<'_, Unrecorded>,
    tx: &Tx,
    octets: &[u8],
    marks: &mut Marks,
) -> Result<Outcome, Fault>
    ensures link { receiver.new.link ≡ receiver.old.link }
    ensures refused { RefusesAs Fault.Memory result (with_fault Fault.Desk
        (reception_said receiver.old.link (reception tx.now (map heard_octet octets.now)))) }
    ensures heard { IfOk result (λ outcome. (list : List Reception)
        → IsRecordOf receiver.old.link list receiver.old.heard
        → IsRecordOf receiver.old.link
        (list ++ reception tx.now (map heard_octet octets.now) ∷ []) receiver.new.heard) }
    ensures kept { IfOk result (λ outcome. receiver.new.heard ≡ heard_more receiver.old.link
        receiver.old.heard (reception tx.now (map heard_octet octets.now))) }
    ensures decided { IfOk result (λ outcome. IsDecided receiver.old.link receiver.new.heard
        (verdict outcome)) }
    ensures outcome { (list : List Reception) → IsRecordOf receiver.old.link list receiver.old.heard
        → Gives Fault.Memory verdict result (one_more_said receiver.old.link list
        (reception tx.now (map heard_octet octets.now))) }
{
    judge_heard(receiver.link(), tx, octets.len())?;
    mark(marks, alloc, octets)?;
    take_marks(receiver, tx, marks)
}

// The outcome after what marks say was received of one more transmission.
pub(crate) fn take_marks(
    receiver: &mut Receiver<'_, Unrecorded>,
    tx: &Tx,
    marks: &Marks,
) -> Result<Outcome, Fault>
    ensures link { receiver.new.link ≡ receiver.old.link }
    ensures refused { RefusesAs Fault.Memory result (with_fault Fault.Desk
        (reception_said receiver.old.link (reception_by tx.now marks.now.heard.items marks.now.value.items))) }
    ensures heard { IfOk result (λ outcome. (list : List Reception)
        → IsRecordOf receiver.old.link list receiver.old.heard
        → IsRecordOf receiver.old.link
        (list ++ reception_by tx.now marks.now.heard.items marks.now.value.items ∷ []) receiver.new.heard) }
    ensures kept { IfOk result (λ outcome. receiver.new.heard ≡ heard_more receiver.old.link
        receiver.old.heard (reception_by tx.now marks.now.heard.items marks.now.value.items)) }
    ensures decided { IfOk result (λ outcome. IsDecided receiver.old.link receiver.new.heard
        (verdict outcome)) }
    ensures outcome { (list : List Reception) → IsRecordOf receiver.old.link list receiver.old.heard
        → Gives Fault.Memory verdict result (one_more_said receiver.old.link list
        (reception_by tx.now marks.now.heard.items marks.now.value.items)) }
{
    match receiver.take_marks(tx, marks) {
        Ok(outcome) => Ok(outcome),
        Err(DeskFault::Memory) => Err(Fault::Memory),
        Err(fault) => Err(Fault::Desk(fault)),
    }
}
