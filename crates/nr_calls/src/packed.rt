//! Sending and receiving with eight bits or places to an octet, the first most significant.

ghost use Rattle.std.specs.Prelude.{◌≡◌, ◌++◌, ◌∷◌, ◌≤◌, [], Err, List, false, length, map, take, true, IfOk};
ghost use Rattle.nr_bitvec.specs.BitList.{bits_of};
ghost use Rattle.nr_refusal.specs.Refusal.{Gives, with_fault};
ghost use Rattle.nr_blockdesk.specs.Explains.{Reception, reception, reception_said};
ghost use Rattle.nr_blockdesk.specs.Heard.{IsRecordOf};
ghost use Rattle.nr_blockdesk.specs.Link.{IsLink};
ghost use Rattle.nr_blockdesk.specs.Marks.{heards};
ghost use Rattle.nr_blockdesk.specs.Receiving.{RefusesAs, verdict};
ghost use Rattle.nr_calls.specs.Crossing.{settings_in, tx_of};
ghost use Rattle.nr_calls.specs.Entries.{are_placed};
ghost use Rattle.nr_calls.specs.Findings.{AreWritten, outcomes_of, places, room_in};
ghost use Rattle.nr_calls.specs.inside.Words.{IsLastBlock, findings_of, has_room, one_more_said};
ghost use Rattle.nr_calls.specs.Packed.{octet_count, send_packed_said, unpacked, unpacked_part};
ghost use Rattle.nr_calls.specs.Receiving.{heard_octet, heard_said, receive_into_said};
ghost use Rattle.nr_calls.specs.Statuses.{HasValue, Returns, memory_anywhere};

use crate::crossing::{NrSettings, NrTx};
use crate::entries::{NrEntry, table_by};
use crate::fault::Fault;
use crate::findings::{Found, Room};
use crate::laws;
use crate::linking::{LinkParams, judge_heard, link_on};
use crate::plan::plan_on;
use crate::receiving::{left_of, noted, receiver_over, take_marks};
use crate::sending::send;
use nr_bitvec::{Bits, Marks};
use nr_blockdesk::{DeskFault, Link, Outcome, Receiver, Settings, Tx, Unrecorded};
use std::alloc::{AllocError, Global};

/// Writes the bits that a transmission sends of a transport block, eight to an octet of `out`. `nr_c` exports this call
/// and says what each status means.
pub fn nr_send_packed(
    alloc: Global,
    table: &[NrEntry],
    settings: &NrSettings,
    block: &[u8],
    tx: &NrTx,
    out: &mut [u8],
) -> u32
    ensures said { Returns memory_anywhere result out.old out.new HasValue (send_packed_said table.now
        (settings_in settings.now) block.now (tx_of tx.now) (length out.old)) }
    ensures placed { are_placed table.now ≡ false → result ≡ 31 }
{
    match send_packed(
        alloc,
        table,
        settings.settings(),
        block,
        &tx.tx(),
        out.len(),
    ) {
        Ok(octets) => {
            out.copy_from_slice(&octets);
            0
        }
        Err(fault) => fault.status(),
    }
}

// The octets of the bits, for a room of so many.
fn send_packed(
    alloc: Global,
    table: &[NrEntry],
    settings: Settings,
    block: &[u8],
    tx: &Tx,
    room: usize,
) -> Result<Vec<u8>, Fault>
    ensures said { Gives Fault.Memory (λ octets. octets.items) result
        (send_packed_said table.now settings block.now tx.now room) }
    ensures room { IfOk result (λ octets. length octets.items ≡ room) }
    ensures placed { are_placed table.now ≡ false → result ≡ Err Fault.Entries }
{
    let bits = send(alloc, table, settings, block, tx)?;
    if bits.len().div_ceil(8) != room {
        return Err(Fault::Room);
    }
    let octets = bits.to_bytes()?;
    Ok(octets)
}

/// Decodes a transport block after each of the transmissions `txs`, whose places have eight to an octet. `nr_c` exports
/// this call and says what each status means.
pub fn nr_receive_packed(
    alloc: Global,
    table: &[NrEntry],
    settings: &NrSettings,
    a: u32,
    txs: &[NrTx],
    bits: &[u8],
    known: &[u8],
    outcomes: &mut [u32],
    left: &mut [u32],
    block: &mut [u8],
) -> u32
    ensures said { Returns memory_anywhere result (places outcomes.old left.old block.old)
        (places outcomes.new left.new block.new) (AreWritten block.old)
        (receive_into_said table.now (settings_in settings.now) a txs.now (unpacked txs.now bits.now known.now)
        (room_in (places outcomes.old left.old block.old))) }
    ensures placed { are_placed table.now ≡ false → result ≡ 31 }
{
    let room = Room {
        outcomes: outcomes.len(),
        left: left.len(),
        block: block.len(),
    };
    let params = LinkParams::of(table, settings, a);
    match receive_packed(alloc, params, txs, bits, known, room) {
        Ok(found) => {
            found.write(outcomes, left, block);
            0
        }
        Err(fault) => fault.status(),
    }
}

// What is found, for so much room. The room is judged before the receiver allocates anything.
#[tactic(auto, unfolding(crate::specs::Receiving::receive_into_said, crate::specs::Receiving::receive_by))]
fn receive_packed(
    alloc: Global,
    params: LinkParams<'_>,
    txs: &[NrTx],
    bits: &[u8],
    known: &[u8],
    room: Room,
) -> Result<Found, Fault>
    ensures said { Gives Fault.Memory findings_of result (receive_into_said params.entry.entries.now
        params.entry.settings params.entry.a txs.now (unpacked txs.now bits.now known.now) room) }
    ensures room { IfOk result (λ found. has_room room (findings_of found) ≡ true) }
    ensures placed { are_placed params.entry.entries.now ≡ false → result ≡ Err Fault.Entries }
{
    let table = table_by(alloc, params.entries)?;
    let plan = plan_on(params.settings.rate2048, params.a)?;
    if !room.is_for(plan.c, params.a, txs.len()) {
        return Err(Fault::Room);
    }
    let link = link_on(&table, params.settings, params.a)?;
    receive_packed_over(alloc, link, txs, bits, known)
}

// What is found over a link.
fn receive_packed_over(
    alloc: Global,
    link: Link<'_>,
    txs: &[NrTx],
    bits: &[u8],
    known: &[u8],
) -> Result<Found, Fault>
    ensures said { Gives Fault.Memory findings_of result
        (heard_said link.entry [] txs.now (unpacked txs.now bits.now known.now)) }
    ensures outcomes { IfOk result (λ found. length found.outcomes.items ≡ length txs.now) }
    ensures left { IfOk result (λ found. length found.left.items ≡ link.entry.plan.c) }
    ensures block { IfOk result (λ found. IsLastBlock link.entry.a (verdict found.last)) }
{
    let mut receiver = receiver_over(alloc, link)?;
    hear_all_packed(alloc, &mut receiver, txs, bits, known)
}

// What is found over some transmissions by a receiver that has received nothing yet. Each transmission begins with an octet
// of its own.
fn hear_all_packed(
    alloc: Global,
    receiver: &mut Receiver<'_, Unrecorded>,
    txs: &[NrTx],
    bits: &[u8],
    known: &[u8],
) -> Result<Found, Fault>
    requires sound { IsLink receiver.old.link }
    requires empty { IsRecordOf receiver.old.link [] receiver.old.heard }
    ensures link { receiver.new.link ≡ receiver.old.link }
    ensures said { Gives Fault.Memory findings_of result
        (heard_said receiver.old.link [] txs.now (unpacked txs.now bits.now known.now)) }
    ensures outcomes { IfOk result (λ found. length found.outcomes.items ≡ length txs.now) }
    ensures left { IfOk result (λ found. length found.left.items ≡ receiver.old.link.plan.c) }
    ensures block { IfOk result (λ found. IsLastBlock receiver.old.link.a (verdict found.last)) }
{
    laws::nothing_is_open();
    laws::delivered_is_only();
    let mut outcomes = Vec::new(alloc);
    let mut last = Outcome::Open;
    let (mut later, mut bits_left, mut known_left) = (txs, bits, known);
    while let Some((tx, rest)) = later.split_first() {
        let count = octet_count(tx.g);
        if bits_left.len().min(known_left.len()) < count {
            return Err(Fault::Desk(DeskFault::Length));
        }
        let (own_bits, later_bits) = bits_left.split_at(count);
        let (own_known, later_known) = known_left.split_at(count);
        last = hear_next_packed(
            alloc,
            receiver,
            &tx.tx(),
            own_bits,
            own_known,
            &mut outcomes,
        )?;
        later = rest;
        bits_left = later_bits;
        known_left = later_known;
    }
    if bits_left.len().max(known_left.len()) > 0 {
        return Err(Fault::Desk(DeskFault::Length));
    }
    let left = left_of(alloc, receiver)?;
    Ok(Found {
        outcomes,
        left,
        last,
    })
}

// How many octets have so many bits.
fn octet_count(bits: u32) -> usize
    ensures { result ≡ octet_count bits }
{
    (bits as usize).div_ceil(8)
}

// The outcome after one more transmission, whose number goes to the end of those before it.
fn hear_next_packed(
    alloc: Global,
    receiver: &mut Receiver<'_, Unrecorded>,
    tx: &Tx,
    bits: &[u8],
    known: &[u8],
    outcomes: &mut Vec<u32>,
) -> Result<Outcome, Fault>
    requires bits { length bits.now ≡ octet_count tx.now.g }
    requires known { length known.now ≡ octet_count tx.now.g }
    ensures link { receiver.new.link ≡ receiver.old.link }
    ensures refused { RefusesAs Fault.Memory result (with_fault Fault.Desk (reception_said receiver.old.link
        (reception tx.now (map heard_octet (unpacked_part tx.now.g bits.now known.now))))) }
    ensures heard { IfOk result (λ outcome. (list : List Reception)
        → IsRecordOf receiver.old.link list receiver.old.heard
        → IsRecordOf receiver.old.link
        (list ++ reception tx.now (map heard_octet (unpacked_part tx.now.g bits.now known.now)) ∷ []) receiver.new.heard) }
    ensures outcome { (list : List Reception) → IsRecordOf receiver.old.link list receiver.old.heard
        → Gives Fault.Memory verdict result (one_more_said receiver.old.link list
        (reception tx.now (map heard_octet (unpacked_part tx.now.g bits.now known.now)))) }
    ensures outcomes { IfOk result (λ outcome. (list : List Reception)
        → IsRecordOf receiver.old.link list receiver.old.heard
        → outcomes.old.items ≡ outcomes_of receiver.old.link list
        → outcomes.new.items ≡ outcomes_of receiver.old.link
        (list ++ reception tx.now (map heard_octet (unpacked_part tx.now.g bits.now known.now)) ∷ [])) }
{
    judge_heard(receiver.link(), tx, tx.g as usize)?;
    let marks = packed_marks(alloc, tx.g, bits, known)?;
    let outcome = take_marks(receiver, tx, &marks)?;
    let noted = noted(outcomes, outcome)?;
    Ok(noted)
}

// Marks of the first `g` places.
fn packed_marks(alloc: Global, g: u32, bits: &[u8], known: &[u8]) -> Result<Marks, AllocError>
    requires bits { length bits.now ≡ octet_count g }
    requires known { length known.now ≡ octet_count g }
    requires short { g ≤ 4194304 }
    ensures { IfOk result (λ marks. heards marks.heard.items marks.value.items
        ≡ map heard_octet (unpacked_part g bits.now known.now)) }
{
    let heard = first_bits(alloc, g, known)?;
    let value = first_bits(alloc, g, bits)?;
    Ok(Marks { heard, value })
}

// The first `count` bits of octets.
fn first_bits(alloc: Global, count: u32, octets: &[u8]) -> Result<Bits, AllocError>
    requires long { length octets.now ≡ octet_count count }
    requires short { count ≤ 4194304 }
    ensures { IfOk result (λ bits. bits.items ≡ take count (bits_of octets.now)) }
{
    let bits = Bits::from_bytes(alloc, octets)?;
    bits.copy_range(0, count as usize)
}
