//! A receiver whose state is in its caller's memory, and which receives one transmission at a call.

ghost use Rattle.std.specs.Prelude.{◌≡◌, ℕ, ◌++◌, [], Err, flat_map, length, map, false, true, IfErr, IfOk};
ghost use Rattle.nr_refusal.specs.Refusal.{Gives, or_fault, with_fault};
ghost use Rattle.nr_blockdesk.specs.{Explains.reception, Explains.reception_said, Receiving.AreStoresFor, Receiving.RefusesAs};
ghost use Rattle.nr_calls.specs.Keeping.{IsKept, arriving_by, arriving_said, kept_places, kept_room, room_said};
ghost use Rattle.nr_calls.specs.{Crossing.settings_in, Crossing.tx_of, Entries.are_placed, Keeping.KeptIsOnly};
ghost use Rattle.nr_calls.specs.{Keeping.start_by, Keeping.start_said, Rooms.digest_of};
ghost use Rattle.nr_calls.specs.inside.Keepings.{arriving_over};
ghost use Rattle.nr_calls.specs.inside.Words.{IsTaken, TakesSaid, arriving, taken_room};
ghost use Rattle.nr_calls.specs.{Receiving.heard_octet, Rooms.record_octets, Rooms.records_in, Rooms.room_header};
ghost use Rattle.nr_calls.specs.{Rooms.room_length, Rooms.room_of};
ghost use Rattle.nr_blockdesk.specs.Heard.{heard_record};
ghost use Rattle.nr_calls.specs.Statuses.{HasValue, Returns, memory_anywhere, no_memory};

use crate::crossing::{NrSettings, NrTx};
use crate::entries::{NrEntry, table_by};
use crate::fault::Fault;
use crate::laws;
use crate::linking::{LinkParams, link_on};
use crate::plan::plan_on;
use crate::receiving::{left_of, receiver_over};
use crate::resuming::resumed;
use crate::rooms::{digest_of, octets_of, positions, room_length, room_octets, stores_in};
use crate::table::graph_number;
use crate::taken::{KeptRoom, Taken};
use nr_blockdesk::{Link, Receiver, Tx, Unrecorded};
use nr_harqbuf::Store;
use nr_shifttable::Table;
use std::alloc::{AllocError, Global};

// The version of the room's layout.
const VERSION: u32 = 2;

/// Writes to `out` how many octets the state of a receiver has. `nr_c` exports this call and says what each status
/// means.
pub fn nr_receiver_size(rate2048: u32, a: u32, out: &mut usize) -> u32
    ensures { Returns no_memory result out.old out.new HasValue (room_said rate2048 a) }
{
    match plan_on(rate2048, a) {
        Ok(plan) => {
            *out = room_length(&plan);
            0
        }
        Err(fault) => fault.status(),
    }
}

/// Makes `room` the state of a receiver that has received nothing. `nr_c` exports this call and says what each status
/// means.
pub fn nr_receiver_start(
    alloc: Global,
    table: &[NrEntry],
    settings: &NrSettings,
    a: u32,
    room: &mut [u8],
) -> u32
    ensures said { Returns memory_anywhere result room.old room.new HasValue
        (start_said table.now (settings_in settings.now) a (length room.old)) }
    ensures placed { are_placed table.now ≡ false → result ≡ 31 }
{
    let params = LinkParams::of(table, settings, a);
    match started(alloc, params, room.len()) {
        Ok(octets) => {
            room.copy_from_slice(&octets);
            0
        }
        Err(fault) => fault.status(),
    }
}

// The room of a receiver that has received nothing, by a shift table's entries.
#[tactic(auto, unfolding(crate::specs::Keeping::start_said))]
fn started(alloc: Global, params: LinkParams<'_>, room: usize) -> Result<Vec<u8>, Fault>
    ensures said { Gives Fault.Memory (λ octets. octets.items) result
        (start_said params.entry.entries.now params.entry.settings params.entry.a room) }
    ensures room { IfOk result (λ octets. length octets.items ≡ room) }
    ensures placed { are_placed params.entry.entries.now ≡ false → result ≡ Err Fault.Entries }
{
    let table = table_by(alloc, params.entries)?;
    started_by(alloc, &table, params, room)
}

// The room by a shift table that these entries make.
#[tactic(auto, unfolding(crate::specs::Keeping::start_by))]
fn started_by(
    alloc: Global,
    table: &Table,
    params: LinkParams<'_>,
    room: usize,
) -> Result<Vec<u8>, Fault>
    ensures said { Gives Fault.Memory (λ octets. octets.items) result (start_by table.now
        (digest_of params.entry.entries.now) params.entry.settings params.entry.a room) }
    ensures room { IfOk result (λ octets. length octets.items ≡ room) }
{
    let digest = digest_of(params.entries);
    let plan = plan_on(params.settings.rate2048, params.a)?;
    if room != room_length(&plan) {
        return Err(Fault::Room);
    }
    let link = link_on(table, params.settings, params.a)?;
    start_over(alloc, link, digest)
}

// The room over a link. Memory alone refuses it. It stands apart from what judges the call, so that a refusal has few values
// to drop.
fn start_over(alloc: Global, link: Link<'_>, digest: u32) -> Result<Vec<u8>, Fault>
    ensures octets { IfOk result (λ octets. octets.items
        ≡ room_of digest link.entry (heard_record link.entry [])) }
    ensures long { IfOk result (λ octets. length octets.items
        ≡ room_length link.entry.graph link.entry.plan) }
    ensures err { IfErr result (λ fault. fault ≡ Fault.Memory) }
{
    let header = header_on(alloc, &link, digest)?;
    let receiver = receiver_over(alloc, link)?;
    room_on(header, &receiver)
}

// The octets of a receiver's room, which begins with these. Memory alone refuses it.
fn room_on(header: Vec<u8>, receiver: &Receiver<'_, Unrecorded>) -> Result<Vec<u8>, Fault>
    ensures octets { IfOk result (λ octets. octets.items
        ≡ header.items ++ flat_map record_octets receiver.now.heard) }
    ensures fit { AreStoresFor receiver.now.link receiver.now.heard }
    ensures err { IfErr result (λ fault. fault ≡ Fault.Memory) }
{
    let octets = room_octets(header, receiver.stores())?;
    Ok(octets)
}

/// Decodes a transport block after one more transmission, by a receiver whose state is in `room`. `nr_c` exports this
/// call and says what each status means.
pub fn nr_receiver_take(
    alloc: Global,
    table: &[NrEntry],
    settings: &NrSettings,
    a: u32,
    room: &mut [u8],
    tx: &NrTx,
    heard: &[u8],
    outcome: &mut u32,
    left: &mut [u32],
    block: &mut [u8],
) -> u32
    ensures said { Returns memory_anywhere result (kept_places room.old outcome.old left.old block.old)
        (kept_places room.new outcome.new left.new block.new) (IsKept block.old)
        (arriving_said table.now (settings_in settings.now) a room.old
        (kept_room (kept_places room.old outcome.old left.old block.old)) (tx_of tx.now) heard.now) }
    ensures placed { are_placed table.now ≡ false → result ≡ 31 }
{
    let places = KeptRoom {
        room: room.len(),
        left: left.len(),
        block: block.len(),
    };
    let params = LinkParams::of(table, settings, a);
    match take_up(alloc, params, room, places, &tx.tx(), heard) {
        Ok(taken) => {
            taken.write(room, outcome, left, block);
            0
        }
        Err(fault) => fault.status(),
    }
}

// What a receiver has after one more transmission, by a shift table's entries.
#[tactic(auto, unfolding(crate::specs::Keeping::arriving_said))]
fn take_up(
    alloc: Global,
    params: LinkParams<'_>,
    room: &[u8],
    places: KeptRoom,
    tx: &Tx,
    octets: &[u8],
) -> Result<Taken, Fault>
    ensures said { TakesSaid result (arriving_said params.entry.entries.now
        params.entry.settings params.entry.a room.now places tx.now octets.now) }
    ensures room { IfOk result (λ taken. taken_room places taken ≡ true) }
    ensures placed { are_placed params.entry.entries.now ≡ false → result ≡ Err Fault.Entries }
{
    let table = table_by(alloc, params.entries)?;
    take_up_by(alloc, &table, params, room, places, tx, octets)
}

// What it has by a shift table that these entries make. All is made before anything is written, so that a refusal writes
// nothing.
#[tactic(auto, unfolding(crate::specs::Keeping::arriving_by))]
fn take_up_by(
    alloc: Global,
    table: &Table,
    params: LinkParams<'_>,
    room: &[u8],
    places: KeptRoom,
    tx: &Tx,
    octets: &[u8],
) -> Result<Taken, Fault>
    ensures said { TakesSaid result (arriving_by table.now (digest_of params.entry.entries.now)
        params.entry.settings params.entry.a room.now places tx.now octets.now) }
    ensures room { IfOk result (λ taken. taken_room places taken ≡ true) }
{
    let digest = digest_of(params.entries);
    let plan = plan_on(params.settings.rate2048, params.a)?;
    if !places.is_for(&plan, params.a) {
        return Err(Fault::Room);
    }
    let link = link_on(table, params.settings, params.a)?;
    take_over(alloc, link, digest, room, tx, octets)
}

// What a receiver over a link has after it. Like `start_over`, it stands apart from what judges the call.
fn take_over(
    alloc: Global,
    link: Link<'_>,
    digest: u32,
    room: &[u8],
    tx: &Tx,
    octets: &[u8],
) -> Result<Taken, Fault>
    ensures { TakesSaid result (arriving_over link.entry digest room.now tx.now octets.now) }
{
    let header = header_on(alloc, &link, digest)?;
    let stores = stores_on(alloc, &link, &header, room)?;
    take_on(alloc, link, stores, header, tx, octets)
}

// What a receiver that goes on from some stores has after one more transmission. Its room begins with these octets.
fn take_on(
    alloc: Global,
    link: Link<'_>,
    stores: Vec<Store>,
    header: Vec<u8>,
    tx: &Tx,
    octets: &[u8],
) -> Result<Taken, Fault>
    requires { AreStoresFor link stores.items }
    ensures refused { RefusesAs Fault.Memory result (with_fault Fault.Desk
        (reception_said link.entry (reception tx.now (map heard_octet octets.now)))) }
    ensures taken { IfOk result (λ taken. (digest : ℕ) → header.items ≡ room_header digest link.entry
        → IsTaken (arriving link.entry digest stores.items tx.now octets.now) taken) }
{
    link.is_sound();
    let (receiver, last) = resumed(alloc, link, stores, tx, octets)?;
    let left = left_of(alloc, &receiver)?;
    let room = room_on(header, &receiver)?;
    Ok(Taken { room, left, last })
}

// The octets that the room of a receiver begins with, with memory for all of it.
fn header_on(alloc: Global, link: &Link<'_>, digest: u32) -> Result<Vec<u8>, AllocError>
    ensures { IfOk result (λ octets. octets.items ≡ room_header digest link.now) }
{
    let plan = link.plan();
    let numbers = [
        VERSION,
        link.a(),
        graph_number(plan.graph),
        plan.z,
        plan.kdash,
        plan.c,
        link.buffer().ncb(),
        digest,
    ];
    octets_of(alloc, &numbers, room_length(plan))
}

// The stores of the records that a room has, if it begins so.
fn stores_on(
    alloc: Global,
    link: &Link<'_>,
    header: &[u8],
    room: &[u8],
) -> Result<Vec<Store>, Fault>
    ensures { (digest : ℕ) → header.now ≡ room_header digest link.now
        → Gives Fault.Memory (λ stores. stores.items) result
        (or_fault Fault.State (records_in digest link.now room.now)) }
{
    if !room.starts_with(header) {
        return Err(Fault::State);
    }
    let (_, records) = room.split_at(header.len());
    let plan = link.plan();
    stores_in(alloc, plan.c, positions(plan), records)
}

/// Lemma: what `nr_receiver_take` writes is a function of its arguments and of the state.
pub fn kept_is_only()
    ensures { KeptIsOnly }
{
    laws::decided_is_only();
}
