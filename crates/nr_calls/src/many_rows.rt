//! Receiving the rows of several transport blocks, each by a receiver that is put back to one that is made once.

ghost use Rattle.std.specs.Prelude.{◌≡◌, ◌*◌, [], length, true, IfOk, OnOk};
ghost use Rattle.nr_refusal.specs.Refusal.{Gives};
ghost use Rattle.nr_blockdesk.specs.Heard.{IsRecordOf};
ghost use Rattle.nr_blockdesk.specs.Link.{IsLink};
ghost use Rattle.nr_blockdesk.specs.Receiving.{RefusesAs};
ghost use Rattle.nr_calls.specs.inside.Words.{FillEach, HasNone, IsAdded, found_of_each};
ghost use Rattle.nr_calls.specs.Many.{each_said, first_rows, is_room_for, room_of_each};
ghost use Rattle.nr_calls.specs.Receiving.{heard_said};

use crate::crossing::NrTx;
use crate::fault::Fault;
use crate::findings::{Found, Room};
use crate::many::{ManyFound, ManyRoom};
use crate::marks::no_marks;
use crate::receiving::{hear_all, receiver_again, receiver_over};
use nr_bitvec::Marks;
use nr_blockdesk::{Link, Receiver, Unrecorded};
use std::alloc::Global;
use std::mem::replace;

// The received places of several blocks, in a row of so many for each, and the room for what is found.
#[derive(Clone, Copy)]
pub(crate) struct Rows<'r> {
    pub(crate) room: ManyRoom,
    pub(crate) places: usize,
    pub(crate) octets: &'r [u8],
}

// The lists that each block's receiver fills anew.
#[derive(Drop)]
pub(crate) struct Lists {
    marks: Marks,
    found: Found,
}

impl Lists {
    // They are empty, and have no memory yet.
    fn none(alloc: Global) -> Lists {
        Lists {
            marks: no_marks(alloc),
            found: Found::none(alloc),
        }
    }
}

// What is found of each row over a link. All blocks begin alike, so the receiver of each is put back to one that is made once.
pub(crate) fn receive_rows(
    alloc: Global,
    link: Link<'_>,
    txs: &[NrTx],
    rows: Rows<'_>,
    each: Room,
) -> Result<ManyFound, Fault>
    requires each { each ≡ room_of_each link.plan.c link.a txs.now }
    requires fits { is_room_for rows.room.count each rows.room.all ≡ true }
    requires whole { length rows.octets.now ≡ rows.room.count * rows.places }
    ensures said { Gives Fault.Memory found_of_each result (each_said (heard_said link.entry [] txs.now)
        (first_rows rows.entry.places rows.entry.room.count rows.entry.octets.now)) }
    ensures each { IfOk result (λ many. many.each ≡ each) }
    ensures room { IfOk result (FillEach rows.entry.room.all) }
{
    let receiver = receiver_over(alloc, link.again())?;
    let first = receiver_over(alloc, link)?;
    hear_many(alloc, receiver, &first, txs, rows, each)
}

// What is found of each row by a receiver that is put back to the first before each. It stands apart from what makes the
// receivers, and `hear_rows` apart from it, so that a refusal has few values to drop.
fn hear_many<'t>(
    alloc: Global,
    receiver: Receiver<'t, Unrecorded>,
    first: &Receiver<'t, Unrecorded>,
    txs: &[NrTx],
    rows: Rows<'_>,
    each: Room,
) -> Result<ManyFound, Fault>
    requires same { receiver.link ≡ first.now.link }
    requires sound { IsLink first.now.link }
    requires empty { IsRecordOf first.now.link [] first.now.heard }
    requires each { each ≡ room_of_each first.now.link.plan.c first.now.link.a txs.now }
    requires fits { is_room_for rows.room.count each rows.room.all ≡ true }
    requires whole { length rows.octets.now ≡ rows.room.count * rows.places }
    ensures said { Gives Fault.Memory found_of_each result (each_said (heard_said first.now.link [] txs.now)
        (first_rows rows.entry.places rows.entry.room.count rows.entry.octets.now)) }
    ensures each { IfOk result (λ many. many.each ≡ each) }
    ensures room { IfOk result (FillEach rows.entry.room.all) }
{
    let mut many = ManyFound::with_room(alloc, each, rows.room)?;
    hear_rows(
        alloc,
        receiver,
        first,
        txs,
        rows,
        &mut Lists::none(alloc),
        &mut many,
    )?;
    Ok(many)
}

// Adds what is found of each row to nothing.
fn hear_rows<'t>(
    alloc: Global,
    receiver: Receiver<'t, Unrecorded>,
    first: &Receiver<'t, Unrecorded>,
    txs: &[NrTx],
    rows: Rows<'_>,
    lists: &mut Lists,
    many: &mut ManyFound,
) -> Result<(), Fault>
    requires same { receiver.link ≡ first.now.link }
    requires sound { IsLink first.now.link }
    requires empty { IsRecordOf first.now.link [] first.now.heard }
    requires each { many.old.each ≡ room_of_each first.now.link.plan.c first.now.link.a txs.now }
    requires fits { is_room_for rows.room.count many.old.each rows.room.all ≡ true }
    requires whole { length rows.octets.now ≡ rows.room.count * rows.places }
    requires none { HasNone many.old }
    ensures said { Gives Fault.Memory (λ done. found_of_each many.new) result
        (each_said (heard_said first.now.link [] txs.now)
        (first_rows rows.entry.places rows.entry.room.count rows.entry.octets.now)) }
    ensures each { many.new.each ≡ many.old.each }
    ensures room { OnOk result (FillEach rows.entry.room.all many.new) }
{
    let size = rows.places;
    let mut receiver = receiver;
    for k in 0..rows.room.count {
        let row = &rows.octets[k * size..k * size + size];
        receiver = receiver_again(receiver, first)?;
        hear_row(alloc, &mut receiver, txs, row, lists, many)?;
    }
    Ok(())
}

// Adds what is found of a row by a receiver that has received nothing yet. It takes the memory of what was found before.
fn hear_row(
    alloc: Global,
    receiver: &mut Receiver<'_, Unrecorded>,
    txs: &[NrTx],
    row: &[u8],
    lists: &mut Lists,
    many: &mut ManyFound,
) -> Result<(), Fault>
    requires sound { IsLink receiver.old.link }
    requires empty { IsRecordOf receiver.old.link [] receiver.old.heard }
    ensures link { receiver.new.link ≡ receiver.old.link }
    ensures refused { RefusesAs Fault.Memory result (heard_said receiver.old.link [] txs.now row.now) }
    ensures each { many.new.each ≡ many.old.each }
    ensures added { OnOk result (IsAdded (heard_said receiver.old.link [] txs.now row.now)
        (room_of_each receiver.old.link.plan.c receiver.old.link.a txs.now) many.old many.new) }
{
    let Lists { marks, found } = lists;
    let before = replace(found, Found::none(alloc));
    *found = hear_all(alloc, receiver, txs, row, marks, before)?;
    many.add(found)?;
    Ok(())
}
