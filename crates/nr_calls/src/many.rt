//! Receiving several transport blocks of one size over one list of transmissions, with the table read once.

ghost use Rattle.std.specs.Prelude.{◌≡◌, ◌*◌, ◌^◌, ◌<◌, ◌≤◌, ◌++◌, ◌∷◌, [], false, Err, IfOk};
ghost use Rattle.std.specs.Prelude.{length, IsTrue, MatchResult, Ok, OnOk};
ghost use Rattle.nr_refusal.specs.Refusal.{Gives};
ghost use Rattle.nr_shifttable.specs.Accepted.{IsTable};
ghost use Rattle.nr_calls.specs.Crossing.{settings_in};
ghost use Rattle.nr_calls.specs.Entries.{are_placed};
ghost use Rattle.nr_calls.specs.Findings.{places, room_in};
ghost use Rattle.nr_calls.specs.inside.Words.{FillEach, HasNone, many_findings_of};
ghost use Rattle.nr_calls.specs.Many.{AreAllWritten, is_room_for, places_sent, receive_many_by, receive_many_said};
ghost use Rattle.nr_calls.specs.Statuses.{Returns, memory_anywhere};

use crate::crossing::{NrSettings, NrTx};
use crate::entries::{NrEntry, table_by};
use crate::fault::Fault;
use crate::findings::{Found, Room, hand_up};
use crate::linking::link_on;
use crate::many_rows::{Rows, receive_rows};
use crate::plan::plan_on;
use nr_blockdesk::{DeskFault, Outcome, Settings};
use nr_shifttable::Table;
use std::alloc::{AllocError, Global};
use std::mem::replace;

// The most transmissions of a block.
pub(crate) const MOST_TRANSMISSIONS: usize = 1000;

// How many transport blocks there are, and the room for what is found of all of them.
#[derive(Clone, Copy)]
pub(crate) struct ManyRoom {
    pub(crate) count: usize,
    pub(crate) all: Room,
}

// What is found of each block, and how much room each has in its caller's places. Of each it is a row of outcomes, a row
// of how much is left, and the last outcome.
#[derive(Drop)]
pub(crate) struct ManyFound {
    pub(crate) each: Room,
    pub(crate) outcomes: Vec<u32>,
    pub(crate) left: Vec<u32>,
    pub(crate) last: Vec<Outcome>,
}

impl ManyRoom {
    // Whether there is so much room for each block.
    fn is_for(&self, each: Room) -> bool
        ensures { result ≡ is_room_for self.now.count each self.now.all }
    {
        let times = |items: usize| self.count as u128 * items as u128;
        self.all.outcomes as u128 == times(each.outcomes)
            && self.all.left as u128 == times(each.left)
            && self.all.block as u128 == times(each.block)
    }
}

/// Decodes each of `count` transport blocks after each of the transmissions `txs`, with the table read once. `nr_c`
/// exports this call and says what each status means.
pub fn nr_receive_many(
    alloc: Global,
    table: &[NrEntry],
    settings: &NrSettings,
    a: u32,
    txs: &[NrTx],
    count: usize,
    heard: &[u8],
    outcomes: &mut [u32],
    left: &mut [u32],
    blocks: &mut [u8],
) -> u32
    ensures said { Returns memory_anywhere result (places outcomes.old left.old blocks.old)
        (places outcomes.new left.new blocks.new) (AreAllWritten blocks.old)
        (receive_many_said table.now (settings_in settings.now) count a txs.now heard.now
        (room_in (places outcomes.old left.old blocks.old))) }
    ensures placed { are_placed table.now ≡ false → result ≡ 31 }
{
    let all = Room {
        outcomes: outcomes.len(),
        left: left.len(),
        block: blocks.len(),
    };
    let room = ManyRoom { count, all };
    match receive_many(alloc, table, settings.settings(), a, txs, heard, room) {
        Ok(many) => {
            many.write(outcomes, left, blocks);
            0
        }
        Err(fault) => fault.status(),
    }
}

// What is found of each block, by a shift table's entries.
#[tactic(auto, unfolding(crate::specs::Many::receive_many_said))]
fn receive_many(
    alloc: Global,
    table: &[NrEntry],
    settings: Settings,
    a: u32,
    txs: &[NrTx],
    octets: &[u8],
    room: ManyRoom,
) -> Result<ManyFound, Fault>
    ensures said { Gives Fault.Memory many_findings_of result
        (receive_many_said table.now settings room.count a txs.now octets.now room.all) }
    ensures room { IfOk result (FillEach room.all) }
    ensures placed { are_placed table.now ≡ false → result ≡ Err Fault.Entries }
{
    let table = table_by(alloc, table)?;
    receive_many_by(alloc, &table, settings, a, txs, octets, room)
}

// What is found of each block, by a shift table. All that a block's bits don't decide is judged before the first.
#[tactic(auto, unfolding(crate::specs::Many::receive_many_by))]
fn receive_many_by(
    alloc: Global,
    table: &Table,
    settings: Settings,
    a: u32,
    txs: &[NrTx],
    octets: &[u8],
    room: ManyRoom,
) -> Result<ManyFound, Fault>
    requires { IsTable table.now }
    ensures said { Gives Fault.Memory many_findings_of result
        (receive_many_by table.now settings room.count a txs.now octets.now room.all) }
    ensures room { IfOk result (FillEach room.all) }
{
    if txs.len() > MOST_TRANSMISSIONS {
        return Err(Fault::Many);
    }
    let plan = plan_on(settings.rate2048, a)?;
    let each = Room {
        outcomes: txs.len(),
        left: plan.c as usize,
        block: a as usize / 8,
    };
    if !room.is_for(each) {
        return Err(Fault::Room);
    }
    let places = places_sent(txs);
    if octets.len() as u128 != room.count as u128 * places as u128 {
        return Err(Fault::Desk(DeskFault::Length));
    }
    let link = link_on(table, settings, a)?;
    let rows = Rows {
        room,
        places,
        octets,
    };
    receive_rows(alloc, link, txs, rows, each)
}

// How many places some transmissions have.
#[tactic(auto, using(std::proofs::lemmas::List::Sums::sum_by_more))]
pub(crate) fn places_sent(txs: &[NrTx]) -> usize
    requires { length txs.now ≤ 1000 }
    ensures value { result ≡ places_sent txs.now }
    ensures few { result ≤ 1000 * 2 ^ 32 }
{
    let mut places = 0;
    for tx in txs {
        places += tx.g as usize;
    }
    places
}

impl ManyFound {
    // Nothing is found yet, and there is room for all.
    pub(crate) fn with_room(
        alloc: Global,
        each: Room,
        room: ManyRoom,
    ) -> Result<ManyFound, AllocError>
        ensures each { IfOk result (λ many. many.each ≡ each) }
        ensures none { IfOk result HasNone }
    {
        let outcomes = Vec::with_capacity(alloc, room.all.outcomes)?;
        let left = Vec::with_capacity(alloc, room.all.left)?;
        let last = Vec::with_capacity(alloc, room.count)?;
        Ok(ManyFound {
            each,
            outcomes,
            left,
            last,
        })
    }

    // Adds what is found of the next block, whose outcome is taken.
    pub(crate) fn add(&mut self, found: &mut Found) -> Result<(), AllocError>
        ensures each { self.new.each ≡ self.old.each }
        ensures outcomes { OnOk result
            (self.new.outcomes.items ≡ self.old.outcomes.items ++ found.old.outcomes.items) }
        ensures left { OnOk result (self.new.left.items ≡ self.old.left.items ++ found.old.left.items) }
        ensures last { OnOk result (self.new.last.items ≡ self.old.last.items ++ found.old.last ∷ []) }
    {
        self.outcomes.extend_from_slice(&found.outcomes)?;
        self.left.extend_from_slice(&found.left)?;
        let last = replace(&mut found.last, Outcome::Open);
        match self.last.push(last) {
            Ok(()) => Ok(()),
            Err(_) => Err(AllocError),
        }
    }

    // Writes all of it, each block in its row.
    fn write(&self, outcomes: &mut [u32], left: &mut [u32], blocks: &mut [u8])
        requires { FillEach (room_in (places outcomes.old left.old blocks.old)) self.now }
        ensures { AreAllWritten blocks.old (many_findings_of self.now)
            (places outcomes.new left.new blocks.new) }
    {
        outcomes.copy_from_slice(&self.outcomes);
        left.copy_from_slice(&self.left);
        let size = self.each.block;
        for k in 0..self.last.len() {
            hand_up(&self.last[k], &mut blocks[k * size..k * size + size]);
        }
    }
}
