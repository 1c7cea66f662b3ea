//! Rounds of a transport block over drawn erasures, each heard until the block is delivered.
//!
//! No block is sent. Over erasures the places alone say what is left and whether a block is delivered. So each round hears
//! zeros, and its result is that of every transport block.

ghost use Rattle.std.specs.Prelude.{◌≡◌, ◌*◌, ◌≤◌, false, Bool, Err, Ok, List, length, IfErr, IfOk};
ghost use Rattle.std.specs.Prelude.{MatchResult};
ghost use Rattle.nr_blockdesk.specs.Link.{IsBlock};
ghost use Rattle.nr_calls.specs.Crossing.{settings_in};
ghost use Rattle.nr_calls.specs.Entries.{are_placed};
ghost use Rattle.nr_calls.specs.inside.Simulating.{AreAccepted, AreFilled, ComesTo, simulation_of};
ghost use Rattle.nr_calls.specs.Simulating.{AreSimulated, drawn_round, lists_said, simulated, simulating_said};
ghost use Rattle.nr_calls.specs.Simulating.{simulation, simulation_room, txs_said};
ghost use Rattle.nr_calls.specs.Statuses.{Returns, memory_anywhere};

use crate::batch::{MOST_ROUNDS, hear_batch};
use crate::crossing::{NrSettings, NrTx};
use crate::entries::{NrEntry, table_by};
use crate::fault::Fault;
use crate::linking::{LinkParams, link_on};
use crate::plan::plan_on;
use crate::rounds::{Rounds, shares_of};
use nr_blockdesk::{DeskFault, Link};
use std::alloc::Global;

// The most transmissions of a round.
const MOST_TRANSMISSIONS: usize = 1000;

// How many entries each place of a caller has.
#[derive(Clone, Copy)]
pub(crate) struct RoundRoom {
    pub(crate) delivered: usize,
    pub(crate) left: usize,
    pub(crate) erased: usize,
}

/// Simulates rounds of a transport block over random erasures, each until the block is delivered. `nr_c` exports this
/// call and says what each status means.
pub fn nr_simulate(
    alloc: Global,
    table: &[NrEntry],
    settings: &NrSettings,
    a: u32,
    txs: &[NrTx],
    thresholds: &[u32],
    seeds: &[u64],
    delivered: &mut [u32],
    left: &mut [u32],
    erased: &mut [u32],
) -> u32
    ensures said { Returns memory_anywhere result (simulation delivered.old left.old erased.old)
        (simulation delivered.new left.new erased.new)
        (AreSimulated txs.now thresholds.now seeds.now (length delivered.old))
        (simulating_said table.now (settings_in settings.now) a txs.now thresholds.now seeds.now
        (simulation_room (simulation delivered.old left.old erased.old))) }
    ensures placed { are_placed table.now ≡ false → result ≡ 31 }
{
    let room = RoundRoom {
        delivered: delivered.len(),
        left: left.len(),
        erased: erased.len(),
    };
    let params = LinkParams::of(table, settings, a);
    match simulate(alloc, params, txs, thresholds, seeds, room) {
        Ok(rounds) => {
            delivered.copy_from_slice(&rounds.delivered);
            left.copy_from_slice(&rounds.left);
            erased.copy_from_slice(&rounds.erased);
            0
        }
        Err(fault) => fault.status(),
    }
}

// The result of the rounds. Everything is judged before the first round.
#[tactic(auto, unfolding(crate::specs::Simulating::simulating_said, crate::specs::Simulating::simulating_by))]
fn simulate(
    alloc: Global,
    params: LinkParams<'_>,
    txs: &[NrTx],
    thresholds: &[u32],
    seeds: &[u64],
    room: RoundRoom,
) -> Result<Rounds, Fault>
    ensures said { ComesTo result txs.now thresholds.now seeds.now room.delivered
        (simulating_said params.entry.entries.now params.entry.settings params.entry.a
        txs.now thresholds.now seeds.now room) }
    ensures room { IfOk result (AreFilled room) }
    ensures placed { are_placed params.entry.entries.now ≡ false → result ≡ Err Fault.Entries }
{
    let table = table_by(alloc, params.entries)?;
    let plan = plan_on(params.settings.rate2048, params.a)?;
    judge_lists(txs, thresholds, seeds, room, plan.c)?;
    let link = link_on(&table, params.settings, params.a)?;
    judge_all(&link, txs)?;
    hear_rounds(alloc, &link, txs, thresholds, seeds, room)
}

// The first cause against the lists of rounds over `c` code blocks.
#[tactic(auto, unfolding(crate::specs::Simulating::lists_said))]
fn judge_lists(
    txs: &[NrTx],
    thresholds: &[u32],
    seeds: &[u64],
    room: RoundRoom,
    c: u32,
) -> Result<(), Fault>
    ensures said { MatchResult result
        (λ done. lists_said txs.now thresholds.now seeds.now room c ≡ Ok tt)
        (λ fault. lists_said txs.now thresholds.now seeds.now room c ≡ Err fault) }
    ensures few { IfOk result (λ done. length txs.now ≤ 1000) }
    ensures thresholds { IfOk result (λ done. length thresholds.now ≡ length txs.now) }
    ensures seeds { IfOk result
        (λ done. length seeds.now ≡ room.delivered * length txs.now) }
    ensures left { IfOk result (λ done. room.left ≡ length seeds.now * c) }
    ensures erased { IfOk result (λ done. room.erased ≡ length seeds.now * c) }
{
    let count = txs.len();
    if count > MOST_TRANSMISSIONS {
        return Err(Fault::Many);
    }
    let sent = seeds.len() as u128;
    if thresholds.len() != count || sent != room.delivered as u128 * count as u128 {
        return Err(Fault::Desk(DeskFault::Length));
    }
    let rows = sent * u128::from(c);
    if room.left as u128 != rows || room.erased as u128 != rows {
        return Err(Fault::Room);
    }
    Ok(())
}

// The first fault of some transmissions.
pub(crate) fn judge_all(link: &Link<'_>, txs: &[NrTx]) -> Result<(), Fault>
    ensures said { MatchResult result (λ done. txs_said link.now txs.now ≡ Ok tt)
        (λ fault. txs_said link.now txs.now ≡ Err fault) }
    ensures accepted { IfOk result (λ done. AreAccepted link.now txs.now) }
{
    for tx in txs {
        shares_of(link, &tx.tx())?;
    }
    Ok(())
}

// The result of the rounds, of which up to 64 are heard side by side. It has the room of the caller's places.
fn hear_rounds(
    alloc: Global,
    link: &Link<'_>,
    txs: &[NrTx],
    thresholds: &[u32],
    seeds: &[u64],
    room: RoundRoom,
) -> Result<Rounds, Fault>
    requires accepted { AreAccepted link.now txs.now }
    requires few { length txs.now ≤ 1000 }
    requires thresholds { length thresholds.now ≡ length txs.now }
    requires seeds { length seeds.now ≡ room.delivered * length txs.now }
    ensures rounds { IfOk result (λ rounds. (block : List Bool) → IsBlock link.now block
        → simulation_of rounds ≡ simulated link.now block
        (drawn_round txs.now thresholds.now seeds.now) (length txs.now) room.delivered) }
    ensures err { IfErr result (λ fault. fault ≡ Fault.Memory) }
{
    let delivered = Vec::with_capacity(alloc, room.delivered)?;
    let left = Vec::with_capacity(alloc, room.left)?;
    let erased = Vec::with_capacity(alloc, room.erased)?;
    let mut rounds = Rounds {
        delivered,
        left,
        erased,
    };
    let mut later = seeds;
    let mut done = 0;
    'batches: while done < room.delivered {
        let few = (room.delivered - done).min(MOST_ROUNDS);
        let (own, rest) = later.split_at(few * txs.len());
        hear_batch(alloc, link, txs, thresholds, own, few, &mut rounds)?;
        later = rest;
        done += few;
    }
    Ok(rounds)
}
