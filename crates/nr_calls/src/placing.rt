//! Which bit of which code block each place of a transmission carries.

ghost use Rattle.std.specs.Prelude.{◌≡◌, ◌≢◌, ℕ, ◌+◌, ◌*◌, ◌/◌, ◌%◌, ◌^◌, ◌<◌, ◌≤◌};
ghost use Rattle.std.specs.Prelude.{length, slice_index_or, IfOk, MatchResult};
ghost use Rattle.std.specs.Prelude.{Ok, Err};
ghost use Rattle.nr_interleave.specs.Interleaving.{seat_of};
ghost use Rattle.nr_ratematch.specs.Lengths.{IsShared};
ghost use Rattle.nr_ratematch.specs.Selection.{place_of};
ghost use Rattle.nr_refusal.specs.Refusal.{with_fault};
ghost use Rattle.nr_blockdesk.specs.Sent.{tx_said_of};
ghost use Rattle.nr_calls.specs.Crossing.{settings_in, tx_of};
ghost use Rattle.nr_calls.specs.Placing.{AreBitIndexes, index_by, placing_said};
ghost use Rattle.nr_calls.specs.inside.Placings.{placing_of};
ghost use Rattle.nr_calls.specs.Statuses.{Returns, no_memory};

use crate::crossing::{NrSettings, NrTx};
use crate::fault::Fault;
use crate::laws;
use crate::placed::Placed;
use crate::plan::plan_on;
use arrayvec::ArrayVec;
use nr_blockdesk::{DeskFault, Settings, Tx};
use nr_ratematch::{Buffer, MOST_BLOCKS, lengths};
use nr_segment::Plan;

/// Writes the index of the bit that each place of a transmission carries (TS 38.212, 5.4.2 and 5.5). `nr_c` exports
/// this call and says what each status means.
pub fn nr_places(settings: &NrSettings, a: u32, tx: &NrTx, out: &mut [u32]) -> u32
    ensures { Returns no_memory result out.old out.new AreBitIndexes
        (placing_said (settings_in settings.now) a (tx_of tx.now) (length out.old)) }
{
    match judged(settings.settings(), a, &tx.tx(), out.len()) {
        Ok(placed) => {
            write_places(&placed, out);
            0
        }
        Err(fault) => fault.status(),
    }
}

// The transmission, for a room of so many entries, or the first cause against it.
#[tactic(auto, unfolding(crate::specs::Placing::placing_said))]
fn judged(settings: Settings, a: u32, tx: &Tx, room: usize) -> Result<Placed, Fault>
    ensures said { MatchResult result
        (λ placed. placing_said settings a tx.now room ≡ Ok (placing_of placed))
        (λ fault. placing_said settings a tx.now room ≡ Err fault) }
    ensures room { IfOk result (λ placed. placed.tx.g ≡ room) }
{
    laws::buffers_are_circular();
    let plan = plan_on(settings.rate2048, a)?;
    let buffer = match Buffer::new(&plan, settings.lbrm) {
        Ok(buffer) => buffer,
        Err(fault) => return Err(Fault::Desk(DeskFault::Rm(fault))),
    };
    let lengths = shares_on(&plan, tx)?;
    if tx.g as usize != room {
        return Err(Fault::Room);
    }
    Ok(Placed {
        plan,
        buffer,
        tx: *tx,
        lengths,
    })
}

// E_r of each code block of a plan, or the first cause against the transmission.
#[tactic(auto, unfolding(nr_blockdesk::specs::Sent::tx_said_of))]
fn shares_on(plan: &Plan, tx: &Tx) -> Result<ArrayVec<u32, MOST_BLOCKS>, Fault>
    ensures said { MatchResult result
        (λ shares. tx_said_of plan.now.c tx.now ≡ Ok shares.items)
        (λ fault. with_fault Fault.Desk (tx_said_of plan.now.c tx.now) ≡ Err fault) }
    ensures version { IfOk result (λ shares. tx.now.rv < 4) }
    ensures shared { IfOk result (λ shares. IsShared plan.now.c tx.now.g tx.now.qm shares.items) }
{
    if tx.rv > 3 {
        return Err(Fault::Desk(DeskFault::Rv));
    }
    match lengths(plan, tx.g, tx.qm, tx.nl, tx.mask) {
        Ok(shares) => Ok(shares),
        Err(fault) => Err(Fault::Desk(DeskFault::Rm(fault))),
    }
}

// Writes `count` numbers from `first` on, at each `step`-th entry from entry `from` on.
fn write_run(first: u32, count: u32, from: usize, step: usize, out: &mut [u32])
    requires some { 0 < step }
    requires inside { (j : ℕ) → j < count → from + j * step < length out.old }
    requires short { first + count < 2 ^ 32 }
    ensures within { (j : ℕ) → j < count → slice_index_or out.new (from + j * step) 0 ≡ first + j }
    ensures others { (m : ℕ) → ((j : ℕ) → j < count → m ≢ from + j * step)
        → slice_index_or out.new m 0 ≡ slice_index_or out.old m 0 }
{
    for j in 0..count {
        out[from + j as usize * step] = first + j;
    }
}

// Writes the index at each place whose bit is in row `row` of the matrix of code block `r` (TS 38.212, 5.4.2.2): the bits of a
// run of the circular buffer have their indices one after another.
fn write_row(placed: &Placed, r: u32, row: u32, out: &mut [u32])
    requires block { r < placed.now.plan.c }
    requires row { row < placed.now.tx.qm }
    requires whole { length out.old % placed.now.tx.qm ≡ 0 }
    requires short { length out.old ≤ 4194304 }
    ensures each { (j : ℕ) → j < length out.new / placed.now.tx.qm
        → slice_index_or out.new (j * placed.now.tx.qm + row) 0 ≡ index_by (placing_of placed.now) r
        (place_of placed.now.buffer placed.now.tx.rv (row * (length out.new / placed.now.tx.qm) + j)) }
    ensures others { (m : ℕ) → m % placed.now.tx.qm ≢ row → slice_index_or out.new m 0 ≡ slice_index_or out.old m 0 }
{
    laws::places_are_sent();
    let (qm, rv) = (placed.tx.qm, placed.tx.rv);
    let columns = out.len() as u32 / qm;
    let mut column = 0;
    while column < columns {
        let k = row * columns + column;
        let (position, count) = placed.buffer.run(rv, k, columns - column);
        let first = r * placed.plan.n + (position - 2 * placed.plan.z);
        let from = (column * qm + row) as usize;
        write_run(first, count, from, qm as usize, out);
        column += count;
    }
}

// Writes the index at each place of code block `r`.
fn write_part(placed: &Placed, r: u32, out: &mut [u32])
    requires block { r < placed.now.plan.c }
    requires whole { length out.old % placed.now.tx.qm ≡ 0 }
    requires short { length out.old ≤ 4194304 }
    ensures { (m : ℕ) → m < length out.new → slice_index_or out.new m 0 ≡ index_by (placing_of placed.now) r
        (place_of placed.now.buffer placed.now.tx.rv (seat_of placed.now.tx.qm (length out.old) m)) }
{
    for row in 0..placed.tx.qm {
        write_row(placed, r, row, out);
    }
}

// Writes the index at each place.
fn write_places(placed: &Placed, out: &mut [u32])
    requires { length out.old ≡ placed.now.tx.g }
    ensures { AreBitIndexes (placing_of placed.now) out.new }
{
    laws::parts_are_at();
    laws::sent_bits_are_at();
    let mut from = 0;
    for r in 0..placed.lengths.len() {
        let count = placed.lengths[r] as usize;
        write_part(placed, r as u32, &mut out[from..from + count]);
        from += count;
    }
}
