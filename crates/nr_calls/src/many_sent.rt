//! Sending several transport blocks of one size by the same transmissions each, with the table read once.

ghost use Rattle.std.specs.Prelude.{◌≡◌, ◌++◌, ◌*◌, ◌/◌, false, Err, Ok, flat_map, length, IfErr, IfOk};
ghost use Rattle.nr_bitvec.specs.BitList.{bits_of};
ghost use Rattle.nr_refusal.specs.Refusal.{Gives};
ghost use Rattle.nr_blockdesk.specs.Link.{link_said};
ghost use Rattle.nr_blockdesk.specs.Sent.{sent};
ghost use Rattle.nr_calls.specs.Crossing.{AreBits, settings_in, tx_of};
ghost use Rattle.nr_calls.specs.Entries.{are_placed};
ghost use Rattle.nr_calls.specs.inside.Simulating.{AreAccepted};
ghost use Rattle.nr_calls.specs.inside.Words.{joined};
ghost use Rattle.nr_calls.specs.Many.{first_rows, send_many_by, send_many_said};
ghost use Rattle.nr_calls.specs.Statuses.{Returns, memory_anywhere};

use crate::crossing::{NrSettings, NrTx, write_bits};
use crate::entries::{NrEntry, table_by};
use crate::fault::Fault;
use crate::laws;
use crate::linking::{LinkParams, link_on};
use crate::many::{MOST_TRANSMISSIONS, places_sent};
use crate::sending::{sender_of, sent_by};
use crate::simulating::judge_all;
use nr_bitvec::Bits;
use nr_blockdesk::{DeskFault, Link, Sender, Settings};
use nr_shifttable::Table;
use std::alloc::Global;

// Transport blocks in a row of octets each, and room for the bits of all.
#[derive(Clone, Copy)]
pub(crate) struct Blocks<'b> {
    count: usize,
    octets: &'b [u8],
    room: usize,
}

/// Writes the bits that the transmissions `txs` send of each of `count` transport blocks, with the table read once.
/// `nr_c` exports this call and says what each status means.
pub fn nr_send_many(
    alloc: Global,
    table: &[NrEntry],
    settings: &NrSettings,
    a: u32,
    txs: &[NrTx],
    count: usize,
    blocks: &[u8],
    out: &mut [u8],
) -> u32
    ensures said { Returns memory_anywhere result out.old out.new AreBits (send_many_said table.now
        (settings_in settings.now) count a txs.now blocks.now (length out.old)) }
    ensures placed { are_placed table.now ≡ false → result ≡ 31 }
{
    let blocks = Blocks {
        count,
        octets: blocks,
        room: out.len(),
    };
    let params = LinkParams::of(table, settings, a);
    match send_many(alloc, params, txs, blocks) {
        Ok(parts) => {
            write_all(&parts, out);
            0
        }
        Err(fault) => fault.status(),
    }
}

// The bits of all blocks, by a shift table's entries.
#[tactic(auto, unfolding(crate::specs::Many::send_many_said))]
fn send_many(
    alloc: Global,
    params: LinkParams<'_>,
    txs: &[NrTx],
    blocks: Blocks<'_>,
) -> Result<Vec<Bits>, Fault>
    ensures said { Gives Fault.Memory (λ parts. joined parts.items) result
        (send_many_said params.entry.entries.now params.entry.settings blocks.entry.count params.entry.a
        txs.now blocks.entry.octets.now blocks.entry.room) }
    ensures room { IfOk result (λ parts. length (joined parts.items) ≡ blocks.entry.room) }
    ensures placed { are_placed params.entry.entries.now ≡ false → result ≡ Err Fault.Entries }
{
    let table = table_by(alloc, params.entries)?;
    send_many_by(alloc, &table, params, txs, blocks)
}

// The bits of all blocks, by a shift table. Everything is judged before the first block is read.
#[tactic(auto, unfolding(crate::specs::Many::send_many_by))]
fn send_many_by(
    alloc: Global,
    table: &Table,
    params: LinkParams<'_>,
    txs: &[NrTx],
    blocks: Blocks<'_>,
) -> Result<Vec<Bits>, Fault>
    ensures said { Gives Fault.Memory (λ parts. joined parts.items) result
        (send_many_by table.now params.entry.settings blocks.entry.count params.entry.a
        txs.now blocks.entry.octets.now blocks.entry.room) }
    ensures room { IfOk result (λ parts. length (joined parts.items) ≡ blocks.entry.room) }
{
    laws::accepted_send_all();
    if txs.len() > MOST_TRANSMISSIONS {
        return Err(Fault::Many);
    }
    if blocks.octets.len() as u128 != blocks.count as u128 * u128::from(params.a / 8) {
        return Err(Fault::Desk(DeskFault::Size));
    }
    let link = link_on(table, params.settings, params.a)?;
    judge_all(&link, txs)?;
    if blocks.room as u128 != blocks.count as u128 * places_sent(txs) as u128 {
        return Err(Fault::Room);
    }
    send_rows(alloc, table, params, &link, txs, blocks)
}

// The bits of the blocks in turn, once all is judged. Memory alone refuses them.
fn send_rows(
    alloc: Global,
    table: &Table,
    params: LinkParams<'_>,
    link: &Link<'_>,
    txs: &[NrTx],
    blocks: Blocks<'_>,
) -> Result<Vec<Bits>, Fault>
    requires linked { link_said table.now params.settings params.a ≡ Ok link.now }
    requires accepted { AreAccepted link.now txs.now }
    requires whole { length blocks.octets.now ≡ blocks.count * (params.a / 8) }
    ensures sent { IfOk result (λ parts. joined parts.items
        ≡ flat_map (λ row. flat_map (λ t. sent link.now (tx_of t) (bits_of row)) txs.now)
        (first_rows (params.entry.a / 8) blocks.entry.count blocks.entry.octets.now)) }
    ensures err { IfErr result (λ fault. fault ≡ Fault.Memory) }
{
    link.is_sound();
    let size = (params.a / 8) as usize;
    let mut parts = Vec::new(alloc);
    for k in 0..blocks.count {
        let row = &blocks.octets[k * size..k * size + size];
        let sender = sender_over(alloc, table, params.settings, link, row)?;
        send_each(&sender, txs, &mut parts)?;
    }
    Ok(parts)
}

// The sender of a transport block over a link, given as octets. Memory alone refuses it.
#[tactic(auto, using(crate::proofs::ManySentFacts::sender_over_link))]
fn sender_over<'t>(
    alloc: Global,
    table: &'t Table,
    settings: Settings,
    link: &Link<'_>,
    octets: &[u8],
) -> Result<Sender<'t>, Fault>
    requires { link_said table.now settings (length (bits_of octets.now)) ≡ Ok link.now }
    ensures link { IfOk result (λ sender. sender.link ≡ link.now) }
    ensures block { IfOk result (λ sender. sender.block ≡ bits_of octets.now) }
    ensures err { IfErr result (λ fault. fault ≡ Fault.Memory) }
{
    // So no block is longer than one may be.
    link.is_sound();
    match sender_of(alloc, table, settings, octets) {
        Ok(sender) => Ok(sender),
        Err(_) => Err(Fault::Memory),
    }
}

// Puts the bits that each transmission sends to the end of those before them. Memory alone refuses them.
fn send_each(sender: &Sender<'_>, txs: &[NrTx], parts: &mut Vec<Bits>) -> Result<(), Fault>
    requires { AreAccepted sender.now.link txs.now }
    ensures sent { IfOk result (λ done. joined parts.new.items ≡ joined parts.old.items
        ++ flat_map (λ t. sent sender.now.link (tx_of t) sender.now.block) txs.now) }
    ensures err { IfErr result (λ fault. fault ≡ Fault.Memory) }
{
    for tx in txs {
        let bits = sent_by(sender, &tx.tx())?;
        if parts.push(bits).is_err() {
            return Err(Fault::Memory);
        }
    }
    Ok(())
}

// Writes all of these bits.
fn write_all(parts: &[Bits], out: &mut [u8])
    requires { length out.old ≡ length (joined parts.now) }
    ensures { AreBits (joined parts.now) out.new }
{
    let mut at = 0;
    for bits in parts {
        let next = at + bits.len();
        write_bits(bits, &mut out[at..next]);
        at = next;
    }
}
