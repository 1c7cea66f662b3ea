//! Sending a transport block.

ghost use Rattle.std.specs.Prelude.{◌≡◌, ◌*◌, ◌^◌, ◌≤◌, false, Err, length, IfOk, IsOk};
ghost use Rattle.nr_bitvec.specs.BitList.{bits_of};
ghost use Rattle.nr_refusal.specs.Refusal.{Gives, with_fault};
ghost use Rattle.nr_blockdesk.specs.Link.{err_unless, link_said};
ghost use Rattle.nr_blockdesk.specs.Sent.{sending_said, sent_said, tx_said};
ghost use Rattle.nr_transmission.specs.declared.fault.DeskFault.TheVariants as desk;
ghost use Rattle.nr_calls.specs.Crossing.{AreBits, settings_in, tx_of};
ghost use Rattle.nr_calls.specs.Entries.{are_placed};
ghost use Rattle.nr_calls.specs.Sending.{send_into_said, send_by, send_call_said};
ghost use Rattle.nr_calls.specs.Statuses.{Returns, memory_anywhere};

use crate::crossing::{NrSettings, NrTx, write_bits};
use crate::entries::{NrEntry, table_by};
use crate::fault::Fault;
use nr_bitvec::Bits;
use nr_blockdesk::{DeskFault, Sender, Settings, Tx};
use nr_shifttable::Table;
use std::alloc::Global;

// The most octets of a transport block.
pub(crate) const MOST_OCTETS: usize = 163_840;

/// Writes the bits that a transmission sends of a transport block, one to an octet of `out` (TS 38.212, 6.2 and 7.2).
/// `nr_c` exports this call and says what each status means.
pub fn nr_send(
    alloc: Global,
    table: &[NrEntry],
    settings: &NrSettings,
    block: &[u8],
    tx: &NrTx,
    out: &mut [u8],
) -> u32
    ensures said { Returns memory_anywhere result out.old out.new AreBits (send_into_said table.now
        (settings_in settings.now) block.now (tx_of tx.now) (length out.old)) }
    ensures placed { are_placed table.now ≡ false → result ≡ 31 }
{
    match send_into(
        alloc,
        table,
        settings.settings(),
        block,
        &tx.tx(),
        out.len(),
    ) {
        Ok(bits) => {
            write_bits(&bits, out);
            0
        }
        Err(fault) => fault.status(),
    }
}

// The bits for a room of this length.
fn send_into(
    alloc: Global,
    table: &[NrEntry],
    settings: Settings,
    block: &[u8],
    tx: &Tx,
    room: usize,
) -> Result<Bits, Fault>
    ensures said { Gives Fault.Memory (λ bits. bits.items) result
        (send_into_said table.now settings block.now tx.now room) }
    ensures room { IfOk result (λ bits. length bits.items ≡ room) }
    ensures placed { are_placed table.now ≡ false → result ≡ Err Fault.Entries }
{
    let bits = send(alloc, table, settings, block, tx)?;
    if bits.len() != room {
        return Err(Fault::Room);
    }
    Ok(bits)
}

// The bits of a transmission, by a shift table's entries.
#[tactic(auto, unfolding(crate::specs::Sending::send_call_said))]
pub(crate) fn send(
    alloc: Global,
    table: &[NrEntry],
    settings: Settings,
    block: &[u8],
    tx: &Tx,
) -> Result<Bits, Fault>
    ensures said { Gives Fault.Memory (λ bits. bits.items) result
        (send_call_said table.now settings block.now tx.now) }
    ensures placed { are_placed table.now ≡ false → result ≡ Err Fault.Entries }
{
    let table = table_by(alloc, table)?;
    send_by(alloc, &table, settings, block, tx)
}

// The bits of a transmission, by a shift table.
#[tactic(auto, unfolding(crate::specs::Sending::send_by))]
fn send_by(
    alloc: Global,
    table: &Table,
    settings: Settings,
    block: &[u8],
    tx: &Tx,
) -> Result<Bits, Fault>
    ensures { Gives Fault.Memory (λ bits. bits.items) result
        (send_by table.now settings block.now tx.now) }
{
    if block.len() > MOST_OCTETS {
        return Err(Fault::Desk(DeskFault::Size));
    }
    let sender = sender_of(alloc, table, settings, block)?;
    sent_by(&sender, tx)
}

// The sender of a transport block, given as octets.
pub(crate) fn sender_of<'t>(
    alloc: Global,
    table: &'t Table,
    settings: Settings,
    block: &[u8],
) -> Result<Sender<'t>, Fault>
    requires { length block.now ≤ 163840 }
    ensures { Gives Fault.Memory (λ sender. sender) result
        (with_fault Fault.Desk (sending_said table.now settings (bits_of block.now))) }
{
    let block = Bits::from_bytes(alloc, block)?;
    sender_on(alloc, table, settings, &block)
}

// The sender of a transport block. Memory is wanted only if the block has no fault.
fn sender_on<'t>(
    alloc: Global,
    table: &'t Table,
    settings: Settings,
    block: &Bits,
) -> Result<Sender<'t>, Fault>
    ensures said { Gives Fault.Memory (λ sender. sender) result
        (with_fault Fault.Desk (sending_said table.now settings block.now.items)) }
    ensures judged { result ≡ Err Fault.Memory
        → IsOk (link_said table.now settings (length block.now.items)) }
{
    match Sender::new(alloc, table, settings, block) {
        Ok(sender) => Ok(sender),
        Err(DeskFault::Memory) => Err(Fault::Memory),
        Err(fault) => Err(Fault::Desk(fault)),
    }
}

// The bits of a transmission, by a sender. Memory is wanted only if the transmission has no fault.
pub(crate) fn sent_by(sender: &Sender<'_>, tx: &Tx) -> Result<Bits, Fault>
    ensures said { Gives Fault.Memory (λ bits. bits.items) result
        (with_fault Fault.Desk (sent_said sender.now.link tx.now sender.now.block)) }
    ensures judged { result ≡ Err Fault.Memory → IsOk (tx_said sender.now.link tx.now) }
{
    match sender.send(tx) {
        Ok(bits) => Ok(bits),
        Err(DeskFault::Memory) => Err(Fault::Memory),
        Err(fault) => Err(Fault::Desk(fault)),
    }
}
