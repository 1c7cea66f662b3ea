//! What arrives of a transport block over a practice table, what its receiver returns, and whether the checkers accept
//! what its peelers show.

use crate::peeled_words::is_shown;
use crate::practice::{PLAIN, few_bits_of, on_one_layer, practice};
use crate::visit_counts::visits;
use nr_bitvec::Bits;
use nr_blockdesk::{DeskFault, Heard, Outcome, Receiver, Sender, Settings, Tx};
use nr_ratematch::Mask;
use nr_shifttable::Table;
use std::alloc::{AllocError, Global};
use std::test::Fail;

/// Ranges of places, each by its first and its last place.
pub(crate) type Places<'a> = &'a [(usize, usize)];

pub(crate) const NONE: Places<'static> = &[];

pub(crate) const ALL: Places<'static> = &[(0, usize::MAX)];

/// How the transmissions of a list are sent: the bits of a symbol, and the code blocks that are scheduled.
pub(crate) type Way = (u32, Mask);

/// The first `g` bits of redundancy version 0, the places that are received and those that are flipped.
pub(crate) type First<'a> = (u32, Places<'a>, Places<'a>);

/// What a receiver hands up: of a delivered block its first octet.
#[derive(Clone, Copy, PartialEq, Eq)]
pub(crate) enum HandedUp {
    Open,
    Delivered(u8),
    Contradiction,
}

/// What is handed up by an outcome.
pub(crate) fn told(outcome: &Outcome) -> HandedUp {
    match outcome {
        Outcome::Open => HandedUp::Open,
        Outcome::Delivered(block) => HandedUp::Delivered(block.octet(0)),
        Outcome::Contradiction => HandedUp::Contradiction,
    }
}

/// Whether a place is in one of these ranges.
fn is_in(places: Places<'_>, m: usize) -> bool {
    for (from, to) in places.iter().copied() {
        if from <= m && m <= to {
            return true;
        }
    }
    false
}

/// What is received of sent bits.
fn arrives(
    alloc: Global,
    bits: &Bits,
    heard: Places<'_>,
    flipped: Places<'_>,
) -> Result<Vec<Heard>, AllocError> {
    let mut places = Vec::new(alloc);
    for m in 0..bits.len() {
        let place = if !is_in(heard, m) {
            Heard::Erased
        } else if bits.get(m) != is_in(flipped, m) {
            Heard::One
        } else {
            Heard::Zero
        };
        places.push(place)?;
    }
    Ok(places)
}

/// What a receiver answers to places of a transmission.
pub(crate) fn take(
    receiver: &mut Receiver<'_>,
    tx: &Tx,
    places: &[Heard],
) -> Result<HandedUp, DeskFault> {
    match receiver.take(tx, places) {
        Ok(outcome) => Ok(told(&outcome)),
        Err(fault) => Err(fault),
    }
}

/// What a receiver answers to what arrives of sent bits.
fn hear_bits(
    alloc: Global,
    bits: &Bits,
    receiver: &mut Receiver<'_>,
    tx: &Tx,
    (heard, flipped): (Places<'_>, Places<'_>),
) -> Result<HandedUp, DeskFault> {
    match arrives(alloc, bits, heard, flipped) {
        Ok(places) => take(receiver, tx, &places),
        Err(_) => Err(DeskFault::Memory),
    }
}

/// What a receiver answers to what arrives of a transmission.
fn hear(
    alloc: Global,
    sender: &Sender<'_>,
    receiver: &mut Receiver<'_>,
    (qm, mask): Way,
    (g, heard, flipped): First<'_>,
) -> Result<HandedUp, DeskFault> {
    let tx = Tx {
        mask,
        ..on_one_layer(0, g, qm)
    };
    match send(sender, &tx) {
        Ok(bits) => hear_bits(alloc, &bits, receiver, &tx, (heard, flipped)),
        Err(fault) => Err(fault),
    }
}

/// Whether the checkers accept what the peeler of code block `r` shows.
fn is_accepted(table: &Table, receiver: &Receiver<'_>, r: u32) -> Result<bool, AllocError> {
    if r < receiver.plan().c {
        is_shown(table, receiver.plan(), receiver.peeler(r))
    } else {
        Ok(false)
    }
}

/// Whether they accept it of every code block.
fn are_accepted(table: &Table, receiver: &Receiver<'_>) -> Result<bool, AllocError> {
    for r in 0..receiver.plan().c {
        if !is_accepted(table, receiver, r)? {
            return Ok(false);
        }
    }
    Ok(true)
}

/// How many positions below K' are left of the first code block. And how often a pair of a row and a position of it was
/// visited.
pub(crate) fn left_of(receiver: &Receiver<'_>) -> (u32, u64) {
    if receiver.plan().c == 0 {
        return (0, 0);
    }
    (receiver.left(0), visits(receiver.peeler(0)))
}

/// The sender of a block.
pub(crate) fn sender_of<'t>(
    alloc: Global,
    table: &'t Table,
    settings: Settings,
    block: &Bits,
) -> Result<Sender<'t>, DeskFault> {
    Sender::new(alloc, table, settings, block)
}

/// The receiver of a block of `a` bits.
pub(crate) fn receiver_of<'t>(
    alloc: Global,
    table: &'t Table,
    settings: Settings,
    a: u32,
) -> Result<Receiver<'t>, DeskFault> {
    Receiver::new(alloc, table, settings, a)
}

/// The bits that a sender sends.
fn send(sender: &Sender<'_>, tx: &Tx) -> Result<Bits, DeskFault> {
    sender.send(tx)
}

/// The bits that the sender of a block sends.
fn sent_of(
    alloc: Global,
    table: &Table,
    settings: Settings,
    block: &Bits,
    tx: &Tx,
) -> Result<Bits, DeskFault> {
    match sender_of(alloc, table, settings, block) {
        Ok(sender) => send(&sender, tx),
        Err(fault) => Err(fault),
    }
}

/// What arrives of the first bits that are sent of octets over a table.
pub(crate) fn arrived(
    alloc: Global,
    table: &Table,
    octets: &[u8],
    (g, heard, flipped): First<'_>,
) -> Result<Vec<Heard>, Fail> {
    let bits = first_sent(alloc, table, octets, g)?;
    Ok(arrives(alloc, &bits, heard, flipped)?)
}

/// The first bits that are sent of octets.
fn first_sent(alloc: Global, table: &Table, octets: &[u8], g: u32) -> Result<Bits, Fail> {
    let block = few_bits_of(alloc, octets)?;
    Ok(sent_of(alloc, table, PLAIN, &block, &on_one_layer(0, g, 1))?)
}

/// What comes of a list of transmissions: what the last one returned, and what is left then and was visited of the
/// first code block. And whether the checkers accept what is shown.
#[derive(Clone, Copy)]
pub(crate) struct End {
    pub(crate) told: HandedUp,
    pub(crate) left: u32,
    pub(crate) touches: u64,
    pub(crate) accepted: bool,
}

/// What the last of a list of transmissions returns.
fn hear_all(
    alloc: Global,
    sender: &Sender<'_>,
    receiver: &mut Receiver<'_>,
    way: Way,
    firsts: &[First<'_>],
) -> Result<HandedUp, DeskFault> {
    let mut last = HandedUp::Open;
    for first in firsts.iter().copied() {
        last = hear(alloc, sender, receiver, way, first)?;
    }
    Ok(last)
}

/// What a receiver shows at last.
fn end_at(table: &Table, receiver: &Receiver<'_>, told: HandedUp) -> Result<End, Fail> {
    let (left, touches) = left_of(receiver);
    let accepted = are_accepted(table, receiver)?;
    Ok(End {
        told,
        left,
        touches,
        accepted,
    })
}

/// What a receiver shows after a list of transmissions.
fn end_after(
    alloc: Global,
    table: &Table,
    sender: &Sender<'_>,
    receiver: &mut Receiver<'_>,
    way: Way,
    firsts: &[First<'_>],
) -> Result<End, Fail> {
    let told = hear_all(alloc, sender, receiver, way, firsts)?;
    end_at(table, receiver, told)
}

/// What a new receiver shows of a transport block.
fn end_of(
    alloc: Global,
    table: &Table,
    sender: &Sender<'_>,
    settings: Settings,
    way: Way,
    firsts: &[First<'_>],
) -> Result<End, Fail> {
    match receiver_of(alloc, table, settings, sender.a()) {
        Ok(mut receiver) => end_after(alloc, table, sender, &mut receiver, way, firsts),
        Err(fault) => Err(fault.into()),
    }
}

/// What a new receiver shows of octets that are sent over a table.
pub(crate) fn end_over(
    alloc: Global,
    table: &Table,
    settings: Settings,
    octets: &[u8],
    way: Way,
    firsts: &[First<'_>],
) -> Result<End, Fail> {
    let block = few_bits_of(alloc, octets)?;
    match sender_of(alloc, table, settings, &block) {
        Ok(sender) => end_of(alloc, table, &sender, settings, way, firsts),
        Err(fault) => Err(fault.into()),
    }
}

/// What a new receiver shows of octets over the practice table, of which first bits are sent one a symbol.
pub(crate) fn end_of_firsts(
    alloc: Global,
    settings: Settings,
    octets: &[u8],
    firsts: &[First<'_>],
) -> Result<End, Fail> {
    let table = practice(alloc, 0, 1, false)?;
    end_over(alloc, &table, settings, octets, (1, Mask::All), firsts)
}
