//! A record of a schedule: what the field in each column says, and the transmission that they make.

ghost use Rattle.std.specs.Prelude.{◌≡◌, ◌≤◌};
ghost use Rattle.csv.specs.Records.{fields_of};
ghost use Rattle.nr_refusal.specs.Refusal.{Gives};
ghost use Rattle.nr_files.specs.Schedule.{block_in, erasure_at, flip_at, fresh_at, harq_at, link_at, mask_at, number_in_field};
ghost use Rattle.nr_files.specs.Schedule.{numbers_at, process_at, transmission_of};

use super::columns::field;
use super::{PROCESSES, ScheduleFault, Transmission};
use crate::erasure::{Erasure, Places};
use crate::place_fields::{erasure_of, mask_of, places_of, short_word};
use crate::rounds::Earlier;
use csv::ByteRecord;
use nr_ratematch::Mask;
use nr_transmission::Tx;
use std::alloc::Global;

// The last record that may be a transmission: a header and 4,096 transmissions.
const LAST_RECORD: u32 = 4097;

// The five numbers of a record.
#[derive(Clone, Copy)]
struct Numbers {
    block: u32,
    rv: u32,
    g: u32,
    qm: u32,
    nl: u32,
}

// What the link does to the bits of a transmission.
#[derive(Drop)]
struct OverLink {
    erasure: Erasure,
    flip: Places,
}

// What a transmission is for its HARQ process.
#[derive(Clone, Copy)]
struct Harq {
    process: u32,
    fresh: bool,
}

/// Returns the transmission of the record with this number, in a schedule with this many columns, after the
/// transmissions of the records before it.
///
/// # Errors
///
/// In this order: `Csv`, `TooMany`, `Number`, `Block`, `Erase`, `Flip`, `Mask`, `Process`, `Fresh`. `Memory` if memory
/// runs out.
#[tactic(auto, unfolding(crate::specs::Schedule::transmission_of))]
pub(crate) fn transmission_of(
    alloc: Global,
    blocks: u32,
    width: usize,
    number: u32,
    earlier: &Earlier,
    row: &ByteRecord,
) -> Result<Transmission, ScheduleFault>
    requires { 1 ≤ number }
    ensures { Gives ScheduleFault.Memory (λ t. t) result
        (transmission_of blocks width number earlier.now.transmissions.items (fields_of row.now)) }
{
    if row.len() != width {
        return Err(ScheduleFault::Csv(number));
    }
    if number > LAST_RECORD {
        return Err(ScheduleFault::TooMany);
    }
    let numbers = numbers_at(number, row)?;
    let block = block_in(number, blocks, numbers.block)?;
    let link = link_at(alloc, number, row)?;
    let mask = mask_at(alloc, number, row)?;
    let harq = harq_at(number, row, block, earlier)?;
    let number = number - 1;
    let tx = Tx {
        rv: numbers.rv,
        g: numbers.g,
        qm: numbers.qm,
        nl: numbers.nl,
        mask,
    };
    Ok(Transmission {
        number,
        block,
        tx,
        erasure: link.erasure,
        flip: link.flip,
        process: harq.process,
        fresh: harq.fresh,
    })
}

// The five numbers of a record.
#[tactic(auto, unfolding(crate::specs::Schedule::numbers_at))]
fn numbers_at(number: u32, row: &ByteRecord) -> Result<Numbers, ScheduleFault>
    ensures { result ≡ numbers_at number (fields_of row.now) }
{
    let block = number_in_field(number, row, b"block")?;
    let rv = number_in_field(number, row, b"rv")?;
    let g = number_in_field(number, row, b"g")?;
    let qm = number_in_field(number, row, b"qm")?;
    let nl = number_in_field(number, row, b"nl")?;
    Ok(Numbers {
        block,
        rv,
        g,
        qm,
        nl,
    })
}

// What a record says that the link does to the bits.
#[tactic(auto, unfolding(crate::specs::Schedule::link_at))]
fn link_at(alloc: Global, number: u32, row: &ByteRecord) -> Result<OverLink, ScheduleFault>
    ensures { Gives ScheduleFault.Memory (λ link. link) result
        (link_at number (fields_of row.now)) }
{
    let erasure = erasure_at(alloc, number, row)?;
    let flip = flip_at(alloc, number, row)?;
    Ok(OverLink { erasure, flip })
}

// The HARQ process of a record, and whether it is fresh.
#[tactic(auto, unfolding(crate::specs::Schedule::harq_at))]
fn harq_at(
    number: u32,
    row: &ByteRecord,
    block: u32,
    earlier: &Earlier,
) -> Result<Harq, ScheduleFault>
    ensures { result
        ≡ harq_at number (fields_of row.now) block earlier.now.transmissions.items }
{
    let process = process_at(number, row, block)?;
    let fresh = fresh_at(number, row, block, earlier.fresh_block(process))?;
    Ok(Harq { process, fresh })
}

// The number that a record's field says in the column of this name.
fn number_in_field(number: u32, row: &ByteRecord, name: &[u8]) -> Result<u32, ScheduleFault>
    ensures { result ≡ number_in_field number (fields_of row.now) name.now }
{
    match field(row, name).and_then(short_word) {
        Some(value) => Ok(value),
        None => Err(ScheduleFault::Number(number)),
    }
}

// The number of a block, if there are so many.
fn block_in(number: u32, blocks: u32, block: u32) -> Result<u32, ScheduleFault>
    ensures { result ≡ block_in number blocks block }
{
    if 1 <= block && block <= blocks {
        Ok(block)
    } else {
        Err(ScheduleFault::Block(number))
    }
}

// The erasure that a record says.
fn erasure_at(alloc: Global, number: u32, row: &ByteRecord) -> Result<Erasure, ScheduleFault>
    ensures { Gives ScheduleFault.Memory (λ erasure. erasure) result
        (erasure_at number (fields_of row.now)) }
{
    let Some(text) = field(row, b"erase") else {
        return Err(ScheduleFault::Erase(number));
    };
    match erasure_of(alloc, text)? {
        Some(erasure) => Ok(erasure),
        None => Err(ScheduleFault::Erase(number)),
    }
}

// The flipped places that a record names, none if there is no such column.
fn flip_at(alloc: Global, number: u32, row: &ByteRecord) -> Result<Places, ScheduleFault>
    ensures { Gives ScheduleFault.Memory (λ places. places) result
        (flip_at number (fields_of row.now)) }
{
    let Some(text) = field(row, b"flip") else {
        return Ok(Places::Nothing);
    };
    match places_of(alloc, text)? {
        Some(places) => Ok(places),
        None => Err(ScheduleFault::Flip(number)),
    }
}

// The code blocks that a record schedules, all if there is no such column.
fn mask_at(alloc: Global, number: u32, row: &ByteRecord) -> Result<Mask, ScheduleFault>
    ensures { Gives ScheduleFault.Memory (λ mask. mask) result
        (mask_at number (fields_of row.now)) }
{
    let Some(text) = field(row, b"mask") else {
        return Ok(Mask::All);
    };
    match mask_of(alloc, text)? {
        Some(mask) => Ok(mask),
        None => Err(ScheduleFault::Mask(number)),
    }
}

// The HARQ process that a record names. If there is no such column, block n has process n - 1.
fn process_at(number: u32, row: &ByteRecord, block: u32) -> Result<u32, ScheduleFault>
    ensures { result ≡ process_at number (fields_of row.now) block }
{
    let Some(text) = field(row, b"process") else {
        return Ok(block.saturating_sub(1));
    };
    match short_word(text) {
        Some(process) if process < PROCESSES => Ok(process),
        _ => Err(ScheduleFault::Process(number)),
    }
}

// Whether a record says that it is fresh, by the block of the round that its process is in. No record is if there is
// no such column.
fn fresh_at(
    number: u32,
    row: &ByteRecord,
    block: u32,
    begun: Option<u32>,
) -> Result<bool, ScheduleFault>
    ensures { result ≡ fresh_at number (fields_of row.now) block begun }
{
    match field(row, b"fresh") {
        None => Ok(false),
        Some(b"1") => Ok(true),
        Some(b"0") if begun == Some(block) => Ok(false),
        Some(_) => Err(ScheduleFault::Fresh(number)),
    }
}
