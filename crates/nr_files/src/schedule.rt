//! The schedule file, with one transmission per record, and the reasons why it is rejected.

ghost use Rattle.std.specs.Prelude.{◌≡◌, ◌+◌, ◌^◌, ◌<◌, ◌≤◌, true, All, IfOk, IfSome, IsErrOf, length, map};
ghost use Rattle.std.specs.{List.range_with_len, Prelude.[]};
ghost use Rattle.csv.specs.Records.{fields_of};
ghost use Rattle.nr_refusal.specs.Refusal.{Gives, FailsAs};
ghost use Rattle.nr_streams.specs.{Records.records_of, Source.TookAtMost};
ghost use Rattle.nr_files.specs.Schedule.{EachGoesOn, HasBlock, IsPlaced, schedule_of, schedule_said, timetable_by};
ghost use Rattle.nr_files.specs.Schedule.{transmissions_from};

mod columns;
mod record;

use crate::erasure::{Erasure, Places};
use crate::rounds::Earlier;
use columns::{has_column, is_header};
use csv::ByteRecord;
use nr_streams::{ReadFault, Records, Source, read_to_end};
use nr_transmission::Tx;
use record::transmission_of;
use std::alloc::{AllocError, AllocFailed, Global};
use thiserror::Error;

// The most octets of a schedule file.
const MOST_OCTETS: usize = 16_777_216;

/// The number of HARQ processes of a receiver (TS 38.214, 5.1).
pub const PROCESSES: u32 = 16;

/// Why a schedule file is rejected. Records are counted from 1, the header being record 1.
#[derive(Clone, Copy, Debug, PartialEq, Eq, Error)]
pub enum ScheduleFault {
    /// The file could not be read.
    #[error("Read")]
    Read,
    /// The file has more than 16,777,216 octets.
    #[error("TooLong")]
    TooLong,
    /// The record does not have as many fields as the header.
    #[error("Csv {0}")]
    Csv(u32),
    /// Record 1 is missing or is not a header.
    #[error("Header")]
    Header,
    /// One of the record's five numbers is not 1 to 10 decimal digits, or is above 4,294,967,295.
    #[error("Number {0}")]
    Number(u32),
    /// The blocks file does not have the block that the record names.
    #[error("Block {0}")]
    Block(u32),
    /// The record's field `erase` is not an erasure.
    #[error("Erase {0}")]
    Erase(u32),
    /// There are more than 4,096 transmissions.
    #[error("TooMany")]
    TooMany,
    /// The record's field `flip` does not list places.
    #[error("Flip {0}")]
    Flip(u32),
    /// The record's field `mask` does not list code blocks.
    #[error("Mask {0}")]
    Mask(u32),
    /// The record's field `process` is not a number below 16.
    #[error("Process {0}")]
    Process(u32),
    /// The record's field `fresh` (the new-data indicator) is neither `0` nor `1`; or it is `0`, but no record of its
    /// process with `1` comes before it, or the last of these names another block.
    #[error("Fresh {0}")]
    Fresh(u32),
    /// Memory ran out.
    #[error("Memory")]
    Memory,
}

impl From<AllocError> for ScheduleFault {
    ghost use Rattle.std.specs.Prelude.{◌≡◌};
    ghost use Rattle.nr_files.specs.declared.schedule.ScheduleFault.TheVariants.{Memory};

    ghost from_gives = { λ _ fault. fault ≡ Memory };

    fn from(_error: AllocError) -> ScheduleFault {
        ScheduleFault::Memory
    }
}

impl<T: Drop> From<AllocFailed<T>> for ScheduleFault {
    ghost use Rattle.std.specs.Prelude.{◌≡◌};
    ghost use Rattle.nr_files.specs.declared.schedule.ScheduleFault.TheVariants.{Memory};

    ghost from_gives = { λ _ fault. fault ≡ Memory };

    fn from(_failed: AllocFailed<T>) -> ScheduleFault {
        ScheduleFault::Memory
    }
}

/// One transmission of a transport block, as a record of the schedule describes it.
#[derive(Drop)]
pub struct Transmission {
    /// The number of the transmission, counted from 1: record 2 is transmission 1.
    pub number: u32,
    /// The number of the transport block in the blocks file, counted from 1.
    pub block: u32,
    /// The numbers with which it is sent, and the code blocks that are scheduled.
    pub tx: Tx,
    /// The places that are not received.
    pub erasure: Erasure,
    /// The places whose bits arrive flipped.
    pub flip: Places,
    /// The HARQ process, counted from 0 (TS 38.212, 7.3.1). If the schedule names none, block n has process n - 1 to
    /// itself.
    pub process: u32,
    /// Whether the transmission has new data, so that its process discards what it received before. If the schedule
    /// does not say so, no transmission has.
    pub fresh: bool,
}

/// What a schedule file says.
#[derive(Drop)]
pub struct Schedule {
    /// Whether the file names a HARQ process for each transmission.
    pub by_process: bool,
    /// The transmissions, in their order.
    pub transmissions: Vec<Transmission>,
}

/// Reads a schedule file to its end and checks it against the number of transport blocks.
///
/// Record 1 is the header `block,rv,g,qm,nl,erase`, optionally followed by `flip`, then optionally by `mask`, and then
/// optionally by both `process` and `fresh`. Each other record is a transmission, and there are at most 4,096. Spaces
/// and tabs at the ends of a field are ignored. `block` is the number of a block. `rv`, `g`, `qm` and `nl` are numbers
/// of 32 bits, whose values are not checked here. `process` is a number below 16, and `fresh` is `0` or `1`. Without
/// these columns no place is flipped, all code blocks are scheduled, and each block has a process to itself, without a
/// new-data indicator.
///
/// `flip` is `-` (no place), `all`, or a list of places: items separated by one space, each of which is a place `m` or
/// a range `m-n` with m at most n. Places are counted from 0, and each number has 1 to 10 decimal digits. `erase` is
/// one of these or `pcg:seed:threshold`, whose seed has 64 bits in 1 to 20 decimal digits, and whose threshold has 32
/// bits in 1 to 10. `mask` is `all` or a list of code blocks (TS 38.212, 5.4.2.1), of which those from 384 on are
/// ignored.
///
/// # Errors
///
/// `Read` if a pull fails or `TooLong` at more than 16,777,216 octets, whichever is met first; then `Header`; then,
/// record by record, `Csv`, `TooMany`, `Number`, `Block`, `Erase`, `Flip`, `Mask`, `Process`, `Fresh`. `Memory` if
/// memory runs out.
pub fn read_schedule<S: Source>(
    alloc: Global,
    blocks: u32,
    source: &mut S,
) -> Result<Schedule, ScheduleFault>
    requires { S.failures source.old < 2 ^ 32 }
    ensures said { S.failures source.new ≡ S.failures source.old → IfSome (S.remaining source.old)
        (λ octets. Gives ScheduleFault.Memory timetable_by result (schedule_said blocks octets)) }
    ensures few { IfOk result (λ s. length s.transmissions.items ≤ 4096) }
    ensures blocks { IfOk result (λ s. All (HasBlock blocks) s.transmissions.items) }
    ensures numbers { IfOk result
        (λ s. map (λ t. t.number) s.transmissions.items
        ≡ range_with_len 1 (length s.transmissions.items)) }
    ensures placed { IfOk result
        (λ s. All (IsPlaced s.by_process) s.transmissions.items) }
    ensures rounds { IfOk result
        (λ s. s.by_process ≡ true → EachGoesOn s.transmissions.items) }
    ensures first { IsErrOf result ScheduleFault.Read
        → TookAtMost 16777216 (S.remaining source.old) (S.remaining source.new) }
    ensures pulled { FailsAs ScheduleFault.Read result
        (S.failures source.old) (S.failures source.new) }
{
    let octets = match read_to_end(alloc, source, MOST_OCTETS) {
        Ok(octets) => octets,
        Err(ReadFault::Broken) => return Err(ScheduleFault::Read),
        Err(ReadFault::TooLong) => return Err(ScheduleFault::TooLong),
        Err(ReadFault::Memory) => return Err(ScheduleFault::Memory),
    };
    parse_schedule(alloc, blocks, &octets)
}

// The transmissions of a text for this many transport blocks, with what holds of them.
fn parse_schedule(alloc: Global, blocks: u32, text: &[u8]) -> Result<Schedule, ScheduleFault>
    ensures said { Gives ScheduleFault.Memory timetable_by result
        (schedule_said blocks text.now) }
    ensures few { IfOk result (λ s. length s.transmissions.items ≤ 4096) }
    ensures blocks { IfOk result (λ s. All (HasBlock blocks) s.transmissions.items) }
    ensures numbers { IfOk result
        (λ s. map (λ t. t.number) s.transmissions.items
        ≡ range_with_len 1 (length s.transmissions.items)) }
    ensures placed { IfOk result
        (λ s. All (IsPlaced s.by_process) s.transmissions.items) }
    ensures rounds { IfOk result
        (λ s. s.by_process ≡ true → EachGoesOn s.transmissions.items) }
{
    judged(alloc, blocks, text)
}

// The transmissions of a text, if it is not too long.
#[tactic(auto, unfolding(crate::specs::Schedule::schedule_said))]
fn judged(alloc: Global, blocks: u32, text: &[u8]) -> Result<Schedule, ScheduleFault>
    ensures { Gives ScheduleFault.Memory timetable_by result (schedule_said blocks text.now) }
{
    if text.len() > MOST_OCTETS {
        return Err(ScheduleFault::TooLong);
    }
    read_records(alloc, blocks, text)
}

// The transmissions, record by record. The records and the row are owned here, and the transmissions so far in `schedule_in`, so
// that an error drops few values at a time.
fn read_records(alloc: Global, blocks: u32, text: &[u8]) -> Result<Schedule, ScheduleFault>
    requires { length text.now < 2 ^ 32 }
    ensures { Gives ScheduleFault.Memory timetable_by result
        (schedule_of blocks (records_of text.now)) }
{
    let mut records = Records::new(alloc, text);
    let mut row = ByteRecord::new(alloc);
    schedule_in(alloc, blocks, &mut records, &mut row)
}

// What records say: a header, and a transmission each.
fn schedule_in(
    alloc: Global,
    blocks: u32,
    records: &mut Records,
    row: &mut ByteRecord,
) -> Result<Schedule, ScheduleFault>
    requires { length records.old < 2 ^ 32 }
    ensures { Gives ScheduleFault.Memory timetable_by result (schedule_of blocks records.old) }
{
    if !records.next(row)? {
        return Err(ScheduleFault::Header);
    }
    if !is_header(row) {
        return Err(ScheduleFault::Header);
    }
    let by_process = has_column(row, b"process");
    let mut earlier = Earlier::new(alloc);
    read_transmissions(alloc, blocks, records, row, &mut earlier)?;
    Ok(Schedule {
        by_process,
        transmissions: earlier.transmissions,
    })
}

// Adds the transmission of each record behind a header, which is in `row`.
fn read_transmissions(
    alloc: Global,
    blocks: u32,
    records: &mut Records,
    row: &mut ByteRecord,
    earlier: &mut Earlier,
) -> Result<(), ScheduleFault>
    requires few { length records.old + 1 < 2 ^ 32 }
    requires none { earlier.old.transmissions.items ≡ [] }
    ensures { Gives ScheduleFault.Memory (λ _. earlier.new.transmissions.items) result
        (transmissions_from blocks (length (fields_of row.old)) 2 [] records.old) }
{
    let width = row.len();
    let mut number = 1;
    while records.next(row)? {
        number += 1;
        let transmission = transmission_of(alloc, blocks, width, number, earlier, row)?;
        earlier.push(transmission)?;
    }
    Ok(())
}
