//! The octets of the state of a receiver that a caller in C keeps: writing them, and reading them again.

ghost use Rattle.std.specs.Prelude.{◌≡◌, ℕ, ◌+◌, ◌++◌, ◌<◌, ◌≤◌, ◌^◌, IfOk, OnOk, flat_map};
ghost use Rattle.std.specs.Prelude.{length, slice_index_or};
ghost use Rattle.std.specs.Int.{to_le_bytes, w32};
ghost use Rattle.nr_harqbuf.specs.Record.{HeardBits};
ghost use Rattle.nr_refusal.specs.Refusal.{Gives, or_fault};
ghost use Rattle.nr_segment.specs.CodeBlock.{numbers, positions_of};
ghost use Rattle.nr_calls.specs.inside.Words.{first_of};
ghost use Rattle.nr_calls.specs.Rooms.{RoomsAreRead, digest_entry, digest_of, digest_with, four, position_octet};
ghost use Rattle.nr_calls.specs.Rooms.{record_in, record_octets, records_from, room_length};

use crate::crossing::write_word;
use crate::encoding::are_coded;
use crate::entries::NrEntry;
use crate::fault::Fault;
use crate::marks::marks_of;
use nr_harqbuf::Store;
use nr_segment::Plan;
use std::alloc::{AllocError, Global};

// How a digest begins, and what it is multiplied by at each number: those of FNV-1a, of 64 bits.
const BEGIN: u64 = 14_695_981_039_346_656_037;

const FACTOR: u64 = 1_099_511_628_211;

// How many octets a room begins with.
const HEADER: usize = 32;

// The octet of a position at which nothing was heard.
const NOTHING: u8 = 2;

// How many octets the room of a receiver of transport blocks of this plan has.
pub(crate) fn room_length(plan: &Plan) -> usize
    ensures { result ≡ room_length plan.now.graph (numbers plan.now) }
{
    HEADER + plan.c as usize * (positions(plan) + 1)
}

// How many positions a codeword of this plan has.
pub(crate) fn positions(plan: &Plan) -> usize
    ensures same { result ≡ positions_of plan.now }
    ensures few { result ≤ 26112 }
{
    plan.graph.cols() as usize * plan.z as usize
}

// The digest of a shift table's entries: the higher half of that of all their numbers.
#[tactic(auto, using(std::proofs::lemmas::List::Sums::fold_more), unfolding(crate::specs::Rooms::digest_of))]
pub(crate) fn digest_of(entries: &[NrEntry]) -> u32
    ensures { result ≡ digest_of entries.now }
{
    let mut digest = BEGIN;
    for entry in entries {
        digest = digest_entry(digest, entry);
    }
    (digest >> 32) as u32
}

// The digest with one more entry.
fn digest_entry(digest: u64, entry: &NrEntry) -> u64
    ensures { result ≡ digest_entry digest entry.now }
{
    let values = &entry.entry.values;
    let place = four(entry.graph, entry.entry.row, entry.entry.col, values[0]);
    let front = digest_with(
        digest_with(digest, place),
        four(values[1], values[2], values[3], values[4]),
    );
    digest_with(front, four(values[5], values[6], values[7], 0))
}

// Four numbers as one, the first lowest.
fn four(a: u16, b: u16, c: u16, d: u16) -> u64
    ensures { result ≡ four a b c d }
{
    let high = u64::from(c) + 65_536 * u64::from(d);
    u64::from(a) + 65_536 * (u64::from(b) + 65_536 * high)
}

// The digest with one more number. A product moves bits up alone, so its higher half is brought down too.
fn digest_with(digest: u64, number: u64) -> u64
    ensures { result ≡ digest_with digest number }
{
    let product = (digest ^ number).wrapping_mul(FACTOR);
    product ^ (product >> 32)
}

// The octets of numbers, four for each, the lowest first, with memory for so many in all.
#[tactic(auto, using(crate::proofs::RoomOctetFacts::flat_map_next))]
pub(crate) fn octets_of(alloc: Global, numbers: &[u32], count: usize) -> Result<Vec<u8>, AllocError>
    ensures { IfOk result (λ octets. octets.items ≡ flat_map (to_le_bytes w32) numbers.now) }
{
    let mut octets = Vec::with_capacity(alloc, count)?;
    for number in numbers {
        octets.extend_from_slice(&number.to_le_bytes())?;
    }
    Ok(octets)
}

// The octets of some records after those of a header.
#[tactic(auto, using(crate::proofs::RoomOctetFacts::flat_map_next))]
pub(crate) fn room_octets(header: Vec<u8>, stores: &[Store]) -> Result<Vec<u8>, AllocError>
    ensures { IfOk result (λ octets. octets.items
        ≡ header.items ++ flat_map record_octets stores.now) }
{
    let mut octets = header;
    for store in stores {
        push_record(&mut octets, store)?;
    }
    Ok(octets)
}

// Writes the record of a code block after other octets, 64 positions at a time.
fn push_record(octets: &mut Vec<u8>, store: &Store) -> Result<(), AllocError>
    ensures { OnOk result (octets.new.items ≡ octets.old.items ++ record_octets store.now) }
{
    octets.push(u8::from(store.clash()))?;
    let positions = store.positions() as usize;
    for i in 0..positions.div_ceil(64) {
        let at = 64 * i;
        let marks = store.marks();
        let places = position_octets(marks.heard.window(at), marks.value.window(at));
        octets.extend_from_slice(&places[..(positions - at).min(64)])?;
    }
    Ok(())
}

// The octets of 64 positions, by marks of those at which a bit was heard, and the bits, the first position's lowest.
fn position_octets(marks: u64, bits: u64) -> [u8; 64]
    ensures { (k : ℕ) → k < 64 → slice_index_or result k 0 ≡ position_octet (first_of marks bits k) }
{
    let mut heard = [0; 64];
    write_word(marks, &mut heard);
    let mut octets = [0; 64];
    write_word(bits, &mut octets);
    // Each place is written, so that a compiler can take many at a time.
    for k in 0..64 {
        octets[k] = if heard[k] == 0 { NOTHING } else { octets[k] };
    }
    octets
}

// The stores of the records that octets have, of `c` code blocks with so many positions each.
pub(crate) fn stores_in(
    alloc: Global,
    c: u32,
    positions: usize,
    octets: &[u8],
) -> Result<Vec<Store>, Fault>
    requires { positions ≤ 26112 }
    ensures { Gives Fault.Memory (λ stores. stores.items) result
        (or_fault Fault.State (records_from positions c octets.now)) }
{
    let mut stores = Vec::with_capacity(alloc, c as usize)?;
    let mut rest = octets;
    for _ in 0..c {
        if rest.len() <= positions {
            return Err(Fault::State);
        }
        let (part, later) = rest.split_at(positions + 1);
        stores.push_reserved(store_in(alloc, positions, part)?);
        rest = later;
    }
    if !rest.is_empty() {
        return Err(Fault::State);
    }
    Ok(stores)
}

// The store of the record that the octets of one code block have.
#[tactic(auto, using(crate::proofs::RoomOctetFacts::kept_octets), unfolding(crate::specs::Rooms::record_in))]
fn store_in(alloc: Global, positions: usize, octets: &[u8]) -> Result<Store, Fault>
    requires long { length octets.now ≡ positions + 1 }
    requires few { positions ≤ 26112 }
    ensures { Gives Fault.Memory (λ store. store) result
        (or_fault Fault.State (record_in positions octets.now)) }
{
    let Some((clash, places)) = octets.split_first() else {
        return Err(Fault::State);
    };
    if *clash > 1 || !are_coded(places) {
        return Err(Fault::State);
    }
    let marks = marks_of(alloc, places)?;
    Ok(Store::of_record(marks, *clash == 1))
}

/// Lemma: how a state is read follows from how it is written. A state that a call has written is always accepted, and one that
/// is accepted has the octets of the records that are read from it.
pub fn rooms_are_read()
    ensures { RoomsAreRead }
{}
