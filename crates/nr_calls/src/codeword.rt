//! Encoding one code block.

ghost use Rattle.std.specs.Prelude.{◌≡◌, ◌<◌, ◌≤◌, false, Err, length, map, IfOk};
ghost use Rattle.std.specs.List.{list_all};
ghost use Rattle.nr_refusal.specs.Refusal.{Gives};
ghost use Rattle.nr_calls.specs.Codeword.{AreCoded, bits_said, coded_by, coded_into_said, coded_octet, coded_said, is_digit};
ghost use Rattle.nr_calls.specs.{Entries.are_placed, Codeword.is_one, inside.Words.coded_of};
ghost use Rattle.nr_calls.specs.Statuses.{Returns, memory_anywhere};

use crate::coded_block::CodedBlock;
use crate::entries::{NrEntry, table_by};
use crate::fault::Fault;
use crate::plan::plan_on;
use nr_bitvec::Bits;
use nr_blockdesk::DeskFault;
use nr_ldpcenc::encode;
use nr_shifttable::Table;
use std::alloc::{AllocError, Global};

// The octet of a filler.
const FILLER: u8 = 2;

/// Encodes a code block of a transport block into the N bits d, one to an octet of `out` (TS 38.212, 5.3.2). `nr_c`
/// exports this call and says what each status means.
pub fn nr_codeword(
    alloc: Global,
    table: &[NrEntry],
    rate2048: u32,
    a: u32,
    bits: &[u8],
    out: &mut [u8],
) -> u32
    ensures said { Returns memory_anywhere result out.old out.new AreCoded
        (coded_into_said table.now rate2048 a bits.now (length out.old)) }
    ensures placed { are_placed table.now ≡ false → result ≡ 31 }
{
    match code_into(alloc, table, rate2048, a, bits, out.len()) {
        Ok(coded) => {
            write_coded(&coded, out);
            0
        }
        Err(fault) => fault.status(),
    }
}

// Writes an octet for each bit that the code block is encoded to.
fn write_coded(coded: &CodedBlock, out: &mut [u8])
    requires { length out.old ≡ coded.now.plan.n }
    ensures { AreCoded (coded_of coded.now) out.new }
{
    for (n, octet) in out.iter_mut().enumerate() {
        *octet = octet_at(coded, n);
    }
}

// The octet of a bit that the code block is encoded to.
#[tactic(auto, using(nr_ratematch::proofs::BufferFacts::coded_within))]
fn octet_at(coded: &CodedBlock, n: usize) -> u8
    requires { n < coded.now.plan.n }
    ensures { result ≡ coded_octet (coded_of coded.now) n }
{
    let at = n + 2 * coded.plan.z as usize;
    if (coded.plan.kdash as usize..coded.plan.k as usize).contains(&at) {
        FILLER
    } else {
        coded.word.get(at) as u8
    }
}

// The codeword for a room of so many octets.
fn code_into(
    alloc: Global,
    table: &[NrEntry],
    rate2048: u32,
    a: u32,
    octets: &[u8],
    room: usize,
) -> Result<CodedBlock, Fault>
    ensures said { Gives Fault.Memory coded_of result
        (coded_into_said table.now rate2048 a octets.now room) }
    ensures room { IfOk result (λ coded. coded.plan.n ≡ room) }
    ensures placed { are_placed table.now ≡ false → result ≡ Err Fault.Entries }
{
    let coded = code(alloc, table, rate2048, a, octets)?;
    if coded.plan.n as usize != room {
        return Err(Fault::Room);
    }
    Ok(coded)
}

// The codeword, by a shift table's entries.
#[tactic(auto, unfolding(crate::specs::Codeword::coded_said))]
fn code(
    alloc: Global,
    table: &[NrEntry],
    rate2048: u32,
    a: u32,
    octets: &[u8],
) -> Result<CodedBlock, Fault>
    ensures said { Gives Fault.Memory coded_of result
        (coded_said table.now rate2048 a octets.now) }
    ensures placed { are_placed table.now ≡ false → result ≡ Err Fault.Entries }
{
    let table = table_by(alloc, table)?;
    code_by(alloc, &table, rate2048, a, octets)
}

// The codeword, by a shift table.
#[tactic(auto, unfolding(crate::specs::Codeword::coded_by))]
fn code_by(
    alloc: Global,
    table: &Table,
    rate2048: u32,
    a: u32,
    octets: &[u8],
) -> Result<CodedBlock, Fault>
    ensures { Gives Fault.Memory coded_of result (coded_by table.now rate2048 a octets.now) }
{
    let plan = plan_on(rate2048, a)?;
    if !table.has(plan.graph) {
        return Err(Fault::Desk(DeskFault::Graph));
    }
    if octets.len() != plan.kdash as usize {
        return Err(Fault::Desk(DeskFault::Length));
    }
    let bits = bits_in(alloc, octets)?;
    let Ok(word) = encode(alloc, table, &plan, &bits) else {
        return Err(Fault::Memory);
    };
    Ok(CodedBlock { plan, word })
}

// The bits of octets that have one each.
#[tactic(auto, unfolding(crate::specs::Codeword::bits_said))]
fn bits_in(alloc: Global, octets: &[u8]) -> Result<Bits, Fault>
    requires { length octets.now ≤ 8448 }
    ensures said { Gives Fault.Memory (λ bits. bits.items) result (bits_said octets.now) }
    ensures long { IfOk result (λ bits. length bits.items ≡ length octets.now) }
{
    if !are_bits(octets) {
        return Err(Fault::Bit);
    }
    let bits = ones(alloc, octets)?;
    Ok(bits)
}

// Whether each octet is a bit.
pub(crate) fn are_bits(octets: &[u8]) -> bool
    ensures { result ≡ list_all is_digit octets.now }
{
    octets.iter().all(|octet| *octet <= 1)
}

// The list of whether each octet is 1.
pub(crate) fn ones(alloc: Global, octets: &[u8]) -> Result<Bits, AllocError>
    requires { length octets.now ≤ 4194304 }
    ensures { IfOk result (λ bits. bits.items ≡ map is_one octets.now) }
{
    let mut bits = Bits::with_room(alloc, octets.len() as u32)?;
    for octet in octets {
        bits.push_in_room(*octet == 1);
    }
    Ok(bits)
}
