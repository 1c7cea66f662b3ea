//! Encoding the K bits of a code block, by its base graph and its lifting size.

ghost use Rattle.std.specs.Prelude.{◌≡◌, ◌+◌, ◌*◌, ◌<◌, ◌≤◌, true, false, Err, Ok, Some, length, map, IfOk};
ghost use Rattle.std.specs.Prelude.{MatchResult};
ghost use Rattle.std.specs.List.{list_all};
ghost use Rattle.nr_refusal.specs.Refusal.{Gives};
ghost use Rattle.nr_segment.specs.CodeBlock.{positions_of};
ghost use Rattle.nr_shifttable.specs.Accepted.{has_graph};
ghost use Rattle.nr_calls.specs.Codeword.{is_one};
ghost use Rattle.nr_calls.specs.Encoding.{AreEncoded, can_lift, encode_judged, encode_said, encoded_octet, base_graph};
ghost use Rattle.nr_calls.specs.Encoding.{is_coded, word_for};
ghost use Rattle.nr_calls.specs.inside.Words.{encoded_of, held_columns};
ghost use Rattle.nr_calls.specs.Entries.{are_placed};
ghost use Rattle.nr_calls.specs.Statuses.{Returns, memory_anywhere};

use crate::coded_block::CodedBlock;
use crate::entries::{NrEntry, table_by};
use crate::fault::Fault;
use nr_blockdesk::DeskFault;
use nr_graphpick::Graph;
use nr_ldpcenc::{Word, fill};
use nr_segment::{Plan, plan};
use nr_shifttable::Table;
use std::alloc::{AllocError, Global};

// The octet of a filler.
const FILLER: u8 = 2;

// The largest lifting size.
const MOST_LIFTED: u32 = 384;

/// Encodes the K bits of a code block by base graph and lifting size, one bit to an octet of `out` (TS 38.212, 5.3.2).
/// `nr_c` exports this call and says what each status means.
pub fn nr_encode(
    alloc: Global,
    table: &[NrEntry],
    graph: u32,
    z: u32,
    bits: &[u8],
    out: &mut [u8],
) -> u32
    ensures said { Returns memory_anywhere result out.old out.new (AreEncoded bits.now)
        (encode_said table.now graph z bits.now (length out.old)) }
    ensures placed { are_placed table.now ≡ false → result ≡ 31 }
{
    match encode(alloc, table, graph, z, bits, out.len()) {
        Ok(coded) => {
            write_encoded(&coded, bits, out);
            0
        }
        Err(fault) => fault.status(),
    }
}

// Writes an octet for each bit of d.
fn write_encoded(coded: &CodedBlock, octets: &[u8], out: &mut [u8])
    requires { length out.old ≡ coded.now.plan.n }
    ensures { AreEncoded octets.now (encoded_of coded.now) out.new }
{
    for (n, octet) in out.iter_mut().enumerate() {
        *octet = octet_at(coded, octets, n);
    }
}

// The octet of a bit of d.
#[tactic(auto, using(nr_ratematch::proofs::BufferFacts::coded_within))]
fn octet_at(coded: &CodedBlock, octets: &[u8], n: usize) -> u8
    requires { n < coded.now.plan.n }
    ensures { result ≡ encoded_octet (encoded_of coded.now) octets.now n }
{
    let at = n + 2 * coded.plan.z as usize;
    if at < octets.len() && octets[at] == FILLER {
        FILLER
    } else {
        coded.word.get(at) as u8
    }
}

// The word that K octets are encoded into, for a room of so many octets.
#[tactic(auto, unfolding(crate::specs::Encoding::encode_said, crate::specs::Encoding::encode_by))]
fn encode(
    alloc: Global,
    table: &[NrEntry],
    graph: u32,
    z: u32,
    octets: &[u8],
    room: usize,
) -> Result<CodedBlock, Fault>
    ensures said { Gives Fault.Memory encoded_of result
        (encode_said table.now graph z octets.now room) }
    ensures room { IfOk result (λ coded. coded.plan.n ≡ room) }
    ensures placed { are_placed table.now ≡ false → result ≡ Err Fault.Entries }
{
    let table = table_by(alloc, table)?;
    let plan = encode_plan(&table, graph, z, octets, room)?;
    let word = word_on(alloc, &table, &plan, octets)?;
    Ok(CodedBlock { plan, word })
}

// A plan with the base graph and the lifting size, or the first cause against the octets.
#[tactic(auto, unfolding(crate::specs::Encoding::encode_judged))]
fn encode_plan(table: &Table, graph: u32, z: u32, octets: &[u8], room: usize) -> Result<Plan, Fault>
    ensures said { MatchResult result
        (λ plan. encode_judged table.now graph z octets.now room ≡ Ok plan.graph)
        (λ fault. encode_judged table.now graph z octets.now room ≡ Err fault) }
    ensures there { IfOk result (λ plan. has_graph plan.graph table.now ≡ true) }
    ensures lifted { IfOk result (λ plan. plan.z ≡ z) }
    ensures whole { IfOk result (λ plan. length octets.now ≡ plan.k) }
    ensures room { IfOk result (λ plan. plan.n ≡ room) }
{
    let Some(graph) = graph_of(graph) else {
        return Err(Fault::Desk(DeskFault::Graph));
    };
    if !table.has(graph) {
        return Err(Fault::Desk(DeskFault::Graph));
    }
    let plan = lifted(graph, z)?;
    if octets.len() != plan.k as usize {
        return Err(Fault::Desk(DeskFault::Length));
    }
    if !are_coded(octets) {
        return Err(Fault::Bit);
    }
    if plan.n as usize != room {
        return Err(Fault::Room);
    }
    Ok(plan)
}

// The base graph of a number.
pub(crate) fn graph_of(number: u32) -> Option<Graph>
    ensures { result ≡ base_graph number }
{
    match number {
        1 => Some(Graph::One),
        2 => Some(Graph::Two),
        _ => None,
    }
}

// Whether each octet is a bit or a filler. All are looked at, so that a compiler can take many at a time.
pub(crate) fn are_coded(octets: &[u8]) -> bool
    ensures { result ≡ list_all is_coded octets.now }
{
    let mut most = 0;
    for octet in octets {
        most = most.max(*octet);
    }
    most <= FILLER
}

// The plan of a code block that has this lifting size: it has the base graph, K and N of all that have it.
pub(crate) fn lifted(graph: Graph, z: u32) -> Result<Plan, Fault>
    ensures said { MatchResult result (λ plan. can_lift graph z ≡ true)
        (λ fault. (can_lift graph z ≡ false) × (fault ≡ Fault.Lifting)) }
    ensures graph { IfOk result (λ plan. plan.graph ≡ graph) }
    ensures size { IfOk result (λ plan. plan.z ≡ z) }
{
    if z > MOST_LIFTED {
        return Err(Fault::Lifting);
    }
    match plan(graph, held_columns(graph, z) * z) {
        Ok(plan) if plan.z == z => Ok(plan),
        _ => Err(Fault::Lifting),
    }
}

// So many columns Kb that a code block of Kb z bits has the lifting size z, if any has it.
fn held_columns(graph: Graph, z: u32) -> u32
    ensures { result ≡ held_columns graph z }
{
    match (graph, z) {
        (Graph::One, _) => 22,
        (Graph::Two, ..=32) => 6,
        (Graph::Two, ..=64) => 8,
        (Graph::Two, _) => 10,
    }
}

// The word that begins with K bits and meets every row.
fn word_on(alloc: Global, table: &Table, plan: &Plan, octets: &[u8]) -> Result<Word, AllocError>
    requires there { has_graph plan.now.graph table.now ≡ true }
    requires whole { length octets.now ≡ plan.now.k }
    ensures word { IfOk result (λ word. word
        ≡ word_for table.now plan.now.graph plan.now.z (map is_one octets.now)) }
    ensures long { IfOk result (λ word. length word ≡ positions_of plan.now) }
{
    let mut word = Word::new(alloc, plan)?;
    for (i, octet) in octets.iter().enumerate() {
        word.set(i, *octet == 1);
    }
    fill(table, plan, &mut word);
    Ok(word)
}
