//! Rate matching of a code block by its own numbers, without a transport block.

ghost use Rattle.std.specs.Prelude.{◌≡◌, ◌-◌, ◌*◌, ◌%◌, ◌<◌, ◌≤◌, length, IfOk, MatchResult, Ok, Err};
ghost use Rattle.nr_graphpick.specs.Graph.{cols_of};
ghost use Rattle.nr_interleave.specs.Interleaving.{interleaving_of};
ghost use Rattle.nr_ratematch.specs.Selection.{selection_of};
ghost use Rattle.nr_segment.specs.CodeBlock.{positions_of};
ghost use Rattle.nr_calls.specs.Crossing.{AreBits};
ghost use Rattle.nr_calls.specs.Matching.{matched_said, matching_buffer, matching_judged, matching_said};
ghost use Rattle.nr_calls.specs.Stages.{full_word};
ghost use Rattle.nr_calls.specs.Statuses.{Returns, memory_last};

use crate::crossing::write_bits;
use crate::encoding::{graph_of, lifted};
use crate::fault::Fault;
use crate::stages::{MOST_SENT, is_order, is_told, selected};
use nr_bitvec::Bits;
use nr_blockdesk::DeskFault;
use nr_interleave::spread;
use nr_ratematch::{Buffer, RmFault};
use nr_segment::Plan;
use std::alloc::{AllocError, Global};

/// The parameters by which a single code block is rate matched (TS 38.212, 5.4.2).
#[repr(C)]
#[derive(Clone, Copy)]
pub struct NrMatch {
    /// The base graph: 1 or 2.
    pub graph: u32,
    /// Zc, the lifting size.
    pub z: u32,
    /// K - K', the number of fillers among the K bits.
    pub fillers: u32,
    /// Ncb, the bits that the circular buffer keeps: 1 to N.
    pub ncb: u32,
    /// The redundancy version: 0 to 3.
    pub rv: u32,
    /// Qm, the bits of a modulation symbol: 1, 2, 4, 6 or 8.
    pub qm: u32,
    /// Reserved for later fields; it is not read.
    pub reserved: [u32; 2],
}

/// Selects and interleaves the bits of a code block by its own numbers, without a transport block (TS 38.212, 5.4.2).
/// `nr_c` exports this call and says what each status means.
pub fn nr_match(alloc: Global, numbers: &NrMatch, d: &[u8], out: &mut [u8]) -> u32
    ensures { Returns memory_last result out.old out.new AreBits
        (matched_said numbers.now d.now (length out.old)) }
{
    match judged(numbers, d, out.len()) {
        Ok((plan, buffer)) => match matched(alloc, numbers, &plan, &buffer, d, out.len()) {
            Ok(bits) => {
                write_bits(&bits, out);
                0
            }
            Err(_) => Fault::Memory.status(),
        },
        Err(fault) => fault.status(),
    }
}

// A plan and the buffer by which so many bits of d are sent, or the first cause against them.
#[tactic(auto, unfolding(crate::specs::Matching::matching_said))]
fn judged(numbers: &NrMatch, d: &[u8], e: usize) -> Result<(Plan, Buffer), Fault>
    ensures said { MatchResult result
        (λ both. matching_said numbers.now d.now e ≡ Ok both.1)
        (λ fault. matching_said numbers.now d.now e ≡ Err fault) }
    ensures version { IfOk result (λ both. numbers.now.rv < 4) }
    ensures whole { IfOk result (λ both. length d.now ≡ both.0.n) }
    ensures few { IfOk result (λ both. e ≤ 4194304) }
    ensures some { IfOk result (λ both. 0 < numbers.now.qm) }
    ensures symbols { IfOk result (λ both. e % numbers.now.qm ≡ 0) }
    ensures lifted { IfOk result (λ both. both.1.z ≡ both.0.z) }
    ensures columns { IfOk result (λ both. cols_of both.1.graph * both.1.z ≡ positions_of both.0) }
{
    let (plan, buffer) = block_of(numbers)?;
    judge_bits(numbers, &plan, &buffer, d, e)?;
    Ok((plan, buffer))
}

// A plan with the base graph and the lifting size, and the buffer, or the first cause against the numbers.
#[tactic(auto, unfolding(crate::specs::Matching::matching_buffer))]
fn block_of(numbers: &NrMatch) -> Result<(Plan, Buffer), Fault>
    ensures said { MatchResult result
        (λ both. matching_buffer numbers.now ≡ Ok both.1)
        (λ fault. matching_buffer numbers.now ≡ Err fault) }
    ensures graph { IfOk result (λ both. both.1.graph ≡ both.0.graph) }
    ensures lifted { IfOk result (λ both. both.1.z ≡ both.0.z) }
    ensures filled { IfOk result (λ both. both.1.kdash ≡ both.0.k - numbers.now.fillers) }
    ensures whole { IfOk result (λ both. both.1.k ≡ both.0.k) }
    ensures held { IfOk result (λ both. numbers.now.fillers ≤ both.0.k) }
{
    let Some(graph) = graph_of(numbers.graph) else {
        return Err(Fault::Desk(DeskFault::Graph));
    };
    let plan = lifted(graph, numbers.z)?;
    if numbers.fillers >= plan.k - 2 * plan.z {
        return Err(Fault::CodeBlock);
    }
    match Buffer::by_numbers(graph, numbers.z, numbers.fillers, numbers.ncb) {
        Ok(buffer) => Ok((plan, buffer)),
        Err(fault) => Err(Fault::Desk(DeskFault::Rm(fault))),
    }
}

// The first cause against the bits, if a code block has the buffer.
#[tactic(auto, unfolding(crate::specs::Matching::matching_judged))]
fn judge_bits(
    numbers: &NrMatch,
    plan: &Plan,
    buffer: &Buffer,
    d: &[u8],
    e: usize,
) -> Result<(), Fault>
    requires graph { buffer.now.graph ≡ plan.now.graph }
    requires lifted { buffer.now.z ≡ plan.now.z }
    requires filled { buffer.now.kdash ≡ plan.now.k - numbers.now.fillers }
    requires whole { buffer.now.k ≡ plan.now.k }
    requires held { numbers.now.fillers ≤ plan.now.k }
    ensures said { MatchResult result
        (λ done. matching_judged numbers.now buffer.now d.now e ≡ Ok buffer.now)
        (λ fault. matching_judged numbers.now buffer.now d.now e ≡ Err fault) }
    ensures version { IfOk result (λ done. numbers.now.rv < 4) }
    ensures whole { IfOk result (λ done. length d.now ≡ plan.now.n) }
    ensures few { IfOk result (λ done. e ≤ 4194304) }
    ensures some { IfOk result (λ done. 0 < numbers.now.qm) }
    ensures symbols { IfOk result (λ done. e % numbers.now.qm ≡ 0) }
{
    if numbers.rv > 3 {
        return Err(Fault::Desk(DeskFault::Rv));
    }
    if !is_order(numbers.qm) {
        return Err(Fault::Desk(DeskFault::Rm(RmFault::Order)));
    }
    if d.len() != plan.n as usize {
        return Err(Fault::Desk(DeskFault::Length));
    }
    if !is_told(plan, plan.k - numbers.fillers, d) {
        return Err(Fault::Bit);
    }
    if e > MOST_SENT {
        return Err(Fault::Many);
    }
    if e % numbers.qm as usize != 0 {
        return Err(Fault::Desk(DeskFault::Rm(RmFault::Ragged)));
    }
    Ok(())
}

// The bits that are selected from d, in the order in which they are sent.
fn matched(
    alloc: Global,
    numbers: &NrMatch,
    plan: &Plan,
    buffer: &Buffer,
    d: &[u8],
    e: usize,
) -> Result<Bits, AllocError>
    requires version { numbers.now.rv < 4 }
    requires whole { length d.now ≡ plan.now.n }
    requires few { e ≤ 4194304 }
    requires some { 0 < numbers.now.qm }
    requires symbols { e % numbers.now.qm ≡ 0 }
    requires lifted { buffer.now.z ≡ plan.now.z }
    requires columns { cols_of buffer.now.graph * buffer.now.z ≡ positions_of plan.now }
    ensures bits { IfOk result (λ bits. bits.items ≡ interleaving_of numbers.now.qm
        (selection_of buffer.now (full_word buffer.now.z d.now) numbers.now.rv e)) }
    ensures long { IfOk result (λ bits. length bits.items ≡ e) }
{
    let bits = selected(alloc, plan, buffer, numbers.rv, d, e)?;
    let sent = spread(alloc, numbers.qm, &bits)?;
    Ok(sent)
}
