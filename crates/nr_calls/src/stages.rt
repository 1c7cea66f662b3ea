//! The stages of a code block between its encoding and its transmission: selection and interleaving.

ghost use Rattle.std.specs.Prelude.{◌≡◌, ◌*◌, ◌%◌, ◌<◌, ◌≤◌, true, length, map, IfOk, MatchResult, Ok, Err};
ghost use Rattle.nr_graphpick.specs.Graph.{cols_of};
ghost use Rattle.nr_ratematch.specs.Lengths.{is_order};
ghost use Rattle.nr_ratematch.specs.Selection.{Circular, selection_of};
ghost use Rattle.nr_segment.specs.CodeBlock.{positions_of};
ghost use Rattle.nr_interleave.specs.Interleaving.{interleaving_of};
ghost use Rattle.nr_calls.specs.Codeword.{is_one};
ghost use Rattle.nr_calls.specs.Crossing.{AreBits, settings_in};
ghost use Rattle.nr_calls.specs.Stages.{interleaved_said, interleaving_said, is_told, is_told_at, selected_said, selecting_said};
ghost use Rattle.nr_calls.specs.Stages.{full_word};
ghost use Rattle.nr_calls.specs.Statuses.{Returns, memory_last};

use crate::codeword::{are_bits, ones};
use crate::crossing::{NrSettings, write_bits};
use crate::fault::Fault;
use crate::plan::plan_on;
use nr_bitvec::Bits;
use nr_blockdesk::{DeskFault, Settings};
use nr_interleave::spread;
use nr_ldpcenc::Word;
use nr_ratematch::{Buffer, RmFault, select};
use nr_segment::Plan;
use std::alloc::{AllocError, Global};

// The octet of a filler.
const FILLER: u8 = 2;

// The most bits of a code block that a transmission sends.
pub(crate) const MOST_SENT: usize = 4_194_304;

/// Selects bits of a code block by the redundancy version, one to an octet of `out` (TS 38.212, 5.4.2.1). `nr_c`
/// exports this call and says what each status means.
pub fn nr_select(
    alloc: Global,
    settings: &NrSettings,
    a: u32,
    rv: u32,
    d: &[u8],
    out: &mut [u8],
) -> u32
    ensures { Returns memory_last result out.old out.new AreBits
        (selected_said (settings_in settings.now) a rv d.now (length out.old)) }
{
    match select_plan(settings.settings(), a, rv, d, out.len()) {
        Ok((plan, buffer)) => match selected(alloc, &plan, &buffer, rv, d, out.len()) {
            Ok(bits) => {
                write_bits(&bits, out);
                0
            }
            Err(_) => Fault::Memory.status(),
        },
        Err(fault) => fault.status(),
    }
}

// The plan of a code block and its buffer, to select so many bits of d, or the first cause against them.
#[tactic(auto, unfolding(crate::specs::Stages::selecting_said))]
fn select_plan(
    settings: Settings,
    a: u32,
    rv: u32,
    d: &[u8],
    e: usize,
) -> Result<(Plan, Buffer), Fault>
    ensures said { MatchResult result
        (λ both. selecting_said settings a rv d.now e ≡ Ok both.1)
        (λ fault. selecting_said settings a rv d.now e ≡ Err fault) }
    ensures version { IfOk result (λ both. rv < 4) }
    ensures whole { IfOk result (λ both. length d.now ≡ both.0.n) }
    ensures few { IfOk result (λ both. e ≤ 4194304) }
    ensures lifted { IfOk result (λ both. both.1.z ≡ both.0.z) }
    ensures columns { IfOk result (λ both. cols_of both.1.graph * both.1.z ≡ positions_of both.0) }
{
    let plan = plan_on(settings.rate2048, a)?;
    let buffer = match Buffer::new(&plan, settings.lbrm) {
        Ok(buffer) => buffer,
        Err(fault) => return Err(Fault::Desk(DeskFault::Rm(fault))),
    };
    if rv > 3 {
        return Err(Fault::Desk(DeskFault::Rv));
    }
    if d.len() != plan.n as usize {
        return Err(Fault::Desk(DeskFault::Length));
    }
    if !is_told(&plan, plan.kdash, d) {
        return Err(Fault::Bit);
    }
    if e > MOST_SENT {
        return Err(Fault::Many);
    }
    Ok((plan, buffer))
}

// Whether octet `n` of d is 2 for a filler, and a bit otherwise.
fn is_told_at(plan: &Plan, kdash: u32, d: &[u8], n: usize) -> bool
    requires { n < length d.now }
    ensures { (b : Circular) → b.z ≡ plan.now.z → b.kdash ≡ kdash → b.k ≡ plan.now.k
        → result ≡ is_told_at b d.now n }
{
    let at = n + 2 * plan.z as usize;
    if (kdash as usize..plan.k as usize).contains(&at) {
        d[n] == FILLER
    } else {
        d[n] <= 1
    }
}

// Whether each octet of d is 2 for a filler, from K' on, and a bit otherwise.
pub(crate) fn is_told(plan: &Plan, kdash: u32, d: &[u8]) -> bool
    ensures { (b : Circular) → b.z ≡ plan.now.z → b.kdash ≡ kdash → b.k ≡ plan.now.k
        → result ≡ is_told b d.now }
{
    let mut told = true;
    for n in 0..d.len() {
        told = told && is_told_at(plan, kdash, d, n);
    }
    told
}

// The bits that are selected from d.
pub(crate) fn selected(
    alloc: Global,
    plan: &Plan,
    buffer: &Buffer,
    rv: u32,
    d: &[u8],
    e: usize,
) -> Result<Bits, AllocError>
    requires version { rv < 4 }
    requires whole { length d.now ≡ plan.now.n }
    requires few { e ≤ 4194304 }
    requires lifted { buffer.now.z ≡ plan.now.z }
    requires columns { cols_of buffer.now.graph * buffer.now.z ≡ positions_of plan.now }
    ensures bits { IfOk result
        (λ bits. bits.items ≡ selection_of buffer.now (full_word plan.now.z d.now) rv e) }
    ensures long { IfOk result (λ bits. length bits.items ≡ e) }
{
    let word = full_word(alloc, plan, d)?;
    let bits = select(alloc, buffer, &word, rv, e as u32)?;
    Ok(bits)
}

// The word that has d after its first two columns.
fn full_word(alloc: Global, plan: &Plan, d: &[u8]) -> Result<Word, AllocError>
    requires { length d.now ≡ plan.now.n }
    ensures word { IfOk result (λ word. word ≡ full_word plan.now.z d.now) }
    ensures long { IfOk result (λ word. length word ≡ positions_of plan.now) }
{
    let mut word = Word::new(alloc, plan)?;
    let first = 2 * plan.z as usize;
    for (n, octet) in d.iter().enumerate() {
        word.set(first + n, *octet == 1);
    }
    Ok(word)
}

/// Interleaves the selected bits of a code block, one to an octet of `out` (TS 38.212, 5.4.2.2). `nr_c` exports this
/// call and says what each status means.
pub fn nr_interleave(alloc: Global, qm: u32, bits: &[u8], out: &mut [u8]) -> u32
    ensures { Returns memory_last result out.old out.new AreBits
        (interleaved_said qm bits.now (length out.old)) }
{
    match judge_symbols(qm, bits, out.len()) {
        Ok(()) => match interleaved(alloc, qm, bits) {
            Ok(bits) => {
                write_bits(&bits, out);
                0
            }
            Err(_) => Fault::Memory.status(),
        },
        Err(fault) => fault.status(),
    }
}

// The first cause against octets that have a selected bit each.
#[tactic(auto, unfolding(crate::specs::Stages::interleaving_said))]
fn judge_symbols(qm: u32, octets: &[u8], room: usize) -> Result<(), Fault>
    ensures said { MatchResult result
        (λ done. interleaving_said qm octets.now room ≡ Ok (map is_one octets.now))
        (λ fault. interleaving_said qm octets.now room ≡ Err fault) }
    ensures some { IfOk result (λ done. 0 < qm) }
    ensures few { IfOk result (λ done. length octets.now ≤ 4194304) }
    ensures whole { IfOk result (λ done. length octets.now % qm ≡ 0) }
    ensures room { IfOk result (λ done. length octets.now ≡ room) }
{
    if !is_order(qm) {
        return Err(Fault::Desk(DeskFault::Rm(RmFault::Order)));
    }
    if octets.len() > MOST_SENT {
        return Err(Fault::Many);
    }
    if octets.len() % qm as usize != 0 {
        return Err(Fault::Desk(DeskFault::Rm(RmFault::Ragged)));
    }
    if !are_bits(octets) {
        return Err(Fault::Bit);
    }
    if octets.len() != room {
        return Err(Fault::Room);
    }
    Ok(())
}

// Whether there is such a modulation order.
pub(crate) fn is_order(qm: u32) -> bool
    ensures value { result ≡ is_order qm }
    ensures some { result ≡ true → 0 < qm }
{
    matches!(qm, 1 | 2 | 4 | 6 | 8)
}

// The bits in their interleaved order.
fn interleaved(alloc: Global, qm: u32, octets: &[u8]) -> Result<Bits, AllocError>
    requires some { 0 < qm }
    requires few { length octets.now ≤ 4194304 }
    requires whole { length octets.now % qm ≡ 0 }
    ensures bits { IfOk result
        (λ bits. bits.items ≡ interleaving_of qm (map is_one octets.now)) }
    ensures long { IfOk result (λ bits. length bits.items ≡ length octets.now) }
{
    let bits = ones(alloc, octets)?;
    let spread = spread(alloc, qm, &bits)?;
    Ok(spread)
}
