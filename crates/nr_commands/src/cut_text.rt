//! The text of `cut`: for each transport block its segmentation parameters, its bits with the CRC, and the bits of its
//! code blocks. All blocks are checked first. Then each line is written as soon as it is made, those of the code blocks
//! of a block together.

ghost use Rattle.std.specs.Prelude.{◌≡◌, ℕ, ◌≤◌, ◌<◌, ◌+◌, ◌^◌, IfOk, IfErr, IsOk, IsOkAnd, Err, All};
ghost use Rattle.std.specs.Prelude.{map, length};
ghost use Rattle.nr_graphpick.specs.Graph.{pick_said};
ghost use Rattle.nr_segment.specs.{CodeBlock.numbers, Plan.plan_of};
ghost use Rattle.nr_refusal.specs.Refusal.{with_fault, FailsAs};
ghost use Rattle.nr_files.specs.Blocks.{IsBlockLength};
ghost use Rattle.nr_commands.specs.Command.{IsBlockFault, Judges, Writes};
ghost use Rattle.nr_commands.specs.CutText.{planned_lines, block_lines, lines_from};

use crate::cut_lines::{attached_line, block_line, code_lines};
use crate::delivering::put_line;
use crate::fault::RunFault;
use crate::laws;
use nr_bitvec::Bits;
use nr_crcattach::{attach, attached_len};
use nr_graphpick::{Graph, pick};
use nr_segment::{Plan, plan};
use nr_streams::Sink;
use nr_transmission::DeskFault;
use std::alloc::Global;

// Writes the lines of block `number`, which has `a` bits, from its plan and its bits with the CRC.
fn write_planned<O: Sink>(
    alloc: Global,
    number: u32,
    a: u32,
    plan: &Plan,
    bits: &Bits,
    out: &mut O,
) -> Result<(), RunFault>
    requires puts { O.failures out.old < 2 ^ 32 }
    requires planned { length bits.now.items ≡ plan.now.b }
    ensures text { Writes (O.written out.old) (O.written out.new) result
        (planned_lines number a plan.now.graph (numbers plan.now) bits.now.items) }
    ensures put { FailsAs RunFault.Write result (O.failures out.old) (O.failures out.new) }
{
    put_line(out, block_line(alloc, number, a, plan))?;
    put_line(out, attached_line(alloc, number, bits))?;
    put_line(out, code_lines(alloc, number, plan, bits))
}

// The base graph of block `number`, or its refusal.
fn graph_of(number: u32, a: u32, rate2048: u32) -> Result<Graph, RunFault>
    ensures { result
        ≡ with_fault (λ fault. RunFault.Desk number (DeskFault.Pick fault)) (pick_said a rate2048) }
{
    pick(a, rate2048).map_err(|fault| RunFault::Desk(number, DeskFault::Pick(fault)))
}

// The plan of block `number`, or its refusal.
fn plan_for(number: u32, graph: Graph, b: u32) -> Result<Plan, RunFault>
    ensures for_these { IfOk result (λ plan. (plan.graph ≡ graph) × (plan.b ≡ b)) }
    ensures refused { IfErr result (λ e.
        with_fault (λ fault. RunFault.Desk number (DeskFault.Seg fault)) (plan_of graph b)
        ≡ Err e) }
{
    plan(graph, b).map_err(|fault| RunFault::Desk(number, DeskFault::Seg(fault)))
}

// Whether block `number`, whose octets are given, has lines at the code rate `rate2048` / 2048, or its refusal.
fn judge_block(rate2048: u32, number: u32, octets: &[u8]) -> Result<(), RunFault>
    requires { IsBlockLength (length octets.now) }
    ensures said { Judges result (block_lines rate2048 number octets.now) }
    ensures of_block { IfErr result IsBlockFault }
{
    laws::attachment_lengthens();
    let a = 8 * octets.len() as u32;
    let graph = graph_of(number, a, rate2048)?;
    plan_for(number, graph, attached_len(a))?;
    Ok(())
}

/// Checks transport blocks, given as octets and counted from 1, at the code rate `rate2048` / 2048.
///
/// # Errors
///
/// `Desk` for the first block that has no base graph or cannot be segmented.
pub fn judge(rate2048: u32, blocks: &[Vec<u8>]) -> Result<(), RunFault>
    requires few { length blocks.now ≤ 256 }
    requires sizes { All (λ block. IsBlockLength (length block.items)) blocks.now }
    ensures said { Judges result (lines_from rate2048 1 (map (λ block. block.items) blocks.now)) }
    ensures of_block { IfErr result IsBlockFault }
{
    for (index, block) in blocks.iter().enumerate() {
        judge_block(rate2048, index as u32 + 1, block)?;
    }
    Ok(())
}

// Writes the lines of block `number`, whose octets are given and which was judged.
fn write_block<O: Sink>(
    alloc: Global,
    rate2048: u32,
    number: u32,
    octets: &[u8],
    out: &mut O,
) -> Result<(), RunFault>
    requires puts { O.failures out.old < 2 ^ 32 }
    requires size { IsBlockLength (length octets.now) }
    requires judged { IsOk (block_lines rate2048 number octets.now) }
    ensures text { IsOkAnd (block_lines rate2048 number octets.now)
        (Writes (O.written out.old) (O.written out.new) result) }
    ensures put { FailsAs RunFault.Write result (O.failures out.old) (O.failures out.new) }
{
    let bits = Bits::from_bytes(alloc, octets)?;
    let a = bits.len() as u32;
    let graph = graph_of(number, a, rate2048)?;
    let attached = attach(alloc, &bits)?;
    let plan = plan_for(number, graph, attached.len() as u32)?;
    write_planned(alloc, number, a, &plan, &attached, out)
}

// Writes the text of `cut` for transport blocks, given as octets, that have been checked at the code rate `rate2048` /
// 2048.
pub(crate) fn write_blocks<O: Sink>(
    alloc: Global,
    rate2048: u32,
    blocks: &[Vec<u8>],
    out: &mut O,
) -> Result<(), RunFault>
    requires puts { O.failures out.old < 2 ^ 32 }
    requires few { length blocks.now ≤ 256 }
    requires sizes { All (λ block. IsBlockLength (length block.items)) blocks.now }
    requires judged { IsOk (lines_from rate2048 1 (map (λ block. block.items) blocks.now)) }
    ensures text { IsOkAnd (lines_from rate2048 1 (map (λ block. block.items) blocks.now))
        (Writes (O.written out.old) (O.written out.new) result) }
    ensures put { FailsAs RunFault.Write result (O.failures out.old) (O.failures out.new) }
{
    for (index, block) in blocks.iter().enumerate() {
        write_block(alloc, rate2048, index as u32 + 1, block, out)?;
    }
    Ok(())
}
