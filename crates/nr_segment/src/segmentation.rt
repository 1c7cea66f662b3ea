//! Computes the segmentation parameters of a transport block.

ghost use Rattle.std.specs.Prelude.{◌≡◌, IfOk, IfErr, Ok, Err};
ghost use Rattle.nr_segment.specs.CodeBlock.{numbers};
ghost use Rattle.nr_segment.specs.Plan.{largest_block, check_bits, block_count, info_columns, plan_of};

use crate::numbers::{Plan, SegFault};
use nr_graphpick::Graph;
use nr_lifting::{set_of, smallest};

// The fewest bits that a transport block has with its CRC: an octet and CRC16.
const LEAST_BITS: u32 = 24;

// The most bits that a transport block has with its CRC.
const MOST_BITS: u32 = 1_310_744;

// The bits of CRC24B, which each of several code blocks has (TS 38.212, 5.1).
const CHECK_BITS: u32 = 24;

// Kcb, how many bits the largest code block has (TS 38.212, 5.2.2).
fn largest_block_of(graph: Graph) -> u32
    ensures { result ≡ largest_block graph }
{
    match graph {
        Graph::One => 8448,
        Graph::Two => 3840,
    }
}

// L and C: the CRC bits of each code block, and the number of code blocks (TS 38.212, 5.2.2).
fn checks_and_blocks(graph: Graph, b: u32) -> (u32, u32)
    ensures checks { result.0 ≡ check_bits graph b }
    ensures blocks { result.1 ≡ block_count graph b }
{
    let largest = largest_block_of(graph);
    if b <= largest {
        (0, 1)
    } else {
        (CHECK_BITS, b.div_ceil(largest - CHECK_BITS))
    }
}

// Kb, the number of columns that the bits of a code block are spread over (TS 38.212, 5.2.2).
fn info_columns_of(graph: Graph, b: u32) -> u32
    ensures { result ≡ info_columns graph b }
{
    match graph {
        Graph::One => 22,
        Graph::Two => match b {
            ..=192 => 6,
            ..=560 => 8,
            ..=640 => 9,
            _ => 10,
        },
    }
}

/// Returns the segmentation parameters for `b` bits, which are a transport block with its CRC (TS 38.212, 5.2.2).
///
/// # Errors
///
/// In this order:
///
/// 1. `Short` if `b` is below 24
/// 2. `Long` if `b` is above 1,310,744
/// 3. `Uneven` if the code blocks would not all have the same number of bits
#[tactic(auto, unfolding(crate::specs::Plan::plan_of))]
pub fn plan(graph: Graph, b: u32) -> Result<Plan, SegFault>
    ensures for_these { IfOk result (λ plan. (plan.graph ≡ graph) × (plan.b ≡ b)) }
    ensures planned { IfOk result (λ plan. plan_of graph b ≡ Ok (numbers plan)) }
    ensures refused { IfErr result (λ fault. plan_of graph b ≡ Err fault) }
{
    if b < LEAST_BITS {
        return Err(SegFault::Short);
    }
    if b > MOST_BITS {
        return Err(SegFault::Long);
    }
    let (l, c) = checks_and_blocks(graph, b);
    let total = b + c * l;
    if total % c != 0 {
        return Err(SegFault::Uneven);
    }
    let kdash = total / c;
    let kb = info_columns_of(graph, b);
    let size = smallest(kb, kdash).unwrap();
    let set = u32::from(set_of(size).unwrap());
    let z = u32::from(size);
    let k = graph.info_cols() * z;
    let n = (graph.cols() - 2) * z;
    Ok(Plan {
        graph,
        b,
        l,
        c,
        kdash,
        kb,
        z,
        set,
        k,
        n,
    })
}
