//! Code blocks: which bits of the transport block they carry, and the CRC24B of each if there are several.

ghost use Rattle.std.specs.Prelude.{◌≡◌, ◌-◌, ◌<◌, length, map, IfOk, All};
ghost use Rattle.nr_segment.specs.CodeBlock.{numbers, part_of, code_bits, joined_blocks};

use crate::numbers::Plan;
use nr_bitvec::Bits;
use nr_crcattach::attach_code_range;
use std::alloc::{AllocError, Global};

/// Returns the index in the transport block of information bit `k` of code block `r` (TS 38.212, 5.2.2).
pub fn part(plan: &Plan, r: u32, k: u32) -> u32
    requires block { r < plan.now.c }
    requires bit { k < plan.now.kdash - plan.now.l }
    ensures index { result ≡ part_of (numbers plan.now) r k }
    ensures inside { result < plan.now.b }
{
    r * (plan.kdash - plan.l) + k
}

/// Returns the K' bits of code block `r` of the transport block `bits`: its share of the bits, followed by their CRC24B
/// if there are several code blocks (TS 38.212, 5.2.2).
///
/// # Errors
///
/// `AllocError` if memory runs out.
pub fn cut(alloc: Global, plan: &Plan, bits: &Bits, r: u32) -> Result<Bits, AllocError>
    requires whole { length bits.now.items ≡ plan.now.b }
    requires block { r < plan.now.c }
    ensures { IfOk result (λ block. block.items ≡ code_bits (numbers plan.now) bits.now.items r) }
{
    let from = part(plan, r, 0) as usize;
    let share = (plan.kdash - plan.l) as usize;
    if plan.c > 1 {
        attach_code_range(alloc, bits, from, share)
    } else {
        bits.copy_range(from, share)
    }
}

/// Returns the bits of the transport block, given the K' bits of each code block in order. The CRC24B of each code
/// block is dropped without being checked.
///
/// # Errors
///
/// `AllocError` if memory runs out.
pub fn join(alloc: Global, plan: &Plan, blocks: &[Bits]) -> Result<Bits, AllocError>
    requires all { length blocks.now ≡ plan.now.c }
    requires long { All (λ block. length block.items ≡ plan.now.kdash) blocks.now }
    ensures { IfOk result (λ bits. bits.items
        ≡ joined_blocks (numbers plan.now) (map (λ block. block.items) blocks.now)) }
{
    let share = (plan.kdash - plan.l) as usize;
    let mut bits = Bits::with_room(alloc, plan.b)?;
    for block in blocks {
        bits.extend(&block.copy_range(0, share)?)?;
    }
    Ok(bits)
}
