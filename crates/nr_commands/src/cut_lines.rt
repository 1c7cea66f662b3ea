//! The lines that `cut` writes.

ghost use Rattle.std.specs.Prelude.{◌≡◌, ◌<◌, ◌++◌, IfOk, OnOk, flat_map, length};
ghost use Rattle.std.specs.List.{range_with_len};
ghost use Rattle.nr_segment.specs.CodeBlock.{code_bits, numbers};
ghost use Rattle.nr_commands.specs.CutLines.{attached_line, block_line, code_line};

use crate::hex::{hex_line, push_hex};
use nr_bitvec::Bits;
use nr_segment::{Plan, cut};
use std::alloc::{AllocError, Global};
use std::fmt::Write;

// A line of a code block has fewer characters beside the digits of its share of the block's bits.
const CODE_HEAD: usize = 40;

// The line of block `number`, which has `a` bits, and of its plan.
pub(crate) fn block_line(
    alloc: Global,
    number: u32,
    a: u32,
    plan: &Plan,
) -> Result<Vec<u8>, AllocError>
    ensures { IfOk result (λ line. line.items
        ≡ block_line number a plan.now.b plan.now.graph (numbers plan.now)) }
{
    let mut line = String::new(alloc);
    write!(
        line,
        "block {number} a {a} b {} graph {}",
        plan.b, plan.graph
    )?;
    write!(
        line,
        " c {} l {} kdash {} kb {}",
        plan.c, plan.l, plan.kdash, plan.kb
    )?;
    writeln!(
        line,
        " z {} set {} k {} n {}",
        plan.z, plan.set, plan.k, plan.n
    )?;
    Ok(line.into_bytes())
}

// The line of the bits of block `number` with the CRC.
pub(crate) fn attached_line(alloc: Global, number: u32, bits: &Bits) -> Result<Vec<u8>, AllocError>
    ensures { IfOk result (λ line. line.items ≡ attached_line number bits.now.items) }
{
    let mut head = String::new(alloc);
    write!(head, "attached {number} ")?;
    hex_line(head, bits)
}

// The lines of the code blocks of block `number`, cut from its bits with the CRC, in one text.
pub(crate) fn code_lines(
    alloc: Global,
    number: u32,
    plan: &Plan,
    bits: &Bits,
) -> Result<Vec<u8>, AllocError>
    requires { length bits.now.items ≡ plan.now.b }
    ensures { IfOk result (λ lines. lines.items ≡ flat_map
        (λ r. code_line number r (code_bits (numbers plan.now) bits.now.items r)) (range_with_len 0 plan.now.c)) }
{
    let mut lines = Vec::with_capacity(alloc, bits.len() / 4 + CODE_HEAD * plan.c as usize)?;
    for r in 0..plan.c {
        push_code_line(alloc, number, r, plan, bits, &mut lines)?;
    }
    Ok(lines)
}

// Puts the line of code block `r` at the end of others.
fn push_code_line(
    alloc: Global,
    number: u32,
    r: u32,
    plan: &Plan,
    bits: &Bits,
    lines: &mut Vec<u8>,
) -> Result<(), AllocError>
    requires planned { length bits.now.items ≡ plan.now.b }
    requires there { r < plan.now.c }
    ensures { OnOk result (lines.new.items
        ≡ lines.old.items ++ code_line number r (code_bits (numbers plan.now) bits.now.items r)) }
{
    let code = cut(alloc, plan, bits, r)?;
    let mut head = String::with_capacity(alloc, CODE_HEAD)?;
    write!(head, "code {number} {r} ")?;
    lines.extend_from_slice(head.as_bytes())?;
    push_hex(lines, &code)
}
