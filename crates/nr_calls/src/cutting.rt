//! Cutting a transport block into code blocks.

ghost use Rattle.std.specs.Prelude.{◌≡◌, ◌*◌, ◌<◌, ◌≤◌, length, IfOk, MatchResult, Ok, Err};
ghost use Rattle.nr_bitvec.specs.BitList.{bits_of};
ghost use Rattle.nr_crcattach.specs.Attachment.{attached, attached_length};
ghost use Rattle.nr_segment.specs.CodeBlock.{code_bits, numbers};
ghost use Rattle.nr_calls.specs.{Crossing.AreBits, Cutting.cut_planned, Cutting.code_block_said, inside.Words.planned_of};
ghost use Rattle.nr_calls.specs.Statuses.{Returns, memory_last};

use crate::crossing::write_bits;
use crate::fault::Fault;
use crate::laws;
use crate::plan::plan_on;
use crate::sending::MOST_OCTETS;
use nr_bitvec::Bits;
use nr_blockdesk::DeskFault;
use nr_crcattach::attach;
use nr_segment::{Plan, cut};
use std::alloc::{AllocError, Global};

/// Writes the K' bits of code block `r` of a transport block, one to an octet of `out` (TS 38.212, 5.2.2). `nr_c`
/// exports this call and says what each status means.
pub fn nr_cut(alloc: Global, rate2048: u32, block: &[u8], r: u32, out: &mut [u8]) -> u32
    ensures { Returns memory_last result out.old out.new AreBits
        (code_block_said rate2048 block.now r (length out.old)) }
{
    match cut_plan(rate2048, block.len(), r, out.len()) {
        Ok(plan) => match cut_block(alloc, &plan, block, r) {
            Ok(bits) => {
                write_bits(&bits, out);
                0
            }
            Err(_) => Fault::Memory.status(),
        },
        Err(fault) => fault.status(),
    }
}

// The plan by which code block `r` of so many octets is cut, or the first cause against it.
#[tactic(auto, using(crate::proofs::OctetCountFacts::too_long), unfolding(crate::specs::Cutting::cut_planned))]
fn cut_plan(rate2048: u32, octets: usize, r: u32, room: usize) -> Result<Plan, Fault>
    ensures said { MatchResult result
        (λ plan. cut_planned rate2048 (8 * octets) r room ≡ Ok (planned_of plan))
        (λ fault. cut_planned rate2048 (8 * octets) r room ≡ Err fault) }
    ensures short { IfOk result (λ plan. octets ≤ 163840) }
    ensures whole { IfOk result (λ plan. plan.b ≡ attached_length (8 * octets)) }
    ensures there { IfOk result (λ plan. r < plan.c) }
    ensures room { IfOk result (λ plan. plan.kdash ≡ room) }
{
    if octets > MOST_OCTETS {
        return Err(Fault::Desk(DeskFault::Size));
    }
    let plan = plan_on(rate2048, 8 * octets as u32)?;
    if r >= plan.c {
        return Err(Fault::CodeBlock);
    }
    if plan.kdash as usize != room {
        return Err(Fault::Room);
    }
    Ok(plan)
}

// The K' bits of a code block.
fn cut_block(alloc: Global, plan: &Plan, octets: &[u8], r: u32) -> Result<Bits, AllocError>
    requires short { length octets.now ≤ 163840 }
    requires whole { plan.now.b ≡ attached_length (8 * length octets.now) }
    requires there { r < plan.now.c }
    ensures bits { IfOk result
        (λ bits. bits.items ≡ code_bits (numbers plan.now) (attached (bits_of octets.now)) r) }
    ensures long { IfOk result (λ bits. length bits.items ≡ plan.now.kdash) }
{
    laws::attachment_lengthens();
    laws::code_blocks_are_long();
    let block = Bits::from_bytes(alloc, octets)?;
    let whole = attach(alloc, &block)?;
    let bits = cut(alloc, plan, &whole, r)?;
    Ok(bits)
}
