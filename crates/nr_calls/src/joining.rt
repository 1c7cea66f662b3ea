//! Joining the code blocks of a transport block.

ghost use Rattle.std.specs.Prelude.{◌≡◌, ◌*◌, ◌<◌, ◌≤◌, [], flat_map, length, map, take};
ghost use Rattle.std.specs.Prelude.{IfOk, OnOk, MatchResult, Ok, Err};
ghost use Rattle.nr_crcattach.specs.Attachment.{attached_length};
ghost use Rattle.nr_segment.specs.CodeBlock.{numbers, share};
ghost use Rattle.nr_calls.specs.Codeword.{is_one};
ghost use Rattle.nr_calls.specs.Crossing.{AreBits};
ghost use Rattle.nr_calls.specs.Joining.{AreJoined, blocks_in, end_poly, has_crc, join_places, joined_of, joined_said};
ghost use Rattle.nr_calls.specs.Joining.{joining_said};
ghost use Rattle.nr_calls.specs.inside.Joinings.{joined_by};
ghost use Rattle.nr_calls.specs.Many.{first_rows};
ghost use Rattle.nr_calls.specs.Statuses.{Returns, memory_last};

use crate::codeword::{are_bits, ones};
use crate::crossing::write_octets;
use crate::fault::Fault;
use crate::joined_blocks::JoinedBlocks;
use crate::plan::plan_on;
use arrayvec::ArrayVec;
use nr_bitvec::Bits;
use nr_blockdesk::DeskFault;
use nr_crcattach::{Poly, divides};
use nr_ratematch::MOST_BLOCKS;
use nr_segment::Plan;
use std::alloc::{AllocError, Global};

/// Joins the K' bits of each code block to the transport block and checks the CRCs (TS 38.212, 5.1 and 5.2.2). `nr_c`
/// exports this call and says what each status means.
pub fn nr_join(
    alloc: Global,
    rate2048: u32,
    a: u32,
    bits: &[u8],
    passed: &mut [u8],
    block_passed: &mut u32,
    block: &mut [u8],
) -> u32
    ensures { Returns memory_last result (join_places passed.old block_passed.old block.old)
        (join_places passed.new block_passed.new block.new) AreJoined
        (joined_said rate2048 a bits.now (length passed.old) (length block.old)) }
{
    match join_plan(rate2048, a, bits, passed.len(), block.len()) {
        Ok(plan) => match join_rows(alloc, &plan, a, bits) {
            Ok(joined) => {
                write_passed(&joined.passed, passed);
                *block_passed = u32::from(joined.block_passed);
                write_octets(&joined.block, block);
                0
            }
            Err(_) => Fault::Memory.status(),
        },
        Err(fault) => fault.status(),
    }
}

// The plan by which octets that have a bit each are joined, or the first cause against them.
#[tactic(auto, unfolding(crate::specs::Joining::joining_said))]
fn join_plan(
    rate2048: u32,
    a: u32,
    octets: &[u8],
    passed: usize,
    block: usize,
) -> Result<Plan, Fault>
    ensures said { MatchResult result
        (λ plan. joining_said rate2048 a octets.now passed block ≡ Ok (numbers plan))
        (λ fault. joining_said rate2048 a octets.now passed block ≡ Err fault) }
    ensures whole { IfOk result (λ plan. plan.b ≡ attached_length a) }
    ensures long { IfOk result (λ plan. length octets.now ≡ plan.c * plan.kdash) }
    ensures passed { IfOk result (λ plan. passed ≡ plan.c) }
    ensures block { IfOk result (λ plan. 8 * block ≡ a) }
{
    let plan = plan_on(rate2048, a)?;
    if octets.len() as u128 != u128::from(plan.c) * u128::from(plan.kdash) {
        return Err(Fault::Desk(DeskFault::Length));
    }
    if !are_bits(octets) {
        return Err(Fault::Bit);
    }
    if passed != plan.c as usize {
        return Err(Fault::Room);
    }
    if 8 * block as u128 != u128::from(a) {
        return Err(Fault::Room);
    }
    Ok(plan)
}

// The polynomial of the CRC at the end of each code block.
fn end_poly(plan: &Plan, a: u32) -> Poly
    ensures { result ≡ end_poly (numbers plan.now) a }
{
    if plan.c > 1 {
        Poly::B24
    } else {
        Poly::of_block(a as usize)
    }
}

// Whether the CRC at the end of some bits passes.
fn has_crc(poly: Poly, bits: &Bits) -> bool
    ensures { result ≡ has_crc poly bits.now.items }
{
    divides(poly, bits)
}

// Puts the shares of code blocks into an empty list. Whether the CRC at the end of each passes.
fn join_shares(
    alloc: Global,
    plan: &Plan,
    poly: Poly,
    octets: &[u8],
    bits: &mut Bits,
) -> Result<ArrayVec<bool, MOST_BLOCKS>, AllocError>
    requires long { length octets.now ≡ plan.now.c * plan.now.kdash }
    requires none { bits.old.items ≡ [] }
    requires room { plan.now.b ≤ bits.old.room }
    ensures bits { OnOk result (bits.new.items ≡ flat_map (λ row. take (share (numbers plan.now)) (map is_one row))
        (first_rows plan.now.kdash plan.now.c octets.now)) }
    ensures passed { IfOk result (λ passed. passed.items ≡ map (λ row. has_crc poly (map is_one row))
        (first_rows plan.now.kdash plan.now.c octets.now)) }
    ensures long { OnOk result (length bits.new.items ≡ plan.now.c * share (numbers plan.now)) }
{
    let size = plan.kdash as usize;
    let share = (plan.kdash - plan.l) as usize;
    let mut passed = ArrayVec::new();
    for r in 0..plan.c as usize {
        let row = ones(alloc, &octets[r * size..r * size + size])?;
        bits.extend_range(&row, 0, share);
        passed.push(has_crc(poly, &row));
    }
    Ok(passed)
}

// What code blocks come to, of which octets have a bit each.
fn join_rows(alloc: Global, plan: &Plan, a: u32, octets: &[u8]) -> Result<JoinedBlocks, AllocError>
    requires whole { plan.now.b ≡ attached_length a }
    requires long { length octets.now ≡ plan.now.c * plan.now.kdash }
    ensures joined { IfOk result (λ joined. joined_by joined
        ≡ joined_of (numbers plan.now) a (blocks_in (numbers plan.now) octets.now)) }
    ensures passed { IfOk result (λ joined. length joined.passed.items ≡ plan.now.c) }
    ensures block { IfOk result (λ joined. length joined.block.items ≡ a) }
{
    let mut bits = Bits::with_room(alloc, plan.b)?;
    let passed = join_shares(alloc, plan, end_poly(plan, a), octets, &mut bits)?;
    let block_passed = has_crc(Poly::of_block(a as usize), &bits);
    let block = bits.copy_range(0, a as usize)?;
    Ok(JoinedBlocks {
        block,
        passed,
        block_passed,
    })
}

// Writes an octet for each code block: 1 if its CRC passes.
fn write_passed(passed: &[bool], out: &mut [u8])
    requires { length out.old ≡ length passed.now }
    ensures { AreBits passed.now out.new }
{
    for (r, octet) in out.iter_mut().enumerate() {
        *octet = u8::from(passed[r]);
    }
}
