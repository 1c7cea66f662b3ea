//! How the bits of a transmission are shared out to its code blocks.

ghost use Rattle.std.specs.Prelude.{◌≡◌, ◌*◌, ◌^◌, ◌<◌, ◌≤◌, IfOk};
ghost use Rattle.nr_ratematch.specs.Lengths.{is_scheduled, scheduled_count, is_order, share_of, shares_of, lengths_said, AreSaid};
ghost use Rattle.nr_ratematch.specs.Lengths.{IsShared, LengthsAreShared};

use crate::fault::RmFault;
use crate::mask::Mask;
use arrayvec::ArrayVec;
use nr_segment::Plan;

/// The largest number of code blocks of a transport block (TS 38.212, 5.2.2).
pub const MOST_BLOCKS: usize = 344;

// The most bits that a transmission has.
const MOST_BITS: u32 = 4_194_304;

// The most transmission layers.
const MOST_LAYERS: u32 = 4;

// Whether `qm` is a modulation order: the bits of a symbol of pi/2-BPSK, QPSK, 16QAM, 64QAM or 256QAM.
fn is_modulation(qm: u32) -> bool
    ensures { result ≡ is_order qm }
{
    matches!(qm, 1 | 2 | 4 | 6 | 8)
}

// How many of the first `c` code blocks are scheduled.
fn scheduled_of(mask: &Mask, c: u32) -> u32
    requires { c ≤ 344 }
    ensures { result ≡ scheduled_count (is_scheduled mask.now) c }
{
    let mut count = 0;
    for r in 0..c {
        if mask.has(r) {
            count += 1;
        }
    }
    count
}

// E_r of a scheduled code block, if `all` are scheduled and `before` of them are before it (TS 38.212, 5.4.2.1).
// `unit` is NL Qm, and `symbols` is G / (NL Qm).
fn share(all: u32, unit: u32, symbols: u32, before: u32) -> u32
    requires some { 0 < all }
    requires few { unit * symbols < 2 ^ 32 }
    ensures { result ≡ share_of all unit symbols before }
{
    if before < all - symbols % all {
        unit * (symbols / all)
    } else {
        unit * symbols.div_ceil(all)
    }
}

// E_r of each of `c` code blocks.
fn shares(mask: &Mask, c: u32, unit: u32, symbols: u32) -> ArrayVec<u32, MOST_BLOCKS>
    requires few { c ≤ 344 }
    requires short { unit * symbols < 2 ^ 32 }
    requires some { 0 < scheduled_count (is_scheduled mask.now) c }
    ensures { result.items ≡ shares_of (is_scheduled mask.now) c unit symbols }
{
    let all = scheduled_of(mask, c);
    let mut lengths = ArrayVec::new();
    let mut before = 0;
    for r in 0..c {
        if mask.has(r) {
            lengths.push(share(all, unit, symbols, before));
            before += 1;
        } else {
            lengths.push(0);
        }
    }
    lengths
}

/// Returns E_r for each code block of a plan, in order: how many of the `g` bits of a transmission the code block gets,
/// which is 0 if it is not scheduled (TS 38.212, 5.4.2.1). `qm` is the modulation order and `nl` the number of
/// transmission layers. Each E_r is a multiple of `qm`, and they add up to `g`. Allocates nothing.
///
/// # Errors
///
/// In this order:
///
/// 1. `Order` if `qm` is not 1, 2, 4, 6 or 8
/// 2. `Layers` if `nl` is not within 1 to 4
/// 3. `Total` if `g` is not within 1 to 4,194,304
/// 4. `Ragged` if `g` is not a multiple of `nl * qm`
/// 5. `NoneScheduled` if the mask has no code block of the plan
#[tactic(auto, unfolding(crate::specs::Lengths::lengths_said))]
pub fn lengths(
    plan: &Plan,
    g: u32,
    qm: u32,
    nl: u32,
    mask: Mask,
) -> Result<ArrayVec<u32, MOST_BLOCKS>, RmFault>
    ensures said { AreSaid result (lengths_said (is_scheduled mask) plan.now.c g qm nl) }
    ensures shared { IfOk result (λ v. IsShared plan.now.c g qm v.items) }
{
    if !is_modulation(qm) {
        return Err(RmFault::Order);
    }
    if !(1..=MOST_LAYERS).contains(&nl) {
        return Err(RmFault::Layers);
    }
    if !(1..=MOST_BITS).contains(&g) {
        return Err(RmFault::Total);
    }
    let unit = nl * qm;
    if g % unit != 0 {
        return Err(RmFault::Ragged);
    }
    if scheduled_of(&mask, plan.c) == 0 {
        return Err(RmFault::NoneScheduled);
    }
    Ok(shares(&mask, plan.c, unit, g / unit))
}

/// Law: there is one length for each code block, each is a multiple of Qm, and they add up to the bits of the
/// transmission (TS 38.212, 5.4.2.1).
pub fn lengths_are_shared()
    ensures { LengthsAreShared }
{}
