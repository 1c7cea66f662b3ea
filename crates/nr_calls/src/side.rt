//! A code block's part of a transmission in 64 rounds side by side: bit j of a word is round j's.

ghost use Rattle.std.specs.Prelude.{◌≡◌, ◌+◌, ◌++◌, ◌∷◌, [], ◌%◌, ◌^◌, ◌<◌, ◌≤◌, ◌==◌};
ghost use Rattle.std.specs.Prelude.{ℕ, Bool, List, Ok};
ghost use Rattle.std.specs.Prelude.{count_by, length, map, slice_index, sum, take, IfOk, OnOk};
ghost use Rattle.std.specs.Int.{bit_at};
ghost use Rattle.std.specs.List.{range_with_len};
ghost use Rattle.nr_bitvec.specs.Bit.{bit};
ghost use Rattle.nr_drawing.specs.Drawing.{AreRounds, IsAmong, drawn_by};
ghost use Rattle.nr_ldpcenc.specs.Codeword.{filler};
ghost use Rattle.nr_peel.specs.Slices.{slice};
ghost use Rattle.nr_segment.specs.Plan.{word_size};
ghost use Rattle.nr_blockdesk.specs.Explains.{Reception};
ghost use Rattle.nr_blockdesk.specs.Heard.{heard_record};
ghost use Rattle.nr_blockdesk.specs.Outcome.{left};
ghost use Rattle.nr_blockdesk.specs.Sent.{tx_said};
ghost use Rattle.nr_blockdesk.specs.Slices.{IsBetween};
ghost use Rattle.nr_calls.specs.inside.Batches.{AreBetween, AreFillers, AreWhole};
ghost use Rattle.nr_calls.specs.inside.Simulating.{drawn_reception};

use crate::laws;
use nr_blockdesk::{Link, Tx, hear_slices};
use nr_drawing::draw_side;
use nr_peel::{close_low, count_lacking};
use nr_segment::Plan;
use rand_pcg::Pcg32;
use std::alloc::{AllocError, Global};

// The word of a position of which nothing is known but whether it is a filler.
fn filler_word(plan: &Plan, p: u32) -> u64
    ensures { (j : ℕ) → j < 64 → (bit_at result j == 1) ≡ filler plan.now.kdash plan.now.k p }
{
    if plan.kdash <= p && p < plan.k {
        u64::MAX
    } else {
        0
    }
}

// What is known of a code block before any reception, the same in each round: the fillers.
fn fillers(alloc: Global, plan: &Plan) -> Result<Vec<u64>, AllocError>
    ensures { IfOk result (λ known. AreFillers plan.now known.items) }
{
    let size = plan.graph.cols() * plan.z;
    let mut known = Vec::with_capacity(alloc, size as usize)?;
    for p in 0..size {
        known.push(filler_word(plan, p))?;
    }
    Ok(known)
}

// What is known of each code block before any reception.
pub(crate) fn begun(alloc: Global, link: &Link<'_>) -> Result<Vec<Vec<u64>>, AllocError>
    ensures whole { IfOk result (λ known. AreWhole link.now (map (λ words. words.items) known.items)) }
    ensures between { IfOk result (λ known. (j : ℕ) → j < 64
        → AreBetween link.now [] j (map (λ words. words.items) known.items)) }
{
    laws::fillers_are_between();
    link.is_sound();
    let plan = link.plan();
    let mut known = Vec::with_capacity(alloc, plan.c as usize)?;
    for _ in 0..plan.c {
        known.push(fillers(alloc, plan)?)?;
    }
    Ok(known)
}

// Makes a list exactly so long, and asks for no more room than that takes.
pub(crate) fn fit(words: &mut Vec<u64>, count: usize) -> Result<(), AllocError>
    ensures { OnOk result (length words.new.items ≡ count) }
{
    words.reserve_exact(count.saturating_sub(words.len()))?;
    words.resize(count, 0)?;
    Ok(())
}

// Each round that is listed hears a code block's part of a transmission, as zeros at the places that its generator doesn't
// draw. Returns for each round how many places it draws, and how many positions are left.
fn hear_part(
    link: &Link<'_>,
    tx: &Tx,
    threshold: u32,
    generators: &mut [Pcg32],
    listed: &[usize],
    arrived: &mut [u64],
    known: &mut [u64],
) -> ([u32; 64], [u32; 64])
    requires version { tx.now.rv < 4 }
    requires some { 0 < tx.now.qm }
    requires few { tx.now.qm ≤ 8 }
    requires whole { length arrived.old % tx.now.qm ≡ 0 }
    requires short { length arrived.old < 2 ^ 32 }
    requires long { length known.old ≡ word_size link.now.graph link.now.plan }
    requires generators { length generators.old ≡ 64 }
    requires listed { AreRounds listed.now }
    ensures hears { (j r : ℕ) (list : List Reception) (lengths : List ℕ) (marks : List Bool) → IsAmong listed.now j
        → r < link.now.plan.c → tx_said link.now tx.now ≡ Ok lengths → length marks ≡ tx.now.g
        → slice_index lengths r ≡ length arrived.old
        → sum (take r lengths) + length arrived.old ≤ tx.now.g
        → ((m : ℕ) → m < length arrived.old → bit marks (sum (take r lengths) + m)
        ≡ bit (drawn_by generators.old threshold (length arrived.old) j) m)
        → IsBetween link.now list r (slice known.old j)
        → IsBetween link.now (list ++ drawn_reception (tx.now, marks) ∷ []) r (slice known.new j)
        × (slice_index result.1 j
        ≡ left link.now (heard_record link.now (list ++ drawn_reception (tx.now, marks) ∷ [])) r) }
    ensures counted { (j : ℕ) → IsAmong listed.now j → slice_index result.0 j
        ≡ count_by (bit (drawn_by generators.old threshold (length arrived.old) j))
        (range_with_len 0 (length arrived.old)) }
    ensures next { (j n : ℕ) → IsAmong listed.now j
        → drawn_by generators.old threshold (length arrived.old + n) j
        ≡ drawn_by generators.old threshold (length arrived.old) j
        ++ drawn_by generators.new threshold n j }
    ensures long { length known.new ≡ length known.old }
    ensures all { length generators.new ≡ 64 }
{
    laws::slices_between();
    laws::lacking_is_left();
    link.is_sound();
    let plan = link.plan();
    let erased = draw_side(generators, listed, threshold, arrived);
    hear_slices(link.buffer(), tx.rv, tx.qm, arrived, known);
    close_low(link.table(), plan, known);
    let left = count_lacking(known, plan.kdash as usize);
    (erased, left)
}

// The same over lists.
pub(crate) fn hear_block(
    link: &Link<'_>,
    tx: &Tx,
    threshold: u32,
    generators: &mut Vec<Pcg32>,
    listed: &[usize],
    arrived: &mut Vec<u64>,
    known: &mut Vec<u64>,
) -> ([u32; 64], [u32; 64])
    requires version { tx.now.rv < 4 }
    requires some { 0 < tx.now.qm }
    requires few { tx.now.qm ≤ 8 }
    requires whole { length arrived.old.items % tx.now.qm ≡ 0 }
    requires short { length arrived.old.items < 2 ^ 32 }
    requires long { length known.old.items ≡ word_size link.now.graph link.now.plan }
    requires generators { length generators.old.items ≡ 64 }
    requires listed { AreRounds listed.now }
    ensures hears { (j r : ℕ) (list : List Reception) (lengths : List ℕ) (marks : List Bool) → IsAmong listed.now j
        → r < link.now.plan.c → tx_said link.now tx.now ≡ Ok lengths → length marks ≡ tx.now.g
        → slice_index lengths r ≡ length arrived.old.items
        → sum (take r lengths) + length arrived.old.items ≤ tx.now.g
        → ((m : ℕ) → m < length arrived.old.items → bit marks (sum (take r lengths) + m)
        ≡ bit (drawn_by generators.old.items threshold (length arrived.old.items) j) m)
        → IsBetween link.now list r (slice known.old.items j)
        → IsBetween link.now (list ++ drawn_reception (tx.now, marks) ∷ []) r (slice known.new.items j)
        × (slice_index result.1 j
        ≡ left link.now (heard_record link.now (list ++ drawn_reception (tx.now, marks) ∷ [])) r) }
    ensures counted { (j : ℕ) → IsAmong listed.now j → slice_index result.0 j
        ≡ count_by (bit (drawn_by generators.old.items threshold (length arrived.old.items) j))
        (range_with_len 0 (length arrived.old.items)) }
    ensures next { (j n : ℕ) → IsAmong listed.now j
        → drawn_by generators.old.items threshold (length arrived.old.items + n) j
        ≡ drawn_by generators.old.items threshold (length arrived.old.items) j
        ++ drawn_by generators.new.items threshold n j }
    ensures long { length known.new.items ≡ length known.old.items }
    ensures all { length generators.new.items ≡ 64 }
{
    hear_part(link, tx, threshold, generators, listed, arrived, known)
}
