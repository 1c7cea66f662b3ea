//! What one transmission gives a code block: marks of positions of its codeword, and their bits. Between code blocks none
//! is marked.
//!
//! One transmission can tell a position both bits. The masks are then the positions that are told zero and those that are told
//! one, and the places of a position that is in both are looked at in order, so that it keeps the bit told first.

ghost use Rattle.std.specs.Prelude.{◌≡◌, ℕ, ◌+◌, ◌*◌, ◌/◌, ◌^◌, ◌<◌, ◌≤◌, ◌==◌, ◌&&◌};
ghost use Rattle.std.specs.Prelude.{not, Bool, true, false};
ghost use Rattle.std.specs.Prelude.{Option, None, length, IfOk, IsFalse, IsTrue};
ghost use Rattle.std.specs.Bool.{beq};
ghost use Rattle.nr_bitvec.specs.{Bit.bit, Marks.marks_in};
ghost use Rattle.nr_interleave.specs.Interleaving.{seat_of};
ghost use Rattle.nr_ratematch.specs.Selection.{place_of};
ghost use Rattle.nr_segment.specs.CodeBlock.{positions_of};
ghost use Rattle.nr_blockdesk.specs.inside.PartMasks.{AreEmpty, is_listed, is_listed_both};
ghost use Rattle.nr_blockdesk.specs.inside.{Receiving.AreSettled, Words.heards_of, Words.positions_on};

use crate::arrival::Arrival;
use crate::part::Part;
use crate::place_cursors::PlaceCursors;
use nr_bitvec::Marks;
use nr_ratematch::Buffer;
use nr_segment::Plan;
use std::alloc::{AllocError, Global};

// How many columns of a part's matrix are looked at place by place if any of their positions is told both bits. With fewer, more
// time goes into finding them.
const COLUMNS: u32 = 128;

// Masks for a code block of this plan, without a mark.
pub(crate) fn empty_masks(alloc: Global, plan: &Plan) -> Result<Marks, AllocError>
    ensures { IfOk result (AreEmpty (positions_of plan.now)) }
{
    Marks::blank(alloc, plan.graph.cols() * plan.z)
}

// Whether no position is marked.
pub(crate) fn has_no_mark(marks: &Marks) -> bool
    ensures { IsTrue result → (p : ℕ) → bit marks.now.heard.items p ≡ false }
{
    for i in 0..marks.heard.len().div_ceil(64) {
        if marks.heard.window(64 * i) != 0 {
            return false;
        }
    }
    true
}

// Whether one of the `count` positions from `position` on is told both bits, or one of the few after them that are in the same
// words.
fn any_both(told: &Marks, position: usize, count: usize) -> bool
    requires inside { position + count ≤ length told.now.heard.items }
    ensures { IsFalse result → (j : ℕ) → j < count → is_listed_both (marks_in told.now) (position + j) ≡ false }
{
    // So no place overflows.
    told.heard.is_short();
    for i in 0..count.div_ceil(64) {
        let at = position + 64 * i;
        if told.heard.window(at) & told.value.window(at) != 0 {
            return true;
        }
    }
    false
}

// Whether any of the `count` selected bits from bit `k` on has a position that is told both bits.
fn row_has_both(buffer: &Buffer, rv: u32, k: u32, count: u32, told: &Marks) -> bool
    requires version { rv < 4 }
    requires short { k + count < 2 ^ 32 }
    requires long { length told.now.heard.items ≡ positions_on buffer.now }
    ensures { IsFalse result → (j : ℕ) → j < count
        → is_listed_both (marks_in told.now) (place_of buffer.now rv (k + j)) ≡ false }
{
    let mut at = 0;
    while at < count {
        let (position, run) = buffer.run(rv, k + at, count - at);
        if any_both(told, position as usize, run as usize) {
            return true;
        }
        at += run;
    }
    false
}

// Whether a place in the `count` columns from `column` on has a position that is told both bits.
fn has_both(part: &Part<'_, '_>, column: u32, count: u32, told: &Marks) -> bool
    requires columns { column + count ≤ part.now.count / part.now.arrival.now.tx.now.qm }
    requires long { length told.now.heard.items ≡ positions_on part.now.arrival.now.buffer.now }
    ensures { IsFalse result → (m : ℕ) → part.now.arrival.now.tx.now.qm * column ≤ m
        → m < part.now.arrival.now.tx.now.qm * (column + count)
        → is_listed_both (marks_in told.now) (place_of part.now.arrival.now.buffer.now part.now.arrival.now.tx.now.rv
        (seat_of part.now.arrival.now.tx.now.qm part.now.count m)) ≡ false }
{
    let Arrival { buffer, tx, .. } = part.arrival;
    let columns = part.count / tx.qm;
    for row in 0..tx.qm {
        if row_has_both(buffer, tx.rv, row * columns + column, count, told) {
            return true;
        }
    }
    false
}

// Leaves only `bit` of a position that is told both bits. Returns whether it was told both.
fn settle_position(told: &mut Marks, pos: usize, bit: bool) -> bool
    requires inside { pos < length told.old.heard.items }
    ensures both { result ≡ is_listed_both (marks_in told.old) pos }
    ensures told { (p : ℕ) (v : Bool) → is_listed (marks_in told.new) p v
        ≡ (is_listed (marks_in told.old) p v && not (result && (p == pos) && not (beq bit v))) }
    ensures long { length told.new.heard.items ≡ length told.old.heard.items }
{
    if !told.heard.get(pos) || !told.value.get(pos) {
        return false;
    }
    if bit {
        told.heard.set(pos, false);
    } else {
        told.value.set(pos, false);
    }
    true
}

// Settles the places in the `count` columns from `column` on, in order. `both` is a position that was found to be told both bits
// in earlier columns, if there is one. Returns such a position of the columns so far.
fn settle_columns(
    part: &Part<'_, '_>,
    column: u32,
    count: u32,
    told: &mut Marks,
    both: Option<u32>,
) -> Option<u32>
    requires columns { column + count ≤ part.now.count / part.now.arrival.now.tx.now.qm }
    requires settled { AreSettled part.now.arrival.now.buffer.now part.now.arrival.now.tx.now (heards_of part.now)
        (part.now.arrival.now.tx.now.qm * column) (marks_in told.old) both }
    ensures settled { AreSettled part.now.arrival.now.buffer.now part.now.arrival.now.tx.now (heards_of part.now)
        (part.now.arrival.now.tx.now.qm * (column + count)) (marks_in told.new) result }
{
    let Arrival {
        buffer,
        tx,
        marks,
        ..
    } = part.arrival;
    // So no position overflows.
    told.heard.is_short();
    let mut both = both;
    let mut cursors = PlaceCursors::at_column(tx.qm, part.count, column);
    for m in tx.qm * column..tx.qm * (column + count) {
        let pos = cursors.next(buffer, tx.rv, tx.qm);
        let at = (part.from + m) as usize;
        if marks.heard.get(at) {
            let bit = marks.value.get(at);
            if settle_position(told, pos as usize, bit) {
                both = Some(pos);
            }
        }
    }
    both
}

// Settles a part: each position that is told both bits keeps the one that it is told first. Returns one of these positions, if
// there is one.
pub(crate) fn settle(part: &Part<'_, '_>, told: &mut Marks) -> Option<u32>
    requires settled { AreSettled part.now.arrival.now.buffer.now part.now.arrival.now.tx.now (heards_of part.now) 0
        (marks_in told.old) None }
    ensures settled { AreSettled part.now.arrival.now.buffer.now part.now.arrival.now.tx.now (heards_of part.now)
        (length (heards_of part.now)) (marks_in told.new) result }
{
    let columns = part.count / part.arrival.tx.qm;
    let mut both = None;
    let mut column = 0;
    while column < columns {
        let some = (columns - column).min(COLUMNS);
        if has_both(part, column, some, told) {
            both = settle_columns(part, column, some, told, both);
        }
        column += some;
    }
    both
}
