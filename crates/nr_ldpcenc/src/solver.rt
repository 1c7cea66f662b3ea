//! Solves the parity columns of a word one after another. The first follows from the sum of the four core rows, in
//! which everything else cancels, and each later one from the row whose last column it is. The sum of a row stays in
//! words from its first entry to its last. No row has two columns past the core, so the own column of a row is never
//! read again.

ghost use Rattle.std.specs.Prelude.{◌≡◌, ℕ, ◌+◌, ◌*◌, ◌<◌, ◌≤◌, ◌==◌, length, take, unwrap_or};
ghost use Rattle.std.specs.Prelude.{IsTrue};
ghost use Rattle.nr_bitvec.specs.{Bit.bit, Packed.place};
ghost use Rattle.nr_graphpick.specs.Graph.{info_cols_of, cols_of, rows_of};
ghost use Rattle.nr_ldpcenc.specs.{Codeword.IsWordOf, Codeword.word_of, CoreRows.third_of, Rows.plan_checks};
ghost use Rattle.nr_ldpcenc.specs.inside.Solving.{lifting_of, core_sum, first_value_at, either, core_rotation, row_ending, IsHead};
ghost use Rattle.nr_ldpcenc.specs.inside.{Doubled.col_bit, Doubled.AreTwice, Doubled.HasColumns, Solving.IsSolvedTo};
ghost use Rattle.nr_ldpcenc.specs.inside.Words.{AgreeBelow};
ghost use Rattle.nr_segment.specs.CodeBlock.{positions_of, numbers};
ghost use Rattle.nr_shifttable.specs.{Accepted.entries_in, Accepted.has_graph, Accepted.IsTable, Tails.HasShape};

use crate::doubled_columns::{add_rest, add_row, load_columns, put_block};
use crate::word_blocks::{make_ready, write_block};
use nr_bitvec::Bits;
use nr_lifting::{AtEachSize, AtSize, BlockOperation, Lane, add_lane};
use nr_segment::Plan;
use nr_shifttable::Table;

// The set index of a plan's lifting size.
pub(crate) fn set_in(plan: &Plan) -> u32
    ensures value { result ≡ plan.now.set }
    ensures below { result < 8 }
{
    plan.set
}

// The value at a row of the first parity column; 0 if there is none.
fn first_value(table: &Table, plan: &Plan, row: u32) -> u16
    ensures { result ≡ unwrap_or (first_value_at (lifting_of table.now plan.now plan.now.z) row) 0 }
{
    table
        .shift(plan.graph, row, plan.graph.info_cols(), set_in(plan))
        .unwrap_or(0)
}

// The value at that one of rows 1 and 2 which has the first parity column.
fn middle_value(table: &Table, plan: &Plan) -> u16
    ensures { result ≡ either
        (first_value_at (lifting_of table.now plan.now plan.now.z) 1)
        (first_value_at (lifting_of table.now plan.now plan.now.z) 2) }
{
    match table.shift(plan.graph, 1, plan.graph.info_cols(), set_in(plan)) {
        Some(value) => value,
        None => first_value(table, plan, 2),
    }
}

// Of three values, two of which are equal, the third.
fn third_value(a: u16, b: u16, c: u16) -> u16
    ensures { result ≡ third_of a b c }
{
    if a == b {
        c
    } else if a == c {
        b
    } else {
        a
    }
}

// By how much the first parity column is rotated in the sum of the four core rows.
fn rotation_of(table: &Table, plan: &Plan) -> u16
    ensures { result ≡ core_rotation (lifting_of table.now plan.now plan.now.z) }
{
    let first = first_value(table, plan, 0);
    let middle = middle_value(table, plan);
    let last = first_value(table, plan, 3);
    third_value(first, middle, last)
}

// What a row of blocks has before the first parity column.
fn head_of<const Z: usize, const W: usize>(
    table: &Table,
    plan: &Plan,
    row: u32,
    cols: &[u64],
) -> [u64; W]
    requires above { 64 * W < Z + 64 }
    requires below { Z ≤ 64 * W }
    requires some { 0 < Z }
    requires most { W ≤ 6 }
    requires words { 12 * info_cols_of plan.now.graph ≤ length cols.now }
    requires twice { AreTwice Z (info_cols_of plan.now.graph) cols.now }
    ensures table { IsTable table.now }
    ensures head { IsHead (lifting_of table.now plan.now Z) (col_bit Z cols.now) row result }
{
    let first = plan.graph.info_cols() as usize;
    let mut sum = [0; W];
    add_row::<Z, W>(
        set_in(plan) as usize,
        table.row_entries(plan.graph, row),
        first,
        cols,
        &mut sum,
    );
    sum
}

// Solves the first parity column: the sum of the four core rows is this column alone, rotated.
fn solve_first<const Z: usize, const W: usize>(
    table: &Table,
    plan: &Plan,
    heads: &[u64; W],
    cols: &mut [u64],
    bits: &mut Bits,
)
    requires above { 64 * W < Z + 64 }
    requires below { Z ≤ 64 * W }
    requires some { 0 < Z }
    requires most { W ≤ 6 }
    requires long { length bits.old.items ≡ cols_of plan.now.graph * Z }
    requires columns { HasColumns Z (info_cols_of plan.now.graph) (info_cols_of plan.now.graph)
        cols.old bits.old.items }
    requires sum { (t : ℕ) → t < Z → (place heads.now t == 1)
        ≡ core_sum (lifting_of table.now plan.now Z) (col_bit Z cols.old) t }
    ensures solved { IsSolvedTo (lifting_of table.now plan.now Z) 1 (bit bits.new.items) }
    ensures columns { HasColumns Z (info_cols_of plan.now.graph + 1)
        (info_cols_of plan.now.graph + 1) cols.new bits.new.items }
    ensures same_below { AgreeBelow (info_cols_of plan.now.graph * Z)
        (bit bits.old.items) (bit bits.new.items) }
    ensures long { length bits.new.items ≡ length bits.old.items }
{
    let rotation = usize::from(rotation_of(table, plan)) % Z;
    let sum: Lane<Z, W> = Lane::clipped(heads);
    let block = sum.rotated((Z - rotation) % Z);
    put_block(plan.graph.info_cols() as usize, cols, bits, &block);
}

// Solves parity column `i`, counted from the first one, from the core row that it is the last of. `head` is what this
// row has before the first one.
fn solve_next<const Z: usize, const W: usize>(
    table: &Table,
    plan: &Plan,
    i: u32,
    head: &[u64; W],
    cols: &mut [u64],
    bits: &mut Bits,
)
    requires above { 64 * W < Z + 64 }
    requires below { Z ≤ 64 * W }
    requires some { 0 < Z }
    requires most { W ≤ 6 }
    requires after { 1 ≤ i }
    requires last { i < 4 }
    requires long { length bits.old.items ≡ cols_of plan.now.graph * Z }
    requires columns { HasColumns Z (info_cols_of plan.now.graph + i)
        (info_cols_of plan.now.graph + i) cols.old bits.old.items }
    requires solved { IsSolvedTo (lifting_of table.now plan.now Z) i (bit bits.old.items) }
    requires head { IsHead (lifting_of table.now plan.now Z) (bit bits.old.items) (row_ending i) head.now }
    ensures solved { IsSolvedTo (lifting_of table.now plan.now Z) (i + 1) (bit bits.new.items) }
    ensures columns { HasColumns Z (info_cols_of plan.now.graph + (i + 1))
        (info_cols_of plan.now.graph + (i + 1)) cols.new bits.new.items }
    ensures same_below { AgreeBelow (info_cols_of plan.now.graph * Z)
        (bit bits.old.items) (bit bits.new.items) }
    ensures long { length bits.new.items ≡ length bits.old.items }
{
    let set = set_in(plan) as usize;
    let first = plan.graph.info_cols() as usize;
    let column = first + i as usize;
    let row = if i < 3 { i - 1 } else { i };
    let mut sum = *head;
    add_rest::<Z, W>(
        set,
        table.row_entries(plan.graph, row),
        first,
        column,
        cols,
        &mut sum,
    );
    let block: Lane<Z, W> = Lane::clipped(&sum);
    put_block(column, cols, bits, &block);
}

// Solves the parity columns of the core, the first four.
fn solve_core<const Z: usize, const W: usize>(
    table: &Table,
    plan: &Plan,
    cols: &mut [u64],
    bits: &mut Bits,
)
    requires above { 64 * W < Z + 64 }
    requires below { Z ≤ 64 * W }
    requires some { 0 < Z }
    requires most { W ≤ 6 }
    requires long { length bits.old.items ≡ cols_of plan.now.graph * Z }
    requires columns { HasColumns Z (info_cols_of plan.now.graph) (info_cols_of plan.now.graph)
        cols.old bits.old.items }
    ensures table { IsTable table.now }
    ensures solved { IsSolvedTo (lifting_of table.now plan.now Z) 4 (bit bits.new.items) }
    ensures columns { HasColumns Z (info_cols_of plan.now.graph + 4)
        (info_cols_of plan.now.graph + 4) cols.new bits.new.items }
    ensures same_below { AgreeBelow (info_cols_of plan.now.graph * Z)
        (bit bits.old.items) (bit bits.new.items) }
    ensures long { length bits.new.items ≡ length bits.old.items }
{
    let zero = head_of::<Z, W>(table, plan, 0, cols);
    let one = head_of::<Z, W>(table, plan, 1, cols);
    let two = head_of::<Z, W>(table, plan, 2, cols);
    let three = head_of::<Z, W>(table, plan, 3, cols);
    let mut heads = zero;
    add_lane(&mut heads, &one);
    add_lane(&mut heads, &two);
    add_lane(&mut heads, &three);
    solve_first::<Z, W>(table, plan, &heads, cols, bits);
    solve_next::<Z, W>(table, plan, 1, &zero, cols, bits);
    solve_next::<Z, W>(table, plan, 2, &one, cols, bits);
    solve_next::<Z, W>(table, plan, 3, &three, cols, bits);
}

// Solves parity column `i`, counted from the first one and past the core, from its own row. No other row has this
// column, so it is put into the word alone.
fn solve_own<const Z: usize, const W: usize>(
    table: &Table,
    plan: &Plan,
    i: u32,
    cols: &[u64],
    bits: &mut Bits,
)
    requires above { 64 * W < Z + 64 }
    requires below { Z ≤ 64 * W }
    requires some { 0 < Z }
    requires most { W ≤ 6 }
    requires after { 4 ≤ i }
    requires last { i < rows_of plan.now.graph }
    requires shape { HasShape (entries_in plan.now.graph table.now) plan.now.set
        (info_cols_of plan.now.graph) (rows_of plan.now.graph) }
    requires long { length bits.old.items ≡ cols_of plan.now.graph * Z }
    requires columns { HasColumns Z (info_cols_of plan.now.graph + 4)
        (info_cols_of plan.now.graph + i) cols.now bits.old.items }
    requires solved { IsSolvedTo (lifting_of table.now plan.now Z) i (bit bits.old.items) }
    ensures solved { IsSolvedTo (lifting_of table.now plan.now Z) (i + 1) (bit bits.new.items) }
    ensures columns { HasColumns Z (info_cols_of plan.now.graph + 4)
        (info_cols_of plan.now.graph + (i + 1)) cols.now bits.new.items }
    ensures same_below { AgreeBelow (info_cols_of plan.now.graph * Z)
        (bit bits.old.items) (bit bits.new.items) }
    ensures long { length bits.new.items ≡ length bits.old.items }
{
    let first = plan.graph.info_cols() as usize;
    let mut sum = [0; W];
    add_row::<Z, W>(
        set_in(plan) as usize,
        table.row_entries(plan.graph, i),
        first + 4,
        cols,
        &mut sum,
    );
    let block: Lane<Z, W> = Lane::clipped(&sum);
    write_block(first + i as usize, bits, &block);
}

// The solving of all parity columns of a word, as `fill`.
#[derive(Drop)]
pub(crate) struct FillWord<'a> {
    pub(crate) table: &'a Table,
    pub(crate) plan: &'a Plan,
    pub(crate) bits: &'a mut Bits,
}

impl BlockOperation for FillWord<'_> {
    type Answer = ();

    ghost ready = { λ f z. (f.plan.now.z ≡ z) × IsTrue (has_graph f.plan.now.graph f.table.now)
        × (length f.bits.now.items ≡ positions_of f.plan.now) };

    ghost done = { λ f z _ after. (after.bits.now.items ≡ word_of (plan_checks f.table.now f.plan.now)
        (take f.plan.now.k f.bits.now.items))
        × IsWordOf (plan_checks f.table.now f.plan.now) (take f.plan.now.k f.bits.now.items) after.bits.now.items
        × (after.bits.ghost_name ≡ f.bits.ghost_name) };
}

impl<const Z: usize, const W: usize> AtSize<Z, W> for FillWord<'_> {
    fn run(&mut self) {
        let (table, plan) = (self.table, self.plan);
        let bits = &mut *self.bits;
        let first = plan.graph.info_cols() as usize;
        let mut cols = [0; 312];
        load_columns::<Z, W>(first, bits, &mut cols);
        make_ready::<Z>(first, bits);
        solve_core::<Z, W>(table, plan, &mut cols, bits);
        for i in 4..plan.graph.rows() {
            solve_own::<Z, W>(table, plan, i, &cols, bits);
        }
    }
}

impl AtEachSize for FillWord<'_> {}
