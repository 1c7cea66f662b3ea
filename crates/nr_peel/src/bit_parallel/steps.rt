//! How the rows that a lane marks add their steps to a list.

#![tactic(auto, using(crate::proofs::StepFacts::step_rules))]

ghost use Rattle.std.specs.Prelude.{◌≡◌, ◌+◌, ◌*◌, ◌^◌, ◌<◌, ◌≤◌, ◌++◌, ◌==◌};
ghost use Rattle.std.specs.Prelude.{if◌then◌else◌, ℕ, IfOk, [], length, take, true, vec_capacity};
ghost use Rattle.std.specs.Int.{bit_at};
ghost use Rattle.nr_bitvec.specs.Packed.{IsClear};
ghost use Rattle.nr_lifting.specs.DoubledLanes.{is_set, marked_count};
ghost use Rattle.nr_peel.specs.inside.Lanes.{place_in, rotated_step, step_along, step_in, step_number, step_of, steps_below};
ghost use Rattle.nr_peel.specs.inside.{Lanes.with_steps, Certificates.AddsSteps, Certificates.HasRoom};

use crate::fix::Fix;
use nr_bitvec::words::low_bits;
use nr_shifttable::Entry;
use std::alloc::{AllocError, Global};
use std::mem::replace;

// The steps that fixed positions, if they are kept. If they aren't the list stays empty and takes no memory.
#[derive(Drop)]
pub(crate) struct Steps {
    pub(crate) list: Vec<Fix>,
    pub(crate) kept: bool,
}

impl Steps {
    // No steps, and room for as many as there are rows.
    pub(crate) fn new(alloc: Global, rows: usize, kept: bool) -> Result<Steps, AllocError>
        requires { rows < 2 ^ 32 }
        ensures kept { IfOk result (λ s. s.kept ≡ kept) }
        ensures none { IfOk result (λ s. s.list.items ≡ []) }
        ensures room { IfOk result (λ s. HasRoom s rows) }
    {
        if !kept {
            let list = Vec::new(alloc);
            return Ok(Steps { list, kept });
        }
        // `push_lane` wants room for two more steps.
        let list = Vec::with_capacity(alloc, rows + 2)?;
        Ok(Steps { list, kept })
    }

    // A copy of the steps, with room for as many.
    pub(crate) fn try_clone(&self) -> Result<Steps, AllocError>
        ensures kept { IfOk result (λ s. s.kept ≡ self.now.kept) }
        ensures steps { IfOk result (λ s. s.list.items ≡ self.now.list.items) }
        ensures room { IfOk result (λ s. vec_capacity self.now.list ≤ vec_capacity s.list) }
    {
        let mut list = Vec::with_capacity(*self.list.allocator(), self.list.capacity())?;
        list.extend_from_slice(&self.list)?;
        Ok(Steps {
            list,
            kept: self.kept,
        })
    }

    // Adds the steps of those rows of an entry's block that a lane marks, if steps are kept.
    pub(crate) fn add_lane<const W: usize>(
        &mut self,
        entry: &Entry,
        size: u32,
        rotation: u32,
        lane: &[u64; W],
    )
        requires few { size ≤ 384 }
        requires words { size ≤ 64 * W }
        requires rotation { rotation < size }
        requires clear { IsClear lane.now size }
        requires room { HasRoom self.old (length self.old.list.items + marked_count (is_set lane.now) size) }
        ensures { AddsSteps (steps_below (rotated_step size entry.now.row entry.now.col rotation) (is_set lane.now) size)
            self.old self.new }
    {
        if self.kept {
            push_lane(&mut self.list, entry, size, rotation, lane);
        }
    }
}

// What the number of a step grows by for the next row, which fixes the next position.
const NEXT: u64 = 0x1_0001_0000;

// A step as a number: its row of blocks, its row from bit 16 on, and its position from bit 32 on. So the steps of rows whose
// positions follow one another grow evenly. A run of them is made by one addition each, and compiled code writes two at a time.
fn number_of(row: u16, lane: u32, pos: u32) -> u64
    requires { lane < 2 ^ 16 }
    ensures { result ≡ step_number row lane pos }
{
    u64::from(row) + u64::from(lane) * 0x1_0000 + u64::from(pos) * 0x1_0000_0000
}

// The step of a number.
fn step_from(number: u64) -> Fix
    ensures { result ≡ step_of number }
{
    Fix {
        row: (number % 0x1_0000) as u16,
        lane: (number / 0x1_0000 % 0x1_0000) as u16,
        pos: (number / 0x1_0000_0000) as u32,
    }
}

// Adds the steps of `count` rows that follow one another, from that of a number on.
fn push_run(order: &mut Vec<Fix>, first: u64, count: u32)
    requires few { count ≤ 64 }
    requires fits { first + 64 * (2 ^ 16 + 2 ^ 32) < 2 ^ 64 }
    requires room { length order.old.items + count ≤ vec_capacity order.old }
    ensures steps { order.new.items ≡ order.old.items
        ++ steps_below (step_along first) (λ b. true) count }
    ensures capacity { vec_capacity order.new ≡ vec_capacity order.old }
{
    let mut number = first;
    for b in 0..count {
        order.push_reserved(step_from(number));
        number += NEXT;
    }
}

// The block of an entry: its row of blocks, its first position, how many positions it has, and its rotation.
#[derive(Clone, Copy)]
struct EntryBlock {
    row: u16,
    first: u32,
    size: u32,
    rotation: u32,
    ghost few: { size ≤ 384 },
    ghost small: { rotation < size },
    ghost fits: { first < 2 ^ 25 },
}

impl EntryBlock {
    // The block of an entry.
    fn of(entry: &Entry, size: u32, rotation: u32) -> EntryBlock
        requires few { size ≤ 384 }
        requires rotation { rotation < size }
        ensures row { result.row ≡ entry.now.row }
        ensures first { result.first ≡ entry.now.col * size }
        ensures size { result.size ≡ size }
        ensures rotation { result.rotation ≡ rotation }
    {
        EntryBlock {
            row: entry.row,
            first: u32::from(entry.col) * size,
            size,
            rotation,
        }
    }

    // Where in the block the position of a row is. No division is needed.
    fn place(self, t: u32) -> u32
        requires { t ≤ 384 }
        ensures { result ≡ place_in self.size self.rotation t }
    {
        let ahead = t + self.rotation;
        if ahead < self.size {
            ahead
        } else {
            ahead - self.size
        }
    }
}

// Adds the step of the first of 64 rows that a word marks, and returns the marks of the others. `first` is the number of the
// first row's step. If none is marked some step is added, to be taken off again.
fn push_lowest(order: &mut Vec<Fix>, first: u64, word: u64) -> u64
    requires fits { first + 64 * (2 ^ 16 + 2 ^ 32) < 2 ^ 64 }
    requires room { length order.old.items + 1 ≤ vec_capacity order.old }
    ensures kept { (n : ℕ) → n ≤ length (with_steps order.old.items (step_along first) word)
        → take n (with_steps order.new.items (step_along first) result)
        ≡ take n (with_steps order.old.items (step_along first) word) }
    ensures long { length (with_steps order.new.items (step_along first) result)
        ≡ length (with_steps order.old.items (step_along first) word) + (if word == 0 then 1 else 0) }
    ensures less { 0 < word → result < word }
    ensures none { word ≡ 0 → result ≡ 0 }
    ensures capacity { vec_capacity order.new ≡ vec_capacity order.old }
{
    let number = first + u64::from(word.trailing_zeros()) * NEXT;
    order.push_reserved(step_from(number));
    word & word.wrapping_sub(1)
}

// Adds the steps of those of 64 rows that a word marks. `first` is the number of the first row's step. Most words mark few rows,
// and no processor foresees how many. So two steps at a time are written without a look, and then the list is cut.
fn push_marked(order: &mut Vec<Fix>, first: u64, word: u64)
    requires fits { first + 64 * (2 ^ 16 + 2 ^ 32) < 2 ^ 64 }
    requires room { length (with_steps order.old.items (step_along first) word) + 2 ≤ vec_capacity order.old }
    ensures steps { order.new.items ≡ with_steps order.old.items (step_along first) word }
    ensures capacity { vec_capacity order.new ≡ vec_capacity order.old }
{
    let len = order.len() + word.count_ones() as usize;
    let others = push_lowest(order, first, word);
    let mut rest = push_lowest(order, first, others);
    'bits: while rest != 0 {
        let others = push_lowest(order, first, rest);
        rest = push_lowest(order, first, others);
    }
    order.truncate(len);
}

// As `push_marked`. If the first rows are marked their steps are a run. Only words that mark more rows than `few` are
// looked at for one: to ask more often costs a branch that isn't foreseen.
fn push_rows(order: &mut Vec<Fix>, first: u64, word: u64, few: u32)
    requires fits { first + 64 * (2 ^ 16 + 2 ^ 32) < 2 ^ 64 }
    requires room { length (with_steps order.old.items (step_along first) word) + 2 ≤ vec_capacity order.old }
    ensures steps { order.new.items ≡ with_steps order.old.items (step_along first) word }
    ensures capacity { vec_capacity order.new ≡ vec_capacity order.old }
{
    let count = word.count_ones();
    if count > few && low_bits(u64::MAX, count as usize) == word {
        push_run(order, first, count);
    } else {
        push_marked(order, first, word);
    }
}

// Adds the steps of those of 64 rows of a block that a word marks, from row `start` on. If the positions of these rows begin
// anew at the block's first, the word is parted. So the steps of either part are numbers that grow evenly.
fn push_word(order: &mut Vec<Fix>, block: EntryBlock, start: u32, word: u64)
    requires start { start ≤ 320 }
    requires inside { start < block.size }
    requires rows { (j : ℕ) → bit_at word j ≡ 1 → start + j < block.size }
    requires room { length (with_steps order.old.items (λ j. step_in block.row block.first block.size block.rotation (start + j))
        word) + 2 ≤ vec_capacity order.old }
    ensures steps { order.new.items
        ≡ with_steps order.old.items (λ j. step_in block.row block.first block.size block.rotation (start + j)) word }
    ensures capacity { vec_capacity order.new ≡ vec_capacity order.old }
{
    let place = block.place(start);
    let ahead = block.size - place;
    let few = block.size.min(64) / 2;
    let first = number_of(block.row, start, block.first + place);
    if ahead < 64 {
        push_rows(order, first, low_bits(word, ahead as usize), few);
        let again = number_of(block.row, start + ahead, block.first);
        push_rows(order, again, word >> ahead, few);
    } else {
        push_rows(order, first, word, few);
    }
}

// Adds the steps of those rows of an entry's block that a lane marks. The list is moved out meanwhile, so that compiled
// code doesn't store its length at each step. It has room for two more, which are taken off again.
fn push_lane<const W: usize>(
    order: &mut Vec<Fix>,
    entry: &Entry,
    size: u32,
    rotation: u32,
    lane: &[u64; W],
)
    requires few { size ≤ 384 }
    requires words { size ≤ 64 * W }
    requires rotation { rotation < size }
    requires clear { IsClear lane.now size }
    requires room { length order.old.items + marked_count (is_set lane.now) size + 2
        ≤ vec_capacity order.old }
    ensures steps { order.new.items ≡ order.old.items
        ++ steps_below (rotated_step size entry.now.row entry.now.col rotation) (is_set lane.now) size }
    ensures capacity { vec_capacity order.new ≡ vec_capacity order.old }
{
    let block = EntryBlock::of(entry, size, rotation);
    let none = Vec::new(*order.allocator());
    let mut taken = replace(order, none);
    for i in 0..size.div_ceil(64) {
        let word = lane[i as usize];
        if word != 0 {
            push_word(&mut taken, block, 64 * i, word);
        }
    }
    *order = taken;
}
