//! The words into which a code block is encoded.

ghost use Rattle.std.specs.Prelude.{◌≡◌, ℕ, ◌+◌, ◌^◌, ◌<◌, ◌≤◌, ◌==◌, false, IfOk, IsTrue, length};
ghost use Rattle.std.specs.{Prelude.replicate, Prelude.slice_set, Prelude.take, Int.bit_at};
ghost use Rattle.nr_bitvec.specs.Bit.{bit};
ghost use Rattle.nr_ldpcenc.specs.{Codeword.IsWordOf, Codeword.word_of, Rows.plan_checks, inside.Words.Copies};
ghost use Rattle.nr_segment.specs.CodeBlock.{positions_of, numbers};
ghost use Rattle.nr_shifttable.specs.Accepted.{has_graph};

use crate::solver::FillWord;
use nr_bitvec::Bits;
use nr_lifting::at_size;
use nr_segment::Plan;
use nr_shifttable::Table;
use std::alloc::{AllocError, Global};
use std::marker::Model;

/// A word: one bit for each column of the parity-check matrix of a code block, which makes 68 Zc or 52 Zc bits (TS
/// 38.212, 5.3.2). The first K are the code block with its fillers, and the first 2 Zc are never sent.
#[derive(Debug, Drop)]
pub struct Word {
    bits: Bits,
}

impl Model for Word {
    ghost use Rattle.std.specs.Prelude.{List, Bool};

    ghost Value = { List Bool };

    ghost view = { λ w. w.bits.items };
}

impl Word {
    /// Returns the word of zeros for the code blocks of a plan.
    ///
    /// # Errors
    ///
    /// `AllocError` if memory runs out.
    pub fn new(alloc: Global, plan: &Plan) -> Result<Word, AllocError>
        ensures { IfOk result (λ word. word
            ≡ replicate (positions_of plan.now) false) }
    {
        let bits = Bits::zeros(alloc, plan.graph.cols() * plan.z)?;
        Ok(Word { bits })
    }

    /// Returns the number of bits: 68 Zc or 52 Zc.
    pub fn len(&self) -> usize
        ensures value { result ≡ length self.now }
        ensures short { result ≤ 2 ^ 24 }
    {
        self.bits.len()
    }

    /// Returns the bits as a list, of which ranges can be taken.
    pub fn bits(&self) -> &Bits
        ensures { result.now.items ≡ self.now }
    {
        &self.bits
    }

    /// Returns bit `i`, counted from 0, which must be below the length.
    pub fn get(&self, i: usize) -> bool
        requires { i < length self.now }
        ensures { result ≡ bit self.now i }
    {
        self.bits.get(i)
    }

    /// Sets bit `i`, counted from 0, to `value`. The caller guarantees that `i` is below the length. Allocates nothing.
    pub fn set(&mut self, i: usize, value: bool)
        requires { i < length self.old }
        ensures { self.new ≡ slice_set self.old i value }
    {
        self.bits.set(i, value);
    }

    /// Overwrites the bits from bit `at` on with the `count` lowest bits of `bits`, the lowest first. The caller
    /// guarantees that `count` is at most 64 and that the word has these bits. Allocates nothing.
    pub fn put(&mut self, at: usize, count: usize, bits: u64)
        requires count { count ≤ 64 }
        requires inside { at + count ≤ length self.old }
        ensures within { (t : ℕ) → t < count → bit self.new (at + t) ≡ (bit_at bits t == 1) }
        ensures before { (t : ℕ) → t < at → bit self.new t ≡ bit self.old t }
        ensures after { (t : ℕ) → at + count ≤ t → bit self.new t ≡ bit self.old t }
        ensures long { length self.new ≡ length self.old }
    {
        self.bits.put(at, count, bits);
    }

    // Puts a list of bits at the start.
    pub(crate) fn begin(&mut self, bits: &Bits)
        requires { length bits.now.items ≤ length self.old }
        ensures { Copies (length bits.now.items) (length bits.now.items) bits.now.items
            self.old self.new }
    {
        copy_bits(&mut self.bits, bits);
    }
}

/// Solves the parity columns of a word (TS 38.212, 5.3.2). The first K bits stay, and the others become those of the
/// only word that begins with these and meets every check row. Allocates nothing.
pub fn fill(table: &Table, plan: &Plan, word: &mut Word)
    requires graph { IsTrue (has_graph plan.now.graph table.now) }
    requires long { length word.old ≡ positions_of plan.now }
    ensures is_word { IsWordOf (plan_checks table.now plan.now)
        (take plan.now.k word.old) word.new }
    ensures completed { word.new ≡ word_of (plan_checks table.now plan.now)
        (take plan.now.k word.old) }
{
    let bits = &mut word.bits;
    at_size(plan.z as usize, &mut FillWord { table, plan, bits });
}

// Puts a list of bits at the start of another.
fn copy_bits(bits: &mut Bits, from: &Bits)
    requires { length from.now.items ≤ length bits.old.items }
    ensures { Copies (length from.now.items) (length from.now.items) from.now.items
        bits.old.items bits.new.items }
{
    let count = from.len();
    for i in 0..count.div_ceil(64) {
        bits.put(64 * i, (count - 64 * i).min(64), from.window(64 * i));
    }
}
