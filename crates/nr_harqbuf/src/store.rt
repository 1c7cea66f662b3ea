//! The HARQ buffer of one code block.

ghost use Rattle.std.specs.Prelude.{◌≡◌, ℕ, ◌<◌, ◌&&◌, ◌↔◌, Bool, Some, not, [], length, IfOk, IsTrue};
ghost use Rattle.nr_bitvec.specs.{Bit.bit, Marks.marks_in};
ghost use Rattle.nr_segment.specs.CodeBlock.{positions_of};
ghost use Rattle.nr_harqbuf.specs.Marks.{IsKeptBy, merge_of, record_by};
ghost use Rattle.nr_harqbuf.specs.Record.{HasFirsts, first_at, is_heard, record_of, with_hearing};

use crate::marks::{MergedWord, agrees, put_changed};
use nr_bitvec::{Bits, Marks};
use nr_segment::Plan;
use std::alloc::{AllocError, Global};
use std::marker::Model;

/// The HARQ buffer of one code block: for each codeword index the bit that was received there first, and whether any index was
/// received with both bits (a clash).
#[derive(Drop)]
pub struct Store {
    marks: Marks,
    clash: bool,
}

impl Model for Store {
    ghost use Rattle.nr_bitvec.specs.Marks.{marks_in};
    ghost use Rattle.nr_harqbuf.specs.Marks.{record_by};
    ghost use Rattle.nr_harqbuf.specs.Record.{HeardBits};

    ghost Value = { HeardBits };

    ghost view = { λ s. record_by (marks_in s.marks) s.clash };
}

impl Store {
    /// Creates an empty buffer for one code block of this plan. It is the only call of a buffer, apart from `try_clone`, that
    /// allocates.
    ///
    /// # Errors
    ///
    /// `AllocError` if an allocation fails.
    pub fn new(alloc: Global, plan: &Plan) -> Result<Store, AllocError>
        ensures { IfOk result (λ store. store ≡ record_of (positions_of plan.now) []) }
    {
        let marks = Marks::blank(alloc, plan.graph.cols() * plan.z)?;
        Ok(Store {
            marks,
            clash: false,
        })
    }

    /// Restores a buffer that was kept elsewhere. `marks` has each codeword index that was received, with its bit, and `clash`
    /// tells whether any index was received with both bits. Every value of `marks` is a valid buffer. Allocates nothing.
    pub fn of_record(marks: Marks, clash: bool) -> Store
        ensures { result ≡ record_by (marks_in marks) clash }
    {
        Store { marks, clash }
    }

    /// Copies the buffer.
    ///
    /// # Errors
    ///
    /// `AllocError` if an allocation fails.
    pub fn try_clone(&self) -> Result<Store, AllocError>
        ensures { IfOk result (λ store. store ≡ self.now) }
    {
        let heard = self.marks.heard.try_clone()?;
        let value = self.marks.value.try_clone()?;
        Ok(Store {
            marks: Marks { heard, value },
            clash: self.clash,
        })
    }

    /// Becomes equal to another buffer of as many codeword indexes. Allocates nothing.
    pub fn copy_from(&mut self, from: &Store)
        requires { length self.old.first ≡ length from.now.first }
        ensures { self.new ≡ from.now }
    {
        copy_bits(&mut self.marks.heard, &from.marks.heard);
        copy_bits(&mut self.marks.value, &from.marks.value);
        self.clash = from.clash;
    }

    /// Returns which codeword indexes have been received, and the bit that was received first at each of them.
    pub fn marks(&self) -> &Marks
        ensures { IsKeptBy self.now (marks_in result.now) }
    {
        &self.marks
    }

    /// Receives a bit at codeword index `pos`. The first bit received at an index is kept; if a later one differs, the buffer has
    /// a clash. Allocates nothing.
    pub fn hear(&mut self, pos: u32, bit: bool)
        requires { pos < length self.old.first }
        ensures { self.new ≡ with_hearing self.old (pos, bit) }
    {
        let pos = pos as usize;
        if self.marks.heard.get(pos) {
            self.clash |= self.marks.value.get(pos) != bit;
        } else {
            self.marks.heard.set(pos, true);
            self.marks.value.set(pos, bit);
        }
    }

    /// Receives all marked bits at once; `marks` has one entry for each codeword index. The first bit received at an index is kept;
    /// if a later one differs, the buffer has a clash. On return, `marks` holds only the indexes that were received for the first
    /// time. Allocates nothing.
    pub fn hear_all(&mut self, marks: &mut Marks)
        requires marks { length marks.old.heard.items ≡ length self.old.first }
        ensures merged { self.new ≡ merge_of self.old (marks_in marks.old) }
        ensures news { (p : ℕ) → bit marks.new.heard.items p
            ≡ (bit marks.old.heard.items p && not (is_heard (first_at self.old p))) }
        ensures bits { marks.new.value ≡ marks.old.value }
        ensures long { length marks.new.heard.items ≡ length marks.old.heard.items }
        ensures room { marks.new.heard.room ≡ marks.old.heard.room }
    {
        for i in 0..marks.heard.len().div_ceil(64) {
            let at = 64 * i;
            let now = marks.heard.window(at);
            // A transmission mostly leaves out a run of indexes, so that many words are empty.
            if now != 0 {
                let count = (marks.heard.len() - at).min(64);
                let before = self.marks.heard.window(at);
                let bits = marks.value.window(at);
                let old = self.marks.value.window(at);
                let word = MergedWord::of(before, old, now, bits);
                self.clash |= !word.agreed;
                self.marks.heard.put(at, count, word.heard);
                self.marks.value.put(at, count, word.value);
                put_changed(&mut marks.heard, at, count, now, word.news);
            }
        }
    }

    /// Returns the bit that was received first at codeword index `pos`, or `None` if nothing has been received there.
    pub fn heard(&self, pos: u32) -> Option<bool>
        requires { pos < length self.now.first }
        ensures { result ≡ first_at self.now pos }
    {
        let pos = pos as usize;
        if self.marks.heard.get(pos) {
            Some(self.marks.value.get(pos))
        } else {
            None
        }
    }

    /// Tells whether `word` has the bit that was received first at every received index. Allocates nothing.
    pub fn fits(&self, word: &Bits) -> bool
        ensures { IsTrue result ↔ HasFirsts self.now (bit word.now.items) }
    {
        agrees(&self.marks, word)
    }

    /// Returns the length of the codeword, punctured bits included.
    pub fn positions(&self) -> u32
        ensures { result ≡ length self.now.first }
    {
        self.marks.heard.len() as u32
    }

    /// Tells whether any index was received with both bits.
    pub fn clash(&self) -> bool
        ensures { result ≡ self.now.clash }
    {
        let Store { clash, .. } = self;
        *clash
    }
}

// Makes a list equal to another one of the same length.
fn copy_bits(bits: &mut Bits, from: &Bits)
    requires { length bits.old.items ≡ length from.now.items }
    ensures { bits.new.items ≡ from.now.items }
{
    bits.clear();
    bits.extend_range(from, 0, from.len());
}
