//! Counts stored as bit planes, so that 64 of them can be lowered at a time. In a group of words, word b has bit b of
//! each of 64 counts.

ghost use Rattle.std.specs.Prelude.{◌≡◌, ℕ, ◌+◌, ◌*◌, ◌^◌, ◌<◌, ◌≤◌, ◌==◌, ◌&&◌};
ghost use Rattle.std.specs.Prelude.{if◌then◌else◌, length, slice_index, EachIndex, IfOk};
ghost use Rattle.nr_bitvec.specs.Packed.{IsClear};
ghost use Rattle.nr_lifting.specs.Planes.{count_of};
ghost use Rattle.nr_lifting.specs.DoubledLanes.{is_set};

use crate::lanes::doubled_words::mask_of;
use crate::lanes::planes::{equal_to, lower_words, planes_of};
use std::alloc::{AllocError, Global};
use std::marker::Model;

// A block of counts: what its planes say, less what was subtracted from all of them.
#[derive(Clone, Copy)]
pub(crate) struct CountBlock<const P: usize, const W: usize> {
    planes: [[u64; W]; P],
    less: u8,
}

impl<const P: usize, const W: usize> CountBlock<P, W> {
    // A block of which every count is `n`.
    fn alike(n: u8) -> Self
        requires thin { P ≤ 7 }
        requires words { W ≤ 6 }
        requires small { n < 2 ^ P }
        ensures { (t : ℕ) → t < 64 * W → count_of result t ≡ n }
    {
        CountBlock {
            planes: planes_of(n),
            less: 0,
        }
    }

    // Takes one off every count of a block, of which the first is not 0.
    fn lower_each(&mut self)
        requires thin { P ≤ 7 }
        requires enough { 1 ≤ count_of self.old 0 }
        ensures { self.new ≡ record { planes = self.old.planes; less = self.old.less + 1 } }
    {
        self.less += 1;
    }

    // Marks those of the counts that a lane marks that are exactly one.
    fn ones(&self, lane: &[u64; W]) -> [u64; W]
        requires planes { P ≤ 7 }
        ensures bits { (t : ℕ) → is_set result t ≡ (is_set lane.now t && (count_of self.now t == 1)) }
        ensures clear { (m : ℕ) → IsClear lane.now m → IsClear result m }
    {
        equal_to(&self.planes, self.less.saturating_add(1), lane)
    }
}

/// Blocks of counts below 2^P, all of one size. A block takes `P` planes, at most seven, of `W` words each: bit t of
/// plane b is bit b of count t. What has been subtracted from a whole block is stored beside its planes.
#[derive(Drop)]
pub struct BitSlicedCounts<const P: usize, const W: usize> {
    size: usize,
    mask: [u64; W],
    blocks: Vec<CountBlock<P, W>>,
}

impl<const P: usize, const W: usize> Model for BitSlicedCounts<P, W> {
    ghost use Rattle.nr_lifting.specs.Planes.{BlockCounts, block_counts};
    ghost use Rattle.nr_lifting.specs.inside.Words.{ArePlanes};

    ghost Value = { BlockCounts };

    ghost view = { λ a. block_counts a.size a.blocks.items };

    ghost invariant = { λ a. ArePlanes P W a.size a.mask a.blocks.items };
}

impl<const P: usize, const W: usize> BitSlicedCounts<P, W> {
    /// Returns a block of `size` counts for each number in `counts`, all of them equal to that number.
    ///
    /// # Errors
    ///
    /// `AllocError` if memory runs out.
    pub fn new(
        alloc: Global,
        counts: &[u8],
        size: usize,
    ) -> Result<BitSlicedCounts<P, W>, AllocError>
        requires planes { P ≤ 7 }
        requires some { 0 < size }
        requires short { size ≤ 64 * W }
        requires words { W ≤ 6 }
        requires few { length counts.now < 2 ^ 16 }
        requires small { EachIndex counts.now (λ i. slice_index counts.now i < 2 ^ P) }
        ensures counts { IfOk result (λ p. (i t : ℕ) → t < size
            → slice_index p.items (i * size + t) ≡ slice_index counts.now i) }
        ensures long { IfOk result (λ p. length p.items ≡ length counts.now * size) }
        ensures lanes { IfOk result (λ p. p.lanes ≡ size) }
    {
        let mut blocks = Vec::with_capacity(alloc, counts.len())?;
        for n in counts {
            blocks.push_reserved(CountBlock::alike(*n));
        }
        let mask = mask_of(size);
        Ok(BitSlicedCounts { size, mask, blocks })
    }

    /// Copies the counts of `from`, which has the same number of blocks of the same size. Allocates nothing.
    pub fn copy_from(&mut self, from: &BitSlicedCounts<P, W>)
        requires lanes { self.old.lanes ≡ from.now.lanes }
        requires long { length self.old.items ≡ length from.now.items }
        ensures { self.new ≡ from.now }
    {
        self.blocks.copy_from_slice(&from.blocks);
    }

    /// Returns a lane with a bit set for each count of block `i` that is exactly one.
    pub fn ones(&self, i: usize) -> [u64; W]
        requires block { (i + 1) * self.now.lanes ≤ length self.now.items }
        ensures ones { (t : ℕ) → t < self.now.lanes → is_set result t
            ≡ (slice_index self.now.items (i * self.now.lanes + t) == 1) }
        ensures clear { IsClear result self.now.lanes }
    {
        self.blocks[i].ones(&self.mask)
    }

    /// Subtracts one from each count of block `i` whose bit is set in `lane`. The caller guarantees that none of these
    /// is 0.
    pub fn lower(&mut self, i: usize, lane: &[u64; W])
        requires block { (i + 1) * self.old.lanes ≤ length self.old.items }
        requires enough { (t : ℕ) → t < self.old.lanes
            → (if is_set lane.now t then 1 else 0) ≤ slice_index self.old.items (i * self.old.lanes + t) }
        ensures falls { (h t : ℕ) → t < self.old.lanes
            → slice_index self.new.items (h * self.old.lanes + t)
            + (if (i == h) && is_set lane.now t then 1 else 0)
            ≡ slice_index self.old.items (h * self.old.lanes + t) }
        ensures long { length self.new.items ≡ length self.old.items }
        ensures lanes { self.new.lanes ≡ self.old.lanes }
    {
        lower_words(&mut self.blocks[i].planes, lane, self.size);
    }

    /// Subtracts one from every count of block `i`. The caller guarantees that none of them is 0.
    pub fn lower_each(&mut self, i: usize)
        requires block { (i + 1) * self.old.lanes ≤ length self.old.items }
        requires enough { (t : ℕ) → t < self.old.lanes
            → 1 ≤ slice_index self.old.items (i * self.old.lanes + t) }
        ensures falls { (h t : ℕ) → t < self.old.lanes
            → slice_index self.new.items (h * self.old.lanes + t) + (if i == h then 1 else 0)
            ≡ slice_index self.old.items (h * self.old.lanes + t) }
        ensures long { length self.new.items ≡ length self.old.items }
        ensures lanes { self.new.lanes ≡ self.old.lanes }
    {
        self.blocks[i].lower_each();
    }
}
