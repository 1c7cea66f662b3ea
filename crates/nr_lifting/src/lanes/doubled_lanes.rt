//! Blocks of bits stored as doubled lanes, so that a word of any rotation is read in one piece.

ghost use Rattle.std.specs.Prelude.{◌≡◌, ℕ, ◌+◌, ◌-◌, ◌*◌, ◌/◌, ◌%◌, ◌^◌, ◌<◌, ◌≤◌};
ghost use Rattle.std.specs.Prelude.{◌==◌, ◌&&◌, ◌||◌, min, not, false, length, replicate, IfOk};
ghost use Rattle.std.specs.Int.{bit_at};
ghost use Rattle.nr_bitvec.specs.Bit.{◌⊕◌, bit};
ghost use Rattle.nr_bitvec.specs.Packed.{place, IsClear};
ghost use Rattle.nr_lifting.specs.inside.Words.{IsMask, IsDoubledLane, IsRotated};
ghost use Rattle.nr_lifting.specs.inside.Lane.{AddsPlaces};
ghost use Rattle.nr_lifting.specs.DoubledLanes.{is_set, lane_marks};

use crate::lanes::doubled_words::{mask_of, piece, union_doubled};
use nr_bitvec::words::window;
use std::alloc::{AllocError, Global};
use std::marker::Model;

// The one word of a block of `size` bits that is rotated by `p`, and places past the block.
fn turned_word(word: u64, size: usize, p: usize) -> u64
    requires rotation { p < size }
    requires few { size ≤ 64 }
    requires clear { (t : ℕ) → size ≤ t → bit_at word t ≡ 0 }
    ensures { (t : ℕ) → t < size → bit_at result t ≡ bit_at word ((t + p) % size) }
{
    word >> p | word << 1 << (size - p - 1)
}

// A block of `size` bits that is rotated by `p`: its bit t is bit (t + p) mod `size` of `words`.
fn rotate_lane<const W: usize, const D: usize>(
    words: &[u64; W],
    size: usize,
    p: usize,
    mask: &[u64; W],
) -> [u64; W]
    requires words { W ≤ 6 }
    requires twice { D ≡ 2 * W }
    requires rotation { p < size }
    requires few { size ≤ 64 * W }
    requires mask { IsMask size mask.now }
    requires clear { IsClear words.now size }
    ensures rotated { IsRotated size result words.now p }
    ensures clear { IsClear result size }
{
    if W == 1 {
        return [turned_word(words[0], size, p) & mask[0]; W];
    }
    if p == 0 {
        return *words;
    }
    let mut doubled: [u64; D] = [0; D];
    union_doubled(&mut doubled, words, size);
    lane_of(&doubled, size, p, mask)
}

// Adds a doubled lane, rotated by `p`, to a lane, modulo two.
fn add_doubled<const W: usize, const D: usize>(
    sum: &mut [u64; W],
    doubled: &[u64; D],
    size: usize,
    p: usize,
    mask: &[u64; W],
)
    requires twice { D ≡ 2 * W }
    requires few { size ≤ 64 * W }
    requires rotation { p < size }
    requires doubled { IsDoubledLane size doubled.now }
    requires mask { IsMask size mask.now }
    requires clear { IsClear sum.old size }
    ensures sum { AddsPlaces size sum.new sum.old doubled.now p }
    ensures clear { IsClear sum.new size }
{
    let (word, turn) = (p / 64, p % 64);
    let mut now = *sum;
    for i in 0..W {
        now[i] ^= piece(doubled, word + i, turn) & mask[i];
    }
    *sum = now;
}

// The bits of a lane that a doubled lane, rotated by `p`, lacks.
fn less_doubled<const W: usize, const D: usize>(
    lane: &[u64; W],
    doubled: &[u64; D],
    size: usize,
    p: usize,
) -> [u64; W]
    requires twice { D ≡ 2 * W }
    requires few { size ≤ 64 * W }
    requires rotation { p < size }
    requires doubled { IsDoubledLane size doubled.now }
    requires clear { IsClear lane.now size }
    ensures less { (t : ℕ) → t < size
        → place result t ≡ min (place lane.now t) (1 - place doubled.now ((t + p) % size)) }
    ensures clear { IsClear result size }
{
    let (word, turn) = (p / 64, p % 64);
    let mut rest = *lane;
    for i in 0..W {
        rest[i] &= !piece(doubled, word + i, turn);
    }
    rest
}

// A doubled lane, rotated by `p`: bit t is its bit (t + p) mod `size`.
fn lane_of<const W: usize, const D: usize>(
    doubled: &[u64; D],
    size: usize,
    p: usize,
    mask: &[u64; W],
) -> [u64; W]
    requires twice { D ≡ 2 * W }
    requires few { size ≤ 64 * W }
    requires rotation { p < size }
    requires doubled { IsDoubledLane size doubled.now }
    requires mask { IsMask size mask.now }
    ensures rotated { IsRotated size result doubled.now p }
    ensures clear { IsClear result size }
{
    if W <= 2 {
        read_doubled(doubled, size, p, mask)
    } else {
        wide_lane(doubled, size, p, mask)
    }
}

// `lane_of` for a block of many words. It is apart, so that its caller has the lane in memory and takes several words of it
// at a time.
#[inline(never)]
fn wide_lane<const W: usize, const D: usize>(
    doubled: &[u64; D],
    size: usize,
    p: usize,
    mask: &[u64; W],
) -> [u64; W]
    requires twice { D ≡ 2 * W }
    requires few { size ≤ 64 * W }
    requires rotation { p < size }
    requires doubled { IsDoubledLane size doubled.now }
    requires mask { IsMask size mask.now }
    ensures rotated { IsRotated size result doubled.now p }
    ensures clear { IsClear result size }
{
    read_doubled(doubled, size, p, mask)
}

// `lane_of` word by word.
fn read_doubled<const W: usize, const D: usize>(
    doubled: &[u64; D],
    size: usize,
    p: usize,
    mask: &[u64; W],
) -> [u64; W]
    requires twice { D ≡ 2 * W }
    requires few { size ≤ 64 * W }
    requires rotation { p < size }
    requires doubled { IsDoubledLane size doubled.now }
    requires mask { IsMask size mask.now }
    ensures rotated { IsRotated size result doubled.now p }
    ensures clear { IsClear result size }
{
    let (word, turn) = (p / 64, p % 64);
    let mut lane = [0; W];
    for i in 0..W {
        lane[i] = piece(doubled, word + i, turn) & mask[i];
    }
    lane
}

/// Blocks of bits of one size, from which lanes of any rotation are read. A lane takes `W` words, and a block is stored
/// as a doubled lane of `D` words, twice as many.
#[derive(Drop)]
pub struct DoubledLanes<const W: usize, const D: usize> {
    size: usize,
    mask: [u64; W],
    blocks: Vec<[u64; D]>,
}

impl<const W: usize, const D: usize> Model for DoubledLanes<W, D> {
    ghost use Rattle.nr_lifting.specs.DoubledLanes.{BlockBits, block_bits};
    ghost use Rattle.nr_lifting.specs.inside.Words.{AreDoubled};

    ghost Value = { BlockBits };

    ghost view = { λ a. block_bits a.size a.blocks.items };

    ghost invariant = { λ a. AreDoubled W D a.size a.mask a.blocks.items };
}

impl<const W: usize, const D: usize> DoubledLanes<W, D> {
    /// Returns `count` blocks of `size` zeros.
    ///
    /// # Errors
    ///
    /// `AllocError` if memory runs out.
    pub fn new(alloc: Global, count: usize, size: usize) -> Result<DoubledLanes<W, D>, AllocError>
        requires some { 0 < size }
        requires short { size ≤ 64 * W }
        requires words { W ≤ 6 }
        requires twice { D ≡ 2 * W }
        requires few { count < 2 ^ 16 }
        ensures items { IfOk result (λ r. r.items ≡ replicate (count * size) false) }
        ensures lanes { IfOk result (λ r. r.lanes ≡ size) }
    {
        let blocks = vec![in alloc; [0; D]; count]?;
        let mask = mask_of(size);
        Ok(DoubledLanes { size, mask, blocks })
    }

    /// Copies the bits of `from`, which has the same number of blocks of the same size. Allocates nothing.
    pub fn copy_from(&mut self, from: &DoubledLanes<W, D>)
        requires lanes { self.old.lanes ≡ from.now.lanes }
        requires long { length self.old.items ≡ length from.now.items }
        ensures { self.new ≡ from.now }
    {
        self.blocks.copy_from_slice(&from.blocks);
    }

    /// Returns bit `p`, counted through all blocks.
    pub fn get(&self, p: usize) -> bool
        requires { p < length self.now.items }
        ensures { result ≡ bit self.now.items p }
    {
        let t = p % self.size;
        window(&self.blocks[p / self.size], t / 64, t % 64) & 1 == 1
    }

    /// Returns the bits from bit `p` on, counted through all blocks, the first of them lowest, and how many they are: 1
    /// to 64.
    pub fn word_from(&self, p: usize) -> (u64, usize)
        requires { p < length self.now.items }
        ensures bits { (j : ℕ) → j < result.1
            → (bit_at result.0 j == 1) ≡ bit self.now.items (p + j) }
        ensures some { 0 < result.1 }
        ensures few { result.1 ≤ 64 }
        ensures inside { p + result.1 ≤ length self.now.items }
    {
        let t = p % self.size;
        let word = window(&self.blocks[p / self.size], t / 64, t % 64);
        (word, (self.size - t).min(64))
    }

    /// Returns block `j` rotated by `rotation`: bit t of the lane is bit (t + `rotation`) of the block, modulo its
    /// size.
    pub fn lane(&self, j: usize, rotation: usize) -> [u64; W]
        requires block { (j + 1) * self.now.lanes ≤ length self.now.items }
        requires rotation { rotation < self.now.lanes }
        ensures bits { (t : ℕ) → t < self.now.lanes → is_set result t
            ≡ bit self.now.items (j * self.now.lanes + (t + rotation) % self.now.lanes) }
        ensures clear { IsClear result self.now.lanes }
    {
        lane_of(&self.blocks[j], self.size, rotation, &self.mask)
    }

    /// Adds block `j`, rotated by `rotation`, to a lane, modulo two: bit t of the lane gains bit (t + `rotation`) of
    /// the block, modulo its size.
    pub fn add_rotated(&self, j: usize, rotation: usize, sum: &mut [u64; W])
        requires block { (j + 1) * self.now.lanes ≤ length self.now.items }
        requires rotation { rotation < self.now.lanes }
        requires clear { IsClear sum.old self.now.lanes }
        ensures bits { (t : ℕ) → t < self.now.lanes → is_set sum.new t
            ≡ is_set sum.old t ⊕ bit self.now.items (j * self.now.lanes + (t + rotation) % self.now.lanes) }
        ensures clear { IsClear sum.new self.now.lanes }
    {
        add_doubled(sum, &self.blocks[j], self.size, rotation, &self.mask);
    }

    /// Returns those bits t of `lane` for which bit (t + `rotation`) of block `j`, modulo its size, is zero.
    pub fn lacking(&self, j: usize, rotation: usize, lane: &[u64; W]) -> [u64; W]
        requires block { (j + 1) * self.now.lanes ≤ length self.now.items }
        requires rotation { rotation < self.now.lanes }
        requires clear { IsClear lane.now self.now.lanes }
        ensures bits { (t : ℕ) → t < self.now.lanes → is_set result t
            ≡ (is_set lane.now t && not (bit self.now.items (j * self.now.lanes + (t + rotation) % self.now.lanes))) }
        ensures clear { IsClear result self.now.lanes }
    {
        less_doubled(lane, &self.blocks[j], self.size, rotation)
    }

    /// Sets the bits of block `j` that are set in `lane`.
    pub fn union_with(&mut self, j: usize, lane: &[u64; W])
        requires block { (j + 1) * self.old.lanes ≤ length self.old.items }
        requires clear { IsClear lane.now self.old.lanes }
        ensures joined { (p : ℕ) → bit self.new.items p
            ≡ (bit self.old.items p || lane_marks self.old.lanes j (is_set lane.now) p) }
        ensures long { length self.new.items ≡ length self.old.items }
        ensures lanes { self.new.lanes ≡ self.old.lanes }
    {
        union_doubled(&mut self.blocks[j], lane, self.size);
    }

    /// Sets the bits of block `j` that are set in `lane` after it is rotated by `p`.
    pub fn union_rotated(&mut self, j: usize, lane: &[u64; W], p: usize)
        requires block { (j + 1) * self.old.lanes ≤ length self.old.items }
        requires rotation { p < self.old.lanes }
        requires clear { IsClear lane.now self.old.lanes }
        ensures joined { (q : ℕ) → bit self.new.items q
            ≡ (bit self.old.items q || lane_marks self.old.lanes j (λ t. is_set lane.now ((t + p) % self.old.lanes)) q) }
        ensures long { length self.new.items ≡ length self.old.items }
        ensures lanes { self.new.lanes ≡ self.old.lanes }
    {
        let turned = rotate_lane::<W, D>(lane, self.size, p, &self.mask);
        union_doubled(&mut self.blocks[j], &turned, self.size);
    }

    /// Sets every bit of block `j` to zero.
    pub fn clear(&mut self, j: usize)
        requires { (j + 1) * self.old.lanes ≤ length self.old.items }
        ensures cleared { (p : ℕ) → bit self.new.items p
            ≡ (bit self.old.items p && not (p / self.old.lanes == j)) }
        ensures long { length self.new.items ≡ length self.old.items }
        ensures lanes { self.new.lanes ≡ self.old.lanes }
    {
        self.blocks[j] = [0; D];
    }
}
