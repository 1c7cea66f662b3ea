//! Adds and counts rotated blocks of bits at any lifting size, 64 bits at a time. Besides the two operations, this
//! module has the calls that run them at a size which is known only at run time.

ghost use Rattle.std.specs.Prelude.{◌≡◌, ◌+◌, ◌<◌, ◌≤◌, length};
ghost use Rattle.nr_lifting.specs.Blocks.{IsSize, GainsBlock, TalliesBlock};

use crate::lanes::Lane;
use crate::sizes::{AtEachSize, AtSize, BlockOperation, at_size};
use nr_bitvec::Bits;

/// Adds a rotated block to `acc`, modulo two: bit `at + t` of `acc` gains bit `from + (t + p) mod z` of `src`, for each
/// t below `z`. This is the product with a circulant, the identity matrix shifted by `p` (TS 38.212, 5.3.2). Allocates
/// nothing.
pub fn add_block(z: usize, acc: &mut Bits, at: usize, src: &Bits, from: usize, p: usize)
    requires size { IsSize z }
    requires place { at + z ≤ length acc.old.items }
    requires source { from + z ≤ length src.now.items }
    requires rotation { p < z }
    ensures sum { GainsBlock z acc.new.items acc.old.items at src.now.items from p }
    ensures room { acc.new.room ≡ acc.old.room }
{
    at_size(
        z,
        &mut AddBlock {
            acc,
            at,
            src,
            from,
            p,
        },
    );
}

/// Counts the bits of a rotated block, up to two. For each t below `z`, let u be bit `from + (t + p) mod z` of `src`:
/// if u is set, bit t of `ones` becomes set, and bit t of `more` too if `ones` had it already. Allocates nothing.
pub fn tally_block(z: usize, ones: &mut Bits, more: &mut Bits, src: &Bits, from: usize, p: usize)
    requires size { IsSize z }
    requires ones { z ≤ length ones.old.items }
    requires more { z ≤ length more.old.items }
    requires source { from + z ≤ length src.now.items }
    requires rotation { p < z }
    ensures tally { TalliesBlock z ones.new.items ones.old.items more.new.items more.old.items
        src.now.items from p }
    ensures ones_room { ones.new.room ≡ ones.old.room }
    ensures more_room { more.new.room ≡ more.old.room }
{
    at_size(
        z,
        &mut TallyBlock {
            ones,
            more,
            src,
            from,
            p,
        },
    );
}

// `add_block` as an operation.
#[derive(Drop)]
struct AddBlock<'a> {
    acc: &'a mut Bits,
    at: usize,
    src: &'a Bits,
    from: usize,
    p: usize,
}

impl BlockOperation for AddBlock<'_> {
    type Answer = ();

    ghost ready = { λ b z. (b.at + z ≤ length b.acc.now.items) × (b.from + z ≤ length b.src.now.items) × (b.p < z) };

    ghost done = { λ b z _ after. GainsBlock z after.acc.now.items b.acc.now.items b.at b.src.now.items b.from b.p
        × (after.acc.now.room ≡ b.acc.now.room) × (after.acc.ghost_name ≡ b.acc.ghost_name) };
}

impl<const Z: usize, const W: usize> AtSize<Z, W> for AddBlock<'_> {
    fn run(&mut self) {
        let mut row: Lane<Z, W> = Lane::load(self.acc, self.at);
        row.add_shifted(&Lane::load(self.src, self.from), self.p);
        row.store(self.acc, self.at);
    }
}

impl AtEachSize for AddBlock<'_> {}

// `tally_block` as an operation.
#[derive(Drop)]
struct TallyBlock<'a> {
    ones: &'a mut Bits,
    more: &'a mut Bits,
    src: &'a Bits,
    from: usize,
    p: usize,
}

impl BlockOperation for TallyBlock<'_> {
    type Answer = ();

    ghost ready = { λ b z. (z ≤ length b.ones.now.items) × (z ≤ length b.more.now.items)
        × (b.from + z ≤ length b.src.now.items) × (b.p < z) };

    ghost done = { λ b z _ after. TalliesBlock z after.ones.now.items b.ones.now.items after.more.now.items b.more.now.items
        b.src.now.items b.from b.p
        × (after.ones.now.room ≡ b.ones.now.room) × (after.more.now.room ≡ b.more.now.room)
        × (after.ones.ghost_name ≡ b.ones.ghost_name) × (after.more.ghost_name ≡ b.more.ghost_name) };
}

impl<const Z: usize, const W: usize> AtSize<Z, W> for TallyBlock<'_> {
    fn run(&mut self) {
        let mut once: Lane<Z, W> = Lane::load(self.ones, 0);
        let mut twice: Lane<Z, W> = Lane::load(self.more, 0);
        Lane::tally(
            &mut once,
            &mut twice,
            &Lane::load(self.src, self.from),
            self.p,
        );
        once.store(self.ones, 0);
        twice.store(self.more, 0);
    }
}

impl AtEachSize for TallyBlock<'_> {}
