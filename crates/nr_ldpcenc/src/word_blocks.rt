//! Writes blocks of as many bits as a lifting size into a word, one after another. Blocks that fill whole 64-bit words
//! replace the bits there. Other blocks are added to zeros, which costs less.

ghost use Rattle.std.specs.Prelude.{◌≡◌, ℕ, ◌+◌, ◌*◌, ◌<◌, ◌≤◌, length};
ghost use Rattle.nr_bitvec.specs.Bit.{bit};
ghost use Rattle.nr_ldpcenc.specs.inside.Words.{AgreeBelow, IsClearedTo, IsReady};

use nr_bitvec::Bits;
use nr_lifting::Lane;

// Makes the bits from bit `from` on zero: first those of the word in which it is, then a word at a time.
fn clear_from(bits: &mut Bits, from: usize)
    requires { from ≤ length bits.old.items }
    ensures { IsClearedTo (length bits.old.items) from bits.new.items bits.old.items }
{
    let first = (bits.len() - from).min(64 - from % 64);
    bits.put(from, first, 0);
    let start = from + first;
    let count = bits.len() - start;
    for i in 0..count.div_ceil(64) {
        bits.put(start + 64 * i, (count - 64 * i).min(64), 0);
    }
}

// Makes a word ready to have its blocks written from block `j` on.
pub(crate) fn make_ready<const Z: usize>(j: usize, bits: &mut Bits)
    requires most { Z ≤ 384 }
    requires column { j < 68 }
    requires inside { j * Z ≤ length bits.old.items }
    ensures ready { IsReady Z j bits.new.items }
    ensures before { AgreeBelow (j * Z) (bit bits.old.items) (bit bits.new.items) }
    ensures long { length bits.new.items ≡ length bits.old.items }
{
    if Z % 64 != 0 {
        clear_from(bits, j * Z);
    }
}

// Writes block `j` of a word that is ready for it.
pub(crate) fn write_block<const Z: usize, const W: usize>(
    j: usize,
    bits: &mut Bits,
    lane: &Lane<Z, W>,
)
    requires below { Z ≤ 64 * W }
    requires most { W ≤ 6 }
    requires column { j < 68 }
    requires inside { (j + 1) * Z ≤ length bits.old.items }
    requires ready { IsReady Z j bits.old.items }
    ensures block { (t : ℕ) → t < Z → bit bits.new.items (j * Z + t) ≡ bit lane.now t }
    ensures before { AgreeBelow (j * Z) (bit bits.old.items) (bit bits.new.items) }
    ensures ready { IsReady Z (j + 1) bits.new.items }
    ensures long { length bits.new.items ≡ length bits.old.items }
{
    if Z % 64 == 0 {
        lane.store(bits, j * Z);
    } else {
        bits.put_words(j * Z, lane.words());
    }
}
