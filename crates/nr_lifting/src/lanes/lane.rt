//! Lanes with as many bits as a lifting size, stored in 64-bit words.

ghost use Rattle.std.specs.Prelude.{◌≡◌, ℕ, ◌+◌, ◌*◌, ◌%◌, ◌<◌, ◌≤◌, false, length, replicate};
ghost use Rattle.std.specs.Int.{bit_at};
ghost use Rattle.nr_bitvec.specs.Bit.{bit};
ghost use Rattle.nr_bitvec.specs.Packed.{place, IsClear};
ghost use Rattle.nr_lifting.specs.DoubledLanes.{is_set};
ghost use Rattle.nr_lifting.specs.Lane.{AddsRotated, JoinsRotated, MeetsRotated, IsDoubled, KeepsOthers};
ghost use Rattle.nr_lifting.specs.inside.Lane.{IsLane, JoinsPlaces, MeetsPlaces, IsMovedWord, IsRotatedWord};

use crate::lanes::doubled_words::put_twice;
use crate::lanes::lane_words::add_lane;
use nr_bitvec::Bits;
use nr_bitvec::words::{low_bits, window};
use std::marker::Model;

/// A lane of `Z` bits: one block of Zc positions of the codeword, or one block of Zc check rows, at lifting size `Z`.
/// `W` is the least number of 64-bit words that hold `Z` bits.
#[derive(Drop)]
pub struct Lane<const Z: usize, const W: usize> {
    words: [u64; W],
}

impl<const Z: usize, const W: usize> Model for Lane<Z, W> {
    ghost use Rattle.std.specs.Prelude.{Bool, List};
    ghost use Rattle.nr_bitvec.specs.Packed.{bits_of_words};
    ghost use Rattle.nr_lifting.specs.inside.Lane.{IsLane};

    ghost Value = { List Bool };

    ghost view = { λ a. bits_of_words Z a.words };

    ghost invariant = { λ a. IsLane Z W a.words };
}

impl<const Z: usize, const W: usize> Lane<Z, W> {
    /// Returns a lane of zeros.
    pub fn zero() -> Self
        requires above { 64 * W < Z + 64 }
        requires below { Z ≤ 64 * W }
        ensures { result ≡ replicate Z false }
    {
        Lane { words: [0; W] }
    }

    /// Returns the `Z` bits of `src` that begin at bit `from`. The caller guarantees that `src` has them.
    pub fn load(src: &Bits, from: usize) -> Self
        requires above { 64 * W < Z + 64 }
        requires below { Z ≤ 64 * W }
        requires source { from + Z ≤ length src.now.items }
        ensures bits { (t : ℕ) → t < Z → bit result t ≡ bit src.now.items (from + t) }
        ensures long { length result ≡ Z }
    {
        // So no place below overflows.
        src.is_short();
        let mut words = [0; W];
        for i in 0..W {
            words[i] = low_bits(src.window(from + 64 * i), Z - 64 * i);
        }
        Lane { words }
    }

    /// Returns the first `Z` bits of `words`, whose last word may have more bits set.
    pub fn clipped(words: &[u64; W]) -> Self
        requires above { 64 * W < Z + 64 }
        requires below { Z ≤ 64 * W }
        requires some { 0 < Z }
        ensures bits { (t : ℕ) → t < Z → bit result t ≡ is_set words.now t }
        ensures long { length result ≡ Z }
    {
        let mut lane = *words;
        clip::<Z, W>(&mut lane);
        Lane { words: lane }
    }

    /// Returns the words of the lane, in which no bit past the lane is set.
    pub fn words(&self) -> &[u64; W]
        ensures bits { (t : ℕ) → is_set result.now t ≡ bit self.now t }
        ensures clear { IsClear result.now Z }
    {
        &self.words
    }

    /// Writes the lane over the bits of `dst` that begin at bit `at`, and leaves every other bit unchanged. Allocates
    /// nothing.
    pub fn store(&self, dst: &mut Bits, at: usize)
        requires { at + Z ≤ length dst.old.items }
        ensures within { (t : ℕ) → t < Z → bit dst.new.items (at + t) ≡ bit self.now t }
        ensures before { (t : ℕ) → t < at → bit dst.new.items t ≡ bit dst.old.items t }
        ensures after { (t : ℕ) → at + Z ≤ t → bit dst.new.items t ≡ bit dst.old.items t }
        ensures long { length dst.new.items ≡ length dst.old.items }
        ensures room { dst.new.room ≡ dst.old.room }
    {
        // So no place below overflows.
        dst.is_short();
        for i in 0..W {
            let start = 64 * i;
            dst.put(at + start, (Z - start).min(64), self.words[i]);
        }
    }

    /// Writes the lane twice in a row from word `at` on, with zeros after it as far as word `at + 2 * W`. Each rotation
    /// of the lane then stands in one piece, for `add_window`.
    pub fn put_doubled(&self, words: &mut [u64], at: usize)
        requires some { 0 < Z }
        requires most { W ≤ 6 }
        requires inside { at + 2 * W ≤ length words.old }
        ensures doubled { IsDoubled Z at words.new self.now }
        ensures others { KeepsOthers at (at + 2 * W) words.new words.old }
    {
        put_twice::<Z, W>(words, at, &self.words);
    }

    /// Returns the lane rotated by `p`: its bit t is bit (t + p) mod Z.
    pub fn rotated(&self, p: usize) -> Self
        requires { p < Z }
        ensures bits { (t : ℕ) → t < Z → bit result t ≡ bit self.now ((t + p) % Z) }
        ensures long { length result ≡ Z }
    {
        let mut rotated = [0; W];
        for i in 0..W {
            rotated[i] = rotated_word(&self.words, Z, i, p);
        }
        Lane { words: rotated }
    }

    /// Adds `src`, rotated by `p`, to the lane, modulo two: bit t gains bit (t + p) mod Z of `src`.
    pub fn add_shifted(&mut self, src: &Self, p: usize)
        requires { p < Z }
        ensures sum { AddsRotated Z self.new self.old src.now p }
        ensures long { length self.new ≡ length self.old }
    {
        add_lane(&mut self.words, src.rotated(p).words());
    }

    /// Counts the bits of `src`, rotated by `p`, up to two. For each t, let u be bit (t + p) mod Z of `src`: if u is
    /// set, bit t of `ones` becomes set, and bit t of `more` too if `ones` had it already.
    pub fn tally(ones: &mut Self, more: &mut Self, src: &Self, p: usize)
        requires { p < Z }
        ensures ones { JoinsRotated Z ones.new ones.old src.now p }
        ensures more { MeetsRotated Z more.new more.old ones.old src.now p }
        ensures ones_long { length ones.new ≡ length ones.old }
        ensures more_long { length more.new ≡ length more.old }
    {
        tally_words(&mut ones.words, &mut more.words, &src.words, Z, p);
    }
}

// Makes the places from place `Z` on zero.
fn clip<const Z: usize, const W: usize>(words: &mut [u64; W])
    requires above { 64 * W < Z + 64 }
    requires below { Z ≤ 64 * W }
    requires some { 0 < Z }
    ensures within { (t : ℕ) → t < Z → place words.new t ≡ place words.old t }
    ensures clear { IsClear words.new Z }
{
    words[W - 1] = low_bits(words[W - 1], Z - 64 * (W - 1));
}

// Word `i` of a block of `size` bits that is rotated by `p`.
fn rotated_word(words: &[u64], size: usize, i: usize, p: usize) -> u64
    requires start { 64 * i < size }
    requires rotation { p < size }
    requires clear { IsClear words.now size }
    ensures rotated { IsRotatedWord size words.now i p result }
    ensures clear { (j : ℕ) → size ≤ 64 * i + j → bit_at result j ≡ 0 }
{
    let start = 64 * i;
    let straight = window(words, i + p / 64, p % 64);
    low_bits(
        straight | wrapped_word(words, start, size - p),
        size - start,
    )
}

// The 64 places from place `start` on, after all places have moved up by `up`; zeros come in below.
fn wrapped_word(words: &[u64], start: usize, up: usize) -> u64
    ensures low { (j : ℕ) → start + j < up → bit_at result j ≡ 0 }
    ensures high { IsMovedWord words.now start up result }
{
    if up <= start {
        let from = start - up;
        window(words, from / 64, from % 64)
    } else if up - start < 64 {
        window(words, 0, 0) << (up - start)
    } else {
        0
    }
}

// Tallies a block of `size` bits, rotated by `p`, saturating at two.
fn tally_words(ones: &mut [u64], more: &mut [u64], src: &[u64], size: usize, p: usize)
    requires rotation { p < size }
    requires ones { IsLane size (length ones.old) ones.old }
    requires more { IsLane size (length more.old) more.old }
    requires src { IsClear src.now size }
    ensures ones_lane { IsLane size (length ones.new) ones.new }
    ensures more_lane { IsLane size (length more.new) more.new }
    ensures ones { JoinsPlaces size ones.new ones.old src.now p }
    ensures more { MeetsPlaces size more.new more.old ones.old src.now p }
{
    for i in 0..ones.len() {
        let rotated = rotated_word(src, size, i, p);
        more[i] |= ones[i] & rotated;
        ones[i] |= rotated;
    }
}
