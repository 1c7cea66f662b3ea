//! Doubled lanes in words: a lane is stored twice in a row, so that 64 bits of any rotation of it are read in one
//! piece. No word of a rotation needs a branch, because the bits past the lane are cut off afterwards.

ghost use Rattle.std.specs.Prelude.{◌≡◌, ℕ, ◌+◌, ◌*◌, ◌/◌, ◌%◌, ◌^◌, ◌<◌, ◌≤◌};
ghost use Rattle.std.specs.Prelude.{length, slice_index_or};
ghost use Rattle.std.specs.Int.{bit_at};
ghost use Rattle.nr_bitvec.specs.Bit.{◌⊕◌};
ghost use Rattle.nr_bitvec.specs.Packed.{place, IsClear};
ghost use Rattle.nr_lifting.specs.DoubledLanes.{is_set};
ghost use Rattle.nr_lifting.specs.Lane.{KeepsOthers};
ghost use Rattle.nr_lifting.specs.inside.Words.{GainsDoubled, IsMask};

use nr_bitvec::words::low_bits;

// The 64 places from place `turn` of word `word` on, the first of them lowest. The next word moves up in two steps, since
// a shift by 64, at turn 0, is none.
pub(crate) fn piece(words: &[u64], word: usize, turn: usize) -> u64
    requires inside { word + 1 < length words.now }
    requires turn { turn < 64 }
    ensures { (j : ℕ) → j < 64 → bit_at result j ≡ place words.now (64 * word + turn + j) }
{
    words[word] >> turn | words[word + 1] << 1 << (63 - turn)
}

/// Adds to the words of `sum`, modulo two, the bits that begin at bit `p` of word `at`. If a doubled lane begins at
/// word `at`, these are the lane rotated by `p`.
pub fn add_window<const W: usize>(sum: &mut [u64; W], words: &[u64], at: usize, p: usize)
    requires { at + p / 64 + W < length words.now }
    ensures { (t : ℕ) → t < 64 * W
        → is_set sum.new t ≡ is_set sum.old t ⊕ is_set words.now (64 * at + p + t) }
{
    let from = at + p / 64;
    let turn = p % 64;
    for k in 0..W {
        sum[k] ^= piece(words, from + k, turn);
    }
}

// Word `i` of a lane; 0 past the end.
fn word_or_zero<const W: usize>(lane: &[u64; W], i: usize) -> u64
    ensures value { result ≡ slice_index_or lane.now i 0 }
    ensures fits { slice_index_or lane.now i 0 < 2 ^ 64 }
{
    if i < W { lane[i] } else { 0 }
}

// Puts a lane of `Z` bits twice in a row from word `at` on, and zeros after it as far as word `at + 2 * W`.
pub(crate) fn put_twice<const Z: usize, const W: usize>(
    words: &mut [u64],
    at: usize,
    lane: &[u64; W],
)
    requires above { 64 * W < Z + 64 }
    requires below { Z ≤ 64 * W }
    requires some { 0 < Z }
    requires most { W ≤ 6 }
    requires clear { IsClear lane.now Z }
    requires inside { at + 2 * W ≤ length words.old }
    ensures doubled { (t : ℕ) → t < Z + Z → place words.new (64 * at + t) ≡ place lane.now (t % Z) }
    ensures others { KeepsOthers at (at + 2 * W) words.new words.old }
{
    let up = 64 * W - Z;
    for k in 0..W {
        words[at + k] = word_or_zero(lane, k);
    }
    words[at + W - 1] |= word_or_zero(lane, 0) << 1 << (63 - up);
    for i in 0..W {
        let low = word_or_zero(lane, i);
        words[at + W + i] = low >> up | word_or_zero(lane, i + 1) << 1 << (63 - up);
    }
}

// The lane of which the first `size` places are set.
pub(crate) fn mask_of<const W: usize>(size: usize) -> [u64; W]
    requires { size ≤ 64 * W }
    ensures { IsMask size result }
{
    let mut mask = [0; W];
    for i in 0..W {
        mask[i] = mask_word(size, i);
    }
    mask
}

// Word `i` of a mask. It is chosen and not made by shifts, whose number would be another for each word.
fn mask_word(size: usize, i: usize) -> u64
    ensures low { (j : ℕ) → j < 64 → 64 * i + j < size → bit_at result j ≡ 1 }
    ensures high { (j : ℕ) → size ≤ 64 * i + j → bit_at result j ≡ 0 }
{
    let whole = size / 64;
    if i < whole {
        u64::MAX
    } else if i == whole {
        low_bits(u64::MAX, size % 64)
    } else {
        0
    }
}

// Sets the places of a doubled lane that are ones in a lane of `size` bits, from place 0 and from place `size` on. The second
// copy is the words moved up by `size`: each takes what the one before it left over.
pub(crate) fn union_doubled<const W: usize, const D: usize>(
    doubled: &mut [u64; D],
    words: &[u64; W],
    size: usize,
)
    requires twice { D ≡ 2 * W }
    requires few { size ≤ 64 * W }
    requires doubled_clear { IsClear doubled.old (2 * size) }
    requires clear { IsClear words.now size }
    ensures joined { GainsDoubled size doubled.new doubled.old words.now }
    ensures doubled_clear { IsClear doubled.new (2 * size) }
{
    if W > 2 && size % 64 == 0 {
        union_whole_words(doubled, words, size);
    } else {
        union_words(doubled, words, size);
    }
}

// `union_doubled` word by word. Both copies are read before the doubled lane is written, so that several words go at
// a time.
fn union_words<const W: usize, const D: usize>(
    doubled: &mut [u64; D],
    words: &[u64; W],
    size: usize,
)
    requires twice { D ≡ 2 * W }
    requires few { size ≤ 64 * W }
    requires doubled_clear { IsClear doubled.old (2 * size) }
    requires clear { IsClear words.now size }
    ensures joined { GainsDoubled size doubled.new doubled.old words.now }
    ensures doubled_clear { IsClear doubled.new (2 * size) }
{
    let lane = *words;
    let (word, turn) = (size / 64, size % 64);
    let mut up = [0; W];
    let mut past = 0;
    for i in 0..W {
        up[i] = lane[i] << turn | past;
        past = lane[i] >> 1 >> (63 - turn);
    }
    for k in 0..W {
        doubled[k] |= lane[k];
    }
    for m in 0..W {
        doubled[word + m] |= up[m];
    }
    if word < W {
        doubled[word + W] |= past;
    }
}

// `union_doubled` for a block of whole words: the second copy is the same words again.
fn union_whole_words<const W: usize, const D: usize>(
    doubled: &mut [u64; D],
    words: &[u64; W],
    size: usize,
)
    requires twice { D ≡ 2 * W }
    requires few { size ≤ 64 * W }
    requires whole { size % 64 ≡ 0 }
    requires doubled_clear { IsClear doubled.old (2 * size) }
    requires clear { IsClear words.now size }
    ensures joined { GainsDoubled size doubled.new doubled.old words.now }
    ensures doubled_clear { IsClear doubled.new (2 * size) }
{
    let lane = *words;
    let word = size / 64;
    for k in 0..W {
        doubled[k] |= lane[k];
    }
    for m in 0..W {
        doubled[word + m] |= lane[m];
    }
}
