//! Counts below 2^P, 64 to a word, stored in P planes. Bit t of plane b is bit b of count t, so that 64 counts are
//! lowered by a few operations on words.

ghost use Rattle.std.specs.Prelude.{◌≡◌, ℕ, ◌+◌, ◌-◌, ◌*◌, ◌%◌, ◌^◌, ◌<◌, ◌≤◌, ◌==◌};
ghost use Rattle.std.specs.Prelude.{◌&&◌, min};
ghost use Rattle.std.specs.Int.{bit_at};
ghost use Rattle.nr_bitvec.specs.Packed.{place, IsClear};
ghost use Rattle.nr_lifting.specs.Planes.{plane_number};
ghost use Rattle.nr_lifting.specs.DoubledLanes.{is_set};

use crate::lanes::lane_words::{common, is_blank, without};
use std::simd::prelude::*;

// The planes of counts that are all `n`.
pub(crate) fn planes_of<const P: usize, const W: usize>(n: u8) -> [[u64; W]; P]
    requires thin { P ≤ 7 }
    requires small { n < 2 ^ P }
    ensures { (t : ℕ) → t < 64 * W → plane_number result t ≡ n }
{
    let mut planes = [[0; W]; P];
    for b in 0..P {
        planes[b] = [all_of(n, b); W];
    }
    planes
}

// A word that has bit `b` of `n` at every place.
fn all_of(n: u8, b: usize) -> u64
    requires { b < 8 }
    ensures { (j : ℕ) → j < 64 → bit_at result j ≡ bit_at n b }
{
    if n >> b & 1 == 1 { u64::MAX } else { 0 }
}

// Takes one off those of `size` counts that a lane marks, none of which is 0.
pub(crate) fn lower_words<const P: usize, const W: usize>(
    planes: &mut [[u64; W]; P],
    lane: &[u64; W],
    size: usize,
)
    requires few { size ≤ 64 * W }
    requires enough { (t : ℕ) → t < size → place lane.now t ≤ plane_number planes.old t }
    ensures { (t : ℕ) → t < size
        → plane_number planes.new t + place lane.now t ≡ plane_number planes.old t }
{
    let mut left = *lane;
    for b in 0..P {
        // After three planes a borrow is seldom left.
        if b >= 3 && is_blank(&left) {
            break;
        }
        left = fall(&mut planes[b], &left);
    }
}

// One plane's part of `lower_words`: the marks of the counts that borrow from the next plane. Two words fall at a time, as a
// vector: left to itself, compiled code takes them one by one. The last of an odd number falls by itself.
fn fall<const W: usize>(plane: &mut [u64; W], lane: &[u64; W]) -> [u64; W]
    ensures falls { (t : ℕ) → t < 64 * W
        → place plane.new t ≡ (place plane.old t + place lane.now t) % 2 }
    ensures borrows { (t : ℕ) → t < 64 * W
        → place result t ≡ min (place lane.now t) (1 - place plane.old t) }
{
    let mut left = *lane;
    for k in 0..W / 2 {
        let i = 2 * k;
        let now = u64x2::from_array([plane[i], plane[i + 1]]);
        let falling = u64x2::from_array([lane[i], lane[i + 1]]);
        let fallen = (now ^ falling).to_array();
        let borrows = (falling & !now).to_array();
        plane[i] = fallen[0];
        plane[i + 1] = fallen[1];
        left[i] = borrows[0];
        left[i + 1] = borrows[1];
    }
    if W % 2 == 1 {
        let (word, borrow) = fall_word(plane[W - 1], lane[W - 1]);
        plane[W - 1] = word;
        left[W - 1] = borrow;
    }
    left
}

// One word of a plane that falls, and what borrows from the next plane.
fn fall_word(word: u64, falling: u64) -> (u64, u64)
    ensures falls { (j : ℕ) → j < 64 → bit_at result.0 j ≡ (bit_at word j + bit_at falling j) % 2 }
    ensures borrows { (j : ℕ) → j < 64 → bit_at result.1 j ≡ min (bit_at falling j) (1 - bit_at word j) }
{
    (word ^ falling, falling & !word)
}

// Marks those of the counts that a lane marks that are exactly `n`.
pub(crate) fn equal_to<const P: usize, const W: usize>(
    planes: &[[u64; W]; P],
    n: u8,
    lane: &[u64; W],
) -> [u64; W]
    requires planes { P ≤ 7 }
    ensures bits { (t : ℕ) → is_set result t ≡ (is_set lane.now t && (plane_number planes.now t == n)) }
    ensures clear { (m : ℕ) → IsClear lane.now m → IsClear result m }
{
    // No count is as large.
    if n >> P != 0 {
        return [0; W];
    }
    let mut same = *lane;
    for b in 0..P {
        same = if n >> b & 1 == 1 {
            common(&same, &planes[b])
        } else {
            without(&same, &planes[b])
        };
    }
    same
}
