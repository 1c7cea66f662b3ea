//! Lanes of bits in `W` words, 64 bits at a time.

ghost use Rattle.std.specs.Prelude.{◌≡◌, ◌↔◌, ℕ, ◌*◌, ◌≤◌, ◌&&◌, not, false, IsTrue};
ghost use Rattle.nr_bitvec.specs.Bit.{◌⊕◌};
ghost use Rattle.nr_bitvec.specs.Packed.{IsClear};
ghost use Rattle.nr_lifting.specs.DoubledLanes.{is_set, marked_count};

/// Adds `lane` to `sum`, modulo two.
pub fn add_lane<const W: usize>(sum: &mut [u64; W], lane: &[u64; W])
    ensures bits { (t : ℕ) → is_set sum.new t ≡ is_set sum.old t ⊕ is_set lane.now t }
    ensures clear { (n : ℕ) → IsClear sum.old n → IsClear lane.now n → IsClear sum.new n }
{
    for i in 0..W {
        sum[i] ^= lane[i];
    }
}

/// Returns the bits that are set in both lanes.
pub fn common<const W: usize>(lane: &[u64; W], other: &[u64; W]) -> [u64; W]
    ensures bits { (t : ℕ) → is_set result t ≡ (is_set lane.now t && is_set other.now t) }
    ensures clear { (n : ℕ) → IsClear lane.now n → IsClear result n }
{
    let mut both = [0; W];
    for i in 0..W {
        both[i] = lane[i] & other[i];
    }
    both
}

/// Returns the bits that are set in `lane` but not in `other`.
pub fn without<const W: usize>(lane: &[u64; W], other: &[u64; W]) -> [u64; W]
    ensures bits { (t : ℕ) → is_set result t ≡ (is_set lane.now t && not (is_set other.now t)) }
    ensures clear { (n : ℕ) → IsClear lane.now n → IsClear result n }
{
    let mut rest = [0; W];
    for i in 0..W {
        rest[i] = lane[i] & !other[i];
    }
    rest
}

/// Returns how many bits of the lane are set.
pub fn lane_count<const W: usize>(lane: &[u64; W]) -> u32
    requires { W ≤ 6 }
    ensures marked { (n : ℕ) → IsClear lane.now n → result ≡ marked_count (is_set lane.now) n }
    ensures few { result ≤ 64 * W }
{
    let mut count = 0;
    for i in 0..W {
        count += lane[i].count_ones();
    }
    count
}

/// Returns whether no bit of the lane is set, without counting them.
pub fn is_blank<const W: usize>(lane: &[u64; W]) -> bool
    ensures { IsTrue result ↔ ((t : ℕ) → is_set lane.now t ≡ false) }
{
    let mut all = 0;
    for i in 0..W {
        all |= lane[i];
    }
    all == 0
}
