//! How many positions sets lack.

ghost use Rattle.std.specs.Prelude.{◌≡◌, ◌+◌, ◌-◌, ◌<◌, ◌≤◌, ◌==◌, ℕ, ◌^◌, count_by};
ghost use Rattle.std.specs.{Prelude.if◌then◌else◌, Prelude.length, Prelude.not, Prelude.slice_index, Int.bit_at};
ghost use Rattle.std.specs.List.{range_with_len};
ghost use Rattle.nr_bitvec.specs.Bit.{bit};
ghost use Rattle.nr_peel.specs.Slices.{slice};

/// How many of the first `count` positions each of the 64 sets lacks.
pub fn count_lacking(known: &[u64], count: usize) -> [u32; 64]
    requires inside { count ≤ length known.now }
    requires few { count < 2 ^ 32 }
    ensures { (j : ℕ) → j < 64 → slice_index result j
        ≡ count_by (λ p. not (slice known.now j p)) (range_with_len 0 count) }
{
    let mut lacking = [0; 64];
    for p in 0..count {
        let missing = !known[p];
        if missing != 0 {
            count_bits(missing, &mut lacking);
        }
    }
    lacking
}

// Adds to each count the bit of its number.
fn count_bits(word: u64, counts: &mut [u32; 64])
    requires { (j : ℕ) → j < 64 → slice_index counts.old j + 1 < 2 ^ 32 }
    ensures { (j : ℕ) → j < 64 → slice_index counts.new j
        ≡ slice_index counts.old j + (if bit_at word j == 1 then 1 else 0) }
{
    for j in 0..64 {
        counts[j] += (word >> j & 1) as u32;
    }
}
