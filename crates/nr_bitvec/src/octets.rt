//! Octets in words. An octet has its most significant bit first, while a word has its least significant bit first, so
//! the bits of each octet are reversed on the way.

ghost use Rattle.std.specs.Prelude.{◌≡◌, ℕ, ◌+◌, ◌-◌, ◌*◌, ◌/◌, ◌%◌, ◌<◌, ◌≤◌, length};
ghost use Rattle.std.specs.Int.{bit_at};
ghost use Rattle.nr_bitvec.specs.inside.Packed.{HoldsOctets, octet_place, Swaps};

/// Returns the word with its 64 bits in reverse order, as `u64::reverse_bits` does, in fewer instructions.
pub fn reversed(word: u64) -> u64
    ensures { (j : ℕ) → j < 64 → bit_at result j ≡ bit_at word (63 - j) }
{
    turned(word.swap_bytes())
}

// The word with the bits of each of its octets in the other order.
pub(crate) fn turned(word: u64) -> u64
    ensures { (j : ℕ) → j < 64 → bit_at result j ≡ bit_at word (8 * (j / 8) + (7 - j % 8)) }
{
    let pairs = swapped(word, 1, 0x5555_5555_5555_5555);
    let fours = swapped(pairs, 2, 0x3333_3333_3333_3333);
    swapped(fours, 4, 0x0f0f_0f0f_0f0f_0f0f)
}

// The places that are set in the mask, and those `by` above them, in each other's place.
fn swapped(word: u64, by: u32, mask: u64) -> u64
    requires { by < 64 }
    ensures { Swaps by mask word result }
{
    word >> by & mask | (word & mask) << by
}

// The word of at most eight octets, with their places.
pub(crate) fn word_of_octets(group: &[u8]) -> u64
    requires { length group.now ≤ 8 }
    ensures { (j : ℕ) → j < 64 → bit_at result j ≡ octet_place group.now j }
{
    let mut eight = [0; 8];
    eight[..group.len()].copy_from_slice(group);
    turned(u64::from_le_bytes(eight))
}

// Writes the octets of words, with the places of each.
pub(crate) fn write_octets(words: &[u64], octets: &mut [u8])
    requires { length octets.old ≡ 8 * length words.now }
    ensures { HoldsOctets words.now octets.new (length words.now) }
{
    for (i, word) in words.iter().enumerate() {
        octets[8 * i..8 * i + 8].copy_from_slice(&turned(*word).to_le_bytes());
    }
}
