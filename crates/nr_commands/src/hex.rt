//! Lines that end with bits in hexadecimal digits.

ghost use Rattle.std.specs.Prelude.{◌≡◌, ◌≤◌, ◌<◌, ◌%◌, ◌^◌, ◌++◌, [], ◌∷◌, IfOk, OnOk, drop};
ghost use Rattle.std.specs.{Prelude.flat_map, Prelude.length, Prelude.map, Prelude.string_bytes, Simd.Lanes.Each1};
ghost use Rattle.nr_commands.specs.{Hex.hex, inside.Words.first_digits, inside.Words.turned_char, inside.Words.turned_digits};

use nr_bitvec::Bits;
use std::alloc::{AllocError, Global};
use std::simd::prelude::*;

// The places of two lists of sixteen that take turns.
const IN_TURN: [usize; 32] = [
    0, 16, 1, 17, 2, 18, 3, 19, 4, 20, 5, 21, 6, 22, 7, 23, 8, 24, 9, 25, 10, 26, 11, 27, 12, 28,
    13, 29, 14, 30, 15, 31,
];

// The characters of the hexadecimal digits, by the numbers that have their bits in the other order.
const TURNED: [u8; 16] = *b"084c2a6e195d3b7f";

// The characters of sixteen digits, looked up side by side. A word has the first bit of each digit lowest.
fn sixteen_characters(values: u8x16) -> u8x16
    requires { Each1 (λ value. value < 16) values }
    ensures { result ≡ map turned_char values }
{
    u8x16::from_array(TURNED).swizzle_dyn(values)
}

// The two digits of each of sixteen octets of words.
fn digits_of_sixteen(octets: u8x16) -> u8x32
    ensures { result ≡ flat_map turned_digits octets }
{
    let high = sixteen_characters(octets & u8x16::splat(15));
    let low = sixteen_characters(octets >> u8x16::splat(4));
    high.shuffle(low, IN_TURN)
}

// The digits of the 128 bits from bit `at` on. Bits past the end are zero.
fn digits_from(bits: &Bits, at: usize) -> u8x32
    requires { at ≤ 2 ^ 24 }
    ensures { result ≡ first_digits 32 (drop at bits.now.items) }
{
    let words = u64x2::from_array([bits.window(at), bits.window(at + 64)]);
    digits_of_sixteen(words.to_le_bytes())
}

// Writes the first digits of bits, as many as there is room for, 32 at a turn.
fn write_digits(bits: &Bits, digits: &mut [u8])
    requires whole { length digits.old % 32 ≡ 0 }
    requires short { length digits.old ≤ 2 ^ 22 }
    ensures { digits.new ≡ first_digits (length digits.old) bits.now.items }
{
    for i in 0..digits.len() / 32 {
        digits_from(bits, 128 * i).copy_to_slice(&mut digits[32 * i..]);
    }
}

// Puts the first digits of bits, `count` of them, at the end of a line, with room for a line feed after them.
fn push_digits(line: &mut Vec<u8>, bits: &Bits, count: usize) -> Result<(), AllocError>
    requires whole { count % 32 ≡ 0 }
    requires short { count ≤ 2 ^ 22 }
    ensures { OnOk result (line.new.items ≡ line.old.items ++ first_digits count bits.now.items) }
{
    let start = line.len();
    line.reserve(count + 1)?;
    line.resize(start + count, 0)?;
    write_digits(bits, &mut line[start..]);
    Ok(())
}

// Puts bits in hexadecimal digits at the end of a line, and the line feed.
pub(crate) fn push_hex(line: &mut Vec<u8>, bits: &Bits) -> Result<(), AllocError>
    ensures { OnOk result (line.new.items ≡ line.old.items ++ hex bits.now.items ++ 10 ∷ []) }
{
    let end = line.len() + bits.len().div_ceil(4);
    push_digits(line, bits, 32 * bits.len().div_ceil(128))?;
    line.truncate(end);
    line.push(b'\n')?;
    Ok(())
}

/// Returns a line: its head, then the bits in hexadecimal digits, the first bit most significant, the last digit padded
/// with zero bits. The memory for the digits is allocated at once.
///
/// # Errors
///
/// `AllocError` if memory runs out.
pub fn hex_line(head: String, bits: &Bits) -> Result<Vec<u8>, AllocError>
    ensures { IfOk result
        (λ line. line.items ≡ string_bytes head ++ hex bits.now.items ++ 10 ∷ []) }
{
    let mut line = head.into_bytes();
    push_hex(&mut line, bits)?;
    Ok(line)
}
