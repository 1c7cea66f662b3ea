//! The received places of a transmission and their bits, from an octet for each place, 64 octets at a time.

ghost use Rattle.std.specs.Prelude.{◌≡◌, ◌*◌, ◌^◌, ◌≤◌, [], length, map, take, IfOk, OnOk};
ghost use Rattle.nr_bitvec.specs.BitList.{low_first};
ghost use Rattle.nr_blockdesk.specs.Marks.{heards};
ghost use Rattle.nr_calls.specs.{Codeword.is_digit, Codeword.is_one, Receiving.heard_octet};

use nr_bitvec::{Bits, Marks};
use std::alloc::{AllocError, Global};
use std::simd::prelude::*;

// Marks of those of 64 octets that say a bit, and the bits, the first octet's lowest.
fn word_marks(octets: u8x64) -> (u64, u64)
    ensures marks { low_first 64 result.0 ≡ map is_digit octets }
    ensures bits { low_first 64 result.1 ≡ map is_one octets }
{
    let marks = octets.simd_le(u8x64::splat(1)).to_bitmask();
    let bits = octets.simd_eq(u8x64::splat(1)).to_bitmask();
    (marks, bits)
}

// Marks of the octets that say a bit, and the bits.
pub(crate) fn marks_of(alloc: Global, octets: &[u8]) -> Result<Marks, AllocError>
    requires { length octets.now ≤ 2 ^ 24 }
    ensures { IfOk result (λ marks. heards marks.heard.items marks.value.items ≡ map heard_octet octets.now) }
{
    let mut marks = no_marks(alloc);
    mark(&mut marks, alloc, octets)?;
    Ok(marks)
}

// Marks of no octets, which have no memory yet.
pub(crate) fn no_marks(alloc: Global) -> Marks {
    Marks {
        heard: Bits::new(alloc),
        value: Bits::new(alloc),
    }
}

// Makes marks those of the octets, in the memory that they have if it is enough.
pub(crate) fn mark(marks: &mut Marks, alloc: Global, octets: &[u8]) -> Result<(), AllocError>
    requires { length octets.now ≤ 2 ^ 24 }
    ensures { OnOk result (heards marks.new.heard.items marks.new.value.items ≡ map heard_octet octets.now) }
{
    let Marks { heard, value, .. } = marks;
    heard.clear();
    value.clear();
    let count = octets.len() as u32;
    make_room(heard, alloc, count)?;
    make_room(value, alloc, count)?;
    push_marks(octets, heard, value);
    Ok(())
}

// Makes room for `count` bits in an empty list.
fn make_room(bits: &mut Bits, alloc: Global, count: u32) -> Result<(), AllocError>
    requires empty { bits.old.items ≡ [] }
    requires short { count ≤ 2 ^ 24 }
    ensures empty { bits.new.items ≡ [] }
    ensures room { OnOk result (count ≤ bits.new.room) }
{
    if bits.room() < count {
        *bits = Bits::with_room(alloc, count)?;
    }
    Ok(())
}

// Puts marks of the octets, and their bits, into two empty lists.
fn push_marks(octets: &[u8], heard: &mut Bits, value: &mut Bits)
    requires heard { heard.old.items ≡ [] }
    requires value { value.old.items ≡ [] }
    requires heard_room { length octets.now ≤ heard.old.room }
    requires value_room { length octets.now ≤ value.old.room }
    ensures heard { heard.new.items ≡ map is_digit octets.now }
    ensures value { value.new.items ≡ map is_one octets.now }
{
    let whole = octets.len() / 64;
    for i in 0..whole {
        let (marks, bits) = word_marks(u8x64::from_slice(&octets[64 * i..]));
        heard.push_word(64, marks);
        value.push_word(64, bits);
    }
    // What is left is less than a word.
    let rest = &octets[64 * whole..];
    let (marks, bits) = word_marks(u8x64::from_array(filled(rest)));
    heard.push_word(rest.len(), marks);
    value.push_word(rest.len(), bits);
}

// At most 64 octets, with others after them.
fn filled(octets: &[u8]) -> [u8; 64]
    requires { length octets.now ≤ 64 }
    ensures { take (length octets.now) result ≡ octets.now }
{
    let mut all = [0; 64];
    all[..octets.len()].copy_from_slice(octets);
    all
}
