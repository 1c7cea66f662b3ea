//! The concatenation of code blocks (TS 38.212, 5.5). Contracts define the joined list and cite `IsOwner` of
//! specs/Concatenation.antt. By a law, each index of the list belongs to exactly one code block.
//!
//! `append` puts the bits of a code block after those before it, and `owner` tells which code block a bit belongs to.
#![tactic(auto)]

ghost use Rattle.std.specs.Prelude.{◌≡◌, ◌+◌, ◌^◌, ◌<◌, ◌≤◌, ◌++◌, length, sum, OnOk, OnErr};
ghost use Rattle.nr_cbconcat.specs.Concatenation.{IsOwner, owner_of, PlacesHaveOneOwner};

use nr_bitvec::Bits;
use std::alloc::AllocError;

/// Appends the bits of a code block to the joined ones (TS 38.212, 5.5). Both together must have at most 2^24 bits, and
/// the room shrinks by at most the bits of the code block.
///
/// # Errors
///
/// `AllocError` if the joined bits lack the room and memory runs out. They and their room are then unchanged.
pub fn append(joined: &mut Bits, block: &Bits) -> Result<(), AllocError>
    requires { length joined.old.items + length block.now.items ≤ 2 ^ 24 }
    ensures ok { OnOk result (joined.new.items ≡ joined.old.items ++ block.now.items) }
    ensures err { OnErr result (joined.new ≡ joined.old) }
    ensures full { OnErr result (joined.old.room < length block.now.items) }
    ensures room { OnOk result (joined.old.room ≤ joined.new.room + length block.now.items) }
{
    joined.extend(block)
}

/// Returns the code block to which bit `m` of the joined bits belongs, counted from 0, and the index of the bit in it
/// (TS 38.212, 5.5). `lengths` are the lengths of the code blocks, and `m` must be below their sum. Allocates nothing
/// and takes time in proportion to the number of code blocks.
pub fn owner(lengths: &[u32], m: u32) -> (u32, u32)
    requires few { length lengths.now < 2 ^ 32 }
    requires inside { m < sum lengths.now }
    ensures owner { IsOwner lengths.now m result.0 result.1 }
    ensures value { (result.0, result.1) ≡ owner_of lengths.now m }
{
    let mut place = m;
    for (r, length) in lengths.iter().enumerate() {
        if place < *length {
            return (r as u32, place);
        }
        place -= *length;
    }
    unreachable!()
}

/// Law: each bit of the joined bits belongs to exactly one code block.
pub fn places_have_one_owner()
    ensures { PlacesHaveOneOwner }
{}
