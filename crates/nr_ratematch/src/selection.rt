//! The bits of a code block that are sent.

ghost use Rattle.std.specs.Prelude.{◌≡◌, ◌+◌, ◌*◌, ◌^◌, ◌<◌, ◌≤◌, ◌++◌, length, IfOk};
ghost use Rattle.nr_graphpick.specs.Graph.{cols_of};
ghost use Rattle.nr_ratematch.specs.Selection.{selection_of};

use crate::buffer::Buffer;
use nr_bitvec::Bits;
use nr_ldpcenc::Word;
use std::alloc::{AllocError, Global};

/// Returns the `e` bits, at most 2^24, that the redundancy version `rv` selects from the codeword of a code block: bit
/// k is the one at the codeword index `Buffer::place(rv, k)` (TS 38.212, 5.4.2.1).
///
/// # Errors
///
/// `AllocError` if memory runs out.
pub fn select(
    alloc: Global,
    buffer: &Buffer,
    word: &Word,
    rv: u32,
    e: u32,
) -> Result<Bits, AllocError>
    requires version { rv < 4 }
    requires long { length word.now ≡ cols_of buffer.now.graph * buffer.now.z }
    requires short { e ≤ 2 ^ 24 }
    ensures { IfOk result (λ bits. bits.items ≡ selection_of buffer.now word.now rv e) }
{
    let mut bits = Bits::with_room(alloc, e)?;
    select_onto(buffer, word, rv, e, &mut bits);
    Ok(bits)
}

// Puts the bits that `select` returns at the end of a list, a run of the buffer at a time.
fn select_runs(buffer: &Buffer, word: &Word, rv: u32, e: u32, bits: &mut Bits)
    requires version { rv < 4 }
    requires long { length word.now ≡ cols_of buffer.now.graph * buffer.now.z }
    requires room { e ≤ bits.old.room }
    ensures items { bits.new.items ≡ bits.old.items ++ selection_of buffer.now word.now rv e }
    ensures room { bits.new.room + e ≡ bits.old.room }
{
    let cycle = buffer.cycle(rv);
    let mut k = 0;
    let mut at = cycle.first % cycle.count;
    while k < e {
        let (position, most) = cycle.run(at);
        let count = most.min(e - k);
        bits.extend_range(word.bits(), position as usize, count as usize);
        k += count;
        at = cycle.after(at, count);
    }
}

/// Appends the bits that `select` returns to a list that has room for them (TS 38.212, 5.4.2.1). Allocates nothing.
pub fn select_onto(buffer: &Buffer, word: &Word, rv: u32, e: u32, bits: &mut Bits)
    requires version { rv < 4 }
    requires long { length word.now ≡ cols_of buffer.now.graph * buffer.now.z }
    requires room { e ≤ bits.old.room }
    ensures items { bits.new.items ≡ bits.old.items ++ selection_of buffer.now word.now rv e }
    ensures room { bits.new.room + e ≡ bits.old.room }
{
    // Nothing is sent of most code blocks if G is small.
    if e == 0 {
        return;
    }
    let cycle = buffer.cycle(rv);
    // Enough whole turns to be more than 64 bits. From there on each bit is the one that is so far before it:
    // a short buffer has short runs.
    let back = cycle.count * (64 / cycle.count + 1);
    let begun = bits.len();
    let mut k = e.min(back);
    select_runs(buffer, word, rv, k, bits);
    while k < e {
        let count = (e - k).min(64);
        let again = bits.window(begun + (k - back) as usize);
        bits.push_word(count as usize, again);
        k += count;
    }
}
