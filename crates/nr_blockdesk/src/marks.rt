//! Places of a transmission as marks, with the bits received.

ghost use Rattle.std.specs.Prelude.{◌≡◌, ℕ, ◌+◌, ◌^◌, ◌<◌, ◌≤◌, ◌==◌, length, IfOk};
ghost use Rattle.std.specs.Int.{bit_at};
ghost use Rattle.nr_blockdesk.specs.{Explains.heard_at, Marks.heards, Marks.place_heard};

use crate::heard::Heard;
use nr_bitvec::{Bits, Marks};
use std::alloc::{AllocError, Global};

// Marks of the places that aren't erased, and the bits received there.
pub(crate) fn marks_of(alloc: Global, places: &[Heard]) -> Result<Marks, AllocError>
    requires { length places.now ≤ 2 ^ 24 }
    ensures { IfOk result (λ marks. heards marks.heard.items marks.value.items ≡ places.now) }
{
    let count = places.len();
    let mut heard = Bits::with_room(alloc, count as u32)?;
    let mut value = Bits::with_room(alloc, count as u32)?;
    for i in 0..count.div_ceil(64) {
        let wide = (count - 64 * i).min(64);
        let (marks, bits) = gather(places, 64 * i, wide);
        heard.push_word(wide, marks);
        value.push_word(wide, bits);
    }
    Ok(Marks { heard, value })
}

// Marks and bits of `count` places from place `from` on, the first lowest. Which they are is not branched on, since no
// processor foresees it.
fn gather(places: &[Heard], from: usize, count: usize) -> (u64, u64)
    requires count { count ≤ 64 }
    requires inside { from + count ≤ length places.now }
    ensures { (j : ℕ) → j < count
        → place_heard (bit_at result.0 j == 1) (bit_at result.1 j == 1) ≡ heard_at places.now (from + j) }
{
    let mut marks = 0;
    let mut bits = 0;
    for j in 0..count {
        let (mark, bit) = places[from + j].marks();
        marks |= mark << j;
        bits |= bit << j;
    }
    (marks, bits)
}
