//! The link: some of the bits sent are erased and some are flipped, and a receiver takes what arrives.

ghost use Rattle.std.specs.Prelude.{◌≡◌, ◌^◌, ◌≤◌, ◌++◌, [], ◌∷◌, not, length, map, IfOk, List, OnOk};
ghost use Rattle.std.specs.List.{range_with_len};
ghost use Rattle.nr_bitvec.specs.Bit.{◌⊕◌, bit};
ghost use Rattle.nr_blockdesk.specs.{Explains.IsAccepted, Explains.Reception, Heard.IsRecordOf, Marks.heards, Outcome.outcome_of};
ghost use Rattle.nr_blockdesk.specs.Receiving.{verdict};
ghost use Rattle.nr_files.specs.Erasures.{erased_of, is_named};
ghost use Rattle.nr_linkcommands.specs.{Channel.heard_through, inside.Receptions.reception_of};

use nr_bitvec::{Bits, Marks};
use nr_blockdesk::{DeskFault, Outcome, Receiver, Recording, Tx};
use nr_files::{Erasure, Places, Transmission, erased, named};
use std::alloc::{AllocError, Global};

// What is received of the bits that a transmission sends, as marks of places. That is nothing at an erased place, the
// other bit at a flipped one, and else the bit that is sent. The bits are dropped, or become what is received if none is
// flipped.
pub(crate) fn arrival_of(
    alloc: Global,
    transmission: &Transmission,
    bits: Bits,
) -> Result<Marks, AllocError>
    ensures { IfOk result (λ arrival. heards arrival.heard.items arrival.value.items
        ≡ heard_through transmission.now bits.items) }
{
    let heard = unerased(alloc, &transmission.erasure, bits.len() as u32)?;
    let value = flipped(alloc, &transmission.flip, bits)?;
    Ok(Marks { heard, value })
}

// Returns one bit for each of the first `count` places (at most 2^24), set if the place is not erased. Makes no list of
// erased places if there are none; otherwise inverts that list in place.
fn unerased(alloc: Global, erasure: &Erasure, count: u32) -> Result<Bits, AllocError>
    requires { count ≤ 2 ^ 24 }
    ensures { IfOk result (λ heard. heard.items
        ≡ map (λ m. not (bit (erased_of erasure.now count) m)) (range_with_len 0 count)) }
{
    if let Erasure::Named(places) = erasure {
        if let Places::Nothing = places {
            return named(alloc, &Places::All, count);
        }
    }
    let mut marks = erased(alloc, erasure, count)?;
    let count = count as usize;
    for i in 0..count.div_ceil(64) {
        let wide = (count - 64 * i).min(64);
        let heard = !marks.window(64 * i);
        marks.put(64 * i, wide, heard);
    }
    Ok(marks)
}

// Bits with the other bit at each place that is meant, in the same memory.
fn flipped(alloc: Global, flip: &Places, mut bits: Bits) -> Result<Bits, AllocError>
    ensures { IfOk result (λ value. value.items
        ≡ map (λ m. is_named flip.now m ⊕ bit bits.items m) (range_with_len 0 (length bits.items))) }
{
    if let Places::Nothing = flip {
        return Ok(bits);
    }
    let count = bits.len();
    let flips = named(alloc, flip, count as u32)?;
    for i in 0..count.div_ceil(64) {
        let wide = (count - 64 * i).min(64);
        let value = flips.window(64 * i) ^ bits.window(64 * i);
        bits.put(64 * i, wide, value);
    }
    Ok(bits)
}

// Gives a receiver a transmission that it accepts, and returns what may be handed up of all that was received.
pub(crate) fn receive<K: Recording>(
    receiver: &mut Receiver<'_, K>,
    tx: &Tx,
    arrival: &Marks,
) -> Result<Outcome, AllocError>
    requires accepted { IsAccepted receiver.old.link (reception_of tx.now arrival.now) }
    ensures link { receiver.new.link ≡ receiver.old.link }
    ensures heard { OnOk result ((list : List Reception)
        → IsRecordOf receiver.old.link list receiver.old.heard
        → IsRecordOf receiver.old.link (list ++ reception_of tx.now arrival.now ∷ [])
        receiver.new.heard) }
    ensures outcome { IfOk result (λ answer. (list : List Reception)
        → IsRecordOf receiver.old.link list receiver.old.heard
        → verdict answer ≡ outcome_of receiver.old.link
        (list ++ reception_of tx.now arrival.now ∷ [])) }
{
    match receiver.take_marks(tx, arrival) {
        Ok(outcome) => Ok(outcome),
        Err(DeskFault::Memory) => Err(AllocError),
        // It accepts the transmission, so there is no other fault.
        Err(_) => unreachable!(),
    }
}
