//! The bit interleaver of TS 38.212, 5.4.2.2. Contracts cite specs/Interleaving.antt, which defines the standard's
//! index and the whole list. By a law, each bit is taken exactly once if the number of bits is a multiple of Qm.
//!
//! `spread` and `spread_onto` put the selected bits of a code block into the order in which they are sent,
//! `unspread_into` puts them back, and `seat` tells which of them stands at an index. Only `spread` allocates memory.
#![tactic(auto)]

ghost use Rattle.std.specs.Prelude.{◌≡◌, ◌+◌, ◌%◌, ◌<◌, ◌≤◌, ◌++◌, length, take, drop, IfOk};
ghost use Rattle.nr_interleave.specs.Interleaving.{seat_of, interleaving_of, SeatsAreSeating};

mod columns;
mod octets;
mod rows;

use columns::by_columns;
use nr_bitvec::Bits;
use octets::{OF_2, OF_4, OF_6, OF_8};
use rows::{by_rows, by_seats};
use std::alloc::{AllocError, Global};

/// Returns which of the `e` selected bits is bit `m` of the interleaved ones, as an index counted from 0 (TS 38.212,
/// 5.4.2.2). The modulation order `qm` is 1, 2, 4, 6 or 8, or any other number but 0, and `e` is a multiple of it.
/// Allocates nothing.
pub fn seat(qm: u32, e: u32, m: u32) -> u32
    requires some { 0 < qm }
    requires whole { e % qm ≡ 0 }
    requires inside { m < e }
    ensures value { result ≡ seat_of qm e m }
    ensures inside { result < e }
{
    (m % qm) * (e / qm) + m / qm
}

/// Returns the bits of a code block in their interleaved order for the modulation order `qm`, of which their number is
/// a multiple (TS 38.212, 5.4.2.2).
///
/// # Errors
///
/// `AllocError` if memory runs out.
pub fn spread(alloc: Global, qm: u32, bits: &Bits) -> Result<Bits, AllocError>
    requires some { 0 < qm }
    requires whole { length bits.now.items % qm ≡ 0 }
    ensures { IfOk result (λ spread. spread.items ≡ interleaving_of qm bits.now.items) }
{
    let mut spread = Bits::with_room(alloc, bits.len() as u32)?;
    spread_onto(qm, bits, &mut spread);
    Ok(spread)
}

/// Appends the bits that `spread` returns to a list that has room for them (TS 38.212, 5.4.2.2). Allocates nothing.
pub fn spread_onto(qm: u32, bits: &Bits, spread: &mut Bits)
    requires some { 0 < qm }
    requires whole { length bits.now.items % qm ≡ 0 }
    requires room { length bits.now.items ≤ spread.old.room }
    ensures items { spread.new.items ≡ spread.old.items ++ interleaving_of qm bits.now.items }
    ensures room { spread.new.room + length bits.now.items ≡ spread.old.room }
{
    match qm {
        1 => spread.extend_range(bits, 0, bits.len()),
        2 => by_columns::<2>(&OF_2, bits, spread),
        4 => by_columns::<4>(&OF_4, bits, spread),
        6 => by_columns::<6>(&OF_6, bits, spread),
        8 => by_columns::<8>(&OF_8, bits, spread),
        _ => by_places(qm, bits, spread),
    }
}

// Spreads them place by place, for an order that no modulation has.
fn by_places(qm: u32, bits: &Bits, spread: &mut Bits)
    requires some { 0 < qm }
    requires whole { length bits.now.items % qm ≡ 0 }
    requires room { length bits.now.items ≤ spread.old.room }
    ensures items { spread.new.items ≡ spread.old.items ++ interleaving_of qm bits.now.items }
    ensures room { spread.new.room + length bits.now.items ≡ spread.old.room }
{
    let e = bits.len() as u32;
    for m in 0..e {
        spread.push_in_room(bits.get(seat(qm, e, m) as usize));
    }
}

/// Undoes `spread` for a range of a list (TS 38.212, 5.4.2.2): replaces the bits of `selected` by those whose
/// interleaving, for the modulation order `qm`, is the `count` bits of `bits` from bit `from` on. Allocates nothing.
pub fn unspread_into(qm: u32, bits: &Bits, from: usize, count: usize, selected: &mut Bits)
    requires some { 0 < qm }
    requires whole { count % qm ≡ 0 }
    requires inside { from + count ≤ length bits.now.items }
    requires room { count ≤ length selected.old.items + selected.old.room }
    ensures items { interleaving_of qm selected.new.items ≡ take count (drop from bits.now.items) }
    ensures room { length selected.old.items + selected.old.room
        ≤ length selected.new.items + selected.new.room }
{
    let past = bits.len();
    prove!(from + count <= past);
    match qm {
        1 => {
            selected.clear();
            selected.extend_range(bits, from, count);
        }
        2 => by_rows::<2>(&OF_2, bits, from, count, selected),
        4 => by_rows::<4>(&OF_4, bits, from, count, selected),
        6 => by_rows::<6>(&OF_6, bits, from, count, selected),
        8 => by_rows::<8>(&OF_8, bits, from, count, selected),
        _ => {
            selected.clear();
            by_seats(qm as usize, bits, from, count, selected);
        }
    }
}

/// Law: if the number of bits is a multiple of Qm, `seat` returns each index below it exactly once.
pub fn seats_are_seating()
    ensures { SeatsAreSeating }
{}
