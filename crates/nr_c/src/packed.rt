//! Both ends of a link with eight bits or places to an octet.

ghost use Rattle.std.specs.Prelude.{◌≡◌, false, length};
ghost use Rattle.nr_calls.specs.Crossing.{settings_in, tx_of};
ghost use Rattle.nr_calls.specs.Entries.{are_placed};
ghost use Rattle.nr_calls.specs.Findings.{AreWritten, places, room_in};
ghost use Rattle.nr_calls.specs.Packed.{send_packed_said, unpacked};
ghost use Rattle.nr_calls.specs.Receiving.{receive_into_said};
ghost use Rattle.nr_calls.specs.Statuses.{HasValue, Returns, memory_anywhere};

use nr_calls::crossing::{NrSettings, NrTx};
use nr_calls::entries::NrEntry;
use std::alloc::Global;

/// Writes the G bits that a transmission sends of a transport block, eight to an octet, the first most significant (TS
/// 38.212, 6.2 and 7.2). They are the bits that `nr_send` writes. `out` has an octet for every eight bits, rounded up,
/// and the last octet is filled with zero bits.
///
/// # Errors
///
/// The first that applies: 31 `Entries`, 29 `Empty`, 26 `Core`, 27 `Extension`, 28 `MissingRow`, 40 `Size`,
/// 41 `RateRange`, 45 `Uneven`, 46 `Graph`, 47 `NoBuffer`, 50 `Rv`, 51 `Order`, 52 `Layers`, 53 `Total`, 54 `Ragged`,
/// 55 `NoneScheduled`, 2 `Room`; 1 `Memory` at any point, but not in place of 31.
///
/// On an error nothing is written.
#[unsafe(no_mangle)]
pub extern "C" fn nr_send_packed(
    alloc: Global,
    table: &[NrEntry],
    settings: &NrSettings,
    block: &[u8],
    tx: &NrTx,
    out: &mut [u8],
) -> u32
    ensures said { Returns memory_anywhere result out.old out.new HasValue (send_packed_said table.now
        (settings_in settings.now) block.now (tx_of tx.now) (length out.old)) }
    ensures placed { are_placed table.now ≡ false → result ≡ 31 }
{
    nr_calls::packed::nr_send_packed(alloc, table, settings, block, tx, out)
}

/// Decodes a transport block of `a` bits after each of the transmissions `txs`, whose places have eight to an octet,
/// the first most significant (TS 38.212, 5.4.2 and 5.5). Each transmission begins with an octet of its own and has (G
/// + 7) / 8 of them, one transmission after the other, in both `bits` and `known`. A place was received if its bit in
/// `known` is set, and `bits` then has what was received; otherwise it is erased, and its bit in `bits` may be
/// anything, as may the bits that fill the last octet of a transmission. The results are those of `nr_receive` for
/// these places.
///
/// # Errors
///
/// The first that applies: 31 `Entries`, 29 `Empty`, 26 `Core`, 27 `Extension`, 28 `MissingRow`, 40 `Size`,
/// 41 `RateRange`, 45 `Uneven`, 2 `Room`, 46 `Graph`, 47 `NoBuffer`; for each transmission 56 `Length`, 50 `Rv`,
/// 51 `Order`, 52 `Layers`, 53 `Total`, 54 `Ragged`, 55 `NoneScheduled`; 56 `Length`; 1 `Memory` at any point, but not
/// in place of 31.
///
/// `Length` means that `bits` or `known` has too few octets for a transmission, or more after the last one. On an error
/// nothing is written.
#[unsafe(no_mangle)]
pub extern "C" fn nr_receive_packed(
    alloc: Global,
    table: &[NrEntry],
    settings: &NrSettings,
    a: u32,
    txs: &[NrTx],
    bits: &[u8],
    known: &[u8],
    outcomes: &mut [u32],
    left: &mut [u32],
    block: &mut [u8],
) -> u32
    ensures said { Returns memory_anywhere result (places outcomes.old left.old block.old)
        (places outcomes.new left.new block.new) (AreWritten block.old)
        (receive_into_said table.now (settings_in settings.now) a txs.now (unpacked txs.now bits.now known.now)
        (room_in (places outcomes.old left.old block.old))) }
    ensures placed { are_placed table.now ≡ false → result ≡ 31 }
{
    nr_calls::packed::nr_receive_packed(
        alloc, table, settings, a, txs, bits, known, outcomes, left, block,
    )
}
