//! Both ends of a link for several transport blocks of one size, by one reading of the table.

ghost use Rattle.std.specs.Prelude.{◌≡◌, false, length};
ghost use Rattle.nr_calls.specs.Crossing.{AreBits, settings_in};
ghost use Rattle.nr_calls.specs.Entries.{are_placed};
ghost use Rattle.nr_calls.specs.Findings.{places, room_in};
ghost use Rattle.nr_calls.specs.Many.{AreAllWritten, receive_many_said, send_many_said};
ghost use Rattle.nr_calls.specs.Statuses.{Returns, memory_anywhere};

use nr_calls::crossing::{NrSettings, NrTx};
use nr_calls::entries::NrEntry;
use std::alloc::Global;

/// Writes the bits that the transmissions `txs` send of each of `count` transport blocks of `a` bits, for which the
/// table is read only once (TS 38.212, 6.2 and 7.2). `blocks` has a row of a / 8 octets for each block. `out` has a row
/// for each block: the G octets of each transmission, one after the other, as `nr_send` writes them.
///
/// # Errors
///
/// The first that applies: 31 `Entries`, 29 `Empty`, 26 `Core`, 27 `Extension`, 28 `MissingRow`, 3 `Many`, 40 `Size`,
/// 41 `RateRange`, 45 `Uneven`, 46 `Graph`, 47 `NoBuffer`; for each transmission 50 `Rv`, 51 `Order`, 52 `Layers`,
/// 53 `Total`, 54 `Ragged`, 55 `NoneScheduled`; 2 `Room`; 1 `Memory` at any point, but not in place of 31.
///
/// `Many` means more than 1,000 transmissions, and `Size` also that `blocks` does not have `count` rows. On an error
/// nothing is written. All of it is judged before the first block, also if `count` is 0.
#[unsafe(no_mangle)]
pub extern "C" fn nr_send_many(
    alloc: Global,
    table: &[NrEntry],
    settings: &NrSettings,
    a: u32,
    txs: &[NrTx],
    count: usize,
    blocks: &[u8],
    out: &mut [u8],
) -> u32
    ensures said { Returns memory_anywhere result out.old out.new AreBits (send_many_said table.now
        (settings_in settings.now) count a txs.now blocks.now (length out.old)) }
    ensures placed { are_placed table.now ≡ false → result ≡ 31 }
{
    nr_calls::many_sent::nr_send_many(alloc, table, settings, a, txs, count, blocks, out)
}

/// Decodes each of `count` transport blocks of `a` bits after each of the transmissions `txs`, for which the table is
/// read only once (TS 38.212, 5.4.2 and 5.5). `heard`, `outcomes`, `left` and `blocks` have a row for each block, as
/// long as `nr_receive` has it for one.
///
/// # Errors
///
/// The first that applies: 31 `Entries`, 29 `Empty`, 26 `Core`, 27 `Extension`, 28 `MissingRow`, 3 `Many`, 40 `Size`,
/// 41 `RateRange`, 45 `Uneven`, 2 `Room`, 56 `Length`, 46 `Graph`, 47 `NoBuffer`; for each transmission 50 `Rv`,
/// 51 `Order`, 52 `Layers`, 53 `Total`, 54 `Ragged`, 55 `NoneScheduled`; 1 `Memory` at any point, but not in place of
/// 31.
///
/// `Many` means more than 1,000 transmissions, and `Length` that `heard` does not have `count` rows. On an error
/// nothing is written. If `count` is 0 everything but the transmissions is judged.
#[unsafe(no_mangle)]
pub extern "C" fn nr_receive_many(
    alloc: Global,
    table: &[NrEntry],
    settings: &NrSettings,
    a: u32,
    txs: &[NrTx],
    count: usize,
    heard: &[u8],
    outcomes: &mut [u32],
    left: &mut [u32],
    blocks: &mut [u8],
) -> u32
    ensures said { Returns memory_anywhere result (places outcomes.old left.old blocks.old)
        (places outcomes.new left.new blocks.new) (AreAllWritten blocks.old)
        (receive_many_said table.now (settings_in settings.now) count a txs.now heard.now
        (room_in (places outcomes.old left.old blocks.old))) }
    ensures placed { are_placed table.now ≡ false → result ≡ 31 }
{
    nr_calls::many::nr_receive_many(
        alloc, table, settings, a, txs, count, heard, outcomes, left, blocks,
    )
}
