//! The calls for a receiver that brings a decoder of its own: which bit each place carries, and the transport block of the
//! decoded bits.

ghost use Rattle.std.specs.Prelude.{length};
ghost use Rattle.nr_calls.specs.Crossing.{settings_in, tx_of};
ghost use Rattle.nr_calls.specs.Joining.{AreJoined, join_places, joined_said};
ghost use Rattle.nr_calls.specs.Placing.{AreBitIndexes, placing_said};
ghost use Rattle.nr_calls.specs.Statuses.{Returns, memory_last, no_memory};

use nr_calls::crossing::{NrSettings, NrTx};
use std::alloc::Global;

/// Finds which bit of which code block each of the G places of a transmission carries (TS 38.212, 5.4.2 and 5.5), for a
/// transport block of `a` bits. `out` has an entry for each place.
///
/// An entry is r N + n if the place carries bit d_n of code block r; both are counted from 0, so that every entry is below
/// C N. The bits d are those that `nr_codeword` writes, without the first 2 Zc bits of the codeword, which are never sent. A
/// receiver that keeps N soft values for each code block adds the value of place m to value `out[m]`. A bit that is sent
/// more than once has its index at several places. The call allocates nothing.
///
/// # Errors
///
/// The first that applies: 40 `Size`, 41 `RateRange`, 45 `Uneven`, 47 `NoBuffer`, 50 `Rv`, 51 `Order`, 52 `Layers`,
/// 53 `Total`, 54 `Ragged`, 55 `NoneScheduled`, 2 `Room`.
///
/// On an error nothing is written.
#[unsafe(no_mangle)]
pub extern "C" fn nr_places(settings: &NrSettings, a: u32, tx: &NrTx, out: &mut [u32]) -> u32
    ensures { Returns no_memory result out.old out.new AreBitIndexes
        (placing_said (settings_in settings.now) a (tx_of tx.now) (length out.old)) }
{
    nr_calls::placing::nr_places(settings, a, tx, out)
}

/// Joins the code blocks of a transport block of `a` bits and checks their CRCs (TS 38.212, 5.1 and 5.2.2).
///
/// `bits` has the K' bits of each of the C code blocks, one after the other, an octet of 0 or 1 for each bit, as `nr_cut` writes
/// them. `passed` has an octet for each code block, which becomes 1 if its CRC24B passes and 0 if not. A single code block
/// has no CRC24B, so that its octet says whether the CRC of the transport block passes. `block_passed` becomes 1 if the
/// CRC of the transport block passes, and 0 if not. `block` has a / 8 octets. The transport block is written there, eight
/// bits an octet, the first bit most significant, whether a CRC passes or not.
///
/// # Errors
///
/// The first that applies: 40 `Size`, 41 `RateRange`, 45 `Uneven`, 56 `Length`, 5 `Bit`, 2 `Room`, 1 `Memory`.
///
/// On an error nothing is written.
#[unsafe(no_mangle)]
pub extern "C" fn nr_join(
    alloc: Global,
    rate2048: u32,
    a: u32,
    bits: &[u8],
    passed: &mut [u8],
    block_passed: &mut u32,
    block: &mut [u8],
) -> u32
    ensures { Returns memory_last result (join_places passed.old block_passed.old block.old)
        (join_places passed.new block_passed.new block.new) AreJoined
        (joined_said rate2048 a bits.now (length passed.old) (length block.old)) }
{
    nr_calls::joining::nr_join(alloc, rate2048, a, bits, passed, block_passed, block)
}
