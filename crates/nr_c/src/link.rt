//! Both ends of a link, and simulating it.

ghost use Rattle.std.specs.Prelude.{◌≡◌, false, length};
ghost use Rattle.nr_drawing.specs.Drawing.{AreOverwritten, places_drawn};
ghost use Rattle.nr_calls.specs.Crossing.{AreBits, settings_in, tx_of};
ghost use Rattle.nr_calls.specs.Entries.{are_placed};
ghost use Rattle.nr_calls.specs.Findings.{AreWritten, places, room_in};
ghost use Rattle.nr_calls.specs.Keeping.{IsKept, arriving_said, kept_places, kept_room, room_said, start_said};
ghost use Rattle.nr_calls.specs.Receiving.{receive_into_said};
ghost use Rattle.nr_calls.specs.Sending.{send_into_said};
ghost use Rattle.nr_calls.specs.Simulating.{AreSimulated, simulating_said, simulation, simulation_room};
ghost use Rattle.nr_calls.specs.Statuses.{HasValue, Returns, memory_anywhere, no_memory};

use nr_calls::crossing::{NrSettings, NrTx};
use nr_calls::entries::NrEntry;
use std::alloc::Global;

/// Writes the G bits that a transmission sends of a transport block, one to an octet of `out` (TS 38.212, 6.2 and 7.2).
/// `block` has eight bits to an octet, the first most significant. The result does not depend on earlier calls.
///
/// # Errors
///
/// The first that applies: 31 `Entries`, 29 `Empty`, 26 `Core`, 27 `Extension`, 28 `MissingRow`, 40 `Size`,
/// 41 `RateRange`, 45 `Uneven`, 46 `Graph`, 47 `NoBuffer`, 50 `Rv`, 51 `Order`, 52 `Layers`, 53 `Total`, 54 `Ragged`,
/// 55 `NoneScheduled`, 2 `Room`; 1 `Memory` at any point, but not in place of 31.
///
/// On an error nothing is written.
#[unsafe(no_mangle)]
pub extern "C" fn nr_send(
    alloc: Global,
    table: &[NrEntry],
    settings: &NrSettings,
    block: &[u8],
    tx: &NrTx,
    out: &mut [u8],
) -> u32
    ensures said { Returns memory_anywhere result out.old out.new AreBits (send_into_said table.now
        (settings_in settings.now) block.now (tx_of tx.now) (length out.old)) }
    ensures placed { are_placed table.now ≡ false → result ≡ 31 }
{
    nr_calls::sending::nr_send(alloc, table, settings, block, tx, out)
}

/// Decodes a transport block of `a` bits after each of the transmissions `txs` (TS 38.212, 5.4.2 and 5.5). `heard` has
/// an octet for each received bit, one transmission after the other: 0 and 1 are bits, and any other octet is an erased
/// place.
///
/// `outcomes` has an entry for each transmission. It becomes 0 if the transmissions so far leave a bit below K'
/// undecided; 1 if the block is delivered, which is then the only one that is consistent with everything received; and
/// 2 if no block is. `left` has an entry for each of the C code blocks, which becomes the number of its K' bits that
/// are undecided after the last transmission. `block` has a / 8 octets. If the last outcome is 1 the transport block is
/// written there, eight bits to an octet, the first most significant; otherwise `block` is not written.
///
/// # Errors
///
/// The first that applies: 31 `Entries`, 29 `Empty`, 26 `Core`, 27 `Extension`, 28 `MissingRow`, 40 `Size`,
/// 41 `RateRange`, 45 `Uneven`, 2 `Room`, 46 `Graph`, 47 `NoBuffer`; for each transmission 56 `Length`, 50 `Rv`,
/// 51 `Order`, 52 `Layers`, 53 `Total`, 54 `Ragged`, 55 `NoneScheduled`; 56 `Length`; 1 `Memory` at any point, but not
/// in place of 31.
///
/// `Length` means that `heard` has fewer than G octets left for a transmission, or more after the last one. On an error
/// nothing is written.
#[unsafe(no_mangle)]
pub extern "C" fn nr_receive(
    alloc: Global,
    table: &[NrEntry],
    settings: &NrSettings,
    a: u32,
    txs: &[NrTx],
    heard: &[u8],
    outcomes: &mut [u32],
    left: &mut [u32],
    block: &mut [u8],
) -> u32
    ensures said { Returns memory_anywhere result (places outcomes.old left.old block.old)
        (places outcomes.new left.new block.new) (AreWritten block.old)
        (receive_into_said table.now (settings_in settings.now) a txs.now heard.now
        (room_in (places outcomes.old left.old block.old))) }
    ensures placed { are_placed table.now ≡ false → result ≡ 31 }
{
    nr_calls::receiving::nr_receive(alloc, table, settings, a, txs, heard, outcomes, left, block)
}

/// Writes to `out` the number of octets of the state of a receiver of transport blocks of `a` bits at the code rate
/// `rate2048` / 2048. It is one for each position of each codeword, one more for each code block, and 32. The call
/// allocates nothing.
///
/// # Errors
///
/// The first that applies: 40 `Size`, 41 `RateRange`, 45 `Uneven`.
///
/// On an error nothing is written.
#[unsafe(no_mangle)]
pub extern "C" fn nr_receiver_size(rate2048: u32, a: u32, out: &mut usize) -> u32
    ensures { Returns no_memory result out.old out.new HasValue (room_said rate2048 a) }
{
    nr_calls::keeping::nr_receiver_size(rate2048, a, out)
}

/// Makes `room` the state of a receiver of a transport block of `a` bits that has received nothing. `room` has as many
/// octets as `nr_receiver_size` says. The state is plain data, which may be copied, stored and sent elsewhere.
///
/// # Errors
///
/// The first that applies: 31 `Entries`, 29 `Empty`, 26 `Core`, 27 `Extension`, 28 `MissingRow`, 40 `Size`,
/// 41 `RateRange`, 45 `Uneven`, 2 `Room`, 46 `Graph`, 47 `NoBuffer`; 1 `Memory` at any point, but not in place of 31.
///
/// On an error nothing is written.
#[unsafe(no_mangle)]
pub extern "C" fn nr_receiver_start(
    alloc: Global,
    table: &[NrEntry],
    settings: &NrSettings,
    a: u32,
    room: &mut [u8],
) -> u32
    ensures said { Returns memory_anywhere result room.old room.new HasValue
        (start_said table.now (settings_in settings.now) a (length room.old)) }
    ensures placed { are_placed table.now ≡ false → result ≡ 31 }
{
    nr_calls::keeping::nr_receiver_start(alloc, table, settings, a, room)
}

/// Decodes a transport block of `a` bits after one more transmission (TS 38.212, 5.4.2 and 5.5). The receiver's state
/// is in `room`, and afterwards has this transmission too. `heard` has an octet for each of the G places: 0 and 1 are
/// bits, and any other octet is an erased place. The outcome goes to `outcome`. It is that of all transmissions that
/// the state has received. `left` and `block` become what `nr_receive` writes to them.
///
/// # Errors
///
/// The first that applies: 31 `Entries`, 29 `Empty`, 26 `Core`, 27 `Extension`, 28 `MissingRow`, 40 `Size`,
/// 41 `RateRange`, 45 `Uneven`, 2 `Room`, 46 `Graph`, 47 `NoBuffer`, 8 `State`, 50 `Rv`, 51 `Order`, 52 `Layers`,
/// 53 `Total`, 54 `Ragged`, 55 `NoneScheduled`, 56 `Length`; 1 `Memory` at any point, but not in place of 31.
///
/// On an error nothing is written.
#[unsafe(no_mangle)]
pub extern "C" fn nr_receiver_take(
    alloc: Global,
    table: &[NrEntry],
    settings: &NrSettings,
    a: u32,
    room: &mut [u8],
    tx: &NrTx,
    heard: &[u8],
    outcome: &mut u32,
    left: &mut [u32],
    block: &mut [u8],
) -> u32
    ensures said { Returns memory_anywhere result (kept_places room.old outcome.old left.old block.old)
        (kept_places room.new outcome.new left.new block.new) (IsKept block.old)
        (arriving_said table.now (settings_in settings.now) a room.old
        (kept_room (kept_places room.old outcome.old left.old block.old)) (tx_of tx.now) heard.now) }
    ensures placed { are_placed table.now ≡ false → result ≡ 31 }
{
    nr_calls::keeping::nr_receiver_take(
        alloc, table, settings, a, room, tx, heard, outcome, left, block,
    )
}

/// Erases the places that a pseudo-random generator draws: octet m of `heard` becomes 2 if word m of PCG-XSH-RR 64/32
/// is below `threshold`. The generator starts from `seed` on stream 54. All other octets stay as they are. The call
/// allocates nothing and returns 0.
#[unsafe(no_mangle)]
pub extern "C" fn nr_erase(seed: u64, threshold: u32, heard: &mut [u8]) -> u32
    ensures status { result ≡ 0 }
    ensures erased { AreOverwritten 2 (places_drawn seed threshold (length heard.old))
        heard.old heard.new }
{
    nr_calls::drawing::nr_erase(seed, threshold, heard)
}

/// Simulates rounds of a transport block of `a` bits over a link that erases places at random. A round sends the
/// transmissions `txs` in turn until the block is delivered. Transmission k of round i erases place m if word m of the
/// generator of `nr_erase` is below `thresholds[k]`; the generator starts from seed i T + k of `seeds`, where T is the
/// number of transmissions.
///
/// `delivered` has an entry for each round, which becomes the number of transmissions after which the block is
/// delivered, or 0 if it is not. `left` and `erased` have an entry for each code block after each transmission of each
/// round. They become how many of its K' bits are undecided then, and how many of its places that transmission has
/// erased; both are 0 once the block is delivered. The results hold for every transport block, since over erasures they
/// do not depend on its bits.
///
/// # Errors
///
/// The first that applies: 31 `Entries`, 29 `Empty`, 26 `Core`, 27 `Extension`, 28 `MissingRow`, 40 `Size`,
/// 41 `RateRange`, 45 `Uneven`, 3 `Many`, 56 `Length`, 2 `Room`, 46 `Graph`, 47 `NoBuffer`; for each transmission
/// 50 `Rv`, 51 `Order`, 52 `Layers`, 53 `Total`, 54 `Ragged`, 55 `NoneScheduled`; 1 `Memory` at any point, but not in
/// place of 31.
///
/// `Many` means more than 1,000 transmissions, and `Length` that `thresholds` does not have T entries, or `seeds` not T
/// for each round. On an error nothing is written.
#[unsafe(no_mangle)]
pub extern "C" fn nr_simulate(
    alloc: Global,
    table: &[NrEntry],
    settings: &NrSettings,
    a: u32,
    txs: &[NrTx],
    thresholds: &[u32],
    seeds: &[u64],
    delivered: &mut [u32],
    left: &mut [u32],
    erased: &mut [u32],
) -> u32
    ensures said { Returns memory_anywhere result (simulation delivered.old left.old erased.old)
        (simulation delivered.new left.new erased.new)
        (AreSimulated txs.now thresholds.now seeds.now (length delivered.old))
        (simulating_said table.now (settings_in settings.now) a txs.now thresholds.now seeds.now
        (simulation_room (simulation delivered.old left.old erased.old))) }
    ensures placed { are_placed table.now ≡ false → result ≡ 31 }
{
    nr_calls::simulating::nr_simulate(
        alloc, table, settings, a, txs, thresholds, seeds, delivered, left, erased,
    )
}
