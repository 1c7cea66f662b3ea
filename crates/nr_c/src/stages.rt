//! The stages of a code block: its plan, its bits, its codeword, and what a transmission selects of it.

ghost use Rattle.std.specs.Prelude.{◌≡◌, false, length};
ghost use Rattle.nr_calls.specs.Codeword.{AreCoded, coded_into_said};
ghost use Rattle.nr_calls.specs.Crc.{crc_said};
ghost use Rattle.nr_calls.specs.Crossing.{AreBits, settings_in, tx_of};
ghost use Rattle.nr_calls.specs.Cutting.{code_block_said};
ghost use Rattle.nr_calls.specs.Encoding.{AreEncoded, encode_said};
ghost use Rattle.nr_calls.specs.Entries.{are_placed};
ghost use Rattle.nr_calls.specs.Matching.{matched_said};
ghost use Rattle.nr_calls.specs.Plan.{plan_said};
ghost use Rattle.nr_calls.specs.Rates.{nr_buffer_said, shares_into_said};
ghost use Rattle.nr_calls.specs.Stages.{interleaved_said, selected_said};
ghost use Rattle.nr_calls.specs.Statuses.{HasValue, Returns, memory_anywhere, memory_last, no_memory};

use nr_calls::crossing::{NrSettings, NrTx};
use nr_calls::entries::NrEntry;
use nr_calls::matching::NrMatch;
use nr_calls::plan::NrPlan;
use nr_calls::rates::NrBuffer;
use std::alloc::Global;

/// Computes the segmentation parameters of a transport block of `a` bits at the code rate `rate2048` / 2048 and writes
/// them to `out` (TS 38.212, 5.2.2, 6.2.2 and 7.2.2). The call allocates nothing.
///
/// # Errors
///
/// The first that applies: 40 `Size`, 41 `RateRange`, 45 `Uneven`.
///
/// On an error nothing is written.
#[unsafe(no_mangle)]
pub extern "C" fn nr_plan(rate2048: u32, a: u32, out: &mut NrPlan) -> u32
    ensures { Returns no_memory result out.old out.new HasValue (plan_said rate2048 a) }
{
    nr_calls::plan::nr_plan(rate2048, a, out)
}

/// Computes the parity bits of `octets` and writes them to `out` as a number of 24 or 16 bits, the first parity bit
/// most significant (TS 38.212, 5.1). `poly` is 0 for gCRC24A, 1 for gCRC24B and 2 for gCRC16. An octet has eight bits,
/// the first most significant.
///
/// # Errors
///
/// The first that applies: 4 `Poly`, 3 `Many`, 1 `Memory`.
///
/// `Many` means more than 2,097,152 octets. On an error nothing is written.
#[unsafe(no_mangle)]
pub extern "C" fn nr_crc(alloc: Global, poly: u32, octets: &[u8], out: &mut u32) -> u32
    ensures { Returns memory_last result out.old out.new HasValue (crc_said poly octets.now) }
{
    nr_calls::crc::nr_crc(alloc, poly, octets, out)
}

/// Writes the K' bits of code block `r` of a transport block, one bit to an octet (TS 38.212, 5.2.2). They are c_r
/// without the fillers that follow them. `block` has eight bits to an octet, the first most significant; `rate2048` /
/// 2048 is the code rate; `r` is counted from 0; and `out` has K' octets.
///
/// # Errors
///
/// The first that applies: 40 `Size`, 41 `RateRange`, 45 `Uneven`, 7 `CodeBlock`, 2 `Room`, 1 `Memory`.
///
/// On an error nothing is written.
#[unsafe(no_mangle)]
pub extern "C" fn nr_cut(alloc: Global, rate2048: u32, block: &[u8], r: u32, out: &mut [u8]) -> u32
    ensures { Returns memory_last result out.old out.new AreBits
        (code_block_said rate2048 block.now r (length out.old)) }
{
    nr_calls::cutting::nr_cut(alloc, rate2048, block, r, out)
}

/// Encodes the K bits c of a code block and writes the N bits d, one to an octet (TS 38.212, 5.3.2). The code is that
/// of the base graph `graph` and the lifting size `z`, so that no transport block is needed. `bits` has an octet for
/// each bit of c: 0, 1, or 2 for a filler, which is encoded as 0. `out` has N octets, which become 0 or 1, or 2
/// wherever c has a filler.
///
/// # Errors
///
/// The first that applies: 31 `Entries`, 29 `Empty`, 26 `Core`, 27 `Extension`, 28 `MissingRow`, 46 `Graph`,
/// 6 `Lifting`, 56 `Length`, 5 `Bit`, 2 `Room`; 1 `Memory` at any point, but not in place of 31.
///
/// `Graph` means that `graph` is neither 1 nor 2, or that the table lacks it. On an error nothing is written.
#[unsafe(no_mangle)]
pub extern "C" fn nr_encode(
    alloc: Global,
    table: &[NrEntry],
    graph: u32,
    z: u32,
    bits: &[u8],
    out: &mut [u8],
) -> u32
    ensures said { Returns memory_anywhere result out.old out.new (AreEncoded bits.now)
        (encode_said table.now graph z bits.now (length out.old)) }
    ensures placed { are_placed table.now ≡ false → result ≡ 31 }
{
    nr_calls::encoding::nr_encode(alloc, table, graph, z, bits, out)
}

/// Encodes a code block of a transport block of `a` bits at the code rate `rate2048` / 2048 and writes the N bits d,
/// one to an octet (TS 38.212, 5.3.2). `bits` has the K' bits with their CRC but without fillers, an octet of 0 or 1
/// each, as `nr_cut` writes them. `out` has N octets, which become 0 or 1, or 2 for a filler, which is never sent.
///
/// # Errors
///
/// The first that applies: 31 `Entries`, 29 `Empty`, 26 `Core`, 27 `Extension`, 28 `MissingRow`, 40 `Size`,
/// 41 `RateRange`, 45 `Uneven`, 46 `Graph`, 56 `Length`, 5 `Bit`, 2 `Room`; 1 `Memory` at any point, but not in place
/// of 31.
///
/// On an error nothing is written.
#[unsafe(no_mangle)]
pub extern "C" fn nr_codeword(
    alloc: Global,
    table: &[NrEntry],
    rate2048: u32,
    a: u32,
    bits: &[u8],
    out: &mut [u8],
) -> u32
    ensures said { Returns memory_anywhere result out.old out.new AreCoded
        (coded_into_said table.now rate2048 a bits.now (length out.old)) }
    ensures placed { are_placed table.now ≡ false → result ≡ 31 }
{
    nr_calls::codeword::nr_codeword(alloc, table, rate2048, a, bits, out)
}

/// Writes E_r, the number of bits that a transmission sends of each of the C code blocks of a transport block of `a`
/// bits at the code rate `rate2048` / 2048 (TS 38.212, 5.4.2.1). `out` has an entry for each code block. The entries
/// are multiples of Qm, add up to G, and are 0 for a code block that is not scheduled. The call allocates nothing.
///
/// # Errors
///
/// The first that applies: 40 `Size`, 41 `RateRange`, 45 `Uneven`, 50 `Rv`, 51 `Order`, 52 `Layers`, 53 `Total`,
/// 54 `Ragged`, 55 `NoneScheduled`, 2 `Room`.
///
/// On an error nothing is written.
#[unsafe(no_mangle)]
pub extern "C" fn nr_lengths(rate2048: u32, a: u32, tx: &NrTx, out: &mut [u32]) -> u32
    ensures { Returns no_memory result out.old out.new HasValue
        (shares_into_said rate2048 a (tx_of tx.now) (length out.old)) }
{
    nr_calls::rates::nr_lengths(rate2048, a, tx, out)
}

/// Writes to `out` the length Ncb of the circular buffer of each code block of a transport block of `a` bits, and the
/// index k0 at which the redundancy version `rv` begins in it (TS 38.212, 5.4.2.1 and Table 5.4.2.1-2). Both count bits
/// of d, which `nr_codeword` writes. The call allocates nothing.
///
/// # Errors
///
/// The first that applies: 40 `Size`, 41 `RateRange`, 45 `Uneven`, 47 `NoBuffer`, 50 `Rv`.
///
/// On an error nothing is written.
#[unsafe(no_mangle)]
pub extern "C" fn nr_buffer(settings: &NrSettings, a: u32, rv: u32, out: &mut NrBuffer) -> u32
    ensures { Returns no_memory result out.old out.new HasValue
        (nr_buffer_said (settings_in settings.now) a rv) }
{
    nr_calls::rates::nr_buffer(settings, a, rv, out)
}

/// Writes e_r, the bits that the redundancy version `rv` selects from the bits d of a code block of a transport block
/// of `a` bits (TS 38.212, 5.4.2.1). It selects as many as `out` has octets, one bit to an octet. `d` has N octets of 0
/// or 1, or 2 wherever the code block has a filler, as `nr_codeword` writes them.
///
/// # Errors
///
/// The first that applies: 40 `Size`, 41 `RateRange`, 45 `Uneven`, 47 `NoBuffer`, 50 `Rv`, 56 `Length`, 5 `Bit`,
/// 3 `Many`, 1 `Memory`.
///
/// `Many` means that `out` has more than 4,194,304 octets, and `Bit` that one of `d` is not a bit, or not 2 exactly in
/// the place of a filler. On an error nothing is written.
#[unsafe(no_mangle)]
pub extern "C" fn nr_select(
    alloc: Global,
    settings: &NrSettings,
    a: u32,
    rv: u32,
    d: &[u8],
    out: &mut [u8],
) -> u32
    ensures { Returns memory_last result out.old out.new AreBits
        (selected_said (settings_in settings.now) a rv d.now (length out.old)) }
{
    nr_calls::stages::nr_select(alloc, settings, a, rv, d, out)
}

/// Writes f_r: the selected bits e_r of a code block in the order in which a transmission sends them (TS 38.212,
/// 5.4.2.2). `bits` has e_r, an octet of 0 or 1 each; `out` has as many octets; and `qm` is the modulation order Qm.
///
/// # Errors
///
/// The first that applies: 51 `Order`, 3 `Many`, 54 `Ragged`, 5 `Bit`, 2 `Room`, 1 `Memory`.
///
/// `Many` means more than 4,194,304 octets, and `Ragged` that their number is not a multiple of `qm`. On an error
/// nothing is written.
#[unsafe(no_mangle)]
pub extern "C" fn nr_interleave(alloc: Global, qm: u32, bits: &[u8], out: &mut [u8]) -> u32
    ensures { Returns memory_last result out.old out.new AreBits
        (interleaved_said qm bits.now (length out.old)) }
{
    nr_calls::stages::nr_interleave(alloc, qm, bits, out)
}

/// Writes f, the bits that a transmission sends of one code block, selected from the bits `d` and interleaved (TS
/// 38.212, 5.4.2). It writes as many as `out` has octets, one bit to an octet. `numbers` alone say how, so that no
/// transport block is needed. `d` has N octets, as `nr_encode` writes them. If `numbers.qm` is 1 the bits stay in the
/// order in which they were selected.
///
/// # Errors
///
/// The first that applies: 46 `Graph`, 6 `Lifting`, 7 `CodeBlock`, 47 `NoBuffer`, 50 `Rv`, 51 `Order`, 56 `Length`,
/// 5 `Bit`, 3 `Many`, 54 `Ragged`, 1 `Memory`.
///
/// `Graph` means that `graph` is neither 1 nor 2, and `CodeBlock` that `fillers` is not below K - 2 Zc, because K' is
/// then not above 2 Zc. `Many` and `Bit` are as `nr_select` has them, and `Ragged` means that `out` is not as long as a
/// multiple of `qm`. On an error nothing is written.
#[unsafe(no_mangle)]
pub extern "C" fn nr_match(alloc: Global, numbers: &NrMatch, d: &[u8], out: &mut [u8]) -> u32
    ensures { Returns memory_last result out.old out.new AreBits
        (matched_said numbers.now d.now (length out.old)) }
{
    nr_calls::matching::nr_match(alloc, numbers, d, out)
}
