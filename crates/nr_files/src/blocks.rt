//! The blocks file: one transport block per line, in hexadecimal digits.

ghost use Rattle.std.specs.Prelude.{◌≡◌, ◌≢◌, ◌≤◌, ◌<◌, ◌+◌, ◌*◌, ◌/◌, ◌^◌, ◌++◌, IsTrue};
ghost use Rattle.std.specs.Prelude.{IfErr, IfOk, IfSome, IsErrOf, All, map, length};
ghost use Rattle.std.specs.{Char.is_ascii_hexdigit, Char.digit_value, List.list_all, Simd.Lanes.Each1};
ghost use Rattle.nr_files.specs.Blocks.{without_last, octets_of_digits, block_said, blocks_said, IsBlockLength};
ghost use Rattle.nr_refusal.specs.Refusal.{FailsAs, Gives};
ghost use Rattle.nr_streams.specs.Source.{TookAtMost};

mod reader;

use nr_streams::{Broken, Source};
use reader::BlockReader;
use std::alloc::{AllocError, Global};
use std::simd::prelude::*;
use thiserror::Error;

/// The largest size of a blocks file, in octets.
pub const MOST_OCTETS: usize = 100_000_000;

// How many octets are asked for at once.
const PIECE: usize = 65_536;

// The most transport blocks of a blocks file.
const MOST_BLOCKS: usize = 256;

// The places of every other character of two lists of sixteen.
const EVEN: [usize; 16] = [0, 2, 4, 6, 8, 10, 12, 14, 16, 18, 20, 22, 24, 26, 28, 30];

const ODD: [usize; 16] = [1, 3, 5, 7, 9, 11, 13, 15, 17, 19, 21, 23, 25, 27, 29, 31];

// The most digits of a line: those of a transport block of 1,310,720 bits.
const MOST_DIGITS: usize = 327_680;

/// Why a blocks file is rejected. Lines are counted from 1.
#[derive(Clone, Copy, Debug, PartialEq, Eq, Error)]
pub enum BlocksFault {
    /// The file could not be read.
    #[error("Read")]
    Read,
    /// The file has more than 100,000,000 octets.
    #[error("TooLong")]
    TooLong,
    /// The file has no line.
    #[error("Empty")]
    Empty,
    /// The file has more than 256 lines.
    #[error("TooMany")]
    TooMany,
    /// The line is empty.
    #[error("Blank {0}")]
    Blank(u32),
    /// The line has a character that is not a hexadecimal digit.
    #[error("Digit {0}")]
    Digit(u32),
    /// The line has an odd number of digits.
    #[error("Odd {0}")]
    Odd(u32),
    /// The line has more than 327,680 digits.
    #[error("LongLine {0}")]
    LongLine(u32),
    /// Memory ran out.
    #[error("Memory")]
    Memory,
}

impl From<AllocError> for BlocksFault {
    ghost use Rattle.std.specs.Prelude.{◌≡◌};
    ghost use Rattle.nr_files.specs.declared.blocks.BlocksFault.TheVariants.{Memory};

    ghost from_gives = { λ _ fault. fault ≡ Memory };

    fn from(_error: AllocError) -> BlocksFault {
        BlocksFault::Memory
    }
}

// `text` without one character `last` at its end, if it has one there.
fn strip_last(text: &[u8], last: u8) -> &[u8]
    ensures { result.now ≡ without_last last text.now }
{
    text.strip_suffix(&[last]).unwrap_or(text)
}

// The value of a hexadecimal digit, without a branch: letters of both cases have bit 64, and 1 to 6 in the bits below
// 16.
fn digit(character: u8) -> u8
    requires { IsTrue (is_ascii_hexdigit character) }
    ensures value { result ≡ digit_value character }
    ensures small { result < 16 }
{
    character % 16 + character / 64 * 9
}

// The values of sixteen hexadecimal digits, made side by side.
fn sixteen_values(characters: u8x16) -> u8x16
    requires { Each1 (λ character. IsTrue (is_ascii_hexdigit character)) characters }
    ensures { result ≡ map digit_value characters }
{
    let figures = characters.simd_lt(u8x16::splat(64));
    (characters & u8x16::splat(15)) + figures.select(u8x16::splat(0), u8x16::splat(9))
}

// The octets that sixteen pairs of digits write.
fn sixteen_octets(first: u8x16, second: u8x16) -> u8x16
    requires first { Each1 (λ character. IsTrue (is_ascii_hexdigit character)) first }
    requires second { Each1 (λ character. IsTrue (is_ascii_hexdigit character)) second }
    ensures { result ≡ octets_of_digits (first ++ second) }
{
    let high = sixteen_values(first.shuffle(second, EVEN));
    let low = sixteen_values(first.shuffle(second, ODD));
    (high << u8x16::splat(4)) + low
}

// Fills octets with those that a line's pairs of digits write, sixteen at a turn.
fn read_digits(line: &[u8], octets: &mut [u8])
    requires digits { IsTrue (list_all is_ascii_hexdigit line.now) }
    requires half { length octets.old ≡ length line.now / 2 }
    ensures { octets.new ≡ octets_of_digits line.now }
{
    let whole = octets.len() / 16;
    for i in 0..whole {
        let first = u8x16::from_slice(&line[32 * i..]);
        let second = u8x16::from_slice(&line[32 * i + 16..]);
        sixteen_octets(first, second).copy_to_slice(&mut octets[16 * i..]);
    }
    for i in 16 * whole..octets.len() {
        octets[i] = 16 * digit(line[2 * i]) + digit(line[2 * i + 1]);
    }
}

// The octets that a line's pairs of digits write.
fn octets(alloc: Global, line: &[u8]) -> Result<Vec<u8>, AllocError>
    requires { IsTrue (list_all is_ascii_hexdigit line.now) }
    ensures octets { IfOk result (λ block. block.items ≡ octets_of_digits line.now) }
    ensures half { IfOk result (λ block. length block.items ≡ length line.now / 2) }
{
    let mut block = vec![in alloc; 0; line.len() / 2]?;
    read_digits(line, &mut block);
    Ok(block)
}

// Whether a line has hexadecimal digits alone. It looks at every character, since to stop at the first that is none
// would take a jump for each.
fn all_digits(line: &[u8]) -> bool
    ensures { result ≡ list_all is_ascii_hexdigit line.now }
{
    let mut all = true;
    for character in line {
        all &= character.is_ascii_hexdigit();
    }
    all
}

// The transport block that line `number` holds.
//
// Errors, in this order: `Blank`, `Digit`, `Odd`, `LongLine`, each with the line's number; `Memory`.
#[tactic(auto, unfolding(crate::specs::Blocks::block_said))]
fn block_of(alloc: Global, number: u32, line: &[u8]) -> Result<Vec<u8>, BlocksFault>
    ensures said { Gives BlocksFault.Memory (λ block. block.items) result
        (block_said number line.now) }
    ensures size { IfOk result (λ block. IsBlockLength (length block.items)) }
    ensures told { IfErr result (λ fault. fault ≢ BlocksFault.Read) }
{
    if line.is_empty() {
        return Err(BlocksFault::Blank(number));
    }
    if !all_digits(line) {
        return Err(BlocksFault::Digit(number));
    }
    if line.len() % 2 == 1 {
        return Err(BlocksFault::Odd(number));
    }
    if line.len() > MOST_DIGITS {
        return Err(BlocksFault::LongLine(number));
    }
    Ok(octets(alloc, line)?)
}

/// Reads a blocks file to its end: one transport block per line, with two hexadecimal digits of either case for each
/// octet.
///
/// Lines end with LF, and the last LF may be missing. One CR at the end of a line is not part of it. There are at most
/// 256 blocks, each of 1..=163,840 octets.
///
/// # Errors
///
/// `Read` if a pull failed or `TooLong` at more than 100,000,000 octets, whichever is met first; then `Empty`; then,
/// line by line, `TooMany` (at line 257), `Blank`, `Digit`, `Odd`, `LongLine`. `Memory` as soon as memory runs out;
/// nothing more is pulled then.
pub fn read_blocks<B: Source>(alloc: Global, source: &mut B) -> Result<Vec<Vec<u8>>, BlocksFault>
    requires { B.failures source.old < 2 ^ 32 }
    ensures said { B.failures source.new ≡ B.failures source.old → IfSome (B.remaining source.old)
        (λ octets. Gives BlocksFault.Memory (λ blocks. map (λ block. block.items) blocks.items)
        result (blocks_said octets)) }
    ensures few { IfOk result (λ blocks. length blocks.items ≤ 256) }
    ensures sizes { IfOk result
        (λ blocks. All (λ block. IsBlockLength (length block.items)) blocks.items) }
    ensures first { IsErrOf result BlocksFault.Read
        → TookAtMost 100000000 (B.remaining source.old) (B.remaining source.new) }
    ensures pulled { FailsAs BlocksFault.Read result
        (B.failures source.old) (B.failures source.new) }
{
    let mut reader = BlockReader::new(alloc);
    let mut memory = vec![in alloc; 0; PIECE]?;
    let piece = memory.as_mut_slice();
    let mut length = 0;
    loop {
        let count = match source.pull(piece) {
            Ok(count) => count,
            Err(Broken) => return Err(BlocksFault::Read),
        };
        if count == 0 {
            break;
        }
        if count > MOST_OCTETS - length {
            return Err(BlocksFault::TooLong);
        }
        length += count;
        reader.push(&piece[..count])?;
    }
    if length == 0 {
        return Err(BlocksFault::Empty);
    }
    reader.finish()
}
