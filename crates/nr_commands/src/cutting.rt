//! The command `cut`.

ghost use Rattle.std.specs.Prelude.{◌≡◌, ◌≢◌, ℕ, ◌^◌, ◌<◌, ◌≤◌, All, length, map, IfOk, IfSome, IsErr};
ghost use Rattle.nr_files.specs.Blocks.{blocks_said, IsBlockLength};
ghost use Rattle.nr_commands.specs.{Command.Delivers, CutText.cut_said};
ghost use Rattle.nr_refusal.specs.Refusal.{FailsAs, Gives};

use crate::cut_text::{judge, write_blocks};
use crate::fault::RunFault;
use nr_files::{BlocksFault, read_blocks};
use nr_streams::{Sink, Source};
use std::alloc::Global;

/// Shows what TS 38.212 makes of each transport block of a blocks file, up to its code blocks (6.2.1 to 6.2.3, 7.2.1 to
/// 7.2.3). `rate2048` is the code rate in 2048ths. It writes for each block, counted from 1,
///
/// - `block <n> a <A> b <B> graph <1 or 2> c <C> l <L> kdash <K'> kb <Kb> z <Zc> set <set index> k <K> n <N>`;
/// - `attached <n> <the B bits with the CRC>`;
/// - `code <n> <r> <the K' bits>` for each code block r, counted from 0.
///
/// Bits are written in lower-case hexadecimal digits, the last one padded with zero bits.
///
/// The blocks file is read to its end, and every block is checked, before the first put. Then each line is written as
/// soon as it is made, those of the code blocks of a block together.
///
/// # Errors
///
/// In this order: `Blocks` with the first error of the blocks file; `Desk` with the first transport block that cannot
/// be segmented, which is the first block, with `Pick(RateRange)`, if the rate is not within 1..=2048. After these the
/// Sink is unchanged. `Write` if a put failed, after which a first part of the text is written. `Memory` if memory runs
/// out, after which nothing or a first part of the text is written.
pub fn cut<B: Source, O: Sink>(
    alloc: Global,
    rate2048: u32,
    blocks: &mut B,
    out: &mut O,
) -> Result<(), RunFault>
    requires pulls { B.failures blocks.old < 2 ^ 32 }
    requires puts { O.failures out.old < 2 ^ 32 }
    ensures text { B.failures blocks.new ≡ B.failures blocks.old → IfSome (B.remaining blocks.old)
        (λ octets. Delivers (O.written out.old) (O.written out.new) result
        (cut_said rate2048 octets)) }
    ensures untouched { IsErr result → result ≢ Err RunFault.Write → result ≢ Err RunFault.Memory
        → O.written out.new ≡ O.written out.old }
    ensures pulled { FailsAs (RunFault.Blocks BlocksFault.Read) result
        (B.failures blocks.old) (B.failures blocks.new) }
    ensures put { FailsAs RunFault.Write result (O.failures out.old) (O.failures out.new) }
{
    let blocks = read_blocks(alloc, blocks)?;
    judge(rate2048, &blocks)?;
    write_blocks(alloc, rate2048, &blocks, out)
}
