//! The lines of `run`, except for those that it shares with `send`.

ghost use Rattle.std.specs.{Prelude.IfOk, Prelude.List, Prelude.◌++◌, Prelude.◌+◌, Prelude.◌≡◌, String.string_bytes};
ghost use Rattle.nr_linkcommands.specs.RunLines.{contradiction_line, delivered_line, head_of, last_line, left_lines, open_line};
ghost use Rattle.nr_linkcommands.specs.{inside.Ends.HoldsSummary, RunLines.outcome_line};
ghost use Rattle.nr_blockdesk.specs.Explains.{Reception};

use super::ends::Totals;
use super::slot::RxSummary;
use crate::heads::process_words;
use crate::laws;
use crate::ready::Ready;
use nr_bitvec::Bits;
use nr_blockdesk::{Outcome, Receiver, Sender, Unrecorded};
use nr_commands::hex_line;
use nr_files::Transmission;
use std::alloc::{AllocError, Global};
use std::fmt::Write;

// Most lines of a code block have no more characters.
const LEFT_LINE: usize = 24;

// The line of a round of a process, and of transport block `number`.
pub(crate) fn round_line(
    ready: &Ready,
    process: u32,
    number: u32,
    sender: &Sender,
    summary: &Option<RxSummary>,
) -> Result<Vec<u8>, AllocError>
    ensures { IfOk result (λ line. (list : List Reception) → HoldsSummary sender.now.link list summary.now
        → line.items ≡ head_of ready.now.schedule.now.by_process process ++ outcome_line number sender.now.link list) }
{
    if !ready.schedule.by_process {
        return outcome_line(ready.alloc, number, sender, summary);
    }
    let mut line = process_words(ready.alloc, process)?.into_bytes();
    line.extend_from_slice(&outcome_line(ready.alloc, number, sender, summary)?)?;
    Ok(line)
}

// The lines of the code blocks after a transmission, in one text: to write each by itself takes longer than to make it.
pub(crate) fn left_lines(
    alloc: Global,
    transmission: &Transmission,
    receiver: &Receiver<'_, Unrecorded>,
) -> Result<Vec<u8>, AllocError>
    ensures { IfOk result (λ lines. lines.items ≡ left_lines transmission.now.number transmission.now.block
        receiver.now.link receiver.now.heard) }
{
    let (number, block) = (transmission.number, transmission.block);
    let blocks = receiver.plan().c;
    let mut lines = String::with_capacity(alloc, LEFT_LINE * blocks as usize)?;
    for r in 0..blocks {
        writeln!(lines, "left {number} {block} {r} {}", receiver.left(r))?;
    }
    Ok(lines.into_bytes())
}

// The line of transport block `number`.
fn outcome_line(
    alloc: Global,
    number: u32,
    sender: &Sender,
    summary: &Option<RxSummary>,
) -> Result<Vec<u8>, AllocError>
    ensures { IfOk result (λ line. (list : List Reception) → HoldsSummary sender.now.link list summary.now
        → line.items ≡ outcome_line number sender.now.link list) }
{
    laws::nothing_is_open();
    sender.is_sound();
    let blocks = sender.plan().c;
    match summary {
        None => open_line(alloc, number, 0, blocks, blocks),
        Some(summary) => match &summary.outcome {
            Outcome::Delivered(block) => delivered_line(
                alloc,
                number,
                summary.count,
                blocks,
                block,
            ),
            Outcome::Open => open_line(alloc, number, summary.count, summary.failed, blocks),
            Outcome::Contradiction => contradiction_line(alloc, number, summary.count, blocks),
        },
    }
}

// The line of transport block `number` of so many code blocks, which is delivered after so many transmissions.
fn delivered_line(
    alloc: Global,
    number: u32,
    count: u64,
    blocks: u32,
    block: &Bits,
) -> Result<Vec<u8>, AllocError>
    ensures { IfOk result
        (λ line. line.items ≡ delivered_line number count blocks block.now.items) }
{
    let mut head = String::new(alloc);
    write!(
        head,
        "block {number} delivered tx {count} failed 0 of {blocks} "
    )?;
    hex_line(head, block)
}

// The line of transport block `number` of so many code blocks, which is open after so many transmissions.
fn open_line(
    alloc: Global,
    number: u32,
    count: u64,
    failed: u32,
    blocks: u32,
) -> Result<Vec<u8>, AllocError>
    ensures { IfOk result (λ line. line.items ≡ open_line number count failed blocks) }
{
    let mut line = String::new(alloc);
    writeln!(
        line,
        "block {number} open tx {count} failed {failed} of {blocks}"
    )?;
    Ok(line.into_bytes())
}

// The line of transport block `number` of so many code blocks, which nothing explains after so many transmissions.
#[tactic(auto, unfolding(crate::specs::RunLines::contradiction_line))]
fn contradiction_line(
    alloc: Global,
    number: u32,
    count: u64,
    blocks: u32,
) -> Result<Vec<u8>, AllocError>
    ensures { IfOk result (λ line. line.items ≡ contradiction_line number count blocks) }
{
    let mut line = String::new(alloc);
    writeln!(
        line,
        "block {number} contradiction tx {count} failed 0 of {blocks}"
    )?;
    Ok(line.into_bytes())
}

// The last line: how so many blocks or rounds end.
pub(crate) fn last_line(alloc: Global, name: &str, totals: &Totals) -> Result<Vec<u8>, AllocError>
    ensures { IfOk result (λ line. line.items ≡ last_line name.now totals.now) }
{
    let mut line = String::new(alloc);
    write!(
        line,
        "total {name} {} delivered {} open {}",
        totals.blocks, totals.delivered, totals.open_still
    )?;
    writeln!(
        line,
        " contradiction {} codeblocks {} failed {}",
        totals.contradiction, totals.code_blocks, totals.failed
    )?;
    Ok(line.into_bytes())
}
