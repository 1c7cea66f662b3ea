//! How the transport blocks of a run, or its rounds, end: their lines and the totals.

ghost use Rattle.std.specs.Prelude.{IfOk, IfSome, List, [], Some, false, if◌then◌else◌, length, ℕ, ◌+◌, ◌-◌};
ghost use Rattle.std.specs.Prelude.{◌++◌, ◌<◌, ◌^◌, ◌≡◌, ◌≤◌};
ghost use Rattle.nr_refusal.specs.Refusal.{FailsAs};
ghost use Rattle.nr_blockdesk.specs.Explains.{Reception};
ghost use Rattle.nr_commands.specs.Command.{Writes};
ghost use Rattle.nr_files.specs.declared.schedule.Transmission.{Transmission};
ghost use Rattle.nr_linkcommands.specs.inside.Ends.{HoldsRound, HoldsSummary, IsWithin, totals_with};
ghost use Rattle.nr_linkcommands.specs.inside.Walks.{round_text};
ghost use Rattle.nr_linkcommands.specs.RunText.{End, round_end, run_words, totals_of};

use super::lines::round_line;
use super::slot::{RxSummary, Slot};
use crate::laws;
use crate::ready::Ready;
use nr_blockdesk::{Outcome, Sender};
use nr_commands::{RunFault, put_line};
use nr_streams::Sink;

/// Counts of how transport blocks end.
#[derive(Clone, Copy, Debug, PartialEq, Eq)]
pub struct Totals {
    /// All transport blocks.
    pub blocks: u64,
    /// Those that are delivered.
    pub delivered: u64,
    /// Those that are open, that is, undecided.
    pub open_still: u64,
    /// Those that are a contradiction: no block is consistent with what was received.
    pub contradiction: u64,
    /// Their code blocks.
    pub code_blocks: u64,
    /// The code blocks of open transport blocks that have an unknown position below K'.
    pub failed: u64,
}

/// Returns the totals before any transport block or round has ended.
pub fn no_totals() -> Totals
    ensures value { result ≡ totals_of [] }
    ensures none { IsWithin 0 result }
{
    Totals {
        blocks: 0,
        delivered: 0,
        open_still: 0,
        contradiction: 0,
        code_blocks: 0,
        failed: 0,
    }
}

/// Returns the totals with one more transport block or round.
pub fn counted(totals: Totals, sender: &Sender, summary: &Option<RxSummary>) -> Totals
    requires few { IsWithin 65535 totals }
    ensures value { (list : List Reception) → HoldsSummary sender.now.link list summary.now
        → result ≡ totals_with totals sender.now.link list }
    ensures grows { (n : ℕ) → IsWithin n totals → IsWithin (n + 1) result }
{
    laws::nothing_is_open();
    sender.is_sound();
    let code_blocks = u64::from(sender.plan().c);
    let totals = Totals {
        blocks: totals.blocks + 1,
        code_blocks: totals.code_blocks + code_blocks,
        ..totals
    };
    match summary {
        None => Totals {
            open_still: totals.open_still + 1,
            failed: totals.failed + code_blocks,
            ..totals
        },
        Some(summary) => match summary.outcome {
            Outcome::Delivered(_) => Totals {
                delivered: totals.delivered + 1,
                ..totals
            },
            Outcome::Open => {
                let failed = summary.failed;
                Totals {
                    open_still: totals.open_still + 1,
                    failed: totals.failed + u64::from(failed),
                    ..totals
                }
            }
            Outcome::Contradiction => Totals {
                contradiction: totals.contradiction + 1,
                ..totals
            },
        },
    }
}

// Writes the line of the round that a process's slot is in, and counts it, if it is in one.
pub(crate) fn write_round_end<O: Sink>(
    ready: &Ready,
    process: u32,
    slot: &Slot,
    totals: Totals,
    out: &mut O,
) -> Result<Totals, RunFault>
    requires puts { O.failures out.old < 2 ^ 32 }
    requires placed { process < 2 ^ 32 - 1 }
    requires named { IfSome (if ready.now.schedule.now.by_process then slot.now.block else Some (process + 1))
        (λ number. (1 ≤ number) × (number ≤ length ready.now.senders.items)) }
    requires few { IsWithin 65535 totals }
    ensures text { (round : List Transmission)
        → HoldsRound false ready.now.schedule.now.by_process process ready.now.senders.items round slot.now
        → Writes (O.written out.old) (O.written out.new) result (round_text run_words ready.now process round) }
    ensures totals { IfOk result (λ t. (ends : List End) (round : List Transmission)
        → HoldsRound false ready.now.schedule.now.by_process process ready.now.senders.items round slot.now
        → totals ≡ totals_of ends
        → t ≡ totals_of (ends ++ round_end ready.now.schedule.now.by_process ready.now.senders.items process round)) }
    ensures grows { IfOk result (λ t. (n : ℕ) → IsWithin n totals → IsWithin (n + 1) t) }
    ensures put { FailsAs RunFault.Write result (O.failures out.old) (O.failures out.new) }
{
    match ready.block_of(process, slot.block) {
        None => Ok(totals),
        Some(number) => {
            let sender = &ready.senders[number as usize - 1];
            put_line(
                out,
                round_line(ready, process, number, sender, &slot.summary),
            )?;
            Ok(counted(totals, sender, &slot.summary))
        }
    }
}
