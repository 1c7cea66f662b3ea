//! Which round each HARQ process is in after some transmissions, and whether later ones continue it. A round is what a
//! process receives from one new-data indicator to the next. `Earlier` keeps the rounds while the records of a schedule
//! are read.

ghost use Rattle.std.specs.Prelude.{◌≡◌, ◌==◌, ◌&&◌, if◌then◌else◌, Some};
ghost use Rattle.std.specs.Option.{option_or};
ghost use Rattle.nr_files.specs.Rounds.{BlocksAreRounds, first_block, goes_on, of_process, round_of};

mod earlier;

use crate::schedule::Transmission;
pub(crate) use earlier::Earlier;

/// The round that a process is in after some transmissions.
#[derive(Drop)]
pub struct Round<'s> {
    /// The transport block that its first transmission names, or `None` if the process has no round.
    pub block: Option<u32>,
    /// The transmissions from its beginning on, those of other processes included.
    pub transmissions: &'s [Transmission],
}

/// Returns the round that a process is in after these transmissions. If none of them has new data for the process, the
/// round begins with the first of them.
pub fn round_of(process: u32, before: &[Transmission]) -> Round<'_>
    ensures block { result.block ≡ first_block (round_of process before.now) }
    ensures transmissions { of_process process result.transmissions.now ≡ round_of process before.now }
{
    let mut begun = (0, None);
    for (index, transmission) in before.iter().enumerate() {
        begun = next_begun(process, transmission, index, begun);
    }
    Round {
        block: begun.1,
        transmissions: &before[begun.0..],
    }
}

// Where the round begins and its block, after the transmission at this index.
fn next_begun(
    process: u32,
    transmission: &Transmission,
    index: usize,
    begun: (usize, Option<u32>),
) -> (usize, Option<u32>)
    ensures start { result.0 ≡ (if (transmission.now.process == process) && transmission.now.fresh
        then index else begun.0) }
    ensures block { result.1 ≡ (if transmission.now.process == process
        then (if transmission.now.fresh then Some transmission.now.block
        else option_or begun.1 (Some transmission.now.block)) else begun.1) }
{
    if transmission.process != process {
        return begun;
    }
    if transmission.fresh {
        return (index, Some(transmission.block));
    }
    (begun.0, begun.1.or(Some(transmission.block)))
}

/// Returns whether one of these later transmissions continues the round that a process is in.
///
/// The search ends at the next transmission of the process. If it is called after each transmission of a schedule, it
/// visits each of them at most once per process.
pub fn goes_on(process: u32, later: &[Transmission]) -> bool
    ensures { result ≡ goes_on process later.now }
{
    for transmission in later {
        if transmission.process == process {
            return !transmission.fresh;
        }
    }
    false
}

/// Law: if a schedule names no processes, the round of process n is all transmissions of block n + 1.
pub fn blocks_are_rounds()
    ensures { BlocksAreRounds }
{}
