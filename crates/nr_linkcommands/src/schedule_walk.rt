//! How a command follows a schedule by its processes: HARQ processes, or one for each transport block. A transmission
//! first ends the round before it, if it begins a new one, and the rounds that no transmission ends come last.

ghost use Rattle.std.specs.Prelude.{Bool, List, OnOk, [], ◌∷◌, ◌++◌, false, if◌then◌else◌, length, ◌<◌};
ghost use Rattle.std.specs.Prelude.{◌^◌, ◌≡◌, ◌≤◌};
ghost use Rattle.nr_commands.specs.Command.{Writes};
ghost use Rattle.nr_refusal.specs.Refusal.{FailsAs};
ghost use Rattle.nr_files.specs.{Rounds.goes_on, Rounds.round_continued, Rounds.round_of, Schedule.HasBlock, Schedule.IsPlaced};
ghost use Rattle.nr_files.specs.declared.schedule.Transmission.{Transmission};
ghost use Rattle.nr_linkcommands.specs.RoundTexts.{ProcessRound, Words, ended_with, rounds_ended, rounds_of};
ghost use Rattle.nr_linkcommands.specs.inside.Walks.{AreScheduled, HasProcess, last_text, round_text, scheduled, transmission_text};
ghost use Rattle.nr_linkcommands.specs.{declared.ready.Ready.Ready, inside.Ends.IsOfRound, inside.Walks.turns_text};

use crate::ready::Ready;
use nr_commands::RunFault;
use nr_files::Transmission;
use nr_streams::Sink;

/// What a command does with transmissions and rounds, and what it keeps from one to the next.
pub(crate) trait Walk<'t> {
    /// What the command writes for a schedule that names processes, and for one that names none.
    ghost words: { Bool → Words };

    /// What is kept between these transmissions, of which these rounds have ended, and the later ones.
    ghost Keeps: { Self → Ready → List Transmission → List Transmission → List ProcessRound → Type 0 };

    /// Ends the round that a process is in after these transmissions, if it is in one, and writes its lines.
    ///
    /// # Errors
    ///
    /// `Write` if a put failed, or `Memory` if memory runs out. A first part of the lines is written then.
    fn end_round<O: Sink>(
        &mut self,
        ready: &Ready<'t>,
        process: u32,
        before: &[Transmission],
        out: &mut O,
    ) -> Result<(), RunFault>
        requires puts { O.failures out.old < 2 ^ 32 }
        requires scheduled { AreScheduled ready.now before.now }
        requires placed { HasProcess ready.now process }
        requires keeps { (later : List Transmission) × (ended : List ProcessRound)
            × (length ended ≤ 65535) × (goes_on process later ≡ false)
            × Keeps self.old ready.now before.now later ended }
        ensures text { Writes (O.written out.old) (O.written out.new) result
            (round_text words ready.now process (round_of process before.now)) }
        ensures keeps { OnOk result ((later : List Transmission) (ended : List ProcessRound)
            → Keeps self.old ready.now before.now later ended
            → Keeps self.new ready.now before.now later (ended ++ (process, round_of process before.now) ∷ [])) }
        ensures put { FailsAs RunFault.Write result (O.failures out.old) (O.failures out.new) };

    /// Makes a transmission, which continues or begins the round of its process, and writes its lines. `later`, the
    /// transmissions after it, decide which rounds continue.
    ///
    /// # Errors
    ///
    /// `Write` if a put failed, or `Memory` if memory runs out. A first part of the lines is written then.
    fn transmit<O: Sink>(
        &mut self,
        ready: &Ready<'t>,
        transmission: &Transmission,
        later: &[Transmission],
        out: &mut O,
    ) -> Result<(), RunFault>
        requires puts { O.failures out.old < 2 ^ 32 }
        requires named { HasBlock (length ready.now.senders.items) transmission.now }
        requires placed { IsPlaced ready.now.schedule.now.by_process transmission.now }
        requires keeps { (before : List Transmission) × (ended : List ProcessRound)
            × (length before ≤ 4096) × IsOfRound (round_continued before transmission.now) transmission.now
            × Keeps self.old ready.now before (transmission.now ∷ later.now) ended }
        ensures text { (before : List Transmission) (ended : List ProcessRound)
            → IsOfRound (round_continued before transmission.now) transmission.now
            → Keeps self.old ready.now before (transmission.now ∷ later.now) ended
            → Writes (O.written out.old) (O.written out.new) result
            (transmission_text words ready.now (round_continued before transmission.now) transmission.now) }
        ensures keeps { OnOk result ((before : List Transmission) (ended : List ProcessRound)
            → IsOfRound (round_continued before transmission.now) transmission.now
            → Keeps self.old ready.now before (transmission.now ∷ later.now) ended
            → Keeps self.new ready.now (before ++ transmission.now ∷ []) later.now ended) }
        ensures put { FailsAs RunFault.Write result (O.failures out.old) (O.failures out.new) };
}

/// Makes the transmissions of a schedule, each after the round that it ends, and writes the lines of both.
///
/// # Errors
///
/// `Write` if a put failed, or `Memory` if memory runs out. A first part of the lines is written then.
pub(crate) fn follow<'t, W: Walk<'t>, O: Sink>(
    ready: &Ready<'t>,
    walk: &mut W,
    out: &mut O,
) -> Result<(), RunFault>
    requires puts { O.failures out.old < 2 ^ 32 }
    requires nothing { W.Keeps walk.old ready.now [] (scheduled ready.now) [] }
    ensures text { Writes (O.written out.old) (O.written out.new) result
        (turns_text W.words ready.now [] (scheduled ready.now)) }
    ensures keeps { OnOk result (W.Keeps walk.new ready.now (scheduled ready.now) [] (rounds_ended [] (scheduled ready.now))) }
    ensures put { FailsAs RunFault.Write result (O.failures out.old) (O.failures out.new) }
{
    let schedule = ready.schedule.transmissions.as_slice();
    for (index, transmission) in schedule.iter().enumerate() {
        let before = &schedule[..index];
        end_before(ready, before, transmission, walk, out)?;
        walk.transmit(ready, transmission, &schedule[index + 1..], out)?;
    }
    Ok(())
}

// Ends the round of a transmission's process, if it is fresh.
fn end_before<'t, W: Walk<'t>, O: Sink>(
    ready: &Ready<'t>,
    before: &[Transmission],
    transmission: &Transmission,
    walk: &mut W,
    out: &mut O,
) -> Result<(), RunFault>
    requires puts { O.failures out.old < 2 ^ 32 }
    requires scheduled { AreScheduled ready.now before.now }
    requires placed { HasProcess ready.now transmission.now.process }
    requires keeps { (later : List Transmission) × (ended : List ProcessRound)
        × (length ended ≤ 65535) × W.Keeps walk.old ready.now before.now (transmission.now ∷ later) ended }
    ensures text { Writes (O.written out.old) (O.written out.new) result
        (if transmission.now.fresh
        then round_text W.words ready.now transmission.now.process (round_of transmission.now.process before.now)
        else []) }
    ensures keeps { OnOk result ((later : List Transmission) (ended : List ProcessRound)
        → W.Keeps walk.old ready.now before.now later ended
        → W.Keeps walk.new ready.now before.now later (ended ++ ended_with before.now transmission.now)) }
    ensures put { FailsAs RunFault.Write result (O.failures out.old) (O.failures out.new) }
{
    if !transmission.fresh {
        return Ok(());
    }
    walk.end_round(ready, transmission.process, before, out)
}

/// Ends the rounds that no transmission ends, in the order of their processes, and writes their lines.
///
/// # Errors
///
/// `Write` if a put failed, or `Memory` if memory runs out. A first part of the lines is written then.
pub(crate) fn end_all<'t, W: Walk<'t>, O: Sink>(
    ready: &Ready<'t>,
    walk: &mut W,
    out: &mut O,
) -> Result<(), RunFault>
    requires puts { O.failures out.old < 2 ^ 32 }
    requires keeps { W.Keeps walk.old ready.now (scheduled ready.now) [] (rounds_ended [] (scheduled ready.now)) }
    ensures text { Writes (O.written out.old) (O.written out.new) result (last_text W.words ready.now) }
    ensures keeps { OnOk result (W.Keeps walk.new ready.now (scheduled ready.now) []
        (rounds_of ready.now.schedule.now.by_process (length ready.now.senders.items) (scheduled ready.now))) }
    ensures put { FailsAs RunFault.Write result (O.failures out.old) (O.failures out.new) }
{
    let schedule = ready.schedule.transmissions.as_slice();
    for process in 0..ready.process_count() {
        walk.end_round(ready, process, schedule, out)?;
    }
    Ok(())
}
