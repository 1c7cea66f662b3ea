//! Laws about runs, stated as contracts of empty functions.

ghost use Rattle.nr_linkcommands.specs.{RoundTexts.LinesAreOwn, SafeRuns.ErasuresAloneAreSafe, SafeRuns.RunsAreSafe};
ghost use Rattle.nr_linkcommands.specs.RoundCalls.{RoundsAreCalls};

use crate::laws;

/// Law: the lines that a command writes about a process depend on that process alone. They are those of a schedule that
/// has only its own transmissions, with their numbers.
pub fn lines_are_own()
    ensures { LinesAreOwn }
{}

/// Law: transmissions of a sender's transport block over a link that only erases never end as a contradiction. What is
/// delivered is that block, and it is delivered as soon as every position below K' is recovered.
pub fn erasures_alone_are_safe()
    ensures { ErasuresAloneAreSafe }
{
    laws::links_are_sound();
    laws::accepted_send_all();
    laws::delivered_is_only();
    laws::explained_is_delivered();
    laws::explained_never_contradicts();
}

/// Law: if no transmission of a schedule flips a bit, the same holds for each transport block and each round.
pub fn runs_are_safe()
    ensures { RunsAreSafe }
{
    erasures_alone_are_safe();
}

/// Law: the calls on HARQ processes that the transmissions of a schedule stand for leave each process in the round that
/// the schedule gives.
pub fn rounds_are_calls()
    ensures { RoundsAreCalls }
{
    laws::accepted_send_all();
}
