//! Laws of closures and of what shows them, stated as contracts of empty functions.

ghost use Rattle.nr_peel.specs.Laws.{
  ChecksAreSound,
  ClosureContinues,
  ClosureIsMonotone,
  LeftOverIsStopping,
  NothingHeardFixesNothing,
  StepsStayInClosure,
  StoppingSetsStayOut,
  WordsAgreeOnClosure,
};
ghost use Rattle.nr_peel.specs.Slices.{SkippedRowsAddNothing};

/// Law: a larger set has a larger closure, so a position that was fixed once stays fixed.
#[tactic(auto, using(crate::proofs::ClosureFacts::closure_monotone))]
pub fn closure_is_monotone()
    ensures { ClosureIsMonotone }
{}

/// Law: to close a set, add to it and close it again is to add first and close once. So peeling may go on from
/// transmission to transmission.
#[tactic(auto, using(crate::proofs::ClosureFacts::closure_continues))]
pub fn closure_continues()
    ensures { ClosureContinues }
{}

/// Law: two words that meet every row and agree on a set agree on its closure.
#[tactic(auto, using(crate::proofs::CodewordFacts::words_agree))]
pub fn words_agree_on_closure()
    ensures { WordsAgreeOnClosure }
{}

/// Law: no member of a stopping set is in the closure.
#[tactic(auto, using(crate::proofs::CodewordFacts::stopping_stays_out))]
pub fn stopping_sets_stay_out()
    ensures { StoppingSetsStayOut }
{}

/// Law: what the closure leaves out is a stopping set, and so the largest.
#[tactic(auto, using(crate::proofs::CodewordFacts::left_over_stops))]
pub fn left_over_is_stopping()
    ensures { LeftOverIsStopping }
{}

/// Law: accepted steps lead to positions of the closure.
#[tactic(auto, using(crate::proofs::FixOrderFacts::steps_stay))]
pub fn steps_stay_in_closure()
    ensures { StepsStayInClosure }
{}

/// Law: the parity checks of an accepted table are sound, for each lifting size.
#[tactic(auto, using(crate::proofs::TableGridFacts::checks_sound))]
pub fn checks_are_sound()
    ensures { ChecksAreSound }
{}

/// Law: with nothing heard no position below K' is fixed.
pub fn nothing_heard_fixes_nothing()
    ensures { NothingHeardFixesNothing }
{}

/// Law: rows of blocks may be left out where a set has no position of their own columns.
pub fn skipped_rows_add_nothing()
    ensures { SkippedRowsAddNothing }
{}
