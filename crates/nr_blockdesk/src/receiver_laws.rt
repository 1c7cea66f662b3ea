//! Laws of receptions and their outcome, stated as contracts of empty functions.

ghost use Rattle.nr_blockdesk.specs.OutcomeLaws.{OutcomesAreExact, OutcomesSettle};
ghost use Rattle.nr_blockdesk.specs.PlacesLaws.{ErasuresDecide, PlacesDecide, PositionsDecide};
ghost use Rattle.nr_blockdesk.specs.ReceiverLaws.{
  DecidedIsOnly,
  DeliveredIsOnly,
  EndsAreSafe,
  ErasuresAreSafe,
  ExplainedIsDelivered,
  ExplainedNeverContradicts,
  ExplainersAgree,
  ExplainsByRecord,
  NothingIsOpen,
  NothingLeavesAll,
  OneExplains,
  OutcomesAreDecided,
  RecordsContinue,
};

use crate::laws;

/// Law: which transport blocks explain all that arrived can be read off the record of the first bit received at each
/// position.
#[tactic(auto, using(crate::proofs::RecordFacts::explains_by_record))]
pub fn explains_by_record()
    ensures { ExplainsByRecord }
{
    laws::accepted_are_matched();
    laws::sent_bits_are_at();
    laws::fits_by_record();
}

/// Law: take the record of a list of receptions. What one more reception makes of it is the record of the longer list.
pub fn records_continue()
    ensures { RecordsContinue }
{
    laws::accepted_are_matched();
    laws::sent_bits_are_at();
    laws::record_continues();
}

/// Law: two transport blocks that explain all that arrived have the same bits in their codewords wherever a position is
/// fixed. The parity rows fix it from what was received, applied one unknown at a time.
#[tactic(auto, using(crate::proofs::ClosureDecisionFacts::explainers_agree))]
pub fn explainers_agree()
    ensures { ExplainersAgree }
{
    laws::checks_are_sound();
    laws::words_agree_on_closure();
    laws::words_are_plain();
    explains_by_record();
}

/// Law: if every position below K' is fixed, at most one transport block explains all that arrived.
pub fn one_explains()
    ensures { OneExplains }
{
    laws::attachment_lengthens();
    laws::join_undoes_cut();
    laws::code_blocks_are_long();
    laws::words_are_plain();
    explainers_agree();
}

/// Law: a record decides one outcome, whether some list of receptions has it or not.
pub fn decided_is_only()
    ensures { DecidedIsOnly }
{
    laws::attachment_lengthens();
    laws::join_undoes_cut();
    laws::code_blocks_are_long();
    laws::words_are_plain();
    laws::checks_are_sound();
    laws::words_agree_on_closure();
}

/// Law: the outcome of a list of receptions is what its record decides.
#[tactic(auto, using(crate::proofs::OutcomeFacts::outcomes_decided))]
pub fn outcomes_are_decided()
    ensures { OutcomesAreDecided }
{
    explains_by_record();
}

/// Law: what is delivered is a transport block that explains all that arrived, and the only one.
pub fn delivered_is_only()
    ensures { DeliveredIsOnly }
{
    one_explains();
}

/// Law: if every position below K' is fixed, the transport block that explains all that arrived is delivered.
#[tactic(auto, using(crate::proofs::OutcomeFacts::explained_delivered))]
pub fn explained_is_delivered()
    ensures { ExplainedIsDelivered }
{
    one_explains();
}

/// Law: if a transport block explains all that arrived, the outcome is no contradiction.
#[tactic(auto, using(crate::proofs::OutcomeFacts::never_contradicts))]
pub fn explained_never_contradicts()
    ensures { ExplainedNeverContradicts }
{}

/// Law: over a link that only erases the outcome is no contradiction, and what is delivered is the transport block
/// sent.
#[tactic(auto, using(crate::proofs::OutcomeFacts::erasures_safe))]
pub fn erasures_are_safe()
    ensures { ErasuresAreSafe }
{
    one_explains();
}

/// Law: with nothing received the outcome is open.
#[tactic(auto, using(crate::proofs::OutcomeFacts::nothing_open))]
pub fn nothing_is_open()
    ensures { NothingIsOpen }
{
    laws::nothing_heard_fixes_nothing();
    laws::plans_are_sound();
}

/// Law: with nothing received all K' positions of each code block are left.
pub fn nothing_leaves_all()
    ensures { NothingLeavesAll }
{
    laws::nothing_heard_fixes_nothing();
    laws::plans_are_sound();
}

/// Law: what `Sender::new` and `Receiver::new` return for one table, one setting and blocks of one size are two ends of
/// one link. The receiver takes all that arrives of the sender's transmissions. Over a link that only erases, what is
/// delivered is the sender's transport block, and there is no contradiction.
pub fn ends_are_safe()
    ensures { EndsAreSafe }
{
    laws::links_are_sound();
    laws::accepted_send_all();
    erasures_are_safe();
}

/// Law: a transport block is delivered exactly if every position below K' is fixed and it explains all that arrived.
/// The outcome is open exactly if some position below K' is not fixed. It is a contradiction exactly if all are
/// fixed and no transport block explains all that arrived.
pub fn outcomes_are_exact()
    ensures { OutcomesAreExact }
{
    laws::accepted_are_matched();
    laws::sent_bits_are_at();
    delivered_is_only();
    explained_is_delivered();
}

/// Law: with more receptions an outcome is never open again, a contradiction stays one, and a delivered transport block
/// is delivered again or contradicted.
#[tactic(auto, using(crate::proofs::OutcomeExactFacts::outcomes_settle))]
pub fn outcomes_settle()
    ensures { OutcomesSettle }
{
    laws::closure_is_monotone();
    delivered_is_only();
    outcomes_are_exact();
}

/// Law: the received positions alone decide how many positions are left of each code block, and whether the outcome is
/// open. Their bits do not.
pub fn positions_decide()
    ensures { PositionsDecide }
{}

/// Law: over a link that only erases, the transmissions and the erased places alone decide how many positions are left.
/// They also decide whether the outcome is open, and whether the transport block sent is delivered. So what one transport
/// block shows is true for each.
pub fn places_decide()
    ensures { PlacesDecide }
{
    laws::sent_is_long();
    explained_is_delivered();
}

/// Law: of two lists of the same transmissions, erased at the same places, as many positions are left. One outcome is open
/// exactly if the other is, whatever bits were received.
pub fn erasures_decide()
    ensures { ErasuresDecide }
{}
