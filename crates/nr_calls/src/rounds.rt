//! The result of rounds over drawn erasures, and what they rest on.

ghost use Rattle.std.specs.Prelude.{◌≡◌, ◌<◌, ◌≤◌, Err, Ok, sum, length, IfOk, MatchResult};
ghost use Rattle.nr_ratematch.specs.Lengths.{IsShared};
ghost use Rattle.nr_refusal.specs.Refusal.{with_fault};
ghost use Rattle.nr_blockdesk.specs.{PlacesLaws.ErasuresDecide, ReceiverLaws.ErasuresAreSafe, Sent.AcceptedSendAll, Sent.tx_said};

use crate::fault::Fault;
use crate::laws;
use arrayvec::ArrayVec;
use nr_blockdesk::{Link, Tx};
use nr_ratematch::MOST_BLOCKS;

// The result of rounds: after how many transmissions each is delivered. It has also, for each transmission of each round,
// what is left of each code block and how many of its places are erased.
#[derive(Drop)]
pub(crate) struct Rounds {
    pub(crate) delivered: Vec<u32>,
    pub(crate) left: Vec<u32>,
    pub(crate) erased: Vec<u32>,
}

// The laws that rounds rest on.
pub(crate) fn laws_of_rounds()
    ensures all { AcceptedSendAll }
    ensures decide { ErasuresDecide }
    ensures safe { ErasuresAreSafe }
{
    laws::accepted_send_all();
    laws::erasures_decide();
    laws::erasures_are_safe();
}

// E_r of each code block, or the first fault of a transmission.
pub(crate) fn shares_of(link: &Link<'_>, tx: &Tx) -> Result<ArrayVec<u32, MOST_BLOCKS>, Fault>
    ensures said { MatchResult result
        (λ shares. with_fault Fault.Desk (tx_said link.now tx.now) ≡ Ok shares.items)
        (λ fault. with_fault Fault.Desk (tx_said link.now tx.now) ≡ Err fault) }
    ensures few { IfOk result (λ shares. tx.now.g ≤ 4194304) }
    ensures counted { IfOk result (λ shares. length shares.items ≡ link.now.plan.c) }
    ensures together { IfOk result (λ shares. sum shares.items ≡ tx.now.g) }
    ensures version { IfOk result (λ shares. tx.now.rv < 4) }
    ensures order { IfOk result (λ shares. tx.now.qm ≤ 8) }
    ensures shared { IfOk result (λ shares. IsShared link.now.plan.c tx.now.g tx.now.qm shares.items) }
{
    match link.lengths(tx) {
        Ok(shares) => Ok(shares),
        Err(fault) => Err(Fault::Desk(fault)),
    }
}
