//! A receiver that goes on from stores by one transmission.

ghost use Rattle.std.specs.Prelude.{◌≡◌, ◌++◌, ◌∷◌, [], List, map, IfOk};
ghost use Rattle.nr_refusal.specs.Refusal.{with_fault};
ghost use Rattle.nr_blockdesk.specs.Explains.{Reception, reception, reception_said};
ghost use Rattle.nr_blockdesk.specs.{Heard.IsRecordOf, Heard.heard_more, Outcome.IsDecided, Outcome.outcome_of};
ghost use Rattle.nr_blockdesk.specs.Receiving.{AreStoresFor, RefusesAs, verdict};
ghost use Rattle.nr_calls.specs.Receiving.{heard_octet};

use crate::fault::Fault;
use crate::linking::judge_heard;
use crate::marks::marks_of;
use nr_blockdesk::{DeskFault, Link, Outcome, Receiver, Tx, Unrecorded};
use nr_harqbuf::Store;
use std::alloc::Global;

// The receiver over a link that goes on from some stores by one transmission, and its outcome.
pub(crate) fn resumed<'t>(
    alloc: Global,
    link: Link<'t>,
    stores: Vec<Store>,
    tx: &Tx,
    octets: &[u8],
) -> Result<(Receiver<'t, Unrecorded>, Outcome), Fault>
    requires { AreStoresFor link stores.items }
    ensures refused { RefusesAs Fault.Memory result (with_fault Fault.Desk
        (reception_said link.entry (reception tx.now (map heard_octet octets.now)))) }
    ensures link { IfOk result (λ made. made.0.link ≡ link.entry) }
    ensures kept { IfOk result (λ made. made.0.heard
        ≡ heard_more made.0.link stores.items (reception tx.now (map heard_octet octets.now))) }
    ensures decided { IfOk result (λ made. IsDecided made.0.link made.0.heard (verdict made.1)) }
    ensures outcome { IfOk result (λ made. (list : List Reception)
        → IsRecordOf made.0.link list stores.items → verdict made.1 ≡ outcome_of made.0.link
        (list ++ reception tx.now (map heard_octet octets.now) ∷ [])) }
{
    judge_heard(&link, tx, octets.len())?;
    let marks = marks_of(alloc, octets)?;
    match Receiver::resume(alloc, link, stores, tx, &marks) {
        Ok(made) => Ok(made),
        Err(DeskFault::Memory) => Err(Fault::Memory),
        Err(fault) => Err(Fault::Desk(fault)),
    }
}
