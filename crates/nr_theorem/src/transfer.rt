//! A transport block on its way: what is sent of it, and what a receiver delivers of what arrives.

ghost use Rattle.std.specs.Prelude.{◌≡◌, IfOk, OnErr, Ok};
ghost use Rattle.nr_refusal.specs.Refusal.{Gives};
ghost use Rattle.nr_blockdesk.specs.Receiving.{Takes};
ghost use Rattle.nr_theorem.specs.Theorem.{Promises, answer_said};

use crate::laws;
use nr_bitvec::Bits;
use nr_blockdesk::{DeskFault, Heard, Outcome, Receiver, Sender, Settings, Tx};
use nr_shifttable::Table;
use std::alloc::Global;
use std::marker::Model;

/// One transmission of a transport block, and what arrived of it.
#[derive(Drop)]
pub struct Arrival {
    /// How the block is sent.
    pub tx: Tx,
    /// What arrived for each of the G bits sent: the bit itself, the other bit, or nothing, if it was erased.
    pub heard: Vec<Heard>,
}

impl Model for Arrival {
    ghost use Rattle.nr_blockdesk.specs.Explains.{Reception};

    ghost Value = { Reception };

    ghost view = { λ x. record { tx = x.tx; heard = x.heard.items } };
}

/// What was sent of a transport block, and what the receiver makes of all that arrived.
#[derive(Drop)]
pub struct Carried {
    /// The bits that each transmission sends, or the error for which it was rejected.
    pub answers: Vec<Result<Bits, DeskFault>>,
    /// The outcome after the last transmission. A rejected transmission has no part in it.
    pub outcome: Outcome,
}

impl Model for Carried {
    ghost use Rattle.std.specs.Prelude.{map};
    ghost use Rattle.nr_blockdesk.specs.Receiving.{verdict};
    ghost use Rattle.nr_theorem.specs.Theorem.{CarriedView, bits_in};

    ghost Value = { CarriedView };

    ghost view = { λ x. record {
      answers = map bits_in x.answers.items;
      verdict = verdict x.outcome;
    } };
}

/// Sends a transport block once for each arrival and receives what arrived, in turn. A transmission is rejected if it breaks a
/// rule of TS 38.212, or if `heard` does not have G places. Its error then takes the place of its bits, the receiver stays as
/// it was, and the next transmission follows.
///
/// # Errors
///
/// The first error of the block that `Sender::new` lists, or `Memory` as soon as memory runs out.
pub fn carry(
    alloc: Global,
    table: &Table,
    settings: Settings,
    block: &Bits,
    arrivals: &[Arrival],
) -> Result<Carried, DeskFault>
    ensures theorem { Promises table.now settings block.now.items arrivals.now result }
{
    laws::words_are_plain();
    laws::nothing_is_open();
    laws::outcomes_are_exact();
    laws::delivered_is_only();
    laws::explained_never_contradicts();
    let sender = Sender::new(alloc, table, settings, block)?;
    sender.is_sound();
    let mut receiver = Receiver::new(alloc, table, settings, block.len() as u32)?;
    let mut answers = Vec::with_capacity(alloc, arrivals.len())?;
    let mut outcome = Outcome::Open;
    for arrival in arrivals {
        match exchange(&sender, &mut receiver, arrival) {
            Ok((bits, now)) => {
                answers.push_reserved(Ok(bits));
                outcome = now;
            }
            Err(fault) => match fault {
                DeskFault::Memory => return Err(fault),
                _ => answers.push_reserved(Err(fault)),
            },
        }
    }
    Ok(Carried { answers, outcome })
}

// Sends one transmission, and receives what arrived of it. Returns its bits and the outcome.
fn exchange(
    sender: &Sender<'_>,
    receiver: &mut Receiver<'_>,
    arrival: &Arrival,
) -> Result<(Bits, Outcome), DeskFault>
    requires same { receiver.old.link ≡ sender.now.link }
    ensures said { Gives DeskFault.Memory (λ pair. pair.0.items) result
        (answer_said sender.now.link sender.now.block arrival.now) }
    ensures takes { IfOk result (λ pair. Takes receiver.old receiver.new arrival.now (Ok pair.1)) }
    ensures err { OnErr result (receiver.new ≡ receiver.old) }
{
    let bits = sender.send(&arrival.tx)?;
    let outcome = receiver.take(&arrival.tx, &arrival.heard)?;
    Ok((bits, outcome))
}
