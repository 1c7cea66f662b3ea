//! Sends and receives the transmissions of a round again, without writing a line, to find what its receiver knows.

ghost use Rattle.std.specs.Prelude.{IfOk, List, OnOk, [], ◌++◌, ◌+◌, ◌∷◌, ◌≡◌};
ghost use Rattle.nr_linkcommands.specs.{inside.Receptions.HasHeard, RunText.receptions_of, RunText.received_of};
ghost use Rattle.nr_files.specs.Rounds.{of_process};
ghost use Rattle.nr_blockdesk.specs.Explains.{Reception};

use crate::channel::{arrival_of, receive};
use crate::laws;
use crate::send_command::bits_or_refusal;
use nr_blockdesk::{Receiver, Sender};
use nr_files::Transmission;
use std::alloc::{AllocError, Global};

// The receiver of a sender's transport block after those of these transmissions that are of a process.
pub(crate) fn replay<'t>(
    alloc: Global,
    sender: &Sender<'t>,
    process: u32,
    transmissions: &[Transmission],
) -> Result<Receiver<'t>, AllocError>
    ensures { IfOk result (λ receiver. HasHeard sender.now
        (receptions_of sender.now (of_process process transmissions.now)) receiver) }
{
    let mut receiver = sender.receiver()?;
    replay_all(alloc, sender, process, &mut receiver, transmissions)?;
    Ok(receiver)
}

// Makes those of these transmissions that are of a process, and gives a receiver what arrives.
fn replay_all(
    alloc: Global,
    sender: &Sender,
    process: u32,
    receiver: &mut Receiver,
    transmissions: &[Transmission],
) -> Result<(), AllocError>
    requires { HasHeard sender.now [] receiver.old }
    ensures { OnOk result (HasHeard sender.now
        (receptions_of sender.now (of_process process transmissions.now)) receiver.new) }
{
    for transmission in transmissions {
        replay_if_of(alloc, sender, process, receiver, transmission)?;
    }
    Ok(())
}

// Sends a transmission if it is one of a process, and gives the receiver what arrives.
fn replay_if_of(
    alloc: Global,
    sender: &Sender,
    process: u32,
    receiver: &mut Receiver,
    transmission: &Transmission,
) -> Result<(), AllocError>
    requires { receiver.old.link ≡ sender.now.link }
    ensures { OnOk result ((list : List Reception) → HasHeard sender.now list receiver.old
        → HasHeard sender.now
        (list ++ receptions_of sender.now (of_process process (transmission.now ∷ []))) receiver.new) }
{
    if transmission.process != process {
        return Ok(());
    }
    replay_one(alloc, sender, receiver, transmission)
}

// Sends a transmission if it is not refused, and gives the receiver what arrives.
fn replay_one(
    alloc: Global,
    sender: &Sender,
    receiver: &mut Receiver,
    transmission: &Transmission,
) -> Result<(), AllocError>
    requires { receiver.old.link ≡ sender.now.link }
    ensures { OnOk result ((list : List Reception) → HasHeard sender.now list receiver.old
        → HasHeard sender.now (list ++ received_of sender.now transmission.now) receiver.new) }
{
    laws::accepted_send_all();
    match bits_or_refusal(sender, &transmission.tx)? {
        Ok(bits) => {
            let arrival = arrival_of(alloc, transmission, bits)?;
            receive(receiver, &transmission.tx, &arrival)?;
            Ok(())
        }
        Err(_) => Ok(()),
    }
}
