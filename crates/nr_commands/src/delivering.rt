//! Writes one line of a command's text to a Sink.

ghost use Rattle.std.specs.Prelude.{◌≡◌, ℕ, ◌^◌, ◌<◌, IfOk, List, length};
ghost use Rattle.nr_refusal.specs.Refusal.{FailsAs};
ghost use Rattle.nr_commands.specs.Command.{Writes};

use crate::fault::RunFault;
use nr_streams::{Broken, Sink, put_all};
use std::alloc::AllocError;

/// Writes a line of a command's text, whatever it says, unless there was no memory to make it.
///
/// # Errors
///
/// `Memory` if the line was not made; nothing of it is written then. `Write` if a put failed; a first part of the line
/// is written then.
pub fn put_line<O: Sink>(out: &mut O, made: Result<Vec<u8>, AllocError>) -> Result<(), RunFault>
    requires { O.failures out.old < 2 ^ 32 }
    ensures text { (line : List ℕ) → 0 < length line → IfOk made (λ octets. octets.items ≡ line)
        → Writes (O.written out.old) (O.written out.new) result line }
    ensures put { FailsAs RunFault.Write result (O.failures out.old) (O.failures out.new) }
{
    let line = made?;
    match put_all(out, &line) {
        Ok(()) => Ok(()),
        Err(Broken) => Err(RunFault::Write),
    }
}
