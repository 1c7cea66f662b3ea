//! The words before a line that name its process.

ghost use Rattle.std.specs.{Prelude.IfOk, Prelude.◌≡◌, String.string_bytes};
ghost use Rattle.nr_linkcommands.specs.RunLines.{head_of, process_words};

use crate::ready::Ready;
use std::alloc::{AllocError, Global};
use std::fmt::Write;

// What comes before a line about a process: nothing if no processes are named.
pub(crate) fn head_of(ready: &Ready, process: u32) -> Result<String, AllocError>
    ensures { IfOk result (λ head. string_bytes head ≡ head_of ready.now.schedule.now.by_process process) }
{
    if ready.schedule.by_process {
        process_words(ready.alloc, process)
    } else {
        Ok(String::new(ready.alloc))
    }
}

// The words that stand before each line about a round of a process.
#[tactic(auto, unfolding(crate::specs::RunLines::process_words))]
pub(crate) fn process_words(alloc: Global, process: u32) -> Result<String, AllocError>
    ensures { IfOk result (λ words. string_bytes words ≡ process_words process) }
{
    let mut words = String::new(alloc);
    write!(words, "process {process} ")?;
    Ok(words)
}
