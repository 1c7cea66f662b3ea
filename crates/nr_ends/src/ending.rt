//! How the program ends: what it writes, where, and with which status.

ghost use Rattle.std.specs.Prelude.{◌≡◌, ◌==◌, ◌-◌, ◌^◌, ◌<◌, IfOk};
ghost use Rattle.std.specs.List.{before_first};
ghost use Rattle.std.specs.String.{string_bytes};
ghost use Rattle.nr_ends.specs.Ending.{Complains, IsOnOneLine, IsRefusalLine, ended_at, output_of, status_of};
ghost use Rattle.nr_streams.specs.Sink.{WritesPrefix, with_text};

use crate::streams::Complaints;
use nr_commands::RunFault;
use nr_job::JobFault;
use nr_streams::{Sink, put_all};
use std::alloc::{AllocError, Global};

/// How a run of the program ends.
#[derive(Drop)]
pub enum Ending {
    /// The job is done: status 0.
    Done,
    /// Help or the version was asked for and goes to standard output: status 0.
    Help(String),
    /// The job failed, and a line on standard error says why: status 1.
    Refused(RunFault),
    /// The command line asks for no job, and the text, which goes to standard error, says why: status 2.
    Usage(String),
}

impl Ending {
    /// Returns the exit status.
    pub fn status(&self) -> u8
        ensures { result ≡ status_of self.now }
    {
        match self {
            Ending::Done | Ending::Help(_) => 0,
            Ending::Refused(_) => 1,
            Ending::Usage(_) => 2,
        }
    }
}

impl From<JobFault> for Ending {
    ghost use Rattle.std.specs.Prelude.{◌≡◌};
    ghost use Rattle.nr_ends.specs.Ending.{refused_by};

    ghost from_gives = { λ fault ending. ending ≡ refused_by fault };

    fn from(fault: JobFault) -> Ending {
        match fault {
            JobFault::Usage(text) => Ending::Usage(text),
            JobFault::Help(text) => Ending::Help(text),
            JobFault::Memory => Ending::Refused(RunFault::Memory),
        }
    }
}

impl From<Result<(), RunFault>> for Ending {
    ghost use Rattle.std.specs.Prelude.{◌≡◌};
    ghost use Rattle.nr_ends.specs.Ending.{ending_by};

    ghost from_gives = { λ outcome ending. ending ≡ ending_by outcome };

    fn from(outcome: Result<(), RunFault>) -> Ending {
        match outcome {
            Ok(()) => Ending::Done,
            Err(fault) => Ending::Refused(fault),
        }
    }
}

/// Reports how the program ends and returns the exit status. Help goes to standard output; the line of an error and the
/// text of a usage error go to standard error. If help cannot be written, that is an error too. If standard error fails
/// as well, only the status reports it.
pub fn finish<O: Sink, E: Sink + Complaints>(
    alloc: Global,
    ending: Ending,
    out: &mut O,
    errors: &mut E,
) -> u8
    requires out { O.failures out.old < 2 ^ 32 }
    requires errors { E.failures errors.old < 2 ^ 32 }
    ensures status { result
        ≡ status_of (ended_at ending (O.failures out.new - O.failures out.old)) }

    // Standard output has the whole help, or a first part of it if a put failed, or nothing new.
    ensures output { O.failures out.new ≡ O.failures out.old
        → O.written out.new ≡ with_text (O.written out.old) (output_of ending) }
    ensures part { O.failures out.old < O.failures out.new
        → WritesPrefix (O.written out.old) (O.written out.new) (output_of ending) }

    ensures errors { E.failures errors.new ≡ E.failures errors.old
        → Complains (ended_at ending (O.failures out.new - O.failures out.old))
        (E.written errors.old) (E.written errors.new) }
{
    let status = ending.status();
    match ending {
        Ending::Done => status,
        Ending::Help(text) => match put_all(out, text.as_bytes()) {
            Ok(()) => status,
            Err(_) => refuse(alloc, RunFault::Write, errors),
        },
        Ending::Refused(fault) => refuse(alloc, fault, errors),
        Ending::Usage(text) => {
            let _ = put_all(errors, text.as_bytes());
            status
        }
    }
}

// Says that the job is refused, and gives the exit status. If there is no memory for the fault's line, memory is
// the fault.
fn refuse<E: Sink>(alloc: Global, fault: RunFault, errors: &mut E) -> u8
    requires { E.failures errors.old < 2 ^ 32 }
    ensures status { result ≡ status_of (Ending.Refused fault) }
    ensures line { E.failures errors.new ≡ E.failures errors.old
        → Complains (Ending.Refused fault) (E.written errors.old) (E.written errors.new) }
{
    let line = refusal_line(alloc, fault);
    let said = match &line {
        Ok(line) => line.as_str(),
        Err(AllocError) => "linksim: refused: memory\n",
    };
    let _ = put_all(errors, said.as_bytes());
    Ending::Refused(fault).status()
}

// The line of a refusal.
fn refusal_line(alloc: Global, fault: RunFault) -> Result<String, AllocError>
    ensures { IfOk result (λ line. IsRefusalLine (string_bytes line)) }
{
    let words = fault.to_string(alloc)?;
    let mut line = String::from_str(alloc, "linksim: refused: ")?;
    line.push_str(first_line(&words))?;
    line.push_str("\n")?;
    Ok(line)
}

// The first line of words. A fault's words are no longer; but no contract says so, and a refusal is one line.
fn first_line(words: &str) -> &str
    ensures first { result.now ≡ before_first (λ octet. octet == 10) words.now }
    ensures one { IsOnOneLine result.now }
{
    match words.split_once('\n') {
        Some((line, _)) => line,
        None => words,
    }
}
