//! The Source and the Sinks on which the program runs its commands: a file or standard input, standard output and
//! standard error. What they hold is not known to any contract; what is proved is that they behave as a Source and as a
//! Sink.

ghost use Rattle.std.specs.Prelude.{◌≡◌};
ghost use Rattle.std.specs.Io.{ReadsAtMost};

use nr_streams::{Broken, Sink, Source, Tape};
use std::fs;
use std::io::{ErrorKind, Read, Stderr};
use std::rt::Files;

// Where the octets of an `Incoming` come from.
#[derive(Drop)]
enum Origin<F: Drop> {
    // Nothing was pulled yet.
    Unopened,
    File(F),
    Standard,
    // It was read to its end, and is closed.
    Ended,
    // It could not be opened or read.
    Failed,
}

/// A Source over a file or standard input, whose octets are not known. It is opened at its first pull and closed at its
/// end, so that a file is opened when its turn comes, and no two are open at a time if each is read to its end before
/// the next. A read that a signal interrupts is tried again.
#[derive(Drop)]
pub struct Incoming<'r, R: Files + Input> {
    rt: &'r R,
    path: &'r str,
    origin: Origin<R::File>,
    failures: u64,
}

/// Returns the Source of a path; `-` is standard input. If the file cannot be opened, the first pull returns `Broken`.
pub fn source_of<'r, R: Files + Input>(rt: &'r R, path: &'r str) -> Incoming<'r, R>
    ensures { ⟦<Incoming<'r, R> as Source>⟧.failures result ≡ 0 }
{
    Incoming {
        rt,
        path,
        origin: Origin::Unopened,
        failures: 0,
    }
}

// Opens a path; `-` is standard input.
fn opened<R: Files>(rt: &R, path: &str) -> Origin<R::File> {
    if path == "-" {
        return Origin::Standard;
    }
    match fs::open(rt, path) {
        Ok(file) => Origin::File(file),
        Err(_) => Origin::Failed,
    }
}

impl<'r, R: Files + Input> Source for Incoming<'r, R> {
    ghost use Rattle.std.specs.Prelude.{None};

    ghost remaining = { λ _. None };

    ghost failures = { λ incoming. incoming.failures };

    fn pull(&mut self, buf: &mut [u8]) -> Result<usize, Broken> {
        if let Origin::Unopened = &self.origin {
            self.origin = opened(self.rt, self.path);
        }
        let answer = match &mut self.origin {
            Origin::File(file) => read_some(file, buf),
            Origin::Standard => read_standard(self.rt, buf),
            Origin::Ended => Ok(0),
            Origin::Unopened | Origin::Failed => Err(Broken),
        };
        match answer {
            Ok(0) if !buf.is_empty() => self.origin = Origin::Ended,
            Ok(_) => {}
            Err(Broken) => {
                self.origin = Origin::Failed;
                self.failures += 1;
            }
        }
        answer
    }
}

// Reads standard input once. Its reader has a buffer of 8 KiB on the stack, so it is not kept. With four paths and the
// calls that they are handed through, that would be 170 KiB of stack, more than the initial stack. Nothing that was read is lost
// with it, since a read by itself, as here, puts nothing into the buffer.
fn read_standard<R: Input>(rt: &R, buf: &mut [u8]) -> Result<usize, Broken>
    ensures { ReadsAtMost result buf.new }
{
    read_some(&mut rt.reader(), buf)
}

// Reads once, and again if a signal interrupts the read.
fn read_some<I: Read>(input: &mut I, buf: &mut [u8]) -> Result<usize, Broken>
    ensures { ReadsAtMost result buf.new }
{
    for _ in 0..u64::MAX {
        match input.read(buf) {
            Ok(count) => return Ok(count),
            Err(error) if error.kind() == ErrorKind::Interrupted => {}
            Err(_) => return Err(Broken),
        }
    }
    Err(Broken)
}

/// A Sink over standard output or standard error, whose octets are not known. A write that a signal interrupts is tried
/// again.
#[derive(Drop)]
pub struct Outgoing<'r, R> {
    rt: &'r R,
    failures: u64,
}

impl<'r, R: Print> Outgoing<'r, R> {
    /// Returns a Sink over what `rt` prints to, without a failure yet.
    pub fn new(rt: &'r R) -> Outgoing<'r, R>
        ensures { ⟦<Outgoing<'r, R> as Sink>⟧.failures result ≡ 0 }
    {
        Outgoing { rt, failures: 0 }
    }
}

/// A Sink for error messages: standard error, or a Sink over memory in its place. Standard output does not implement
/// it, so that the two cannot be exchanged by mistake.
pub trait Complaints {}

impl<'r> Complaints for Outgoing<'r, Stderr> {}

impl Complaints for Tape {}

impl<'r, R: Print> Sink for Outgoing<'r, R> {
    ghost use Rattle.std.specs.Prelude.{None};

    ghost written = { λ _. None };

    ghost failures = { λ outgoing. outgoing.failures };

    fn put(&mut self, buf: &[u8]) -> Result<usize, Broken> {
        for _ in 0..u64::MAX {
            match self.rt.write_some(buf) {
                Ok(count) if count > 0 || buf.is_empty() => return Ok(count),
                Err(error) if error.kind() == ErrorKind::Interrupted => {}
                _ => break,
            }
        }
        self.failures += 1;
        Err(Broken)
    }
}
