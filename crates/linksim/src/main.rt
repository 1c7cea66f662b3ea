//! The data coding chain of 5G NR's shared channels (3GPP TS 38.212, Release 15) as a program. What its commands write
//! is defined as a function of the octets that they read; if they fail, nothing is written, and the same function gives
//! the error. Only if memory ran out, or the Sink failed, a first part of the text may have been written.
//!
//! `main` puts the parts together. `job` reads the command line (nr_job), the five commands work over any Source and
//! Sink (nr_commands, nr_linkcommands), and `finish` reports how a run ends (nr_ends). `cut` shows what the standard
//! makes of each transport block up to its code blocks, and `check` checks a shift table file. `send` writes the bits
//! sent, `run` what a receiver makes of them over a link that erases and flips bits, and `audit` why.
#![tactic(auto)]

ghost use Rattle.std.specs.Prelude.{◌≡◌, ◌^◌, ◌<◌, drop, IfOk};
ghost use Rattle.std.specs.Vec.Iter.{into_iter_items};

pub use nr_commands::{RunFault, Sink, Tape, check, cut};
use nr_ends::{Ending, Outgoing, finish, source_of};
pub use nr_job::{Files, Job, JobFault, job};
pub use nr_linkcommands::{audit, run, send};
use std::alloc::{AllocError, Global};
use std::env::Args;
use std::process::ExitCode;
use std::rt::{Env, Files as Opens};
use std::{env, io};

fn main(rt: HostRuntime) -> ExitCode {
    keep_freed_memory(rt.alloc());
    let ending = ending_of(&rt, &mut Outgoing::new(&rt));
    let errors = rt.stderr();
    ExitCode::from(finish(
        rt.alloc(),
        ending,
        &mut Outgoing::new(&rt),
        &mut Outgoing::new(&errors),
    ))
}

// A piece of memory as large as the C library takes for one that its heap may get from now on: 31 MiB.
const LARGE_PIECE: usize = 31 << 20;

// Takes a large piece of memory and gives it back, without touching it. From then on the C library (glibc) keeps up to twice
// as much freed memory at the end of its heap. Otherwise what a transmission frees goes back to the system, and the next one
// gets it anew, page by page. If the piece is refused, nothing is lost but time.
fn keep_freed_memory(alloc: Global) {
    let _freed_at_once = Vec::<u8>::with_capacity(alloc, LARGE_PIECE);
}

// Does what the words of the command line ask for, and returns how it ended.
fn ending_of<R: Env + Opens + Input + AllocGlobal, O: Sink>(rt: &R, out: &mut O) -> Ending
    requires { O.failures out.old < 2 ^ 32 }
{
    match words(rt).and_then(|words| job(rt.alloc(), &words)) {
        Ok(job) => Ending::from(perform(rt, job, out)),
        Err(fault) => Ending::from(fault),
    }
}

// The words of the command line after the program's name.
fn words<R: Env + AllocGlobal>(rt: &R) -> Result<Vec<String>, JobFault> {
    match env::args(rt) {
        Ok(line) => Ok(later_words(rt.alloc(), line)?),
        Err(error) if error.kind() == io::ErrorKind::OutOfMemory => Err(JobFault::Memory),
        Err(_) => Err(JobFault::Usage(String::from_str(
            rt.alloc(),
            "error: a word of the command line is not UTF-8\n",
        )?)),
    }
}

// The words of a list after the first.
fn later_words(alloc: Global, line: Args) -> Result<Vec<String>, AllocError>
    ensures { IfOk result (λ words. words.items ≡ drop 1 (into_iter_items line)) }
{
    let mut line = line;
    let _program = line.next();
    let mut words = Vec::new(alloc);
    while let Some(word) = line.next() {
        words.push(word)?;
    }
    Ok(words)
}

// Does the job: from the file or standard input that it names, to the Sink.
fn perform<R: Opens + Input + AllocGlobal, O: Sink>(
    rt: &R,
    job: Job,
    out: &mut O,
) -> Result<(), RunFault>
    requires { O.failures out.old < 2 ^ 32 }
{
    match job {
        Job::Cut(rate2048, path) => cut(rt.alloc(), rate2048, &mut source_of(rt, &path), out),
        Job::Check(path) => check(rt.alloc(), &mut source_of(rt, &path), out),
        Job::Send(files) => over_files(rt, FilesCommand::Send, &files, out),
        Job::Run(files) => over_files(rt, FilesCommand::Run, &files, out),
        Job::Audit(files) => over_files(rt, FilesCommand::Audit, &files, out),
    }
}

// A command over the four files of a schedule.
#[derive(Clone, Copy)]
enum FilesCommand {
    Send,
    Run,
    Audit,
}

// Does the command over the four files.
fn over_files<R: Opens + Input + AllocGlobal, O: Sink>(
    rt: &R,
    command: FilesCommand,
    files: &Files,
    out: &mut O,
) -> Result<(), RunFault>
    requires { O.failures out.old < 2 ^ 32 }
{
    let alloc = rt.alloc();
    let table = &mut source_of(rt, &files.table);
    let settings = &mut source_of(rt, &files.settings);
    let blocks = &mut source_of(rt, &files.blocks);
    let schedule = &mut source_of(rt, &files.schedule);
    match command {
        FilesCommand::Send => send(alloc, table, settings, blocks, schedule, out),
        FilesCommand::Run => run(alloc, table, settings, blocks, schedule, out),
        FilesCommand::Audit => audit(alloc, table, settings, blocks, schedule, out),
    }
}
