//! The command line: the job that it asks for, as clap parses it.

ghost use Rattle.std.specs.Prelude.{◌≡◌, ◌≢◌, ◌≤◌, [], map, slice_get, IfOk, IsOkUnless, MatchResult, Some};
ghost use Rattle.std.specs.String.{string_bytes};
ghost use Rattle.clap.specs.Words.{app_of, found_of, rows_of};
ghost use Rattle.nr_job.specs.Jobs.{IsDefaultJob, IsGiven, IsGivenBy, IsGivenOnce, IsJobOf, IsTakenAs, dash, dashes, faults_at};
ghost use Rattle.nr_job.specs.{inside.Jobs.name_of, inside.Jobs.named_app, declared.jobs.Job.Job as Asked};
ghost use Rattle.nr_job.specs.declared.jobs.Files.{Files as AskedFiles};

mod apps;
mod faults;
mod options;
mod texts;

use self::apps::{Name, program};
use self::faults::{fault_of, own_fault};
use self::options::{parsed, path_of, rate_of};
use crate::jobs::{Files, Job, JobFault};
use clap::{ArgMatches, Command};
use std::alloc::{AllocError, Global};

// The target code rate times 2048 if no words are given.
const DEFAULT_RATE: u32 = 2048;

/// Returns the job that the arguments ask for. `words` are the arguments after the program's name, and the first of
/// them is the command. No arguments at all ask for `cut --rate 2048 --blocks -`.
///
/// # Errors
///
/// `Help` if the arguments ask for help or the version, `Usage` if they are not a command of the program, and `Memory`
/// if memory runs out. Clap makes the texts that the first two carry.
pub fn job(alloc: Global, words: &[String]) -> Result<Job, JobFault>
    ensures no_words { words.now ≡ [] → MatchResult result IsDefaultJob (λ e. e ≡ JobFault.Memory) }
    ensures words { words.now ≢ [] → IfOk result (IsJobOf (map string_bytes words.now)) }

    // Clap finds no fault in words that ask for a job.
    ensures faultless { words.now ≢ []
        → IfOk result (λ job. faults_at (map string_bytes words.now) job ≡ []) }

    // If clap takes the words, and they ask for a job, only running out of memory refuses it.
    ensures asked { (asked : Asked) → IsTakenAs (map string_bytes words.now) asked
        → IsJobOf (map string_bytes words.now) asked → IsOkUnless result JobFault.Memory }
{
    let Some(command) = words.first() else {
        return Ok(Job::Cut(DEFAULT_RATE, String::from_str(alloc, "-")?));
    };
    match command.as_str() {
        "cut" => job_of(alloc, Name::Cut, words),
        "check" => job_of(alloc, Name::Check, words),
        "send" => job_of(alloc, Name::Send, words),
        "run" => job_of(alloc, Name::Run, words),
        "audit" => job_of(alloc, Name::Audit, words),
        _ => Err(other_fault(alloc, words)),
    }
}

// The job of words that begin with the name of a command.
fn job_of(alloc: Global, name: Name, words: &[String]) -> Result<Job, JobFault>
    requires { slice_get (map string_bytes words.now) 0 ≡ Some (named_app name).top.name }
    ensures job { IfOk result (IsJobOf (map string_bytes words.now)) }
    ensures faultless { IfOk result (λ job. faults_at (map string_bytes words.now) job ≡ []) }
    ensures asked { (asked : Asked) → IsTakenAs (map string_bytes words.now) asked
        → IsJobOf (map string_bytes words.now) asked → IsOkUnless result JobFault.Memory }
{
    match name.command(alloc) {
        Ok(mut command) => job_by(alloc, &mut command, name, words),
        Err(AllocError) => Err(JobFault::Memory),
    }
}

// The job of words that begin with the name of a command, by the command.
fn job_by<'a>(
    alloc: Global,
    command: &mut Command<'a>,
    name: Name,
    words: &'a [String],
) -> Result<Job, JobFault>
    requires app { app_of command.old ≡ named_app name }
    requires first { slice_get (map string_bytes words.now) 0 ≡ Some (named_app name).top.name }
    ensures job { IfOk result (IsJobOf (map string_bytes words.entry.now)) }
    ensures faultless { IfOk result (λ job. faults_at (map string_bytes words.entry.now) job ≡ []) }
    ensures asked { (asked : Asked) → IsTakenAs (map string_bytes words.entry.now) asked
        → IsJobOf (map string_bytes words.entry.now) asked → IsOkUnless result JobFault.Memory }
{
    let matches = parsed(alloc, command, words)?;
    given(alloc, command, name, &matches)
}

// The job of a command that its options give.
fn given(
    alloc: Global,
    command: &mut Command,
    name: Name,
    matches: &ArgMatches,
) -> Result<Job, JobFault>
    ensures job { IfOk result
        (λ job. (name_of job ≡ name) × IsGivenBy (rows_of (found_of matches.now)) job) }
    ensures asked { (asked : Asked) → name_of asked ≡ name
        → IsGivenBy (rows_of (found_of matches.now)) asked → IsOkUnless result JobFault.Memory }
{
    match name {
        Name::Cut => {
            let rate = rate_of(alloc, command, matches)?;
            Ok(Job::Cut(rate, path_of(alloc, command, matches, "blocks")?))
        }
        Name::Check => Ok(Job::Check(path_of(alloc, command, matches, "table")?)),
        Name::Send => Ok(Job::Send(files_given(alloc, command, matches)?)),
        Name::Run => Ok(Job::Run(files_given(alloc, command, matches)?)),
        Name::Audit => Ok(Job::Audit(files_given(alloc, command, matches)?)),
    }
}

// The four files that the options give. Clap does not test that at most one is standard input.
fn files_given(
    alloc: Global,
    command: &mut Command,
    matches: &ArgMatches,
) -> Result<Files, JobFault>
    ensures files { IfOk result (IsGivenOnce (rows_of (found_of matches.now))) }
    ensures asked { (files : AskedFiles) → IsGivenOnce (rows_of (found_of matches.now)) files
        → IsOkUnless result JobFault.Memory }
{
    let files = paths_of(alloc, command, matches)?;
    if dashes(&files) > 1 {
        return Err(own_fault(alloc, command, "standard input is named for several files"));
    }
    Ok(files)
}

// The paths that the options of a command over four files give.
fn paths_of(alloc: Global, command: &mut Command, matches: &ArgMatches) -> Result<Files, JobFault>
    ensures paths { IfOk result (IsGiven (rows_of (found_of matches.now))) }
    ensures given { (files : AskedFiles) → IsGiven (rows_of (found_of matches.now)) files
        → IsOkUnless result JobFault.Memory }
{
    let table = path_of(alloc, command, matches, "table")?;
    let settings = path_of(alloc, command, matches, "settings")?;
    let blocks = path_of(alloc, command, matches, "blocks")?;
    let schedule = path_of(alloc, command, matches, "schedule")?;
    Ok(Files {
        table,
        settings,
        blocks,
        schedule,
    })
}

// How many of the four paths are standard input.
fn dashes(files: &Files) -> u8
    ensures { result ≡ dashes files.now }
{
    dash(&files.table) + dash(&files.settings) + dash(&files.blocks) + dash(&files.schedule)
}

// 1 if the path is standard input, else 0.
fn dash(path: &str) -> u8
    ensures value { result ≡ dash path.now }
    ensures small { result ≤ 1 }
{
    u8::from(path == "-")
}

// The fault of words that begin with no command of the program: help, or how the program is used.
fn other_fault(alloc: Global, words: &[String]) -> JobFault {
    match program(alloc) {
        Ok(mut command) => fault_at(alloc, &mut command, words),
        Err(AllocError) => JobFault::Memory,
    }
}

// The fault of these words, by the program.
fn fault_at<'a>(alloc: Global, command: &mut Command<'a>, words: &'a [String]) -> JobFault {
    match command.try_get_matches_from_mut(words) {
        Ok(_) => own_fault(alloc, command, "a command is missing"),
        Err(error) => fault_of(alloc, &error),
    }
}
