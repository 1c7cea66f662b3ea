//! What clap reads of the command line, and the values of the options in it.

ghost use Rattle.std.specs.Prelude.{◌≡◌, ◌≤◌, ◌↔◌, IsTrue, ℕ, true, [], codes, map, IfOk, IsOkUnless, OnOk};
ghost use Rattle.std.specs.String.{string_bytes};
ghost use Rattle.clap.specs.Words.{HasMatchesOf, Text, app_of, fault_of as clap_faults, found_of, is_simple_and_free, rows_of};
ghost use Rattle.clap.specs.Words.{takes};
ghost use Rattle.nr_job.specs.Jobs.{IsNumberAt, IsTextAt};

use super::faults::{fault_of, own_fault};
use crate::jobs::JobFault;
use clap::{ArgMatches, Command};
use std::alloc::Global;

// What clap reads of the words. It takes the first of them, the command, for the program's name.
pub(super) fn parsed<'a>(
    alloc: Global,
    command: &mut Command<'a>,
    words: &'a [String],
) -> Result<ArgMatches<'a>, JobFault>
    ensures matches { IfOk result
        (HasMatchesOf (app_of command.old) (map string_bytes words.entry.now)) }
    ensures faultless { is_simple_and_free (app_of command.old) ≡ true
        → OnOk result (clap_faults (app_of command.old) (map string_bytes words.entry.now) ≡ []) }
    ensures taken { takes (app_of command.old) (map string_bytes words.entry.now) ≡ true
        → IsOkUnless result JobFault.Memory }
    ensures free { is_simple_and_free (app_of command.old) ≡ true
        → clap_faults (app_of command.old) (map string_bytes words.entry.now) ≡ []
        → IsOkUnless result JobFault.Memory }
{
    match command.try_get_matches_from_mut(words) {
        Ok(matches) => Ok(matches),
        Err(error) => Err(fault_of(alloc, &error)),
    }
}

// The path that an option gives. Clap sees to it that the option is there.
pub(super) fn path_of(
    alloc: Global,
    command: &mut Command,
    matches: &ArgMatches,
    name: &str,
) -> Result<String, JobFault>
    ensures path { IfOk result (λ path.
        IsTextAt name.now (rows_of (found_of matches.now)) (string_bytes path)) }
    ensures given { (path : Text) → IsTextAt name.now (rows_of (found_of matches.now)) path
        → IsOkUnless result JobFault.Memory }
{
    match matches.get_str(name) {
        Some(path) => owned(alloc, path),
        None => Err(own_fault(alloc, command, "a path is missing")),
    }
}

// A text of its own.
fn owned(alloc: Global, text: &str) -> Result<String, JobFault>
    ensures value { IfOk result (λ own. string_bytes own ≡ text.now) }
    ensures given { IsOkUnless result JobFault.Memory }
{
    Ok(String::from_str(alloc, text)?)
}

// The target code rate times 2048. Clap keeps it in its range.
pub(super) fn rate_of(
    alloc: Global,
    command: &mut Command,
    matches: &ArgMatches,
) -> Result<u32, JobFault>
    ensures range { IfOk result (λ rate. (1 ≤ rate) × (rate ≤ 2048)) }
    ensures rate { IfOk result (IsNumberAt (codes "rate") (rows_of (found_of matches.now))) }
    ensures given { (rate : ℕ) → 1 ≤ rate → rate ≤ 2048
        → IsNumberAt (codes "rate") (rows_of (found_of matches.now)) rate
        → IsOkUnless result JobFault.Memory }
{
    match matches.get_one::<u32>("rate") {
        Some(rate) if is_rate(rate) => Ok(rate),
        _ => Err(own_fault(alloc, command, "the rate is not in 1..2048")),
    }
}

// Whether the number is a target code rate times 2048.
fn is_rate(rate: u32) -> bool
    ensures { IsTrue result ↔ ((1 ≤ rate) × (rate ≤ 2048)) }
{
    (1..=2048).contains(&rate)
}
