//! Errors of the command line, in clap's form.

ghost use Rattle.std.specs.Prelude.{◌≡◌};
ghost use Rattle.clap.specs.Words.{kind_of};

use crate::jobs::JobFault;
use clap::error::ErrorKind;
use clap::{Command, Error};
use std::alloc::{AllocError, Global};

// A usage fault in clap's form, of a cause that clap does not test.
pub(super) fn own_fault(alloc: Global, command: &mut Command, message: &str) -> JobFault {
    match command.error(ErrorKind::ValueValidation, message) {
        Ok(error) => fault_of(alloc, &error),
        Err(AllocError) => JobFault::Memory,
    }
}

// The fault that clap's error tells of. What belongs on standard output is help.
pub(super) fn fault_of(alloc: Global, error: &Error) -> JobFault
    ensures { kind_of error.now ≡ ErrorKind.OutOfMemory → result ≡ JobFault.Memory }
{
    if error.kind() == ErrorKind::OutOfMemory {
        return JobFault::Memory;
    }
    match error.to_string(alloc) {
        Err(AllocError) => JobFault::Memory,
        Ok(text) if error.use_stderr() => JobFault::Usage(text),
        Ok(text) => JobFault::Help(text),
    }
}
