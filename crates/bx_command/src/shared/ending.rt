//! The exit statuses of the programs, and their messages on standard error: 0, 1 for a fault of the run, 2 for a refused
//! command line.

ghost use Rattle.std.specs.Prelude.{◌≡◌};
ghost use Rattle.bx_command.specs.shared.Ending.{status_of, status_after};

use crate::shared::shown::Numbered;
use clap::error::ErrorKind;
use std::fmt::Display;
use std::io;
use std::process::ExitCode;

/// The exit status for a refused command line.
const REFUSED: u8 = 2;

/// The exit status after a run. Reports a fault on standard error.
pub fn finish<F: Display + Drop>(
    rt: &HostRuntime,
    program: &str,
    outcome: Result<(), F>,
) -> ExitCode
    ensures { status_of result ≡ status_after outcome }
{
    match outcome {
        Ok(()) => ExitCode::SUCCESS,
        Err(fault) => {
            // a failure of standard error cannot be reported
            let _ = eprintln!(rt; "{program}: {fault}");
            ExitCode::FAILURE
        }
    }
}

/// The exit status for a refused command line. Reports the cause.
pub fn refuse(rt: &HostRuntime, program: &str, error: &clap::Error) -> ExitCode {
    if error.kind() == ErrorKind::OutOfMemory {
        return finish(rt, program, Err("out of memory"));
    }
    // a failure of standard error cannot be reported
    let _ = match format!(in rt.alloc(); "{error}") {
        Ok(text) if error.use_stderr() => eprint!(rt; "{}", Numbered(text.as_str())),
        _ => error.print(rt),
    };
    ExitCode::from(REFUSED)
}

/// The exit status for an unreadable command line. Reports the cause: out of memory, or a word that is not UTF-8.
pub fn refuse_words(rt: &HostRuntime, program: &str, kind: io::ErrorKind) -> ExitCode {
    if kind == io::ErrorKind::OutOfMemory {
        return finish(rt, program, Err("out of memory"));
    }
    // a failure of standard error cannot be reported
    let _ = eprintln!(rt; "{program}: a word is not UTF-8");
    ExitCode::from(REFUSED)
}
