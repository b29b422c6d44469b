//! Checks a route table: `check CONFIG TESTS`, `reach CONFIG`, `verify CONFIG REPORT` and `sample N`.
#![tactic(auto)]

ghost use Rattle.std.specs.Prelude.{◌≡◌};
ghost use Rattle.std.specs.Process.{exit_status};
ghost use Rattle.check_core.specs.Status.{number_of};

use check_core::{Status, run};
use host_io::{HostFiles, HostSink, words};
use std::io::ErrorKind;
use std::process::ExitCode;

/// Runs the words of the call over the host's files and its standard output. Words that are no UTF-8 are no call.
fn run_words(rt: &HostRuntime) -> Status {
    match words(rt) {
        Ok(words) => run(
            rt.alloc(),
            &words,
            &mut HostFiles::new(rt),
            &mut HostSink::new(rt),
        ),
        Err(error) if error.kind() == ErrorKind::OutOfMemory => Status::NoMemory,
        Err(_) => Status::Usage,
    }
}

/// What the program ends with: the number of the status.
fn code_of(status: Status) -> ExitCode
    ensures { exit_status result ≡ number_of status }
{
    ExitCode::from(status.number())
}

fn main(rt: HostRuntime) -> ExitCode {
    code_of(run_words(&rt))
}
