//! What programs have in common that read lines from standard input, print, and stop at a line that is not understood.
#![tactic(auto)]

#[cfg(test)]
mod tests;

ghost use Rattle.std.specs.Prelude.{◌≡◌, ◌⊎◌};
ghost use Rattle.std.specs.Process.{exit_status};
ghost use Rattle.console.specs.Outcomes.{status_of, HandsOn};

use std::fmt::Display;
use std::io::{Eprint, Input, Read};
use std::process::ExitCode;

// Says on standard error where a line stands that is not understood, and why; the answer is what the program ends with.
fn fault<R: Eprint, D: Display + Drop>(rt: &R, line: u64, reason: D) -> anyhow::Error {
    match eprintln!(rt; "line {line}: {reason}") {
        Ok(()) => anyhow::anyhow!("a line is not understood"),
        Err(error) => error.into(),
    }
}

/// What the line gave. Where it gave none, the reason is told on standard error with the line's number.
pub fn of_line<R: Eprint, T: Drop, D: Display + Drop>(
    rt: &R,
    line: u64,
    given: Result<T, D>,
) -> anyhow::Result<T>
    ensures { HandsOn given result }
{
    given.map_err(|reason| fault(rt, line, reason))
}

// The status that a program ends with. What went wrong was said where it was found.
fn status(outcome: anyhow::Result<()>) -> ExitCode
    ensures { exit_status result ≡ status_of outcome }
{
    match outcome {
        Ok(()) => ExitCode::SUCCESS,
        Err(_) => ExitCode::FAILURE,
    }
}

/// Does the work on the text of standard input; the answer is the status that the program ends with.
pub fn run<R: Input + AllocGlobal, F: FnOnce(&R, &[u8]) -> anyhow::Result<()>>(
    rt: &R,
    work: F,
) -> ExitCode
    requires { F.IsAlwaysCallable work }
    ensures { (exit_status result ≡ 1) ⊎ ((text : _) × (outcome : _) × F.post work rt.entry text outcome × (exit_status result ≡ status_of outcome)) }
{
    let mut text = Vec::new(rt.alloc());
    match rt.reader().read_to_end(&mut text) {
        Ok(_) => status(work(rt, text.as_slice())),
        Err(_) => ExitCode::FAILURE,
    }
}
