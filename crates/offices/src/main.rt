// Plays a scenario from standard input: one call a line, each printed with its answer.
#![tactic(auto)]

mod answers;
mod making;
mod play;
mod reasons;
mod stage;

use play::play;
use std::process::ExitCode;

fn main(rt: HostRuntime) -> ExitCode {
    console::run(&rt, play)
}
