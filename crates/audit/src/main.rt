// Decides a saved list of messages from standard input, and prints what was decided at each place and what is left.
#![tactic(auto)]

mod lines;
mod report;

use report::audit;
use std::process::ExitCode;

fn main(rt: HostRuntime) -> ExitCode {
    console::run(&rt, |rt, text| audit(rt, text))
}
