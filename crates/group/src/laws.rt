// The law over runs, as the contract of a function that computes nothing.
ghost use Rattle.group.specs.Runs.{RunLaw};

/// In every run each turn is right by the account of the whole list, and so is every log.
pub fn run_law()
    ensures { RunLaw }
{}
