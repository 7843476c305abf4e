// One run at sites that act rightly, as the contract of a function that computes nothing.
ghost use Rattle.refuted.specs.Lawful.{LawfulRun};

/// Three fresh sites answer these calls so, and the calls with these answers are a run.
pub fn a_lawful_run()
    ensures { LawfulRun }
{}
