// What holds of the account of every list, each law as the contract of a function that does nothing.
ghost use Rattle.account.specs.Cases.{KnownCases};
ghost use Rattle.account.specs.Laws.{FrontStands, HorizonRises, CommitsClear, ConflictsLowest};

/// The decisions of a list's front do not depend on what follows.
pub fn front_stands()
    ensures { FrontStands }
{}

/// The horizon never falls, and never passes the last version.
pub fn horizon_rises()
    ensures { HorizonRises }
{}

/// No commit between an edit's snapshot and its version wrote one of its items.
pub fn commits_clear()
    ensures { CommitsClear }
{}

/// A conflict names the lowest commit after the snapshot that wrote one of the edit's items.
pub fn conflicts_lowest()
    ensures { ConflictsLowest }
{}

/// Every known case holds: words both ways, and the decisions of a list of nine messages.
pub fn known_cases_hold()
    ensures { KnownCases }
{}
