// What a place of the list is decided as.
ghost use Rattle.std.specs.Prelude.{◌≡◌, Some};
ghost use Rattle.account.specs.Shown.{decision_text};
ghost use Rattle.account.specs.declared.decisions.Fault.TheVariants.{NoMemory};

use std::alloc::{AllocError, AllocFailed};
use std::fmt;

/// A decision. A conflict names the lowest commit in its way, a commit its own version.
#[derive(Clone, Copy, PartialEq, Eq, Debug)]
pub enum Decision {
    Void,
    Noted,
    Ahead,
    TooOld,
    Conflict(u32),
    Commit(u32),
}

impl fmt::Display for Decision {
    ghost output = { λ d. Some (decision_text d) };

    fn fmt<W: fmt::Write>(&self, f: &mut fmt::Formatter<W>) -> fmt::Result {
        match *self {
            Decision::Void => f.write_str("void"),
            Decision::Noted => f.write_str("noted"),
            Decision::Ahead => f.write_str("ahead"),
            Decision::TooOld => f.write_str("too old"),
            Decision::Conflict(version) => write!(f, "conflict {version}"),
            Decision::Commit(version) => write!(f, "commit {version}"),
        }
    }
}

/// Why an accountant declined: a group's size, the last place that there is, or want of memory.
#[derive(Clone, Copy, PartialEq, Eq, Debug)]
pub enum Fault {
    GroupSize,
    TooManyPlaces,
    NoMemory,
}

// By hand, since a derived From has no contract, and the accountant's clauses need to know which fault it is.
impl From<AllocError> for Fault {
    ghost from_gives = { λ _ r. r ≡ NoMemory };

    fn from(_error: AllocError) -> Fault {
        Fault::NoMemory
    }
}

impl<T: Drop> From<AllocFailed<T>> for Fault {
    ghost from_gives = { λ _ r. r ≡ NoMemory };

    fn from(_refused: AllocFailed<T>) -> Fault {
        Fault::NoMemory
    }
}

impl fmt::Display for Fault {
    fn fmt<W: fmt::Write>(&self, f: &mut fmt::Formatter<W>) -> fmt::Result {
        match *self {
            Fault::GroupSize => f.write_str("a group has 2 to 8 sites"),
            Fault::TooManyPlaces => f.write_str("a list has at most 268435455 places"),
            Fault::NoMemory => f.write_str("no memory is left"),
        }
    }
}
