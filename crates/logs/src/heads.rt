// Entries, as a log is handed them and as it answers them.
ghost use Rattle.std.specs.Prelude.{◌≡◌};

use words::changes::{Write, all_fit};
use words::limits::LIMIT;

// The most writes of an entry.
const MOST_WRITES: usize = 16;

/// What an entry says besides its writes.
#[derive(Clone, Copy, PartialEq, Eq, Debug)]
pub struct EntryHead {
    pub home: u32,
    pub ticket: u32,
    pub count: u32,
}

/// An entry that a log is to take: what one commit wrote, and for whom.
#[derive(Clone, Copy)]
pub struct NewEntry<'a> {
    pub home: u32,
    pub ticket: u32,
    pub writes: &'a [Write],
}

impl NewEntry<'_> {
    ghost use Rattle.logs.specs.LogModel.{entry_of, loggable};

    // Whether a log can hold it.
    pub(crate) fn is_loggable(self) -> bool
        ensures { result ≡ loggable (entry_of self.entry) }
    {
        self.home < 16
            && self.ticket <= LIMIT
            && self.writes.len() <= MOST_WRITES
            && all_fit(self.writes)
    }
}
