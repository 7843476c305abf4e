// What the memory of one entry does.
ghost use Rattle.std.specs.Prelude.{◌≡◌, ◌≤◌, [], length};
ghost use Rattle.std.specs.List.{slice_get};
ghost use Rattle.logs.specs.LogModel.{an_entry, entry_of, head_of};
ghost use Rattle.logs.specs.RowModel.{row_entry};

use super::FlatEntry;
use crate::heads::{EntryHead, NewEntry};
use few::Few;
use words::changes::{Change, Write};

const NO_WRITE: Write = Write {
    item: 0,
    change: Change::Remove,
};

impl FlatEntry {
    /// Memory for one entry, not yet in use.
    pub fn new() -> FlatEntry
        ensures { row_entry result ≡ an_entry 0 0 [] }
    {
        FlatEntry {
            home: 0,
            ticket: 0,
            writes: Few::new(NO_WRITE),
        }
    }

    pub(crate) fn of(entry: NewEntry<'_>) -> FlatEntry
        requires { length entry.writes.now ≤ 16 }
        ensures { row_entry result ≡ entry_of entry.entry }
    {
        FlatEntry {
            home: entry.home,
            ticket: entry.ticket,
            writes: Few::from_slice(NO_WRITE, entry.writes),
        }
    }

    pub(crate) fn head(&self) -> EntryHead
        ensures { result ≡ head_of (row_entry self.now) }
    {
        EntryHead {
            home: self.home,
            ticket: self.ticket,
            count: self.writes.len() as u32,
        }
    }

    // A write, counted from 0.
    pub(crate) fn write(&self, number: u32) -> Option<Write>
        ensures { result ≡ slice_get (row_entry self.now).writes number }
    {
        self.writes.get(number as usize)
    }
}
