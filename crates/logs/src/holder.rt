// What holds a log's entries: a table of them or their pages.
ghost use Rattle.std.specs.Prelude.{◌≡◌, ℕ, ◌≤◌, true};
ghost use Rattle.std.specs.Option.{option_map};
ghost use Rattle.logs.specs.LogModel.{Held, HeldBounds, entry_of, last_held, fits, can_append, appended, held_above, entry_held, head_of, write_of};

use crate::heads::{EntryHead, NewEntry};
use words::changes::Write;

/// A holder of entries: what a log does with them, by what is held.
pub trait Holder: Drop {
    // What an entry costs of the capacity, and what each of its writes costs.
    const ENTRY_COST: u32;

    const WRITE_COST: u32;

    // The same numbers, for clauses and laws.
    ghost ENTRY_COST: { ℕ };

    ghost WRITE_COST: { ℕ };

    ghost held: { Self → Held };

    // The head of the entry of a version.
    fn entry(&self, version: u32) -> Option<EntryHead>
        ensures { result ≡ option_map head_of (entry_held (held self.now) version) };

    // A write of the entry of a version, counted from 0.
    fn write(&self, version: u32, number: u32) -> Option<Write>
        ensures { result ≡ write_of (entry_held (held self.now) version) number };

    // The version below the first entry.
    fn floor(&self) -> u32
        ensures { result ≡ (held self.now).floor };

    // The version of the last entry, or the floor.
    fn last(&self) -> u32
        ensures { result ≡ last_held (held self.now) };

    fn capacity(&self) -> u32
        ensures { result ≡ (held self.now).capacity };

    // Whether one more entry of that many writes fits.
    fn has_room(&self, count: usize) -> bool
        requires { count ≤ 16 }
        ensures { result ≡ fits (held self.now) count };

    // Adds an entry that can be appended.
    fn push(&mut self, entry: NewEntry<'_>)
        requires { can_append (held self.old) (entry_of entry) ≡ true }
        ensures { held self.new ≡ appended (held self.old) (entry_of entry.entry) };

    // Removes the entries up to a version.
    fn trim(&mut self, version: u32)
        ensures { held self.new ≡ held_above (held self.old) version };

    ghost bounds: { (h : Self) → HeldBounds ENTRY_COST WRITE_COST (held h) };
}
