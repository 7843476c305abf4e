// The interface of a log.
ghost use Rattle.std.specs.Prelude.{◌≡◌, ℕ, length, is_ok};
ghost use Rattle.std.specs.List.{slice_get};
ghost use Rattle.std.specs.Option.{option_map};
ghost use Rattle.logs.specs.LogModel.{LogModel, Bounded, entry_of, last_version, entry_at, head_of, write_of, least, can_commit, committed, can_copy, copied, passed, noted, closed, ticketed, trimmed};

use crate::heads::{EntryHead, NewEntry};
use words::changes::Write;

/// An entry was not taken: the log has no room for it, is at a limit, or holds no such entry.
#[derive(Clone, Copy, PartialEq, Eq, Debug)]
pub struct Declined;

/// A site's log: the entries above its floor, the place that it has come to, the known number of each site, the
/// tickets that were given and whether the log is whole.
pub trait Log {
    /// What an entry costs of the capacity, and what each of its writes costs.
    const ENTRY_COST: u32;

    const WRITE_COST: u32;

    // The same numbers, for proofs: a constant that is changed alone is refused.
    ghost ENTRY_COST: { ℕ };

    ghost WRITE_COST: { ℕ };

    // What the log holds.
    ghost model: { Self → LogModel };

    /// The head of the entry of a version; none at the floor or below it, or above the last version. The time that
    /// this and `write` take does not grow with the log.
    fn entry(&self, version: u32) -> Option<EntryHead>
        ensures { result ≡ option_map head_of (entry_at (model self.now) version) };

    /// A write of the entry of a version, counted from 0.
    fn write(&self, version: u32, number: u32) -> Option<Write>
        ensures { result ≡ write_of (entry_at (model self.now) version) number };

    /// The version below the first entry.
    fn floor(&self) -> u32
        ensures { result ≡ (model self.now).floor };

    /// The version of the last entry, or the floor where there is none.
    fn last(&self) -> u32
        ensures { result ≡ last_version (model self.now) };

    fn capacity(&self) -> u32
        ensures { result ≡ (model self.now).capacity };

    /// The two constants, by a method that ties them to the model, with which is stated what is declined for lack of space.
    fn costs(&self) -> (u32, u32)
        ensures { result ≡ ((model self.now).entry_cost, (model self.now).write_cost) };

    /// How many sites the group has.
    fn sites(&self) -> u32
        ensures { result ≡ length (model self.now).known };

    fn place(&self) -> u32
        ensures { result ≡ (model self.now).place };

    /// The known number of a site; none where there is no such site.
    fn known(&self, site: u32) -> Option<u32>
        ensures { result ≡ slice_get (model self.now).known site };

    /// The least known number.
    fn least(&self) -> u32
        ensures { result ≡ least (model self.now).known };

    /// How many tickets were given.
    fn tickets(&self) -> u32
        ensures { result ≡ (model self.now).tickets };

    fn is_whole(&self) -> bool
        ensures { result ≡ (model self.now).whole };

    /// Appends an entry and adds 1 to the place. Declines, and changes nothing, exactly where the cost does not fit,
    /// the last version or the place is at the limit, or the entry is not loggable.
    fn commit(&mut self, entry: NewEntry<'_>) -> Result<(), Declined>
        ensures answer { is_ok result ≡ can_commit (model self.old) (entry_of entry.entry) }
        ensures after { model self.new ≡ committed (model self.old) (entry_of entry.entry) };

    /// Appends an entry, leaves the place and clears the mark. Declines, and changes nothing, exactly where the cost
    /// does not fit, the last version is at the limit, or the entry is not loggable.
    fn copy(&mut self, entry: NewEntry<'_>) -> Result<(), Declined>
        ensures answer { is_ok result ≡ can_copy (model self.old) (entry_of entry.entry) }
        ensures after { model self.new ≡ copied (model self.old) (entry_of entry.entry) };

    /// Adds 1 to the place; at the limit it changes nothing.
    fn pass(&mut self)
        ensures { model self.new ≡ passed (model self.old) };

    /// Adds 1 to the place and sets the known number of a site. With the place at the limit, no such site or a
    /// number above the limit it changes nothing.
    fn note(&mut self, site: u32, number: u32)
        ensures { model self.new ≡ noted (model self.old) site number };

    /// Sets the place and the known numbers, and sets the mark. With another count of numbers than of sites, or a
    /// place or a number above the limit, it changes nothing.
    fn close(&mut self, place: u32, known: &[u32])
        ensures { model self.new ≡ closed (model self.old) place known.now };

    /// Adds 1 to the count of tickets; at the limit it changes nothing.
    fn ticket(&mut self)
        ensures { model self.new ≡ ticketed (model self.old) };

    /// Removes the entries up to a version, and raises a lower floor to it; never past the last version.
    fn trim(&mut self, version: u32)
        ensures { model self.new ≡ trimmed (model self.old) version };

    ghost bounded: { (l : Self) → Bounded (model l) };
}
