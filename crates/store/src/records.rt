// One record of a store.
ghost use Rattle.std.specs.Prelude.{◌≡◌};
ghost use Rattle.store.specs.StoreModel.{matches, value_of};

use words::changes::Change;
use words::limits::LIMIT;

/// The highest version that a store can come to.
pub const LAST_VERSION: u32 = LIMIT;

/// The most records that the stores of this crate use.
pub const MOST_RECORDS: usize = 4096;

/// A change of an item, by the version that brought it.
#[derive(Clone, Copy, PartialEq, Eq, Debug)]
pub struct Record {
    pub version: u32,
    pub item: u32,
    pub change: Change,
}

impl Record {
    // Whether the record is of the item, with a version of at most `at`.
    pub(crate) fn is_match(self, item: u32, at: u32) -> bool
        ensures { result ≡ matches item at self }
    {
        self.item == item && self.version <= at
    }

    // The value that the record leaves its item.
    pub(crate) fn value(self) -> Option<i32>
        ensures { result ≡ value_of self.change }
    {
        match self.change {
            Change::Set(value) => Some(value),
            Change::Remove => None,
        }
    }
}
