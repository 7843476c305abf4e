// A store as one row of records: the sealed ones in the order of sealing, then the staged ones.
ghost use Rattle.std.specs.Prelude.{◌≡◌, ◌+◌, ◌≤◌, true, length, take, drop};
ghost use Rattle.store.specs.StoreModel.{every, at_most};
ghost use Rattle.store.specs.Rows.{of_version};

use crate::records::Record;
use crate::tally::Tally;

pub mod ops;

/// A store that is read by going back through all of its sealed records.
#[derive(Drop)]
pub struct Journal {
    records: Vec<Record>,
    tally: Tally,
    ghost room: { tally.capacity ≤ length records.items },
    ghost past: { every (at_most tally.version) (take tally.sealed records.items) ≡ true },
    // Staged records already bear the next version.
    ghost coming: { every (of_version (tally.version + 1)) (take tally.staged (drop tally.sealed records.items)) ≡ true },
}
