// A store as 64 chains of records by item, each from its last record back to its first.
ghost use Rattle.std.specs.Prelude.{◌≡◌, ◌+◌, ◌≤◌, true, length, take, drop};
ghost use Rattle.store.specs.StoreModel.{every, at_most};
ghost use Rattle.store.specs.Rows.{of_version};
ghost use Rattle.store.specs.Slots.{laid, Below, Apart, SlotNexts, SlotTops};

use crate::records::Record;
use crate::slots::CHAINS;
use crate::tally::Tally;

pub mod ops;

/// A store that is read along the chain of the item. A record keeps its slot until it is pruned or dropped.
#[derive(Drop)]
pub struct Chains {
    records: Vec<Record>,
    // The slots of the sealed records in the order of sealing, then those of the staged ones, then the free ones: a prune moves
    // these numbers and no record, and its links stand.
    slots: Vec<u16>,
    // At the slot of each sealed record, the link to the one before it in its chain. It stands beside the records, whose memory
    // is the caller's.
    next: Vec<u16>,
    heads: [u16; CHAINS],
    tally: Tally,
    ghost whole: { length slots.items ≡ tally.capacity },
    ghost memory: { length slots.items ≤ length records.items },
    ghost links: { length slots.items ≤ length next.items },
    ghost below: { Below (length slots.items) slots.items },
    ghost apart: { Apart slots.items },
    ghost linked: { SlotNexts (laid records.items slots.items) slots.items next.items tally.sealed },
    ghost topped: { SlotTops (laid records.items slots.items) slots.items heads tally.sealed },
    ghost past: { every (at_most tally.version) (take tally.sealed (laid records.items slots.items)) ≡ true },
    // Staged records already bear the next version.
    ghost coming: { every (of_version (tally.version + 1)) (take tally.staged (drop tally.sealed (laid records.items slots.items))) ≡ true },
}
