// What a journal does.
ghost use Rattle.std.specs.Prelude.{◌≡◌, ◌≤◌, ◌++◌, find, reverse, min, length, drop, vec_len};
ghost use Rattle.std.specs.List.{range_with_len};
ghost use Rattle.store.specs.Rows.{replaced};
ghost use Rattle.store.specs.StoreModel.{fresh, matches};
ghost use Rattle.store.specs.JournalModel.{journal_model};
ghost use Rattle.store.specs.JournalRow.{journal_bounded};

use super::Journal;
use crate::api::{NoSpace, Store};
use crate::links::Linked;
use crate::moves::compact;
use crate::records::{MOST_RECORDS, Record};
use crate::slots::{CHAINS, InSlots};
use crate::tally::Tally;
use std::array;
use words::changes::Change;

// A row of so many records is linked in arrays of as many, since to clear those for the most costs more than such a row.
const FEW_RECORDS: usize = 256;

impl Journal {
    /// A fresh store in the memory of the records: as many as they are, at most 4,096.
    pub fn new(records: Vec<Record>) -> Journal
        ensures { journal_model result ≡ fresh (min (vec_len records) 4096) }
    {
        let capacity = records.len().min(MOST_RECORDS);
        Journal {
            records,
            tally: Tally::new(capacity),
        }
    }
}

// The last record of the item with a version of at most `at`.
fn latest(row: &[Record], item: u32, at: u32) -> Option<Record>
    ensures { result ≡ find (matches item at) (reverse row.now) }
{
    let mut back = row.iter().rev().copied();
    back.find(|record| record.is_match(item, at))
}

// All slots in order.
fn number_slots<const N: usize>() -> [u16; N]
    requires { N ≤ 4096 }
    ensures { result ≡ range_with_len 0 N }
{
    array::from_fn(|i| i as u16)
}

// Marks each record of a row of at most N that a prune to `to` removes. The records are linked for this call alone, in slots
// that are their places, so that each is compared with those of its own chain.
fn mark_linked<const N: usize>(row: &[Record], to: u32, gone: &mut [bool])
    requires most { N ≤ 4096 }
    requires small { length row.now ≤ N }
    requires marks { length row.now ≤ length gone.old }
    ensures { gone.new ≡ replaced to row.now ++ drop (length row.now) gone.old }
{
    // In arrays, since a prune may not fail for want of memory.
    let numbers = number_slots::<N>();
    let slots = &numbers[..];
    let mut next = [0; N];
    let mut heads = [0; CHAINS];
    let count = row.len();
    let row = InSlots {
        records: row,
        slots: &slots[0..count],
    };
    row.link(&mut next, &mut heads, 0, count);
    let linked = Linked {
        row,
        next: &next,
        heads: &heads,
        count,
    };
    linked.mark_replaced(to, gone);
}

// Marks each record of the row that a prune to `to` removes, in arrays that are short where the row is.
fn mark_replaced(row: &[Record], to: u32, gone: &mut [bool])
    requires small { length row.now ≤ 4096 }
    requires marks { length row.now ≤ length gone.old }
    ensures { gone.new ≡ replaced to row.now ++ drop (length row.now) gone.old }
{
    if row.len() <= FEW_RECORDS {
        mark_linked::<FEW_RECORDS>(row, to, gone);
    } else {
        mark_linked::<MOST_RECORDS>(row, to, gone);
    }
}

impl Store for Journal {
    ghost model = { journal_model };

    ghost bounded = { λ s. journal_bounded s };

    fn version(&self) -> u32 {
        self.tally.version
    }

    fn capacity(&self) -> u32 {
        self.tally.capacity as u32
    }

    fn sealed_count(&self) -> u32 {
        self.tally.sealed as u32
    }

    fn staged_count(&self) -> u32 {
        self.tally.staged as u32
    }

    fn read(&self, item: u32, at: u32) -> Option<i32> {
        latest(&self.records.as_slice()[0..self.tally.sealed], item, at)?.value()
    }

    fn stage(&mut self, item: u32, change: Change) -> Result<(), NoSpace> {
        let place = self.tally.stage()?;
        self.records[place] = Record {
            version: self.tally.version + 1,
            item,
            change,
        };
        Ok(())
    }

    fn seal(&mut self) {
        self.tally.seal();
    }

    fn drop_staged(&mut self) {
        self.tally.drop_staged();
    }

    fn prune(&mut self, to: u32) {
        let sealed = self.tally.sealed;
        // In an array, since a prune may not fail for want of memory.
        let mut gone = [false; MOST_RECORDS];
        mark_replaced(&self.records.as_slice()[0..sealed], to, &mut gone);
        let left = compact(&mut self.records, &gone[0..sealed + self.tally.staged]);
        self.tally.keep(left);
    }
}
