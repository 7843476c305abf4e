// What chains do.
ghost use Rattle.std.specs.Prelude.{◌≡◌, ◌≤◌, min, length, vec_len, MatchResult};
ghost use Rattle.store.specs.ChainsModel.{chains_model};
ghost use Rattle.store.specs.ChainsRow.{chains_bounded};
ghost use Rattle.store.specs.Slots.{laid, SlotNexts, SlotTops};
ghost use Rattle.store.specs.StoreModel.{fresh};

use super::Chains;
use crate::api::{NoSpace, Store};
use crate::links::Linked;
use crate::moves::compact;
use crate::records::{MOST_RECORDS, Record};
use crate::slots::{CHAINS, InSlots};
use crate::tally::Tally;
use std::alloc::{AllocFailed, Global};
use words::changes::Change;

impl Chains {
    /// A fresh store in the memory of the records: as many as they are, at most 4,096. The links are allocated here and
    /// never again. Where there is no memory for them, the records are handed back.
    pub fn new(heap: Global, records: Vec<Record>) -> Result<Chains, AllocFailed<Vec<Record>>>
        ensures { MatchResult result (λ c. chains_model c ≡ fresh (min (vec_len records) 4096)) (λ e. e.value ≡ records) }
    {
        let capacity = records.len().min(MOST_RECORDS);
        let Ok(slots) = (0..capacity as u16).collect(heap) else {
            return Err(AllocFailed { value: records });
        };
        let Ok(next) = vec![in heap; 0u16; capacity] else {
            return Err(AllocFailed { value: records });
        };
        Ok(Chains {
            records,
            slots,
            next,
            heads: [0; CHAINS],
            tally: Tally::new(capacity),
        })
    }

    // The sealed records with their links.
    fn sealed(&self) -> Linked<'_>
        ensures records { result.row.records.now ≡ self.now.records.items }
        ensures slots { result.row.slots.now ≡ self.now.slots.items }
        ensures count { result.count ≡ self.now.tally.sealed }
    {
        Linked {
            row: InSlots {
                records: self.records.as_slice(),
                slots: self.slots.as_slice(),
            },
            next: self.next.as_slice(),
            heads: &self.heads,
            count: self.tally.sealed,
        }
    }
}

impl Store for Chains {
    ghost model = { chains_model };

    ghost bounded = { λ s. chains_bounded s };

    fn version(&self) -> u32 {
        self.tally.version
    }

    fn capacity(&self) -> u32 {
        self.slots.len() as u32
    }

    fn sealed_count(&self) -> u32 {
        self.tally.sealed as u32
    }

    fn staged_count(&self) -> u32 {
        self.tally.staged as u32
    }

    fn read(&self, item: u32, at: u32) -> Option<i32> {
        let slot = self.sealed().find_behind(None, item, at)?;
        self.records[slot].value()
    }

    fn stage(&mut self, item: u32, change: Change) -> Result<(), NoSpace> {
        let place = self.tally.stage()?;
        let slot = self.slots[place] as usize;
        self.records[slot] = Record {
            version: self.tally.version + 1,
            item,
            change,
        };
        Ok(())
    }

    fn seal(&mut self) {
        let from = self.tally.sealed;
        self.tally.seal();
        let row = InSlots {
            records: self.records.as_slice(),
            slots: self.slots.as_slice(),
        };
        row.link(
            self.next.as_mut_slice(),
            &mut self.heads,
            from,
            self.tally.sealed,
        );
    }

    fn drop_staged(&mut self) {
        self.tally.drop_staged();
    }

    fn prune(&mut self, to: u32) {
        // In an array, since a prune may not fail for want of memory.
        let mut gone = [false; MOST_RECORDS];
        self.sealed().mark_replaced(to, &mut gone);
        let used = self.tally.sealed + self.tally.staged;
        let left = compact(&mut self.slots, &gone[0..used]);
        self.tally.keep(left);
        self.heads = [0; CHAINS];
        let row = InSlots {
            records: self.records.as_slice(),
            slots: self.slots.as_slice(),
        };
        row.link(
            self.next.as_mut_slice(),
            &mut self.heads,
            0,
            self.tally.sealed,
        );
    }
}
