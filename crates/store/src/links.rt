// Records in slots with the links of their chains.
ghost use Rattle.std.specs.Prelude.{◌≡◌, ◌-◌, ◌%◌, ◌<◌, ◌≤◌, ◌++◌, length, take, drop};
ghost use Rattle.store.specs.Links.{chain_at};
ghost use Rattle.store.specs.Rows.{last_place, replaced};
ghost use Rattle.store.specs.Slots.{laid, after, link_to, later_slot, SlotNexts, SlotTops};
ghost use Rattle.store.specs.StoreModel.{matches};

use crate::slots::{CHAINS, InSlots};

/// Records in slots, of which the first `count` are linked.
#[derive(Clone, Copy)]
pub(crate) struct Linked<'a> {
    pub(crate) row: InSlots<'a>,
    pub(crate) next: &'a [u16],
    pub(crate) heads: &'a [u16; CHAINS],
    pub(crate) count: usize,
    ghost within: { count ≤ length row.slots.now },
    ghost links: { length row.slots.now ≤ length next.now },
    ghost linked: { SlotNexts (laid row.records.now row.slots.now) row.slots.now next.now count },
    ghost topped: { SlotTops (laid row.records.now row.slots.now) row.slots.now heads.now count },
}

impl Linked<'_> {
    // The link to the record at the place, or to none.
    fn link_to(&self, place: Option<usize>) -> u16
        requires { after place ≤ self.now.count }
        ensures { result ≡ link_to self.now.row.slots.now (after place) }
    {
        match place {
            Some(place) => self.row.slots[place] + 1,
            None => 0,
        }
    }

    // The slot of the last record of the item with a version of at most `at`, if that stands behind the place.
    // The record at the place is of the item's chain, which is followed no further.
    pub(crate) fn find_behind(&self, place: Option<usize>, item: u32, at: u32) -> Option<usize>
        requires within { after place ≤ self.now.count }
        requires chained { 0 < after place → chain_at (laid self.now.row.records.now self.now.row.slots.now) (after place - 1) ≡ item % 64 }
        ensures { result ≡ later_slot self.now.row.slots.now (after place) (last_place (matches item at) (laid self.now.row.records.now self.now.row.slots.now) self.now.count) }
    {
        let stop = self.link_to(place);
        let mut link = self.heads[item as usize % CHAINS];
        while link != stop {
            let slot = (link - 1) as usize;
            if self.row.records[slot].is_match(item, at) {
                return Some(slot);
            }
            link = self.next[slot];
        }
        None
    }

    // Marks each linked record that a prune to `to` removes: a later one of its item has a version of at most `to`.
    pub(crate) fn mark_replaced(&self, to: u32, gone: &mut [bool])
        requires { self.now.count ≤ length gone.old }
        ensures { gone.new ≡ replaced to (take self.now.count (laid self.now.row.records.now self.now.row.slots.now)) ++ drop self.now.count gone.old }
    {
        // By index: a place has a slot and a mark, and is itself what the walk stops at.
        for i in 0..self.count {
            let slot = self.row.slots[i] as usize;
            let item = self.row.records[slot].item;
            gone[i] = self.find_behind(Some(i), item, to).is_some();
        }
    }
}
