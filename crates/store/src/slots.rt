// Records in slots: a list of the slots gives the records their order, and each is linked to the one before it in its chain.
// A link is one more than a slot, or 0 at the end of its chain: the links of a store take two bytes each.
ghost use Rattle.std.specs.Prelude.{◌≡◌, ◌≤◌, length};
ghost use Rattle.store.specs.Slots.{laid, Below, Apart, SlotNexts, SlotTops};

use crate::records::Record;

pub(crate) const CHAINS: usize = 64;

/// Records, and the slots of some of them in order.
#[derive(Clone, Copy)]
pub(crate) struct InSlots<'a> {
    pub(crate) records: &'a [Record],
    pub(crate) slots: &'a [u16],
    ghost small: { length slots.now ≤ 4096 },
    ghost memory: { length slots.now ≤ length records.now },
    ghost below: { Below (length slots.now) slots.now },
    ghost apart: { Apart slots.now },
}

impl InSlots<'_> {
    // Links the records from place `from` up to place `to`.
    pub(crate) fn link(&self, next: &mut [u16], heads: &mut [u16; CHAINS], from: usize, to: usize)
        requires up { from ≤ to }
        requires within { to ≤ length self.now.slots.now }
        requires links { length self.now.slots.now ≤ length next.old }
        requires linked { SlotNexts (laid self.now.records.now self.now.slots.now) self.now.slots.now next.old from }
        requires topped { SlotTops (laid self.now.records.now self.now.slots.now) self.now.slots.now heads.old from }
        ensures linked { SlotNexts (laid self.now.records.now self.now.slots.now) self.now.slots.now next.new to }
        ensures topped { SlotTops (laid self.now.records.now self.now.slots.now) self.now.slots.now heads.new to }
    {
        for &slot in &self.slots[from..to] {
            let chain = self.records[slot as usize].item as usize % CHAINS;
            next[slot as usize] = heads[chain];
            heads[chain] = slot + 1;
        }
    }
}
