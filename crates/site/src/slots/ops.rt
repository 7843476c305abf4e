// What is asked of the slots, and the changes to them: one slot put, and posted edits settled.
ghost use Rattle.std.specs.Prelude.{◌≡◌, ◌<◌, T, Some, map, replicate, IfSome, OnSome, slice_set};
ghost use Rattle.site.specs.Slots.{empty, is_empty, slot_model, slots_model, lowest_empty, all_empty, open_edit, edit_of, has_posted, held_decision, least_needed, own_ticket, settled};
ghost use Rattle.std.specs.List.{slice_get};

use super::{Slot, Slots};
use crate::edits::Edit;
use crate::home::Home;
use crate::spelling::is_spelt;
use account::decisions::Decision;

impl Slot {
    fn is_empty(&self) -> bool
        ensures { result ≡ is_empty (slot_model self.now) }
    {
        matches!(self, Slot::Empty)
    }

    // Whether the slot holds a posted edit of the site whose words these are, and under which ticket.
    fn own_ticket(&self, home: Home, words: &[u32]) -> Option<u32>
        ensures { result ≡ own_ticket home.number words.now (Some (slot_model self.now)) }
    {
        match self {
            Slot::Posted(edit) if is_spelt(home, edit, words) => Some(edit.ticket),
            _ => None,
        }
    }
}

impl Slots {
    // Eight empty slots.
    pub(crate) fn none() -> Slots
        ensures { slots_model result ≡ replicate 8 empty }
    {
        Slots {
            table: [Slot::Empty; 8],
        }
    }

    pub(crate) fn lowest_empty(&self) -> Option<u32>
        ensures is { result ≡ lowest_empty (slots_model self.now) }
        ensures within { IfSome result (λ i. i < 8) }
    {
        let lowest = self.table.iter().position(|slot| slot.is_empty())?;
        Some(lowest as u32)
    }

    pub(crate) fn are_empty(&self) -> bool
        ensures { result ≡ all_empty (slots_model self.now) }
    {
        self.table.iter().all(|slot| slot.is_empty())
    }

    // The edit that the slot holds open under the ticket.
    pub(crate) fn open_edit(&self, slot: u32, ticket: u32) -> Option<&Edit>
        ensures is { edit_of result ≡ open_edit (slots_model self.now) slot ticket }
        ensures within { OnSome result (slot < 8) }
    {
        match self.table.get(slot as usize) {
            Some(Slot::Open(edit)) if edit.ticket == ticket => Some(edit),
            _ => None,
        }
    }

    // Whether the slot holds a posted edit of the ticket, decided or not.
    pub(crate) fn has_posted(&self, slot: u32, ticket: u32) -> bool
        ensures is { result ≡ has_posted (slots_model self.now) slot ticket }
        ensures within { T result → slot < 8 }
    {
        match self.table.get(slot as usize) {
            Some(Slot::Posted(edit)) => edit.ticket == ticket,
            Some(Slot::Decided { ticket: theirs, .. }) => *theirs == ticket,
            _ => false,
        }
    }

    // The decision that the slot holds, if it was decided.
    pub(crate) fn decision(&self, slot: u32) -> Option<Decision>
        ensures { result ≡ held_decision (slice_get (slots_model self.now) slot) }
    {
        match self.table.get(slot as usize) {
            Some(Slot::Decided { decision, .. }) => Some(*decision),
            _ => None,
        }
    }

    // The least of the version and the snapshots of open and posted slots.
    pub(crate) fn keep(&self, version: u32) -> u32
        ensures { result ≡ least_needed version (slots_model self.now) }
    {
        let mut least = version;
        for slot in &self.table {
            match slot {
                Slot::Open(edit) => least = least.min(edit.snapshot),
                Slot::Posted(edit) => least = least.min(edit.snapshot),
                _ => {}
            }
        }
        least
    }

    pub(crate) fn put(&mut self, slot: u32, to: Slot)
        requires { slot < 8 }
        ensures { slots_model self.new ≡ slice_set (slots_model self.old) slot (slot_model to) }
    {
        self.table[slot as usize] = to;
    }

    // Gives the decision to the posted edits of the site whose words these are.
    pub(crate) fn settle(&mut self, home: Home, words: &[u32], decision: Decision)
        ensures { slots_model self.new ≡ map (settled home.number words.now decision) (slots_model self.old) }
    {
        for slot in self.table.iter_mut() {
            if let Some(ticket) = slot.own_ticket(home, words) {
                *slot = Slot::Decided { ticket, decision };
            }
        }
    }
}
