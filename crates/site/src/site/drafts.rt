// Calls of a draft: it begins, reads, writes and is given up. A look reads without one.
ghost use Rattle.std.specs.Prelude.{◌≡◌, ◌<◌, OnSome};
ghost use Rattle.site.specs.Handles.{draft_handle};
ghost use Rattle.site.specs.Slots.{edit_of};
ghost use Rattle.site.specs.SiteModel.{site_model};
ghost use Rattle.site.specs.Calls.{called, told, drafted, Done, Drafted, Value, Begin, Read, Look, Put, GiveUp};

use super::Site;
use crate::edits::Edit;
use crate::handles::{Draft, Handle};
use crate::modes::{Event, admit};
use crate::refusals::Refusal;
use crate::slots::Slot;
use logs::api::Log;
use store::api::Store;
use words::changes::{Change, Write, is_in_range};
use words::limits::LIMIT;

impl<S: Store, L: Log> Site<S, L> {
    /// Takes a ticket, opens the lowest empty slot with the store's version as its snapshot, and gives a draft.
    pub fn begin(&mut self) -> Result<Draft, Refusal>
        ensures { (told (λ d. Drafted (draft_handle d)) result, site_model S.Store.model L.Log.model self.new) ≡ called (site_model S.Store.model L.Log.model self.old) Begin }
    {
        admit(self.mode, Event::Begin)?;
        let slot = self.slots.lowest_empty().ok_or(Refusal::NoSlot)?;
        let tickets = self.log.tickets();
        if tickets >= LIMIT {
            return Err(Refusal::NoTicket);
        }
        self.log.ticket();
        let ticket = tickets + 1;
        let edit = Edit::start(ticket, self.store.version());
        self.slots.put(slot, Slot::Open(edit));
        Ok(Draft(Handle {
            site: self.home.number,
            slot,
            ticket,
        }))
    }

    // The edit that the draft of the handle still has open here.
    pub(crate) fn drafted(&self, handle: Handle) -> Option<&Edit>
        ensures is { edit_of result ≡ drafted (site_model S.Store.model L.Log.model self.now) handle }
        ensures within { OnSome result (handle.slot < 8) }
    {
        if handle.site != self.home.number {
            return None;
        }
        self.slots.open_edit(handle.slot, handle.ticket)
    }

    /// The value of an item without a draft, at the store's version.
    pub fn look(&self, item: u32) -> Result<Option<i32>, Refusal>
        ensures { (told Value result, site_model S.Store.model L.Log.model self.now) ≡ called (site_model S.Store.model L.Log.model self.now) (Look item) }
    {
        admit(self.mode, Event::Other)?;
        if item > LIMIT {
            return Err(Refusal::OutOfRange);
        }
        Ok(self.store.read(item, self.store.version()))
    }

    /// The draft's own write, or the value that the store has at its snapshot.
    pub fn read(&self, draft: &Draft, item: u32) -> Result<Option<i32>, Refusal>
        ensures { (told Value result, site_model S.Store.model L.Log.model self.now) ≡ called (site_model S.Store.model L.Log.model self.now) (Read (draft_handle draft.now) item) }
    {
        admit(self.mode, Event::Other)?;
        let edit = self.drafted(draft.0).ok_or(Refusal::NotYours)?;
        if item > LIMIT {
            return Err(Refusal::OutOfRange);
        }
        match edit.own(item) {
            Some(Change::Set(value)) => Ok(Some(value)),
            Some(Change::Remove) => Ok(None),
            None => Ok(self.store.read(item, edit.snapshot)),
        }
    }

    /// Sets or replaces one write of the draft.
    pub fn write(&mut self, draft: &Draft, write: Write) -> Result<(), Refusal>
        ensures { (told (λ _. Done) result, site_model S.Store.model L.Log.model self.new) ≡ called (site_model S.Store.model L.Log.model self.old) (Put (draft_handle draft.now) write) }
    {
        admit(self.mode, Event::Other)?;
        let mut edit = *self.drafted(draft.0).ok_or(Refusal::NotYours)?;
        if self.change.is_some() {
            return Err(Refusal::ChangeUnderWay);
        }
        if !is_in_range(write) {
            return Err(Refusal::OutOfRange);
        }
        edit.put(write)?;
        self.slots.put(draft.0.slot, Slot::Open(edit));
        Ok(())
    }

    /// Ends the draft, and empties its slot if it still has it.
    pub fn give_up(&mut self, draft: Draft)
        ensures { (Done, site_model S.Store.model L.Log.model self.new) ≡ called (site_model S.Store.model L.Log.model self.old) (GiveUp (draft_handle draft)) }
    {
        let Draft(handle) = draft;
        if self.drafted(handle).is_some() {
            self.slots.put(handle.slot, Slot::Empty);
        }
    }
}
