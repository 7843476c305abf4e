// Calls of a posted edit, and the words that a site sends: post, outcome, let go, report. What is by the handle alone says
// a refusal by `?`; the public call gives the draft or the posted edit back.
ghost use Rattle.std.specs.Prelude.{◌≡◌, ◌<◌, T, length};
ghost use Rattle.site.specs.Handles.{draft_handle, posted_handle};
ghost use Rattle.site.specs.SiteModel.{site_model};
ghost use Rattle.site.specs.Calls.{called, told, awaited, Done, Post, Outcome, LetGo, Report, sending, posting, DraftBack, outcome_of, outcome_told, PostedBack, reporting, landed};

use super::Site;
use crate::handles::{Draft, Handle, Posted};
use crate::modes::{Event, admit};
use crate::refusals::Refusal;
use crate::slots::Slot;
use crate::spelling::{spell_edit, spell_report};
use account::decisions::Decision;
use logs::api::Log;
use store::api::Store;

/// A posted edit, and how many words its message has.
pub struct Sent {
    pub posted: Posted,
    pub count: usize,
}

/// What is known of a posted edit: nothing yet, with the posted edit given back, or its decision. Neither is an error, so it is
/// no result, and an option could not give the edit back.
pub enum Answered {
    Pending(Posted),
    Decided(Decision),
}

impl<S: Store, L: Log> Site<S, L> {
    // Whether the slot still holds the posted edit of the handle.
    fn awaits(&self, handle: Handle) -> bool
        ensures is { result ≡ awaited (site_model S.Store.model L.Log.model self.now) handle }
        ensures within { T result → handle.slot < 8 }
    {
        handle.site == self.home.number && self.slots.has_posted(handle.slot, handle.ticket)
    }

    /// Writes the draft's edit from the buffer's first word on, and gives a posted edit and how many words there are; or, with
    /// nothing written, empties the slot, and there is none. A refusal hands the draft back and leaves the buffer.
    pub fn post(&mut self, draft: Draft, out: &mut [u32]) -> Result<Option<Sent>, (Refusal, Draft)>
        ensures told { (posting (draft_handle draft) out.new result, site_model S.Store.model L.Log.model self.new) ≡ called (site_model S.Store.model L.Log.model self.old) (Post (draft_handle draft) (length out.old)) }
        ensures buffer { out.new ≡ landed (posting (draft_handle draft) out.new result) out.old }
        ensures back { DraftBack draft result }
    {
        let Draft(handle) = draft;
        match self.post_by(handle, out) {
            Ok(None) => Ok(None),
            Ok(Some(count)) => Ok(Some(Sent {
                posted: Posted(handle),
                count,
            })),
            Err(refusal) => Err((refusal, Draft(handle))),
        }
    }

    // Posts the edit of the handle: how many words there are, if any were to be written.
    fn post_by(&mut self, handle: Handle, out: &mut [u32]) -> Result<Option<usize>, Refusal>
        ensures told { (told (sending handle out.new) result, site_model S.Store.model L.Log.model self.new) ≡ called (site_model S.Store.model L.Log.model self.old) (Post handle (length out.old)) }
        ensures buffer { out.new ≡ landed (told (sending handle out.new) result) out.old }
    {
        admit(self.mode, Event::Other)?;
        let edit = *self.drafted(handle).ok_or(Refusal::NotYours)?;
        if edit.is_empty() {
            self.slots.put(handle.slot, Slot::Empty);
            return Ok(None);
        }
        let count = spell_edit(self.home, &edit, out)?;
        self.slots.put(handle.slot, Slot::Posted(edit));
        Ok(Some(count))
    }

    /// The decision of a posted edit, whose slot is then empty; or pending, with the posted edit given back.
    pub fn outcome(&mut self, posted: Posted) -> Result<Answered, (Refusal, Posted)>
        ensures told { (outcome_told (posted_handle posted) result, site_model S.Store.model L.Log.model self.new) ≡ called (site_model S.Store.model L.Log.model self.old) (Outcome (posted_handle posted)) }
        ensures back { PostedBack posted result }
    {
        let Posted(handle) = posted;
        match self.outcome_by(handle) {
            Ok(Some(decision)) => Ok(Answered::Decided(decision)),
            Ok(None) => Ok(Answered::Pending(Posted(handle))),
            Err(refusal) => Err((refusal, Posted(handle))),
        }
    }

    // The decision of the posted edit of the handle, if there is one.
    fn outcome_by(&mut self, handle: Handle) -> Result<Option<Decision>, Refusal>
        ensures { (told outcome_of result, site_model S.Store.model L.Log.model self.new) ≡ called (site_model S.Store.model L.Log.model self.old) (Outcome handle) }
    {
        admit(self.mode, Event::Other)?;
        if !self.awaits(handle) {
            return Err(Refusal::NotYours);
        }
        let Some(decision) = self.slots.decision(handle.slot) else {
            return Ok(None);
        };
        self.slots.put(handle.slot, Slot::Empty);
        Ok(Some(decision))
    }

    /// Ends the posted edit, and empties its slot if it still has it.
    pub fn let_go(&mut self, posted: Posted)
        ensures { (Done, site_model S.Store.model L.Log.model self.new) ≡ called (site_model S.Store.model L.Log.model self.old) (LetGo (posted_handle posted)) }
    {
        let Posted(handle) = posted;
        if self.awaits(handle) {
            self.slots.put(handle.slot, Slot::Empty);
        }
    }

    /// Writes a report of keep, the least version that an open or posted edit or a new one can read, from the buffer's first
    /// word on, and answers how many words there are. A refusal leaves the buffer.
    pub fn report(&self, out: &mut [u32]) -> Result<usize, Refusal>
        ensures told { (reporting out.new result, site_model S.Store.model L.Log.model self.now) ≡ called (site_model S.Store.model L.Log.model self.now) (Report (length out.old)) }
        ensures buffer { out.new ≡ landed (reporting out.new result) out.old }
    {
        admit(self.mode, Event::Other)?;
        let keep = self.slots.keep(self.store.version());
        spell_report(self.home, keep, out)
    }
}
