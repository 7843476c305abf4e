// Step: a version goes from the log into the store, one write a call.
ghost use Rattle.std.specs.Prelude.{◌≡◌, length, Some, None, nat_lt};
ghost use Rattle.store.specs.StoreModel.{space};
ghost use Rattle.logs.specs.LogModel.{entry_at};
ghost use Rattle.site.specs.SiteModel.{site_model};
ghost use Rattle.site.specs.Texts.{step_text};
ghost use Rattle.site.specs.Calls.{called, told, writes_in, stepped, opening, step_answer, Step};

use super::Site;
use crate::modes::{Event, admit};
use crate::refusals::Refusal;
use logs::api::Log;
use std::fmt;
use store::api::Store;

/// What a step did.
#[derive(Clone, Copy, PartialEq, Eq, Debug)]
pub enum Stepped {
    Opened,
    Staged,
    Sealed,
    Idle,
}

impl fmt::Display for Stepped {
    ghost output = { λ s. Some (step_text s) };

    fn fmt<W: fmt::Write>(&self, f: &mut fmt::Formatter<W>) -> fmt::Result {
        match *self {
            Stepped::Opened => f.write_str("opened"),
            Stepped::Staged => f.write_str("staged"),
            Stepped::Sealed => f.write_str("sealed"),
            Stepped::Idle => f.write_str("idle"),
        }
    }
}

impl<S: Store, L: Log> Site<S, L> {
    /// With no change under way, opens the next version, or is idle if there is none; then stages its writes one by one,
    /// and seals after the last.
    pub fn step(&mut self) -> Result<Stepped, Refusal>
        ensures { (told step_answer result, site_model S.Store.model L.Log.model self.new) ≡ called (site_model S.Store.model L.Log.model self.old) Step }
    {
        admit(self.mode, Event::Other)?;
        match self.change {
            None => self.open(),
            Some(done) => Ok(self.advance(done)),
        }
    }

    // Whether the version has more writes than the store has space for.
    fn lacks_space(&self, version: u32) -> bool
        ensures { result ≡ nat_lt (space (S.Store.model self.now.store)) (length (writes_in (entry_at (L.Log.model self.now.log) version))) }
    {
        let Some(head) = self.log.entry(version) else {
            return false;
        };
        self.store.capacity() - self.store.sealed_count() - self.store.staged_count() < head.count
    }

    // Opens the next version, if there is one and the store has space for its writes.
    fn open(&mut self) -> Result<Stepped, Refusal>
        requires { self.old.change ≡ None }
        ensures { (told step_answer result, site_model S.Store.model L.Log.model self.new) ≡ opening (site_model S.Store.model L.Log.model self.old) }
    {
        let version = self.store.version();
        if version >= self.log.last() {
            return Ok(Stepped::Idle);
        }
        if self.lacks_space(version + 1) {
            return Err(Refusal::StoreFull);
        }
        self.change = Some(0);
        Ok(Stepped::Opened)
    }

    // Stages the next write of the version under way, or seals where there is none left.
    fn advance(&mut self, done: u32) -> Stepped
        ensures { (step_answer result, site_model S.Store.model L.Log.model self.new) ≡ stepped (site_model S.Store.model L.Log.model self.old) (Some done) }
    {
        let version = self.store.version();
        match self.log.write(version + 1, done) {
            Some(write) => {
                // There is space: it was looked at when the version was opened.
                let _ = self.store.stage(write.item, write.change);
                self.change = Some(done + 1);
                Stepped::Staged
            }
            None => {
                self.store.seal();
                self.change = None;
                Stepped::Sealed
            }
        }
    }
}
