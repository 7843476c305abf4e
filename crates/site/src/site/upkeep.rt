// Calls that keep a site going: trimming, pruning, losing power and waking.
ghost use Rattle.std.specs.Prelude.{◌≡◌};
ghost use Rattle.site.specs.SiteModel.{site_model};
ghost use Rattle.site.specs.Calls.{called, told, Done, Woken, Trim, Prune, Crash, Wake};

use super::Site;
use crate::modes::{Event, Mode, admit};
use crate::refusals::Refusal;
use crate::slots::Slots;
use logs::api::Log;
use store::api::Store;

impl<S: Store, L: Log> Site<S, L> {
    /// Trims the log to the smaller of the horizon and the version.
    pub fn trim(&mut self) -> Result<(), Refusal>
        ensures { (told (λ _. Done) result, site_model S.Store.model L.Log.model self.new) ≡ called (site_model S.Store.model L.Log.model self.old) Trim }
    {
        admit(self.mode, Event::Other)?;
        let to = self.log.least().min(self.store.version());
        self.log.trim(to);
        Ok(())
    }

    /// Prunes the store to the least version that an open or posted edit, or a new one, can read.
    pub fn prune(&mut self) -> Result<(), Refusal>
        ensures { (told (λ _. Done) result, site_model S.Store.model L.Log.model self.new) ≡ called (site_model S.Store.model L.Log.model self.old) Prune }
    {
        admit(self.mode, Event::Other)?;
        let to = self.slots.keep(self.store.version());
        self.store.prune(to);
        Ok(())
    }

    /// Power is lost: staged records, the change under way and all slots are gone; the log and sealed records stand.
    pub fn crash(&mut self) -> Result<(), Refusal>
        ensures { (told (λ _. Done) result, site_model S.Store.model L.Log.model self.new) ≡ called (site_model S.Store.model L.Log.model self.old) Crash }
    {
        self.mode = admit(self.mode, Event::Crash)?;
        self.store.drop_staged();
        self.change = None;
        self.slots = Slots::none();
        Ok(())
    }

    /// Power is back: the log's mark says whether the site is whole.
    pub fn wake(&mut self) -> Result<Mode, Refusal>
        ensures { (told Woken result, site_model S.Store.model L.Log.model self.new) ≡ called (site_model S.Store.model L.Log.model self.old) Wake }
    {
        self.mode = admit(self.mode, Event::Wake(self.log.is_whole()))?;
        Ok(self.mode)
    }
}
