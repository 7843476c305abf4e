// Making a site, and what has to be so before.
ghost use Rattle.std.specs.Prelude.{◌≡◌};
ghost use Rattle.words.specs.Bits.{every, is_group};
ghost use Rattle.site.specs.SiteModel.{site_model};
ghost use Rattle.site.specs.Making.{is_zero, is_fresh_store, is_fresh_log, making, made_of};
ghost use Rattle.site.specs.Spoken.{is_idle, is_new};

use super::Site;
use crate::gather::known_of;
use crate::home::Home;
use crate::modes::Mode;
use crate::refusals::Refusal;
use crate::slots::Slots;
use logs::api::Log;
use store::api::Store;
use words::limits::is_group;

/// Why no site was made, and the store and the log that were handed in.
#[derive(Drop)]
pub struct NotMade<S: Store, L: Log> {
    pub refusal: Refusal,
    pub store: S,
    pub log: L,
}

// Whether every known number is 0.
fn is_unknown<L: Log>(log: &L) -> bool
    ensures { result ≡ every is_zero (L.Log.model log.now).known }
{
    known_of(log).as_slice().iter().all(|number| *number == 0)
}

fn is_fresh_store<S: Store>(store: &S) -> bool
    ensures { result ≡ is_fresh_store (S.Store.model store.now) }
{
    store.version() == 0 && store.sealed_count() == 0 && store.staged_count() == 0
}

fn is_fresh_log<L: Log>(log: &L) -> bool
    ensures { result ≡ is_fresh_log (L.Log.model log.now) }
{
    log.last() == 0 && log.place() == 0 && log.tickets() == 0 && log.is_whole() && is_unknown(log)
}

impl<S: Store, L: Log> Site<S, L> {
    // Whether the mode, the slots and the change are those of a site that nothing has happened to.
    fn is_idle(&self) -> bool
        ensures { result ≡ is_idle (site_model S.Store.model L.Log.model self.now) }
    {
        self.mode == Mode::Whole && self.slots.are_empty() && self.change.is_none()
    }

    // Whether the site is that number of a group of so many, as it was made.
    pub(crate) fn is_as_made(&self, sites: u32, number: u32) -> bool
        ensures { result ≡ is_new sites number (site_model S.Store.model L.Log.model self.now) }
    {
        self.home.number == number
            && self.home.sites == sites
            && self.log.sites() == sites
            && is_fresh_store(&self.store)
            && is_fresh_log(&self.log)
            && self.is_idle()
    }

    /// A site of a group, over a fresh store and a fresh log; the log says how many sites there are. A refusal hands both
    /// back.
    pub fn new(number: u32, store: S, log: L) -> Result<Site<S, L>, NotMade<S, L>>
        ensures { making S.Store.model L.Log.model result ≡ made_of S.Store.model L.Log.model number store log }
    {
        let sites = log.sites();
        if !is_group(sites) || number >= sites || !is_fresh_store(&store) || !is_fresh_log(&log) {
            return Err(NotMade {
                refusal: Refusal::NotFresh,
                store,
                log,
            });
        }
        Ok(Site {
            home: Home { number, sites },
            store,
            log,
            mode: Mode::Whole,
            slots: Slots::none(),
            change: None,
        })
    }
}
