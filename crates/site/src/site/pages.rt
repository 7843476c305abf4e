// Catching up: a whole site writes pages, and another takes them.
ghost use Rattle.std.specs.Prelude.{◌≡◌, ◌≤◌, true, map, length};
ghost use Rattle.std.specs.Option.{option_map};
ghost use Rattle.words.specs.Bits.{load_of};
ghost use Rattle.words.specs.Writes.{leading};
ghost use Rattle.words.specs.Pages.{an_entry, a_closing, page_value, has_words};
ghost use Rattle.site.specs.CatchUp.{covers, follows, page_entered, taking};
ghost use Rattle.site.specs.Modes.{reply};
ghost use Rattle.site.specs.SiteModel.{site_model};
ghost use Rattle.site.specs.Calls.{called, told, reporting, landed, Done, Page as PageCall, Take};

use super::Site;
use crate::gather::{gather, gather_known, known_of};
use crate::modes::{Event, admit};
use crate::refusals::Refusal;
use crate::spelling::spell_page;
use logs::api::Log;
use logs::heads::NewEntry;
use store::api::Store;
use words::pages::{Page, read_page};

// Whether none of the old numbers is above the new one beside it.
fn is_covered(old: &[u32], new: &[u32]) -> bool
    ensures { result ≡ covers old.now new.now }
{
    old.len() <= new.len() && old.iter().zip(new).all(|(old, new)| old <= new)
}

// The event that taking a page is; words that are no page are none of the mode's business.
fn take_event(page: Option<Page<'_>>) -> Event
    ensures { result ≡ taking (option_map page_value page.entry) }
{
    match page {
        Some(Page::Entry { .. }) => Event::TakeEntry,
        Some(Page::Closing { .. }) => Event::TakeClosing,
        None => Event::Other,
    }
}

// Whether a closing page of these is one of the log's last version that lowers no number.
fn does_close<L: Log>(log: &L, version: u32, place: u32, known: &[u32]) -> bool
    ensures { result ≡ follows (L.Log.model log.now) (a_closing version place known.now) }
{
    let old = known_of(log);
    version == log.last() && log.place() <= place && is_covered(old.as_slice(), known)
}

// Closes a log by a closing page, if it follows.
fn close_log<L: Log>(log: &mut L, version: u32, place: u32, known: &[u32]) -> Result<(), Refusal>
    requires { length known.now ≤ 8 }
    ensures { (reply (λ _. tt) result, L.Log.model log.new) ≡ page_entered (L.Log.model log.old) (a_closing version place (map load_of known.now)) }
{
    let numbers = gather_known(known);
    if !does_close(log, version, place, numbers.as_slice()) {
        return Err(Refusal::WrongPage);
    }
    log.close(place, numbers.as_slice());
    Ok(())
}

// Takes an entry into the log, if it is the one after the last.
fn copy_entry<L: Log>(log: &mut L, version: u32, entry: NewEntry<'_>) -> Result<(), Refusal>
    ensures { (reply (λ _. tt) result, L.Log.model log.new) ≡ page_entered (L.Log.model log.old) (an_entry entry.entry.home version entry.entry.ticket entry.entry.writes.now) }
{
    if version != log.last() + 1 {
        return Err(Refusal::WrongPage);
    }
    log.copy(entry)?;
    Ok(())
}

// Takes a page into the log: the entry after the last, or a closing page that lowers nothing.
fn enter_page<L: Log>(log: &mut L, page: Page<'_>) -> Result<(), Refusal>
    requires { has_words (page_value page) ≡ true }
    ensures { (reply (λ _. tt) result, L.Log.model log.new) ≡ page_entered (L.Log.model log.old) (page_value page.entry) }
{
    match page {
        Page::Entry {
            site,
            version,
            ticket,
            writes,
        } => {
            let gathered = gather(writes);
            let entry = NewEntry {
                home: site,
                ticket,
                writes: gathered.as_slice(),
            };
            copy_entry(log, version, entry)
        }
        Page::Closing {
            version,
            place,
            known,
        } => close_log(log, version, place, known),
    }
}

impl<S: Store, L: Log> Site<S, L> {
    /// Writes the page after a version from the buffer's first word on: the next entry, or the closing page after the last
    /// version. Answers how many words there are. A refusal leaves the buffer.
    pub fn page(&self, version: u32, out: &mut [u32]) -> Result<usize, Refusal>
        ensures told { (reporting out.new result, site_model S.Store.model L.Log.model self.now) ≡ called (site_model S.Store.model L.Log.model self.now) (PageCall version (length out.old)) }
        ensures buffer { out.new ≡ landed (reporting out.new result) out.old }
    {
        admit(self.mode, Event::Page)?;
        if self.log.last() < version {
            return Err(Refusal::VersionAhead);
        }
        if version < self.log.floor() {
            return Err(Refusal::VersionTrimmed);
        }
        spell_page(&self.log, version, out)
    }

    /// Takes a page that another site wrote: an entry makes the site partial, a closing page makes it whole.
    pub fn take(&mut self, words: &[u32]) -> Result<(), Refusal>
        ensures { (told (λ _. Done) result, site_model S.Store.model L.Log.model self.new) ≡ called (site_model S.Store.model L.Log.model self.old) (Take words.now) }
    {
        let read = read_page(words, self.home.sites);
        let mode = admit(self.mode, take_event(read))?;
        if !self.slots.are_empty() {
            return Err(Refusal::SlotsHeld);
        }
        let page = read.ok_or(Refusal::NoPage)?;
        enter_page(&mut self.log, page)?;
        self.mode = mode;
        Ok(())
    }
}
