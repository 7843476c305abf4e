// Deliver: each place of the order is decided by the log's entries above the edit's snapshot.
ghost use Rattle.std.specs.Prelude.{◌≡◌, ◌≤◌, Some};
ghost use Rattle.words.specs.Messages.{an_edit, message_of};
ghost use Rattle.site.specs.Certify.{judged_by, heard_by};
ghost use Rattle.site.specs.SiteModel.{site_model};
ghost use Rattle.site.specs.Calls.{called, told, entered, turned, first, placing, Deliver, Told};

use super::Site;
use crate::certify::find_clash;
use crate::gather::gather;
use crate::modes::{Event, admit};
use crate::refusals::Refusal;
use account::decisions::Decision;
use logs::api::Log;
use logs::heads::NewEntry;
use store::api::Store;
use words::changes::Write;
use words::limits::LIMIT;
use words::messages::{Message, read_message};

// An edit of a snapshot and writes, by the log. It is written apart from the account's own judge, which it is held against.
fn judge<L: Log>(log: &L, snapshot: u32, writes: &[Write]) -> Decision
    ensures { result ≡ judged_by (L.Log.model log.now) snapshot writes.now }
{
    let last = log.last();
    if last < snapshot {
        return Decision::Ahead;
    }
    if snapshot < log.least() {
        return Decision::TooOld;
    }
    match find_clash(log, snapshot, writes) {
        Some(version) => Decision::Conflict(version),
        None => Decision::Commit(last + 1),
    }
}

// Takes a report of a version: it counts as no more than the last one.
fn hear<L: Log>(log: &mut L, site: u32, version: u32)
    ensures { L.Log.model log.new ≡ heard_by (L.Log.model log.old) site version }
{
    let old = log.known(site).unwrap_or(0);
    let new = old.max(version.min(log.last()));
    log.note(site, new);
}

// Decides an edit by the log, which keeps it if it commits.
fn enter<L: Log>(log: &mut L, entry: NewEntry<'_>, snapshot: u32) -> Result<Decision, Refusal>
    ensures { (told Told result, L.Log.model log.new) ≡ entered (L.Log.model log.old) (Some (an_edit entry.entry.home entry.entry.ticket snapshot entry.entry.writes.now)) }
{
    let decision = judge(log, snapshot, entry.writes);
    let Decision::Commit(_) = decision else {
        log.pass();
        return Ok(decision);
    };
    log.commit(entry)?;
    Ok(decision)
}

// Whether the place is the next one.
fn check_place(last: u32, place: u32) -> Result<(), Refusal>
    requires { last ≤ 268435455 }
    ensures { turned result ≡ first (placing last place) }
{
    if place <= last {
        return Err(Refusal::PlaceDecided);
    }
    if last + 1 < place || LIMIT < place {
        return Err(Refusal::PlaceAhead);
    }
    Ok(())
}

// Decides words by the log.
fn decide<L: Log>(log: &mut L, sites: u32, words: &[u32]) -> Result<Decision, Refusal>
    ensures { (told Told result, L.Log.model log.new) ≡ entered (L.Log.model log.old) (message_of sites words.now) }
{
    let Some(message) = read_message(words, sites) else {
        log.pass();
        return Ok(Decision::Void);
    };
    match message {
        Message::Report { site, version } => {
            hear(log, site, version);
            Ok(Decision::Noted)
        }
        Message::Edit {
            site,
            ticket,
            snapshot,
            writes,
        } => {
            let gathered = gather(writes);
            let entry = NewEntry {
                home: site,
                ticket,
                writes: gathered.as_slice(),
            };
            enter(log, entry, snapshot)
        }
    }
}

impl<S: Store, L: Log> Site<S, L> {
    /// Decides the words of the next place, by the log's entries above the edit's snapshot, and gives the decision to the
    /// posted edit whose words they are.
    pub fn deliver(&mut self, place: u32, words: &[u32]) -> Result<Decision, Refusal>
        ensures { (told Told result, site_model S.Store.model L.Log.model self.new) ≡ called (site_model S.Store.model L.Log.model self.old) (Deliver place words.now) }
    {
        admit(self.mode, Event::Deliver)?;
        check_place(self.log.place(), place)?;
        let decision = decide(&mut self.log, self.home.sites, words)?;
        self.slots.settle(self.home, words, decision);
        Ok(decision)
    }
}
