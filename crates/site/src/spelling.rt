// The words of what a site sends, written into a caller's buffer.
ghost use Rattle.std.specs.Prelude.{◌≡◌, ℕ, ◌<◌, ◌≤◌, take, Ok};
ghost use Rattle.std.specs.Str.{bytes_eq};
ghost use Rattle.words.specs.Messages.{a_report, message_words};
ghost use Rattle.words.specs.Pages.{an_entry, a_closing, page_words};
ghost use Rattle.logs.specs.LogModel.{last_version, entry_at};
ghost use Rattle.site.specs.Edits.{edit_model};
ghost use Rattle.site.specs.Modes.{reply};
ghost use Rattle.site.specs.Spelling.{spelt, own_words};
ghost use Rattle.site.specs.CatchUp.{page_at};
ghost use Rattle.site.specs.Calls.{writes_in};

use crate::edits::Edit;
use crate::gather::{gather_entry, known_of};
use crate::home::Home;
use crate::refusals::Refusal;
use logs::api::Log;
use logs::heads::EntryHead;
use words::encode::{ClosingParts, EditParts, EntryParts, ReportParts, write_edit, write_report};
use words::spell::{spell_closing, spell_entry};

// Writes an edit of this site, if the buffer has room for it; one that wrote nothing has no words.
pub(crate) fn spell_edit(home: Home, edit: &Edit, out: &mut [u32]) -> Result<usize, Refusal>
    ensures put { (reply (λ n. n) result, out.new) ≡ spelt (own_words home.number (edit_model edit.now)) out.old }
    ensures front { (n : ℕ) → result ≡ Ok n → take n out.new ≡ own_words home.number (edit_model edit.now) }
{
    if edit.is_empty() {
        return Ok(0);
    }
    let parts = EditParts {
        site: home.number,
        ticket: edit.ticket,
        snapshot: edit.snapshot,
        writes: edit.writes(),
    };
    Ok(write_edit(out, home.sites, parts)?)
}

// Whether these words are those of an edit of this site.
pub(crate) fn is_spelt(home: Home, edit: &Edit, words: &[u32]) -> bool
    ensures { result ≡ bytes_eq (own_words home.number (edit_model edit.now)) words.now }
{
    let mut buffer = [0u32; 35];
    let Ok(count) = spell_edit(home, edit, &mut buffer) else {
        return false;
    };
    let own = &buffer[0..count];
    own == words
}

// Writes a report of a version by this site, if the buffer has room for it.
pub(crate) fn spell_report(home: Home, version: u32, out: &mut [u32]) -> Result<usize, Refusal>
    requires { version ≤ 268435455 }
    ensures put { (reply (λ n. n) result, out.new) ≡ spelt (message_words (a_report home.number version)) out.old }
    ensures front { (n : ℕ) → result ≡ Ok n → take n out.new ≡ message_words (a_report home.number version) }
{
    let parts = ReportParts {
        site: home.number,
        version,
    };
    Ok(write_report(out, home.sites, parts)?)
}

// Writes the page of an entry, if the buffer has room for it; the head is that of the version's entry.
fn spell_next<L: Log>(
    log: &L,
    version: u32,
    head: EntryHead,
    out: &mut [u32],
) -> Result<usize, Refusal>
    requires home { head.home < 16 }
    requires ticket { head.ticket ≤ 268435455 }
    requires version { version ≤ 268435455 }
    ensures { (reply (λ n. n) result, out.new) ≡ spelt (page_words (an_entry head.home version head.ticket (writes_in (entry_at (L.Log.model log.now) version)))) out.old }
{
    let writes = gather_entry(log, version);
    let parts = EntryParts {
        site: head.home,
        version,
        ticket: head.ticket,
        writes: writes.as_slice(),
    };
    Ok(spell_entry(out, parts)?)
}

// Writes the closing page of a log, if the buffer has room for it.
fn spell_last<L: Log>(log: &L, out: &mut [u32]) -> Result<usize, Refusal>
    ensures { (reply (λ n. n) result, out.new) ≡ spelt (page_words (a_closing (last_version (L.Log.model log.now)) (L.Log.model log.now).place (L.Log.model log.now).known)) out.old }
{
    let known = known_of(log);
    let parts = ClosingParts {
        version: log.last(),
        place: log.place(),
        known: known.as_slice(),
    };
    Ok(spell_closing(out, parts)?)
}

// Writes the page after a version, if the buffer has room for it: the next entry, or the closing page.
pub(crate) fn spell_page<L: Log>(log: &L, version: u32, out: &mut [u32]) -> Result<usize, Refusal>
    requires { version ≤ last_version (L.Log.model log.now) }
    ensures put { (reply (λ n. n) result, out.new) ≡ spelt (page_words (page_at (L.Log.model log.now) version)) out.old }
    ensures front { (n : ℕ) → result ≡ Ok n → take n out.new ≡ page_words (page_at (L.Log.model log.now) version) }
{
    match log.entry(version + 1) {
        Some(head) => spell_next(log, version + 1, head, out),
        None => spell_last(log, out),
    }
}
