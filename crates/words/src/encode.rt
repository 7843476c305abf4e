// Messages and pages, written as words from a buffer's first word on.
ghost use Rattle.std.specs.Prelude.{◌≡◌, ◌&&◌, take, IfOk, Some, nat_lt};
ghost use Rattle.words.specs.Bits.{is_group};
ghost use Rattle.words.specs.Messages.{message_words, valid_message, message_of};
ghost use Rattle.words.specs.Pages.{page_words, valid_page, page_of};
ghost use Rattle.words.specs.Encoded.{refusal_number, reply, put_answer, put_after, edit_value, report_value, entry_value, closing_value};

use crate::bits::{Kind, fits, make_head, make_word};
use crate::changes::{Write, are_valid};
use crate::limits::{are_within, is_group};
use crate::put::{put_closing, put_entry, put_with_writes};

/// Why no words were written: what was handed in is none of the group, or the buffer is too short for its words.
#[derive(Clone, Copy, PartialEq, Eq, Debug)]
pub enum Refusal {
    OutOfRange,
    TooShort,
}

impl Refusal {
    /// The number of the refusal in the table of all calls, which fixes it: 8 or 10.
    pub fn number(self) -> u32
        ensures { result ≡ refusal_number self }
    {
        match self {
            Refusal::OutOfRange => 8,
            Refusal::TooShort => 10,
        }
    }
}

/// What an edit says.
#[derive(Clone, Copy)]
pub struct EditParts<'a> {
    pub site: u32,
    pub ticket: u32,
    pub snapshot: u32,
    pub writes: &'a [Write],
}

/// What a report says.
#[derive(Clone, Copy)]
pub struct ReportParts {
    pub site: u32,
    pub version: u32,
}

/// What an entry page says. It is no edit with a version: the numbers have other bounds, and the words stand in another order.
#[derive(Clone, Copy)]
pub struct EntryParts<'a> {
    pub site: u32,
    pub version: u32,
    pub ticket: u32,
    pub writes: &'a [Write],
}

/// What a closing page says: the known numbers stand by site.
#[derive(Clone, Copy)]
pub struct ClosingParts<'a> {
    pub version: u32,
    pub place: u32,
    pub known: &'a [u32],
}

// Whether the site is one of a group of `sites`.
fn is_site(site: u32, sites: u32) -> bool
    ensures { result ≡ (is_group sites && nat_lt site sites) }
{
    is_group(sites) && site < sites
}

impl EditParts<'_> {
    // Whether a group of `sites` sites has such an edit.
    fn is_valid(self, sites: u32) -> bool
        ensures { result ≡ valid_message sites (edit_value self.entry) }
    {
        is_site(self.site, sites)
            && fits(self.ticket, 1)
            && fits(self.snapshot, 0)
            && are_valid(self.writes)
    }
}

impl ReportParts {
    // Whether a group of `sites` sites has such a report.
    fn is_valid(self, sites: u32) -> bool
        ensures { result ≡ valid_message sites (report_value self) }
    {
        is_site(self.site, sites) && fits(self.version, 0)
    }
}

impl EntryParts<'_> {
    // Whether a group of `sites` sites has such an entry page.
    fn is_valid(self, sites: u32) -> bool
        ensures { result ≡ valid_page sites (entry_value self.entry) }
    {
        is_site(self.site, sites)
            && fits(self.version, 1)
            && fits(self.ticket, 1)
            && are_valid(self.writes)
    }
}

impl ClosingParts<'_> {
    // Whether a group of `sites` sites has such a closing page.
    fn is_valid(self, sites: u32) -> bool
        ensures { result ≡ valid_page sites (closing_value self.entry) }
    {
        is_group(sites)
            && self.known.len() == sites as usize
            && fits(self.place, self.version)
            && are_within(self.known, self.version)
    }
}

/// Writes an edit of a group of `sites` sites from the buffer's first word on, leaves the rest of the
/// buffer, and answers how many words it wrote. Where it refuses, the buffer is as it was.
// A caller often knows how many writes there are, so that no loop over them is left where this is inlined.
#[inline]
pub fn write_edit(out: &mut [u32], sites: u32, edit: EditParts<'_>) -> Result<usize, Refusal>
    ensures answer { reply result ≡ put_answer (valid_message sites (edit_value edit.entry)) (message_words (edit_value edit.entry)) out.old }
    ensures after { out.new ≡ put_after (valid_message sites (edit_value edit.entry)) (message_words (edit_value edit.entry)) out.old }
    ensures reads_back { IfOk result (λ k. message_of sites (take k out.new) ≡ Some (edit_value edit.entry)) }
{
    if !edit.is_valid(sites) {
        return Err(Refusal::OutOfRange);
    }
    let head = make_head(Kind::Edit, edit.site, edit.writes.len() as u32);
    let ticket = make_word(Kind::Ticket, edit.ticket);
    let snapshot = make_word(Kind::Version, edit.snapshot);
    put_with_writes(out, [head, ticket, snapshot], edit.writes)
}

/// Writes a report of a group of `sites` sites, as `write_edit` writes an edit.
pub fn write_report(out: &mut [u32], sites: u32, report: ReportParts) -> Result<usize, Refusal>
    ensures answer { reply result ≡ put_answer (valid_message sites (report_value report)) (message_words (report_value report)) out.old }
    ensures after { out.new ≡ put_after (valid_message sites (report_value report)) (message_words (report_value report)) out.old }
    ensures reads_back { IfOk result (λ k. message_of sites (take k out.new) ≡ Some (report_value report)) }
{
    if !report.is_valid(sites) {
        return Err(Refusal::OutOfRange);
    }
    if out.len() < 2 {
        return Err(Refusal::TooShort);
    }
    out[0] = make_head(Kind::Report, report.site, 0);
    out[1] = make_word(Kind::Version, report.version);
    Ok(2)
}

/// Writes an entry page of a group of `sites` sites, as `write_edit` writes an edit.
pub fn write_entry(out: &mut [u32], sites: u32, entry: EntryParts<'_>) -> Result<usize, Refusal>
    ensures answer { reply result ≡ put_answer (valid_page sites (entry_value entry.entry)) (page_words (entry_value entry.entry)) out.old }
    ensures after { out.new ≡ put_after (valid_page sites (entry_value entry.entry)) (page_words (entry_value entry.entry)) out.old }
    ensures reads_back { IfOk result (λ k. page_of sites (take k out.new) ≡ Some (entry_value entry.entry)) }
{
    if !entry.is_valid(sites) {
        return Err(Refusal::OutOfRange);
    }
    put_entry(out, entry)
}

/// Writes a closing page of a group of `sites` sites, as `write_edit` writes an edit.
pub fn write_closing(
    out: &mut [u32],
    sites: u32,
    closing: ClosingParts<'_>,
) -> Result<usize, Refusal>
    ensures answer { reply result ≡ put_answer (valid_page sites (closing_value closing.entry)) (page_words (closing_value closing.entry)) out.old }
    ensures after { out.new ≡ put_after (valid_page sites (closing_value closing.entry)) (page_words (closing_value closing.entry)) out.old }
    ensures reads_back { IfOk result (λ k. page_of sites (take k out.new) ≡ Some (closing_value closing.entry)) }
{
    if !closing.is_valid(sites) {
        return Err(Refusal::OutOfRange);
    }
    put_closing(out, closing)
}
