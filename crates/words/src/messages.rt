// Messages: edits and reports, read from words.
ghost use Rattle.std.specs.Prelude.{◌≡◌};
ghost use Rattle.std.specs.Option.{option_map};
ghost use Rattle.words.specs.Kinds.{kind_number};
ghost use Rattle.words.specs.Writes.{heads};
ghost use Rattle.words.specs.Messages.{message_words, valid_message, edit_fits, read_edit, report_fits, read_report, message_of, message_value, Borrowed, OneSpelling, message_kind};

use crate::bits::{Kind, count, has_kind, is_clear_between, is_kind, load, site, word_kind};
use crate::limits::is_group;
use crate::scan::holds_writes;

/// A message read. The writes of an edit are that part of the words handed in.
#[derive(Clone, Copy)]
pub enum Message<'a> {
    Edit {
        site: u32,
        ticket: u32,
        snapshot: u32,
        writes: &'a [u32],
    },
    Report {
        site: u32,
        version: u32,
    },
}

// Whether the head is of that kind, for 1 to 16 writes, and the words are these writes.
pub(crate) fn is_head_of(head: u32, of: Kind, sites: u32, writes: &[u32]) -> bool
    ensures { result ≡ heads sites (kind_number of) head writes.now }
{
    has_kind(head, of)
        && is_clear_between(head)
        && site(head) < sites
        && 1 <= count(head)
        && count(head) <= 16
        && holds_writes(writes, count(head))
}

fn read_edit<'a>(words: &'a [u32], sites: u32) -> Option<Message<'a>>
    ensures message { option_map message_value result ≡ read_edit sites words.now }
    ensures borrowed { Borrowed words.entry result }
{
    let [head, ticket, snapshot, writes @ ..] = words else {
        return None;
    };
    if is_kind(*ticket, Kind::Ticket, 1)
        && is_kind(*snapshot, Kind::Version, 0)
        && is_head_of(*head, Kind::Edit, sites, writes)
    {
        Some(Message::Edit {
            site: site(*head),
            ticket: load(*ticket),
            snapshot: load(*snapshot),
            writes,
        })
    } else {
        None
    }
}

fn read_report<'a>(words: &'a [u32], sites: u32) -> Option<Message<'a>>
    ensures message { option_map message_value result ≡ read_report sites words.now }
    ensures borrowed { Borrowed words.entry result }
{
    let [head, version] = words else {
        return None;
    };
    if has_kind(*head, Kind::Report)
        && is_clear_between(*head)
        && count(*head) == 0
        && site(*head) < sites
        && is_kind(*version, Kind::Version, 0)
    {
        Some(Message::Report {
            site: site(*head),
            version: load(*version),
        })
    } else {
        None
    }
}

/// The edit or report that the words are in a group of `sites` sites, or none. `sites` may be any number: a type of sizes would
/// have each caller refuse what is refused here once.
pub fn read_message<'a>(words: &'a [u32], sites: u32) -> Option<Message<'a>>
    ensures message { option_map message_value result ≡ message_of sites words.now }
    ensures borrowed { Borrowed words.entry result }
    ensures exact { OneSpelling message_words (valid_message sites) words.now (option_map message_value result) }
{
    if !is_group(sites) {
        return None;
    }
    let [head, ..] = words else {
        return None;
    };
    match word_kind(*head) {
        Some(Kind::Edit) => read_edit(words, sites),
        Some(Kind::Report) => read_report(words, sites),
        _ => None,
    }
}

/// Which message the words are: 1 an edit, 2 a report, 0 neither, or `sites` is out of range. These are numbers and no enum,
/// since a program in C is told them.
pub fn message_kind(words: &[u32], sites: u32) -> u32
    ensures { result ≡ message_kind (message_of sites words.now) }
{
    match read_message(words, sites) {
        Some(Message::Edit { .. }) => 1,
        Some(Message::Report { .. }) => 2,
        None => 0,
    }
}
