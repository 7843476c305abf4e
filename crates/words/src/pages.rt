// Pages: what a site that catches up is handed, read from words.
ghost use Rattle.std.specs.Prelude.{◌≡◌};
ghost use Rattle.std.specs.Option.{option_map};
ghost use Rattle.words.specs.Bits.{every, load_of};
ghost use Rattle.words.specs.Messages.{OneSpelling};
ghost use Rattle.words.specs.Pages.{page_words, valid_page, entry_fits, read_entry, known_fits, closing_fits, read_closing, page_of, page_value, PageBorrowed};

use crate::bits::{Kind, has_kind, is_kind, load, site, word_kind};
use crate::limits::is_group;
use crate::messages::is_head_of;

/// A page read. Writes and known numbers are that part of the words handed in, still as words.
#[derive(Clone, Copy)]
pub enum Page<'a> {
    Entry {
        site: u32,
        version: u32,
        ticket: u32,
        writes: &'a [u32],
    },
    Closing {
        version: u32,
        place: u32,
        known: &'a [u32],
    },
}

fn read_entry<'a>(words: &'a [u32], sites: u32) -> Option<Page<'a>>
    ensures page { option_map page_value result ≡ read_entry sites words.now }
    ensures borrowed { PageBorrowed words.entry result }
{
    let [head, version, ticket, writes @ ..] = words else {
        return None;
    };
    if is_kind(*version, Kind::Version, 1)
        && is_kind(*ticket, Kind::Ticket, 1)
        && is_head_of(*head, Kind::Entry, sites, writes)
    {
        Some(Page::Entry {
            site: site(*head),
            version: load(*version),
            ticket: load(*ticket),
            writes,
        })
    } else {
        None
    }
}

/// The number in the word of a known number.
pub fn known_number(word: u32) -> u32
    ensures { result ≡ load_of word }
{
    load(word)
}

// Whether the word is a known number, not above the limit.
fn is_known(word: u32, limit: u32) -> bool
    ensures { result ≡ known_fits limit word }
{
    has_kind(word, Kind::Known) && load(word) <= limit
}

// Whether the words are known numbers, none above the limit.
fn are_known(words: &[u32], limit: u32) -> bool
    ensures { result ≡ every (known_fits limit) words.now }
{
    words.iter().all(|word| is_known(*word, limit))
}

// Inlined, so that its four parts are not put into memory and read back.
#[inline(always)]
fn read_closing<'a>(words: &'a [u32], sites: u32) -> Option<Page<'a>>
    ensures page { option_map page_value result ≡ read_closing sites words.now }
    ensures borrowed { PageBorrowed words.entry result }
{
    let [head, version, place, known @ ..] = words else {
        return None;
    };
    if has_kind(*head, Kind::Closing)
        && load(*head) == sites
        && is_kind(*version, Kind::Version, 0)
        && is_kind(*place, Kind::Place, load(*version))
        && known.len() == sites as usize
        && are_known(known, load(*version))
    {
        Some(Page::Closing {
            version: load(*version),
            place: load(*place),
            known,
        })
    } else {
        None
    }
}

/// The entry or closing page that the words are in a group of `sites` sites, or none.
pub fn read_page<'a>(words: &'a [u32], sites: u32) -> Option<Page<'a>>
    ensures page { option_map page_value result ≡ page_of sites words.now }
    ensures borrowed { PageBorrowed words.entry result }
    ensures exact { OneSpelling page_words (valid_page sites) words.now (option_map page_value result) }
{
    if !is_group(sites) {
        return None;
    }
    let [head, ..] = words else {
        return None;
    };
    match word_kind(*head) {
        Some(Kind::Entry) => read_entry(words, sites),
        Some(Kind::Closing) => read_closing(words, sites),
        _ => None,
    }
}
