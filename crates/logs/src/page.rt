// The page of an entry, among the words of a log.
ghost use Rattle.std.specs.Prelude.{◌≡◌, ◌+◌, ◌*◌, ◌≤◌, true, ◌++◌, length};
ghost use Rattle.logs.specs.LogModel.{entry_of, loggable};
ghost use Rattle.logs.specs.RingModel.{ring_items, ring_size};
ghost use Rattle.logs.specs.PageWords.{page_words};

use crate::heads::NewEntry;
use crate::ring::Ring;
use words::encode::EntryParts;
use words::spell::spell_entry;

// The most words of a page.
const PAGE_WORDS: usize = 35;

// Adds the page of an entry at the end.
pub(crate) fn push_page(words: &mut Ring<u32>, version: u32, entry: NewEntry<'_>)
    requires room { length (ring_items words.old) + (3 + 2 * length entry.writes.now) ≤ ring_size words.old }
    requires version { version ≤ 268435455 }
    requires loggable { loggable (entry_of entry) ≡ true }
    ensures items { ring_items words.new ≡ ring_items words.old ++ page_words version (entry_of entry.entry) }
    ensures size { ring_size words.new ≡ ring_size words.old }
{
    let mut page = [0; PAGE_WORDS];
    let parts = EntryParts {
        site: entry.home,
        version,
        ticket: entry.ticket,
        writes: entry.writes,
    };
    let length = spell_entry(&mut page, parts).unwrap();
    words.extend(&page[..length]);
}
