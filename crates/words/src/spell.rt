// The words of pages, written whether or not a group has such a page: where words can hold the numbers.
ghost use Rattle.std.specs.Prelude.{◌≡◌};
ghost use Rattle.words.specs.Pages.{page_words, has_words};
ghost use Rattle.words.specs.Encoded.{reply, put_answer, put_after, entry_value, closing_value};

use crate::bits::fits;
use crate::changes::all_fit;
use crate::encode::{ClosingParts, EntryParts, Refusal};
use crate::limits::{LIMIT, are_within};
use crate::put::{put_closing, put_entry};

impl EntryParts<'_> {
    // Whether words can hold its numbers.
    fn has_words(self) -> bool
        ensures { result ≡ has_words (entry_value self.entry) }
    {
        self.site < 16
            && fits(self.version, 0)
            && fits(self.ticket, 0)
            && self.writes.len() <= 16
            && all_fit(self.writes)
    }
}

impl ClosingParts<'_> {
    // Whether words can hold its numbers.
    fn has_words(self) -> bool
        ensures { result ≡ has_words (closing_value self.entry) }
    {
        self.known.len() <= 8
            && fits(self.version, 0)
            && fits(self.place, 0)
            && are_within(self.known, LIMIT)
    }
}

/// Writes the words of an entry page, whether or not a group has such a page. Refuses, and leaves the buffer, where words
/// cannot hold its numbers or the buffer is too short.
pub fn spell_entry(out: &mut [u32], entry: EntryParts<'_>) -> Result<usize, Refusal>
    ensures answer { reply result ≡ put_answer (has_words (entry_value entry.entry)) (page_words (entry_value entry.entry)) out.old }
    ensures after { out.new ≡ put_after (has_words (entry_value entry.entry)) (page_words (entry_value entry.entry)) out.old }
{
    if !entry.has_words() {
        return Err(Refusal::OutOfRange);
    }
    put_entry(out, entry)
}

/// Writes the words of a closing page, as `spell_entry` writes those of an entry page.
pub fn spell_closing(out: &mut [u32], closing: ClosingParts<'_>) -> Result<usize, Refusal>
    ensures answer { reply result ≡ put_answer (has_words (closing_value closing.entry)) (page_words (closing_value closing.entry)) out.old }
    ensures after { out.new ≡ put_after (has_words (closing_value closing.entry)) (page_words (closing_value closing.entry)) out.old }
{
    if !closing.has_words() {
        return Err(Refusal::OutOfRange);
    }
    put_closing(out, closing)
}
