// A reader that goes through words, and the trial reading of a write.
ghost use Rattle.std.specs.Prelude.{◌≡◌, ◌+◌, length, is_some, if◌then◌else◌, nat_le};
ghost use Rattle.words.specs.Scans.{word_at, place_after, write_at};
ghost use Rattle.words.specs.Writes.{are_writes};

use crate::bits::{Kind, has_kind, load};
use crate::changes::{Write, read_change};

/// Words, and the place of the next one to read. The place is a number of its own, and the words stay whole, so that a trial can
/// borrow the place alone and put it back.
#[derive(Drop)]
pub struct Reader<'a> {
    words: &'a [u32],
    place: usize,
}

// A trial reading: at its end the place is back at the start, unless what was read is kept.
struct Trial<'a> {
    place: &'a mut usize,
    start: usize,
}

impl Drop for Trial<'_> {
    fn drop(self)
        ensures { self.exit.0.now ≡ self.entry.start }
    {
        *self.place = self.start;
        let Trial { place: _, start: _ } = self;
    }
}

impl Trial<'_> {
    // Ends the trial where it has come to.
    fn keep(self)
        ensures { self.exit.0.now ≡ self.entry.place.now }
    {
        let Trial { place: _, start: _ } = self;
    }
}

// The word at the place, which goes on by one, or none at the end.
fn next_word(words: &[u32], place: &mut usize) -> Option<u32>
    ensures word { result ≡ word_at words.now place.old }
    ensures after { place.new ≡ place_after words.now place.old }
{
    let word = *words.get(*place)?;
    *place += 1;
    Some(word)
}

impl<'a> Reader<'a> {
    pub fn new(words: &'a [u32]) -> Reader<'a>
        ensures words { result.words ≡ words.entry }
        ensures place { result.place ≡ 0 }
    {
        Reader { words, place: 0 }
    }

    /// The write at the place, which goes past it. Where there is none, the place stays.
    pub fn read_write(&mut self) -> Option<Write>
        ensures write { result ≡ write_at self.old.words.now self.old.place }
        ensures after { self.new.place ≡ (if is_some result then self.old.place + 2 else self.old.place) }
        ensures words { self.new.words ≡ self.old.words }
    {
        let start = self.place;
        let trial = Trial {
            place: &mut self.place,
            start,
        };
        let item = next_word(self.words, trial.place)?;
        let change = next_word(self.words, trial.place)?;
        if !has_kind(item, Kind::Item) {
            return None;
        }
        let change = read_change(change)?;
        trial.keep();
        Some(Write {
            item: load(item),
            change,
        })
    }

    /// Whether all words are read.
    pub fn is_done(&self) -> bool
        ensures { result ≡ nat_le (length self.now.words.now) self.now.place }
    {
        self.words.len() <= self.place
    }
}

// Whether the words are `count` writes and nothing else, with items that rise strictly.
pub(crate) fn holds_writes(words: &[u32], count: u32) -> bool
    ensures { result ≡ are_writes 0 count words.now }
{
    let mut reader = Reader::new(words);
    let mut low = 0;
    for _ in 0..count {
        let Some(write) = reader.read_write() else {
            return false;
        };
        if write.item < low {
            return false;
        }
        low = write.item + 1;
    }
    reader.is_done()
}
