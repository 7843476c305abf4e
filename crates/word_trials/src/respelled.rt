// Words read and written again: what is read of any words has these words.
ghost use Rattle.std.specs.Prelude.{◌<◌, length};

use std::alloc::Global;
use std::process::Abort;
use std::test::Fail;
use words::changes::read_writes;
use words::encode::{
    ClosingParts, EditParts, EntryParts, ReportParts, write_closing, write_edit, write_entry,
    write_report,
};
use words::messages::{Message, read_message};
use words::pages::{Page, known_number, read_page};

// How many words that has which the words are, written into the buffer; none where they are no such thing.
type Respelled = Result<Option<usize>, Fail>;

// What words can be read as: a message, or a page.
pub trait Form {
    fn respell(&self, heap: Global, words: &[u32], sites: u32, out: &mut [u32]) -> Respelled;
}

pub struct Messages;

pub struct Pages;

impl Form for Messages {
    fn respell(&self, heap: Global, words: &[u32], sites: u32, out: &mut [u32]) -> Respelled {
        let Some(message) = read_message(words, sites) else {
            return Ok(None);
        };
        let count = match message {
            Message::Edit {
                site,
                ticket,
                snapshot,
                writes,
            } => {
                let writes = read_writes(heap, writes)?;
                let edit = EditParts {
                    site,
                    ticket,
                    snapshot,
                    writes: writes.as_slice(),
                };
                write_edit(out, sites, edit)?
            }
            Message::Report { site, version } => {
                write_report(out, sites, ReportParts { site, version })?
            }
        };
        Ok(Some(count))
    }
}

impl Form for Pages {
    fn respell(&self, heap: Global, words: &[u32], sites: u32, out: &mut [u32]) -> Respelled {
        let Some(page) = read_page(words, sites) else {
            return Ok(None);
        };
        let count = match page {
            Page::Entry {
                site,
                version,
                ticket,
                writes,
            } => {
                let writes = read_writes(heap, writes)?;
                let entry = EntryParts {
                    site,
                    version,
                    ticket,
                    writes: writes.as_slice(),
                };
                write_entry(out, sites, entry)?
            }
            Page::Closing {
                version,
                place,
                known,
            } => {
                let known: Vec<u32> = known.iter().map(|word| known_number(*word)).collect(heap)?;
                let closing = ClosingParts {
                    version,
                    place,
                    known: known.as_slice(),
                };
                write_closing(out, sites, closing)?
            }
        };
        Ok(Some(count))
    }
}

// Words tried as a message or a page of a group of so many sites.
#[derive(Drop)]
pub struct Trial<'a, A: Abort + AllocGlobal, F: Form> {
    rt: &'a A,
    form: &'a F,
    sites: u32,
}

impl<'a, A: Abort + AllocGlobal, F: Form> Trial<'a, A, F> {
    pub fn new(rt: &'a A, form: &'a F, sites: u32) -> Trial<'a, A, F> {
        Trial { rt, form, sites }
    }

    // Whether the words are a message or page. If they are, it has these words and no others.
    pub fn reads(&self, words: &[u32]) -> Result<bool, Fail> {
        let rt = self.rt;
        let mut out = [0; 40];
        let Some(count) = self.form.respell(rt.alloc(), words, self.sites, &mut out)? else {
            return Ok(false);
        };
        assert!(rt; count <= 40);
        assert_eq!(rt; &out[0..count], words);
        Ok(true)
    }

    // The bits of the word at the place that can be turned, one at a time, so that the words are a message or page again.
    fn bits_to_turn(&self, words: &mut [u32], place: usize) -> Result<u32, Fail>
        requires { place < length words.old }
    {
        let mut free = 0;
        for bit in 0u32..32 {
            words[place] ^= 1 << bit;
            if self.reads(words)? {
                free |= 1 << bit;
            }
            words[place] ^= 1 << bit;
        }
        Ok(free)
    }

    // Of each word just the bits given can be turned.
    pub fn just_these_turn(&self, words: &mut [u32], free: &[u32]) -> Result<(), Fail> {
        let rt = self.rt;
        assert!(rt; words.len() == free.len());
        for (place, bits) in free.iter().enumerate() {
            assert_eq!(rt; self.bits_to_turn(words, place)?, *bits);
        }
        Ok(())
    }

    // No front of the words that is shorter than all of them is a message or page. By a count, since no iterator gives fronts.
    pub fn no_front_reads(&self, words: &[u32]) -> Result<(), Fail> {
        let rt = self.rt;
        for count in 0..words.len() {
            assert!(rt; !self.reads(&words[0..count])?);
        }
        Ok(())
    }
}
