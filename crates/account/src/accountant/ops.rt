// What an accountant does: it decides one message after another.
ghost use Rattle.std.specs.Prelude.{◌≡◌, ◌<◌, Some, Ok, vec_len};
ghost use Rattle.words.specs.Messages.{an_edit, a_report, message_of};
ghost use Rattle.account.specs.declared.decisions.Decision.TheVariants.{Noted};
ghost use Rattle.account.specs.Account.{raise, judged};
ghost use Rattle.account.specs.Books.{books, Made, Entered, Lawful};

use super::Accountant;
use crate::certify::Kept;
use crate::decisions::{Decision, Fault};
use std::alloc::Global;
use words::changes::{Write, read_writes};
use words::limits::{LIMIT, is_group};
use words::messages::{Message, read_message};

// Number `i` becomes the larger of itself and `floor`.
fn lift(numbers: &mut Vec<u32>, i: usize, floor: u32)
    requires { i < vec_len numbers.old }
    ensures items { numbers.new.items ≡ raise numbers.old.items i floor }
    ensures len { vec_len numbers.new ≡ vec_len numbers.old }
{
    let old = numbers[i];
    numbers[i] = old.max(floor);
}

impl Accountant {
    /// The account of a group of `sites` sites before any message.
    pub fn new(heap: Global, sites: u32) -> Result<Accountant, Fault>
        ensures { Made sites result }
    {
        if !is_group(sites) {
            return Err(Fault::GroupSize);
        }
        let known = vec![in heap; 0u32; sites as usize]?;
        Ok(Accountant {
            sites,
            places: 0,
            commits: Vec::new(heap),
            known,
        })
    }

    /// Decides the words of the next place.
    pub fn decide(&mut self, heap: Global, words: &[u32]) -> Result<Decision, Fault>
        ensures entered { Entered (books self.old) (books self.new) (message_of (books self.old).sites words.now) result }
        ensures lawful { Lawful (books self.old) (books self.new) words.now result }
    {
        if self.places == LIMIT {
            return Err(Fault::TooManyPlaces);
        }
        match read_message(words, self.sites) {
            None => {
                self.places += 1;
                Ok(Decision::Void)
            }
            Some(Message::Report { site, version }) => {
                self.note(site, version);
                Ok(Decision::Noted)
            }
            Some(
                Message::Edit {
                    site,
                    ticket,
                    snapshot,
                    writes,
                },
            ) => {
                let writes = read_writes(heap, writes)?;
                let edit = Kept {
                    home: site,
                    ticket,
                    writes,
                };
                self.enter(snapshot, edit)
            }
        }
    }

    // Takes a report of a version: it counts as no more than the last one.
    fn note(&mut self, site: u32, version: u32)
        requires room { self.old.places < 268435455 }
        requires own { site < self.old.sites }
        ensures { Entered (books self.old) (books self.new) (Some (a_report site version)) (Ok Noted) }
    {
        let last = self.last_version();
        lift(&mut self.known, site as usize, version.min(last));
        self.places += 1;
    }

    // Decides an edit by its snapshot and its writes.
    fn judge(&self, snapshot: u32, writes: &[Write]) -> Decision
        ensures { result ≡ judged (books self.now).account snapshot writes.now }
    {
        let last = self.last_version();
        if last < snapshot {
            return Decision::Ahead;
        }
        if snapshot < self.horizon() {
            return Decision::TooOld;
        }
        match self.find_clash(snapshot, writes) {
            Some(version) => Decision::Conflict(version),
            None => Decision::Commit(last + 1),
        }
    }

    // Decides an edit, and keeps it if it commits.
    fn enter(&mut self, snapshot: u32, edit: Kept) -> Result<Decision, Fault>
        requires { self.old.places < 268435455 }
        ensures { Entered (books self.old) (books self.new) (Some (an_edit edit.home edit.ticket snapshot edit.writes.items)) result }
    {
        let decision = self.judge(snapshot, edit.writes.as_slice());
        if let Decision::Commit(_) = decision {
            self.commits.push(edit)?;
        }
        self.places += 1;
        Ok(decision)
    }
}
