// What is asked of an edit's writes, and the one change to them.
ghost use Rattle.std.specs.Prelude.{◌≡◌, ◌<◌, ◌≤◌, true, [], length, ◌==◌, is_ok};
ghost use Rattle.words.specs.Writes.{write_fits};
ghost use Rattle.site.specs.Edits.{an_edit_of, edit_model, own_change, put_write};

use super::Edit;
use few::{Few, Full};
use words::changes::{Change, Write};

impl Edit {
    /// An edit that has written nothing yet.
    pub(crate) fn start(ticket: u32, snapshot: u32) -> Edit
        requires ticketed { 0 < ticket }
        requires ticket_fits { ticket ≤ 268435455 }
        requires snapshot_fits { snapshot ≤ 268435455 }
        ensures { edit_model result ≡ an_edit_of ticket snapshot [] }
    {
        let none = Write {
            item: 0,
            change: Change::Remove,
        };
        Edit {
            ticket,
            snapshot,
            writes: Few::new(none),
        }
    }

    /// The writes, by rising item.
    pub(crate) fn writes(&self) -> &[Write]
        ensures { result.now ≡ (edit_model self.now).writes }
    {
        self.writes.as_slice()
    }

    /// The edit's own change of an item, if it has one.
    pub(crate) fn own(&self, item: u32) -> Option<Change>
        ensures { result ≡ own_change (edit_model self.now).writes item }
    {
        let own = self.writes().iter().find(|write| write.item == item)?;
        Some(own.change)
    }

    /// Whether nothing is written yet.
    pub(crate) fn is_empty(&self) -> bool
        ensures { result ≡ (length (edit_model self.now).writes == 0) }
    {
        self.writes.is_empty()
    }

    /// Sets or replaces the write of its item; leaves all as it was where it would be the seventeenth.
    pub(crate) fn put(&mut self, write: Write) -> Result<(), Full>
        requires { write_fits 0 write ≡ true }
        ensures { (is_ok result, edit_model self.new) ≡ put_write (edit_model self.old) write }
    {
        let place = self
            .writes()
            .binary_search_by_key(&write.item, |held| held.item);
        match place {
            Ok(place) => {
                self.writes.replace(place, write);
                Ok(())
            }
            Err(place) => self.writes.insert(place, write),
        }
    }
}
