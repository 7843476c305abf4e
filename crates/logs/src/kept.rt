// A log over any holder of its entries, with counters of how far it has come.
ghost use Rattle.std.specs.Prelude.{◌≡◌, is_ok};
ghost use Rattle.logs.specs.LogModel.{entry_of, can_append, appended};

use crate::api::{Declined, Log};
use crate::counters::Counters;
use crate::heads::{EntryHead, NewEntry};
use crate::holder::Holder;
use words::changes::Write;
use words::limits::LIMIT;

/// A log: a holder of its entries, and how far it has come.
#[derive(Drop)]
pub struct Kept<H: Holder> {
    pub(crate) counters: Counters,
    pub(crate) holder: H,
}

impl<H: Holder> Kept<H> {
    // Whether one more entry is taken.
    fn can_append(&self, entry: NewEntry<'_>) -> bool
        ensures { result ≡ can_append (H.held self.now.holder) (entry_of entry.entry) }
    {
        entry.is_loggable() && self.holder.has_room(entry.writes.len()) && self.last() < LIMIT
    }

    // Appends an entry, or declines.
    fn append(&mut self, entry: NewEntry<'_>) -> Result<(), Declined>
        ensures answer { is_ok result ≡ can_append (H.held self.old.holder) (entry_of entry.entry) }
        ensures after { H.held self.new.holder ≡ appended (H.held self.old.holder) (entry_of entry.entry) }
        ensures counters { self.new.counters ≡ self.old.counters }
    {
        if !self.can_append(entry) {
            return Err(Declined);
        }
        self.holder.push(entry);
        Ok(())
    }
}

impl<H: Holder> Log for Kept<H> {
    ghost use Rattle.logs.specs.KeptModel.{kept_model};
    ghost use Rattle.logs.specs.LogBounds.{kept_bounded};

    const ENTRY_COST: u32 = H::ENTRY_COST;

    const WRITE_COST: u32 = H::WRITE_COST;

    ghost ENTRY_COST = { H.ENTRY_COST };

    ghost WRITE_COST = { H.WRITE_COST };

    ghost model = { kept_model H.held };

    ghost bounded = { λ l. kept_bounded H.held H.bounds l };

    fn entry(&self, version: u32) -> Option<EntryHead> {
        self.holder.entry(version)
    }

    fn write(&self, version: u32, number: u32) -> Option<Write> {
        self.holder.write(version, number)
    }

    fn floor(&self) -> u32 {
        self.holder.floor()
    }

    fn last(&self) -> u32 {
        self.holder.last()
    }

    fn capacity(&self) -> u32 {
        self.holder.capacity()
    }

    fn costs(&self) -> (u32, u32) {
        (Self::ENTRY_COST, Self::WRITE_COST)
    }

    fn sites(&self) -> u32 {
        self.counters.sites()
    }

    fn place(&self) -> u32 {
        self.counters.place()
    }

    fn known(&self, site: u32) -> Option<u32> {
        self.counters.known(site)
    }

    fn least(&self) -> u32 {
        self.counters.least()
    }

    fn tickets(&self) -> u32 {
        self.counters.tickets()
    }

    fn is_whole(&self) -> bool {
        self.counters.is_whole()
    }

    fn commit(&mut self, entry: NewEntry<'_>) -> Result<(), Declined> {
        if !self.counters.can_pass() {
            return Err(Declined);
        }
        self.append(entry)?;
        self.counters.pass();
        Ok(())
    }

    fn copy(&mut self, entry: NewEntry<'_>) -> Result<(), Declined> {
        self.append(entry)?;
        self.counters.clear_mark();
        Ok(())
    }

    fn pass(&mut self) {
        self.counters.pass();
    }

    fn note(&mut self, site: u32, number: u32) {
        self.counters.note(site, number);
    }

    fn close(&mut self, place: u32, known: &[u32]) {
        self.counters.close(place, known);
    }

    fn ticket(&mut self) {
        self.counters.ticket();
    }

    fn trim(&mut self, version: u32) {
        self.holder.trim(version);
    }
}
