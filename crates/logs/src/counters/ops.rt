// What counters do.
ghost use Rattle.std.specs.Prelude.{◌≡◌, ◌+◌, ◌<◌, true, length, nat_lt};
ghost use Rattle.std.specs.List.{slice_get};
ghost use Rattle.words.specs.Bits.{is_group};
ghost use Rattle.logs.specs.LogModel.{first_marks, least, mark_passed, mark_noted, mark_closed, mark_ticketed, mark_cleared};
ghost use Rattle.logs.specs.CountersModel.{counters_marks};

use super::Counters;
use few::Few;
use words::limits::{LIMIT, are_within};

// The least of the numbers, of which there is one at least.
fn least_of(numbers: &[u32]) -> u32
    requires { 0 < length numbers.now }
    ensures { result ≡ least numbers.now }
{
    numbers
        .iter()
        .fold(numbers[0], |least, number| least.min(*number))
}

impl Counters {
    // Counters of a group of that many sites that nothing has happened to.
    pub(crate) fn new(sites: u32) -> Counters
        requires { is_group sites ≡ true }
        ensures { counters_marks result ≡ first_marks sites }
    {
        Counters {
            place: 0,
            known: Few::from_slice(0, &[0; 8][0..sites as usize]),
            tickets: 0,
            whole: true,
        }
    }

    pub(crate) fn sites(&self) -> u32
        ensures { result ≡ length (counters_marks self.now).known }
    {
        self.known.len() as u32
    }

    pub(crate) fn place(&self) -> u32
        ensures { result ≡ (counters_marks self.now).place }
    {
        self.place
    }

    pub(crate) fn known(&self, site: u32) -> Option<u32>
        ensures { result ≡ slice_get (counters_marks self.now).known site }
    {
        self.known.get(site as usize)
    }

    pub(crate) fn least(&self) -> u32
        ensures { result ≡ least (counters_marks self.now).known }
    {
        least_of(self.known.as_slice())
    }

    pub(crate) fn tickets(&self) -> u32
        ensures { result ≡ (counters_marks self.now).tickets }
    {
        self.tickets
    }

    pub(crate) fn is_whole(&self) -> bool
        ensures { result ≡ (counters_marks self.now).whole }
    {
        self.whole
    }

    // Whether the place can rise.
    pub(crate) fn can_pass(&self) -> bool
        ensures { result ≡ nat_lt (counters_marks self.now).place 268435455 }
    {
        self.place < LIMIT
    }

    pub(crate) fn pass(&mut self)
        ensures { counters_marks self.new ≡ mark_passed (counters_marks self.old) }
    {
        if self.place < LIMIT {
            self.place += 1;
        }
    }

    pub(crate) fn note(&mut self, site: u32, number: u32)
        ensures { counters_marks self.new ≡ mark_noted (counters_marks self.old) site number }
    {
        if (site as usize) < self.known.len() && number <= LIMIT && self.place < LIMIT {
            self.place += 1;
            let _ = self.known.replace(site as usize, number);
        }
    }

    pub(crate) fn close(&mut self, place: u32, known: &[u32])
        ensures { counters_marks self.new ≡ mark_closed (counters_marks self.old) place known.now }
    {
        if known.len() == self.known.len() && place <= LIMIT && are_within(known, LIMIT) {
            self.place = place;
            self.known = Few::from_slice(0, known);
            self.whole = true;
        }
    }

    pub(crate) fn ticket(&mut self)
        ensures { counters_marks self.new ≡ mark_ticketed (counters_marks self.old) }
    {
        if self.tickets < LIMIT {
            self.tickets += 1;
        }
    }

    // Clears the mark that the log is whole.
    pub(crate) fn clear_mark(&mut self)
        ensures { counters_marks self.new ≡ mark_cleared (counters_marks self.old) }
    {
        self.whole = false;
    }
}
