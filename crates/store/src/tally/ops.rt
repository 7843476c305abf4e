// What a tally does.
ghost use Rattle.std.specs.Prelude.{◌≡◌, ◌+◌, ◌-◌, ◌<◌, ◌≤◌, IfOk, IfErr};
ghost use Rattle.store.specs.Counts.{counts, a_counts, one_staged, sealed_counts, none_staged};

use super::Tally;
use crate::api::NoSpace;
use crate::records::LAST_VERSION;

impl Tally {
    pub(crate) fn new(capacity: usize) -> Tally
        requires { capacity ≤ 4096 }
        ensures { counts result ≡ a_counts capacity 0 0 0 }
    {
        Tally {
            capacity,
            sealed: 0,
            staged: 0,
            version: 0,
        }
    }

    // Counts one staged record more, and answers its place in the order of the records.
    pub(crate) fn stage(&mut self) -> Result<usize, NoSpace>
        ensures place { IfOk result (λ place. (place ≡ self.old.sealed + self.old.staged) × (place < self.old.capacity) × (counts self.new ≡ one_staged (counts self.old))) }
        ensures full { IfErr result (λ none. (self.old.capacity ≤ self.old.sealed + self.old.staged) × (counts self.new ≡ counts self.old)) }
    {
        let place = self.sealed + self.staged;
        if place >= self.capacity {
            return Err(NoSpace);
        }
        self.staged += 1;
        Ok(place)
    }

    // Counts the staged records as sealed, in the next version, where there can be one.
    pub(crate) fn seal(&mut self)
        ensures { counts self.new ≡ sealed_counts (counts self.old) }
    {
        if self.version < LAST_VERSION {
            self.sealed += self.staged;
            self.staged = 0;
            self.version += 1;
        }
    }

    pub(crate) fn drop_staged(&mut self)
        ensures { counts self.new ≡ none_staged (counts self.old) }
    {
        self.staged = 0;
    }

    // Counts what a prune left: all staged records are among them.
    pub(crate) fn keep(&mut self, left: usize)
        requires fewer { left ≤ self.old.sealed + self.old.staged }
        requires staged { self.old.staged ≤ left }
        ensures { counts self.new ≡ a_counts self.old.capacity self.old.version (left - self.old.staged) self.old.staged }
    {
        self.sealed = left - self.staged;
    }
}
