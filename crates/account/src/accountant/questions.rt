// What an accountant answers, changing nothing.
ghost use Rattle.std.specs.Prelude.{◌≡◌, drop, IfOk};
ghost use Rattle.account.specs.Account.{least, lowest_clash, horizon, last_version};
ghost use Rattle.account.specs.Books.{books};
ghost use Rattle.account.specs.SceneMaps.{Shows};

use super::Accountant;
use crate::certify::do_meet;
use crate::scenes::{Scene, put_all};
use std::alloc::{AllocError, Global};
use std::collections::BTreeMap;
use words::changes::Write;

// The least of the numbers; 0 of none.
fn find_least(numbers: &[u32]) -> u32
    ensures { result ≡ least numbers.now }
{
    numbers.iter().copied().min().unwrap_or(0)
}

impl Accountant {
    /// How many places are decided.
    pub fn places(&self) -> u32
        ensures { result ≡ (books self.now).places }
    {
        self.places
    }

    /// The number of commits so far.
    pub fn last_version(&self) -> u32
        ensures { result ≡ last_version (books self.now).account }
    {
        self.commits.len() as u32
    }

    /// The least known number.
    pub fn horizon(&self) -> u32
        ensures { result ≡ horizon (books self.now).account }
    {
        find_least(self.known.as_slice())
    }

    /// The scene that all commits so far leave: the items that are present, by rising item.
    pub fn scene(&self, heap: Global) -> Result<Scene, AllocError>
        ensures { IfOk result (λ m. Shows m (books self.now).account.commits) }
    {
        let mut scene = BTreeMap::new(heap);
        for (i, commit) in self.commits.iter().enumerate() {
            put_all(&mut scene, commit.writes.as_slice(), i as u32 + 1)?;
        }
        Ok(scene)
    }

    // The lowest version above the snapshot whose commit writes an item of these.
    pub(crate) fn find_clash(&self, snapshot: u32, writes: &[Write]) -> Option<u32>
        ensures { result ≡ lowest_clash writes.now snapshot (drop snapshot (books self.now).account.commits) }
    {
        let above = self.commits.get(snapshot as usize..)?;
        let first = above
            .iter()
            .position(|commit| do_meet(commit.writes.as_slice(), writes))?;
        Some(snapshot + first as u32 + 1)
    }
}
