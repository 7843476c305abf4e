// What pages do.
ghost use Rattle.std.specs.Prelude.{◌≡◌, ◌≤◌, min, length, take, vec_len};
ghost use Rattle.logs.specs.LogModel.{nothing_held, total_cost};
ghost use Rattle.logs.specs.RingModel.{ring_items};
ghost use Rattle.logs.specs.PagesModel.{pages_held, Located, MadePages};
ghost use Rattle.logs.specs.HolderBounds.{pages_bounds};

use super::Pages;
use crate::heads::{EntryHead, NewEntry};
use crate::holder::Holder;
use crate::page::push_page;
use crate::ring::Ring;
use std::alloc::Global;
use words::bits::{count, load, site};
use words::changes::{Write, read_write};

// The most words in a ring.
const MOST_WORDS: usize = 8192;

impl Pages {
    // No pages, in that memory, and an index of as many as it has room for; or the memory, where there is none for the index.
    pub(crate) fn new(heap: Global, memory: Vec<u32>) -> Result<Pages, Vec<u32>>
        ensures { MadePages (nothing_held (min (vec_len memory) 8192) 3 2) memory result }
    {
        let most = memory.len().min(MOST_WORDS) / 3;
        let Ok(index) = vec![in heap; 0u64; most] else {
            return Err(memory);
        };
        Ok(Pages {
            floor: 0,
            words: Ring::new(memory, MOST_WORDS),
            starts: Ring::new(index, most),
            removed: 0,
        })
    }

    // Where the page of a version begins among the words.
    fn page_of(&self, version: u32) -> Option<usize>
        ensures { Located self.now version result }
    {
        if version <= self.floor || version > self.last() {
            return None;
        }
        let start = *self.starts.at((version - self.floor - 1) as usize);
        Some((start - self.removed) as usize)
    }

    // How many words the first pages have.
    fn words_of(&self, count: usize) -> usize
        requires { count ≤ length (ring_items self.now.starts) }
        ensures { result ≡ total_cost 3 2 (take count (pages_held self.now).entries) }
    {
        if count < self.starts.len() {
            (*self.starts.at(count) - self.removed) as usize
        } else {
            self.words.len()
        }
    }
}

impl Holder for Pages {
    const ENTRY_COST: u32 = 3;

    const WRITE_COST: u32 = 2;

    ghost ENTRY_COST = { 3 };

    ghost WRITE_COST = { 2 };

    ghost held = { pages_held };

    ghost bounds = { pages_bounds };

    fn entry(&self, version: u32) -> Option<EntryHead> {
        let page = self.page_of(version)?;
        let head = *self.words.at(page);
        Some(EntryHead {
            home: site(head),
            ticket: load(*self.words.at(page + 2)),
            count: count(head),
        })
    }

    fn write(&self, version: u32, number: u32) -> Option<Write> {
        let page = self.page_of(version)?;
        if number >= count(*self.words.at(page)) {
            return None;
        }
        let place = page + 3 + 2 * number as usize;
        let (write, _) = read_write(&[*self.words.at(place), *self.words.at(place + 1)]);
        write
    }

    fn floor(&self) -> u32 {
        self.floor
    }

    fn last(&self) -> u32 {
        self.floor + self.starts.len() as u32
    }

    fn capacity(&self) -> u32 {
        self.words.size() as u32
    }

    fn has_room(&self, count: usize) -> bool {
        self.words.len() + 3 + 2 * count <= self.words.size()
    }

    fn push(&mut self, entry: NewEntry<'_>) {
        let version = self.last() + 1;
        let start = self.removed + self.words.len() as u64;
        self.starts.push(start);
        push_page(&mut self.words, version, entry);
    }

    fn trim(&mut self, version: u32) {
        let bound = version.min(self.last());
        if bound > self.floor {
            let count = (bound - self.floor) as usize;
            let length = self.words_of(count);
            self.words.remove_front(length);
            self.starts.remove_front(count);
            self.removed += length as u64;
            self.floor = bound;
        }
    }
}
