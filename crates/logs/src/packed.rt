// A log as words in a ring, each entry as its page: 3 words for an entry, and 2 more for each write.
ghost use Rattle.std.specs.Prelude.{min, vec_len};
ghost use Rattle.words.specs.Bits.{is_group};
ghost use Rattle.logs.specs.LogModel.{fresh};
ghost use Rattle.logs.specs.PackedModel.{Made};

use crate::counters::Counters;
use crate::kept::Kept;
use crate::pages::Pages;
use std::alloc::Global;
use words::limits::is_group;

/// A log as pages in a ring of words.
pub type Packed = Kept<Pages>;

impl Packed {
    /// A fresh log of a group of 2 to 8 sites, in memory for its words, of which it uses 8,192 at most.
    /// For another number of sites, or with no memory for the index of its pages, none is made, and the memory is handed back.
    pub fn new(heap: Global, sites: u32, memory: Vec<u32>) -> Result<Packed, Vec<u32>>
        ensures { Made (is_group sites) (fresh sites (min (vec_len memory) 8192) 3 2) memory result }
    {
        if !is_group(sites) {
            return Err(memory);
        }
        Ok(Kept {
            counters: Counters::new(sites),
            holder: Pages::new(heap, memory)?,
        })
    }
}
