// A log as a table of entries: each entry costs 1, and a write costs nothing more.
ghost use Rattle.std.specs.Prelude.{min, vec_len};
ghost use Rattle.words.specs.Bits.{is_group};
ghost use Rattle.logs.specs.LogModel.{fresh};
ghost use Rattle.logs.specs.FlatModel.{Made};

use crate::counters::Counters;
use crate::kept::Kept;
use crate::row::FlatEntry;
use crate::table::Table;
use words::limits::is_group;

/// A log as a table of entries.
pub type Flat = Kept<Table>;

impl Flat {
    /// A fresh log of a group of 2 to 8 sites, in memory for its entries, of which it uses 256 at most.
    /// For another number of sites none is made, and the memory is handed back.
    pub fn new(sites: u32, memory: Vec<FlatEntry>) -> Result<Flat, Vec<FlatEntry>>
        ensures { Made (is_group sites) (fresh sites (min (vec_len memory) 256) 1 0) memory result }
    {
        if !is_group(sites) {
            return Err(memory);
        }
        Ok(Kept {
            counters: Counters::new(sites),
            holder: Table::new(memory),
        })
    }
}
