// What a table does.
ghost use Rattle.std.specs.Prelude.{◌≡◌, min, vec_len};
ghost use Rattle.std.specs.Option.{option_map};
ghost use Rattle.logs.specs.LogModel.{nothing_held, entry_held};
ghost use Rattle.logs.specs.RowModel.{row_entry};
ghost use Rattle.logs.specs.TableModel.{table_held};
ghost use Rattle.logs.specs.HolderBounds.{table_bounds};

use super::Table;
use crate::heads::{EntryHead, NewEntry};
use crate::holder::Holder;
use crate::ring::Ring;
use crate::row::FlatEntry;
use words::changes::Write;

// The most entries of a table.
const MOST_ENTRIES: usize = 256;

impl Table {
    // An empty table in that memory.
    pub(crate) fn new(memory: Vec<FlatEntry>) -> Table
        ensures { table_held result ≡ nothing_held (min (vec_len memory) 256) 1 0 }
    {
        Table {
            floor: 0,
            rows: Ring::new(memory, MOST_ENTRIES),
        }
    }

    // The row of a version.
    fn row(&self, version: u32) -> Option<&FlatEntry>
        ensures { option_map (λ x. row_entry x.now) result ≡ entry_held (table_held self.now) version }
    {
        if version <= self.floor || version > self.last() {
            return None;
        }
        Some(self.rows.at((version - self.floor - 1) as usize))
    }
}

impl Holder for Table {
    const ENTRY_COST: u32 = 1;

    const WRITE_COST: u32 = 0;

    ghost ENTRY_COST = { 1 };

    ghost WRITE_COST = { 0 };

    ghost held = { table_held };

    ghost bounds = { table_bounds };

    fn entry(&self, version: u32) -> Option<EntryHead> {
        Some(self.row(version)?.head())
    }

    fn write(&self, version: u32, number: u32) -> Option<Write> {
        self.row(version)?.write(number)
    }

    fn floor(&self) -> u32 {
        self.floor
    }

    fn last(&self) -> u32 {
        self.floor + self.rows.len() as u32
    }

    fn capacity(&self) -> u32 {
        self.rows.size() as u32
    }

    // There is room for one more entry whatever it writes, or for none.
    fn has_room(&self, _count: usize) -> bool {
        self.rows.len() < self.rows.size()
    }

    fn push(&mut self, entry: NewEntry<'_>) {
        self.rows.push(FlatEntry::of(entry));
    }

    fn trim(&mut self, version: u32) {
        let bound = version.min(self.last());
        if bound > self.floor {
            self.rows.remove_front((bound - self.floor) as usize);
            self.floor = bound;
        }
    }
}
