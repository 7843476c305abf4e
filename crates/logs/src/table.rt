// Entries in a table, one in each place of a ring.
ghost use Rattle.std.specs.Prelude.{◌≡◌, ◌+◌, ◌≤◌, true, map, length};
ghost use Rattle.logs.specs.LogModel.{all_loggable};
ghost use Rattle.logs.specs.RingModel.{ring_items, ring_size};
ghost use Rattle.logs.specs.RowModel.{row_entry};

use crate::ring::Ring;
use crate::row::FlatEntry;

pub mod ops;

/// The entries of a flat log.
#[derive(Drop)]
pub struct Table {
    floor: u32,
    rows: Ring<FlatEntry>,
    ghost high: { floor + length (ring_items rows) ≤ 268435455 },
    ghost small: { ring_size rows ≤ 256 },
    ghost sound: { all_loggable (map row_entry (ring_items rows)) ≡ true },
}
