// The writes that an edit has gathered.
ghost use Rattle.std.specs.Prelude.{◌≡◌, ◌<◌, ◌≤◌, true};
ghost use Rattle.few.specs.Lists.{few_items};
ghost use Rattle.words.specs.Writes.{fit_from};

use few::Few;
use words::changes::Write;

pub mod ops;

/// An edit under its ticket: the snapshot that it reads, and at most 16 writes, by rising item.
#[derive(Clone, Copy)]
pub struct Edit {
    pub(crate) ticket: u32,
    pub(crate) snapshot: u32,
    writes: Few<Write, 16>,
    ghost ticketed: { 0 < ticket },
    ghost ticket_fits: { ticket ≤ 268435455 },
    ghost snapshot_fits: { snapshot ≤ 268435455 },
    ghost orderly: { fit_from 0 (few_items writes) ≡ true },
}
