// The eight slots of a site, numbered from 0.
ghost use Rattle.std.specs.Prelude.{◌≡◌, length};

use crate::edits::Edit;
use account::decisions::Decision;

pub mod ops;

/// What a slot holds: nothing, an edit that is open, one that was posted, or the decision of one that was.
#[derive(Clone, Copy)]
pub enum Slot {
    Empty,
    Open(Edit),
    Posted(Edit),
    Decided { ticket: u32, decision: Decision },
}

/// A site has eight slots, and takes no memory for them after it is made.
#[derive(Drop)]
pub struct Slots {
    table: [Slot; 8],
    ghost eight: { length table ≡ 8 },
}
