// Certification: which commits write an item that an edit writes.
ghost use Rattle.std.specs.Prelude.{◌≡◌};
ghost use Rattle.account.specs.Account.{touches, meets};

use words::changes::Write;

/// A committed edit, as it is kept.
#[derive(Drop)]
pub struct Kept {
    pub home: u32,
    pub ticket: u32,
    pub writes: Vec<Write>,
}

/// Whether one of the writes is to the item.
pub fn has_item(writes: &[Write], item: u32) -> bool
    ensures { result ≡ touches item writes.now }
{
    writes.iter().any(|write| write.item == item)
}

// Whether the two lists have an item in common.
pub(crate) fn do_meet(theirs: &[Write], ours: &[Write]) -> bool
    ensures { result ≡ meets theirs.now ours.now }
{
    theirs.iter().any(|write| has_item(ours, write.item))
}
