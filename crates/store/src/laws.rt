// Facts about every store, whatever its layout: each is the contract of a function that does nothing.
ghost use Rattle.store.specs.Laws.{PruneLaw, SealLaw, ReadLaw};

/// A prune leaves reads at its version or later as they were, and only removes sealed records.
pub fn prune_law()
    ensures { PruneLaw }
{}

/// A seal leaves earlier reads as they were, and a read at the new version is what the staged writes make of the read before.
pub fn seal_law()
    ensures { SealLaw }
{}

/// Staged writes are not read, and a read beyond the version is a read at the version.
pub fn read_law()
    ensures { ReadLaw }
{}
