// Known cases, as theorems.
ghost use Rattle.store.specs.Known.{KnownPrunes};

/// Item 1 was set, then item 2, then item 1 was removed, each in a version: a prune to 2 removes nothing, and a prune to 3
/// removes the record of version 1.
pub fn known_prunes()
    ensures { KnownPrunes }
{}
