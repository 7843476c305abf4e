// Which site this is, in a group of how many.
ghost use Rattle.std.specs.Prelude.{◌≡◌, ◌<◌, true};
ghost use Rattle.words.specs.Bits.{is_group};

/// A site's number, and the number of sites of its group.
#[derive(Clone, Copy)]
pub struct Home {
    pub(crate) number: u32,
    pub(crate) sites: u32,
    ghost own: { number < sites },
    ghost group: { is_group sites ≡ true },
}
