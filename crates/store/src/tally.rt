// How many records of a store are sealed and staged, and its version.
ghost use Rattle.std.specs.Prelude.{◌+◌, ◌≤◌};

pub(crate) mod ops;

/// In the order of the records the first `sealed` ones are sealed, and the `staged` ones after them are staged.
#[derive(Drop)]
pub(crate) struct Tally {
    pub(crate) capacity: usize,
    pub(crate) sealed: usize,
    pub(crate) staged: usize,
    pub(crate) version: u32,
    ghost small: { capacity ≤ 4096 },
    ghost fits: { sealed + staged ≤ capacity },
    ghost high: { version ≤ 268435455 },
}
