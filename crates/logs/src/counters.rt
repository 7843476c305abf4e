// How far a log has come: its place, the known number of each site, the tickets given, and whether it is whole.
ghost use Rattle.std.specs.Prelude.{◌≡◌, ◌≤◌, true, length};
ghost use Rattle.few.specs.Lists.{few_items};
ghost use Rattle.logs.specs.LogModel.{all_within};

use few::Few;

pub mod ops;

#[derive(Drop)]
pub(crate) struct Counters {
    place: u32,
    known: Few<u32, 8>,
    tickets: u32,
    whole: bool,
    ghost placed: { place ≤ 268435455 },
    ghost counted: { tickets ≤ 268435455 },
    ghost two: { 2 ≤ length (few_items known) },
    ghost within: { all_within (few_items known) ≡ true },
}
