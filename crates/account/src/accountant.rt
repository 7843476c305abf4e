// An accountant: it keeps every commit, and each site's known number.
ghost use Rattle.std.specs.Prelude.{◌≡◌, ◌≤◌, true, vec_len};
ghost use Rattle.words.specs.Bits.{is_group};

use crate::certify::Kept;

pub mod ops;
pub mod questions;

/// The account so far of a group of `sites` sites, after so many places.
#[derive(Drop)]
pub struct Accountant {
    sites: u32,
    places: u32,
    commits: Vec<Kept>,
    known: Vec<u32>,
    ghost group: { is_group sites ≡ true },
    ghost listed: { vec_len known ≡ sites },
    ghost fewer: { vec_len commits ≤ places },
    ghost limit: { places ≤ 268435455 },
}
