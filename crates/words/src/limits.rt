// Limits that all crates share: the largest number of a word, and how many sites a group has.
ghost use Rattle.std.specs.Prelude.{◌≡◌, nat_le};
ghost use Rattle.words.specs.Bits.{every, is_group};

/// The largest number that a word's load holds: a version, a place, a ticket, an item or a known number.
pub const LIMIT: u32 = 268_435_455;

/// Whether a group has that many sites.
pub fn is_group(sites: u32) -> bool
    ensures { result ≡ is_group sites }
{
    2 <= sites && sites <= 8
}

/// Whether no number is above the limit.
pub fn are_within(numbers: &[u32], limit: u32) -> bool
    ensures { result ≡ every (λ k. nat_le k limit) numbers.now }
{
    numbers.iter().all(|number| *number <= limit)
}
