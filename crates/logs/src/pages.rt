// Entries as words in a ring: the page of each, one after another.
ghost use Rattle.std.specs.Prelude.{◌≡◌, ◌+◌, ◌*◌, ◌<◌, ◌≤◌, true, length};
ghost use Rattle.logs.specs.LogModel.{all_loggable};
ghost use Rattle.logs.specs.RingModel.{ring_items, ring_size};
ghost use Rattle.logs.specs.PageWords.{pages_words, begins, entries_in};

use crate::ring::Ring;

pub mod ops;

/// The entries of a packed log.
#[derive(Drop)]
pub struct Pages {
    floor: u32,
    words: Ring<u32>,
    // Where each page begins, counted from the first word that there ever was.
    starts: Ring<u64>,
    // How many words were removed.
    removed: u64,
    ghost small: { ring_size words ≤ 8192 },
    ghost indexed: { ring_size words < 3 * (ring_size starts + 1) },
    ghost high: { floor + length (ring_items starts) ≤ 268435455 },
    ghost near: { removed ≤ 35 * floor },
    ghost laid: { ring_items words ≡ pages_words (floor + 1) (entries_in (length (ring_items starts)) (ring_items words)) },
    ghost begun: { ring_items starts ≡ begins removed (entries_in (length (ring_items starts)) (ring_items words)) },
    ghost sound: { all_loggable (entries_in (length (ring_items starts)) (ring_items words)) ≡ true },
}
