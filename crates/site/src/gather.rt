// Writes and known numbers, from words or from a log, gathered into short lists.
ghost use Rattle.std.specs.Prelude.{◌≡◌, map, take, slice_get};
ghost use Rattle.few.specs.Lists.{few_items};
ghost use Rattle.words.specs.Bits.{load_of};
ghost use Rattle.words.specs.Writes.{leading};
ghost use Rattle.logs.specs.LogModel.{entry_at};
ghost use Rattle.site.specs.Calls.{writes_in};

use few::Few;
use logs::api::Log;
use words::changes::{Change, Write, read_write};
use words::pages::known_number;

// A write that stands for none.
const NONE: Write = Write {
    item: 0,
    change: Change::Remove,
};

// The writes that the words begin with, at most 16.
pub(crate) fn gather(words: &[u32]) -> Few<Write, 16>
    ensures { few_items result ≡ take 16 (leading words.now) }
{
    let mut writes = Few::new(NONE);
    let mut rest = words;
    while let (Some(write), after) = read_write(rest) {
        if writes.push(write).is_err() {
            return writes;
        }
        rest = after;
    }
    writes
}

// The writes of a version's entry; none where there is no entry.
pub(crate) fn gather_entry<L: Log>(log: &L, version: u32) -> Few<Write, 16>
    ensures { few_items result ≡ writes_in (entry_at (L.Log.model log.now) version) }
{
    Few::gather(
        NONE,
        |number| log.write(version, u32::try_from(number).ok()?),
    )
}

// The known number at a place of the words.
fn known_at(words: &[u32], place: usize) -> Option<u32>
    ensures { result ≡ slice_get (map load_of words.now) place }
{
    Some(known_number(*words.get(place)?))
}

// The known numbers that the words say, at most 8.
pub(crate) fn gather_known(words: &[u32]) -> Few<u32, 8>
    ensures { few_items result ≡ take 8 (map load_of words.now) }
{
    Few::gather(0, |place| known_at(words, place))
}

// The known numbers of a log.
pub(crate) fn known_of<L: Log>(log: &L) -> Few<u32, 8>
    ensures { few_items result ≡ (L.Log.model log.now).known }
{
    Few::gather(0, |site| log.known(u32::try_from(site).ok()?))
}
