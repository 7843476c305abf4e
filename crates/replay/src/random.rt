// Calls that look random, the same at each run.
ghost use Rattle.std.specs.Prelude.{◌<◌};

use crate::calls::Call;
use chance::Random;
use words::changes::Change;

/// The source that the calls are drawn from.
pub(crate) type Source = Random<12>;

// One of `items` items, which stand in two chains of the 64.
fn item(source: &mut Source, items: u32) -> u32 {
    source.below(items).wrapping_mul(32)
}

// A small value, and a removal one time in 4. The writes of log_trials draw other changes (any value, one in 3), so this is no copy.
fn change(source: &mut Source) -> Change {
    if source.is_time(4) {
        return Change::Remove;
    }
    Change::Set(i32::from(source.below(1000) as u16))
}

// A call of a store whose version is `version`: most of them stage, some seal, few prune.
pub(crate) fn call(source: &mut Source, items: u32, version: u32) -> Call
    requires { version < 268435456 }
{
    match source.below(16) {
        0..=6 => Call::Stage {
            item: item(source, items),
            change: change(source),
        },
        7..=11 => Call::Read {
            item: item(source, items),
            at: source.below(version + 2),
        },
        12 | 13 => Call::Seal,
        14 => Call::DropStaged,
        _ => Call::Prune {
            to: source.below(version + 2),
        },
    }
}
