// A call that changes a log, as a value, since it is made at two logs of different types.
use crate::random::Numbers;
use logs::api::{Declined, Log};
use logs::heads::NewEntry;
use words::changes::Write;

#[derive(Clone, Copy)]
pub(crate) enum Call {
    Commit(u32, u32),
    Copy(u32, u32),
    Pass,
    Note(u32, u32),
    Close(u32),
    Ticket,
    Trim(u32),
}

// A number that is mostly below the bound, and now and then above every limit.
fn mostly_below(random: &mut Numbers, bound: u32) -> u32 {
    if random.is_time(40) {
        return 268_435_455 + random.below(3);
    }
    if bound == 0 { 0 } else { random.below(bound) }
}

// A call on a log that holds entries from the floor to the last version.
pub(crate) fn choose(random: &mut Numbers, floor: u32, last: u32) -> Call {
    match random.below(16) {
        0 => Call::Pass,
        1 => Call::Note(random.below(5), mostly_below(random, 1000)),
        2 => Call::Close(mostly_below(random, 1000)),
        3 => Call::Ticket,
        4 => Call::Trim(
            random
                .below(last.saturating_sub(floor).saturating_add(2))
                .saturating_add(floor),
        ),
        5 => Call::Trim(mostly_below(random, last.saturating_add(1))),
        6 | 7 => Call::Copy(random.below(8), mostly_below(random, 100)),
        _ => Call::Commit(random.below(17), mostly_below(random, 100)),
    }
}

pub(crate) fn is_append(call: Call) -> bool {
    matches!(call, Call::Commit(..) | Call::Copy(..))
}

// Makes the call; an entry may be declined.
pub(crate) fn play<L: Log>(
    log: &mut L,
    call: Call,
    writes: &[Write],
    known: &[u32],
) -> Result<(), Declined> {
    match call {
        Call::Commit(home, ticket) => log.commit(NewEntry {
            home,
            ticket,
            writes,
        })?,
        Call::Copy(home, ticket) => log.copy(NewEntry {
            home,
            ticket,
            writes,
        })?,
        Call::Pass => log.pass(),
        Call::Note(site, number) => log.note(site, number),
        Call::Close(place) => log.close(place, known),
        Call::Ticket => log.ticket(),
        Call::Trim(version) => log.trim(version),
    }
    Ok(())
}
