// Begin, read, look and write, at the edge of each refusal.
//
// Number 5, begin after 268,435,455 tickets, is reached by no run of calls in a test's time; the contract of `begin` has it.
use crate::pairs::on_both;
use crate::seen::{FIRST, NEXT, SECOND};
use crate::spelt::Words;
use crate::turns::Turn;
use account::decisions::Decision;
use site::calls::{Request, Response};
use site::handles::Handle;
use site::refusals::Refusal;
use site::site::changes::Stepped;
use std::test::Fail;

#[test]
fn eighth_draft_is_given_and_the_ninth_is_declined(rt: HostRuntime) -> Result<(), Fail> {
    on_both(
        &rt,
        8,
        8,
        &[
            Turn::Begins(0, 1),
            Turn::Sets(FIRST, 1, 10),
            Turn::Begins(1, 2),
            Turn::Begins(2, 3),
            Turn::Begins(3, 4),
            Turn::Begins(4, 5),
            Turn::Begins(5, 6),
            Turn::Begins(6, 7),
            Turn::Begins(7, 8),
            Turn::Declines(Request::Begin, Refusal::NoSlot),
            Turn::Does(Request::GiveUp(SECOND)),
            Turn::Begins(1, 9),
            Turn::Declines(Request::Begin, Refusal::NoSlot),
            Turn::Reads(FIRST, 1, Some(10)),
        ],
    )
}

#[test]
fn last_item_is_written_and_the_one_after_it_is_declined(rt: HostRuntime) -> Result<(), Fail> {
    on_both(
        &rt,
        8,
        8,
        &[
            Turn::Begins(0, 1),
            Turn::Sets(FIRST, 268_435_455, 5),
            Turn::Reads(FIRST, 268_435_455, Some(5)),
            Turn::Looks(268_435_455, None),
            Turn::Keeps(FIRST, 268_435_456, 5, Refusal::OutOfRange),
            Turn::Declines(Request::Read(FIRST, 268_435_456), Refusal::OutOfRange),
            Turn::Declines(Request::Look(268_435_456), Refusal::OutOfRange),
            Turn::Declines(Request::Look(4_294_967_295), Refusal::OutOfRange),
            Turn::Writes(Request::Post(FIRST), Words::Edit(0, 1, 0, 268_435_455, 5)),
            Turn::Delivers(1, Words::Edit(0, 1, 0, 268_435_455, 5), Decision::Commit(1)),
            Turn::CatchesUp,
            Turn::Looks(268_435_455, Some(5)),
        ],
    )
}

#[test]
fn values_are_declined_from_28_bits_on(rt: HostRuntime) -> Result<(), Fail> {
    on_both(
        &rt,
        8,
        8,
        &[
            Turn::Begins(0, 1),
            Turn::Sets(FIRST, 1, 134_217_727),
            Turn::Reads(FIRST, 1, Some(134_217_727)),
            Turn::Keeps(FIRST, 1, 134_217_728, Refusal::OutOfRange),
            Turn::Sets(FIRST, 1, -134_217_728),
            Turn::Reads(FIRST, 1, Some(-134_217_728)),
            Turn::Keeps(FIRST, 1, -134_217_729, Refusal::OutOfRange),
            Turn::Writes(Request::Post(FIRST), Words::Edit(0, 1, 0, 1, 0x800_0000)),
            Turn::Delivers(1, Words::Edit(0, 1, 0, 1, 0x800_0000), Decision::Commit(1)),
            Turn::CatchesUp,
            Turn::Looks(1, Some(-134_217_728)),
        ],
    )
}

// Of several refusals the range comes before the count of items.
#[test]
fn sixteenth_item_is_written_and_the_seventeenth_is_declined(rt: HostRuntime) -> Result<(), Fail> {
    on_both(
        &rt,
        8,
        8,
        &[
            Turn::Begins(0, 1),
            Turn::Fills(FIRST),
            Turn::Keeps(FIRST, 17, 7, Refusal::TooManyItems),
            Turn::Keeps(FIRST, 0, 7, Refusal::TooManyItems),
            Turn::Keeps(FIRST, 268_435_456, 7, Refusal::OutOfRange),
            Turn::Sets(FIRST, 16, 8),
            Turn::Reads(FIRST, 17, None),
            Turn::Writes(Request::Post(FIRST), Words::Sixteen),
        ],
    )
}

// Of several refusals the handle comes before the change under way, and that before the range and the count of items.
#[test]
fn writes_are_declined_from_opening_to_sealing(rt: HostRuntime) -> Result<(), Fail> {
    on_both(
        &rt,
        8,
        8,
        &[
            Turn::Begins(0, 1),
            Turn::Fills(FIRST),
            Turn::Delivers(1, Words::Edit(1, 1, 0, 2, 20), Decision::Commit(1)),
            Turn::Sets(FIRST, 1, 11),
            Turn::Asks(Request::Step, Response::Stepped(Stepped::Opened)),
            Turn::Keeps(FIRST, 1, 12, Refusal::ChangeUnderWay),
            Turn::Keeps(SECOND, 1, 12, Refusal::NotYours),
            Turn::Keeps(FIRST, 268_435_456, 12, Refusal::ChangeUnderWay),
            Turn::Keeps(FIRST, 17, 12, Refusal::ChangeUnderWay),
            Turn::Asks(Request::Step, Response::Stepped(Stepped::Staged)),
            Turn::Keeps(FIRST, 1, 12, Refusal::ChangeUnderWay),
            Turn::Asks(Request::Step, Response::Stepped(Stepped::Sealed)),
            Turn::Sets(FIRST, 1, 12),
            Turn::Reads(FIRST, 1, Some(12)),
        ],
    )
}

// Of several refusals the handle comes before the range and the room.
#[test]
fn handles_of_another_site_slot_or_ticket_are_declined(rt: HostRuntime) -> Result<(), Fail> {
    let site = Handle { site: 1, ..FIRST };
    let slot = Handle { slot: 1, ..FIRST };
    let past = Handle { slot: 8, ..FIRST };
    let far = Handle {
        slot: 4_294_967_295,
        ..FIRST
    };
    let none = Handle { ticket: 0, ..FIRST };
    on_both(
        &rt,
        8,
        8,
        &[
            Turn::Begins(0, 1),
            Turn::Sets(FIRST, 1, 10),
            Turn::Declines(Request::Read(site, 1), Refusal::NotYours),
            Turn::Declines(Request::Read(slot, 1), Refusal::NotYours),
            Turn::Declines(Request::Read(past, 1), Refusal::NotYours),
            Turn::Declines(Request::Read(far, 1), Refusal::NotYours),
            Turn::Declines(Request::Read(NEXT, 1), Refusal::NotYours),
            Turn::Declines(Request::Read(none, 268_435_456), Refusal::NotYours),
            Turn::Keeps(site, 1, 11, Refusal::NotYours),
            Turn::Keeps(past, 1, 11, Refusal::NotYours),
            Turn::Keeps(NEXT, 268_435_456, 11, Refusal::NotYours),
            Turn::Declines(Request::Post(site), Refusal::NotYours),
            Turn::Declines(Request::Post(slot), Refusal::NotYours),
            Turn::Cramped(Request::Post(NEXT), 0, Refusal::NotYours),
            Turn::Does(Request::GiveUp(site)),
            Turn::Does(Request::GiveUp(NEXT)),
            Turn::Does(Request::LetGo(FIRST)),
            Turn::Reads(FIRST, 1, Some(10)),
        ],
    )
}

#[test]
fn drafts_given_up_are_declined(rt: HostRuntime) -> Result<(), Fail> {
    on_both(
        &rt,
        8,
        8,
        &[
            Turn::Begins(0, 1),
            Turn::Sets(FIRST, 1, 9),
            Turn::Does(Request::GiveUp(FIRST)),
            Turn::Declines(Request::Read(FIRST, 1), Refusal::NotYours),
            Turn::Begins(0, 2),
            Turn::Sets(NEXT, 1, 10),
            Turn::Declines(Request::Read(FIRST, 1), Refusal::NotYours),
            Turn::Keeps(FIRST, 1, 11, Refusal::NotYours),
            Turn::Declines(Request::Post(FIRST), Refusal::NotYours),
            Turn::Does(Request::GiveUp(FIRST)),
            Turn::Reads(NEXT, 1, Some(10)),
        ],
    )
}

#[test]
fn draft_reads_its_own_writes_and_its_snapshot(rt: HostRuntime) -> Result<(), Fail> {
    on_both(
        &rt,
        8,
        8,
        &[
            Turn::Delivers(1, Words::Edit(1, 1, 0, 1, 10), Decision::Commit(1)),
            Turn::CatchesUp,
            Turn::Begins(0, 1),
            Turn::Sets(FIRST, 2, 21),
            Turn::Delivers(2, Words::Edit(1, 2, 1, 1, 11), Decision::Commit(2)),
            Turn::Delivers(3, Words::Edit(1, 3, 1, 2, 20), Decision::Commit(3)),
            Turn::CatchesUp,
            Turn::Does(Request::Prune),
            Turn::Reads(FIRST, 1, Some(10)),
            Turn::Reads(FIRST, 2, Some(21)),
            Turn::Looks(1, Some(11)),
            Turn::Looks(2, Some(20)),
        ],
    )
}
