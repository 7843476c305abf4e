// Page and take.
use crate::pairs::on_both;
use crate::seen::FIRST;
use crate::spelt::Words;
use crate::turns::Turn;
use account::decisions::Decision;
use site::calls::{Request, Response};
use site::refusals::Refusal;
use std::test::Fail;

// Open, posted and decided slots are all held. Words that are no page are declined for the slots first.
#[test]
fn page_is_taken_once_every_slot_is_empty(rt: HostRuntime) -> Result<(), Fail> {
    on_both(
        &rt,
        8,
        8,
        &[
            Turn::Begins(0, 1),
            Turn::Sets(FIRST, 1, 10),
            Turn::Rejects(Words::Entry(1, 1), Refusal::SlotsHeld),
            Turn::Rejects(Words::None, Refusal::SlotsHeld),
            Turn::Rejects(Words::Entry(2, 1), Refusal::SlotsHeld),
            Turn::Asks(Request::Post(FIRST), Response::Sent(FIRST, 5)),
            Turn::Rejects(Words::Entry(1, 1), Refusal::SlotsHeld),
            Turn::Asks(Request::Outcome(FIRST), Response::Pending),
            Turn::Delivers(1, Words::Edit(0, 1, 0, 1, 10), Decision::Commit(1)),
            Turn::Rejects(Words::Entry(2, 2), Refusal::SlotsHeld),
            Turn::Asks(Request::Outcome(FIRST), Response::Told(Decision::Commit(1))),
            Turn::Takes(Words::Entry(2, 2)),
        ],
    )
}

#[test]
fn words_that_are_no_page_are_declined(rt: HostRuntime) -> Result<(), Fail> {
    on_both(
        &rt,
        8,
        8,
        &[
            Turn::Rejects(Words::None, Refusal::NoPage),
            Turn::Rejects(Words::Edit(1, 1, 0, 1, 5), Refusal::NoPage),
            Turn::Rejects(Words::Report(0, 0), Refusal::NoPage),
            Turn::Rejects(Words::Entry(0, 1), Refusal::NoPage),
            Turn::Rejects(Words::Entry(1, 0), Refusal::NoPage),
            Turn::Rejects(Words::Closing(1, 0, 0, 0), Refusal::NoPage),
            Turn::Rejects(Words::Closing(0, 0, 1, 0), Refusal::NoPage),
            Turn::Takes(Words::Entry(1, 1)),
        ],
    )
}

#[test]
fn only_the_entry_after_the_last_is_taken(rt: HostRuntime) -> Result<(), Fail> {
    on_both(
        &rt,
        8,
        8,
        &[
            Turn::Rejects(Words::Entry(2, 2), Refusal::WrongPage),
            Turn::Takes(Words::Entry(1, 1)),
            Turn::Rejects(Words::Entry(1, 1), Refusal::WrongPage),
            Turn::Rejects(Words::Entry(3, 3), Refusal::WrongPage),
            Turn::Takes(Words::Entry(2, 2)),
        ],
    )
}

#[test]
fn closing_page_lowers_nothing(rt: HostRuntime) -> Result<(), Fail> {
    on_both(
        &rt,
        8,
        8,
        &[
            Turn::Takes(Words::Entry(1, 1)),
            Turn::Takes(Words::Entry(2, 2)),
            Turn::Rejects(Words::Closing(1, 2, 0, 0), Refusal::WrongPage),
            Turn::Rejects(Words::Closing(3, 3, 0, 0), Refusal::WrongPage),
            Turn::Takes(Words::Closing(2, 3, 1, 1)),
            Turn::Delivers(4, Words::Report(1, 2), Decision::Noted),
            Turn::Rejects(Words::Closing(2, 3, 1, 2), Refusal::WrongPage),
            Turn::Rejects(Words::Closing(2, 4, 0, 2), Refusal::WrongPage),
            Turn::Rejects(Words::Closing(2, 4, 1, 1), Refusal::WrongPage),
            Turn::Takes(Words::Closing(2, 4, 1, 2)),
            Turn::Takes(Words::Closing(2, 9, 2, 2)),
            Turn::Misplaces(9, Words::None, Refusal::PlaceDecided),
            Turn::Delivers(10, Words::Edit(1, 3, 1, 3, 7), Decision::TooOld),
        ],
    )
}

// Of several refusals the version comes before the room in the log.
#[test]
fn entry_is_declined_where_the_log_is_full(rt: HostRuntime) -> Result<(), Fail> {
    on_both(
        &rt,
        8,
        2,
        &[
            Turn::Takes(Words::Entry(1, 1)),
            Turn::Takes(Words::Entry(2, 2)),
            Turn::Rejects(Words::Entry(3, 3), Refusal::LogFull),
            Turn::Rejects(Words::Entry(4, 4), Refusal::WrongPage),
            Turn::Rejects(Words::None, Refusal::NoPage),
            Turn::Takes(Words::Closing(2, 2, 0, 0)),
        ],
    )
}

// Of several refusals the version comes before the room of the buffer.
#[test]
fn pages_are_written_from_the_floor_to_the_last_version(rt: HostRuntime) -> Result<(), Fail> {
    on_both(
        &rt,
        8,
        8,
        &[
            Turn::Declines(Request::Page(1), Refusal::VersionAhead),
            Turn::Writes(Request::Page(0), Words::Closing(0, 0, 0, 0)),
            Turn::Delivers(1, Words::Edit(1, 1, 0, 1, 5), Decision::Commit(1)),
            Turn::Delivers(2, Words::Edit(1, 2, 1, 1, 5), Decision::Commit(2)),
            Turn::Writes(Request::Page(0), Words::Entry(1, 1)),
            Turn::Writes(Request::Page(1), Words::Entry(2, 2)),
            Turn::Writes(Request::Page(2), Words::Closing(2, 2, 0, 0)),
            Turn::Declines(Request::Page(3), Refusal::VersionAhead),
            Turn::Cramped(Request::Page(3), 0, Refusal::VersionAhead),
            Turn::Delivers(3, Words::Report(0, 1), Decision::Noted),
            Turn::Delivers(4, Words::Report(1, 1), Decision::Noted),
            Turn::CatchesUp,
            Turn::Does(Request::Trim),
            Turn::Declines(Request::Page(0), Refusal::VersionTrimmed),
            Turn::Cramped(Request::Page(0), 0, Refusal::VersionTrimmed),
            Turn::Writes(Request::Page(1), Words::Entry(2, 2)),
            Turn::Leads(Request::Page(2), Words::Closing(2, 4, 1, 1)),
        ],
    )
}
