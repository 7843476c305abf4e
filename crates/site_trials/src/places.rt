// Deliver: which places are taken, and how edits are decided.
//
// A place above 268,435,455 that is also the next one is reached by no run of calls in a test's time; `deliver` proves it.
use crate::pairs::on_both;
use crate::seen::FIRST;
use crate::spelt::Words;
use crate::turns::Turn;
use account::decisions::Decision;
use site::calls::{Request, Response};
use site::refusals::Refusal;
use site::site::changes::Stepped;
use std::test::Fail;

#[test]
fn only_the_next_place_is_taken(rt: HostRuntime) -> Result<(), Fail> {
    on_both(
        &rt,
        8,
        8,
        &[
            Turn::Misplaces(0, Words::None, Refusal::PlaceDecided),
            Turn::Misplaces(2, Words::None, Refusal::PlaceAhead),
            Turn::Misplaces(268_435_456, Words::None, Refusal::PlaceAhead),
            Turn::Misplaces(4_294_967_295, Words::None, Refusal::PlaceAhead),
            Turn::Delivers(1, Words::None, Decision::Void),
            Turn::Misplaces(0, Words::None, Refusal::PlaceDecided),
            Turn::Misplaces(1, Words::None, Refusal::PlaceDecided),
            Turn::Misplaces(3, Words::None, Refusal::PlaceAhead),
            Turn::Delivers(2, Words::None, Decision::Void),
        ],
    )
}

// Of several refusals the place comes before the log. What is no commit needs no room.
#[test]
fn commit_is_declined_where_the_log_is_full(rt: HostRuntime) -> Result<(), Fail> {
    on_both(
        &rt,
        8,
        2,
        &[
            Turn::Delivers(1, Words::Edit(1, 1, 0, 1, 5), Decision::Commit(1)),
            Turn::Delivers(2, Words::Edit(1, 2, 1, 2, 6), Decision::Commit(2)),
            Turn::Misplaces(3, Words::Edit(1, 3, 2, 3, 7), Refusal::LogFull),
            Turn::Misplaces(2, Words::Edit(1, 3, 2, 3, 7), Refusal::PlaceDecided),
            Turn::Misplaces(4, Words::Edit(1, 3, 2, 3, 7), Refusal::PlaceAhead),
            Turn::Delivers(3, Words::Edit(1, 3, 0, 1, 7), Decision::Conflict(1)),
            Turn::Delivers(4, Words::Report(0, 2), Decision::Noted),
            Turn::Delivers(5, Words::Report(1, 2), Decision::Noted),
            Turn::Delivers(6, Words::None, Decision::Void),
            Turn::Misplaces(7, Words::Edit(1, 3, 2, 3, 7), Refusal::LogFull),
            Turn::CatchesUp,
            Turn::Does(Request::Trim),
            Turn::Delivers(7, Words::Edit(1, 3, 2, 3, 7), Decision::Commit(3)),
        ],
    )
}

#[test]
fn declined_commit_leaves_its_posted_edit_pending(rt: HostRuntime) -> Result<(), Fail> {
    on_both(
        &rt,
        8,
        1,
        &[
            Turn::Delivers(1, Words::Edit(1, 1, 0, 1, 5), Decision::Commit(1)),
            Turn::Begins(0, 1),
            Turn::Sets(FIRST, 2, 6),
            Turn::Asks(Request::Post(FIRST), Response::Sent(FIRST, 5)),
            Turn::Misplaces(2, Words::Edit(0, 1, 0, 2, 6), Refusal::LogFull),
            Turn::Asks(Request::Outcome(FIRST), Response::Pending),
        ],
    )
}

#[test]
fn snapshot_above_the_last_version_is_ahead(rt: HostRuntime) -> Result<(), Fail> {
    on_both(
        &rt,
        8,
        8,
        &[
            Turn::Delivers(1, Words::Edit(1, 1, 1, 1, 5), Decision::Ahead),
            Turn::Delivers(2, Words::Edit(1, 1, 0, 1, 5), Decision::Commit(1)),
            Turn::Delivers(3, Words::Edit(1, 2, 2, 2, 6), Decision::Ahead),
            Turn::Delivers(4, Words::Edit(1, 2, 1, 2, 6), Decision::Commit(2)),
        ],
    )
}

// The floor stays at 0 at first: page 0 is still written. Then the floor is at 1 and the horizon at 4.
#[test]
fn edit_is_too_old_by_the_horizon_and_not_by_the_floor(rt: HostRuntime) -> Result<(), Fail> {
    on_both(
        &rt,
        8,
        8,
        &[
            Turn::Delivers(1, Words::Edit(1, 1, 0, 1, 5), Decision::Commit(1)),
            Turn::Delivers(2, Words::Edit(1, 2, 1, 2, 6), Decision::Commit(2)),
            Turn::Delivers(3, Words::Report(0, 1), Decision::Noted),
            Turn::Delivers(4, Words::Edit(1, 3, 0, 3, 7), Decision::Commit(3)),
            Turn::Delivers(5, Words::Report(1, 2), Decision::Noted),
            Turn::Delivers(6, Words::Edit(1, 4, 0, 4, 8), Decision::TooOld),
            Turn::Delivers(7, Words::Edit(1, 4, 1, 4, 8), Decision::Commit(4)),
            Turn::Leads(Request::Page(0), Words::Entry(1, 1)),
            Turn::Asks(Request::Step, Response::Stepped(Stepped::Opened)),
            Turn::Asks(Request::Step, Response::Stepped(Stepped::Staged)),
            Turn::Asks(Request::Step, Response::Stepped(Stepped::Sealed)),
            Turn::Delivers(8, Words::Report(0, 4), Decision::Noted),
            Turn::Delivers(9, Words::Report(1, 4), Decision::Noted),
            Turn::Does(Request::Trim),
            Turn::Declines(Request::Page(0), Refusal::VersionTrimmed),
            Turn::Delivers(10, Words::Edit(1, 5, 1, 5, 9), Decision::TooOld),
            Turn::Delivers(11, Words::Edit(1, 5, 3, 5, 9), Decision::TooOld),
            Turn::Delivers(12, Words::Edit(1, 5, 4, 5, 9), Decision::Commit(5)),
        ],
    )
}

// A trim goes no further than the horizon, and known numbers never fall, so the floor is never above the horizon: here it has
// come as near as it can.
#[test]
fn edit_at_the_floor_is_decided_by_the_commits_above_it(rt: HostRuntime) -> Result<(), Fail> {
    on_both(
        &rt,
        8,
        8,
        &[
            Turn::Delivers(1, Words::Edit(1, 1, 0, 1, 5), Decision::Commit(1)),
            Turn::Delivers(2, Words::Edit(1, 2, 1, 2, 6), Decision::Commit(2)),
            Turn::Delivers(3, Words::Report(0, 1), Decision::Noted),
            Turn::Delivers(4, Words::Report(1, 1), Decision::Noted),
            Turn::CatchesUp,
            Turn::Does(Request::Trim),
            Turn::Declines(Request::Page(0), Refusal::VersionTrimmed),
            Turn::Delivers(5, Words::Edit(1, 3, 0, 3, 7), Decision::TooOld),
            Turn::Delivers(6, Words::Edit(1, 3, 1, 2, 7), Decision::Conflict(2)),
            Turn::Delivers(7, Words::Edit(1, 3, 1, 1, 7), Decision::Commit(3)),
        ],
    )
}

#[test]
fn commit_of_the_snapshot_itself_is_not_counted(rt: HostRuntime) -> Result<(), Fail> {
    on_both(
        &rt,
        8,
        8,
        &[
            Turn::Delivers(1, Words::Edit(1, 1, 0, 1, 5), Decision::Commit(1)),
            Turn::Delivers(2, Words::Edit(1, 2, 0, 1, 6), Decision::Conflict(1)),
            Turn::Delivers(3, Words::Edit(1, 2, 1, 1, 6), Decision::Commit(2)),
            Turn::Delivers(4, Words::Edit(1, 3, 0, 1, 7), Decision::Conflict(1)),
            Turn::Delivers(5, Words::Edit(1, 3, 1, 1, 7), Decision::Conflict(2)),
            Turn::Delivers(6, Words::Edit(1, 3, 2, 1, 7), Decision::Commit(3)),
        ],
    )
}

#[test]
fn report_beyond_the_last_version_counts_as_that(rt: HostRuntime) -> Result<(), Fail> {
    on_both(
        &rt,
        8,
        8,
        &[
            Turn::Delivers(1, Words::Edit(1, 1, 0, 1, 5), Decision::Commit(1)),
            Turn::Delivers(2, Words::Report(0, 9), Decision::Noted),
            Turn::Delivers(3, Words::Report(1, 268_435_455), Decision::Noted),
            Turn::Delivers(4, Words::Edit(1, 2, 0, 2, 6), Decision::TooOld),
            Turn::Delivers(5, Words::Edit(1, 2, 1, 2, 6), Decision::Commit(2)),
            Turn::Leads(Request::Page(2), Words::Closing(2, 5, 1, 1)),
        ],
    )
}
