// Post, outcome, let go and report.
use crate::pairs::on_both;
use crate::seen::{FIRST, NEXT, SECOND};
use crate::spelt::Words;
use crate::turns::Turn;
use account::decisions::Decision;
use site::calls::{Request, Response};
use site::handles::Handle;
use site::refusals::Refusal;
use std::test::Fail;

#[test]
fn post_needs_room_for_each_of_its_words(rt: HostRuntime) -> Result<(), Fail> {
    on_both(
        &rt,
        8,
        8,
        &[
            Turn::Begins(0, 1),
            Turn::Sets(FIRST, 1, 10),
            Turn::Begins(1, 2),
            Turn::Sets(SECOND, 2, 20),
            Turn::Writes(Request::Post(FIRST), Words::Edit(0, 1, 0, 1, 10)),
            Turn::Leads(Request::Post(SECOND), Words::Edit(0, 2, 0, 2, 20)),
        ],
    )
}

#[test]
fn drafts_that_were_posted_are_declined(rt: HostRuntime) -> Result<(), Fail> {
    on_both(
        &rt,
        8,
        8,
        &[
            Turn::Begins(0, 1),
            Turn::Sets(FIRST, 1, 10),
            Turn::Asks(Request::Post(FIRST), Response::Sent(FIRST, 5)),
            Turn::Declines(Request::Read(FIRST, 1), Refusal::NotYours),
            Turn::Keeps(FIRST, 1, 11, Refusal::NotYours),
            Turn::Declines(Request::Post(FIRST), Refusal::NotYours),
            Turn::Cramped(Request::Post(FIRST), 0, Refusal::NotYours),
            Turn::Does(Request::GiveUp(FIRST)),
            Turn::Asks(Request::Outcome(FIRST), Response::Pending),
        ],
    )
}

#[test]
fn draft_with_nothing_written_is_read_only(rt: HostRuntime) -> Result<(), Fail> {
    on_both(
        &rt,
        8,
        8,
        &[
            Turn::Begins(0, 1),
            Turn::Asks(Request::Post(FIRST), Response::ReadOnly),
            Turn::Declines(Request::Post(FIRST), Refusal::NotYours),
            Turn::Begins(0, 2),
        ],
    )
}

#[test]
fn report_of_keep_needs_room_for_two_words(rt: HostRuntime) -> Result<(), Fail> {
    on_both(
        &rt,
        8,
        8,
        &[
            Turn::Writes(Request::Report, Words::Report(0, 0)),
            Turn::Cramped(Request::Report, 0, Refusal::ShortBuffer),
            Turn::Delivers(1, Words::Edit(1, 1, 0, 1, 10), Decision::Commit(1)),
            Turn::Begins(0, 1),
            Turn::Sets(FIRST, 2, 20),
            Turn::CatchesUp,
            Turn::Leads(Request::Report, Words::Report(0, 0)),
            Turn::Asks(Request::Post(FIRST), Response::Sent(FIRST, 5)),
            Turn::Writes(Request::Report, Words::Report(0, 0)),
            Turn::Does(Request::LetGo(FIRST)),
            Turn::Writes(Request::Report, Words::Report(0, 1)),
        ],
    )
}

// Another site's edit with the same ticket and writes is not this one.
#[test]
fn posted_edit_is_pending_until_its_own_words_are_decided(rt: HostRuntime) -> Result<(), Fail> {
    on_both(
        &rt,
        8,
        8,
        &[
            Turn::Begins(0, 1),
            Turn::Sets(FIRST, 1, 10),
            Turn::Declines(Request::Outcome(FIRST), Refusal::NotYours),
            Turn::Asks(Request::Post(FIRST), Response::Sent(FIRST, 5)),
            Turn::Asks(Request::Outcome(FIRST), Response::Pending),
            Turn::Delivers(1, Words::Edit(1, 1, 0, 1, 10), Decision::Commit(1)),
            Turn::Asks(Request::Outcome(FIRST), Response::Pending),
            Turn::Declines(Request::Outcome(NEXT), Refusal::NotYours),
            Turn::Declines(
                Request::Outcome(Handle { slot: 8, ..FIRST }),
                Refusal::NotYours,
            ),
            Turn::Declines(
                Request::Outcome(Handle { site: 1, ..FIRST }),
                Refusal::NotYours,
            ),
            Turn::Delivers(2, Words::Edit(0, 1, 0, 1, 10), Decision::Conflict(1)),
            Turn::Asks(
                Request::Outcome(FIRST),
                Response::Told(Decision::Conflict(1)),
            ),
            Turn::Declines(Request::Outcome(FIRST), Refusal::NotYours),
            Turn::Begins(0, 2),
        ],
    )
}

#[test]
fn edit_that_was_let_go_is_decided_and_not_told(rt: HostRuntime) -> Result<(), Fail> {
    on_both(
        &rt,
        8,
        8,
        &[
            Turn::Begins(0, 1),
            Turn::Sets(FIRST, 1, 10),
            Turn::Asks(Request::Post(FIRST), Response::Sent(FIRST, 5)),
            Turn::Does(Request::LetGo(FIRST)),
            Turn::Delivers(1, Words::Edit(0, 1, 0, 1, 10), Decision::Commit(1)),
            Turn::Declines(Request::Outcome(FIRST), Refusal::NotYours),
            Turn::CatchesUp,
            Turn::Looks(1, Some(10)),
        ],
    )
}
