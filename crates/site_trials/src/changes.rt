// Step: versions go from the log into the store.
use crate::pairs::on_both;
use crate::spelt::Words;
use crate::turns::Turn;
use account::decisions::Decision;
use site::calls::{Request, Response};
use site::modes::Mode;
use site::refusals::Refusal;
use site::site::changes::Stepped;
use std::test::Fail;

#[test]
fn version_is_opened_where_its_writes_just_fit(rt: HostRuntime) -> Result<(), Fail> {
    on_both(
        &rt,
        3,
        8,
        &[
            Turn::Delivers(1, Words::Two(1, 0), Decision::Commit(1)),
            Turn::Delivers(2, Words::Edit(1, 2, 1, 1, 11), Decision::Commit(2)),
            Turn::Delivers(3, Words::Edit(1, 3, 2, 3, 30), Decision::Commit(3)),
            Turn::Asks(Request::Step, Response::Stepped(Stepped::Opened)),
            Turn::Asks(Request::Step, Response::Stepped(Stepped::Staged)),
            Turn::Asks(Request::Step, Response::Stepped(Stepped::Staged)),
            Turn::Asks(Request::Step, Response::Stepped(Stepped::Sealed)),
            Turn::Asks(Request::Step, Response::Stepped(Stepped::Opened)),
            Turn::Asks(Request::Step, Response::Stepped(Stepped::Staged)),
            Turn::Asks(Request::Step, Response::Stepped(Stepped::Sealed)),
            Turn::Declines(Request::Step, Refusal::StoreFull),
            Turn::Looks(1, Some(11)),
            Turn::Does(Request::Prune),
            Turn::Asks(Request::Step, Response::Stepped(Stepped::Opened)),
            Turn::Asks(Request::Step, Response::Stepped(Stepped::Staged)),
            Turn::Asks(Request::Step, Response::Stepped(Stepped::Sealed)),
            Turn::Asks(Request::Step, Response::Stepped(Stepped::Idle)),
            Turn::Looks(1, Some(11)),
            Turn::Looks(2, Some(20)),
            Turn::Looks(3, Some(30)),
        ],
    )
}

#[test]
fn version_of_two_writes_is_declined_where_one_would_fit(rt: HostRuntime) -> Result<(), Fail> {
    on_both(
        &rt,
        2,
        8,
        &[
            Turn::Delivers(1, Words::Edit(1, 1, 0, 3, 30), Decision::Commit(1)),
            Turn::Delivers(2, Words::Two(2, 1), Decision::Commit(2)),
            Turn::Asks(Request::Step, Response::Stepped(Stepped::Opened)),
            Turn::Asks(Request::Step, Response::Stepped(Stepped::Staged)),
            Turn::Asks(Request::Step, Response::Stepped(Stepped::Sealed)),
            Turn::Declines(Request::Step, Refusal::StoreFull),
            Turn::Looks(3, Some(30)),
        ],
    )
}

#[test]
fn power_loss_drops_what_is_staged(rt: HostRuntime) -> Result<(), Fail> {
    on_both(
        &rt,
        2,
        8,
        &[
            Turn::Delivers(1, Words::Two(1, 0), Decision::Commit(1)),
            Turn::Asks(Request::Step, Response::Stepped(Stepped::Opened)),
            Turn::Asks(Request::Step, Response::Stepped(Stepped::Staged)),
            Turn::Does(Request::Crash),
            Turn::Asks(Request::Wake, Response::Woken(Mode::Whole)),
            Turn::Looks(1, None),
            Turn::Asks(Request::Step, Response::Stepped(Stepped::Opened)),
            Turn::Asks(Request::Step, Response::Stepped(Stepped::Staged)),
            Turn::Asks(Request::Step, Response::Stepped(Stepped::Staged)),
            Turn::Asks(Request::Step, Response::Stepped(Stepped::Sealed)),
            Turn::Looks(1, Some(10)),
            Turn::Looks(2, Some(20)),
        ],
    )
}
