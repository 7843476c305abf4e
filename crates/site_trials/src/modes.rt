// What a site declines when it is down, and when it is partial.
use crate::pairs::on_both;
use crate::seen::{FIRST, SECOND};
use crate::spelt::Words;
use crate::turns::Turn;
use account::decisions::Decision;
use site::calls::{Request, Response};
use site::modes::Mode;
use site::refusals::Refusal;
use std::test::Fail;

// Each call would be declined for another reason too, if it has one: being down comes first.
#[test]
fn site_that_is_down_declines_all_but_waking_and_ending(rt: HostRuntime) -> Result<(), Fail> {
    on_both(
        &rt,
        8,
        8,
        &[
            Turn::Begins(0, 1),
            Turn::Sets(FIRST, 1, 10),
            Turn::Begins(1, 2),
            Turn::Sets(SECOND, 2, 20),
            Turn::Asks(Request::Post(SECOND), Response::Sent(SECOND, 5)),
            Turn::Does(Request::Crash),
            Turn::Declines(Request::Begin, Refusal::SiteDown),
            Turn::Declines(Request::Read(FIRST, 268_435_456), Refusal::SiteDown),
            Turn::Declines(Request::Look(268_435_456), Refusal::SiteDown),
            Turn::Keeps(FIRST, 268_435_456, 11, Refusal::SiteDown),
            Turn::Cramped(Request::Post(FIRST), 0, Refusal::SiteDown),
            Turn::Declines(Request::Outcome(SECOND), Refusal::SiteDown),
            Turn::Misplaces(0, Words::None, Refusal::SiteDown),
            Turn::Misplaces(2, Words::None, Refusal::SiteDown),
            Turn::Declines(Request::Step, Refusal::SiteDown),
            Turn::Cramped(Request::Report, 0, Refusal::SiteDown),
            Turn::Cramped(Request::Page(1), 0, Refusal::SiteDown),
            Turn::Rejects(Words::None, Refusal::SiteDown),
            Turn::Rejects(Words::Entry(2, 1), Refusal::SiteDown),
            Turn::Declines(Request::Trim, Refusal::SiteDown),
            Turn::Declines(Request::Prune, Refusal::SiteDown),
            Turn::Declines(Request::Crash, Refusal::SiteDown),
            Turn::Does(Request::GiveUp(FIRST)),
            Turn::Does(Request::LetGo(SECOND)),
            Turn::Asks(Request::Wake, Response::Woken(Mode::Whole)),
            Turn::Declines(Request::Read(FIRST, 1), Refusal::NotYours),
            Turn::Declines(Request::Outcome(SECOND), Refusal::NotYours),
            Turn::Begins(0, 3),
        ],
    )
}

#[test]
fn delivery_after_entry_pages_waits_for_the_closing_page(rt: HostRuntime) -> Result<(), Fail> {
    on_both(
        &rt,
        8,
        8,
        &[
            Turn::Delivers(1, Words::Edit(1, 1, 0, 1, 5), Decision::Commit(1)),
            Turn::Takes(Words::Entry(2, 2)),
            Turn::Misplaces(2, Words::Edit(1, 3, 2, 2, 6), Refusal::SitePartial),
            Turn::Takes(Words::Entry(3, 3)),
            Turn::Misplaces(2, Words::Edit(1, 3, 2, 2, 6), Refusal::SitePartial),
            Turn::Misplaces(4, Words::Edit(1, 3, 2, 2, 6), Refusal::SitePartial),
            Turn::Takes(Words::Closing(3, 4, 0, 0)),
            Turn::Delivers(5, Words::Edit(1, 4, 3, 2, 6), Decision::Commit(4)),
        ],
    )
}

// Being partial comes before the place, the version and the room.
#[test]
fn partial_site_declines_begin_deliver_and_page(rt: HostRuntime) -> Result<(), Fail> {
    on_both(
        &rt,
        8,
        8,
        &[
            Turn::Begins(0, 1),
            Turn::Does(Request::GiveUp(FIRST)),
            Turn::Takes(Words::Entry(1, 1)),
            Turn::Declines(Request::Begin, Refusal::SitePartial),
            Turn::Misplaces(0, Words::None, Refusal::SitePartial),
            Turn::Misplaces(9, Words::None, Refusal::SitePartial),
            Turn::Declines(Request::Page(0), Refusal::SitePartial),
            Turn::Declines(Request::Page(9), Refusal::SitePartial),
            Turn::Cramped(Request::Page(0), 0, Refusal::SitePartial),
            Turn::CatchesUp,
            Turn::Looks(1, Some(5)),
            Turn::Leads(Request::Report, Words::Report(0, 1)),
            Turn::Does(Request::Trim),
            Turn::Does(Request::Prune),
            Turn::Takes(Words::Closing(1, 1, 0, 0)),
            Turn::Leads(Request::Page(0), Words::Entry(1, 1)),
            Turn::Begins(0, 2),
        ],
    )
}

#[test]
fn only_a_site_that_is_down_wakes(rt: HostRuntime) -> Result<(), Fail> {
    on_both(
        &rt,
        8,
        8,
        &[
            Turn::Declines(Request::Wake, Refusal::NotDown),
            Turn::Does(Request::Crash),
            Turn::Asks(Request::Wake, Response::Woken(Mode::Whole)),
            Turn::Takes(Words::Entry(1, 1)),
            Turn::Declines(Request::Wake, Refusal::NotDown),
            Turn::Does(Request::Crash),
            Turn::Asks(Request::Wake, Response::Woken(Mode::Partial)),
            Turn::Misplaces(1, Words::None, Refusal::SitePartial),
            Turn::Takes(Words::Closing(1, 1, 0, 0)),
            Turn::Declines(Request::Wake, Refusal::NotDown),
            Turn::Does(Request::Crash),
            Turn::Asks(Request::Wake, Response::Woken(Mode::Whole)),
            Turn::Delivers(2, Words::None, Decision::Void),
        ],
    )
}
