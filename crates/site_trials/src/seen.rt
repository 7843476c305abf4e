// What can be seen of a site without changing it.
use crate::moments::Moment;
use crate::said::ROOM;
use site::calls::{Calls, Request, Response, Shown};
use site::handles::Handle;
use std::process::Abort;

// The first two drafts that a site gives, if neither ended before.
pub(crate) const FIRST: Handle = Handle {
    site: 0,
    slot: 0,
    ticket: 1,
};

pub(crate) const SECOND: Handle = Handle {
    site: 0,
    slot: 1,
    ticket: 2,
};

// The draft that comes next, where the first one ended and gave its slot back.
pub(crate) const NEXT: Handle = Handle {
    site: 0,
    slot: 0,
    ticket: 2,
};

// The items that the trials write.
const ITEMS: [u32; 4] = [1, 2, 3, 268_435_455];

// All that a site shows, and each item as it is looked up and as the two drafts read it; none where that is declined.
// Three arrays beside `ITEMS`: each is a map over it, and a failure names the one that differs.
#[derive(Clone, Copy)]
pub(crate) struct Seen {
    shown: Shown,
    looks: [Option<Option<i32>>; 4],
    first: [Option<Option<i32>>; 4],
    second: [Option<Option<i32>>; 4],
}

fn ask<C: Calls>(site: &mut C, request: Request) -> Option<Option<i32>> {
    let mut out = [0u32; ROOM];
    match site.call(request, &[], &mut out) {
        Ok(Response::Value(value)) => Some(value),
        _ => None,
    }
}

pub(crate) fn see<C: Calls>(site: &mut C) -> Seen {
    Seen {
        shown: site.show(),
        looks: ITEMS.map(|item| ask(site, Request::Look(item))),
        first: ITEMS.map(|item| ask(site, Request::Read(FIRST, item))),
        second: ITEMS.map(|item| ask(site, Request::Read(SECOND, item))),
    }
}

// The numbers of the store and of the log.
fn numbers(shown: Shown) -> [u32; 7] {
    [
        shown.version,
        shown.sealed,
        shown.staged,
        shown.floor,
        shown.last,
        shown.place,
        shown.tickets,
    ]
}

// Field by field, since the list in `Shown` derives no equality.
fn check_shown(rt: &impl Abort, moment: Moment, before: Shown, after: Shown) {
    assert_eq!(rt; after.mode, before.mode, "{moment}");
    assert_eq!(rt; numbers(after), numbers(before), "{moment}");
    assert_eq!(rt; after.known.as_slice(), before.known.as_slice(), "{moment}");
}

pub(crate) fn check_seen(rt: &impl Abort, moment: Moment, before: Seen, after: Seen) {
    check_shown(rt, moment, before.shown, after.shown);
    assert_eq!(rt; after.looks, before.looks, "{moment}");
    assert_eq!(rt; after.first, before.first, "{moment}");
    assert_eq!(rt; after.second, before.second, "{moment}");
}
