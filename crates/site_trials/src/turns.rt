// Trials as lists of turns: a call at site 0 of a group of two, and what it has to answer.
use crate::moments::Moment;
use crate::said::{BLANK, ROOM, written};
use crate::seen::{check_seen, see};
use crate::spelt::{Words, spell};
use account::decisions::Decision;
use few::Few;
use site::calls::{Calls, Request, Response};
use site::handles::Handle;
use site::refusals::Refusal;
use site::site::changes::Stepped;
use std::process::Abort;
use words::changes::{Change, Write};

// Calls as values, since one list is played at two types of site.
#[derive(Clone, Copy)]
pub(crate) enum Turn {
    // The call is answered so; the buffer has room.
    Asks(Request, Response),
    // The call is carried out, and answers nothing.
    Does(Request),
    // The call is declined so, and nothing is changed; the buffer has room, or so many words of it.
    Declines(Request, Refusal),
    Cramped(Request, usize, Refusal),
    // Begin gives the draft of this slot and this ticket.
    Begins(u32, u32),
    // The draft sets the item to the value; or that is declined so.
    Sets(Handle, u32, i32),
    Keeps(Handle, u32, i32, Refusal),
    // The draft sets items 16 down to 1 to 7.
    Fills(Handle),
    // The draft reads the item as this, or it is looked up as this.
    Reads(Handle, u32, Option<i32>),
    Looks(u32, Option<i32>),
    // The words of that place are decided so; or declined.
    Delivers(u32, Words, Decision),
    Misplaces(u32, Words, Refusal),
    // The words are taken as a page; or declined.
    Takes(Words),
    Rejects(Words, Refusal),
    // The call writes these words into a buffer that is just long enough, and is declined in one a word shorter.
    Writes(Request, Words),
    // The call writes these words from the first word on, and leaves the rest of a longer buffer.
    Leads(Request, Words),
    // Steps are made until there is no version to open.
    CatchesUp,
}

// A site under trial, and where in the trial it is.
#[derive(Drop)]
struct Trial<'a, A: Abort, C: Calls> {
    rt: &'a A,
    moment: Moment,
    site: &'a mut C,
}

fn put(draft: Handle, item: u32, value: i32) -> Request {
    let change = Change::Set(value);
    Request::Put(draft, Write { item, change })
}

impl<A: Abort, C: Calls> Trial<'_, A, C> {
    // The call with these words and this room is declined so, and leaves the site, its drafts and the buffer.
    fn declines(&mut self, request: Request, words: &[u32], room: usize, refusal: Refusal) {
        let rt = self.rt;
        let moment = self.moment;
        let before = see(self.site);
        let mut out = [BLANK; ROOM];
        assert!(rt; room <= ROOM, "{moment}");
        let answer = self.site.call(request, words, &mut out[0..room]);
        assert_eq!(rt; answer, Err(refusal), "{moment}");
        assert_eq!(rt; out, [BLANK; ROOM], "{moment}");
        check_seen(rt, moment, before, see(self.site));
    }

    // The call with these words is answered so; the buffer has room.
    fn asks(&mut self, request: Request, words: &[u32], expected: Response) {
        let rt = self.rt;
        let moment = self.moment;
        let mut out = [BLANK; ROOM];
        let answer = self.site.call(request, words, &mut out);
        assert_eq!(rt; answer, Ok(expected), "{moment}");
    }

    // The call writes these words into a buffer with this room, and leaves the rest.
    fn writes_in(&mut self, request: Request, room: usize, words: Few<u32, ROOM>) {
        let rt = self.rt;
        let moment = self.moment;
        assert!(rt; room <= ROOM, "{moment}");
        let mut out = [BLANK; ROOM];
        let answer = self.site.call(request, &[], &mut out[0..room]);
        assert_eq!(rt; written(answer), Some(words.len()), "{moment}");
        let (front, rest) = out.split_at(words.len());
        assert_eq!(rt; front, words.as_slice(), "{moment}");
        assert!(rt; rest.iter().all(|word| *word == BLANK), "{moment}");
    }

    fn writes(&mut self, request: Request, expected: Words) {
        let rt = self.rt;
        let moment = self.moment;
        let words = spell(expected);
        assert!(rt; !words.is_empty(), "{moment}");
        self.declines(request, &[], words.len() - 1, Refusal::ShortBuffer);
        self.writes_in(request, words.len(), words);
    }

    fn begins(&mut self, slot: u32, ticket: u32) {
        let draft = Handle {
            site: 0,
            slot,
            ticket,
        };
        self.asks(Request::Begin, &[], Response::Drafted(draft));
    }

    fn fills(&mut self, draft: Handle) {
        for item in (1..17u32).rev() {
            self.asks(put(draft, item, 7), &[], Response::Done);
        }
    }

    // At most 40 steps.
    fn catches_up(&mut self) {
        let rt = self.rt;
        let moment = self.moment;
        for _ in 0..40 {
            let mut none = [0u32; 0];
            let answer = self.site.call(Request::Step, &[], &mut none);
            if let Ok(Response::Stepped(Stepped::Idle)) = answer {
                return;
            }
        }
        panic!(rt; "the store is not done yet: {moment}")
    }

    // With words handed in.
    fn hand(&mut self, request: Request, given: Words, expected: Result<Response, Refusal>) {
        let words = spell(given);
        match expected {
            Ok(response) => self.asks(request, words.as_slice(), response),
            Err(refusal) => self.declines(request, words.as_slice(), 0, refusal),
        }
    }

    fn take_turn(&mut self, turn: Turn) {
        match turn {
            Turn::Asks(request, expected) => self.asks(request, &[], expected),
            Turn::Does(request) => self.asks(request, &[], Response::Done),
            Turn::Declines(request, refusal) => self.declines(request, &[], ROOM, refusal),
            Turn::Cramped(request, room, refusal) => self.declines(request, &[], room, refusal),
            Turn::Begins(slot, ticket) => self.begins(slot, ticket),
            Turn::Sets(draft, item, value) => {
                self.asks(put(draft, item, value), &[], Response::Done)
            }
            Turn::Keeps(draft, item, value, refusal) => {
                self.declines(put(draft, item, value), &[], ROOM, refusal)
            }
            Turn::Fills(draft) => self.fills(draft),
            Turn::Reads(draft, item, value) => {
                self.asks(Request::Read(draft, item), &[], Response::Value(value))
            }
            Turn::Looks(item, value) => self.asks(Request::Look(item), &[], Response::Value(value)),
            Turn::Delivers(place, words, decision) => {
                self.hand(Request::Deliver(place), words, Ok(Response::Told(decision)))
            }
            Turn::Misplaces(place, words, refusal) => {
                self.hand(Request::Deliver(place), words, Err(refusal))
            }
            Turn::Takes(words) => self.hand(Request::Take, words, Ok(Response::Done)),
            Turn::Rejects(words, refusal) => self.hand(Request::Take, words, Err(refusal)),
            Turn::Writes(request, words) => self.writes(request, words),
            Turn::Leads(request, words) => self.writes_in(request, ROOM, spell(words)),
            Turn::CatchesUp => self.catches_up(),
        }
    }
}

// Takes the turns one after another; a failure says over which pair, and how many went well.
pub(crate) fn play<A: Abort, C: Calls>(rt: &A, pair: &'static str, site: &mut C, turns: &[Turn]) {
    for (i, turn) in turns.iter().enumerate() {
        let moment = Moment { pair, turns: i };
        let mut trial = Trial { rt, moment, site };
        trial.take_turn(*turn);
    }
}
