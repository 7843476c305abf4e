// A site as its callers see it: by its model only, whatever its store and its log are.
ghost use Rattle.std.specs.Prelude.{◌≡◌, length};
ghost use Rattle.site.specs.SiteModel.{SiteModel, site_model};
ghost use Rattle.site.specs.Calls.{called, told, landed, Done, Value, Read, Put};
ghost use Rattle.site.specs.Spoken.{asked, heard, shown, shown_as, is_new, Bounded};
ghost use Rattle.site.specs.SiteBounds.{site_bounded};

use crate::gather::known_of;
use crate::handles::{Draft, Handle, Posted};
use crate::modes::Mode;
use crate::refusals::Refusal;
use crate::site::Site;
use crate::site::changes::Stepped;
use crate::site::posts::{Answered, Sent};
use account::decisions::Decision;
use few::Few;
use logs::api::Log;
use store::api::Store;
use words::changes::Write;

/// A call in numbers. The words that a delivery or a take hands in, and the buffer that a post, a report or a page writes
/// to, stand beside it, being the caller's memory. A value and no closure, since a call is recorded, and asked about more than once.
#[derive(Clone, Copy)]
pub enum Request {
    Begin,
    Read(Handle, u32),
    Look(u32),
    Put(Handle, Write),
    Post(Handle),
    GiveUp(Handle),
    Outcome(Handle),
    LetGo(Handle),
    Deliver(u32),
    Step,
    Report,
    Page(u32),
    Take,
    Trim,
    Prune,
    Crash,
    Wake,
}

/// What a call that is carried out answers. Words that were written stand at the buffer's front; the answer says how many.
#[derive(Clone, Copy, PartialEq, Eq, Debug)]
pub enum Response {
    Drafted(Handle),
    Value(Option<i32>),
    Done,
    ReadOnly,
    Sent(Handle, usize),
    Pending,
    Told(Decision),
    Stepped(Stepped),
    Wrote(usize),
    Woken(Mode),
}

/// What a site shows of itself.
#[derive(Clone, Copy)]
pub struct Shown {
    pub mode: Mode,
    pub version: u32,
    pub sealed: u32,
    pub staged: u32,
    pub floor: u32,
    pub last: u32,
    pub place: u32,
    pub known: Few<u32, 8>,
    pub tickets: u32,
}

/// A site, by its model. Whoever is above sees no more of it.
pub trait Calls {
    // What the site holds.
    ghost model: { Self → SiteModel };

    /// Whether the site is that number of a group of so many, as it was made.
    fn is_new(&self, sites: u32, number: u32) -> bool
        ensures { result ≡ is_new sites number (model self.now) };

    /// What the site shows of itself, in any mode.
    fn show(&self) -> Shown
        ensures { shown_as result ≡ shown (model self.now) };

    /// One call, whichever it is: declined by the first line of its table that applies, or carried out.
    fn call(
        &mut self,
        request: Request,
        words: &[u32],
        out: &mut [u32],
    ) -> Result<Response, Refusal>
        ensures answered { (heard result out.new, model self.new) ≡ called (model self.old) (asked request words.now (length out.old)) }
        ensures buffer { out.new ≡ landed (heard result out.new) out.old };

    ghost bounded: { (s : Self) → Bounded (model s) };
}

// Calls by the numbers of a draft's handle: the draft is made for the one call and taken apart after it. A made-up handle is
// no slot's.
impl<S: Store, L: Log> Site<S, L> {
    fn read_by(&self, handle: Handle, item: u32) -> Result<Option<i32>, Refusal>
        ensures { (told Value result, site_model S.Store.model L.Log.model self.now) ≡ called (site_model S.Store.model L.Log.model self.now) (Read handle item) }
    {
        let draft = Draft(handle);
        let value = self.read(&draft, item);
        let Draft(_) = draft;
        value
    }

    fn write_by(&mut self, handle: Handle, write: Write) -> Result<(), Refusal>
        ensures { (told (λ _. Done) result, site_model S.Store.model L.Log.model self.new) ≡ called (site_model S.Store.model L.Log.model self.old) (Put handle write) }
    {
        let draft = Draft(handle);
        let written = self.write(&draft, write);
        let Draft(_) = draft;
        written
    }
}

impl<S: Store, L: Log> Calls for Site<S, L> {
    ghost model = { site_model S.Store.model L.Log.model };

    ghost bounded = { λ s. site_bounded S.Store.model L.Log.model s (S.Store.bounded s.store) (L.Log.bounded s.log) };

    fn is_new(&self, sites: u32, number: u32) -> bool {
        self.is_as_made(sites, number)
    }

    fn show(&self) -> Shown {
        Shown {
            mode: self.mode,
            version: self.store.version(),
            sealed: self.store.sealed_count(),
            staged: self.store.staged_count(),
            floor: self.log.floor(),
            last: self.log.last(),
            place: self.log.place(),
            known: known_of(&self.log),
            tickets: self.log.tickets(),
        }
    }

    fn call(
        &mut self,
        request: Request,
        words: &[u32],
        out: &mut [u32],
    ) -> Result<Response, Refusal> {
        Ok(match request {
            Request::Begin => {
                let Draft(handle) = self.begin()?;
                Response::Drafted(handle)
            }
            Request::Read(handle, item) => Response::Value(self.read_by(handle, item)?),
            Request::Look(item) => Response::Value(self.look(item)?),
            Request::Put(handle, write) => {
                self.write_by(handle, write)?;
                Response::Done
            }
            Request::Post(handle) => match self.post(Draft(handle), out) {
                Ok(
                    Some(
                        Sent {
                            posted: Posted(handle),
                            count,
                        },
                    ),
                ) => Response::Sent(handle, count),
                Ok(None) => Response::ReadOnly,
                Err((refusal, Draft(_))) => return Err(refusal),
            },
            Request::GiveUp(handle) => {
                self.give_up(Draft(handle));
                Response::Done
            }
            Request::Outcome(handle) => match self.outcome(Posted(handle)) {
                Ok(Answered::Decided(decision)) => Response::Told(decision),
                Ok(Answered::Pending(Posted(_))) => Response::Pending,
                Err((refusal, Posted(_))) => return Err(refusal),
            },
            Request::LetGo(handle) => {
                self.let_go(Posted(handle));
                Response::Done
            }
            Request::Deliver(place) => Response::Told(self.deliver(place, words)?),
            Request::Step => Response::Stepped(self.step()?),
            Request::Report => Response::Wrote(self.report(out)?),
            Request::Page(version) => Response::Wrote(self.page(version, out)?),
            Request::Take => {
                self.take(words)?;
                Response::Done
            }
            Request::Trim => {
                self.trim()?;
                Response::Done
            }
            Request::Prune => {
                self.prune()?;
                Response::Done
            }
            Request::Crash => {
                self.crash()?;
                Response::Done
            }
            Request::Wake => Response::Woken(self.wake()?),
        })
    }
}
