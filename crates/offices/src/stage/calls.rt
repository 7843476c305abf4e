// A call at a site, from what the line asks for to what names stand for afterwards.
ghost use Rattle.std.specs.Prelude.{min, length, take};
ghost use Rattle.site.specs.Spoken.{asked};
ghost use Rattle.group.specs.Groups.{heard_in, Lawful};
ghost use Rattle.offices.specs.Playing.{sites_of};

use super::{Edit, Stage};
use crate::answers::{Answer, Heard};
use crate::reasons::Reason;
use group::any::AnySite;
use group::group::Group;
use script::asks::{Buffer, Deed};
use script::parts::ROOM;
use site::calls::{Request, Response};
use site::refusals::Refusal;
use words::changes::Write;

// The most words that a buffer has.
const MOST_ROOM: usize = 40;

// How many words the line asks for in the buffer; a call that writes nothing is given one too.
fn room_of(deed: Deed) -> usize {
    let room = match deed {
        Deed::Post(_, buffer) | Deed::Report(buffer) | Deed::Page(_, buffer) => buffer.room,
        _ => ROOM,
    };
    room as usize
}

// Makes the call, with so many words of the buffer: the one call of the group that the program makes.
fn ask_group(
    group: &mut Group<AnySite>,
    site: u32,
    request: Request,
    words: &[u32],
    out: &mut [u32],
    room: usize,
) -> Option<Result<Response, Refusal>>
    ensures { Lawful (sites_of group.old) (sites_of group.new) site (asked request words.now (min room (length out.old))) (heard_in result (take (min room (length out.old)) out.new)) }
{
    let end = room.min(out.len());
    group.call(site, request, words, &mut out[0..end])
}

// The words written stand at the buffer's front.
fn keep_written(out: &mut Vec<u32>, response: Response) {
    let count = match response {
        Response::Sent(_, count) | Response::Wrote(count) => count,
        _ => 0,
    };
    out.truncate(count);
}

impl<'a> Stage<'a> {
    // The call that is asked for, by its numbers; none for a question. A match, since each call has other arguments.
    fn request(&self, deed: Deed) -> Result<Option<Request>, Reason> {
        let request = match deed {
            Deed::Begin(_) => Request::Begin,
            Deed::Read(name, item) => Request::Read(self.draft(name)?, item),
            Deed::Look(item) => Request::Look(item),
            Deed::Write(name, item, change) => {
                Request::Put(self.draft(name)?, Write { item, change })
            }
            Deed::Post(name, _) => Request::Post(self.draft(name)?),
            Deed::GiveUp(name) => Request::GiveUp(self.draft(name)?),
            Deed::LetGo(name) => Request::LetGo(self.posted(name)?),
            Deed::Outcome(name) => Request::Outcome(self.posted(name)?),
            Deed::Deliver(place, _) => Request::Deliver(place),
            Deed::Step => Request::Step,
            Deed::Report(_) => Request::Report,
            Deed::Page(version, _) => Request::Page(version),
            Deed::Take(_) => Request::Take,
            Deed::Trim => Request::Trim,
            Deed::Prune => Request::Prune,
            Deed::Crash => Request::Crash,
            Deed::Wake => Request::Wake,
            Deed::Show => return Ok(None),
        };
        Ok(Some(request))
    }

    // The words that the call hands in.
    fn handed(&self, deed: Deed) -> Result<Vec<u32>, Reason> {
        match deed {
            Deed::Deliver(_, Some(source)) | Deed::Take(source) => self.words_of(source),
            Deed::Deliver(place, None) => self.words_at(place),
            _ => Ok(Vec::new(self.heap)),
        }
    }

    // The words written, under their name where the line gives one.
    fn label(&mut self, buffer: Buffer<'a>, written: &[u32]) -> Result<(), Reason> {
        if let Some(name) = buffer.name {
            let words = written.to_vec(self.heap)?;
            self.messages.insert(name, words)?;
        }
        Ok(())
    }

    // What names stand for after the answer.
    fn settle(
        &mut self,
        deed: Deed<'a>,
        response: Response,
        written: &[u32],
    ) -> Result<(), Reason> {
        match (deed, response) {
            (Deed::Begin(name), Response::Drafted(draft)) => {
                self.edits.insert(name, Edit::Draft(draft))?;
            }
            (Deed::Post(name, buffer), Response::Sent(posted, _)) => {
                self.edits.insert(name, Edit::Posted(posted))?;
                self.label(buffer, written)?;
            }
            (Deed::Report(buffer) | Deed::Page(_, buffer), Response::Wrote(_)) => {
                self.label(buffer, written)?;
            }
            (Deed::Post(name, _), Response::ReadOnly)
            | (Deed::Outcome(name), Response::Told(_))
            | (Deed::GiveUp(name) | Deed::LetGo(name), _) => {
                let _ = self.edits.remove(name);
            }
            _ => {}
        }
        Ok(())
    }

    /// Plays a call at a site: what it comes to, with names standing for what the answer says. A refusal changes no name.
    pub fn play(&mut self, site: u32, deed: Deed<'a>) -> Result<Answer<'a>, Reason> {
        if !self.is_made(site) {
            return Err(Reason::NoSite);
        }
        let request = self.request(deed)?;
        let words = self.handed(deed)?;
        let group = self.group.as_mut().ok_or(Reason::NoSite)?;
        let Some(request) = request else {
            return Ok(Answer::Seen(group.show(site).ok_or(Reason::NoSite)?));
        };
        let mut written = vec![in self.heap; 0u32; MOST_ROOM]?;
        let response = ask_group(group, site, request, &words, &mut written, room_of(deed));
        match response.ok_or(Reason::NoSite)? {
            Err(refusal) => Ok(Answer::Declined(refusal)),
            Ok(response) => {
                keep_written(&mut written, response);
                self.settle(deed, response, &written)?;
                Ok(Answer::Heard(Heard {
                    deed,
                    response,
                    written,
                }))
            }
        }
    }
}
