// What a call answers, and the buffer that it writes into.
use site::calls::Response;
use site::refusals::Refusal;

// Room for any words that a site writes, and more.
pub(crate) const ROOM: usize = 40;

// A word that no site writes: what buffers hold before a call. Each crate of trials has its own, since they share no library.
pub(crate) const BLANK: u32 = 0xdead_beef;

// How many words were written.
pub(crate) fn written(answer: Result<Response, Refusal>) -> Option<usize> {
    match answer {
        Ok(Response::Sent(_, count) | Response::Wrote(count)) => Some(count),
        _ => None,
    }
}
