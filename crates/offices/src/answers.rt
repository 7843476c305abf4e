// A line as it is printed: its words, and the answer.
use script::asks::Deed;
use site::calls::{Response, Shown};
use site::refusals::Refusal;
use std::fmt;
use std::fmt::Write;
use text::numbers::hex_digits;
use text::split::Words;

/// The words of a line that was understood, parted by single spaces.
#[derive(Clone, Copy)]
pub struct Spaced<'a>(pub &'a [u8]);

impl fmt::Display for Spaced<'_> {
    fn fmt<W: fmt::Write>(&self, f: &mut fmt::Formatter<W>) -> fmt::Result {
        let mut words = Words(self.0);
        if let Some(first) = words.next() {
            put_word(f, first)?;
        }
        for word in words {
            f.write_str(" ")?;
            put_word(f, word)?;
        }
        Ok(())
    }
}

// A word of a line that was understood: all its bytes are ASCII.
fn put_word<W: fmt::Write>(f: &mut fmt::Formatter<W>, word: &[u8]) -> fmt::Result {
    for byte in word {
        f.write_char(*byte as char)?;
    }
    Ok(())
}

/// What a line comes to.
#[derive(Drop)]
pub enum Answer<'a> {
    Made,
    Place(usize),
    Declined(Refusal),
    Heard(Heard<'a>),
    Seen(Shown),
}

impl fmt::Display for Answer<'_> {
    fn fmt<W: fmt::Write>(&self, f: &mut fmt::Formatter<W>) -> fmt::Result {
        match self {
            Answer::Made => f.write_str("made"),
            Answer::Place(place) => write!(f, "place {place}"),
            Answer::Declined(refusal) => {
                let number = refusal.number();
                write!(f, "declined {number}")
            }
            Answer::Heard(heard) => write!(f, "{heard}"),
            Answer::Seen(shown) => put_shown(f, shown),
        }
    }
}

/// What a site answers to a call that it carries out, with the words that it wrote.
#[derive(Drop)]
pub struct Heard<'a> {
    pub deed: Deed<'a>,
    pub response: Response,
    pub written: Vec<u32>,
}

impl fmt::Display for Heard<'_> {
    fn fmt<W: fmt::Write>(&self, f: &mut fmt::Formatter<W>) -> fmt::Result {
        match self.response {
            Response::Drafted(draft) => {
                let slot = draft.slot;
                let ticket = draft.ticket;
                write!(f, "draft {slot} {ticket}")
            }
            Response::Value(Some(value)) => write!(f, "value {value}"),
            Response::Value(None) => f.write_str("absent"),
            Response::Done => f.write_str(done_name(self.deed)),
            Response::ReadOnly => f.write_str("read only"),
            Response::Sent(_, _) => put_words(f, "posted", &self.written),
            Response::Pending => f.write_str("pending"),
            Response::Told(decision) => write!(f, "{decision}"),
            Response::Stepped(stepped) => write!(f, "{stepped}"),
            Response::Wrote(_) => put_words(f, "words", &self.written),
            Response::Woken(mode) => write!(f, "{mode}"),
        }
    }
}

// What a call is called that was carried out and has nothing else to say: the one answer whose text is the call's.
fn done_name(deed: Deed) -> &'static str {
    match deed {
        Deed::Write(_, _, _) => "written",
        Deed::GiveUp(_) => "given up",
        Deed::LetGo(_) => "let go",
        Deed::Take(_) => "taken",
        Deed::Trim => "trimmed",
        Deed::Prune => "pruned",
        Deed::Crash => "crashed",
        _ => "done",
    }
}

// What was written, and its words: their digits are ASCII, so that they are always text.
fn put_words<W: fmt::Write>(f: &mut fmt::Formatter<W>, what: &str, words: &[u32]) -> fmt::Result {
    f.write_str(what)?;
    for word in words {
        f.write_str(" ")?;
        let digits = hex_digits(*word);
        f.write_str(str::from_utf8(&digits).map_err(|_| fmt::Error)?)?;
    }
    Ok(())
}

fn put_shown<W: fmt::Write>(f: &mut fmt::Formatter<W>, shown: &Shown) -> fmt::Result {
    let Shown {
        mode,
        version,
        sealed,
        staged,
        floor,
        last,
        place,
        known,
        tickets,
    } = shown;
    write!(
        f,
        "mode {mode} version {version} sealed {sealed} staged {staged}"
    )?;
    write!(f, " floor {floor} last {last} place {place} known")?;
    for number in known.as_slice() {
        write!(f, " {number}")?;
    }
    write!(f, " tickets {tickets}")
}
