// Where in a trial an assertion stands, for its message.
use std::fmt;

// Over which pair, and how many turns went well before.
#[derive(Clone, Copy)]
pub(crate) struct Moment {
    pub(crate) pair: &'static str,
    pub(crate) turns: usize,
}

impl fmt::Display for Moment {
    fn fmt<W: fmt::Write>(&self, f: &mut fmt::Formatter<W>) -> fmt::Result {
        write!(f, "{}, after {} turns", self.pair, self.turns)
    }
}
