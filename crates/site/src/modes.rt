// What a site does depends on its mode and the call together.
ghost use Rattle.std.specs.Prelude.{◌≡◌, Some};
ghost use Rattle.site.specs.Modes.{admitted, admission};
ghost use Rattle.site.specs.Texts.{mode_text};

use crate::refusals::Refusal;
use std::fmt;

/// Whole: all is known up to the site's place. Partial: entries were copied and no closing page came yet. Down: without power.
#[derive(Clone, Copy, PartialEq, Eq, Debug)]
pub enum Mode {
    Whole,
    Partial,
    Down,
}

impl fmt::Display for Mode {
    ghost output = { λ m. Some (mode_text m) };

    fn fmt<W: fmt::Write>(&self, f: &mut fmt::Formatter<W>) -> fmt::Result {
        match *self {
            Mode::Whole => f.write_str("whole"),
            Mode::Partial => f.write_str("partial"),
            Mode::Down => f.write_str("down"),
        }
    }
}

/// A call, as far as the mode has a say in it. Waking brings the log's mark.
#[derive(Clone, Copy, PartialEq, Eq, Debug)]
pub enum Event {
    Begin,
    Deliver,
    Page,
    TakeEntry,
    TakeClosing,
    GiveUp,
    LetGo,
    Crash,
    Wake(bool),
    Other,
}

/// The mode after the call, or why the mode declines it.
pub fn admit(mode: Mode, event: Event) -> Result<Mode, Refusal>
    ensures { admission result ≡ admitted mode event }
{
    match (mode, event) {
        (Mode::Down, Event::Wake(true)) => Ok(Mode::Whole),
        (Mode::Down, Event::Wake(false)) => Ok(Mode::Partial),
        (_, Event::Wake(_)) => Err(Refusal::NotDown),
        (_, Event::GiveUp | Event::LetGo) => Ok(mode),
        (Mode::Down, _) => Err(Refusal::SiteDown),
        (Mode::Partial, Event::Begin | Event::Deliver | Event::Page) => Err(Refusal::SitePartial),
        (_, Event::TakeEntry) => Ok(Mode::Partial),
        (_, Event::TakeClosing) => Ok(Mode::Whole),
        (_, Event::Crash) => Ok(Mode::Down),
        (_, _) => Ok(mode),
    }
}
