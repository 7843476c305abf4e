// Why a call is declined: the table of refusals.
ghost use Rattle.std.specs.Prelude.{◌≡◌};
ghost use Rattle.site.specs.declared.refusals.Refusal.TheVariants.{LogFull, TooManyItems};
ghost use Rattle.site.specs.Modes.{refusal_number, unwritten};

use few::Full;
use logs::api::Declined;

/// Why a call is declined. Each has its number in the table of refusals.
#[derive(Clone, Copy, PartialEq, Eq, Debug)]
pub enum Refusal {
    SiteDown,
    SitePartial,
    NotDown,
    NoSlot,
    NoTicket,
    NotYours,
    ChangeUnderWay,
    OutOfRange,
    TooManyItems,
    ShortBuffer,
    PlaceDecided,
    PlaceAhead,
    LogFull,
    StoreFull,
    SlotsHeld,
    NoPage,
    WrongPage,
    VersionAhead,
    VersionTrimmed,
    NotFresh,
}

impl From<words::encode::Refusal> for Refusal {
    ghost from_gives = { λ e r. r ≡ unwritten e };

    fn from(refusal: words::encode::Refusal) -> Refusal {
        match refusal {
            words::encode::Refusal::OutOfRange => Refusal::OutOfRange,
            words::encode::Refusal::TooShort => Refusal::ShortBuffer,
        }
    }
}

impl From<Declined> for Refusal {
    ghost from_gives = { λ _ r. r ≡ LogFull };

    fn from(_declined: Declined) -> Refusal {
        Refusal::LogFull
    }
}

impl From<Full> for Refusal {
    ghost from_gives = { λ _ r. r ≡ TooManyItems };

    fn from(_full: Full) -> Refusal {
        Refusal::TooManyItems
    }
}

impl Refusal {
    /// The number of the refusal, 1 to 20, as the table of refusals has it.
    pub fn number(self) -> u32
        ensures { result ≡ refusal_number self }
    {
        match self {
            Refusal::SiteDown => 1,
            Refusal::SitePartial => 2,
            Refusal::NotDown => 3,
            Refusal::NoSlot => 4,
            Refusal::NoTicket => 5,
            Refusal::NotYours => 6,
            Refusal::ChangeUnderWay => 7,
            Refusal::OutOfRange => 8,
            Refusal::TooManyItems => 9,
            Refusal::ShortBuffer => 10,
            Refusal::PlaceDecided => 11,
            Refusal::PlaceAhead => 12,
            Refusal::LogFull => 13,
            Refusal::StoreFull => 14,
            Refusal::SlotsHeld => 15,
            Refusal::NoPage => 16,
            Refusal::WrongPage => 17,
            Refusal::VersionAhead => 18,
            Refusal::VersionTrimmed => 19,
            Refusal::NotFresh => 20,
        }
    }
}
