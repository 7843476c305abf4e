// The numbers of the refusals: each trial names a refusal, and here each one has its number.
use site::refusals::Refusal;

#[test]
fn refusals_have_the_numbers_of_the_table(rt: HostRuntime) {
    let table = [
        (1, Refusal::SiteDown),
        (2, Refusal::SitePartial),
        (3, Refusal::NotDown),
        (4, Refusal::NoSlot),
        (5, Refusal::NoTicket),
        (6, Refusal::NotYours),
        (7, Refusal::ChangeUnderWay),
        (8, Refusal::OutOfRange),
        (9, Refusal::TooManyItems),
        (10, Refusal::ShortBuffer),
        (11, Refusal::PlaceDecided),
        (12, Refusal::PlaceAhead),
        (13, Refusal::LogFull),
        (14, Refusal::StoreFull),
        (15, Refusal::SlotsHeld),
        (16, Refusal::NoPage),
        (17, Refusal::WrongPage),
        (18, Refusal::VersionAhead),
        (19, Refusal::VersionTrimmed),
        (20, Refusal::NotFresh),
    ];
    for (number, refusal) in table {
        assert_eq!(rt; refusal.number(), number);
    }
}
