// Laws of every log, each the contract of a function that does nothing.
ghost use Rattle.logs.specs.Laws.{EntriesStay, EntriesFollow, TrimKeepsAbove, NumbersRise, PlaceRises, LeastOfKnown};

/// An entry never changes once it is there: it stays until the floor has come to it.
pub fn entries_stay()
    ensures { EntriesStay }
{}

/// Every version above the floor, up to the last one, has an entry, so entries only go from the front.
pub fn entries_follow()
    ensures { EntriesFollow }
{}

/// A trim removes no entry above its bound.
pub fn trim_keeps_above()
    ensures { TrimKeepsAbove }
{}

/// The floor and the last version never fall.
pub fn numbers_rise()
    ensures { NumbersRise }
{}

/// The place never falls but where a closing sets it.
pub fn place_rises()
    ensures { PlaceRises }
{}

/// A log's least known number is the least of its list.
pub fn least_of_known()
    ensures { LeastOfKnown }
{}
