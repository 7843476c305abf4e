// One word: its kind in the top four bits, its load in the low 28.
ghost use Rattle.std.specs.Prelude.{◌≡◌, ◌^◌, ◌<◌, true, ◌==◌};
ghost use Rattle.words.specs.Bits.{kind_of, load_of, word, value_of, value_load, value_fits, site_of, count_of, clear_between, head, is_number, in_range};
ghost use Rattle.words.specs.Kinds.{kind_number, kind_numbered};

use crate::limits::LIMIT;

/// What a word is, by its number in the top four bits.
#[derive(Clone, Copy, PartialEq, Eq, Debug)]
pub(crate) enum Kind {
    Edit = 1,
    Report = 2,
    Ticket = 3,
    Version = 4,
    Item = 5,
    Value = 6,
    Removal = 7,
    Entry = 8,
    Closing = 9,
    Place = 10,
    Known = 11,
}

impl Kind {
    fn number(self) -> u32
        ensures { result ≡ kind_number self }
    {
        self as u32
    }

    // The kind that has the number, if any: an Option and no TryFrom, since a word of no kind is no error but read as no message.
    pub(crate) fn numbered(number: u32) -> Option<Kind>
        ensures { result ≡ kind_numbered number }
    {
        match number {
            1 => Some(Kind::Edit),
            2 => Some(Kind::Report),
            3 => Some(Kind::Ticket),
            4 => Some(Kind::Version),
            5 => Some(Kind::Item),
            6 => Some(Kind::Value),
            7 => Some(Kind::Removal),
            8 => Some(Kind::Entry),
            9 => Some(Kind::Closing),
            10 => Some(Kind::Place),
            11 => Some(Kind::Known),
            _ => None,
        }
    }
}

// The kind of a word, if any.
pub(crate) fn word_kind(word: u32) -> Option<Kind>
    ensures { result ≡ kind_numbered (kind_of word) }
{
    Kind::numbered(word >> 28)
}

// Whether the word is of that kind.
pub(crate) fn has_kind(word: u32, of: Kind) -> bool
    ensures { result ≡ (kind_of word == kind_number of) }
{
    word >> 28 == of.number()
}

/// The number in a word's low 28 bits.
pub fn load(word: u32) -> u32
    ensures { result ≡ load_of word }
{
    word & 0x0fff_ffff
}

/// The site in a head's load bits 27 to 24.
pub fn site(head: u32) -> u32
    ensures { result ≡ site_of head }
{
    (head >> 24) & 0xf
}

/// The count in a head's bits 7 to 0.
pub fn count(head: u32) -> u32
    ensures { result ≡ count_of head }
{
    head & 0xff
}

// Whether the bits between a head's site and count are 0.
pub(crate) fn is_clear_between(head: u32) -> bool
    ensures { result ≡ clear_between head }
{
    (head >> 8) & 0xffff == 0
}

// Whether the word is of that kind, with a load that is not below the least.
pub(crate) fn is_kind(word: u32, of: Kind, least: u32) -> bool
    ensures { result ≡ is_number (kind_number of) least word }
{
    has_kind(word, of) && least <= load(word)
}

// Whether a load holds the number, which is not below the least.
pub(crate) fn fits(number: u32, least: u32) -> bool
    ensures { result ≡ in_range least number }
{
    least <= number && number <= LIMIT
}

// A load as a value: two's complement in 28 bits.
pub(crate) fn value(load: u32) -> i32
    requires { load < 2 ^ 28 }
    ensures { result ≡ value_of load }
{
    if load < 0x0800_0000 {
        load as i32
    } else {
        load as i32 - 0x1000_0000
    }
}

// Whether 28 bits hold the value.
pub(crate) fn is_value(value: i32) -> bool
    ensures { result ≡ value_fits value }
{
    -0x0800_0000 <= value && value < 0x0800_0000
}

// A value as a load.
pub(crate) fn value_bits(value: i32) -> u32
    requires { value_fits value ≡ true }
    ensures { result ≡ value_load value }
{
    if value >= 0 {
        value as u32
    } else {
        (value + 0x1000_0000) as u32
    }
}

pub(crate) fn make_word(kind: Kind, load: u32) -> u32
    requires { load < 2 ^ 28 }
    ensures { result ≡ word (kind_number kind) load }
{
    (kind.number() << 28) | load
}

pub(crate) fn make_head(kind: Kind, site: u32, count: u32) -> u32
    requires site { site < 16 }
    requires count { count < 256 }
    ensures { result ≡ head (kind_number kind) site count }
{
    make_word(kind, (site << 24) | count)
}
