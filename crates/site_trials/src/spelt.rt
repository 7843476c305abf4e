// Words of messages and pages of a group of two sites, by what they say.
use crate::said::{BLANK, ROOM};
use few::Few;

#[derive(Clone, Copy)]
pub(crate) enum Words {
    None,
    // An edit of a home, a ticket and a snapshot that sets one item to a value that is not negative.
    Edit(u32, u32, u32, u32, u32),
    // An edit of site 1 that sets items 1 and 2, of a ticket and a snapshot.
    Two(u32, u32),
    // An edit of site 0 under ticket 1 that sets items 1 to 16, the last one to 8 and the others to 7.
    Sixteen,
    // A site reports a version.
    Report(u32, u32),
    // The page of an entry of site 1: a version and a ticket; it sets item 1 to 5.
    Entry(u32, u32),
    // A closing page: a version, a place and the two known numbers.
    Closing(u32, u32, u32, u32),
}

fn few(words: &[u32]) -> Few<u32, ROOM> {
    Few::from_slice(BLANK, words)
}

// The words, each written out here: the trials do not lean on the encoders that they test.
pub(crate) fn spell(words: Words) -> Few<u32, ROOM> {
    match words {
        Words::None => few(&[]),
        Words::Edit(home, ticket, snapshot, item, value) => few(&[
            0x1000_0001 | (home << 24),
            0x3000_0000 | ticket,
            0x4000_0000 | snapshot,
            0x5000_0000 | item,
            0x6000_0000 | value,
        ]),
        Words::Two(ticket, snapshot) => few(&[
            0x1100_0002,
            0x3000_0000 | ticket,
            0x4000_0000 | snapshot,
            0x5000_0001,
            0x6000_000a,
            0x5000_0002,
            0x6000_0014,
        ]),
        Words::Sixteen => spell_sixteen(),
        Words::Report(site, version) => few(&[0x2000_0000 | (site << 24), 0x4000_0000 | version]),
        Words::Entry(version, ticket) => few(&[
            0x8100_0001,
            0x4000_0000 | version,
            0x3000_0000 | ticket,
            0x5000_0001,
            0x6000_0005,
        ]),
        Words::Closing(version, place, first, second) => few(&[
            0x9000_0002,
            0x4000_0000 | version,
            0xa000_0000 | place,
            0xb000_0000 | first,
            0xb000_0000 | second,
        ]),
    }
}

fn spell_sixteen() -> Few<u32, ROOM> {
    let mut words = few(&[0x1000_0010, 0x3000_0001, 0x4000_0000]);
    for item in 1..17u32 {
        let value = if item == 16 { 8 } else { 7 };
        let _ = words.push(0x5000_0000 | item);
        let _ = words.push(0x6000_0000 | value);
    }
    words
}
