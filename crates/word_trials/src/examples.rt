// Messages and pages with their words, which the trials start from.
use words::changes::{Change, Write};
use words::encode::{ClosingParts, EditParts, EntryParts, ReportParts};

const WRITES: [Write; 2] = [
    Write {
        item: 7,
        change: Change::Set(-1),
    },
    Write {
        item: 9,
        change: Change::Remove,
    },
];

pub const EDIT_WORDS: [u32; 7] = [
    0x1200_0002,
    0x3000_0005,
    0x4000_0003,
    0x5000_0007,
    0x6fff_ffff,
    0x5000_0009,
    0x7000_0000,
];

pub const REPORT_WORDS: [u32; 2] = [0x2100_0000, 0x4000_0004];

pub const ENTRY_WORDS: [u32; 7] = [
    0x8200_0002,
    0x4000_0004,
    0x3000_0005,
    0x5000_0007,
    0x6fff_ffff,
    0x5000_0009,
    0x7000_0000,
];

pub const CLOSING_WORDS: [u32; 6] = [
    0x9000_0003,
    0x4000_0004,
    0xa000_0006,
    0xb000_0002,
    0xb000_0004,
    0xb000_0003,
];

pub fn edit() -> EditParts<'static> {
    EditParts {
        site: 2,
        ticket: 5,
        snapshot: 3,
        writes: &WRITES,
    }
}

pub fn report() -> ReportParts {
    ReportParts {
        site: 1,
        version: 4,
    }
}

pub fn entry() -> EntryParts<'static> {
    EntryParts {
        site: 2,
        version: 4,
        ticket: 5,
        writes: &WRITES,
    }
}

pub fn closing() -> ClosingParts<'static> {
    ClosingParts {
        version: 4,
        place: 6,
        known: &[2, 4, 3],
    }
}

// The words with one of them replaced.
pub fn with<const N: usize>(mut words: [u32; N], place: usize, word: u32) -> [u32; N] {
    if place < words.len() {
        words[place] = word;
    }
    words
}
