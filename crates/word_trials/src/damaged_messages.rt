// Damaged messages: each is void, or is read as exactly what its words say.
use crate::examples::{EDIT_WORDS, REPORT_WORDS, with};
use crate::respelled::{Messages, Trial};
use std::alloc::Global;
use std::test::Fail;
use words::messages::message_kind;

// The numbers that a program in C is told.
const VOID: u32 = 0;

const EDIT: u32 = 1;

const REPORT: u32 = 2;

#[test]
fn messages_are_told_by_their_kind(rt: HostRuntime) {
    assert_eq!(rt; message_kind(&EDIT_WORDS, 3), EDIT);
    assert_eq!(rt; message_kind(&REPORT_WORDS, 2), REPORT);
    assert_eq!(rt; message_kind(&[], 2), VOID);
}

#[test]
fn message_reads_as_its_words(rt: HostRuntime) -> Result<(), Fail> {
    let edits = Trial::new(&rt, &Messages, 3);
    assert!(rt; edits.reads(&EDIT_WORDS)?);
    let reports = Trial::new(&rt, &Messages, 2);
    assert!(rt; reports.reads(&REPORT_WORDS)?);
    Ok(())
}

#[test]
fn message_cut_at_any_length_is_void(rt: HostRuntime) -> Result<(), Fail> {
    let edits = Trial::new(&rt, &Messages, 3);
    edits.no_front_reads(&EDIT_WORDS)?;
    let reports = Trial::new(&rt, &Messages, 2);
    reports.no_front_reads(&REPORT_WORDS)
}

// Bits that can be turned: the site's up to 7, those of ticket, snapshot and value, those of items that still rise,
// and the one that makes the removal a value of 0.
#[test]
fn edit_with_a_bit_turned_is_void_or_its_words(rt: HostRuntime) -> Result<(), Fail> {
    let free = [
        0x0700_0000,
        0x0fff_ffff,
        0x0fff_ffff,
        0x0000_0007,
        0x0fff_ffff,
        0x0fff_fff7,
        0x1000_0000,
    ];
    let mut words = EDIT_WORDS;
    let trial = Trial::new(&rt, &Messages, 8);
    trial.just_these_turn(&mut words, &free)
}

#[test]
fn report_with_a_bit_turned_is_void_or_its_words(rt: HostRuntime) -> Result<(), Fail> {
    let free = [0x0700_0000, 0x0fff_ffff];
    let mut words = REPORT_WORDS;
    let trial = Trial::new(&rt, &Messages, 8);
    trial.just_these_turn(&mut words, &free)
}

// The edit with one of its words replaced.
fn edit_with(place: usize, word: u32) -> u32 {
    message_kind(&with(EDIT_WORDS, place, word), 3)
}

#[test]
fn edit_with_a_wrong_word_is_void(rt: HostRuntime) {
    assert_eq!(rt; edit_with(0, 0x1200_0002), EDIT);
    assert_eq!(rt; edit_with(0, 0x1200_0000), VOID, "count 0");
    assert_eq!(rt; edit_with(0, 0x1200_0011), VOID, "count 17");
    assert_eq!(rt; edit_with(0, 0x1200_00ff), VOID, "count 255");
    assert_eq!(rt;
        edit_with(0, 0x1200_0102),
        VOID,
        "a stray bit beside the count"
    );
    assert_eq!(rt;
        edit_with(0, 0x1280_0002),
        VOID,
        "a stray bit beside the site"
    );
    assert_eq!(rt; edit_with(0, 0x1300_0002), VOID, "site 3 of 3");
    assert_eq!(rt; edit_with(1, 0x3000_0000), VOID, "ticket 0");
    assert_eq!(rt;
        edit_with(2, 0x3000_0003),
        VOID,
        "a ticket for the snapshot"
    );
    assert_eq!(rt; edit_with(3, 0x5000_0009), VOID, "equal items");
    assert_eq!(rt; edit_with(3, 0x5000_000a), VOID, "falling items");
    assert_eq!(rt; edit_with(4, 0x4fff_ffff), VOID, "a version for the value");
    assert_eq!(rt; edit_with(6, 0x7000_0001), VOID, "a removal with a load");
}

// The kind of an edit of so many removals under a head of the count given.
fn edit_of(heap: Global, count: u32, removals: u32) -> Result<u32, Fail> {
    let mut words = Vec::new(heap);
    words.extend_from_slice(&[0x1000_0000 | count, 0x3000_0001, 0x4000_0000])?;
    for item in 0..removals {
        words.extend_from_slice(&[0x5000_0000 | item, 0x7000_0000])?;
    }
    Ok(message_kind(words.as_slice(), 2))
}

#[test]
fn edit_has_1_to_16_writes_and_as_many_as_its_head_says(rt: HostRuntime) -> Result<(), Fail> {
    assert_eq!(rt; edit_of(rt.alloc(), 1, 1)?, EDIT);
    assert_eq!(rt; edit_of(rt.alloc(), 16, 16)?, EDIT);
    assert_eq!(rt; edit_of(rt.alloc(), 0, 0)?, VOID);
    assert_eq!(rt; edit_of(rt.alloc(), 17, 17)?, VOID);
    assert_eq!(rt;
        edit_of(rt.alloc(), 16, 17)?,
        VOID,
        "words after the last write"
    );
    assert_eq!(rt; edit_of(rt.alloc(), 16, 15)?, VOID);
    Ok(())
}

#[test]
fn report_with_a_wrong_word_is_void(rt: HostRuntime) {
    assert_eq!(rt;
        message_kind(&[0x2100_0001, 0x4000_0004], 2),
        VOID,
        "a count"
    );
    assert_eq!(rt;
        message_kind(&[0x2100_0100, 0x4000_0004], 2),
        VOID,
        "a stray bit"
    );
    assert_eq!(rt;
        message_kind(&[0x2200_0000, 0x4000_0004], 2),
        VOID,
        "site 2 of 2"
    );
    assert_eq!(rt;
        message_kind(&[0x2100_0000, 0x3000_0004], 2),
        VOID,
        "a ticket"
    );
    assert_eq!(rt;
        message_kind(&[0x2100_0000, 0x4000_0004, 0], 2),
        VOID,
        "a word more"
    );
}

#[test]
fn group_has_2_to_8_sites(rt: HostRuntime) {
    let words = [0x2000_0000, 0x4000_0000];
    assert_eq!(rt; message_kind(&words, 0), VOID);
    assert_eq!(rt; message_kind(&words, 1), VOID);
    assert_eq!(rt; message_kind(&words, 2), REPORT);
    assert_eq!(rt; message_kind(&words, 8), REPORT);
    assert_eq!(rt; message_kind(&words, 9), VOID);
}
