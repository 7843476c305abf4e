// Damaged pages: each is none, or is read as exactly what its words say.
use crate::examples::{CLOSING_WORDS, ENTRY_WORDS, with};
use crate::respelled::{Pages, Trial};
use std::test::Fail;
use words::pages::read_page;

#[test]
fn page_reads_as_its_words(rt: HostRuntime) -> Result<(), Fail> {
    let trial = Trial::new(&rt, &Pages, 3);
    assert!(rt; trial.reads(&ENTRY_WORDS)?);
    assert!(rt; trial.reads(&CLOSING_WORDS)?);
    Ok(())
}

#[test]
fn page_cut_at_any_length_is_none(rt: HostRuntime) -> Result<(), Fail> {
    let trial = Trial::new(&rt, &Pages, 3);
    trial.no_front_reads(&ENTRY_WORDS)?;
    trial.no_front_reads(&CLOSING_WORDS)
}

// As in an edit, but that the version may not become 0.
#[test]
fn entry_with_a_bit_turned_is_none_or_its_words(rt: HostRuntime) -> Result<(), Fail> {
    let free = [
        0x0700_0000,
        0x0fff_fffb,
        0x0fff_ffff,
        0x0000_0007,
        0x0fff_ffff,
        0x0fff_fff7,
        0x1000_0000,
    ];
    let mut words = ENTRY_WORDS;
    let trial = Trial::new(&rt, &Pages, 8);
    trial.just_these_turn(&mut words, &free)
}

// The version stays at 4 to 6, the place is not below it, and the known numbers are not above it.
#[test]
fn closing_with_a_bit_turned_is_none_or_its_words(rt: HostRuntime) -> Result<(), Fail> {
    let free = [
        0x0000_0000,
        0x0000_0003,
        0x0fff_fffb,
        0x0000_0003,
        0x0000_0004,
        0x0000_0003,
    ];
    let mut words = CLOSING_WORDS;
    let trial = Trial::new(&rt, &Pages, 3);
    trial.just_these_turn(&mut words, &free)
}

fn is_page(words: &[u32], sites: u32) -> bool {
    read_page(words, sites).is_some()
}

// Whether the entry with one of its words replaced is a page.
fn entry_with(place: usize, word: u32) -> bool {
    is_page(&with(ENTRY_WORDS, place, word), 3)
}

#[test]
fn entry_with_a_wrong_word_is_none(rt: HostRuntime) {
    assert!(rt; entry_with(0, 0x8200_0002));
    assert!(rt; !entry_with(0, 0x8200_0000), "count 0");
    assert!(rt; !entry_with(0, 0x8200_0011), "count 17");
    assert!(rt; !entry_with(0, 0x8200_00ff), "count 255");
    assert!(rt; !entry_with(0, 0x8200_0102), "a stray bit");
    assert!(rt; !entry_with(0, 0x8300_0002), "site 3 of 3");
    assert!(rt; !entry_with(0, 0x1200_0002), "an edit's head");
    assert!(rt; !entry_with(1, 0x4000_0000), "version 0");
    assert!(rt; !entry_with(2, 0x3000_0000), "ticket 0");
    assert!(rt; !entry_with(5, 0x5000_0007), "equal items");
    assert!(rt; !entry_with(5, 0x5000_0006), "falling items");
    assert!(rt; !entry_with(6, 0x7000_0001), "a removal with a load");
}

// Whether the closing page with one of its words replaced is a page.
fn closing_with(place: usize, word: u32) -> bool {
    is_page(&with(CLOSING_WORDS, place, word), 3)
}

#[test]
fn closing_with_a_wrong_word_is_none(rt: HostRuntime) {
    assert!(rt; closing_with(0, 0x9000_0003));
    assert!(rt; !closing_with(0, 0x9000_0002), "count 2 of 3 sites");
    assert!(rt; !closing_with(0, 0x9000_0004), "count 4 of 3 sites");
    assert!(rt; !closing_with(0, 0x9100_0003), "a site");
    assert!(rt; !closing_with(0, 0x9000_0103), "a stray bit");
    assert!(rt; !closing_with(2, 0xa000_0003), "a place below the version");
    assert!(rt;
        !closing_with(3, 0xb000_0005),
        "a known number above the version"
    );
    assert!(rt;
        !closing_with(5, 0x4000_0003),
        "a version for a known number"
    );
}

#[test]
fn closing_has_a_known_number_for_each_site_of_the_group(rt: HostRuntime) {
    assert!(rt; !is_page(&CLOSING_WORDS, 2));
    assert!(rt; !is_page(&CLOSING_WORDS, 4));
    let longer = [
        0x9000_0002,
        0x4000_0000,
        0xa000_0000,
        0xb000_0000,
        0xb000_0000,
        0xb000_0000,
    ];
    assert!(rt; is_page(&longer[0..5], 2));
    assert!(rt; !is_page(&longer, 2), "a word after the last known number");
}

#[test]
fn page_of_a_group_has_2_to_8_sites(rt: HostRuntime) {
    assert!(rt; !is_page(&[0x9000_0001, 0x4000_0000, 0xa000_0000, 0xb000_0000], 1));
    assert!(rt; !is_page(&ENTRY_WORDS, 9));
    assert!(rt; is_page(&ENTRY_WORDS, 8));
}
