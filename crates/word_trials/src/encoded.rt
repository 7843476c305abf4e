// Known encodings, and what the encoders refuse.
use crate::examples::{
    CLOSING_WORDS, EDIT_WORDS, ENTRY_WORDS, REPORT_WORDS, closing, edit, entry, report,
};
use std::alloc::Global;
use std::test::Fail;
use words::changes::{Change, Write};
use words::encode::{
    ClosingParts, EditParts, EntryParts, Refusal, ReportParts, write_closing, write_edit,
    write_entry, write_report,
};

// What a buffer holds before a trial. Each crate of trials has its own, since they share no library.
const BLANK: u32 = 0xcccc_cccc;

#[test]
fn edit_has_its_words(rt: HostRuntime) {
    let mut out = [BLANK; 9];
    assert_eq!(rt; write_edit(&mut out, 3, edit()), Ok(7));
    assert_eq!(rt; &out[0..7], &EDIT_WORDS[0..7]);
    assert_eq!(rt; &out[7..9], &[BLANK; 2][0..2]);
}

#[test]
fn report_has_its_words(rt: HostRuntime) {
    let mut out = [BLANK; 3];
    assert_eq!(rt; write_report(&mut out, 2, report()), Ok(2));
    assert_eq!(rt; &out[0..2], &REPORT_WORDS[0..2]);
    assert_eq!(rt; out[2], BLANK);
}

#[test]
fn entry_page_has_its_words(rt: HostRuntime) {
    let mut out = [BLANK; 8];
    assert_eq!(rt; write_entry(&mut out, 3, entry()), Ok(7));
    assert_eq!(rt; &out[0..7], &ENTRY_WORDS[0..7]);
    assert_eq!(rt; out[7], BLANK);
}

#[test]
fn closing_page_has_its_words(rt: HostRuntime) {
    let mut out = [BLANK; 7];
    assert_eq!(rt; write_closing(&mut out, 3, closing()), Ok(6));
    assert_eq!(rt; &out[0..6], &CLOSING_WORDS[0..6]);
    assert_eq!(rt; out[6], BLANK);
}

#[test]
fn least_and_greatest_numbers_have_their_words(rt: HostRuntime) {
    let writes = [
        Write {
            item: 0,
            change: Change::Set(-134217728),
        },
        Write {
            item: 268435455,
            change: Change::Set(134217727),
        },
    ];
    let edit = EditParts {
        site: 7,
        ticket: 268435455,
        snapshot: 268435455,
        writes: &writes,
    };
    let mut out = [BLANK; 7];
    assert_eq!(rt; write_edit(&mut out, 8, edit), Ok(7));
    let words = [
        0x1700_0002,
        0x3fff_ffff,
        0x4fff_ffff,
        0x5000_0000,
        0x6800_0000,
        0x5fff_ffff,
        0x67ff_ffff,
    ];
    assert_eq!(rt; out, words);
}

#[test]
fn buffer_of_exactly_the_words_suffices(rt: HostRuntime) {
    let mut out = [BLANK; 7];
    assert_eq!(rt; write_edit(&mut out, 3, edit()), Ok(7));
    assert_eq!(rt; write_entry(&mut out, 3, entry()), Ok(7));
    assert_eq!(rt; write_closing(&mut out[0..6], 3, closing()), Ok(6));
    assert_eq!(rt; write_report(&mut out[0..2], 2, report()), Ok(2));
}

#[test]
fn buffer_one_word_short_is_refused_and_left(rt: HostRuntime) {
    let mut out = [BLANK; 7];
    assert_eq!(rt;
        write_edit(&mut out[0..6], 3, edit()),
        Err(Refusal::TooShort)
    );
    assert_eq!(rt;
        write_entry(&mut out[0..6], 3, entry()),
        Err(Refusal::TooShort)
    );
    assert_eq!(rt;
        write_closing(&mut out[0..5], 3, closing()),
        Err(Refusal::TooShort)
    );
    assert_eq!(rt;
        write_report(&mut out[0..1], 2, report()),
        Err(Refusal::TooShort)
    );
    assert_eq!(rt; out, [BLANK; 7]);
    assert_eq!(rt; Refusal::TooShort.number(), 10);
}

#[test]
fn numbers_out_of_range_are_refused_before_a_short_buffer(rt: HostRuntime) {
    let mut none = [0; 0];
    assert_eq!(rt; write_edit(&mut none, 2, edit()), Err(Refusal::OutOfRange));
    assert_eq!(rt;
        write_report(&mut none, 9, report()),
        Err(Refusal::OutOfRange)
    );
    assert_eq!(rt;
        write_entry(&mut none, 2, entry()),
        Err(Refusal::OutOfRange)
    );
    assert_eq!(rt;
        write_closing(&mut none, 4, closing()),
        Err(Refusal::OutOfRange)
    );
    assert_eq!(rt; Refusal::OutOfRange.number(), 8);
}

// The answer to an edit of one write, with room for it.
fn one_write(item: u32, change: Change) -> Result<usize, Refusal> {
    let writes = [Write { item, change }];
    let edit = EditParts {
        site: 0,
        ticket: 1,
        snapshot: 0,
        writes: &writes,
    };
    let mut out = [0; 5];
    write_edit(&mut out, 2, edit)
}

#[test]
fn values_and_items_outside_28_bits_are_refused(rt: HostRuntime) {
    assert_eq!(rt; one_write(268435455, Change::Remove), Ok(5));
    assert_eq!(rt;
        one_write(268435456, Change::Remove),
        Err(Refusal::OutOfRange)
    );
    assert_eq!(rt;
        one_write(0, Change::Set(134217728)),
        Err(Refusal::OutOfRange)
    );
    assert_eq!(rt;
        one_write(0, Change::Set(-134217729)),
        Err(Refusal::OutOfRange)
    );
}

// The answer to an edit that removes the first `count` items, and then the item given.
fn removals(heap: Global, count: u32, item: u32) -> Result<Result<usize, Refusal>, Fail> {
    let change = Change::Remove;
    let mut writes = Vec::new(heap);
    for item in 0..count {
        writes.push(Write { item, change })?;
    }
    writes.push(Write { item, change })?;
    let edit = EditParts {
        site: 1,
        ticket: 1,
        snapshot: 0,
        writes: writes.as_slice(),
    };
    let mut out = [0; 43];
    Ok(write_edit(&mut out, 2, edit))
}

#[test]
fn seventeen_writes_and_items_that_do_not_rise_are_refused(rt: HostRuntime) -> Result<(), Fail> {
    assert_eq!(rt; removals(rt.alloc(), 15, 15)?, Ok(35));
    assert_eq!(rt; removals(rt.alloc(), 16, 16)?, Err(Refusal::OutOfRange));
    assert_eq!(rt; removals(rt.alloc(), 2, 1)?, Err(Refusal::OutOfRange));
    assert_eq!(rt; removals(rt.alloc(), 2, 0)?, Err(Refusal::OutOfRange));
    let none = EditParts {
        site: 1,
        ticket: 1,
        snapshot: 0,
        writes: &[],
    };
    let mut out = [0; 3];
    assert_eq!(rt; write_edit(&mut out, 2, none), Err(Refusal::OutOfRange));
    Ok(())
}

#[test]
fn tickets_and_versions_out_of_range_are_refused(rt: HostRuntime) {
    let mut out = [BLANK; 7];
    let no_ticket = EditParts {
        ticket: 0,
        ..edit()
    };
    let great_snapshot = EditParts {
        snapshot: 268435456,
        ..edit()
    };
    let great_version = ReportParts {
        version: 268435456,
        ..report()
    };
    let no_version = EntryParts {
        version: 0,
        ..entry()
    };
    let early_place = ClosingParts {
        place: 3,
        ..closing()
    };
    let unknown = ClosingParts {
        known: &[2, 5, 3],
        ..closing()
    };
    let answers = [
        write_edit(&mut out, 3, no_ticket),
        write_edit(&mut out, 3, great_snapshot),
        write_report(&mut out, 3, great_version),
        write_entry(&mut out, 3, no_version),
        write_closing(&mut out, 3, early_place),
        write_closing(&mut out, 3, unknown),
    ];
    for answer in answers {
        assert_eq!(rt; answer, Err(Refusal::OutOfRange));
    }
    assert_eq!(rt; out, [BLANK; 7]);
}
