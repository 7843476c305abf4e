use crate::lines::Lines;
use crate::names::{is_name, same};
use crate::numbers::{decimal, hex_digits, hex_word, signed};
use crate::split::{Words, content, is_blank, next_line, next_word};
use std::test::Fail;

#[test]
fn lines_end_at_newlines(rt: HostRuntime) {
    let table: [(&[u8], &[u8], &[u8]); 6] = [
        (b"", b"", b""),
        (b"\n", b"", b""),
        (b"one", b"one", b""),
        (b"one\n", b"one", b""),
        (b"one\ntwo\n", b"one", b"two\n"),
        (b"one\r\n\ntwo", b"one\r", b"\ntwo"),
    ];
    for (text, line, rest) in table {
        let (found, after) = next_line(text);
        assert!(rt; found == line && after == rest);
    }
}

#[test]
fn words_are_parted_by_blanks(rt: HostRuntime) {
    let table: [(&[u8], &[u8], &[u8]); 6] = [
        (b"", b"", b""),
        (b" \t\r", b"", b""),
        (b"word", b"word", b""),
        (b" one\ttwo ", b"one", b"\ttwo "),
        (b"\t\tone\r", b"one", b"\r"),
        (b"one  two", b"one", b"  two"),
    ];
    for (text, word, rest) in table {
        let (found, after) = next_word(text);
        assert!(rt; found == word && after == rest);
    }
}

#[test]
fn words_come_in_order(rt: HostRuntime) {
    let mut words = Words(b" one\ttwo\r");
    assert!(rt; words.next() == Some(b"one".as_slice()));
    assert!(rt; words.next() == Some(b"two".as_slice()) && words.next().is_none());
    assert!(rt; is_blank(b"\t \r") && is_blank(b"") && !is_blank(b" # "));
}

#[test]
fn lines_without_words_count(rt: HostRuntime) -> Result<(), Fail> {
    let table: [(u64, &[u8], &[u8]); 2] = [(3, b"one ", b" \nthree"), (5, b"three", b"")];
    let mut lines = Lines::new(b"# none\n\none # two\n \nthree");
    for (number, words, after) in table {
        let Some(line) = lines.next() else {
            return Err(Fail::new("the text has more lines"));
        };
        assert!(rt; line.number == number && line.words == words && line.after == after);
    }
    assert!(rt; lines.next().is_none() && lines.passed() == 5);
    Ok(())
}

#[test]
fn comments_are_cut(rt: HostRuntime) {
    let table: [(&[u8], &[u8]); 4] = [
        (b"", b""),
        (b"# all", b""),
        (b"one # two # three", b"one "),
        (b"one", b"one"),
    ];
    for (line, kept) in table {
        assert!(rt; content(line) == kept);
    }
}

#[test]
fn decimal_numbers_have_32_bits(rt: HostRuntime) {
    let table: [(&[u8], Option<u32>); 9] = [
        (b"0", Some(0)),
        (b"4294967295", Some(4_294_967_295)),
        (b"4294967296", None),
        (b"00000000000004294967295", Some(4_294_967_295)),
        (b"9999999999999999999999999999999999999999", None),
        (b"", None),
        (b"-1", None),
        (b"1A", None),
        (b"99999999999x", None),
    ];
    for (word, value) in table {
        assert!(rt; decimal(word) == value);
    }
}

#[test]
fn signed_numbers_have_32_bits(rt: HostRuntime) {
    let table: [(&[u8], Option<i32>); 9] = [
        (b"-2147483648", Some(-2_147_483_648)),
        (b"-2147483649", None),
        (b"2147483647", Some(2_147_483_647)),
        (b"2147483648", None),
        (b"-00", Some(0)),
        (b"-", None),
        (b"--1", None),
        (b"+1", None),
        (b"", None),
    ];
    for (word, value) in table {
        assert!(rt; signed(word) == value);
    }
}

#[test]
fn hexadecimal_words_have_eight_digits(rt: HostRuntime) {
    let table: [(&[u8], Option<u32>); 6] = [
        (b"6FFFFFFF", Some(0x6FFF_FFFF)),
        (b"90000003", Some(0x9000_0003)),
        (b"6fffffff", None),
        (b"6FFFFFF", None),
        (b"06FFFFFFF", None),
        (b"6FFFFFFG", None),
    ];
    for (word, value) in table {
        assert!(rt; hex_word(word) == value);
    }
    assert!(rt; same(&hex_digits(0x12AB_F09C), b"12ABF09C"));
}

#[test]
fn names_begin_with_a_lower_case_letter(rt: HostRuntime) {
    let table: [(&[u8], bool); 7] = [
        (b"a", true),
        (b"aB9", true),
        (b"", false),
        (b"Ab", false),
        (b"9a", false),
        (b"a_b", false),
        (b"a-", false),
    ];
    for (word, answer) in table {
        assert!(rt; is_name(word) == answer);
    }
    assert!(rt;
        same(b"begin", b"begin") && !same(b"begin", b"begins") && !same(b"begin", b"Begin")
    );
}
