// The reader of writes: a trial that fails leaves the place.
use words::changes::{Change, Write, read_write};
use words::scan::Reader;

#[test]
fn reader_goes_from_write_to_write(rt: HostRuntime) {
    let words = [0x5000_0007, 0x6fff_ffff, 0x5000_0009, 0x7000_0000];
    let mut reader = Reader::new(&words);
    let first = Write {
        item: 7,
        change: Change::Set(-1),
    };
    let second = Write {
        item: 9,
        change: Change::Remove,
    };
    assert_eq!(rt; reader.read_write(), Some(first));
    assert!(rt; !reader.is_done());
    assert_eq!(rt; reader.read_write(), Some(second));
    assert!(rt; reader.is_done());
    assert_eq!(rt; reader.read_write(), None);
    assert!(rt; reader.is_done());
}

// Two item words, then a value: were the place left after the first word, the second read would give a write.
#[test]
fn failed_trial_leaves_the_place(rt: HostRuntime) {
    let words = [0x5000_0001, 0x5000_0002, 0x6000_0003];
    let mut reader = Reader::new(&words);
    assert_eq!(rt; reader.read_write(), None);
    assert_eq!(rt; reader.read_write(), None);
    assert!(rt; !reader.is_done());
}

#[test]
fn trial_at_the_last_word_leaves_it(rt: HostRuntime) {
    let words = [0x5000_0001];
    let mut reader = Reader::new(&words);
    assert_eq!(rt; reader.read_write(), None);
    assert!(rt; !reader.is_done());
}

#[test]
fn write_comes_with_the_words_after_it(rt: HostRuntime) {
    let words = [0x5000_0001, 0x6000_0003, 0x1234_5678];
    let (write, rest) = read_write(&words);
    let expected = Write {
        item: 1,
        change: Change::Set(3),
    };
    assert_eq!(rt; write, Some(expected));
    assert_eq!(rt; rest, &words[2..3]);
    let (none, same) = read_write(rest);
    assert_eq!(rt; none, None);
    assert_eq!(rt; same, rest);
}
