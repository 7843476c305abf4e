use crate::asks::{Ask, Deed, Source};
use crate::faults::Fault;
use crate::lines::parse_line;
use std::test::Fail;
use text::numbers::hex_words;
use words::changes::Change;

#[test]
fn faults_say_what_is_missing(rt: HostRuntime) {
    let table: [(&[u8], Option<Fault>); 24] = [
        (b"group 2", None),
        (b"site 1 chains 16 packed 60", None),
        (b"send m", None),
        (b"send 10000002 30000001", None),
        (b"0 post a room 7 as m", None),
        (b"0 deliver 4294967295 m", None),
        (b"7 wake\r", None),
        (b"", Some(Fault::NoCall)),
        (b"begin a", Some(Fault::NoCall)),
        (b"0", Some(Fault::NoVerb)),
        (b"0 give-up a", Some(Fault::NoVerb)),
        (b"group", Some(Fault::NoNumber)),
        (b"0 look 4294967296", Some(Fault::NoNumber)),
        (b"0 begin A", Some(Fault::NoName)),
        (b"0 write a 1", Some(Fault::NoValue)),
        (b"0 write a 1 2147483648", Some(Fault::NoValue)),
        (b"site 0 heap 1 flat 1", Some(Fault::NoStore)),
        (b"site 0 journal 1 round 1", Some(Fault::NoLog)),
        (b"send", Some(Fault::NoWords)),
        (b"0 take 1234567", Some(Fault::NoWords)),
        (b"send 40000000 m", Some(Fault::NoWords)),
        (b"send m 40000000", Some(Fault::MoreWords)),
        (b"0 report as m room 7", Some(Fault::MoreWords)),
        (b"0 step 1", Some(Fault::MoreWords)),
    ];
    for (line, fault) in table {
        match parse_line(line) {
            Ok(_) => assert_eq!(rt; None, fault),
            Err(found) => assert_eq!(rt; Some(found), fault),
        }
    }
}

#[test]
fn a_write_has_its_numbers(rt: HostRuntime) -> Result<(), Fail> {
    let Ok(Ask::At { site, deed }) = parse_line(b" 3\twrite aB9 4294967295 -2147483648 ") else {
        return Err(Fail::new("the line is not understood"));
    };
    let Deed::Write(name, item, change) = deed else {
        return Err(Fail::new("the line is no write"));
    };
    assert!(rt; name == b"aB9".as_slice() && site == 3 && item == 4_294_967_295);
    match change {
        Change::Set(value) => {
            assert_eq!(rt; value, -2_147_483_648);
            Ok(())
        },
        Change::Remove => Err(Fail::new("the write is a removal")),
    }
}

#[test]
fn words_are_read(rt: HostRuntime) -> Result<(), Fail> {
    let Ok(Ask::Send(Source::Spelt(text))) = parse_line(b"send 6FFFFFFF  70000000") else {
        return Err(Fail::new("the line is not understood"));
    };
    let Some(words) = hex_words(rt.alloc(), text)? else {
        return Err(Fail::new("the text has no words"));
    };
    assert!(rt; words.as_slice() == [0x6FFF_FFFF, 0x7000_0000].as_slice());
    Ok(())
}
