// Whether two logs answer alike.
use logs::api::Log;
use std::process::Abort;

// The entries of a version, and each write, with those past its end.
fn same_entry<F: Log, P: Log>(rt: &impl Abort, flat: &F, packed: &P, version: u32) {
    assert_eq!(rt; flat.entry(version), packed.entry(version));
    for number in 0..18 {
        assert_eq!(rt; flat.write(version, number), packed.write(version, number));
    }
}

fn same_counters<F: Log, P: Log>(rt: &impl Abort, flat: &F, packed: &P) {
    assert_eq!(rt; flat.sites(), packed.sites());
    assert_eq!(rt; flat.place(), packed.place());
    assert_eq!(rt; flat.tickets(), packed.tickets());
    assert_eq!(rt; flat.is_whole(), packed.is_whole());
    assert_eq!(rt; flat.least(), packed.least());
    for site in 0..10 {
        assert_eq!(rt; flat.known(site), packed.known(site));
    }
}

// Every answer, and the entries from below the floor to past the last version.
pub(crate) fn same<F: Log, P: Log>(rt: &impl Abort, flat: &F, packed: &P) {
    same_counters(rt, flat, packed);
    assert_eq!(rt; flat.floor(), packed.floor());
    assert_eq!(rt; flat.last(), packed.last());
    let low = flat.floor().saturating_sub(2);
    for version in low..flat.last().saturating_add(3) {
        same_entry(rt, flat, packed, version);
    }
}
