// Both stores, driven by the same calls.
use crate::calls::{Answer, apply, count};
use crate::random::{Source, call};
use crate::versions::put_version;
use std::process::Abort;
use std::test::Fail;
use store::api::{NoSpace, Store};
use store::chains::Chains;
use store::journal::Journal;
use store::records::Record;
use words::changes::{Change, Write};

// What a store's memory is filled with. No library has a blank record public.
const BLANK: Record = Record {
    version: 0,
    item: 0,
    change: Change::Remove,
};

// How often a call was made that the stores are to be seen at.
#[derive(Drop)]
struct Seen {
    declined: u32,
    removing: u32,
    reused: u32,
}

// Makes the same calls at both stores, and compares every answer and count.
fn drive<A: Store, B: Store>(rt: &impl Abort, a: &mut A, b: &mut B, seed: u32, items: u32) -> Seen {
    let mut source = Source::new(seed);
    let mut seen = Seen {
        declined: 0,
        removing: 0,
        reused: 0,
    };
    let mut was_full = false;
    for _ in 0..6000 {
        let before = count(a);
        let next = call(&mut source, items.max(1), a.version());
        let answer = apply(a, next);
        assert_eq!(rt; answer, apply(b, next));
        let after = count(a);
        assert_eq!(rt; after, count(b));
        match answer {
            Answer::Staged(Ok(())) => {
                if was_full {
                    seen.reused = seen.reused.wrapping_add(1);
                }
            }
            Answer::Staged(Err(NoSpace)) => {
                was_full = true;
                seen.declined = seen.declined.wrapping_add(1);
            }
            _ => {}
        }
        if after.sealed < before.sealed {
            seen.removing = seen.removing.wrapping_add(1);
        }
    }
    seen
}

// The same at a journal and at chains, both of this capacity, from empty on.
fn drive_both(rt: &(impl Abort + AllocGlobal), capacity: usize, items: u32) -> Result<Seen, Fail> {
    let mut journal = Journal::new(vec![in rt.alloc(); BLANK; capacity]?);
    let mut chains = Chains::new(rt.alloc(), vec![in rt.alloc(); BLANK; capacity]?)?;
    Ok(drive(rt, &mut journal, &mut chains, 17, items))
}

#[test]
fn stores_answer_alike(rt: HostRuntime) -> Result<(), Fail> {
    for capacity in [2u16, 7, 24, 150] {
        let seen = drive_both(&rt, usize::from(capacity), u32::from(capacity / 2))?;
        assert!(rt; seen.declined > 0);
        assert!(rt; seen.removing > 0);
        assert!(rt; seen.reused > 0);
    }
    Ok(())
}

#[test]
fn smallest_stores_answer_alike(rt: HostRuntime) -> Result<(), Fail> {
    for capacity in [0u16, 1] {
        let seen = drive_both(&rt, usize::from(capacity), 3)?;
        assert!(rt; seen.declined > 0);
    }
    Ok(())
}

// Item 1 is set to 10, then item 2 to 5, then item 1 is removed, each in a version of its own.
fn prune_three_versions<S: Store>(rt: &impl Abort, store: &mut S) {
    for (item, change) in [
        (1, Change::Set(10)),
        (2, Change::Set(5)),
        (1, Change::Remove),
    ] {
        assert_eq!(rt; put_version(store, &[Write { item, change }]), Ok(()));
    }
    store.prune(2);
    assert_eq!(rt; store.sealed_count(), 3);
    assert_eq!(rt; store.read(1, 2), Some(10));
    store.prune(3);
    assert_eq!(rt; store.sealed_count(), 2);
    assert_eq!(rt; store.read(1, 3), None);
    assert_eq!(rt; store.read(2, 3), Some(5));
}

#[test]
fn three_versions_are_pruned(rt: HostRuntime) -> Result<(), Fail> {
    prune_three_versions(&rt, &mut Journal::new(vec![in rt.alloc(); BLANK; 3]?));
    prune_three_versions(
        &rt,
        &mut Chains::new(rt.alloc(), vec![in rt.alloc(); BLANK; 3]?)?,
    );
    Ok(())
}
