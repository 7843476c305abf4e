// A site of a group of two, over each of the two pairs of a store and a log.
use crate::turns::{Turn, play};
use logs::api::Log;
use logs::flat::Flat;
use logs::heads::NewEntry;
use logs::packed::Packed;
use logs::row::FlatEntry;
use site::refusals::Refusal;
use site::site::Site;
use std::alloc::Global;
use std::process::Abort;
use std::test::Fail;
use store::api::Store;
use store::chains::Chains;
use store::journal::Journal;
use store::records::Record;
use words::changes::{Change, Write};

// What a store's memory is filled with. No library has a blank record public.
const NONE: Record = Record {
    version: 0,
    item: 0,
    change: Change::Remove,
};

// The four makers share no helper: each type has its own `new`, with other memory and other failures.
fn journal(heap: Global, records: u8) -> Result<Journal, Fail> {
    Ok(Journal::new(vec![in heap; NONE; usize::from(records)]?))
}

fn chains(heap: Global, records: u8) -> Result<Chains, Fail> {
    Ok(Chains::new(heap, vec![in heap; NONE; usize::from(records)]?)?)
}

fn flat(heap: Global, entries: u8) -> Result<Flat, Fail> {
    let memory = vec![in heap; FlatEntry::new(); usize::from(entries)]?;
    Flat::new(2, memory).map_err(|_| Fail::new("the flat log was not made"))
}

// Room for so many entries of one write, and for all but one word of another.
fn packed(heap: Global, entries: u8) -> Result<Packed, Fail> {
    let words = usize::from(entries) * 5 + 4;
    let memory = vec![in heap; 0u32; words]?;
    Packed::new(heap, 2, memory).map_err(|_| Fail::new("the packed log was not made"))
}

// What was done to the store or to the log before the site is made: a value, since it is done at two types of store and log.
#[derive(Clone, Copy)]
pub(crate) enum Before {
    Nothing,
    Staged,
    Sealed,
    Ticketed,
    Passed,
    Copied,
    Known,
}

// How a site is made: its number, what was done before, and the refusal if none is to be made.
#[derive(Clone, Copy)]
pub(crate) struct Making {
    pub(crate) number: u32,
    pub(crate) before: Before,
    pub(crate) refusal: Option<Refusal>,
}

fn spoil<S: Store, L: Log>(store: &mut S, log: &mut L, before: Before) {
    let change = Change::Set(5);
    match before {
        Before::Nothing => {}
        Before::Staged => {
            let _ = store.stage(1, change);
        }
        Before::Sealed => store.seal(),
        Before::Ticketed => log.ticket(),
        Before::Passed => log.pass(),
        Before::Copied => {
            let _ = log.copy(NewEntry {
                home: 1,
                ticket: 1,
                writes: &[Write { item: 1, change }],
            });
        }
        Before::Known => log.close(0, &[0, 1]),
    }
}

// Some numbers of a store and a log.
fn numbers<S: Store, L: Log>(store: &S, log: &L) -> [u32; 5] {
    [
        store.version(),
        store.staged_count(),
        log.last(),
        log.place(),
        log.tickets(),
    ]
}

// Makes the site and takes the turns at it; or it is declined, and the store and the log come back.
fn drive<S: Store + Drop, L: Log + Drop>(
    rt: &impl Abort,
    pair: &'static str,
    making: Making,
    store: S,
    log: L,
    turns: &[Turn],
) {
    let mut store = store;
    let mut log = log;
    spoil(&mut store, &mut log, making.before);
    let was = numbers(&store, &log);
    match Site::new(making.number, store, log) {
        Ok(site) => {
            let mut site = site;
            assert_eq!(rt; making.refusal, None, "{pair}");
            play(rt, pair, &mut site, turns)
        }
        Err(back) => {
            assert_eq!(rt; Some(back.refusal), making.refusal, "{pair}");
            assert_eq!(rt; numbers(&back.store, &back.log), was, "{pair}");
        }
    }
}

// Makes sites with room for so many records, and for so many entries of one write, and takes the turns, over both pairs.
pub(crate) fn made_on_both(
    rt: &(impl Abort + AllocGlobal),
    making: Making,
    records: u8,
    entries: u8,
    turns: &[Turn],
) -> Result<(), Fail> {
    let heap = rt.alloc();
    let (store, log) = (journal(heap, records)?, flat(heap, entries)?);
    drive(rt, "journal and flat", making, store, log, turns);
    let (store, log) = (chains(heap, records)?, packed(heap, entries)?);
    drive(rt, "chains and packed", making, store, log, turns);
    Ok(())
}

// Takes the turns at site 0 over both pairs.
pub(crate) fn on_both(
    rt: &(impl Abort + AllocGlobal),
    records: u8,
    entries: u8,
    turns: &[Turn],
) -> Result<(), Fail> {
    let making = Making {
        number: 0,
        before: Before::Nothing,
        refusal: None,
    };
    made_on_both(rt, making, records, entries, turns)
}
