// Long lists of calls, at logs that fill, wrap and empty many times.
use crate::calls::{Call, choose, is_append, play};
use crate::random::{NO_WRITE, Numbers, draw_write};
use crate::same::same;
use logs::api::Log;
use logs::flat::Flat;
use logs::packed::Packed;
use logs::row::FlatEntry;
use std::alloc::Global;
use std::process::Abort;
use std::test::Fail;
use words::changes::Write;

// Calls made at each pair of logs.
const CALLS: u32 = 3000;

#[derive(Drop)]
struct Both {
    flat: Flat,
    packed: Packed,
}

// How often an entry found the logs full, and how often they were empty.
#[derive(Drop)]
struct Seen {
    full: u32,
    empty: u32,
}

// The two makers share no helper: each type has its own `new`, with other memory and other failures.
fn flat_log(heap: Global, sites: u32, entries: usize) -> Result<Flat, Fail> {
    let memory = vec![in heap; FlatEntry::new(); entries]?;
    Flat::new(sites, memory).map_err(|_| Fail::new("the flat log was not made"))
}

fn packed_log(heap: Global, sites: u32, words: usize) -> Result<Packed, Fail> {
    let memory = vec![in heap; 0u32; words]?;
    Packed::new(heap, sites, memory).map_err(|_| Fail::new("the packed log was not made"))
}

fn make(heap: Global, entries: usize, words: usize) -> Result<Both, Fail> {
    Ok(Both {
        flat: flat_log(heap, 4, entries)?,
        packed: packed_log(heap, 4, words)?,
    })
}

fn refill(random: &mut Numbers, writes: &mut [Write; 17]) {
    for write in writes.iter_mut() {
        *write = draw_write(random);
    }
}

fn is_full(log: &Flat) -> bool {
    log.last().saturating_sub(log.floor()) >= log.capacity()
}

// Makes one call at both logs, and compares every answer.
fn turn(rt: &impl Abort, pair: &mut Both, random: &mut Numbers, call: Call, writes: &[Write]) {
    let known = [
        random.below(900),
        random.below(900),
        random.below(900),
        random.below(900),
    ];
    let sites = if random.is_time(20) { 3 } else { 4 };
    let flat = play(&mut pair.flat, call, writes, &known[0..sites]);
    let packed = play(&mut pair.packed, call, writes, &known[0..sites]);
    assert_eq!(rt; flat, packed);
    same(rt, &pair.flat, &pair.packed);
}

// Entries of one number of writes, so that both logs fill with the same entry; or, where none is given, of any number,
// which the packed log has room for wherever the flat one does.
fn drive(rt: &impl Abort, pair: &mut Both, seed: u32, count: Option<usize>) -> Seen {
    let mut random = Numbers::new(seed);
    let mut writes = [NO_WRITE; 17];
    let mut seen = Seen { full: 0, empty: 0 };
    for _ in 0..CALLS {
        refill(&mut random, &mut writes);
        let mut call = choose(&mut random, pair.flat.floor(), pair.flat.last());
        if is_append(call) && is_full(&pair.flat) {
            seen.full = seen.full.saturating_add(1);
            if count.is_none() {
                call = Call::Trim(pair.flat.floor().saturating_add(1));
            }
        }
        let count = count.unwrap_or_else(|| random.below(18) as usize);
        assert!(rt; count <= 17);
        turn(rt, pair, &mut random, call, &writes[0..count]);
        if pair.flat.floor() == pair.flat.last() {
            seen.empty = seen.empty.saturating_add(1);
        }
    }
    seen
}

#[test]
fn logs_agree_on_equal_entries(rt: HostRuntime) -> Result<(), Fail> {
    // A seed, entries of the flat log, words of the packed one, writes of each entry.
    let trials = [
        (1, 5, 5 * 7 + 6, 2),
        (2, 3, 3 * 35 + 34, 16),
        (3, 7, 7 * 3 + 2, 0),
    ];
    for (seed, entries, words, count) in trials {
        let mut pair = make(rt.alloc(), entries, words)?;
        let seen = drive(&rt, &mut pair, seed, Some(count));
        assert!(rt; seen.full > 50, "seed {seed}");
        assert!(rt; seen.empty > 50, "seed {seed}");
    }
    Ok(())
}

#[test]
fn logs_agree_on_varied_entries(rt: HostRuntime) -> Result<(), Fail> {
    let mut pair = make(rt.alloc(), 6, 6 * 35)?;
    let seen = drive(&rt, &mut pair, 4, None);
    assert!(rt; seen.full > 50);
    assert!(rt; seen.empty > 50);
    Ok(())
}

#[test]
fn too_many_writes_are_declined(rt: HostRuntime) -> Result<(), Fail> {
    let mut pair = make(rt.alloc(), 4, 4 * 37)?;
    let seen = drive(&rt, &mut pair, 5, Some(17));
    assert!(rt; seen.empty == CALLS);
    Ok(())
}

// A log is not made, and its memory comes back.
fn comes_back<L: Drop, M: Drop>(rt: &impl Abort, made: Result<L, Vec<M>>, length: usize) {
    assert_eq!(rt; made.err().map(|memory| memory.len()), Some(length));
}

// Logs of a wrong number of sites.
fn is_handed_back(rt: &impl Abort, heap: Global, sites: u32) -> Result<(), Fail> {
    comes_back(rt, Flat::new(sites, vec![in heap; FlatEntry::new(); 3]?), 3);
    comes_back(rt, Packed::new(heap, sites, vec![in heap; 0u32; 9]?), 9);
    Ok(())
}

#[test]
fn making_keeps_the_limits(rt: HostRuntime) -> Result<(), Fail> {
    is_handed_back(&rt, rt.alloc(), 1)?;
    is_handed_back(&rt, rt.alloc(), 9)?;
    assert_eq!(rt; flat_log(rt.alloc(), 2, 300)?.capacity(), 256);
    assert_eq!(rt; flat_log(rt.alloc(), 8, 7)?.capacity(), 7);
    assert_eq!(rt; packed_log(rt.alloc(), 8, 9000)?.capacity(), 8192);
    assert_eq!(rt; packed_log(rt.alloc(), 2, 0)?.capacity(), 0);
    Ok(())
}
