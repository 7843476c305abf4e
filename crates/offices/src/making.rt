// Making the sites of a scenario. A group takes all of its sites at once, so their lines are looked for ahead.
ghost use Rattle.std.specs.Prelude.{IfOk};
ghost use Rattle.offices.specs.Playing.{Opened};

use anyhow::Context;
use group::any::AnySite;
use group::group::Group;
use logs::api::Log;
use logs::flat::Flat;
use logs::packed::Packed;
use logs::row::FlatEntry;
use script::asks::{Ask, LogKind, Plan, StoreKind};
use script::lines::parse_line;
use site::site::Site;
use std::alloc::Global;
use store::api::Store;
use store::chains::Chains;
use store::journal::Journal;
use store::records::{MOST_RECORDS, Record};
use text::lines::Lines;
use words::changes::Change;
use words::limits::is_group;

// What a flat log and a packed log can use.
const MOST_ENTRIES: usize = 256;

const MOST_WORDS: usize = 8192;

const NO_RECORD: Record = Record {
    version: 0,
    item: 0,
    change: Change::Remove,
};

// What the line says of a site, if it makes that site.
fn plan_in(words: &[u8], number: u32) -> Option<Plan> {
    match parse_line(words) {
        Ok(Ask::Site { site, plan }) if site == number => Some(plan),
        _ => None,
    }
}

// What the first line that makes the site says of it. A site that no line makes gets no room, and no line reaches it.
fn find_plan(text: &[u8], number: u32) -> Plan {
    Lines::new(text)
        .find_map(|line| plan_in(line.words, number))
        .unwrap_or(Plan {
            store: StoreKind::Journal,
            records: 0,
            log: LogKind::Flat,
            room: 0,
        })
}

fn make_chains(heap: Global, records: Vec<Record>) -> anyhow::Result<Chains> {
    Chains::new(heap, records)
        .ok()
        .context("a store was not made")
}

// The logs take memory of their own kinds by calls of their own: one function for both would be handed both as parameters.
fn make_flat(heap: Global, sites: u32, room: u32) -> anyhow::Result<Flat> {
    let memory = vec![in heap; FlatEntry::new(); (room as usize).min(MOST_ENTRIES)]?;
    Flat::new(sites, memory).ok().context("a log was not made")
}

fn make_packed(heap: Global, sites: u32, room: u32) -> anyhow::Result<Packed> {
    let memory = vec![in heap; 0u32; (room as usize).min(MOST_WORDS)]?;
    Packed::new(heap, sites, memory)
        .ok()
        .context("a log was not made")
}

fn make_site<S: Store + Drop, L: Log + Drop>(
    number: u32,
    store: S,
    log: L,
) -> anyhow::Result<Site<S, L>> {
    Site::new(number, store, log)
        .ok()
        .context("a site was not made")
}

// The site of that number over the store and the log of its plan. Four arms, since each makes a site of another type.
fn make_any(heap: Global, sites: u32, number: u32, plan: Plan) -> anyhow::Result<AnySite> {
    let records = vec![in heap; NO_RECORD; (plan.records as usize).min(MOST_RECORDS)]?;
    Ok(match (plan.store, plan.log) {
        (StoreKind::Journal, LogKind::Flat) => {
            let log = make_flat(heap, sites, plan.room)?;
            AnySite::JournalFlat(make_site(number, Journal::new(records), log)?)
        }
        (StoreKind::Journal, LogKind::Packed) => {
            let log = make_packed(heap, sites, plan.room)?;
            AnySite::JournalPacked(make_site(number, Journal::new(records), log)?)
        }
        (StoreKind::Chains, LogKind::Flat) => {
            let log = make_flat(heap, sites, plan.room)?;
            AnySite::ChainsFlat(make_site(number, make_chains(heap, records)?, log)?)
        }
        (StoreKind::Chains, LogKind::Packed) => {
            let log = make_packed(heap, sites, plan.room)?;
            AnySite::ChainsPacked(make_site(number, make_chains(heap, records)?, log)?)
        }
    })
}

/// The group of these sites, each made as the text says, at the beginning of a run; none where a group cannot have so many.
pub fn make_group(heap: Global, sites: u32, text: &[u8]) -> anyhow::Result<Option<Group<AnySite>>>
    ensures { IfOk result (Opened sites) }
{
    if !is_group(sites) {
        return Ok(None);
    }
    let mut made = Vec::with_capacity(heap, sites as usize)?;
    for number in 0..sites {
        made.push(make_any(heap, sites, number, find_plan(text, number))?)?;
    }
    let group = Group::new(made).ok().context("a group was not made")?;
    Ok(Some(group))
}
