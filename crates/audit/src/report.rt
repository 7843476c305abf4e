// The run over a list: each line is parsed, decided and printed; the scene that is left comes last.
use crate::lines::{Reason, parse_group, parse_message};
use account::accountant::Accountant;
use console::of_line;
use std::io::Eprint;
use text::lines::{Line, Lines};

// Decides the message of a line, and prints the decision with its place.
fn decide<R: Print + Eprint + AllocGlobal>(
    rt: &R,
    accountant: &mut Accountant,
    line: Line<'_>,
) -> anyhow::Result<()> {
    let heap = rt.alloc();
    let message = of_line(rt, line.number, parse_message(heap, line.words))?;
    let decision = of_line(rt, line.number, accountant.decide(heap, message.as_slice()))?;
    let place = accountant.places();
    println!(rt; "{place} = {decision}")?;
    Ok(())
}

// Prints the number of commits, the horizon, and each present item.
fn summarize<R: Print + AllocGlobal>(rt: &R, accountant: &Accountant) -> anyhow::Result<()> {
    let last = accountant.last_version();
    let horizon = accountant.horizon();
    println!(rt; "commits {last} horizon {horizon}")?;
    let scene = accountant.scene(rt.alloc())?;
    for (item, placed) in scene.iter() {
        let value = placed.value;
        let version = placed.version;
        println!(rt; "item {item} = {value} (version {version})")?;
    }
    Ok(())
}

// The accountant of the group that the first line names.
fn open<R: Eprint + AllocGlobal>(rt: &R, line: Line<'_>) -> anyhow::Result<Accountant> {
    let sites = of_line(rt, line.number, parse_group(line.words))?;
    of_line(rt, line.number, Accountant::new(rt.alloc(), sites))
}

/// Decides the list and prints it. At a line that is not understood it says where and why; the lines before it stand printed.
pub fn audit<R: Print + Eprint + AllocGlobal>(rt: &R, text: &[u8]) -> anyhow::Result<()> {
    let mut lines = Lines::new(text);
    let first = lines.next().ok_or(Reason::NoGroup);
    let first = of_line(rt, lines.passed().saturating_add(1), first)?;
    let mut accountant = open(rt, first)?;
    for line in lines {
        decide(rt, &mut accountant, line)?;
    }
    summarize(rt, &accountant)
}
