// The run over a scenario: each line is parsed, played and printed.
use crate::answers::{Answer, Spaced};
use crate::reasons::Reason;
use crate::stage::Stage;
use console::of_line;
use script::asks::Ask;
use script::lines::parse_line;
use text::lines::{Line, Lines};

// Plays what a line asks for.
fn answer<'a>(stage: &mut Stage<'a>, ask: Ask<'a>) -> Result<Answer<'a>, Reason> {
    match ask {
        Ask::Group(_) => Err(Reason::SecondGroup),
        Ask::Site { site, .. } => stage.make(site),
        Ask::Send(source) => stage.send(source),
        Ask::At { site, deed } => stage.play(site, deed),
    }
}

// Plays a line: what is printed of it.
fn played<'a>(stage: &mut Stage<'a>, words: &'a [u8]) -> Result<String, Reason> {
    let answer = answer(stage, parse_line(words)?)?;
    let words = Spaced(words);
    Ok(format!(in stage.heap; "{words} = {answer}")?)
}

// How many sites the first line says that the group has.
fn sites_in(words: &[u8]) -> Result<u32, Reason> {
    match parse_line(words) {
        Ok(Ask::Group(sites)) => Ok(sites),
        _ => Err(Reason::NoGroup),
    }
}

// The stage of the group that the first line names; the sites are made by the lines after it.
fn open<'a>(rt: &HostRuntime, line: Line<'a>) -> anyhow::Result<Stage<'a>> {
    let sites = of_line(rt, line.number, sites_in(line.words))?;
    let stage = Stage::new(rt.alloc(), sites, line.after)?;
    let words = Spaced(line.words);
    println!(rt; "{words} = ok")?;
    Ok(stage)
}

/// Plays the scenario and prints it. At a line that is not understood it says where and why; the lines before it stand printed.
pub fn play(rt: &HostRuntime, text: &[u8]) -> anyhow::Result<()> {
    let mut lines = Lines::new(text);
    let Some(first) = lines.next() else {
        return Ok(());
    };
    let mut stage = open(rt, first)?;
    for line in lines {
        let printed = of_line(rt, line.number, played(&mut stage, line.words))?;
        println!(rt; "{printed}")?;
    }
    Ok(())
}
