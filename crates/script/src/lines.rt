// A line of a scenario, without its comment.
ghost use Rattle.std.specs.Prelude.{◌≡◌};
ghost use Rattle.text.specs.Split.{words};
ghost use Rattle.script.specs.Values.{told, ask_value};
ghost use Rattle.script.specs.Lines.{group_in, store_first, log_first, site_in, send_in, at_in, line_in};
ghost use Rattle.script.specs.Parts.{at_rest};

use crate::asks::{Ask, LogKind, Plan, StoreKind};
use crate::deeds::parse_deed;
use crate::faults::Fault;
use crate::parts::{parse_number, parse_only, parse_source};
use crate::verbs::{parse_named, parse_verb};
use text::names::same;
use text::numbers::decimal;
use text::split::next_word;

fn parse_group<'a>(text: &'a [u8]) -> Result<Ask<'a>, Fault>
    ensures { told ask_value result ≡ group_in (words text.now) }
{
    let sites = parse_only(text, parse_number)?;
    Ok(Ask::Group(sites))
}

fn parse_store<'a>(text: &'a [u8]) -> Result<(StoreKind, &'a [u8]), Fault>
    ensures { told at_rest result ≡ store_first (words text.now) }
{
    let table: [(&[u8], StoreKind); 2] = [
        (b"journal", StoreKind::Journal),
        (b"chains", StoreKind::Chains),
    ];
    parse_named(&table, Fault::NoStore, text)
}

fn parse_log<'a>(text: &'a [u8]) -> Result<(LogKind, &'a [u8]), Fault>
    ensures { told at_rest result ≡ log_first (words text.now) }
{
    let table: [(&[u8], LogKind); 2] = [(b"flat", LogKind::Flat), (b"packed", LogKind::Packed)];
    parse_named(&table, Fault::NoLog, text)
}

fn parse_site<'a>(text: &'a [u8]) -> Result<Ask<'a>, Fault>
    ensures { told ask_value result ≡ site_in (words text.now) }
{
    let (site, rest) = parse_number(text)?;
    let (store, rest) = parse_store(rest)?;
    let (records, rest) = parse_number(rest)?;
    let (log, rest) = parse_log(rest)?;
    let room = parse_only(rest, parse_number)?;
    let plan = Plan {
        store,
        records,
        log,
        room,
    };
    Ok(Ask::Site { site, plan })
}

fn parse_send<'a>(text: &'a [u8]) -> Result<Ask<'a>, Fault>
    ensures { told ask_value result ≡ send_in (words text.now) }
{
    let source = parse_source(text)?;
    Ok(Ask::Send(source))
}

// A call at a site.
fn parse_at<'a>(site: u32, text: &'a [u8]) -> Result<Ask<'a>, Fault>
    ensures { told ask_value result ≡ at_in site (words text.now) }
{
    let (verb, rest) = parse_verb(text)?;
    let deed = parse_deed(verb, rest)?;
    Ok(Ask::At { site, deed })
}

/// What a line asks for, or why it is not understood. Ifs and no table: what comes after the first word is read in other ways.
pub fn parse_line<'a>(line: &'a [u8]) -> Result<Ask<'a>, Fault>
    ensures { told ask_value result ≡ line_in (words line.now) }
{
    let (word, rest) = next_word(line);
    if same(word, b"group") {
        return parse_group(rest);
    }
    if same(word, b"site") {
        return parse_site(rest);
    }
    if same(word, b"send") {
        return parse_send(rest);
    }
    let site = decimal(word).ok_or(Fault::NoCall)?;
    parse_at(site, rest)
}
