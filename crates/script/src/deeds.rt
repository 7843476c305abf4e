// The calls at a site, by the text after the call's name.
ghost use Rattle.std.specs.Prelude.{◌≡◌};
ghost use Rattle.text.specs.Split.{words};
ghost use Rattle.script.specs.Values.{told, bytes, deed_value};
ghost use Rattle.script.specs.Deeds.{name_in, number_in, read_in, write_in, post_in, page_in, deliver_in, bare_in, deed_in};

use crate::asks::Deed;
use crate::faults::Fault;
use crate::parts::{
    parse_buffer, parse_change, parse_end, parse_name, parse_number, parse_only, parse_source,
};
use crate::verbs::Verb;
use text::split::is_blank;

// A name and nothing else.
fn parse_only_name<'a>(text: &'a [u8]) -> Result<&'a [u8], Fault>
    ensures { told bytes result ≡ name_in (words text.now) }
{
    parse_only(text, parse_name)
}

// A number and nothing else.
fn parse_only_number(text: &[u8]) -> Result<u32, Fault>
    ensures { result ≡ number_in (words text.now) }
{
    parse_only(text, parse_number)
}

fn parse_read<'a>(text: &'a [u8]) -> Result<Deed<'a>, Fault>
    ensures { told deed_value result ≡ read_in (words text.now) }
{
    let (name, rest) = parse_name(text)?;
    let item = parse_only_number(rest)?;
    Ok(Deed::Read(name, item))
}

fn parse_write<'a>(text: &'a [u8]) -> Result<Deed<'a>, Fault>
    ensures { told deed_value result ≡ write_in (words text.now) }
{
    let (name, rest) = parse_name(text)?;
    let (item, rest) = parse_number(rest)?;
    let change = parse_only(rest, parse_change)?;
    Ok(Deed::Write(name, item, change))
}

fn parse_post<'a>(text: &'a [u8]) -> Result<Deed<'a>, Fault>
    ensures { told deed_value result ≡ post_in (words text.now) }
{
    let (name, rest) = parse_name(text)?;
    let buffer = parse_buffer(rest)?;
    Ok(Deed::Post(name, buffer))
}

fn parse_page<'a>(text: &'a [u8]) -> Result<Deed<'a>, Fault>
    ensures { told deed_value result ≡ page_in (words text.now) }
{
    let (version, rest) = parse_number(text)?;
    let buffer = parse_buffer(rest)?;
    Ok(Deed::Page(version, buffer))
}

fn parse_deliver<'a>(text: &'a [u8]) -> Result<Deed<'a>, Fault>
    ensures { told deed_value result ≡ deliver_in (words text.now) }
{
    let (place, rest) = parse_number(text)?;
    if is_blank(rest) {
        return Ok(Deed::Deliver(place, None));
    }
    let source = parse_source(rest)?;
    Ok(Deed::Deliver(place, Some(source)))
}

// A call that takes nothing.
fn parse_bare<'a>(deed: Deed<'a>, text: &[u8]) -> Result<Deed<'a>, Fault>
    ensures { told deed_value result ≡ bare_in (deed_value deed.entry) (words text.now) }
{
    parse_end(text)?;
    Ok(deed)
}

// A call with the text after its name. A verb and a match, since each call takes other arguments: a table could only hold
// pointers to functions.
pub(crate) fn parse_deed<'a>(verb: Verb, text: &'a [u8]) -> Result<Deed<'a>, Fault>
    ensures { told deed_value result ≡ deed_in verb (words text.now) }
{
    match verb {
        Verb::Begin => Ok(Deed::Begin(parse_only_name(text)?)),
        Verb::Read => parse_read(text),
        Verb::Look => Ok(Deed::Look(parse_only_number(text)?)),
        Verb::Write => parse_write(text),
        Verb::Post => parse_post(text),
        Verb::GiveUp => Ok(Deed::GiveUp(parse_only_name(text)?)),
        Verb::LetGo => Ok(Deed::LetGo(parse_only_name(text)?)),
        Verb::Outcome => Ok(Deed::Outcome(parse_only_name(text)?)),
        Verb::Deliver => parse_deliver(text),
        Verb::Step => parse_bare(Deed::Step, text),
        Verb::Report => Ok(Deed::Report(parse_buffer(text)?)),
        Verb::Page => parse_page(text),
        Verb::Take => Ok(Deed::Take(parse_source(text)?)),
        Verb::Trim => parse_bare(Deed::Trim, text),
        Verb::Prune => parse_bare(Deed::Prune, text),
        Verb::Crash => parse_bare(Deed::Crash, text),
        Verb::Wake => parse_bare(Deed::Wake, text),
        Verb::Show => parse_bare(Deed::Show, text),
    }
}
