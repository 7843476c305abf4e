// Single arguments of a line. Each takes the text that is still to be read.
ghost use Rattle.std.specs.Prelude.{◌≡◌};
ghost use Rattle.text.specs.Split.{words};
ghost use Rattle.std.specs.Option.{option_map};
ghost use Rattle.script.specs.Values.{told, bytes, source_value, buffer_value};
ghost use Rattle.script.specs.Parts.{at_rest, pair_value, end_in, only, name_first, number_first, change_first, all_spelt, source_in, room_first, label_in, buffer_in};

use crate::asks::{Buffer, Source};
use crate::faults::Fault;
use text::names::{is_name, same};
use text::numbers::{decimal, hex_word, signed};
use text::split::{Words, is_blank, next_word};
use words::changes::Change;

/// The room of a buffer whose line says none.
pub const ROOM: u32 = 40;

// Nothing may be left.
pub(crate) fn parse_end(text: &[u8]) -> Result<(), Fault>
    ensures { result ≡ end_in (words text.now) }
{
    if is_blank(text) {
        Ok(())
    } else {
        Err(Fault::MoreWords)
    }
}

// What the closure reads of the text, where nothing is left after it.
pub(crate) fn parse_only<'a, T: Drop, F: FnOnce(&'a [u8]) -> Result<(T, &'a [u8]), Fault>>(
    text: &'a [u8],
    parse: F,
) -> Result<T, Fault>
    requires { F.IsAlwaysCallable parse }
    ensures { (read : _) × F.post parse text.entry read × (result ≡ only read) }
{
    let (value, rest) = parse(text)?;
    parse_end(rest)?;
    Ok(value)
}

// A name, and the text after it.
pub(crate) fn parse_name<'a>(text: &'a [u8]) -> Result<(&'a [u8], &'a [u8]), Fault>
    ensures { told pair_value result ≡ name_first (words text.now) }
{
    let (word, rest) = next_word(text);
    if is_name(word) {
        Ok((word, rest))
    } else {
        Err(Fault::NoName)
    }
}

// A number, and the text after it.
pub(crate) fn parse_number<'a>(text: &'a [u8]) -> Result<(u32, &'a [u8]), Fault>
    ensures { told at_rest result ≡ number_first (words text.now) }
{
    let (word, rest) = next_word(text);
    let number = decimal(word).ok_or(Fault::NoNumber)?;
    Ok((number, rest))
}

// A change: a value, or `gone` for a removal; and the text after it.
pub(crate) fn parse_change<'a>(text: &'a [u8]) -> Result<(Change, &'a [u8]), Fault>
    ensures { told at_rest result ≡ change_first (words text.now) }
{
    let (word, rest) = next_word(text);
    if same(word, b"gone") {
        return Ok((Change::Remove, rest));
    }
    let value = signed(word).ok_or(Fault::NoValue)?;
    Ok((Change::Set(value), rest))
}

// Whether each word of the text is one of eight hexadecimal digits.
fn are_spelt(text: &[u8]) -> bool
    ensures { result ≡ all_spelt (words text.now) }
{
    Words(text).all(|word| hex_word(word).is_some())
}

// Words to hand in, to the end of the line.
pub(crate) fn parse_source<'a>(text: &'a [u8]) -> Result<Source<'a>, Fault>
    ensures { told source_value result ≡ source_in (words text.now) }
{
    let (word, rest) = next_word(text);
    if is_name(word) {
        parse_end(rest)?;
        return Ok(Source::Named(word));
    }
    if word.is_empty() || !are_spelt(text) {
        return Err(Fault::NoWords);
    }
    Ok(Source::Spelt(text))
}

// The room of a buffer, where the text says one, and the text after it.
fn parse_room<'a>(text: &'a [u8]) -> Result<(u32, &'a [u8]), Fault>
    ensures { told at_rest result ≡ room_first (words text.now) }
{
    let (word, rest) = next_word(text);
    if same(word, b"room") {
        return parse_number(rest);
    }
    Ok((ROOM, text))
}

// The name for the words written, where the text says one, to the end of the line.
fn parse_label<'a>(text: &'a [u8]) -> Result<Option<&'a [u8]>, Fault>
    ensures { told (option_map bytes) result ≡ label_in (words text.now) }
{
    let (word, rest) = next_word(text);
    if word.is_empty() {
        return Ok(None);
    }
    if !same(word, b"as") {
        return Err(Fault::MoreWords);
    }
    let name = parse_only(rest, parse_name)?;
    Ok(Some(name))
}

// A buffer, to the end of the line.
pub(crate) fn parse_buffer<'a>(text: &'a [u8]) -> Result<Buffer<'a>, Fault>
    ensures { told buffer_value result ≡ buffer_in (words text.now) }
{
    let (room, rest) = parse_room(text)?;
    let name = parse_label(rest)?;
    Ok(Buffer { room, name })
}
