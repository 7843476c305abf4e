// The lines of a saved list: `group N` first, then one message a line.
ghost use Rattle.std.specs.Prelude.{◌≡◌};
ghost use Rattle.text.specs.Split.{words};
ghost use Rattle.audit.specs.Lines.{group_line, is_dash, Parsed};
ghost use Rattle.audit.specs.declared.lines.Reason.TheVariants.{NoMemory};

use std::alloc::{AllocError, AllocFailed, Global};
use text::names::same;
use text::numbers::{decimal, hex_words};
use text::split::{is_blank, next_word};
use thiserror::Error;

/// Why a line is not understood.
#[derive(Clone, Copy, PartialEq, Eq, Debug, Error)]
pub enum Reason {
    #[error("the list begins with 'group' and the number of sites")]
    NoGroup,
    #[error("a message is words of eight upper-case hexadecimal digits, or '-' for none")]
    NoWord,
    #[error("no memory is left")]
    NoMemory,
}

// By hand, since a derived From has no contract, and the parser's clauses need to know which reason it is.
impl From<AllocError> for Reason {
    ghost from_gives = { λ _ r. r ≡ NoMemory };

    fn from(_error: AllocError) -> Reason {
        Reason::NoMemory
    }
}

impl<T: Drop> From<AllocFailed<T>> for Reason {
    ghost from_gives = { λ _ r. r ≡ NoMemory };

    fn from(_refused: AllocFailed<T>) -> Reason {
        Reason::NoMemory
    }
}

/// The number of sites that the first line says.
pub fn parse_group(line: &[u8]) -> Result<u32, Reason>
    ensures { result ≡ group_line (words line.now) }
{
    let (name, rest) = next_word(line);
    let (number, rest) = next_word(rest);
    if !same(name, b"group") || !is_blank(rest) {
        return Err(Reason::NoGroup);
    }
    decimal(number).ok_or(Reason::NoGroup)
}

// Whether the line is a lone `-`.
fn is_dash(line: &[u8]) -> bool
    ensures { result ≡ is_dash (words line.now) }
{
    let (word, rest) = next_word(line);
    same(word, b"-") && is_blank(rest)
}

/// The words of the message that a later line says.
pub fn parse_message(heap: Global, line: &[u8]) -> Result<Vec<u32>, Reason>
    ensures { Parsed (words line.now) result }
{
    if is_dash(line) {
        return Ok(Vec::new(heap));
    }
    hex_words(heap, line)?.ok_or(Reason::NoWord)
}
