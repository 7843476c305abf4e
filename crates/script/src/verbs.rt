// Tables of names, and the names of the calls.
ghost use Rattle.std.specs.Prelude.{◌≡◌};
ghost use Rattle.text.specs.Split.{words};
ghost use Rattle.script.specs.Values.{told};
ghost use Rattle.script.specs.Parts.{at_rest};
ghost use Rattle.script.specs.Verbs.{named, named_first, row_values, verbs};
ghost use Rattle.script.specs.declared.faults.Fault.TheVariants.{NoVerb};

use crate::faults::Fault;
use text::names::same;
use text::split::Words;

#[derive(Clone, Copy)]
pub enum Verb {
    Begin,
    Read,
    Look,
    Write,
    Post,
    GiveUp,
    LetGo,
    Outcome,
    Deliver,
    Step,
    Report,
    Page,
    Take,
    Trim,
    Prune,
    Crash,
    Wake,
    Show,
}

// What the word names in the table: one search for calls, stores and logs, where a TryFrom for each would be longer.
fn find_named<T: Copy>(table: &[(&[u8], T)], word: &[u8]) -> Option<T>
    ensures { result ≡ named (row_values table.now) word.now }
{
    table.iter().find(|row| same(word, row.0)).map(|row| row.1)
}

// What the first word names in the table, and the text after it; `missing` where it names nothing.
pub(crate) fn parse_named<'a, T: Copy>(
    table: &[(&[u8], T)],
    missing: Fault,
    text: &'a [u8],
) -> Result<(T, &'a [u8]), Fault>
    ensures { told at_rest result ≡ named_first (row_values table.now) missing (words text.now) }
{
    let mut words = Words(text);
    let word = words.next().ok_or(missing)?;
    let value = find_named(table, word).ok_or(missing)?;
    Ok((value, words.0))
}

// A call, and the text after its name.
pub(crate) fn parse_verb<'a>(text: &'a [u8]) -> Result<(Verb, &'a [u8]), Fault>
    ensures { told at_rest result ≡ named_first verbs NoVerb (words text.now) }
{
    let table: [(&[u8], Verb); 18] = [
        (b"begin", Verb::Begin),
        (b"read", Verb::Read),
        (b"look", Verb::Look),
        (b"write", Verb::Write),
        (b"post", Verb::Post),
        (b"give_up", Verb::GiveUp),
        (b"let_go", Verb::LetGo),
        (b"outcome", Verb::Outcome),
        (b"deliver", Verb::Deliver),
        (b"step", Verb::Step),
        (b"report", Verb::Report),
        (b"page", Verb::Page),
        (b"take", Verb::Take),
        (b"trim", Verb::Trim),
        (b"prune", Verb::Prune),
        (b"crash", Verb::Crash),
        (b"wake", Verb::Wake),
        (b"show", Verb::Show),
    ];
    parse_named(&table, Fault::NoVerb, text)
}
