// Names, and texts that are the same.
ghost use Rattle.std.specs.Prelude.{◌≡◌, Decides};
ghost use Rattle.std.specs.Str.{bytes_eq};
ghost use Rattle.text.specs.Names.{is_name};

/// Whether the two texts have the same bytes: `==` by a name, whose clause says `bytes_eq`, which callers' clauses cite.
pub fn same(a: &[u8], b: &[u8]) -> bool
    ensures value { result ≡ bytes_eq a.now b.now }
    ensures decides { Decides result (a.now ≡ b.now) }
{
    a == b
}

/// Whether the word is a name: a lower-case letter, then letters of either case and digits.
pub fn is_name(word: &[u8]) -> bool
    ensures { result ≡ is_name word.now }
{
    match word {
        [first, rest @ ..] => {
            first.is_ascii_lowercase() && rest.iter().all(|byte| byte.is_ascii_alphanumeric())
        }
        [] => false,
    }
}
