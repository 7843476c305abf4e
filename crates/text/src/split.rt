// Lines of a text, and words of a line.
ghost use Rattle.std.specs.Prelude.{◌≡◌, ℕ, ◌+◌, ◌<◌, ◌≤◌, Bool, ◌∷◌, length};
ghost use Rattle.std.specs.Iterator.{ActsAsAt, YieldsFirstRef, item_count};
ghost use Rattle.text.specs.Split.{is_blank, front, beyond, first_line, after_line, content_of, blanks, first_word, after_word, lines, words, led, none_in, PartAt, LastPart};

// Whether the byte parts words.
fn is_blank_byte(byte: u8) -> bool
    ensures { result ≡ is_blank byte }
{
    byte == b' ' || byte == b'\t' || byte == b'\r'
}

// The text up to the first byte that ends the part, and the rest of the text, from that byte on.
fn split_before<F: FnMut(&u8) -> bool>(text: &[u8], ends: F) -> (&[u8], &[u8])
    requires { F.IsAlwaysCallable ends }
    ensures parts { (p : ℕ → Bool) → ActsAsAt F.FnMut ends p → (result.0.now ≡ front p text.now) × (result.1.now ≡ beyond p text.now) }
    ensures whole { length result.0.now + length result.1.now ≡ length text.now }
    ensures front_part { PartAt text.entry 0 result.0 }
    ensures rest_part { PartAt text.entry (length result.0.now) result.1 }
{
    let end = text.iter().position(ends).unwrap_or(text.len());
    (&text[..end], &text[end..])
}

/// The first line without its newline, and the text after that newline. A text with no newline is one line, with nothing after it.
pub fn next_line(text: &[u8]) -> (&[u8], &[u8])
    ensures line { result.0.now ≡ first_line text.now }
    ensures rest { result.1.now ≡ after_line text.now }
    ensures lines { 0 < length text.now → lines text.now ≡ result.0.now ∷ lines result.1.now }
    ensures shorter { 0 < length text.now → length result.1.now < length text.now }
    ensures line_part { PartAt text.entry 0 result.0 }
    ensures rest_part { LastPart text.entry result.1 }
{
    let (line, rest) = split_before(text, |byte| *byte == b'\n');
    match rest {
        [_, after @ ..] => (line, after),
        [] => (line, rest),
    }
}

/// The line up to its first `#`, which starts a comment.
pub fn content(line: &[u8]) -> &[u8]
    ensures value { result.now ≡ content_of line.now }
    ensures part { PartAt line.entry 0 result }
{
    let (content, _) = split_before(line, |byte| *byte == b'#');
    content
}

/// The first word and the text after it. Words are parted by spaces, tabs and carriage returns. Where there is no word, both are empty.
pub fn next_word(text: &[u8]) -> (&[u8], &[u8])
    ensures word { result.0.now ≡ first_word text.now }
    ensures rest { result.1.now ≡ after_word text.now }
    ensures words { words text.now ≡ led result.0.now (words result.1.now) }
    ensures shorter { length result.0.now + length result.1.now ≤ length text.now }
    ensures word_part { PartAt text.entry (length (blanks text.now)) result.0 }
    ensures rest_part { LastPart text.entry result.1 }
{
    let (_, from_word) = split_before(text, |byte| !is_blank_byte(*byte));
    split_before(from_word, |byte| is_blank_byte(*byte))
}

/// Whether the text has no words.
pub fn is_blank(text: &[u8]) -> bool
    ensures { result ≡ none_in (words text.now) }
{
    let (word, _) = next_word(text);
    word.is_empty()
}

/// The words of a text, in order.
#[derive(Clone, Copy)]
pub struct Words<'a>(pub &'a [u8]);

impl<'a> Iterator for Words<'a> {
    type Item = &'a [u8];

    ghost next_gives = { YieldsFirstRef (λ s. words s.0.now) };

    ghost remaining = { item_count (λ s. words s.0.now) };

    fn next(&mut self) -> Option<&'a [u8]> {
        let (word, rest) = next_word(self.0);
        if word.is_empty() {
            return None;
        }
        self.0 = rest;
        Some(word)
    }
}
