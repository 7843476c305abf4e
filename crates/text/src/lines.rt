// The lines of a text that have words.
ghost use Rattle.std.specs.Prelude.{◌≡◌};
ghost use Rattle.text.specs.Split.{lines};
ghost use Rattle.text.specs.Lines.{worded, lines_left, count_left, NextLine};

use crate::split::{content, is_blank, next_line};

/// A line that has words: its number, counted from 1, the line without its comment, and the text after it.
#[derive(Clone, Copy)]
pub struct Line<'a> {
    pub number: u64,
    pub words: &'a [u8],
    pub after: &'a [u8],
}

/// The lines that have words, in order. Lines without words count too.
#[derive(Clone, Copy)]
pub struct Lines<'a> {
    rest: &'a [u8],
    number: u64,
}

impl<'a> Lines<'a> {
    /// All lines of the text.
    pub fn new(text: &'a [u8]) -> Lines<'a>
        ensures lines { lines_left result ≡ worded 0 (lines text.now) }
        ensures rest { result.rest ≡ text.entry }
    {
        Lines {
            rest: text,
            number: 0,
        }
    }

    /// How many lines were read so far, those without words too.
    pub fn passed(&self) -> u64
        ensures { result ≡ self.now.number }
    {
        self.number
    }
}

impl<'a> Iterator for Lines<'a> {
    type Item = Line<'a>;

    ghost next_gives = { NextLine };

    ghost remaining = { count_left };

    fn next(&mut self) -> Option<Line<'a>> {
        while !self.rest.is_empty() {
            let (line, after) = next_line(self.rest);
            let number = self.number.saturating_add(1);
            *self = Lines {
                rest: after,
                number,
            };
            let words = content(line);
            if !is_blank(words) {
                return Some(Line {
                    number,
                    words,
                    after,
                });
            }
        }
        None
    }
}
