//! The cut of a text into lines, each of which ends in the byte 0A.

ghost use Rattle.std.specs.Prelude.{◌≡◌, ◌≤◌, [], List, ℕ, length, drop, Decides, MatchOption};
ghost use Rattle.std.specs.Iterator.{at_most};
ghost use Rattle.job_text.specs.Lines.{Clear, FirstEnd, NextLine};

use std::marker::Model;

/// The index of the first 0A at or behind `from`.
pub fn line_end(text: &[u8], from: usize) -> Option<usize>
    ensures { MatchOption result (Clear text.now from (length text.now)) (λ e. FirstEnd text.now from e) }
{
    let ahead = text.get(from..)?.iter().position(|b| *b == b'\n')?;
    Some(from + ahead)
}

/// A text, and how far it is read. In a clause it is the bytes that are left.
#[derive(Drop)]
pub struct Reader<'a> {
    text: &'a [u8],
    pos: usize,
}

impl<'a> Model for Reader<'a> {
    ghost Value = { List ℕ };

    ghost view = { λ r. drop r.pos r.text.now };

    ghost invariant = { λ r. r.pos ≤ length r.text.now };
}

impl<'a> Reader<'a> {
    /// All of the text is left to read.
    pub fn new(text: &'a [u8]) -> Reader<'a>
        ensures { result ≡ text.now }
    {
        Reader { text, pos: 0 }
    }

    /// The next line without its 0A; none if no 0A is left, and then nothing is read.
    pub fn next_line(&mut self) -> Option<&'a [u8]>
        ensures { NextLine self.old result self.new }
    {
        let text = self.text;
        let from = self.pos;
        let end = line_end(text, from)?;
        self.pos = end + 1;
        Some(&text[from..end])
    }

    /// Whether the whole text is read. If it is not and no line is left, a tail without 0A is.
    pub fn at_end(&self) -> bool
        ensures { Decides result (self.now ≡ []) }
    {
        self.pos == self.text.len()
    }
}

impl<'a> Iterator for Reader<'a> {
    type Item = &'a [u8];

    ghost next_gives = { NextLine };

    ghost remaining = { λ left. at_most (length left) };

    fn next(&mut self) -> Option<&'a [u8]> {
        self.next_line()
    }
}
