//! The lines of an answer, written one behind another.
#![tactic(auto)]

ghost use Rattle.std.specs.Prelude.{◌≡◌, ◌+◌, ◌<◌, ◌≤◌, ◌++◌, length, decimal};
ghost use Rattle.answer_lines.specs.Output.{HasRoom, Writes, line_room, order_line, refused_line, refused_text, verdict_line, word, yes_or_no};

use causality::CausalOrder;
use itoa::Buffer;

/// The most bytes of a line.
pub const LINE_ROOM: usize = 32;

/// An output, and how far it is written.
#[derive(Drop)]
pub struct Output<'a> {
    /// The bytes of the output.
    pub out: &'a mut [u8],
    /// The place behind what is written.
    pub at: usize,
}

impl<'a> Output<'a> {
    /// Writes `line=L refused=R`.
    pub fn put_refused(&mut self, line: u16, number: u8)
        requires { HasRoom self.old }
        ensures writes { Writes self.old (refused_line line number) self.new }
        ensures room { self.new.at ≤ self.old.at + line_room }
    {
        self.put_field(b"line=", line);
        self.put_field(b" refused=", u16::from(number));
        self.put(b"\n");
    }

    /// Writes `refused=R`, for a text that is refused as a whole.
    pub fn put_refused_text(&mut self, number: u8)
        requires { HasRoom self.old }
        ensures writes { Writes self.old (refused_text number) self.new }
        ensures room { self.new.at ≤ self.old.at + line_room }
    {
        self.put_field(b"refused=", u16::from(number));
        self.put(b"\n");
    }

    /// Writes `line=L answer=W`.
    pub fn put_order(&mut self, line: u16, answer: CausalOrder)
        requires { HasRoom self.old }
        ensures writes { Writes self.old (order_line line answer) self.new }
        ensures room { self.new.at ≤ self.old.at + line_room }
    {
        self.put_field(b"line=", line);
        self.put(b" answer=");
        self.put(word_of(answer));
        self.put(b"\n");
    }

    /// Writes `line=L answer=V steps=S`. Up to 999 steps it has at most 32 bytes.
    pub fn put_verdict(&mut self, line: u16, verdict: bool, steps: u16)
        requires { HasRoom self.old × (steps < 1000) }
        ensures writes { Writes self.old (verdict_line line verdict steps) self.new }
        ensures room { self.new.at ≤ self.old.at + line_room }
    {
        self.put_field(b"line=", line);
        self.put(b" answer=");
        self.put(yes_or_no(verdict));
        self.put(b" steps=");
        self.put_number(steps);
        self.put(b"\n");
    }

    /// A key and a number.
    fn put_field(&mut self, key: &[u8], n: u16)
        requires { self.old.at + length key.now + 5 ≤ length self.old.out.now }
        ensures writes { Writes self.old (key.now ++ decimal n) self.new }
        ensures room { self.new.at ≤ self.old.at + length key.now + 5 }
    {
        self.put(key);
        self.put_number(n);
    }

    /// A number in decimal.
    fn put_number(&mut self, n: u16)
        requires { self.old.at + length (decimal n) ≤ length self.old.out.now }
        ensures { Writes self.old (decimal n) self.new }
    {
        self.put(Buffer::new().format(n).as_bytes());
    }

    /// Some bytes.
    fn put(&mut self, bytes: &[u8])
        requires { self.old.at + length bytes.now ≤ length self.old.out.now }
        ensures { Writes self.old bytes.now self.new }
    {
        let at = self.at;
        let end = at + bytes.len();
        self.out[at..end].copy_from_slice(bytes);
        self.at = end;
    }
}

/// The word of an answer.
fn word_of(answer: CausalOrder) -> &'static [u8]
    ensures is { result.now ≡ word answer }
    ensures short { length result.now ≤ 10 }
{
    match answer {
        CausalOrder::Before => b"before",
        CausalOrder::After => b"after",
        CausalOrder::Same => b"same",
        CausalOrder::Concurrent => b"concurrent",
    }
}

/// The word of a verdict.
fn yes_or_no(verdict: bool) -> &'static [u8]
    ensures is { result.now ≡ yes_or_no verdict }
    ensures short { length result.now ≤ 3 }
{
    if verdict { b"yes" } else { b"no" }
}
