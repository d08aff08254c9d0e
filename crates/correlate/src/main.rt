//! Plays the job text on standard input and writes its answers to standard output.
//!
//! `correlate` runs on the row clock; `correlate link` runs on the link clock, and writes the same.
#![tactic(auto)]

ghost use Rattle.std.specs.Prelude.{◌≤◌, length, IfOk};

use job_text::MAX_BYTES;
use link_clock::LinkClock;
use play::{MAX_OUTPUT, correlate};
use row_clock::RowClock;
use std::io::{Read, Write};
use std::{env, io};

// One byte more than the longest text: enough to tell that a text is too long.
const INPUT: usize = MAX_BYTES + 1;

// Reads the input to its end, or until the buffer is full.
fn read_text(input: &mut impl Read, text: &mut [u8]) -> io::Result<usize>
    ensures { IfOk result (λ n. n ≤ length text.old) }
{
    let mut len = 0;
    while len < text.len() {
        let n = input.read(&mut text[len..])?;
        if n == 0 {
            break;
        }
        len += n;
    }
    Ok(len)
}

// Whether the first argument asks for the link clock.
fn on_links(rt: &HostRuntime) -> io::Result<bool> {
    let word = env::args(rt)?.nth(1);
    Ok(word.is_some_and(|word| word.as_str() == "link"))
}

fn main(rt: HostRuntime) -> io::Result<()> {
    let mut text = [0u8; INPUT];
    let len = read_text(&mut rt.stdin(), &mut text)?;
    let mut out = [0u8; MAX_OUTPUT];
    let end = if on_links(&rt)? {
        correlate::<LinkClock, LinkClock>(&text[..len], &mut out)
    } else {
        correlate::<RowClock, RowClock>(&text[..len], &mut out)
    };
    let mut output = rt.stdout();
    output.write_all(&out[..end])
}
