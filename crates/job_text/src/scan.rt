//! The check of a whole text, before anything of it is run.

ghost use Rattle.std.specs.Prelude.{◌≡◌};
ghost use Rattle.job_text.specs.Texts.{Checked, OneVerdict, line_count};

use crate::lines::Reader;
use line_forms::read_line;

/// The most bytes of a text.
pub const MAX_BYTES: usize = 32768;

/// The most lines of a text.
pub const MAX_LINES: usize = 1024;

/// Why a text is refused as a whole.
#[derive(Clone, Copy, PartialEq, Eq, Debug)]
pub enum Fault {
    /// It has too many bytes or too many lines.
    TooLong,
    /// The number of its first malformed line, counted from 1.
    Malformed(u16),
}

/// The number of lines of a text, all of them well formed, or what is wrong with it.
pub fn check_text(text: &[u8]) -> Result<u16, Fault>
    ensures { Checked text.now result }
{
    if text.len() > MAX_BYTES {
        return Err(Fault::TooLong);
    }
    let lines = count_lines(text);
    if lines > MAX_LINES {
        return Err(Fault::TooLong);
    }
    let mut good: u16 = 0;
    for line in Reader::new(text) {
        read_line(line).ok_or(Fault::Malformed(good + 1))?;
        good += 1;
    }
    if usize::from(good) == lines {
        Ok(good)
    } else {
        Err(Fault::Malformed(good + 1))
    }
}

/// States that what `check_text` says of a text determines its answer.
pub fn one_verdict()
    ensures { OneVerdict }
{}

/// The number of lines; a last line without its 0A counts too.
fn count_lines(text: &[u8]) -> usize
    ensures { result ≡ line_count text.now }
{
    let ends = text.iter().filter(|b| **b == b'\n').count();
    let tail = text.last().is_some_and(|last| *last != b'\n');
    ends + usize::from(tail)
}
