//! The play of a whole text.

ghost use Rattle.std.specs.Prelude.{◌≡◌, ◌+◌, ◌≤◌, length, IfOk};
ghost use Rattle.answer_lines.specs.Output.{HasRoom, Wrote, line_room};
ghost use Rattle.correlator.specs.Told.{history};
ghost use Rattle.play.specs.Plays.{Correlated, LinePlayed, Played, number_of, refusal_bytes, unplayed};

use crate::reports::answer;
pub use answer_lines::LINE_ROOM;
use answer_lines::Output;
use clock::Clock;
use correlator::Correlator;
use job_text::{Fault, MAX_LINES, Reader, check_text};
use line_forms::{Line, read_line};

/// Why a text is not played.
#[derive(Clone, Copy, PartialEq, Eq, Debug)]
pub enum PlayRefusal {
    /// 21: the text has more than 32,768 bytes or 1,024 lines.
    TooLong,
    /// 20: the first malformed line.
    Malformed(u16),
    /// 22: the output has less than 32 bytes for each line.
    ShortOut,
}

impl From<Fault> for PlayRefusal {
    ghost from_gives = { λ f e. e ≡ unplayed f };

    fn from(fault: Fault) -> PlayRefusal {
        match fault {
            Fault::TooLong => PlayRefusal::TooLong,
            Fault::Malformed(line) => PlayRefusal::Malformed(line),
        }
    }
}

impl From<PlayRefusal> for u8 {
    ghost from_gives = { λ e n. n ≡ number_of e };

    fn from(refusal: PlayRefusal) -> u8 {
        match refusal {
            PlayRefusal::TooLong => 21,
            PlayRefusal::Malformed(_) => 20,
            PlayRefusal::ShortOut => 22,
        }
    }
}

/// Makes the calls of a text one after another, and answers how many bytes of the output were written. A text that is too
/// long or malformed, or for which the output is too short, is refused before any call is made.
pub fn play<F: Clock, R: Clock>(
    c: &mut Correlator<F, R>,
    text: &[u8],
    out: &mut [u8],
) -> Result<usize, PlayRefusal>
    ensures room { IfOk result (λ n. n ≤ length out.old) }
    ensures played { Played (history c.old) text.now out.old result out.new (history c.new) }
{
    let lines = check_text(text)?;
    if out.len() < LINE_ROOM * lines as usize {
        return Err(PlayRefusal::ShortOut);
    }
    let mut reader = Reader::new(text);
    let mut output = Output { out, at: 0 };
    for k in 0..lines {
        let Some(line) = reader.next_line() else {
            break;
        };
        let Some(call) = read_line(line) else {
            break;
        };
        play_line(c, call, k + 1, &mut output);
    }
    Ok(output.at)
}

// Makes the call of line k, and writes what is to be reported of it.
fn play_line<F: Clock, R: Clock>(
    c: &mut Correlator<F, R>,
    line: Line,
    k: u16,
    output: &mut Output<'_>,
)
    requires { HasRoom output.old }
    ensures room { output.new.at ≤ output.old.at + line_room }
    ensures played { LinePlayed (history c.old) k line output.old output.new (history c.new) }
{
    match answer(c, line) {
        Ok(None) => {}
        Ok(Some(order)) => output.put_order(k, order),
        Err(refusal) => output.put_refused(k, u8::from(refusal)),
    }
}

/// The most bytes that a text can make play write.
pub const MAX_OUTPUT: usize = LINE_ROOM * MAX_LINES;

/// Plays a text on a correlator just made, and writes the line of the refusal if the text is refused. Answers how many bytes
/// were written.
pub fn correlate<F: Clock + Drop, R: Clock + Drop>(text: &[u8], out: &mut [u8; MAX_OUTPUT]) -> usize
    ensures room { result ≤ 32768 }
    ensures correlated { Correlated text.now out.old result out.new }
{
    let mut c = Correlator::<F, R>::new();
    match play(&mut c, text, out) {
        Ok(end) => end,
        Err(refusal) => put_refusal(out, refusal),
    }
}

// Writes the line of the refusal of a text; answers the place behind it.
fn put_refusal(out: &mut [u8], refusal: PlayRefusal) -> usize
    requires { line_room ≤ length out.old }
    ensures { Wrote out.old 0 (refusal_bytes refusal) out.new result }
{
    let number = u8::from(refusal);
    let mut output = Output { out, at: 0 };
    match refusal {
        PlayRefusal::Malformed(line) => output.put_refused(line, number),
        PlayRefusal::TooLong | PlayRefusal::ShortOut => output.put_refused_text(number),
    }
    output.at
}
