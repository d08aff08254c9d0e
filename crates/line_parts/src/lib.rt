//! Readers of the parts of a line of the job text: each takes the bytes and gives a value and what follows it.
#![tactic(auto)]

ghost use Rattle.std.specs.Prelude.{◌≡◌, ℕ, Bool, false, true, List, ◌++◌, MatchOption, ◌≢◌};
ghost use Rattle.causality.specs.declared.Place.{Place};
ghost use Rattle.line_parts.specs.Parts.{NameAt, NumberAt, PlaceAt, Run};

use causality::Place;
use names::{MAX_NAME, is_letter};

/// The most digits of a number.
const MAX_DIGITS: usize = 5;

/// The number that the bytes begin with, and what follows it.
pub fn read_number(s: &[u8]) -> Option<(u16, &[u8])>
    ensures { MatchOption result ((n : ℕ) (rest : List ℕ) → NumberAt s.now n rest → ⊥) (λ x. NumberAt s.now x.0 x.1.now) }
{
    let [b'1'..=b'9', ..] = s else {
        return None;
    };
    let mut n: u32 = 0;
    let mut rest = s;
    // With one digit more there is no number, however many follow.
    for _ in 0..=MAX_DIGITS {
        let [digit @ b'0'..=b'9', after @ ..] = rest else {
            break;
        };
        n = n * 10 + u32::from(*digit - b'0');
        rest = after;
    }
    Some((u16::try_from(n).ok()?, rest))
}

/// The place that the bytes begin with, and what follows it.
pub fn read_place(s: &[u8]) -> Option<(Place, &[u8])>
    ensures { MatchOption result ((p : Place) (rest : List ℕ) → PlaceAt s.now p rest → ⊥) (λ x. PlaceAt s.now x.0 x.1.now) }
{
    let (node, rest) = read_number(s)?;
    let rest = strip(rest, b".")?;
    let (index, rest) = read_number(rest)?;
    Some((Place { node, index }, rest))
}

/// The name that the bytes begin with, and what follows it.
pub fn read_name(s: &[u8]) -> Option<(&[u8], &[u8])>
    ensures { MatchOption result ((name rest : List ℕ) → NameAt s.now name rest → ⊥) (λ x. NameAt s.now x.0.now x.1.now) }
{
    let (name, rest) = split_while(s, is_letter);
    (1..=MAX_NAME).contains(&name.len()).then_some((name, rest))
}

/// The bytes in front that pass the test, and what follows them.
fn split_while<F: Fn(u8) -> bool>(s: &[u8], test: F) -> (&[u8], &[u8])
    requires { F.IsAlwaysCallable test }
    ensures { (passes : ℕ → Bool) → ((b : ℕ) (r : Bool) → F.post test b r → r ≡ passes b) → passes 0 ≡ false → Run (λ b. passes b ≡ true) s.now result.0.now result.1.now }
{
    let end = s.iter().position(|b| !test(*b)).unwrap_or(s.len());
    s.split_at(end)
}

/// What follows the key, if the bytes begin with it.
pub fn strip<'a>(s: &'a [u8], key: &[u8]) -> Option<&'a [u8]>
    ensures { MatchOption result ((rest : List ℕ) → s.now ≢ key.now ++ rest) (λ x. s.now ≡ key.now ++ x.now) }
{
    s.strip_prefix(key)
}
