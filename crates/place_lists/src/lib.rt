//! Lists of places, as a line of the job text has them: `1.1,2.4,3.2`.
#![tactic(auto)]

ghost use Rattle.std.specs.Prelude.{◌≡◌, List, length, drop, MatchOption};
ghost use Rattle.causality.specs.declared.Place.{Place};
ghost use Rattle.place_lists.specs.Lists.{Lists, Stores};

use causality::Place;
pub use history::MAX_PLACES;
use line_parts::{read_place, strip};

/// How many places the bytes list; none if they are no list.
pub fn count_places(list: &[u8]) -> Option<usize>
    ensures { MatchOption result ((ps : List Place) → Lists list.now ps → ⊥) (λ n. (ps : List Place) × Lists list.now ps × (length ps ≡ n)) }
{
    let mut rest = list;
    for n in 0..MAX_PLACES {
        let (_, after) = read_place(rest)?;
        if after.is_empty() {
            return Some(n + 1);
        }
        rest = strip(after, b",")?;
    }
    None
}

/// Stores the places that the bytes list, in their order, and answers how many; none if they are no list. The places behind
/// those stay.
pub fn read_places(list: &[u8], places: &mut [Place; MAX_PLACES]) -> Option<usize>
    ensures { MatchOption result ((ps : List Place) → Lists list.now ps → ⊥) (λ n. Stores list.now n places.new × (drop n places.new ≡ drop n places.old)) }
{
    let mut rest = list;
    for (k, slot) in places.iter_mut().enumerate() {
        let (place, after) = read_place(rest)?;
        *slot = place;
        if after.is_empty() {
            return Some(k + 1);
        }
        rest = strip(after, b",")?;
    }
    None
}
