//! What follows the key of a line of the job text: each function reads the rest of one kind of line.
#![tactic(auto)]

ghost use Rattle.std.specs.Prelude.{◌≡◌, ℕ, List, ◌++◌, codes, decimal, MatchOption, ◌≢◌, slice_index};
ghost use Rattle.causality.specs.declared.Place.{Place};
ghost use Rattle.causality.specs.declared.Relation.{Relation};
ghost use Rattle.line_parts.specs.Parts.{Name, Small, SoundPlace, placed};
ghost use Rattle.place_lists.specs.Lists.{Lists, SoundPlaces};
ghost use Rattle.line_fields.specs.Fields.{listing, question, relation_word};

use causality::{Place, Relation};
use line_parts::{read_name, read_number, read_place, strip};
use place_lists::count_places;

/// A number and nothing behind it.
pub fn one_number(s: &[u8]) -> Option<u16>
    ensures { MatchOption result ((n : ℕ) → Small n → s.now ≢ decimal n) (λ n. Small n × (s.now ≡ decimal n)) }
{
    let (n, rest) = read_number(s)?;
    rest.is_empty().then_some(n)
}

/// A number, the key, which begins with a space, and a number.
pub fn two_numbers(s: &[u8], key: &[u8]) -> Option<(u16, u16)>
    requires { slice_index key.now 0 ≡ 32 }
    ensures { MatchOption result ((n m : ℕ) → Small n → Small m → s.now ≢ decimal n ++ (key.now ++ decimal m)) (λ x. Small x.0 × Small x.1 × (s.now ≡ decimal x.0 ++ (key.now ++ decimal x.1))) }
{
    let (n, rest) = read_number(s)?;
    let rest = strip(rest, key)?;
    let m = one_number(rest)?;
    Some((n, m))
}

/// A place, ` to=` and a place.
pub fn two_places(s: &[u8]) -> Option<(Place, Place)>
    ensures { MatchOption result ((p q : Place) → SoundPlace p → SoundPlace q → s.now ≢ placed p ++ (codes " to=" ++ placed q)) (λ x. SoundPlace x.0 × SoundPlace x.1 × (s.now ≡ placed x.0 ++ (codes " to=" ++ placed x.1))) }
{
    let (p, rest) = read_place(s)?;
    let rest = strip(rest, b" to=")?;
    let (q, rest) = read_place(rest)?;
    rest.is_empty().then_some((p, q))
}

/// A name, ` to=` and a name.
fn two_names(s: &[u8]) -> Option<(&[u8], &[u8])>
    ensures { MatchOption result ((x y : List ℕ) → Name x → Name y → s.now ≢ x ++ (codes " to=" ++ y)) (λ n. Name n.0.now × Name n.1.now × (s.now ≡ n.0.now ++ (codes " to=" ++ n.1.now))) }
{
    let (x, rest) = read_name(s)?;
    let rest = strip(rest, b" to=")?;
    let (y, rest) = read_name(rest)?;
    rest.is_empty().then_some((x, y))
}

/// A name, ` at=` and a list of places: the name and the bytes of the list.
pub fn name_and_list(s: &[u8]) -> Option<(&[u8], &[u8])>
    ensures { MatchOption result ((name : List ℕ) (ps : List Place) → Name name → SoundPlaces ps → s.now ≡ listing name ps → ⊥) (λ x. Name x.0.now × ((ps : List Place) × Lists x.1.now ps) × (s.now ≡ x.0.now ++ (codes " at=" ++ x.1.now))) }
{
    let (name, rest) = read_name(s)?;
    let list = strip(rest, b" at=")?;
    let _ = count_places(list)?;
    Some((name, list))
}

/// The relation of a word.
fn relation_of(word: &[u8]) -> Option<Relation>
    ensures { MatchOption result ((q : Relation) → word.now ≢ relation_word q) (λ q. word.now ≡ relation_word q) }
{
    match word {
        b"R1" => Some(Relation::R1),
        b"R2" => Some(Relation::R2),
        b"R2P" => Some(Relation::R2P),
        b"R3" => Some(Relation::R3),
        b"R3P" => Some(Relation::R3P),
        b"R4" => Some(Relation::R4),
        _ => None,
    }
}

/// A relation, ` from=` and a name, ` to=` and a name.
pub fn relation_and_names(s: &[u8]) -> Option<(Relation, &[u8], &[u8])>
    ensures { MatchOption result ((q : Relation) (x y : List ℕ) → Name x → Name y → s.now ≢ question q x y) (λ a. Name a.1.now × Name a.2.now × (s.now ≡ question a.0 a.1.now a.2.now)) }
{
    let (word, rest) = read_name(s)?;
    let relation = relation_of(word)?;
    let rest = strip(rest, b" from=")?;
    let (x, y) = two_names(rest)?;
    Some((relation, x, y))
}
