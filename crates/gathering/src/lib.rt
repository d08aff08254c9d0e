//! Gathering: one text that joins all elements of a slice, for any associative joining.
#![tactic(auto)]

ghost use Rattle.std.specs.List.{AllZip};
ghost use Rattle.std.specs.Prelude.{◌≡◌, ℕ, List, ◌+◌, ◌<◌, ◌≤◌, min, max, ◌++◌, length, MatchOption, slice_index};
ghost use Rattle.gathering.specs.Gathering.{Chooses, Extreme, earliest, joined_all, zipped};
ghost use Rattle.std.proofs.Common.{ap, ap₂, rules};
ghost use Rattle.gathering.specs.Absent.{earliest_associative};
ghost use Rattle.gathering.specs.Choices.{by_max, by_min};
ghost use Rattle.gathering.specs.Zips.{zipped_assoc};

use std::array;

/// A way to join two values of T into one, in any grouping. A type names it; no value of that type is needed.
pub trait Joining<T> {
    ghost op: { T → T → T };

    fn join(a: T, b: T) -> T
        ensures { result ≡ op a b };

    ghost associative: { (x y z : T) → op (op x y) z ≡ op x (op y z) };
}

/// What is made of each item, joined; none of no items.
pub fn gather_by<X: Copy, T: Copy, J: Joining<T>, F: Fn(X) -> T>(items: &[X], make: F) -> Option<T>
    requires { F.IsAlwaysCallable make }
    ensures { (made : List T) × AllZip (F.post make) items.now made × (result ≡ joined_all J.Joining.op made) }
{
    let mut all = None;
    for x in items {
        let made = make(*x);
        all = Some(all.map_or(made, |before| J::join(before, made)));
    }
    all
}

/// All elements joined; none of an empty slice.
pub fn gather<T: Copy, J: Joining<T>>(items: &[T]) -> Option<T>
    ensures { result ≡ joined_all J.Joining.op items.now }
{
    gather_by::<T, T, J, _>(items, |x| x)
}

/// Two parts gathered one by one and then joined: the same as the whole gathered at once.
pub fn gather_parts<T: Copy, J: Joining<T>>(front: &[T], back: &[T]) -> Option<T>
    ensures { result ≡ joined_all J.Joining.op (front.now ++ back.now) }
{
    match (gather::<T, J>(front), gather::<T, J>(back)) {
        (Some(a), Some(b)) => Some(J::join(a, b)),
        (a, b) => a.or(b),
    }
}

/// The length of a row: a number for each node that a trace may have.
pub const ROW: usize = causality::NODES;

/// A number for each node.
#[derive(Clone, Copy, PartialEq, Eq, Debug, Default)]
pub struct Row {
    pub counts: [u16; ROW],
}

impl Row {
    /// What `number` gives of each node, counted from 1.
    pub fn at_nodes<F: Fn(u16) -> u16>(number: F) -> Row
        requires { F.IsAlwaysCallable number }
        ensures { (i : ℕ) → i < 16 → F.post number (i + 1) (slice_index result.counts i) }
    {
        Row {
            counts: array::from_fn(|i| number(i as u16 + 1)),
        }
    }
}

/// The joining that takes the least.
#[derive(Clone, Copy)]
pub struct Least;

/// The joining that takes the greatest.
#[derive(Clone, Copy)]
pub struct Greatest;

/// The joining that takes the least, where 0 stands for no number.
#[derive(Clone, Copy)]
pub struct Earliest;

impl Joining<u16> for Least {
    ghost op = { min };

    ghost associative = { Prim.search rules };

    fn join(a: u16, b: u16) -> u16 {
        a.min(b)
    }
}

impl Joining<u16> for Greatest {
    ghost op = { max };

    ghost associative = { Prim.search rules };

    fn join(a: u16, b: u16) -> u16 {
        a.max(b)
    }
}

impl Joining<u16> for Earliest {
    ghost op = { earliest };

    ghost associative = { λ x y z. earliest_associative x y z };

    fn join(a: u16, b: u16) -> u16 {
        if a == 0 {
            b
        } else if b == 0 {
            a
        } else {
            Least::join(a, b)
        }
    }
}

/// A joining of numbers joins rows number by number.
impl<J: Joining<u16>> Joining<Row> for J {
    ghost op = { λ x y. record { counts = zipped J.op x.counts y.counts } };

    ghost associative = { λ x y z. ap (λ l. record { counts = l }) (zipped_assoc J.op J.associative x.counts y.counts z.counts) };

    fn join(a: Row, b: Row) -> Row {
        Row {
            counts: array::from_fn(|i| J::join(a.counts[i], b.counts[i])),
        }
    }
}

/// Two joinings join pairs, each its half.
impl<A, B, J: Joining<A>, K: Joining<B>> Joining<(A, B)> for (J, K) {
    ghost op = { λ x y. (J.op x.0 y.0, K.op x.1 y.1) };

    ghost associative = { λ x y z. ap₂ (λ a b. (a, b)) (J.associative x.0 y.0 z.0) (K.associative x.1 y.1 z.1) };

    fn join((a, c): (A, B), (b, d): (A, B)) -> (A, B) {
        (J::join(a, b), K::join(c, d))
    }
}

/// A joining that keeps one of two numbers: the one that is first by an order.
pub trait Choosing: Joining<u16> {
    ghost before: { ℕ → ℕ → Type 0 };

    ghost chooses: { Chooses before Self.Joining.op };
}

impl Choosing for Least {
    ghost before = { λ x y. x ≤ y };

    ghost chooses = { by_min };
}

impl Choosing for Greatest {
    ghost before = { λ x y. y ≤ x };

    ghost chooses = { by_max };
}

/// The row that is first at each number, as a joining chooses: the least of some rows, or the greatest; none of no rows.
pub fn extreme_row<J: Choosing>(rows: &[Row]) -> Option<Row>
    ensures { MatchOption result (length rows.now ≡ 0) (λ row. (k : ℕ) → k < 16 → Extreme J.Choosing.before (λ (x : Row). slice_index x.counts k) rows.now (slice_index row.counts k)) }
{
    gather::<Row, J>(rows)
}
