//! The six relations between two operations, answered from their records alone.
#![tactic(auto)]

ghost use Rattle.std.specs.Prelude.{◌≡◌, ℕ, ◌≤◌, Bool, nat_le};
ghost use Rattle.relating.specs.Walks.{every_walk, some_walk};
ghost use Rattle.verdicts.specs.Verdicts.{Answers, Tests, row_comparisons, walk_until};

use causality::Relation;
use gathering::{ROW, Row};
use records::operations::Operation;

/// Compares the indexes with the bounds, node by node from 1 on, until a comparison comes out as `stop`.
fn compare<F: Fn(u16, u16) -> bool>(
    indexes: &Row,
    bounds: &Row,
    nodes: u16,
    stop: bool,
    holds: F,
) -> (bool, u16)
    requires { F.IsAlwaysCallable holds }
    ensures few { result.1 ≤ 16 }
    ensures walked { (test : ℕ → ℕ → Bool) → Tests (F.post holds) test → result ≡ walk_until stop (row_comparisons indexes.now test bounds.now nodes) }
{
    let mut steps = 0;
    let held = &indexes.counts[..ROW.min(nodes as usize)];
    for (i, index) in held.iter().enumerate() {
        if *index != 0 {
            steps += 1;
            if holds(*index, bounds.counts[i]) == stop {
                return (stop, steps);
            }
        }
    }
    (!stop, steps)
}

/// Whether every comparison holds, and how many were made: none after the first that fails.
fn every<F: Fn(u16, u16) -> bool>(indexes: &Row, bounds: &Row, nodes: u16, holds: F) -> (bool, u16)
    requires { F.IsAlwaysCallable holds }
    ensures few { result.1 ≤ 16 }
    ensures walked { (test : ℕ → ℕ → Bool) → Tests (F.post holds) test → result ≡ every_walk (row_comparisons indexes.now test bounds.now nodes) }
{
    compare(indexes, bounds, nodes, false, holds)
}

/// Whether some comparison holds, and how many were made: none after the first that does.
fn some<F: Fn(u16, u16) -> bool>(indexes: &Row, bounds: &Row, nodes: u16, holds: F) -> (bool, u16)
    requires { F.IsAlwaysCallable holds }
    ensures few { result.1 ≤ 16 }
    ensures walked { (test : ℕ → ℕ → Bool) → Tests (F.post holds) test → result ≡ some_walk (row_comparisons indexes.now test bounds.now nodes) }
{
    compare(indexes, bounds, nodes, true, holds)
}

/// Whether two operations stand in a relation, and how many comparisons were made to tell.
pub fn relate(relation: Relation, x: &Operation, y: &Operation, nodes: u16) -> (bool, u16)
    ensures few { result.1 ≤ 16 }
    ensures walked { Answers relation x.now y.now nodes result }
{
    match relation {
        Relation::R1 => every(&x.last, &y.cuts.joint_past, nodes, at_most),
        Relation::R2 => every(&x.last, &y.cuts.whole_past, nodes, at_most),
        Relation::R2P => some(&y.last, &x.cuts.joint_reach, nodes, at_least),
        Relation::R3 => some(&x.first, &y.cuts.joint_past, nodes, at_most),
        Relation::R3P => every(&y.first, &x.cuts.first_reach, nodes, at_least),
        Relation::R4 => some(&x.first, &y.cuts.whole_past, nodes, at_most),
    }
}

fn at_most(index: u16, bound: u16) -> bool
    ensures { result ≡ nat_le index bound }
{
    index <= bound
}

fn at_least(index: u16, bound: u16) -> bool
    ensures { result ≡ nat_le bound index }
{
    index >= bound
}
