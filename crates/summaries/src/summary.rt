//! The record of an operation.

ghost use Rattle.summaries.specs.Summed.{Summed};
ghost use Rattle.std.specs.Prelude.{◌≡◌};

use crate::members::Members;
use crate::rows::{bounds, from_end, own_row_of};
use crate::trace::Trace;
use causality::from_last;
use clock::Clock;
use counting::row_of;
use gathering::{Earliest, Greatest, Least};
use records::{Cuts, MAX_MEMBERS, Operation};

/// The record of an operation with these members, in a trace that both clocks took.
pub fn summarize<F: Clock, R: Clock>(
    trace: &Trace<'_, F, R>,
    name: u64,
    members: &Members,
) -> Operation
    ensures name { result.name ≡ name }
    ensures summed { Summed (F.Clock.means trace.now.forward.now) (R.Clock.means trace.now.reverse.now) trace.now.events.now members.now.items result }
{
    let held = members.as_slice();
    let mut kept = [0; MAX_MEMBERS];
    kept[..held.len()].copy_from_slice(held);
    let (first, last) = bounds::<Earliest, Greatest, _>(
        held,
        |e| own_row_of(trace.forward, trace.events, e),
    );
    let (joint_past, whole_past) = bounds::<Least, Greatest, _>(held, |e| row_of(trace.forward, e));
    let (least, greatest) = bounds::<Least, Greatest, _>(
        held,
        |e| row_of(trace.reverse, from_last(trace.len(), e)),
    );
    let ends = trace.lengths();
    Operation {
        name,
        len: held.len() as u16,
        members: kept,
        first,
        last,
        cuts: Cuts {
            joint_past,
            whole_past,
            first_reach: from_end(&ends, &greatest),
            joint_reach: from_end(&ends, &least),
        },
    }
}
