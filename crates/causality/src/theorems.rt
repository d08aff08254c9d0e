//! The theorems of causality, each the contract of a function that does nothing.

ghost use Rattle.causality.specs.Entries.{PastIsReach, PastsLawful, CountsTell, StampsTell, StampsGrow};
ghost use Rattle.causality.specs.Traces.{PastIsBefore, Mirrored, FutureIsAfter, AcceptedIsOrderly};
ghost use Rattle.causality.specs.Relations.{IndexIsStamp, CutsTell, RelationsByCuts, IndexedNodes};
ghost use Rattle.causality.specs.Columns.{ColumnsDecide};
ghost use Rattle.causality.specs.Worked.{WorkedTrace};

/// Whatever was taken, an entry's past is itself and what chains of edges lead from.
pub fn past_is_reach()
    ensures { PastIsReach }
{}

/// The four laws of pasts: own, through, earliest, no higher.
pub fn pasts_lawful()
    ensures { PastsLawful }
{}

/// The k-th entry of a node is in a cut exactly if k is at most the cut's count there.
pub fn counts_tell()
    ensures { CountsTell }
{}

/// The same of a past and its vector timestamp.
pub fn stamps_tell()
    ensures { StampsTell }
{}

/// How the timestamp of a new entry comes from its predecessors', and that no earlier one changes.
pub fn stamps_grow()
    ensures { StampsGrow }
{}

/// The past that the forward clock keeps of an event is itself and what happened before it.
pub fn past_is_before()
    ensures { PastIsBefore }
{}

/// Taken from last to first, pasts are the futures of the trace, whatever the trace.
pub fn mirrored()
    ensures { Mirrored }
{}

/// The past that the reverse clock keeps of an event is itself and what it happened before.
pub fn future_is_after()
    ensures { FutureIsAfter }
{}

/// Where each event was checked against the earlier ones, no message is received before it is sent.
pub fn accepted_is_orderly()
    ensures { AcceptedIsOrderly }
{}

/// What each of the four cuts of a set of events tells of the k-th event of a node.
pub fn cuts_tell()
    ensures { CutsTell }
{}

/// Each of the six relations over all pairs of members is a comparison of indexes with a cut.
pub fn relations_by_cuts()
    ensures { RelationsByCuts }
{}

/// Only nodes where a member stands have a first or a last index.
pub fn indexed_nodes()
    ensures { IndexedNodes }
{}

/// An event's index at a node where it stands is its own timestamp there.
pub fn index_is_stamp()
    ensures { IndexIsStamp }
{}

/// Equal columns give equal pasts, futures and timestamps, whatever the order of arrival.
pub fn columns_decide()
    ensures { ColumnsDecide }
{}

/// What the definitions compute of the worked trace of three nodes.
pub fn worked_trace()
    ensures { WorkedTrace }
{}
