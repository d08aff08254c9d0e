//! Each make of clock on the worked trace, at its limits, and on a ladder of messages.

use causality::Event;
use clock::{Clock, NewEntry};
use link_clock::LinkClock;
use row_clock::RowClock;
use std::process::Abort;

// A count: the entry, the node and the number; or the k-th entry of a node.
type Fact = (u16, u16, Option<u16>);

// An event, and the entry that it follows by a message.
type Step = (Event, Option<u16>);

const WORKED: [Step; 8] = [
    (Event::Local(1), None),
    (Event::Send(1, 7), None),
    (Event::Send(2, 8), None),
    (Event::Receive(3, 7), Some(1)),
    (Event::Receive(3, 8), Some(2)),
    (Event::Meet(2, 3), None),
    (Event::Local(1), None),
    (Event::Local(3), None),
];

const COUNTS: [Fact; 9] = [
    (4, 1, Some(2)),
    (4, 2, Some(1)),
    (4, 3, Some(2)),
    (5, 1, Some(2)),
    (5, 2, Some(2)),
    (5, 3, Some(3)),
    (6, 3, Some(0)),
    (8, 1, None),
    (4, 4, None),
];

const PLACES: [Fact; 4] = [(2, 2, Some(5)), (3, 3, Some(5)), (3, 5, None), (1, 0, None)];

// The same trace from last to first, each send with its receive.
const WORKED_BACK: [Step; 8] = [
    (Event::Local(3), None),
    (Event::Local(1), None),
    (Event::Meet(2, 3), None),
    (Event::Receive(3, 8), None),
    (Event::Receive(3, 7), None),
    (Event::Send(2, 8), Some(3)),
    (Event::Send(1, 7), Some(4)),
    (Event::Local(1), None),
];

const COUNTS_BACK: [Fact; 6] = [
    (5, 1, Some(0)),
    (5, 2, Some(2)),
    (5, 3, Some(3)),
    (6, 1, Some(2)),
    (6, 2, Some(1)),
    (6, 3, Some(4)),
];

fn takes<C: Clock>(c: &mut C, steps: &[Step]) -> bool {
    steps.iter().all(|(event, prior)| c.take(NewEntry::of(*event, *prior)).is_some())
}

fn counts<C: Clock>(c: &C, facts: &[Fact]) -> bool {
    facts
        .iter()
        .all(|(e, node, count)| c.count(*e, *node) == *count)
}

fn places<C: Clock>(c: &C, facts: &[Fact]) -> bool {
    facts
        .iter()
        .all(|(node, index, entry)| c.at(*node, *index) == *entry)
}

fn worked<C: Clock + Drop>(rt: &impl Abort) {
    let mut c = C::new();
    assert!(rt; c.begin(3) && takes(&mut c, &WORKED));
    assert!(rt; counts(&c, &COUNTS) && places(&c, &PLACES));
    assert!(rt; c.begin(3) && takes(&mut c, &WORKED_BACK));
    assert!(rt; counts(&c, &COUNTS_BACK));
}

// An entry of one node that follows another, if it is given.
fn entry(node: u16, prior: Option<u16>) -> NewEntry {
    NewEntry::of(Event::Local(node), prior)
}

fn fill<C: Clock>(c: &mut C) -> bool {
    (0..512u16).all(|e| c.take(entry(e % 16 + 1, None)) == Some(e))
}

// A meet of node 1 and another.
fn meet(partner: u16) -> NewEntry {
    NewEntry::of(Event::Meet(1, partner), None)
}

// 16 nodes and 512 entries pass, 17 and 513 do not, and a refusal alters nothing.
fn limits<C: Clock + Drop>(rt: &impl Abort) {
    let mut c = C::new();
    assert!(rt; !c.begin(0) && !c.begin(17));
    assert!(rt; c.begin(16) && fill(&mut c));
    assert!(rt; c.take(entry(1, None)).is_none() && !c.begin(17));
    assert!(rt;
        counts(
            &c,
            &[
                (511, 16, Some(32)),
                (511, 15, Some(0)),
                (511, 17, None),
                (512, 1, None),
            ],
        )
    );
    assert!(rt; places(&c, &[(16, 32, Some(511)), (16, 33, None), (16, 0, None)]));
    assert!(rt; c.begin(2) && counts(&c, &[(0, 1, None)]));
    assert!(rt; c.take(meet(1)).is_none() && c.take(meet(3)).is_none());
    assert!(rt; c.take(entry(1, Some(0))).is_none() && c.take(entry(3, None)).is_none());
}

// Each of 200 rungs follows both entries of the rung before: 2^200 paths lead down, and one walk counts them all.
fn ladder<C: Clock + Drop>(rt: &impl Abort) {
    let mut c = C::new();
    assert!(rt; c.begin(2));
    let mut left = c.take(entry(1, None));
    let mut right = c.take(entry(2, None));
    for _ in 0..200u16 {
        let up = c.take(entry(1, right));
        right = c.take(entry(2, left));
        left = up;
    }
    assert!(rt; left == Some(400) && right == Some(401));
    assert!(rt;
        counts(
            &c,
            &[
                (400, 1, Some(201)),
                (400, 2, Some(200)),
                (401, 1, Some(200)),
            ],
        )
    );
}

#[test]
fn on_rows(rt: HostRuntime) {
    worked::<RowClock>(&rt);
    limits::<RowClock>(&rt);
    ladder::<RowClock>(&rt);
}

#[test]
fn on_links(rt: HostRuntime) {
    worked::<LinkClock>(&rt);
    limits::<LinkClock>(&rt);
    ladder::<LinkClock>(&rt);
}
