//! Traces on the correlator: limits, the order of refusals, orders of arrival, a trace that is abandoned, timestamps.

use causality::{CausalOrder, Event, Place};
use clock::Clock;
use correlator::Correlator;
use history::Refusal;
use link_clock::LinkClock;
use row_clock::RowClock;
use std::process::Abort;

// An event, and what it is answered when it is told: that it is accepted, or why not.
type Step = (Event, Result<(), Refusal>);

fn tell<F: Clock, R: Clock>(c: &mut Correlator<F, R>, event: Event) -> Result<Place, Refusal> {
    match event {
        Event::Local(a) => c.local(a),
        Event::Send(a, m) => c.send(a, m),
        Event::Receive(a, m) => c.receive(a, m),
        Event::Meet(a, b) => c.meet(a, b),
    }
}

// Whether each event is answered as it should.
fn events<F: Clock, R: Clock>(c: &mut Correlator<F, R>, steps: &[Step]) -> bool {
    steps
        .iter()
        .all(|(event, told)| tell(c, *event).map(|_| ()) == *told)
}

// Whether each event is accepted.
fn accepts<F: Clock, R: Clock>(c: &mut Correlator<F, R>, trace: &[Event]) -> bool {
    trace.iter().all(|event| tell(c, *event).is_ok())
}

fn fill<F: Clock, R: Clock>(c: &mut Correlator<F, R>) -> bool {
    (1..512u16).all(|e| c.local(e % 16 + 1).is_ok())
}

const FULL: [Step; 8] = [
    (Event::Local(1), Err(Refusal::Full)),
    (Event::Local(17), Err(Refusal::NoNode)),
    (Event::Send(1, 0), Err(Refusal::NoMessage)),
    (Event::Send(1, 65535), Err(Refusal::SentBefore)),
    (Event::Receive(2, 7), Err(Refusal::NotSent)),
    (Event::Receive(1, 65535), Err(Refusal::SameNode)),
    (Event::Receive(2, 65535), Err(Refusal::Full)),
    (Event::Meet(3, 3), Err(Refusal::SameNode)),
];

// 16 nodes and 512 events pass; at 512 events the other refusals still come first.
fn limits<F: Clock + Drop, R: Clock + Drop>(rt: &impl Abort) {
    let mut c = Correlator::<F, R>::new();
    assert!(rt;
        events(&mut c, &[(Event::Local(1), Err(Refusal::Idle))]) && c.close() == Err(Refusal::Idle)
    );
    assert!(rt; c.start(17) == Err(Refusal::NodeCount) && c.start(0) == Err(Refusal::NodeCount));
    assert!(rt; c.start(16) == Ok(()) && events(&mut c, &[(Event::Send(1, 65535), Ok(()))]));
    assert!(rt; fill(&mut c) && events(&mut c, &FULL));
}

const MESSAGE: [Step; 4] = [
    (Event::Send(1, 5), Ok(())),
    (Event::Receive(2, 5), Ok(())),
    (Event::Receive(2, 5), Err(Refusal::ReceivedBefore)),
    (Event::Receive(1, 5), Err(Refusal::ReceivedBefore)),
];

const ANEW: [Step; 3] = [
    (Event::Receive(1, 5), Err(Refusal::NotSent)),
    (Event::Send(1, 5), Ok(())),
    (Event::Local(2), Err(Refusal::NoNode)),
];

// A closed trace takes no events, and a new start leaves nothing of the old trace.
fn abandoned<F: Clock + Drop, R: Clock + Drop>(rt: &impl Abort) {
    let mut c = Correlator::<F, R>::new();
    assert!(rt; c.start(2) == Ok(()) && events(&mut c, &MESSAGE));
    assert!(rt; c.close() == Ok(()) && c.close() == Err(Refusal::Closed));
    assert!(rt; events(&mut c, &[(Event::Local(1), Err(Refusal::Closed))]) && c.start(1) == Ok(()));
    assert!(rt;
        c.order(place(1, 1), place(1, 1)) == Err(Refusal::NoEvent) && events(&mut c, &ANEW)
    );
    assert!(rt; c.order(place(1, 1), place(1, 1)) == Ok(CausalOrder::Same) && c.close() == Ok(()));
}

// The worked trace in three orders of arrival.
const ARRIVALS: [[Event; 8]; 3] = [
    [
        Event::Local(1),
        Event::Send(1, 7),
        Event::Send(2, 8),
        Event::Receive(3, 7),
        Event::Receive(3, 8),
        Event::Meet(2, 3),
        Event::Local(1),
        Event::Local(3),
    ],
    [
        Event::Send(2, 8),
        Event::Local(1),
        Event::Send(1, 7),
        Event::Local(1),
        Event::Receive(3, 7),
        Event::Receive(3, 8),
        Event::Meet(3, 2),
        Event::Local(3),
    ],
    [
        Event::Local(1),
        Event::Send(1, 7),
        Event::Receive(3, 7),
        Event::Send(2, 8),
        Event::Receive(3, 8),
        Event::Meet(2, 3),
        Event::Local(3),
        Event::Local(1),
    ],
];

fn place(node: u16, index: u16) -> Place {
    Place { node, index }
}

// Whether two correlators order p and every other place alike.
fn alike<F: Clock, R: Clock>(c: &Correlator<F, R>, d: &Correlator<F, R>, p: Place) -> bool {
    (0..5u16).all(|j| { (0..6u16).all(|l| c.order(p, place(j, l)) == d.order(p, place(j, l))) })
}

fn arrivals<F: Clock + Drop, R: Clock + Drop>(rt: &impl Abort) {
    let mut first = Correlator::<F, R>::new();
    let mut other = Correlator::<F, R>::new();
    assert!(rt; first.start(3) == Ok(()) && accepts(&mut first, &ARRIVALS[0]));
    assert!(rt;
        first.order(place(1, 3), place(3, 4)) == Ok(CausalOrder::Concurrent)
            && first.order(place(2, 2), place(3, 3)) == Ok(CausalOrder::Same)
    );
    assert!(rt;
        first.order(place(1, 2), place(3, 4)) == Ok(CausalOrder::Before)
            && first.order(place(3, 2), place(2, 1)) == Ok(CausalOrder::After)
    );
    for arrival in &ARRIVALS {
        assert!(rt; other.start(3) == Ok(()) && accepts(&mut other, arrival));
        for i in 0..5u16 {
            for k in 0..6u16 {
                assert!(rt; alike(&first, &other, place(i, k)));
            }
        }
    }
}

// What a stamp is answered, and what it leaves of a row of sevens.
fn stamped<F: Clock, R: Clock>(
    c: &Correlator<F, R>,
    p: Place,
    d: u16,
) -> (Result<(), Refusal>, [u16; 4]) {
    let mut row = [7u16; 4];
    (c.stamp(p, d, &mut row), row)
}

fn stamps<F: Clock + Drop, R: Clock + Drop>(rt: &impl Abort) {
    let mut c = Correlator::<F, R>::new();
    assert!(rt; c.start(3) == Ok(()) && accepts(&mut c, &ARRIVALS[0]));
    assert!(rt;
        stamped(&c, place(3, 2), 1) == (Ok(()), [2, 1, 2, 7])
            && stamped(&c, place(2, 2), 1) == (Ok(()), [2, 2, 3, 7])
    );
    assert!(rt;
        stamped(&c, place(2, 1), 2) == (Err(Refusal::Open), [7; 4])
            && stamped(&c, place(1, 4), 1) == (Err(Refusal::NoEvent), [7; 4])
            && stamped(&c, place(1, 1), 3) == (Err(Refusal::BadSelector), [7; 4])
    );
    assert!(rt; c.stamp(Place { node: 1, index: 1 }, 1, &mut [7u16; 2]) == Err(Refusal::ShortRow));
    assert!(rt; c.close() == Ok(()));
    assert!(rt;
        stamped(&c, place(2, 1), 2) == (Ok(()), [0, 2, 3, 7])
            && stamped(&c, place(1, 2), 2) == (Ok(()), [2, 1, 4, 7])
    );
}

// Each refusal and its number.
const NUMBERS: [(Refusal, u8); 19] = [
    (Refusal::Idle, 1),
    (Refusal::NodeCount, 2),
    (Refusal::Closed, 3),
    (Refusal::Open, 4),
    (Refusal::NoNode, 5),
    (Refusal::Full, 6),
    (Refusal::SentBefore, 7),
    (Refusal::NotSent, 8),
    (Refusal::ReceivedBefore, 9),
    (Refusal::SameNode, 10),
    (Refusal::NoMessage, 11),
    (Refusal::BadName, 12),
    (Refusal::NameTaken, 13),
    (Refusal::OperationsFull, 14),
    (Refusal::PlaceCount, 15),
    (Refusal::NoEvent, 16),
    (Refusal::NoOperation, 17),
    (Refusal::ShortRow, 18),
    (Refusal::BadSelector, 19),
];

#[test]
fn numbers(rt: HostRuntime) {
    for (refusal, number) in &NUMBERS {
        assert!(rt; u8::from(*refusal) == *number);
    }
}

#[test]
fn on_rows(rt: HostRuntime) {
    limits::<RowClock, RowClock>(&rt);
    abandoned::<RowClock, RowClock>(&rt);
    arrivals::<RowClock, RowClock>(&rt);
    stamps::<RowClock, RowClock>(&rt);
}

#[test]
fn on_links(rt: HostRuntime) {
    limits::<LinkClock, LinkClock>(&rt);
    abandoned::<LinkClock, LinkClock>(&rt);
    arrivals::<LinkClock, LinkClock>(&rt);
    stamps::<LinkClock, LinkClock>(&rt);
}

#[test]
fn on_both(rt: HostRuntime) {
    abandoned::<LinkClock, RowClock>(&rt);
    arrivals::<RowClock, LinkClock>(&rt);
    stamps::<RowClock, LinkClock>(&rt);
}
