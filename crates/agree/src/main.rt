//! The worked job in two orders of arrival, each run on every pair of clocks: the program prints how many answers differ from
//! those of the job, by hand.
#![tactic(auto)]

use causality::{CausalOrder, Place};
use clock::Clock;
use counting::NO_ROW;
use history::Refusal;
use link_clock::LinkClock;
use promise::{Answer, Lent, Request, Short, Value, run_both};
use row_clock::RowClock;
use std::io;

/// How many calls tell the job, and how many ask about it.
const TOLD: usize = 10;

const ASKED: usize = 11;

const CALLS: usize = TOLD + ASKED;

/// Three nodes, an overtaking message and a meet, as they arrived.
const ARRIVED: [Request; TOLD] = [
    Request::Start(3),
    Request::Local(1),
    Request::Send(1, 7),
    Request::Send(2, 8),
    Request::Receive(3, 7),
    Request::Receive(3, 8),
    Request::Meet(2, 3),
    Request::Local(1),
    Request::Local(3),
    Request::Close,
];

/// The same job as it arrived at another time.
const REARRIVED: [Request; TOLD] = [
    Request::Start(3),
    Request::Send(2, 8),
    Request::Local(1),
    Request::Send(1, 7),
    Request::Local(1),
    Request::Receive(3, 7),
    Request::Receive(3, 8),
    Request::Meet(3, 2),
    Request::Local(3),
    Request::Close,
];

/// A row of three numbers.
const LENT: Lent = Lent {
    row: NO_ROW,
    len: 3,
};

/// Questions of every kind, some of them refused.
const QUESTIONS: [Request; ASKED] = [
    Request::Local(1),
    Request::Order(Place { node: 1, index: 3 }, Place { node: 3, index: 4 }),
    Request::Order(Place { node: 2, index: 2 }, Place { node: 3, index: 3 }),
    Request::Order(Place { node: 1, index: 2 }, Place { node: 3, index: 4 }),
    Request::Order(Place { node: 3, index: 1 }, Place { node: 1, index: 1 }),
    Request::Order(Place { node: 2, index: 3 }, Place { node: 1, index: 1 }),
    Request::Stamp(Place { node: 3, index: 2 }, 1, LENT),
    Request::Stamp(Place { node: 2, index: 2 }, 1, LENT),
    Request::Stamp(Place { node: 2, index: 1 }, 2, LENT),
    Request::Stamp(Place { node: 1, index: 2 }, 2, LENT),
    Request::Stamp(Place { node: 1, index: 2 }, 3, LENT),
];

const UNANSWERED: Answer = Answer {
    result: Err(Refusal::Idle),
    row: None,
};

// The calls that tell a job, and then the questions.
fn calls(told: &[Request; TOLD]) -> [Request; CALLS] {
    let mut all = [Request::Close; CALLS];
    all[..TOLD].copy_from_slice(told);
    all[TOLD..].copy_from_slice(&QUESTIONS);
    all
}

fn refused(refusal: Refusal) -> Answer {
    Answer::from(Err(refusal))
}

fn ordered(order: CausalOrder) -> Answer {
    Answer::from(Ok(Value::Ordered(order)))
}

fn stamped(counts: [u16; 3]) -> Answer {
    let mut row = NO_ROW;
    row.counts[..3].copy_from_slice(&counts);
    Answer {
        result: Ok(Value::Done),
        row: Some(row),
    }
}

// A stamp that is refused leaves its row as it was.
fn unstamped(refusal: Refusal) -> Answer {
    Answer {
        result: Err(refusal),
        row: Some(NO_ROW),
    }
}

// What the worked job answers, worked out by hand from its links.
fn wanted() -> [Answer; ASKED] {
    [
        refused(Refusal::Closed),
        ordered(CausalOrder::Concurrent),
        ordered(CausalOrder::Same),
        ordered(CausalOrder::Before),
        ordered(CausalOrder::After),
        refused(Refusal::NoEvent),
        stamped([2, 1, 2]),
        stamped([2, 2, 3]),
        stamped([0, 2, 3]),
        stamped([2, 1, 4]),
        unstamped(Refusal::BadSelector),
    ]
}

// How many questions one of the two runs does not answer as it should.
fn differing<F: Clock + Drop, R: Clock + Drop, G: Clock + Drop, S: Clock + Drop>(
    first: &[Request; CALLS],
    second: &[Request; CALLS],
) -> usize {
    let mut answers = [UNANSWERED; CALLS];
    let mut others = [UNANSWERED; CALLS];
    match run_both::<F, R, G, S>(first, second, &mut answers, &mut others) {
        Err(Short) => ASKED,
        Ok(()) => answers[TOLD..]
            .iter()
            .zip(&others[TOLD..])
            .zip(&wanted())
            .filter(|((a, b), wanted)| a != wanted || b != wanted)
            .count(),
    }
}

// The same for one pair of clocks against each pair.
fn against_all<F: Clock + Drop, R: Clock + Drop>(
    first: &[Request; CALLS],
    second: &[Request; CALLS],
) -> [usize; 4] {
    [
        differing::<F, R, RowClock, RowClock>(first, second),
        differing::<F, R, RowClock, LinkClock>(first, second),
        differing::<F, R, LinkClock, RowClock>(first, second),
        differing::<F, R, LinkClock, LinkClock>(first, second),
    ]
}

fn main(rt: HostRuntime) -> io::Result<()> {
    let first = calls(&ARRIVED);
    let second = calls(&REARRIVED);
    let counts = [
        against_all::<RowClock, RowClock>(&first, &second),
        against_all::<RowClock, LinkClock>(&first, &second),
        against_all::<LinkClock, RowClock>(&first, &second),
        against_all::<LinkClock, LinkClock>(&first, &second),
    ];
    for row in &counts {
        let [a, b, c, d] = *row;
        println!(rt; "questions={ASKED} differing={a},{b},{c},{d}")?;
    }
    Ok(())
}
