//! Calls performed one after another.

ghost use Rattle.correlator.specs.Told.{history};
ghost use Rattle.promise.specs.Promise.{Both};
ghost use Rattle.promise.specs.Requests.{Performed};
ghost use Rattle.promise.specs.Runs.{Run};
ghost use Rattle.promise.specs.declared.requests.Request.TheVariants.{Stamp};
ghost use Rattle.std.specs.Prelude.{◌≤◌, Ok, length};

use crate::requests::{Answer, Lent, Request, Value};
use causality::{MAX_NODES, Place};
use clock::Clock;
use correlator::Correlator;

/// The memory for the answers is shorter than the list of calls.
#[derive(Clone, Copy, PartialEq, Eq, Debug)]
pub struct Short;

/// Makes a call on a correlator.
pub fn perform<F: Clock, R: Clock>(c: &mut Correlator<F, R>, request: Request) -> Answer
    ensures { Performed (history c.old) request result (history c.new) }
{
    match request {
        Request::Start(n) => Answer::from(c.start(n).map(|()| Value::Done)),
        Request::Local(a) => Answer::from(c.local(a).map(Value::Placed)),
        Request::Send(a, m) => Answer::from(c.send(a, m).map(Value::Placed)),
        Request::Receive(a, m) => Answer::from(c.receive(a, m).map(Value::Placed)),
        Request::Meet(a, b) => Answer::from(c.meet(a, b).map(Value::Placed)),
        Request::Close => Answer::from(c.close().map(|()| Value::Done)),
        Request::Order(p, q) => Answer::from(c.order(p, q).map(Value::Ordered)),
        Request::Stamp(p, d, lent) => stamp(c, p, d, lent),
    }
}

// A timestamp, written into the lent row.
fn stamp<F: Clock, R: Clock>(c: &Correlator<F, R>, p: Place, d: u16, lent: Lent) -> Answer
    ensures { Performed (history c.now) (Stamp p d lent) result (history c.now) }
{
    let mut row = lent.row;
    let len = lent.len.min(MAX_NODES) as usize;
    let done = c.stamp(p, d, &mut row.counts[0..len]);
    Answer {
        result: done.map(|()| Value::Done),
        row: Some(row),
    }
}

/// Makes a correlator and performs the calls on it, one after another; each answer goes to the place of its call.
pub fn run<F: Clock + Drop, R: Clock + Drop>(
    requests: &[Request],
    answers: &mut [Answer],
) -> Result<(), Short>
    ensures { Run requests.now answers.old result answers.new }
{
    if answers.len() < requests.len() {
        return Err(Short);
    }
    perform_all::<F, R>(requests, answers);
    Ok(())
}

/// Makes two correlators on any four clocks and performs a list of calls on each.
pub fn run_both<F: Clock + Drop, R: Clock + Drop, G: Clock + Drop, S: Clock + Drop>(
    first: &[Request],
    second: &[Request],
    answers: &mut [Answer],
    others: &mut [Answer],
) -> Result<(), Short>
    ensures { Both first.now second.now answers.old others.old result answers.new others.new }
{
    if answers.len() < first.len() || others.len() < second.len() {
        return Err(Short);
    }
    perform_all::<F, R>(first, answers);
    perform_all::<G, S>(second, others);
    Ok(())
}

// Makes a correlator and performs the calls on it, where there is a place for each answer.
fn perform_all<F: Clock + Drop, R: Clock + Drop>(requests: &[Request], answers: &mut [Answer])
    requires { length requests.now ≤ length answers.old }
    ensures { Run requests.now answers.old (Ok tt) answers.new }
{
    let mut c = Correlator::<F, R>::new();
    for (k, request) in requests.iter().enumerate() {
        answers[k] = perform(&mut c, *request);
    }
}
