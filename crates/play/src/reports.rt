//! The call that a line spells, and what is reported of it.

ghost use Rattle.correlator.specs.Told.{history};
ghost use Rattle.history.specs.Answers.{Obeys};
ghost use Rattle.play.specs.Reports.{Tells, call_of};

use causality::CausalOrder;
use clock::Clock;
use correlator::Correlator;
use history::Refusal;
use line_forms::Line;

/// What a line of the output tells: the order of two events or a refusal, or nothing.
pub type Report = Result<Option<CausalOrder>, Refusal>;

/// Makes the call that a line spells; answers what is to be reported of it.
pub fn answer<F: Clock, R: Clock>(c: &mut Correlator<F, R>, line: Line) -> Report
    ensures { Obeys (history c.old) (call_of line) result (Tells (history c.old) line) (history c.new) }
{
    match line {
        Line::Nodes(n) => c.start(n).map(|()| None),
        Line::Local(a) => c.local(a).map(|_| None),
        Line::Send(a, m) => c.send(a, m).map(|_| None),
        Line::Receive(a, m) => c.receive(a, m).map(|_| None),
        Line::Meet(a, b) => c.meet(a, b).map(|_| None),
        Line::Order(p, q) => c.order(p, q).map(Some),
    }
}
