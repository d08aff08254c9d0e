//! Closing a trace: the reverse clock takes its events, from last to first.

ghost use Rattle.correlator.specs.Told.{history};
ghost use Rattle.history.specs.Answers.{Obeys};
ghost use Rattle.history.specs.Calls.{Call};

use super::Correlator;
use clock::Clock;
use feeding::feed_back;
use history::Refusal;

impl<F: Clock, R: Clock> Correlator<F, R> {
    /// Ends the trace: no more events come, and what happened after each is known.
    pub fn close(&mut self) -> Result<(), Refusal>
        ensures { Obeys (history self.old) Call.close result (λ _. Unit {0}) (history self.new) }
    {
        self.trace.check_open()?;
        feed_back(&mut self.reverse, &self.trace.events, &self.trace.sent);
        self.trace.close();
        Ok(())
    }
}
