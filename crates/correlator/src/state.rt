//! What a correlator holds.

use crate::trace::Trace;
use clock::Clock;
use std::marker::Model;

pub mod closing;
pub mod events;
pub mod questions;

/// A correlator over a forward and a reverse clock. To its callers it is what it was told of the trace.
#[derive(Drop)]
pub struct Correlator<F: Clock, R: Clock> {
    trace: Trace,
    forward: F,
    reverse: R,
}

impl<F: Clock, R: Clock> Model for Correlator<F, R> {
    ghost use Rattle.correlator.specs.Told.{Told};
    ghost use Rattle.correlator.specs.Trace.{told};
    ghost use Rattle.correlator.specs.Sound.{Sound};

    ghost Value = { Told };

    ghost view = { λ c. told c.trace };

    ghost invariant = { λ c. Sound (F.Clock.means c.forward) (R.Clock.means c.reverse) c.trace };
}
