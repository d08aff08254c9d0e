//! Histories with equal columns answer alike, whatever the order in which their events arrived.
//!
//! The definitions and statements are in `specs/`: start with `Agreement.antt`. Each theorem is the contract of a function
//! that does nothing, so that the crate is proved only if the theorem is.
#![tactic(auto)]

ghost use Rattle.agreement.specs.Agreement.{OrdersAgree, RelationsAgree, StampsAgree, CutsAgree};
ghost use Rattle.agreement.specs.Worked.{WorkedAnswers};

/// Equal columns: two places are ordered alike, or refused alike.
pub fn orders_agree()
    ensures { OrdersAgree }
{}

/// Equal columns of closed traces: operations at the same places are related alike, with the same steps, or refused alike.
pub fn relations_agree()
    ensures { RelationsAgree }
{}

/// Equal columns, both traces open or neither: a timestamp leaves the same row.
pub fn stamps_agree()
    ensures { StampsAgree }
{}

/// Equal columns of closed traces: a cut of operations at the same places leaves the same row.
pub fn cuts_agree()
    ensures { CutsAgree }
{}

/// What a worked job of three nodes answers, from the calls that record it.
pub fn worked_answers()
    ensures { WorkedAnswers }
{}
