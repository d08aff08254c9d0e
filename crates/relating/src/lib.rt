//! The six relations between two sets of events, answered by walks over nodes that stop where they are decided.
//!
//! The definitions and statements are in `specs/`: start with `Walks.antt`. Each theorem is the contract of a function that
//! does nothing, so that the crate is proved only if the theorem is.
#![tactic(auto)]

ghost use Rattle.relating.specs.Worked.{WorkedWalks};
ghost use Rattle.relating.specs.Walks.{WalksDecide, StepsRanked, WalksRelated, OneAnswer};
ghost use Rattle.relating.specs.Agreements.{WalksAgree};

/// The verdict of each walk is the relation, over all pairs of members.
pub fn walks_decide()
    ensures { WalksDecide }
{}

/// The steps of a walk are the rank of the comparison that decided it, or all comparisons if none did.
pub fn steps_ranked()
    ensures { StepsRanked }
{}

/// A walk gives the verdict and the steps that the relation asks for.
pub fn walks_related()
    ensures { WalksRelated }
{}

/// No relation has two answers.
pub fn one_answer()
    ensures { OneAnswer }
{}

/// Equal columns and sets of the same places give the same answers, whatever the order of arrival.
pub fn walks_agree()
    ensures { WalksAgree }
{}

/// What the walks answer on the worked trace.
pub fn worked_walks()
    ensures { WorkedWalks }
{}
