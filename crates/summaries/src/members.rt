//! The members of an operation, each once.

ghost use Rattle.std.specs.Prelude.{◌≡◌, ◌+◌, ◌<◌, ◌≤◌, true, false, [], length, Some, MatchOption};
ghost use Rattle.arrayvec.specs.ArrayVec.{array_vec_len};
ghost use Rattle.history.specs.History.{some_unfound};
ghost use Rattle.summaries.specs.Places.{found_at, gathered, with_member};

use arrayvec::ArrayVec;
use causality::Place;
use clock::Clock;
use records::MAX_MEMBERS;

/// The numbers of member events, in the order in which their places were given.
pub type Members = ArrayVec<u16, MAX_MEMBERS>;

// Adds an event, unless it is a member.
fn add(members: &mut Members, event: u16)
    requires { array_vec_len members.old < 512 }
    ensures added { members.new.items ≡ with_member members.old.items (Some event) }
    ensures len { array_vec_len members.new ≤ array_vec_len members.old + 1 }
{
    if !members.contains(&event) {
        members.push(event);
    }
}

/// The events that a clock finds at the places, each once; none if a place has no event.
pub fn members_at<C: Clock>(clock: &C, places: &[Place]) -> Option<Members>
    requires { length places.now ≤ 512 }
    ensures { MatchOption result (some_unfound (found_at (C.Clock.means clock.now)) places.now ≡ true) (λ m. (some_unfound (found_at (C.Clock.means clock.now)) places.now ≡ false) × (m.items ≡ gathered (found_at (C.Clock.means clock.now)) [] places.now)) }
{
    let mut members = Members::new();
    for p in places {
        let event = clock.at(p.node, p.index)?;
        add(&mut members, event);
    }
    Some(members)
}
