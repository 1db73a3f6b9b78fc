//! What is known of positions that are kept beside a book that goes on.
ghost use Rattle.flow_machine.specs.Reached.{FirstTurnReaches, ReachedStands, ReachedStays, ReachedStaysAfter, StandingIsReached, TurnReaches};

/// A position that a run has reached it has reached for good; so one that is kept needs no look at what came since but at the
/// number of events.
pub fn reached_stays()
    ensures changes { ReachedStays }
    ensures commands { ReachedStaysAfter }
    ensures stands { ReachedStands }
{}

/// A position is reached where a whole history stands, and where a recorded turn leads from there.
pub fn turns_reach()
    ensures standing { StandingIsReached }
    ensures turn { TurnReaches }
    ensures first { FirstTurnReaches }
{}
