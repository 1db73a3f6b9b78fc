//! Who gives the tasks out that are posted.
ghost use Rattle.std.specs.Prelude.{◌≡◌, true, IfNone, MatchOption};
ghost use Rattle.flow_hub.specs.Ending.{EndsAt};
ghost use Rattle.flow_hub.specs.Feeding.{HasFed, HasGiven, IsLast};
ghost use Rattle.flow_hub.specs.Knowing.{IsBefore};
ghost use Rattle.flow_hub.specs.Seating.{IsGivers};

use crate::fed::{Fed, Until};
use crate::hub::{Shared, shared_in};
use crate::seats::{Pass, Room};
use flow_base::task::Task;
use std::marker::Model;
use std::sync::{Arc, Wait};

/// Gives the tasks out that are posted, in their order. A hub has one. To a contract it is what it knows of the hub: of what was
/// given out, all.
#[derive(Drop)]
pub struct Feed<B: Room> {
    shared: Arc<Shared<B>>,
    seat: Pass<B>,
}

impl<B: Room> Model for Feed<B> {
    ghost use Rattle.flow_hub.specs.declared.known.HubFacts.{HubFacts};
    ghost use Rattle.flow_hub.specs.Knowing.{known_code};
    ghost use Rattle.flow_hub.specs.Seating.{IsGivers};

    ghost Value = { HubFacts };

    ghost coded = { known_code };

    ghost view = { λ f. f.seat.was };

    ghost invariant = { λ f. IsGivers f.seat };
}

/// Waits for the next task.
fn given<B: Room, R: Wait>(
    rt: &R,
    shared: &Shared<B>,
    seat: Pass<B>,
    until: Until,
) -> (Pass<B>, Fed)
    requires seat { IsGivers seat }
    ensures fed { HasFed seat.was result.0.was result.1 }
    ensures ends { EndsAt until result.0.was result.1 }
    ensures seat { IsGivers result.0 }
    ensures grows { IsBefore seat.was result.0.was }
{
    let mut me = seat;
    let mut state = shared.lock(rt);
    for _ in rt.forever() {
        let (seen, task) = state.give(&shared.seats, me);
        me = seen;
        if let Some(task) = task {
            return (me, Fed::Task(task));
        }
        if state.is_closed() {
            return (me, Fed::Closed);
        }
        if state.has_come(until) {
            return (me, Fed::Nothing);
        }
        state = shared.waits.posted.wait(rt, state);
    }
    unreachable!()
}

impl<B: Room> Feed<B> {
    pub(crate) fn over(shared: Arc<Shared<B>>, seat: Pass<B>) -> Feed<B>
        requires { IsGivers seat }
        ensures { result ≡ seat.was }
    {
        Feed { shared, seat }
    }

    /// Its seat. It lets go of the rest.
    pub(crate) fn into_seat(self) -> Pass<B>
        ensures { result.was ≡ self }
    {
        let Feed { shared: _, seat } = self;
        seat
    }

    /// Waits for the next task. None where the hub is closed.
    pub fn next<R: Wait>(&mut self, rt: &R) -> Option<Task>
        ensures given { HasGiven self.old self.new result }
        ensures none { IfNone result (self.new.closed ≡ true) }
        ensures grows { IsBefore self.old self.new }
    {
        let shared = shared_in(&self.shared);
        let me = shared.seats.leave(&mut self.seat);
        let (me, fed) = given(rt, shared, me, Until::There);
        self.seat = me;
        match fed {
            Fed::Task(task) => Some(task),
            Fed::Nothing => unreachable!(),
            Fed::Closed => None,
        }
    }

    /// Waits for the next task, or until somebody rings (`Hub::ring`). A task goes first, and one ring ends one wait.
    pub fn listen<R: Wait>(&mut self, rt: &R) -> Fed
        ensures fed { HasFed self.old self.new result }
        ensures grows { IsBefore self.old self.new }
    {
        let shared = shared_in(&self.shared);
        let me = shared.seats.leave(&mut self.seat);
        let (me, fed) = given(rt, shared, me, Until::Rung);
        self.seat = me;
        fed
    }

    /// The next task, or none where all is given out and a board was posted or skipped since what was taken last was answered: for
    /// that it waits. So behind the last answer it gives what is to be done then.
    pub fn last<R: Wait>(&mut self, rt: &R) -> Fed
        ensures fed { HasFed self.old self.new result }
        ensures last { IsLast self.new result }
        ensures grows { IsBefore self.old self.new }
    {
        let shared = shared_in(&self.shared);
        let me = shared.seats.leave(&mut self.seat);
        let (me, fed) = given(rt, shared, me, Until::Boarded);
        self.seat = me;
        fed
    }
}
