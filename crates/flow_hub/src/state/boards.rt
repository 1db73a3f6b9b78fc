//! What the locked state does with boards and with the tasks that are posted.
ghost use Rattle.std.specs.Prelude.{◌≡◌, ◌⊎◌, false, true, ◌∷◌, ◌++◌, length, IfSome, IfErr, IfNone, IsErr, OnOk, OnErr, MatchOption, None, Some, IsTrue};
ghost use mathlib.Core.List.{IsPrefix};
ghost use Rattle.flow_hub.specs.Halls.{posted_on, skipped, gave, rings, hears, looks};
ghost use Rattle.flow_hub.specs.Knowing.{IsBefore, IsSamePart, answered_in, nothing};
ghost use Rattle.flow_queues.specs.Posting.{IsOnce, apart_of, names_of};
ghost use Rattle.flow_hub.specs.Publishing.{HasPosted, HasRest, HasSkipped, left_on};
ghost use Rattle.flow_hub.specs.Ending.{HasCome, IsAwaited};
ghost use Rattle.flow_hub.specs.Feeding.{HasGiven, IsIdle, IsRested, due_in};
ghost use Rattle.flow_hub.specs.Seating.{seeing, IsGivers, IsPublishers, IsSubmitters};

use super::{Rung, State};
use crate::fed::Until;
use crate::known::BoardSummary;
use crate::rested::Rested;
use crate::seats::{HubTable, Pass, Room};
use crate::waits::{WakeByBoard, WakeGiver};
use flow_base::fault::Fault;
use flow_base::number::Moment;
use flow_base::task::Task;
use flow_commit::board::Board;
use flow_queues::over::Over;
use flow_queues::posting::{Keys, add_all, push_marked};
use std::alloc::{AllocError, Global};

impl<B: Room> State<B> {
    /// Posts those of the board's tasks that weren't posted before and are of no run that is gone, and joins their keys to those of what
    /// was: whoever waits for a board is to be woken. If room for them is refused the board comes back, and nothing is posted.
    pub(crate) fn post(
        &mut self,
        alloc: Global,
        seats: &HubTable<B>,
        me: Pass<B>,
        keys: &mut Keys,
        gone: &Over,
        board: Board,
    ) -> (Pass<B>, Result<WakeByBoard, (Board, AllocError)>)
        requires seat { IsPublishers me }
        requires keys { HasRest keys.old gone.now me.was }
        ensures posted { OnOk result.1 (self.new ≡ posted_on self.old (apart_of self.old.known.gone board.tasks)
            (record { due = board.due; open_runs = board.open_runs })) }
        ensures refused { IfErr result.1 (λ e. (e.0 ≡ board) × (self.new ≡ self.old)) }
        ensures keys { HasRest keys.new gone.now result.0.was }
        ensures seat { result.0 ≡ seeing true false 0 self.new.known }
        ensures seen { OnOk result.1 (HasPosted me.was result.0.was (left_on me.was board)) }
        ensures whole { OnOk result.1 (names_of me.was.gone board.tasks ≡ false → HasPosted me.was result.0.was board) }
        ensures part { OnErr result.1 (IsSamePart me.was result.0.was) }
        ensures once { IsOnce result.0.was.posted }
        ensures grows { IsBefore me.was result.0.was }
    {
        let me = self.see(seats, me);
        if let Err(refused) = self.tasks.reserve(board.tasks().len()) {
            return (me, Err((board, refused)));
        }
        let marks = match add_all(alloc, keys, gone, board.tasks()) {
            Ok(marks) => marks,
            Err(refused) => return (me, Err((board, refused))),
        };
        let (tasks, due, open_runs) = board.into_parts();
        self.known
            .post(&tasks, &marks, BoardSummary { due, open_runs });
        let me = seats.tell(&mut self.keeper, me, self.places, self.places, &self.known);
        push_marked(&mut self.tasks, tasks, marks);
        (me, Ok(WakeByBoard::due()))
    }

    /// No board this time, for this fault.
    pub(crate) fn skip(
        &mut self,
        seats: &HubTable<B>,
        me: Pass<B>,
        fault: &Fault,
    ) -> (Pass<B>, WakeGiver)
        requires seat { IsPublishers me }
        ensures skipped { self.new ≡ skipped self.old fault.now }
        ensures seat { result.0 ≡ seeing true false 0 self.new.known }
        ensures seen { HasSkipped me.was result.0.was fault.now }
        ensures grows { IsBefore me.was result.0.was }
    {
        self.known.skip(fault);
        let seat = seats.tell(&mut self.keeper, me, self.places, self.places, &self.known);
        (seat, WakeGiver::due())
    }

    /// The seat that gives tasks out, where nobody has it yet.
    pub(crate) fn take_feed(&mut self) -> Option<Pass<B>>
        ensures same { self.new ≡ self.old }
        ensures seat { IfSome result (λ p. p ≡ seeing false true 0 nothing) }
    {
        self.feed.take()
    }

    /// The next task that waits, if one does and the hub isn't closed.
    pub(crate) fn give(&mut self, seats: &HubTable<B>, me: Pass<B>) -> (Pass<B>, Option<Task>)
        requires seat { IsGivers me }
        ensures given { MatchOption result.1 (self.new ≡ self.old)
            (λ t. (self.old.tasks ≡ t ∷ self.new.tasks) × (self.new ≡ gave self.old t self.new.tasks)) }
        ensures seat { result.0 ≡ seeing false true 0 self.new.known }
        ensures seen { HasGiven me.was result.0.was result.1 }
        ensures none { IfNone result.1 ((result.0.was.closed ≡ true) ⊎ (result.0.was.given ≡ result.0.was.posted)) }
        ensures grows { IsBefore me.was result.0.was }
    {
        if self.known.closed {
            return (self.see(seats, me), None);
        }
        let Some(task) = self.tasks.pop_front() else {
            return (self.see(seats, me), None);
        };
        self.known.give(&task);
        let me = seats.tell(&mut self.keeper, me, self.places, self.places, &self.known);
        (me, Some(task))
    }

    /// Somebody has something else for whoever gives tasks out.
    pub(crate) fn ring(&mut self) -> (Rung, WakeGiver)
        ensures { self.new ≡ rings self.old }
    {
        self.rung = true;
        (Rung { made: () }, WakeGiver::due())
    }

    /// Whether somebody rang since this was asked last.
    pub(crate) fn was_rung(&mut self) -> bool
        ensures rung { result ≡ self.old.rung }
        ensures heard { self.new ≡ hears self.old }
    {
        let rung = self.rung;
        self.rung = false;
        rung
    }

    /// Whether a board was posted or skipped since what was taken last was answered.
    pub(crate) fn is_boarded(&self) -> bool
        ensures { result ≡ self.now.known.boarded }
    {
        self.known.boarded
    }

    /// Whether that has come with which a wait for a task may end.
    pub(crate) fn has_come(&mut self, until: Until) -> bool
        ensures looks { self.new ≡ looks until self.old }
        ensures come { result ≡ true → HasCome until self.old.known }
        ensures awaited { result ≡ false → IsAwaited until self.old.known }
    {
        match until {
            Until::There => false,
            Until::Rung => self.was_rung(),
            Until::Boarded => self.is_boarded(),
        }
    }

    /// When more is to be done, as the last board says, if nothing was answered since.
    pub(crate) fn due(&mut self, seats: &HubTable<B>, me: Pass<B>) -> (Pass<B>, Option<Moment>)
        requires seat { IsSubmitters me }
        ensures same { self.new ≡ self.old }
        ensures due { result.1 ≡ due_in result.0.was }
        ensures seat { result.0 ≡ seeing false false me.owed self.new.known }
        ensures grows { IsBefore me.was result.0.was }
    {
        let me = self.see(seats, me);
        let Some(outlook) = self.known.outlook else {
            return (me, None);
        };
        (me, outlook.due)
    }

    /// Whether no board could be made since what was taken last was answered.
    pub(crate) fn has_no_board(&self) -> bool
        ensures none { result ≡ true → (self.now.known.boarded ≡ true) × (self.now.known.outlook ≡ None) }
        ensures some { result ≡ false → self.now.known.boarded ≡ true → self.now.known.outlook ≡ None → ⊥ }
    {
        if !self.known.boarded {
            return false;
        }
        self.known.outlook.is_none()
    }

    /// Whether all that was submitted is answered, and the board that was made then says that no run is open.
    pub(crate) fn is_idle(&mut self, seats: &HubTable<B>, me: Pass<B>) -> (Pass<B>, bool)
        requires seat { IsSubmitters me }
        ensures same { self.new ≡ self.old }
        ensures idle { result.1 ≡ true → IsIdle result.0.was }
        ensures busy { result.1 ≡ false → IsIdle result.0.was → ⊥ }
        ensures seat { result.0 ≡ seeing false false me.owed self.new.known }
        ensures grows { IsBefore me.was result.0.was }
    {
        let me = self.see(seats, me);
        let Some(outlook) = self.known.outlook else {
            return (me, false);
        };
        if outlook.open_runs != 0 {
            return (me, false);
        }
        if !self.waiting.is_empty() {
            return (me, false);
        }
        if self.held != 0 {
            return (me, false);
        }
        (me, true)
    }

    /// Whether nothing is left to be done, and what is if not.
    pub(crate) fn rest(&mut self, seats: &HubTable<B>, me: Pass<B>) -> (Pass<B>, Rested)
        requires seat { IsSubmitters me }
        ensures same { self.new ≡ self.old }
        ensures rested { IsRested result.0.was result.1 }
        ensures seat { result.0 ≡ seeing false false me.owed self.new.known }
        ensures grows { IsBefore me.was result.0.was }
    {
        let (me, idle) = self.is_idle(seats, me);
        if idle {
            return (me, Rested::Idle);
        }
        if self.known.closed {
            return (me, Rested::Closed);
        }
        (me, Rested::NotYet(self.known.outlook))
    }
}
