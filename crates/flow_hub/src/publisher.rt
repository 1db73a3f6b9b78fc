//! The calls of the thread that answers.
ghost use Rattle.std.specs.Prelude.{◌≡◌, ◌<◌, ◌≤◌, ◌++◌, true, false, [], length, IfErr, OnOk};
ghost use Rattle.std.specs.Vec.{vec_capacity};
ghost use Rattle.flow_hub.specs.Knowing.{IsBefore, IsHistory, IsSamePart};
ghost use Rattle.flow_queues.specs.Posting.{HasStill, IsOnce, names_of};
ghost use Rattle.flow_hub.specs.Publishing.{Answers, HasTaken, HasPublished, HasRefused, HasPosted, HasSkipped, HasEnded, IsFresh, IsAllTaken, IsDone, TakesAll, left_on};
ghost use Rattle.flow_hub.specs.Seating.{IsPublishers};

use crate::feed::Feed;
use crate::hub::{Shared, shared_in};
use crate::seats::{Pass, Room};
use crate::submitter::Submitter;
use flow_base::code::Code;
use flow_base::fault::Fault;
use flow_base::submission::{Receipt, Taken};
use flow_base::task::Posted;
use flow_commit::board::Board;
use flow_commit::stamp::Stamp;
use flow_queues::over::Over;
use flow_queues::posting::{Keys, let_go};
use std::alloc::{AllocError, Global};
use std::collections::BTreeSet;
use std::marker::Model;
use std::sync::{Arc, Wait};

/// Takes what was submitted to a hub, and answers it. A hub has one. To a contract it is what it knows of the hub: of what it
/// alone changes, all.
#[derive(Drop)]
pub struct Publisher<B: Room> {
    alloc: Global,
    shared: Arc<Shared<B>>,
    seat: Pass<B>,
    /// The keys of what it has posted, but for those of runs that are gone.
    keys: Keys,
    /// The runs that are gone: of these it posts nothing any more.
    gone: Over,
}

impl<B: Room> Model for Publisher<B> {
    ghost use Rattle.flow_hub.specs.declared.known.HubFacts.{HubFacts};
    ghost use Rattle.flow_hub.specs.Knowing.{known_code};
    ghost use Rattle.flow_hub.specs.Publishing.{HasRest};
    ghost use Rattle.flow_hub.specs.Seating.{IsPublishers};

    ghost Value = { HubFacts };

    ghost coded = { known_code };

    ghost view = { λ p. p.seat.was };

    ghost invariant = { λ p. IsPublishers p.seat × HasRest p.keys p.gone p.seat.was };
}

/// Waits until something is there to be taken, or nothing will come.
fn taken<B: Room, R: Wait>(
    rt: &R,
    shared: &Shared<B>,
    seat: Pass<B>,
    into: &mut Vec<Taken>,
    most: usize,
) -> (Pass<B>, bool)
    requires seat { IsPublishers seat }
    requires most { 1 ≤ most }
    requires room { (into.old.items ≡ []) × (most ≤ vec_capacity into.old) }
    ensures seen { HasTaken seat.was result.0.was into.new.items }
    ensures count { (length into.new.items ≤ most) × (vec_capacity into.new ≡ vec_capacity into.old) }
    ensures some { result.1 ≡ true → 0 < length into.new.items }
    ensures none { result.1 ≡ false → (into.new.items ≡ []) × IsDone result.0.was }
    ensures all { length into.new.items < most → IsAllTaken result.0.was }
    ensures whole { TakesAll most seat.was result.0.was }
    ensures seat { IsPublishers result.0 }
    ensures grows { IsBefore seat.was result.0.was }
{
    let mut me = seat;
    let mut state = shared.lock(rt);
    for _ in rt.forever() {
        me = state.take(&shared.seats, me, into, most);
        if !into.is_empty() {
            return (me, true);
        }
        if state.is_closed() {
            return (me, false);
        }
        state = shared.waits.asked.wait(rt, state);
    }
    unreachable!()
}

impl<B: Room> Publisher<B> {
    pub(crate) fn over(alloc: Global, shared: Arc<Shared<B>>, seat: Pass<B>) -> Publisher<B>
        requires seat { IsPublishers seat }
        requires none { seat.was.posted ≡ [] }
        requires gone { seat.was.gone ≡ [] }
        ensures { result ≡ seat.was }
    {
        Publisher {
            alloc,
            shared,
            seat,
            keys: BTreeSet::new(alloc),
            gone: Over::new(alloc),
        }
    }

    /// Waits until something waits, and moves 1 to `most` of it into an empty list with that room, in the order of submission: all
    /// that waits then, or `most`. False: the hub is closed, and nothing waits. By the caller's condition a board was posted or skipped since the hub was made and
    /// since what was taken last was answered, so that what is ready is given out before more is done.
    pub fn take<R: Wait>(&mut self, rt: &R, into: &mut Vec<Taken>, most: usize) -> bool
        requires boarded { self.old.boarded ≡ true }
        requires most { (1 ≤ most) × (most ≤ 64) }
        requires room { (into.old.items ≡ []) × (most ≤ vec_capacity into.old) }
        ensures taken { HasTaken self.old self.new into.new.items }
        ensures count { (length into.new.items ≤ most) × (vec_capacity into.new ≡ vec_capacity into.old) }
        ensures some { result ≡ true → 0 < length into.new.items }
        ensures none { result ≡ false → (into.new.items ≡ []) × IsDone self.new }
        ensures all { length into.new.items < most → IsAllTaken self.new }
        ensures whole { TakesAll most self.old self.new }
        ensures grows { IsBefore self.old self.new }
    {
        let shared = shared_in(&self.shared);
        let me = shared.seats.leave(&mut self.seat);
        let (me, some) = taken(rt, shared, me, into, most);
        self.seat = me;
        some
    }

    /// Answers all that was taken, by the receipts of a stamp. The keys of the runs that the stamp names as closed are let go of, and of
    /// these runs nothing is posted any more.
    ///
    /// # Failure
    /// E01: all is answered, and the keys of some of these runs stay where they are.
    pub fn publish<R: Wait>(
        &mut self,
        rt: &R,
        receipts: Vec<Receipt>,
        stamp: Stamp,
    ) -> Result<(), AllocError>
        requires answers { Answers self.old stamp receipts.items }
        ensures published { HasPublished self.old self.new stamp receipts.items }
        ensures gone { OnOk result (self.new.gone ≡ self.old.gone ++ stamp.closed) }
        ensures legal { IsHistory self.new }
        ensures grows { IsBefore self.old self.new }
    {
        let (count, let_go_of) = let_go(&mut self.keys, &mut self.gone, stamp.closed());
        let shared = shared_in(&self.shared);
        let me = shared.seats.leave(&mut self.seat);
        let (me, wake) = shared
            .lock(rt)
            .publish(&shared.seats, me, receipts, stamp, count);
        self.seat = me;
        shared.waits.wake_answered(wake);
        let_go_of
    }

    /// Answers all that was taken by a code.
    pub fn refuse<R: Wait>(&mut self, rt: &R, all: Vec<Taken>, code: Code)
        requires all { all.items ≡ self.old.held }
        ensures refused { HasRefused self.old self.new all.items code }
        ensures grows { IsBefore self.old self.new }
    {
        let shared = shared_in(&self.shared);
        let me = shared.seats.leave(&mut self.seat);
        let (me, wake) = shared.lock(rt).refuse(&shared.seats, me, all, code);
        self.seat = me;
        shared.waits.wake_answered(wake);
    }

    /// Posts those of a board's tasks that it hasn't posted before and that are of no run that is gone, for those who give them out, and
    /// what the board says beside. By the caller's condition the board was made after all that is published, when these tasks were
    /// posted. So none is posted twice, whatever the board names; and if it names nothing of a run that is gone, none is left out.
    ///
    /// # Failure
    /// E01: nothing is posted, and the board comes back.
    pub fn post<R: Wait>(&mut self, rt: &R, board: Board) -> Result<(), (Board, AllocError)>
        requires fresh { IsFresh self.old board }
        ensures posted { OnOk result (names_of self.old.gone board.tasks ≡ false → HasPosted self.old self.new board) }
        ensures left { OnOk result (HasPosted self.old self.new (left_on self.old board)) }
        ensures refused { IfErr result (λ e. (e.0 ≡ board) × IsSamePart self.old self.new) }
        ensures once { IsOnce self.new.posted }
        ensures grows { IsBefore self.old self.new }
    {
        let shared = shared_in(&self.shared);
        let me = shared.seats.leave(&mut self.seat);
        let (me, answer) = shared.lock(rt).post(
            self.alloc,
            &shared.seats,
            me,
            &mut self.keys,
            &self.gone,
            board,
        );
        self.seat = me;
        match answer {
            Ok(wake) => {
                shared.waits.wake_by_board(wake);
                Ok(())
            }
            Err(refused) => Err(refused),
        }
    }

    /// The keys of what it has posted and may come on a board again: of all but what is of runs that are gone, of which it has none.
    pub fn posted(&self) -> &BTreeSet<Posted>
        ensures { HasStill self.now.gone result.now self.now.posted }
    {
        &self.keys
    }

    /// There is no board this time, for this fault, which stays known. It is the fault itself and no code, since nobody makes up an E01.
    pub fn skip<R: Wait>(&mut self, rt: &R, fault: &Fault)
        ensures skipped { HasSkipped self.old self.new fault.now }
        ensures grows { IsBefore self.old self.new }
    {
        let shared = shared_in(&self.shared);
        let me = shared.seats.leave(&mut self.seat);
        let (me, wake) = shared.lock(rt).skip(&shared.seats, me, fault);
        self.seat = me;
        shared.waits.wake_giver(wake);
    }

    /// Nothing more is taken in, and what waits is still taken. That it was the publisher who has closed it stays known.
    pub fn close<R: Wait>(&mut self, rt: &R)
        ensures closed { self.new.closed ≡ true }
        ensures ended { HasEnded self.old self.new }
        ensures grows { IsBefore self.old self.new }
    {
        let shared = shared_in(&self.shared);
        let me = shared.seats.leave(&mut self.seat);
        let (me, wake) = shared.lock(rt).end(&shared.seats, me);
        self.seat = me;
        shared.waits.wake_all(wake);
    }

    /// Takes back a submitter, and whoever gave tasks out. What they have seen is a beginning of what is so now.
    pub fn meet<R: Wait>(&mut self, rt: &R, submitter: Submitter<B>, feed: Feed<B>)
        ensures submitter { IsBefore submitter.was self.new }
        ensures feed { IsBefore feed self.new }
        ensures part { IsSamePart self.old self.new }
        ensures grows { IsBefore self.old self.new }
    {
        let shared = shared_in(&self.shared);
        let me = shared.seats.leave(&mut self.seat);
        self.seat = shared
            .lock(rt)
            .meet(&shared.seats, me, submitter.into_seat(), feed.into_seat());
    }

    /// Lets go of it, and closes nothing: what waits then is answered by nobody.
    pub fn leave(self) {}
}
