//! What lies under the lock.
ghost use Rattle.std.specs.Prelude.{◌≡◌, ◌≢◌, ◌⊎◌, ◌+◌, ◌<◌, ◌≤◌, ◌^◌, [], ◌∷◌, ◌++◌, ℕ, length, true, false, All, Some, IfOk, IfErr, IfSome, IfNone, MatchOption, OnOk, OnErr, slice_get, remove, take};
ghost use Rattle.std.specs.Vec.{vec_capacity};
ghost use Rattle.flow_hub.specs.Asks.{Stands, IsOwn, IsGone, IsTold};
ghost use Rattle.flow_hub.specs.Knowing.{IsBefore, IsHistory, IsSamePart, answered_in, nothing};
ghost use Rattle.flow_hub.specs.Seating.{opener, seeing, IsSubmitters, IsPublishers};
ghost use Rattle.flow_hub.specs.Halls.{HandsOut, submitted, took, published, refused_all, fetched_receipt, fetched_refusal, enrolled, closed, ended, new_ask, unfetched};
ghost use Rattle.flow_hub.specs.Publishing.{Answers, HasTaken, HasPublished, HasRefused, HasEnded, IsAllTaken, IsDone, TakesAll};
ghost use Rattle.flow_hub.specs.Submitting.{HasTakenIn, IsFetched, IsOpen, IsDenied, IsSettled};
ghost use Rattle.flow_hub.specs.Waking.{Wakes};

mod boards;

use crate::denied::Denied;
use crate::hub::Closer;
use crate::known::HubFacts;
use crate::seats::{HubTable, Named, PARTS, Pass, Room};
use crate::settled::Settled;
use crate::unfetched::{refused_at, ticket_at};
use crate::waits::{WakeAll, WakeAnswered, WakeTaker, told_by, told_of};
use flow_base::code::Code;
use flow_base::command::Command;
use flow_base::submission::{Receipt, Taken};
use flow_base::task::Task;
use flow_commit::stamp::Stamp;
use flow_queues::queues::{move_front, place_of, push_receipts, refuse_all, take_receipt};
use flow_queues::refused::Refused;
use std::alloc::{AllocError, Global};
use std::collections::VecDeque;
use std::marker::Model;
use std::sync::ledger::{Book, Share};

/// The most submissions whose answer wasn't fetched.
pub(crate) const MOST: usize = 1024;

/// How many tickets a hub gives.
const TICKETS: u64 = 1 << 62;

/// That a hub has given all submitters that it has numbers for. Its field is this module's, and the locked state of such a hub alone
/// makes one: so no other body can say so.
#[derive(Clone, Copy, Debug, PartialEq, Eq)]
pub struct AllGiven {
    made: (),
}

/// That somebody rang for whoever gives tasks out. Its field is this module's, and the locked state alone makes one, so a call that gives
/// it has rung.
#[derive(Clone, Copy, Debug, PartialEq, Eq)]
pub struct Rung {
    made: (),
}

/// What lies under the lock: submissions by what became of them, each list with its room, and what is known of them.
#[derive(Drop)]
pub(crate) struct State<B: Room> {
    waiting: VecDeque<Taken>,
    /// Receipts that weren't fetched.
    answered: Vec<Receipt>,
    /// Refusals that weren't fetched.
    refused: Vec<Refused>,
    /// How many are taken.
    held: usize,
    /// How many tickets were given.
    given: u64,
    /// The length of the history.
    places: u64,
    /// How many were answered by a code.
    codes: u64,
    /// Tasks that were posted and not given out.
    tasks: VecDeque<Task>,
    /// Whether somebody rang for whoever gives tasks out, and wasn't heard yet.
    rung: bool,
    tickets: Book<B>,
    /// The ledger's parts of the submitters that were not given yet.
    spare: Share<B>,
    known: HubFacts,
    /// The seat that keeps.
    keeper: Pass<B>,
    /// The seat that gives tasks out, until somebody has it.
    feed: Option<Pass<B>>,
}

impl<B: Room> Model for State<B> {
    ghost use Rattle.std.specs.Prelude.{◌≡◌, ◌≤◌, ◌+◌, ◌^◌, length, true, false, IfSome};
    ghost use Rattle.std.specs.Vec.{vec_capacity, vec_len};
    ghost use Rattle.std.specs.VecDeque.{deque_capacity, deque_len};
    ghost use Rattle.flow_hub.specs.Halls.{Hall, IsSound, hall_code};
    ghost use Rattle.flow_hub.specs.Knowing.{nothing};
    ghost use Rattle.flow_hub.specs.Seating.{seeing, IsKeepers};

    ghost Value = { Hall };

    ghost coded = { hall_code };

    ghost view = { λ s. record { known = s.known; waiting = s.waiting.items; answered = s.answered.items; refused = s.refused.items; given = s.given; shares = s.tickets.total; tasks = s.tasks.items; rung = s.rung } };

    ghost invariant = { λ s. IsSound (record { known = s.known; waiting = s.waiting.items; answered = s.answered.items; refused = s.refused.items; given = s.given; shares = s.tickets.total; tasks = s.tasks.items; rung = s.rung })
        × (s.held ≡ length s.known.held) × (s.places ≡ length s.known.history) × (s.codes ≡ length s.known.refused)
        × (1024 ≤ deque_capacity s.waiting) × (1024 ≤ vec_capacity s.answered) × (1024 ≤ vec_capacity s.refused)
        × (deque_len s.waiting + s.held + vec_len s.answered + vec_len s.refused ≤ 1024) × (s.given ≤ 2 ^ 62)
        × (s.spare.amount ≡ 0) × (s.spare.parts + s.known.members ≡ 2 ^ 62) × (B.parts ≡ 2 ^ 62)
        × IsKeepers s.keeper × (s.keeper.all ≡ s.known) × IfSome s.feed (λ p. p ≡ seeing false true 0 nothing) };
}

impl<B: Room> State<B> {
    /// A hub to which nothing was submitted, and its publisher's seat. All room is asked for here.
    pub(crate) fn new(
        alloc: Global,
        named: Named<B>,
    ) -> Result<(HubTable<B>, State<B>, Pass<B>), AllocError>
        requires seat { named.seat ≡ opener }
        requires tickets { named.tickets.total ≡ 0 }
        requires share { (named.share.parts ≡ 2 ^ 62) × (named.share.amount ≡ 0) }
        requires parts { B.parts ≡ 2 ^ 62 }
        ensures seat { IfOk result (λ r. r.2 ≡ seeing true false 0 nothing) }
        ensures empty { IfOk result (λ r. r.1 ≡ record { known = nothing; waiting = []; answered = []; refused = []; given = 0; shares = 0; tasks = []; rung = false }) }
    {
        let Named {
            seats,
            seat,
            tickets,
            share,
        } = named;
        let mut keeper = seat;
        let waiting = VecDeque::with_capacity(alloc, MOST)?;
        let answered = Vec::with_capacity(alloc, MOST)?;
        let refused = Vec::with_capacity(alloc, MOST)?;
        let feed = seats.hands(&mut keeper);
        let publisher = seats.back(&mut keeper);
        let state = State {
            waiting,
            answered,
            refused,
            held: 0,
            given: 0,
            places: 0,
            codes: 0,
            tasks: VecDeque::new(alloc),
            rung: false,
            tickets,
            spare: share,
            known: HubFacts::new(),
            keeper,
            feed: Some(feed),
        };
        Ok((seats, state, publisher))
    }

    /// The seat sees what lies here, and nothing changes.
    fn see(&mut self, seats: &HubTable<B>, me: Pass<B>) -> Pass<B>
        ensures same { self.new ≡ self.old }
        ensures seat { result ≡ seeing me.pubs me.gives me.owed self.new.known }
        ensures before { IsBefore me.was result.was }
        ensures part { me.pubs ≡ true → IsSamePart me.was result.was }
        ensures given { me.gives ≡ true → me.was.given ≡ result.was.given }
    {
        seats.tell(&mut self.keeper, me, self.places, self.places, &self.known)
    }

    /// Three seats see what lies here, and the publisher's is left of them. Nothing changes.
    pub(crate) fn meet(
        &mut self,
        seats: &HubTable<B>,
        me: Pass<B>,
        submitter: Pass<B>,
        giver: Pass<B>,
    ) -> Pass<B>
        requires seat { IsPublishers me }
        ensures same { self.new ≡ self.old }
        ensures seat { result ≡ seeing true false 0 self.new.known }
        ensures submitter { IsBefore submitter.was result.was }
        ensures giver { IsBefore giver.was result.was }
        ensures part { IsSamePart me.was result.was }
        ensures grows { IsBefore me.was result.was }
    {
        let _submitter = self.see(seats, submitter);
        let _giver = self.see(seats, giver);
        self.see(seats, me)
    }

    /// One more submitter: its number, the seat that has this number, the seat that sees, and its part of the ledger. None where as
    /// many were given as there are parts.
    pub(crate) fn enroll(
        &mut self,
        seats: &HubTable<B>,
    ) -> Option<(u64, Pass<B>, Pass<B>, Share<B>)>
        ensures enrolled { IfSome result (λ m. (m.0 ≡ self.old.known.members) × (self.new ≡ enrolled self.old)) }
        ensures badge { IfSome result (λ m. m.1.member ≡ Some m.0) }
        ensures seat { IfSome result (λ m. m.2 ≡ seeing false false 0 self.new.known) }
        ensures share { IfSome result (λ m. (m.3.parts ≡ 1) × (m.3.amount ≡ 0)) }
        ensures parts { B.parts ≡ 2 ^ 62 }
        ensures none { IfNone result ((self.new ≡ self.old) × (2 ^ 62 ≤ self.new.known.members)) }
    {
        let id = self.known.members;
        if id >= PARTS {
            return None;
        }
        self.known.members += 1;
        let share = self.spare.split_off(1, 0);
        let badge = seats.admit(&mut self.keeper, self.places, &self.known);
        let seat = seats.tell(
            &mut self.keeper,
            seats.enter(),
            self.places,
            self.places,
            &self.known,
        );
        Some((id, badge, seat, share))
    }

    /// That all submitters were given.
    pub(crate) fn all_given(&self) -> AllGiven
        requires { 2 ^ 62 ≤ self.now.known.members }
    {
        AllGiven { made: () }
    }

    /// Why no command is taken in.
    fn denied(&self) -> Option<Denied>
        ensures some { IfSome result (λ d. IsDenied self.now.known d) }
        ensures none { IfNone result (IsOpen self.now.known × (unfetched self.now < 1024)) }
    {
        if self.known.closed {
            return Some(Denied::HubClosed);
        }
        let unfetched = self.waiting.len() + self.held + self.answered.len() + self.refused.len();
        if unfetched >= MOST || self.given >= TICKETS {
            return Some(Denied::InboxFull);
        }
        None
    }

    /// The ticket, and whoever takes what waits is to be woken; or the command back.
    pub(crate) fn submit(
        &mut self,
        seats: &HubTable<B>,
        me: Pass<B>,
        mine: &mut Share<B>,
        command: Command,
    ) -> (Pass<B>, Result<(u64, WakeTaker), (Command, Denied)>)
        requires share { 0 < mine.old.parts }
        requires seat { IsSubmitters me }
        ensures ok { IfOk result.1 (λ t. (t.0 ≡ self.old.given) × (self.new ≡ submitted self.old command)
            × (mine.new.amount ≡ mine.old.amount + 1)) }
        ensures room { OnOk result.1 (IsOpen self.old.known × (unfetched self.old < 1024)) }
        ensures taken_in { OnOk result.1 (HasTakenIn result.0.was) }
        ensures err { IfErr result.1 (λ e. (e.0 ≡ command) × (self.new ≡ self.old) × (mine.new.amount ≡ mine.old.amount)
            × IsDenied self.old.known e.1) }
        ensures parts { mine.new.parts ≡ mine.old.parts }
        ensures seat { result.0 ≡ seeing false false result.0.owed self.new.known }
        ensures owed { OnOk result.1 ((result.0.owed ≡ me.owed + 1) × (me.owed < 1024)) }
        ensures owed_still { OnErr result.1 (result.0.owed ≡ me.owed) }
        ensures before { IsBefore me.was self.old.known }
        ensures grows { IsBefore me.was result.0.was }
        ensures ticket { IfOk result.1 (λ t. (length me.was.asked ≤ t.0) × (length result.0.was.asked ≡ t.0 + 1)
            × (slice_get result.0.was.asked t.0 ≡ Some (new_ask self.old command))) }
    {
        if let Some(denied) = self.denied() {
            return (self.see(seats, me), Err((command, denied)));
        }
        let ticket = self.given;
        let taken = Taken { ticket, command };
        self.known.ask(&taken);
        let me = seats.told(&mut self.keeper, me, self.places, self.places, &self.known);
        self.waiting.push_back_reserved(taken);
        self.tickets.add(mine, 1);
        self.given += 1;
        (me, Ok((ticket, WakeTaker::due())))
    }

    /// The first that wait, as many as there are, and `most` at most.
    pub(crate) fn take(
        &mut self,
        seats: &HubTable<B>,
        me: Pass<B>,
        into: &mut Vec<Taken>,
        most: usize,
    ) -> Pass<B>
        requires seat { IsPublishers me }
        requires most { 1 ≤ most }
        requires room { (into.old.items ≡ []) × (most ≤ vec_capacity into.old) }
        ensures taken { (self.old.waiting ≡ into.new.items ++ self.new.waiting)
            × (self.new ≡ took self.old into.new.items self.new.waiting) }
        ensures count { (length into.new.items ≤ most) × (vec_capacity into.new ≡ vec_capacity into.old) }
        ensures seat { result ≡ seeing true false 0 self.new.known }
        ensures seen { HasTaken me.was result.was into.new.items }
        ensures grows { IsBefore me.was result.was }
        ensures none { into.new.items ≡ [] → self.new.known.closed ≡ true → IsDone result.was }
        ensures all { length into.new.items < most → IsAllTaken result.was }
        ensures whole { TakesAll most me.was result.was }
    {
        move_front(&mut self.waiting, into, most);
        self.held += into.len();
        self.known.take(into, &self.waiting);
        seats.tell(&mut self.keeper, me, self.places, self.places, &self.known)
    }

    /// Answers all that was taken, and all who wait for that are to be woken; so many of the runs that the stamp names as closed are gone.
    /// What the publisher must show it shows of its own seat.
    pub(crate) fn publish(
        &mut self,
        seats: &HubTable<B>,
        me: Pass<B>,
        receipts: Vec<Receipt>,
        stamp: Stamp,
        count: usize,
    ) -> (Pass<B>, WakeAnswered)
        requires seat { IsPublishers me }
        requires answers { Answers me.was stamp receipts.items }
        ensures published { self.new ≡ published self.old stamp count receipts.items }
        ensures seat { result.0 ≡ seeing true false 0 self.new.known }
        ensures seen { HasPublished me.was result.0.was stamp receipts.items }
        ensures gone { result.0.was.gone ≡ me.was.gone ++ take count stamp.closed }
        ensures grows { IsBefore me.was result.0.was }
        ensures legal { IsHistory result.0.was }
        ensures wakes { All (λ r. Wakes result.1.told r.ticket) receipts.items }
    {
        let wake = told_by(receipts.as_slice());
        let old = self.places;
        // That the stamp is over what the last one was over the publisher has shown of what its seat knows.
        let seen = seats.tell(&mut self.keeper, me, old, old, &self.known);
        self.places += receipts.len() as u64;
        self.known.publish(&receipts, &stamp, count);
        stamp.spend();
        let me = seats.tell(&mut self.keeper, seen, old, self.places, &self.known);
        self.held = 0;
        push_receipts(&mut self.answered, receipts);
        (me, wake)
    }

    /// Answers all that was taken by a code, and all who wait for that are to be woken.
    pub(crate) fn refuse(
        &mut self,
        seats: &HubTable<B>,
        me: Pass<B>,
        all: Vec<Taken>,
        code: Code,
    ) -> (Pass<B>, WakeAnswered)
        requires seat { IsPublishers me }
        requires all { all.items ≡ me.was.held }
        ensures refused { self.new ≡ refused_all self.old code }
        ensures seat { result.0 ≡ seeing true false 0 self.new.known }
        ensures seen { HasRefused me.was result.0.was all.items code }
        ensures grows { IsBefore me.was result.0.was }
        ensures wakes { All (λ t. Wakes result.1.told t.ticket) all.items }
    {
        let wake = told_of(all.as_slice());
        self.codes += all.len() as u64;
        self.known.refuse(&all, code);
        let me = seats.tell(&mut self.keeper, me, self.places, self.places, &self.known);
        self.held = 0;
        refuse_all(&mut self.refused, all, code);
        (me, wake)
    }

    /// The receipt for a ticket, if it came. The answer is one that is owed to the seat.
    fn fetch_receipt(
        &mut self,
        seats: &HubTable<B>,
        me: Pass<B>,
        ticket: u64,
    ) -> (Pass<B>, Option<Receipt>)
        requires seat { IsSubmitters me }
        requires owed { 1 ≤ me.owed }
        ensures own { IfSome result.1 (λ r. (r.ticket ≡ ticket) × IsOwn result.0.was.asked r × Stands result.0.was.history r) }
        ensures legal { IfSome result.1 (λ r. IsHistory result.0.was) }
        ensures fetched { MatchOption result.1 (self.new ≡ self.old)
            (λ r. (k : ℕ) × (slice_get self.old.answered k ≡ Some r) × (self.new ≡ fetched_receipt self.old (remove self.old.answered k))) }
        ensures none { IfNone result.1 (All (λ r. r.ticket ≢ ticket) self.old.answered) }
        ensures one_more { IfSome result.1 (λ r. me.was.fetched < result.0.was.fetched) }
        ensures owed { MatchOption result.1 (result.0.owed ≡ me.owed) (λ r. result.0.owed + 1 ≡ me.owed) }
        ensures seat { IsSubmitters result.0 }
        ensures grows { IsBefore me.was result.0.was }
    {
        let Some(k) = ticket_at(self.answered.as_slice(), ticket) else {
            return (me, None);
        };
        let receipt = take_receipt(&mut self.answered, k);
        self.known.fetched += 1;
        let me = seats.told(&mut self.keeper, me, self.places, self.places, &self.known);
        (me, Some(receipt))
    }

    /// The refusal of a ticket, if it came.
    fn fetch_refusal(
        &mut self,
        seats: &HubTable<B>,
        me: Pass<B>,
        ticket: u64,
    ) -> (Pass<B>, Option<Refused>)
        requires seat { IsSubmitters me }
        requires owed { 1 ≤ me.owed }
        ensures own { IfSome result.1 (λ r. (r.asked.ticket ≡ ticket) × IsGone result.0.was.asked r × IsTold result.0.was.refused r) }
        ensures fetched { MatchOption result.1 (self.new ≡ self.old)
            (λ r. (k : ℕ) × (slice_get self.old.refused k ≡ Some r) × (self.new ≡ fetched_refusal self.old (remove self.old.refused k))) }
        ensures none { IfNone result.1 (All (λ r. r.asked.ticket ≢ ticket) self.old.refused) }
        ensures one_more { IfSome result.1 (λ r. me.was.fetched < result.0.was.fetched) }
        ensures owed { MatchOption result.1 (result.0.owed ≡ me.owed) (λ r. result.0.owed + 1 ≡ me.owed) }
        ensures seat { IsSubmitters result.0 }
        ensures grows { IsBefore me.was result.0.was }
    {
        let Some(k) = refused_at(self.refused.as_slice(), ticket) else {
            return (me, None);
        };
        let refused = self.refused.remove(k);
        self.known.fetched += 1;
        let me = seats.told(&mut self.keeper, me, self.places, self.places, &self.known);
        (me, Some(refused))
    }

    /// What a ticket was answered by, if it is one of these and its answer came. Its place is free then, and it is one of these no more.
    #[tactic(auto, using(crate::proofs::Growing::before_trans, crate::proofs::Fetching::handed_since))]
    pub(crate) fn answer(
        &mut self,
        seats: &HubTable<B>,
        me: Pass<B>,
        mine: &mut Vec<u64>,
        ticket: u64,
    ) -> (Pass<B>, Option<Result<Receipt, Refused>>)
        requires seat { IsSubmitters me }
        requires mine { length mine.old.items ≡ me.owed }
        ensures receipt { IfSome result.1 (λ a. IfOk a
            (λ r. (r.ticket ≡ ticket) × IsOwn result.0.was.asked r × Stands result.0.was.history r)) }
        ensures legal { IfSome result.1 (λ a. IfOk a (λ r. IsHistory result.0.was)) }
        ensures refused { IfSome result.1 (λ a. IfErr a
            (λ r. (r.asked.ticket ≡ ticket) × IsGone result.0.was.asked r × IsTold result.0.was.refused r)) }
        ensures one_more { IfSome result.1 (λ a. me.was.fetched < result.0.was.fetched) }
        ensures none { IfNone result.1 (All (λ n. n ≢ ticket) mine.old.items
            ⊎ (All (λ r. r.ticket ≢ ticket) self.old.answered × All (λ r. r.asked.ticket ≢ ticket) self.old.refused)) }
        // Nobody else's answer is touched: this one is left out, and all others lie where they lay.
        ensures handed { MatchOption result.1 (self.new ≡ self.old) (λ a. HandsOut self.old self.new a) }
        ensures mine { MatchOption result.1 (mine.new.items ≡ mine.old.items) (λ a. IsFetched mine.old.items mine.new.items ticket) }
        ensures owed { length mine.new.items ≡ result.0.owed }
        ensures capacity { vec_capacity mine.new ≡ vec_capacity mine.old }
        ensures seat { IsSubmitters result.0 }
        ensures grows { IsBefore me.was result.0.was }
    {
        let Some(k) = place_of(mine.as_slice(), ticket) else {
            return (me, None);
        };
        let (me, receipt) = self.fetch_receipt(seats, me, ticket);
        if let Some(receipt) = receipt {
            mine.remove(k);
            return (me, Some(Ok(receipt)));
        }
        let (me, refused) = self.fetch_refusal(seats, me, ticket);
        match refused {
            Some(refused) => {
                mine.remove(k);
                (me, Some(Err(refused)))
            }
            None => (me, None),
        }
    }

    /// What became of the tickets, where this share has so many parts and there are no more.
    pub(crate) fn settle(
        &mut self,
        seats: &HubTable<B>,
        me: Pass<B>,
        all: &mut Share<B>,
        parts: u64,
    ) -> (Pass<B>, Option<Settled>)
        requires parts { all.old.parts ≡ parts }
        ensures same { self.new ≡ self.old }
        ensures share { (all.new.parts ≡ all.old.parts) × (all.new.amount ≡ all.old.amount) }
        ensures settled { IfSome result.1 (λ s. (s.given ≡ all.new.amount) × IsSettled self.new.known s) }
        ensures waiting { IfSome result.1 (λ s. s.waiting ≡ length self.new.waiting) }
        ensures none { IfNone result.1 (self.old.known.members ≢ parts) }
        ensures seat { result.0 ≡ seeing me.pubs me.gives me.owed self.new.known }
        ensures grows { IsBefore me.was result.0.was }
    {
        let me = self.see(seats, me);
        if parts != self.known.members {
            return (me, None);
        }
        let rest = PARTS - parts;
        self.tickets.audit(all);
        self.spare.give(all, rest, 0);
        self.tickets.audit(all);
        all.give(&mut self.spare, rest, 0);
        let settled = Settled {
            given: self.given,
            by_receipt: self.places,
            by_code: self.codes,
            taken: self.held as u64,
            waiting: self.waiting.len() as u64,
        };
        (me, Some(settled))
    }

    /// What waits is still taken, nothing more is taken in, and all who wait are to be woken. Whoever closes must have the right to: else
    /// each call that may answer that the hub is closed could close it first.
    pub(crate) fn close(
        &mut self,
        seats: &HubTable<B>,
        me: Pass<B>,
        _closer: &Closer,
    ) -> (Pass<B>, WakeAll)
        ensures closed { self.new ≡ closed self.old }
        ensures seat { result.0 ≡ seeing me.pubs me.gives me.owed self.new.known }
        ensures grows { IsBefore me.was result.0.was }
        ensures part { me.pubs ≡ true → IsSamePart me.was result.0.was }
    {
        self.known.closed = true;
        let seat = seats.tell(&mut self.keeper, me, self.places, self.places, &self.known);
        (seat, WakeAll::due())
    }

    /// The same by the publisher, whose right to it is its seat, and of which it stays known that it was the publisher.
    pub(crate) fn end(&mut self, seats: &HubTable<B>, me: Pass<B>) -> (Pass<B>, WakeAll)
        requires seat { IsPublishers me }
        ensures ended { self.new ≡ ended self.old }
        ensures seat { result.0 ≡ seeing true false 0 self.new.known }
        ensures seen { HasEnded me.was result.0.was }
        ensures grows { IsBefore me.was result.0.was }
    {
        self.known.finish();
        let seat = seats.tell(&mut self.keeper, me, self.places, self.places, &self.known);
        (seat, WakeAll::due())
    }

    /// Whether nothing more is taken in.
    pub(crate) fn is_closed(&self) -> bool
        ensures { result ≡ self.now.known.closed }
    {
        self.known.closed
    }
}
