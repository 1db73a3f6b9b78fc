//! The calls of a thread that submits.
ghost use Rattle.std.specs.Prelude.{◌≡◌, ◌≢◌, ◌+◌, ◌^◌, ◌<◌, ◌≤◌, [], ◌∷◌, ◌++◌, true, false, length, Some, IfOk, IfErr, IfSome, IfNone, MatchResult, OnOk};
ghost use Rattle.std.specs.Vec.{vec_capacity};
ghost use Rattle.flow_hub.specs.Asks.{IsOwn, IsGone, IsTold, Stands};
ghost use Rattle.flow_hub.specs.Feeding.{IsDueBy, IsIdle, IsRested, IsTickOf};
ghost use Rattle.flow_hub.specs.Knowing.{IsBefore, IsHistory};
ghost use Rattle.flow_hub.specs.Seating.{IsSubmitters};
ghost use Rattle.flow_hub.specs.Submitting.{HasTakenIn, IsFetched, IsTicket, IsDenied, IsReceipt, IsNotDone, IsSettled};
ghost use Rattle.flow_hub.specs.Refusals.{is_spent};

use crate::denied::Denied;
use crate::hub::{Shared, shared_in};
use crate::rested::Rested;
use crate::seats::{Pass, Room};
use crate::settled::Settled;
use crate::ticket::{NotDone, Ticket, Why};
use flow_base::command::Command;
use flow_base::number::Moment;
use flow_base::submission::Receipt;
use flow_queues::refused::Refused;
use flow_timers::{Clock, tick_due};
use std::marker::Model;
use std::sync::ledger::Share;
use std::sync::{Arc, Wait};
use std::time::{Clock as Timing, Duration};

/// Submits commands to a hub, and waits for their receipts. To a contract it is its number, what it has seen of the hub, and its
/// share of the tickets.
#[derive(Drop)]
pub struct Submitter<B: Room> {
    shared: Arc<Shared<B>>,
    id: u64,
    /// The seat that has its number. No other seat of the hub does.
    badge: Pass<B>,
    seat: Pass<B>,
    share: Share<B>,
    /// How many submitters' parts of the ledger its share has.
    parts: u64,
    /// Those of its tickets whose answer it hasn't fetched. It has the room of all that a hub may leave unfetched.
    unfetched: Vec<u64>,
}

impl<B: Room> Model for Submitter<B> {
    ghost use Rattle.std.specs.Prelude.{◌≡◌, ◌<◌, ◌≤◌, ◌^◌, length, Some};
    ghost use Rattle.std.specs.Vec.{vec_capacity};
    ghost use Rattle.flow_hub.specs.Seating.{IsSubmitters};
    ghost use Rattle.flow_hub.specs.Submitting.{Member, member_code};

    ghost Value = { Member };

    ghost coded = { member_code };

    ghost view = { λ m. record { id = m.id; was = m.seat.was; parts = m.parts; amount = m.share.amount; unfetched = m.unfetched.items } };

    ghost invariant = { λ m. IsSubmitters m.seat × (m.share.parts ≡ m.parts) × (0 < m.parts) × (B.parts ≡ 2 ^ 62) × (m.badge.member ≡ Some m.id)
        × (length m.unfetched.items ≡ m.seat.owed) × (1024 ≤ vec_capacity m.unfetched) };
}

/// Waits until a ticket, which is one of these, has its answer. It is one of them no more.
fn awaited<B: Room, R: Wait>(
    rt: &R,
    shared: &Shared<B>,
    seat: Pass<B>,
    mine: &mut Vec<u64>,
    ticket: u64,
) -> (Pass<B>, Result<Receipt, Refused>)
    requires seat { IsSubmitters seat }
    requires mine { length mine.old.items ≡ seat.owed }
    ensures receipt { IfOk result.1 (λ r. (r.ticket ≡ ticket) × IsOwn result.0.was.asked r × Stands result.0.was.history r) }
    ensures legal { IfOk result.1 (λ r. IsHistory result.0.was) }
    ensures refused { IfErr result.1 (λ r. (r.asked.ticket ≡ ticket) × IsGone result.0.was.asked r × IsTold result.0.was.refused r) }
    ensures one_more { seat.was.fetched < result.0.was.fetched }
    ensures mine { IsFetched mine.old.items mine.new.items ticket }
    ensures owed { length mine.new.items ≡ result.0.owed }
    ensures capacity { vec_capacity mine.new ≡ vec_capacity mine.old }
    ensures seat { IsSubmitters result.0 }
    ensures grows { IsBefore seat.was result.0.was }
{
    let mut me = seat;
    let mut state = shared.lock(rt);
    for _ in rt.forever() {
        let (seen, answer) = state.answer(&shared.seats, me, mine, ticket);
        me = seen;
        if let Some(answer) = answer {
            return (me, answer);
        }
        state = shared.waits.of(ticket).changed.wait(rt, state);
    }
    unreachable!()
}

/// Lets go of an answer.
fn let_go(_answer: Result<Receipt, Refused>) {}

/// Waits until each of these tickets has its answer, and lets go of that. None of them is left.
fn given_up<B: Room, R: Wait>(
    rt: &R,
    shared: &Shared<B>,
    seat: Pass<B>,
    mine: &mut Vec<u64>,
) -> Pass<B>
    requires seat { IsSubmitters seat }
    requires mine { length mine.old.items ≡ seat.owed }
    ensures none { (mine.new.items ≡ []) × (result.owed ≡ 0) }
    ensures fetched { seat.was.fetched + length mine.old.items ≤ result.was.fetched }
    ensures capacity { vec_capacity mine.new ≡ vec_capacity mine.old }
    ensures seat { IsSubmitters result }
    ensures grows { IsBefore seat.was result.was }
{
    let mut me = seat;
    while !mine.is_empty() {
        let first = mine[0];
        let (seen, answer) = awaited(rt, shared, me, mine, first);
        let_go(answer);
        me = seen;
    }
    me
}

/// The longest pause before the clock is asked again, in milliseconds: it may be set, and stands still for the pauses of a machine that
/// sleeps.
const LONGEST_PAUSE: u64 = 60_000;

/// The command that fires what is due by the clock, or how long to wait before it is asked again.
fn tick_or_pause<C: Clock>(due: Option<Moment>, clock: &C) -> Result<Command, Duration>
    ensures tick { IfOk result (λ c. IsDueBy (C.tells clock.now) due c) }
{
    let now = clock.now();
    match due {
        Some(moment) => match tick_due(Some(moment), now) {
            Some(tick) => Ok(tick),
            None => {
                let left = moment.get().saturating_sub(now.get());
                Err(Duration::from_millis(left.min(LONGEST_PAUSE)))
            }
        },
        None => Err(Duration::from_millis(LONGEST_PAUSE)),
    }
}

/// Sleeps until something is due by the clock, or the hub is closed. Where no board says what is due it asks after one whole pause,
/// and not at once: what is wrong with the store may last.
fn ticked<B: Room, R: Wait + Timing, C: Clock>(
    rt: &R,
    shared: &Shared<B>,
    seat: Pass<B>,
    clock: &C,
) -> (Pass<B>, Option<Command>)
    requires seat { IsSubmitters seat }
    ensures tick { IfSome result.1 (λ c. IsTickOf (C.tells clock.now) result.0.was c) }
    ensures none { IfNone result.1 (result.0.was.closed ≡ true) }
    ensures owed { result.0.owed ≡ seat.owed }
    ensures seat { IsSubmitters result.0 }
    ensures grows { IsBefore seat.was result.0.was }
{
    let mut me = seat;
    let mut state = shared.lock(rt);
    let mut paused = false;
    for _ in rt.forever() {
        let (seen, due) = state.due(&shared.seats, me);
        me = seen;
        if state.is_closed() {
            return (me, None);
        }
        if paused && state.has_no_board() {
            return (me, Some(Command::Tick(clock.now())));
        }
        match tick_or_pause(due, clock) {
            Ok(tick) => return (me, Some(tick)),
            Err(pause) => {
                let (guard, end) = shared.waits.turned.wait_timeout(rt, state, pause);
                state = guard;
                paused = end.timed_out();
            }
        }
    }
    unreachable!()
}

/// Waits until nothing is left to be done, or the hub is closed.
fn rested<B: Room, R: Wait>(rt: &R, shared: &Shared<B>, seat: Pass<B>) -> (Pass<B>, bool)
    requires seat { IsSubmitters seat }
    ensures idle { result.1 ≡ true → IsIdle result.0.was }
    ensures closed { result.1 ≡ false → (result.0.was.closed ≡ true) × (IsIdle result.0.was → ⊥) }
    ensures owed { result.0.owed ≡ seat.owed }
    ensures seat { IsSubmitters result.0 }
    ensures grows { IsBefore seat.was result.0.was }
{
    let mut me = seat;
    let mut state = shared.lock(rt);
    for _ in rt.forever() {
        let (seen, rest) = state.rest(&shared.seats, me);
        me = seen;
        match rest {
            Rested::Idle => return (me, true),
            Rested::Closed => return (me, false),
            Rested::NotYet(_outlook) => {}
        }
        state = shared.waits.turned.wait(rt, state);
    }
    unreachable!()
}

/// Waits once, for a pause at most, unless nothing is left to be done or the hub is closed, and looks again then.
fn rested_for<B: Room, R: Wait + Timing>(
    rt: &R,
    shared: &Shared<B>,
    seat: Pass<B>,
    pause: Duration,
) -> (Pass<B>, Rested)
    requires seat { IsSubmitters seat }
    ensures rested { IsRested result.0.was result.1 }
    ensures owed { result.0.owed ≡ seat.owed }
    ensures seat { IsSubmitters result.0 }
    ensures grows { IsBefore seat.was result.0.was }
{
    let mut state = shared.lock(rt);
    let (me, rest) = state.rest(&shared.seats, seat);
    if let Rested::NotYet(_outlook) = rest {
        let (mut state, _end) = shared.waits.turned.wait_timeout(rt, state, pause);
        let (me, rest) = state.rest(&shared.seats, me);
        return (me, rest);
    }
    (me, rest)
}

impl<B: Room> Submitter<B> {
    pub(crate) fn over(
        shared: Arc<Shared<B>>,
        id: u64,
        badge: Pass<B>,
        seat: Pass<B>,
        share: Share<B>,
        unfetched: Vec<u64>,
    ) -> Submitter<B>
        requires badge { badge.member ≡ Some id }
        requires seat { IsSubmitters seat }
        requires share { share.parts ≡ 1 }
        requires unfetched { (unfetched.items ≡ []) × (1024 ≤ vec_capacity unfetched) }
        requires owed { seat.owed ≡ 0 }
        requires parts { B.parts ≡ 2 ^ 62 }
        ensures { result ≡ record { id = id; was = seat.was; parts = 1; amount = share.amount; unfetched = [] } }
    {
        Submitter {
            shared,
            id,
            badge,
            seat,
            share,
            parts: 1,
            unfetched,
        }
    }

    /// The seat that sees. It lets go of the rest.
    pub(crate) fn into_seat(self) -> Pass<B>
        ensures { result.was ≡ self.was }
    {
        let Submitter {
            shared: _,
            id: _,
            badge: _,
            seat,
            share: _,
            parts: _,
            unfetched: _,
        } = self;
        seat
    }

    /// The length of the history. It takes no lock, waits for nobody, and never falls.
    pub fn published(&mut self) -> u64
        ensures length { result ≡ length self.new.was.history }
        ensures never_falls { length self.old.was.history ≤ result }
        ensures grows { IsBefore self.old.was self.new.was }
        ensures same { (self.new.id ≡ self.old.id) × (self.new.parts ≡ self.old.parts) × (self.new.amount ≡ self.old.amount)
            × (self.new.unfetched ≡ self.old.unfetched) }
    {
        self.shared.seats.look(&mut self.seat)
    }

    /// Submits a command.
    ///
    /// # Failure
    /// E91 where the hub is closed; else E90 where 1,024 submissions have an answer that wasn't fetched, or none yet, or 2^62
    /// tickets were given. The command comes back.
    pub fn submit<R: Wait>(
        &mut self,
        rt: &R,
        command: Command,
    ) -> Result<Ticket<B>, (Command, Denied)>
        ensures ticket { IfOk result (λ t. IsTicket self.old self.new command t) }
        ensures denied { IfErr result (λ e. (e.0 ≡ command) × IsDenied self.new.was e.1 × (self.new.amount ≡ self.old.amount)) }
        ensures unfetched { MatchResult result (λ t. self.new.unfetched ≡ self.old.unfetched ++ t.number ∷ [])
            (λ e. self.new.unfetched ≡ self.old.unfetched) }
        ensures taken_in { OnOk result (HasTakenIn self.new.was) }
        ensures open_until_then { OnOk result (self.old.was.closed ≡ false) }
        ensures grows { IsBefore self.old.was self.new.was }
        ensures same { (self.new.id ≡ self.old.id) × (self.new.parts ≡ self.old.parts) }
    {
        let shared = shared_in(&self.shared);
        let me = shared.seats.leave(&mut self.seat);
        let (me, answer) = shared
            .lock(rt)
            .submit(&shared.seats, me, &mut self.share, command);
        self.seat = me;
        let (number, wake) = answer?;
        self.unfetched.push_reserved(number);
        shared.waits.wake_taker(wake);
        Ok(Ticket::given(number, self.id))
    }

    /// Waits for the receipt of a ticket. It stands at its place in the one history, whose replies are those of apply, as far as
    /// the disk had told no lie by the last stamp that was published.
    ///
    /// # Failure
    /// E92 where the ticket is another submitter's; else the code that its command was answered by.
    pub fn wait<R: Wait>(&mut self, rt: &R, ticket: Ticket<B>) -> Result<Receipt, NotDone<B>>
        ensures receipt { IfOk result (λ r. IsReceipt self.new ticket r) }
        ensures not_done { IfErr result (λ n. IsNotDone self.new ticket n) }
        ensures spent { IfErr result (λ n. (is_spent n ≡ true → ticket.owner ≡ self.old.id)
            × (is_spent n ≡ false → ticket.owner ≢ self.old.id)) }
        ensures fetched { ticket.owner ≡ self.old.id → self.old.was.fetched < self.new.was.fetched }
        ensures own { ticket.owner ≡ self.old.id → IsFetched self.old.unfetched self.new.unfetched ticket.number }
        ensures anothers { ticket.owner ≢ self.old.id → self.new.unfetched ≡ self.old.unfetched }
        ensures grows { IsBefore self.old.was self.new.was }
        ensures same { (self.new.id ≡ self.old.id) × (self.new.parts ≡ self.old.parts) × (self.new.amount ≡ self.old.amount) }
    {
        if ticket.owner != self.id {
            return Err(NotDone {
                ticket,
                code: Why::NotMine,
                command: None,
            });
        }
        let shared = shared_in(&self.shared);
        let me = shared.seats.leave(&mut self.seat);
        let (me, answer) = awaited(rt, shared, me, &mut self.unfetched, ticket.number);
        self.seat = me;
        match answer {
            Ok(receipt) => Ok(receipt),
            Err(refused) => {
                let Refused { asked, code } = refused;
                Err(NotDone {
                    ticket,
                    code: Why::Refused(code),
                    command: Some(asked.command),
                })
            }
        }
    }

    /// Sleeps until the moment at which something is due by the clock, as the last board names it, and gives the command that fires it.
    /// A board that names an earlier one wakes it. What was due is due no more once something was answered, so whoever waits for the
    /// answer of the command and then asks again is told of it once. None where the hub is closed.
    ///
    /// The clock is asked once a minute at least, since it may be set. Where no board could be made it gives a tick after a minute at
    /// most, so that one is tried again: else nothing would go on until somebody submits.
    pub fn next_tick<R: Wait + Timing, C: Clock>(&mut self, rt: &R, clock: &C) -> Option<Command>
        ensures tick { IfSome result (λ c. IsTickOf (C.tells clock.now) self.new.was c) }
        ensures none { IfNone result (self.new.was.closed ≡ true) }
        ensures grows { IsBefore self.old.was self.new.was }
        ensures same { (self.new.id ≡ self.old.id) × (self.new.parts ≡ self.old.parts) × (self.new.amount ≡ self.old.amount)
            × (self.new.unfetched ≡ self.old.unfetched) }
    {
        let shared = shared_in(&self.shared);
        let me = shared.seats.leave(&mut self.seat);
        let (me, tick) = ticked(rt, shared, me, clock);
        self.seat = me;
        tick
    }

    /// Waits until all that was submitted is answered and the board that was made then says that no run is open. False where the hub
    /// is closed before. Where no board could be made it waits on for the next one, which comes behind the next batch: whoever wants
    /// one without has a thread that submits what `next_tick` gives.
    pub fn rest<R: Wait>(&mut self, rt: &R) -> bool
        ensures idle { result ≡ true → IsIdle self.new.was }
        ensures closed { result ≡ false → (self.new.was.closed ≡ true) × (IsIdle self.new.was → ⊥) }
        ensures grows { IsBefore self.old.was self.new.was }
        ensures same { (self.new.id ≡ self.old.id) × (self.new.parts ≡ self.old.parts) × (self.new.amount ≡ self.old.amount)
            × (self.new.unfetched ≡ self.old.unfetched) }
    {
        let shared = shared_in(&self.shared);
        let me = shared.seats.leave(&mut self.seat);
        let (me, idle) = rested(rt, shared, me);
        self.seat = me;
        idle
    }

    /// Waits as `rest` does, but for a pause at most, and less where something is posted meanwhile. What is left then is for one who
    /// shows it.
    pub fn rest_for<R: Wait + Timing>(&mut self, rt: &R, pause: Duration) -> Rested
        ensures rested { IsRested self.new.was result }
        ensures grows { IsBefore self.old.was self.new.was }
        ensures same { (self.new.id ≡ self.old.id) × (self.new.parts ≡ self.old.parts) × (self.new.amount ≡ self.old.amount)
            × (self.new.unfetched ≡ self.old.unfetched) }
    {
        let shared = shared_in(&self.shared);
        let me = shared.seats.leave(&mut self.seat);
        let (me, rested) = rested_for(rt, shared, me, pause);
        self.seat = me;
        rested
    }

    /// Takes over the share of another submitter, which is no more. Its number was another one.
    pub fn gather(&mut self, other: Submitter<B>)
        ensures share { (self.new.parts ≡ self.old.parts + other.parts) × (self.new.amount ≡ self.old.amount + other.amount) }
        ensures apart { self.old.id ≢ other.id }
        ensures same { (self.new.id ≡ self.old.id) × (self.new.was ≡ self.old.was) × (self.new.unfetched ≡ self.old.unfetched) }
    {
        let Submitter {
            shared: _,
            id: _,
            badge,
            seat: _,
            share,
            parts,
            unfetched: _,
        } = other;
        self.shared.seats.meet(&mut self.badge, badge);
        self.share.merge(share);
        self.parts += parts;
    }

    /// Gives its tickets up whose answer it hasn't fetched: it waits until each of them is answered, and lets go of the answer, which
    /// counts as fetching it. So their room is there again for others. Whoever still has one of these tickets has a spent one.
    pub fn give_up<R: Wait>(&mut self, rt: &R)
        ensures none { self.new.unfetched ≡ [] }
        ensures fetched { self.old.was.fetched + length self.old.unfetched ≤ self.new.was.fetched }
        ensures grows { IsBefore self.old.was self.new.was }
        ensures same { (self.new.id ≡ self.old.id) × (self.new.parts ≡ self.old.parts) × (self.new.amount ≡ self.old.amount) }
    {
        let shared = shared_in(&self.shared);
        let me = shared.seats.leave(&mut self.seat);
        self.seat = given_up(rt, shared, me, &mut self.unfetched);
    }

    /// Lets go of it. The answers to its tickets that it hasn't given up are fetched by nobody then, and keep their places.
    pub fn leave(self) {}

    /// Where it has gathered all others of its hub: the tickets given, which are the sum of all shares, by what became of them.
    pub fn settle<R: Wait>(&mut self, rt: &R) -> Option<Settled>
        ensures settled { IfSome result (λ s. (s.given ≡ self.new.amount) × IsSettled self.new.was s) }
        ensures none { IfNone result (self.new.was.members ≢ self.new.parts) }
        ensures grows { IsBefore self.old.was self.new.was }
        ensures same { (self.new.id ≡ self.old.id) × (self.new.parts ≡ self.old.parts) × (self.new.amount ≡ self.old.amount)
            × (self.new.unfetched ≡ self.old.unfetched) }
    {
        let shared = shared_in(&self.shared);
        let me = shared.seats.leave(&mut self.seat);
        let (me, settled) = shared
            .lock(rt)
            .settle(&shared.seats, me, &mut self.share, self.parts);
        self.seat = me;
        settled
    }
}
