//! The hub: what its threads share.
ghost use Rattle.std.specs.Prelude.{◌≡◌, ◌+◌, [], true, IfOk, IfSome};
ghost use Rattle.flow_hub.specs.Knowing.{nothing};
ghost use Rattle.flow_hub.specs.Seating.{IsRoomOf};

use crate::denied::Unseated;
use crate::feed::Feed;
use crate::publisher::Publisher;
use crate::seats::{HubTable, Opened, Pass, Room};
use crate::state::{MOST, Rung, State};
use crate::submitter::Submitter;
use crate::waits::Waits;
use flow_base::memory::NoMemory;
use std::alloc::{AllocError, Global};
use std::marker::Model;
use std::sync::{Arc, Mutex, MutexGuard, Wait};

/// What the threads of a hub share.
#[derive(Drop)]
pub(crate) struct Shared<B: Room> {
    pub(crate) seats: HubTable<B>,
    pub(crate) state: Mutex<State<B>>,
    pub(crate) waits: Waits,
}

/// What is shared, by one who has a part in it.
pub(crate) fn shared_in<B: Room>(shared: &Arc<Shared<B>>) -> &Shared<B> {
    shared
}

impl<B: Room> Shared<B> {
    /// Waits for the lock.
    pub(crate) fn lock<R: Wait>(&self, rt: &R) -> MutexGuard<'_, State<B>> {
        self.state.lock(rt)
    }
}

/// The right to close a hub. Its field is this module's, and the hub alone has one. Submitters and whoever gives tasks out have none, so
/// no call of theirs can close the hub that it then finds closed; and where its publisher closes it, that is known (`HubFacts::ended`).
#[derive(Drop)]
pub(crate) struct Closer {
    made: (),
}

/// What was seen of a hub when it was closed. To a contract it is that. No other module makes one, so a call that gives it has looked.
#[derive(Drop)]
pub struct SeenClosed<B: Room> {
    seat: Pass<B>,
}

impl<B: Room> Model for SeenClosed<B> {
    ghost use Rattle.flow_hub.specs.declared.known.HubFacts.{HubFacts};
    ghost use Rattle.flow_hub.specs.Knowing.{known_code};

    ghost Value = { HubFacts };

    ghost coded = { known_code };

    ghost view = { λ s. s.seat.was };
}

/// Takes commands from submitters on many threads, for one publisher, who answers them.
#[derive(Drop)]
pub struct Hub<B: Room> {
    alloc: Global,
    shared: Arc<Shared<B>>,
    closer: Closer,
}

impl<B: Room> Hub<B> {
    /// A hub to which nothing was submitted, and its one publisher. It asks for the room of 1,024 submissions, so that neither
    /// submitting nor waiting nor taking nor answering takes memory.
    ///
    /// # Failure
    /// E01.
    pub fn new(alloc: Global, opened: Opened) -> Result<(Publisher<B>, Hub<B>), AllocError>
        requires room { IsRoomOf opened B.table B.name B.parts }
        ensures { IfOk result (λ r. r.0 ≡ nothing) }
    {
        let (seats, state, seat) = State::new(alloc, opened.named::<B>())?;
        let shared = Shared {
            seats,
            state: Mutex::new(state),
            waits: Waits::new(),
        };
        let shared = Arc::new(alloc, shared)?;
        let publisher = Publisher::over(alloc, Arc::try_clone(&shared)?, seat);
        let hub = Hub {
            alloc,
            shared,
            closer: Closer { made: () },
        };
        Ok((publisher, hub))
    }

    /// One more submitter. Its number is given under the lock, with a seat that has it, so that no other submitter of the hub does. It
    /// asks for the room of the numbers of 1,024 tickets.
    ///
    /// # Failure
    /// E01; E90 where 2^62 submitters were given.
    pub fn submitter<R: Wait>(&self, rt: &R) -> Result<Submitter<B>, Unseated>
        ensures id { IfOk result (λ m. m.was.members ≡ m.id + 1) }
        ensures share { IfOk result (λ m. (m.parts ≡ 1) × (m.amount ≡ 0)) }
        ensures unfetched { IfOk result (λ m. m.unfetched ≡ []) }
    {
        let shared = match Arc::try_clone(&self.shared) {
            Ok(shared) => shared,
            Err(refused) => return Err(Unseated::NoMemory(NoMemory::from(refused))),
        };
        let unfetched = match Vec::with_capacity(self.alloc, MOST) {
            Ok(unfetched) => unfetched,
            Err(refused) => return Err(Unseated::NoMemory(NoMemory::from(refused))),
        };
        let all = shared_in(&self.shared);
        let mut state = all.lock(rt);
        let Some((id, badge, seat, share)) = state.enroll(&all.seats) else {
            return Err(Unseated::InboxFull(state.all_given()));
        };
        Ok(Submitter::over(shared, id, badge, seat, share, unfetched))
    }

    /// Who gives the tasks out that are posted. None where it was asked for before, or there is no memory.
    pub fn feed<R: Wait>(&self, rt: &R) -> Result<Option<Feed<B>>, AllocError>
        ensures { IfOk result (λ o. IfSome o (λ f. f ≡ nothing)) }
    {
        let shared = Arc::try_clone(&self.shared)?;
        match shared_in(&self.shared).lock(rt).take_feed() {
            Some(seat) => Ok(Some(Feed::over(shared, seat))),
            None => Ok(None),
        }
    }

    /// Wakes whoever gives tasks out, where it listens (`Feed::listen`): there is something else to be done.
    pub fn ring<R: Wait>(&self, rt: &R) -> Rung {
        let shared = shared_in(&self.shared);
        let (rung, wake) = shared.lock(rt).ring();
        shared.waits.wake_giver(wake);
        rung
    }

    /// Nothing more is taken in, what waits is still taken, and who waits is woken.
    pub fn close<R: Wait>(&self, rt: &R) -> SeenClosed<B>
        ensures { result.closed ≡ true }
    {
        let shared = shared_in(&self.shared);
        let me = shared.seats.enter();
        let (seat, wake) = shared.lock(rt).close(&shared.seats, me, &self.closer);
        shared.waits.wake_all(wake);
        SeenClosed { seat }
    }

    /// Lets go of it. The proof of how all its parts are let go of is here, and not in the crate of who calls.
    pub fn leave(self) {}
}
