//! Who sleeps at a hub, and whom a change wakes. What a change owes to those who sleep is a value that can't be let go of, which the
//! change gives and a call here alone takes: so no body that makes the change forgets to wake them.
ghost use Rattle.std.specs.Prelude.{◌≡◌, ◌<◌, ◌%◌, All, false, slice_set};
ghost use Rattle.flow_hub.specs.Waking.{AreQuiet, StandInPlace, Wakes};

use flow_base::submission::{Receipt, Taken};
use std::array;
use std::sync::Condvar;

/// How many conditions there are for answers. Tickets that lie less than this apart share none; more of them would be more to look
/// through at each answer.
const CONDITIONS: u64 = 128;

/// Something waits to be taken: whoever takes it is to be woken.
pub(crate) struct WakeTaker {
    made: (),
}

impl WakeTaker {
    pub(crate) fn due() -> WakeTaker {
        WakeTaker { made: () }
    }
}

/// There is something for whoever gives tasks out, who is to be woken.
pub(crate) struct WakeGiver {
    made: (),
}

impl WakeGiver {
    pub(crate) fn due() -> WakeGiver {
        WakeGiver { made: () }
    }
}

/// There is a board: whoever gives tasks out is to be woken, and those who wait for what it says.
pub(crate) struct WakeByBoard {
    made: (),
}

impl WakeByBoard {
    pub(crate) fn due() -> WakeByBoard {
        WakeByBoard { made: () }
    }
}

/// The hub is closed: all who wait are to be woken.
pub(crate) struct WakeAll {
    made: (),
}

impl WakeAll {
    pub(crate) fn due() -> WakeAll {
        WakeAll { made: () }
    }
}

/// A condition, and where it stands among its like.
#[derive(Drop)]
pub(crate) struct Condition {
    place: usize,
    pub(crate) changed: Condvar,
}

/// Some tickets have their answers: those who wait at these conditions are to be woken.
pub(crate) struct WakeAnswered {
    told: [bool; 128],
}

impl WakeAnswered {
    /// Wakes those who wait at a condition, if they are to be woken: then they are no more.
    fn wake(&mut self, condition: &Condition)
        requires { condition.now.place < 128 }
        ensures { self.new.told ≡ slice_set self.old.told condition.now.place false }
    {
        if self.told[condition.place] {
            condition.changed.notify_all();
        }
        self.told[condition.place] = false;
    }

    /// Nobody is left to be woken.
    fn spend(self)
        requires { AreQuiet self.told 128 }
    {
        let WakeAnswered { told: _ } = self;
    }
}

/// Where those who wait sleep.
#[derive(Drop)]
pub(crate) struct Waits {
    /// Told when something waits to be taken, and at closing.
    pub(crate) asked: Condvar,
    /// Told when something was answered, each for every 128th ticket, and at closing.
    answered: [Condition; 128],
    /// Told when a board was posted or skipped, when somebody rings, and at closing.
    pub(crate) posted: Condvar,
    /// Told when a board was posted, and at closing.
    pub(crate) turned: Condvar,
    ghost in_place: { StandInPlace answered },
}

/// Where the condition of a ticket stands.
fn place_of(ticket: u64) -> usize
    ensures { result ≡ ticket % 128 }
{
    (ticket % CONDITIONS) as usize
}

/// A condition for each place.
fn conditions() -> [Condition; 128]
    ensures { StandInPlace result }
{
    array::from_fn(
        |place| -> Condition
            ensures { result.place ≡ place }
        {
            Condition {
                place,
                changed: Condvar::new(),
            }
        },
    )
}

impl Waits {
    /// Nobody waits.
    pub(crate) fn new() -> Waits {
        Waits {
            asked: Condvar::new(),
            answered: conditions(),
            posted: Condvar::new(),
            turned: Condvar::new(),
        }
    }

    /// The condition that is told when a ticket has its answer.
    pub(crate) fn of(&self, ticket: u64) -> &Condition
        ensures { result.now.place ≡ ticket % 128 }
    {
        &self.answered[place_of(ticket)]
    }

    /// Wakes whoever takes what waits.
    pub(crate) fn wake_taker(&self, wake: WakeTaker) {
        let WakeTaker { made: _ } = wake;
        self.asked.notify_one();
    }

    /// Wakes whoever gives tasks out.
    pub(crate) fn wake_giver(&self, wake: WakeGiver) {
        let WakeGiver { made: _ } = wake;
        self.posted.notify_all();
    }

    /// Wakes whoever gives tasks out, and those who wait for what a board says.
    pub(crate) fn wake_by_board(&self, wake: WakeByBoard) {
        let WakeByBoard { made: _ } = wake;
        self.posted.notify_all();
        self.turned.notify_all();
    }

    /// Wakes those who wait for an answer that came.
    pub(crate) fn wake_answered(&self, wake: WakeAnswered) {
        let mut wake = wake;
        for place in 0..128 {
            wake.wake(&self.answered[place]);
        }
        wake.spend();
    }

    /// Wakes all who wait.
    pub(crate) fn wake_all(&self, wake: WakeAll) {
        let WakeAll { made: _ } = wake;
        self.asked.notify_all();
        for condition in self.answered.as_slice() {
            condition.changed.notify_all();
        }
        self.posted.notify_all();
        self.turned.notify_all();
    }
}

/// Those who wait for the answers of these receipts' tickets.
pub(crate) fn told_by(receipts: &[Receipt]) -> WakeAnswered
    ensures { All (λ r. Wakes result.told r.ticket) receipts.now }
{
    let mut told = [false; 128];
    for receipt in receipts {
        told[place_of(receipt.ticket)] = true;
    }
    WakeAnswered { told }
}

/// Those who wait for the answers to what was taken.
pub(crate) fn told_of(all: &[Taken]) -> WakeAnswered
    ensures { All (λ t. Wakes result.told t.ticket) all.now }
{
    let mut told = [false; 128];
    for taken in all {
        told[place_of(taken.ticket)] = true;
    }
    WakeAnswered { told }
}
