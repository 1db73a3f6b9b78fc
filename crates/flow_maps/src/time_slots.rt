//! Open timers in the order of their dues, and open activities in the order of the moments from which on they may be attempted: each as
//! its moment, its run and its event.
ghost use Rattle.std.specs.Prelude.{◌≡◌, ◌&&◌, ◌||◌, ℕ, List, [], IfSome, cond, not, true, false};
ghost use Rattle.std.specs.BTreeSet.{contains};
ghost use Rattle.flow_model.specs.Book as words;
ghost use Rattle.flow_model.specs.Book.{Book};
ghost use Rattle.flow_maps.specs.Calendars as rule;
ghost use Rattle.flow_maps.specs.Calendars.{Slot, slot_cmp, has_slot, HasSlots, date_of_timer, date_of_task};
ghost use Rattle.flow_maps.specs.OfRuns.{replaced};
ghost use Rattle.flow_maps.specs.Timers.{timers_at};

use flow_base::book::{Due, OpenActivity, Timer};
use flow_base::number::{EventId, Moment, RunId};
use std::collections::BTreeSet;

/// What stands under a moment, by the number of its event.
pub trait Dated: Copy + Drop {
    ghost date: { Self → ℕ × ℕ };

    /// The moment and the event.
    fn dated(&self) -> (u64, u64)
        ensures { result ≡ date self.now };
}

impl Dated for Timer {
    ghost date = { date_of_timer };

    fn dated(&self) -> (u64, u64) {
        (self.due.get(), self.id.get())
    }
}

impl Dated for OpenActivity {
    ghost date = { date_of_task };

    fn dated(&self) -> (u64, u64) {
        (self.ready.get(), self.event.get())
    }
}

/// A moment, a run and an event.
pub type TimeSlots = BTreeSet<(u64, u64, u64)>;

fn slot<T: Dated>(run: RunId, thing: &T) -> (u64, u64, u64)
    ensures { result ≡ rule.slot T.date run thing.now }
{
    let (moment, event) = thing.dated();
    (moment, run.get(), event)
}

fn remove_one<T: Dated>(slots: &mut TimeSlots, run: RunId, thing: &T)
    ensures { (q : Slot) → contains slot_cmp slots.new q ≡ cond (rule.is_slot (rule.slot T.date run thing.now) q) false
        (contains slot_cmp slots.old q) }
{
    slots.remove(&slot(run, thing));
}

fn remove_all<T: Dated>(slots: &mut TimeSlots, run: RunId, things: &[T])
    ensures { (q : Slot) → contains slot_cmp slots.new q ≡ (contains slot_cmp slots.old q && not (has_slot T.date run things.now q)) }
{
    for thing in things {
        remove_one(slots, run, thing);
    }
}

fn insert_one<T: Dated>(slots: &mut TimeSlots, run: RunId, thing: &T) -> bool
    ensures { result ≡ true → (q : Slot) → contains slot_cmp slots.new q ≡ cond (rule.is_slot (rule.slot T.date run thing.now) q) true
        (contains slot_cmp slots.old q) }
{
    slots.insert(slot(run, thing)).is_ok()
}

fn insert_all<T: Dated>(slots: &mut TimeSlots, run: RunId, things: &[T]) -> bool
    ensures { result ≡ true → (q : Slot) → contains slot_cmp slots.new q ≡
        (contains slot_cmp slots.old q || has_slot T.date run things.now q) }
{
    for thing in things {
        if !insert_one(slots, run, thing) {
            return false;
        }
    }
    true
}

/// A run has these things no more.
pub(crate) fn take_out<T: Dated>(slots: &mut TimeSlots, run: RunId, things: &[T])
    ensures { (f : ℕ → List T) → f run ≡ things.now → HasSlots T.date slots.old f → HasSlots T.date slots.new (replaced run [] f) }
{
    remove_all(slots, run, things);
}

/// A run that had none has these things. Whether there was memory for it.
pub(crate) fn put_in<T: Dated>(slots: &mut TimeSlots, run: RunId, things: &[T]) -> bool
    ensures { result ≡ true → (f : ℕ → List T) → f run ≡ [] → HasSlots T.date slots.old f
        → HasSlots T.date slots.new (replaced run things.now f) }
{
    insert_all(slots, run, things)
}

/// What a slot stands for, where its numbers are those of a timer.
fn due_of(slot: &(u64, u64, u64)) -> Option<Due>
    ensures { IfSome result (λ d. d ≡ rule.due_of slot.now) }
{
    let Some(due) = Moment::new(slot.0) else {
        return None;
    };
    let Some(run) = RunId::new(slot.1) else {
        return None;
    };
    let Some(id) = EventId::new(slot.2) else {
        return None;
    };
    Some(Due { due, run, id })
}

/// The timer that is due first, of those that are due by a moment; none where it isn't known.
pub(crate) fn first_due(timers: &TimeSlots, at: Moment) -> Option<Option<Due>>
    ensures { IfSome result (λ o. (b : Book) → HasSlots date_of_timer timers.now (timers_at b) → o ≡ words.least_due b at) }
{
    let Some(slot) = timers.first() else {
        return Some(None);
    };
    if at.get() < slot.0 {
        return Some(None);
    }
    match due_of(slot) {
        Some(due) => Some(Some(due)),
        None => None,
    }
}
