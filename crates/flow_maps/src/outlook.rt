//! What the runs of a book wait for at a moment: what may be attempted by then, and when there is more to be done.
ghost use Rattle.std.specs.Prelude.{◌≡◌, ◌≤◌, ◌+◌, ◌++◌, ◌∷◌, ◌&&◌, [], ℕ, IfSome, OnOk, cond, filter, nat_le, option_map, true};
ghost use Rattle.std.specs.BTreeMap.{get};
ghost use Rattle.std.specs.BTreeSet.{contains};
ghost use Rattle.std.specs.List.{list_any};
ghost use Rattle.std.specs.Ordering.{nat_cmp};
ghost use Rattle.flow_model.specs.Book.{Book, nth};
ghost use Rattle.flow_maps.specs.Agenda.{tasks_at};
ghost use Rattle.flow_maps.specs.Calendars.{HasSlots, IsNext, Slot, date_of_task, part_within};
ghost use Rattle.flow_maps.specs.OfRuns.{is_run};
ghost use Rattle.flow_maps.specs.Seats.{KnowsOpen, seat_tasks};
ghost use Rattle.flow_maps.specs.Outlooks as rule;
ghost use Rattle.flow_maps.specs.Outlooks.{is_within, ready_within, waiting, waiting_in};

use crate::apart::Apart;
use crate::open_seats::OpenSeats;
use crate::time_slots::{TimeSlots, first_due};
use flow_base::book::{Due, OpenActivity};
use flow_base::number::{Moment, RunId};
use flow_base::sequence::Sequence;
use std::alloc::{AllocError, Global};
use std::collections::{BTreeMap, BTreeSet};

/// What a book waits for at a moment.
#[derive(Drop)]
pub struct BookWaits {
    /// Its open activities that may be attempted by then, and not before the moment from which on they were asked for, with their
    /// runs, in order of run and event.
    pub ready: Sequence<(RunId, OpenActivity)>,
    /// The first moment at which there is more to be done: a timer is due, or another activity may be attempted.
    pub due: Option<Moment>,
    /// How many runs are open.
    pub open_runs: u64,
}

/// Whether an attempt may be made by a moment, and not before another.
fn is_ready(since: u64, at: Moment, task: &OpenActivity) -> bool
    ensures { result ≡ (nat_le since task.now.ready && nat_le task.now.ready at) }
{
    let ready = task.ready.get();
    since <= ready && ready <= at.get()
}

/// Lists an activity behind the others, if it may be attempted by a moment and not before another.
fn add_task(
    list: &mut Vec<(RunId, OpenActivity)>,
    since: u64,
    at: Moment,
    run: RunId,
    task: &OpenActivity,
) -> Result<(), AllocError>
    ensures { OnOk result (list.new.items ≡ cond (is_within since at (run, task.now)) (list.old.items ++ (run, task.now) ∷ [])
        list.old.items) }
{
    if !is_ready(since, at, task) {
        return Ok(());
    }
    list.push((run, *task))?;
    Ok(())
}

/// Lists what a run has that may be attempted by a moment, and not before another, behind the others.
pub(crate) fn add_tasks(
    list: &mut Vec<(RunId, OpenActivity)>,
    since: u64,
    at: Moment,
    run: RunId,
    tasks: &[OpenActivity],
) -> Result<(), AllocError>
    ensures { OnOk result (list.new.items ≡ list.old.items ++ filter (is_within since at) (waiting_in run tasks.now)) }
{
    for task in tasks {
        add_task(list, since, at, run, task)?;
    }
    Ok(())
}

/// The same of a run by its number. Whether there was memory for it.
fn add_run(
    list: &mut Vec<(RunId, OpenActivity)>,
    since: u64,
    at: Moment,
    number: u64,
    seats: &BTreeMap<u64, Apart>,
) -> bool
    ensures { result ≡ true → list.new.items ≡ list.old.items ++ filter (is_within since at)
        (waiting_in number (seat_tasks (get nat_cmp seats.now number))) }
{
    match seats.get(&number) {
        Some(apart) => {
            let Some(run) = RunId::new(number) else {
                return false;
            };
            add_tasks(list, since, at, run, apart.as_seat().head.tasks.as_slice()).is_ok()
        }
        None => true,
    }
}

/// The run of a slot is one of these. Whether there was memory for it.
fn add_slot(runs: &mut BTreeSet<u64>, slot: &(u64, u64, u64)) -> bool
    ensures { result ≡ true → (n : ℕ) → contains nat_cmp runs.new n ≡ cond (is_run slot.now.1 n) true (contains nat_cmp runs.old n) }
{
    runs.insert(slot.1).is_ok()
}

/// The moment from which on slots are looked at: past the last one there is none.
fn first_of(since: u64, at: Moment) -> u64
    ensures no_later { result ≤ since }
    ensures no_further { result ≤ at + 1 }
{
    if at.get() < since {
        return at.get() + 1;
    }
    since
}

/// The runs of the slots from one moment to another, in order; none where there is no memory.
fn runs_within(alloc: Global, ready: &TimeSlots, first: u64, at: Moment) -> Option<BTreeSet<u64>>
    requires { first ≤ at + 1 }
    ensures { IfSome result (λ s. (n : ℕ) → contains nat_cmp s n ≡ list_any (λ (q : Slot). is_run q.1 n)
        (part_within first at ready.now.keys)) }
{
    let mut runs = BTreeSet::new(alloc);
    for slot in ready.range((first, 0, 0)..(at.get() + 1, 0, 0)) {
        if !add_slot(&mut runs, slot) {
            return None;
        }
    }
    Some(runs)
}

/// What these runs have that may be attempted by a moment, and not before another; none where there is no memory.
fn listed_of(
    alloc: Global,
    seats: &OpenSeats,
    runs: &BTreeSet<u64>,
    since: u64,
    at: Moment,
) -> Option<Sequence<(RunId, OpenActivity)>>
    ensures { IfSome result (λ v. (b : Book) → KnowsOpen seats.now (λ n. nth b.runs n) → (first : ℕ) → first ≤ since
        → ((n : ℕ) → contains nat_cmp runs.now n ≡ list_any (λ (q : Slot). is_run q.1 n) (part_within first at seats.now.ready.keys))
        → v ≡ ready_within since at b) }
{
    let mut list = Vec::new(alloc);
    for number in runs {
        if !add_run(&mut list, since, at, *number, &seats.by_run) {
            return None;
        }
    }
    Some(Sequence::from_vec(list))
}

/// The open activities that may be attempted by a moment, and not before another; none where there is no memory.
fn listed(
    alloc: Global,
    seats: &OpenSeats,
    since: u64,
    at: Moment,
) -> Option<Sequence<(RunId, OpenActivity)>>
    ensures { IfSome result (λ v. (b : Book) → KnowsOpen seats.now (λ n. nth b.runs n) → v ≡ ready_within since at b) }
{
    let first = first_of(since, at);
    let Some(runs) = runs_within(alloc, &seats.ready, first, at) else {
        return None;
    };
    let Some(list) = listed_of(alloc, seats, &runs, since, at) else {
        return None;
    };
    Some(list)
}

/// The lesser of two moments, of which one needn't be there.
fn sooner(best: Option<Moment>, next: Moment) -> Option<Moment>
    ensures { result ≡ rule.sooner best next }
{
    match best {
        Some(moment) => {
            if next.get() < moment.get() {
                Some(next)
            } else {
                Some(moment)
            }
        }
        None => Some(next),
    }
}

/// The same with a moment from which on an attempt may be made, which counts behind another moment.
fn with_ready(at: Moment, best: Option<Moment>, run: RunId, task: &OpenActivity) -> Option<Moment>
    ensures { result ≡ rule.with_ready at best (run, task.now) }
{
    if at.get() < task.ready.get() {
        sooner(best, task.ready)
    } else {
        best
    }
}

/// The same with what a run has.
pub(crate) fn soonest(
    at: Moment,
    best: Option<Moment>,
    run: RunId,
    tasks: &[OpenActivity],
) -> Option<Moment>
    ensures { result ≡ rule.soonest at best (waiting_in run tasks.now) }
{
    let mut least = best;
    for task in tasks {
        least = with_ready(at, least, run, task);
    }
    least
}

/// The first moment of a slot after one, if there is such a slot; none where it is no moment.
fn next_slot(ready: &TimeSlots, at: Moment) -> Option<Option<Moment>>
    ensures { IfSome result (λ o. IsNext at ready.now o) }
{
    let mut later = ready.range((at.get() + 1, 0, 0)..);
    let Some(slot) = later.next() else {
        return Some(None);
    };
    match Moment::new(slot.0) {
        Some(moment) => Some(Some(moment)),
        None => None,
    }
}

/// The sooner of two moments, neither of which need be there.
pub(crate) fn with_next(best: Option<Moment>, next: Option<Moment>) -> Option<Moment>
    ensures { result ≡ rule.with_next best next }
{
    match next {
        Some(moment) => sooner(best, moment),
        None => best,
    }
}

/// The sooner of a moment and of the first one after another at which an activity may be attempted; none where it isn't known.
fn next_due(best: Option<Moment>, ready: &TimeSlots, at: Moment) -> Option<Option<Moment>>
    ensures { IfSome result (λ o. (b : Book) → HasSlots date_of_task ready.now (tasks_at b) → o ≡ rule.soonest at best (waiting b)) }
{
    let Some(next) = next_slot(ready, at) else {
        return None;
    };
    Some(with_next(best, next))
}

pub(crate) fn moment_of(first: Option<Due>) -> Option<Moment>
    ensures { result ≡ option_map rule.moment_of first }
{
    match first {
        Some(due) => Some(due.due),
        None => None,
    }
}

/// What there is to do at a moment, of its open activities those that may not be attempted before another one; none where there is no
/// memory.
pub(crate) fn outlook(alloc: Global, seats: &OpenSeats, since: u64, at: Moment) -> Option<BookWaits>
    ensures { IfSome result (λ v. (b : Book) → KnowsOpen seats.now (λ n. nth b.runs n) → v ≡ rule.outlook_of since at b) }
{
    let Some(first) = first_due(&seats.due, Moment::last()) else {
        return None;
    };
    let Some(due) = next_due(moment_of(first), &seats.ready, at) else {
        return None;
    };
    let Some(ready) = listed(alloc, seats, since, at) else {
        return None;
    };
    Some(BookWaits {
        ready,
        due,
        open_runs: seats.count(),
    })
}
