//! The seats of all open runs, in memory beside the book that is changed: by run, by flow, and in the order of what they wait for.
ghost use Rattle.std.specs.Prelude.{◌≡◌, ℕ, IfSome, Option, Some, None, true, length, filter};
ghost use Rattle.std.specs.BTreeMap.{get};
ghost use Rattle.std.specs.Ordering.{nat_cmp};
ghost use Rattle.flow_base.specs.declared.book.Run.{Run as ARun};
ghost use Rattle.flow_model.specs.Book.{nth};
ghost use Rattle.flow_maps.specs.Agenda.{is_open_run};
ghost use Rattle.flow_maps.specs.OfRuns.{replaced};
ghost use Rattle.flow_maps.specs.Seats.{IsSeated, KnowsOpen};

use crate::apart::Apart;
use crate::index::Index;
use crate::seat::Seat;
use crate::time_slots::{TimeSlots, put_in, take_out};
use flow_base::number::RunId;
use std::alloc::Global;
use std::collections::{BTreeMap, BTreeSet};

/// Seats by run; the runs by their flows; and the slots of their timers and of their activities.
#[derive(Drop)]
pub struct OpenSeats {
    alloc: Global,
    pub(crate) by_run: BTreeMap<u64, Apart>,
    pub(crate) flows: Index,
    pub(crate) due: TimeSlots,
    pub(crate) ready: TimeSlots,
}

fn remove(seats: &mut BTreeMap<u64, Apart>, run: RunId) -> Option<Seat>
    ensures taken { result ≡ get nat_cmp seats.old run }
    ensures others { (n : ℕ) → get nat_cmp seats.new n ≡ replaced run None (get nat_cmp seats.old) n }
{
    match seats.remove(&run.get()) {
        Some(apart) => Some(apart.into_seat()),
        None => None,
    }
}

/// Whether there was memory for it.
fn insert(alloc: Global, seats: &mut BTreeMap<u64, Apart>, run: RunId, seat: Seat) -> bool
    ensures { result ≡ true → (n : ℕ) → get nat_cmp seats.new n ≡ replaced run (Some seat) (get nat_cmp seats.old) n }
{
    match Apart::new(alloc, seat) {
        Some(apart) => seats.insert(run.get(), apart).is_ok(),
        None => false,
    }
}

impl OpenSeats {
    /// There is no run.
    pub fn new(alloc: Global) -> OpenSeats
        ensures { KnowsOpen result (λ n. None) }
    {
        OpenSeats {
            alloc,
            by_run: BTreeMap::new(alloc),
            flows: Index::new(alloc),
            due: BTreeSet::new(alloc),
            ready: BTreeSet::new(alloc),
        }
    }

    /// Takes the seat of an open run out: from now on it is as if there were no such run. None where it isn't open, or there was no
    /// memory to look for its flow; then nothing is known any more.
    pub fn take(&mut self, run: RunId) -> Option<Seat>
        ensures { IfSome result (λ s. (rs : ℕ → Option ARun) → KnowsOpen self.old rs
            → (r : ARun) × (rs run ≡ Some r) × IsSeated (Some s) (Some r) × KnowsOpen self.new (replaced run None rs)) }
    {
        let Some(seat) = remove(&mut self.by_run, run) else {
            return None;
        };
        if !self.flows.remove(&seat.head.flow) {
            return None;
        }
        take_out(&mut self.due, run, seat.timers.as_slice());
        take_out(&mut self.ready, run, seat.head.tasks.as_slice());
        Some(seat)
    }

    /// There is no run of this number. Whether that is known: there may be no memory.
    pub fn clear(&mut self, run: RunId) -> bool
        ensures { result ≡ true → (rs : ℕ → Option ARun) → KnowsOpen self.old rs → KnowsOpen self.new (replaced run None rs) }
    {
        if !self.by_run.contains_key(&run.get()) {
            return true;
        }
        self.take(run).is_some()
    }

    /// There is a run of this number, which is open. Whether there was memory for it.
    fn put_open(&mut self, run: RunId, seat: Seat) -> bool
        ensures { result ≡ true → (rs : ℕ → Option ARun) → (r : ARun) → rs run ≡ None → IsSeated (Some seat) (Some r)
            → KnowsOpen self.old rs → KnowsOpen self.new (replaced run (Some r) rs) }
    {
        if !self.flows.put(run, &seat.head.flow) {
            return false;
        }
        if !put_in(&mut self.due, run, seat.timers.as_slice()) {
            return false;
        }
        if !put_in(&mut self.ready, run, seat.head.tasks.as_slice()) {
            return false;
        }
        insert(self.alloc, &mut self.by_run, run, seat)
    }

    /// There is a run of this number, open or not. Whether there was memory for it.
    pub fn put(&mut self, run: RunId, seat: Option<Seat>) -> bool
        ensures { result ≡ true → (rs : ℕ → Option ARun) → (r : ARun) → rs run ≡ None → IsSeated seat (Some r)
            → KnowsOpen self.old rs → KnowsOpen self.new (replaced run (Some r) rs) }
    {
        match seat {
            Some(seat) => self.put_open(run, seat),
            None => true,
        }
    }

    /// The seat of a run, if it is open.
    pub fn seat(&self, run: RunId) -> Option<&Seat>
        ensures { IfSome result (λ s. (rs : ℕ → Option ARun) → KnowsOpen self.now rs
            → (r : ARun) × (rs run ≡ Some r) × IsSeated (Some s.now) (Some r)) }
    {
        match self.by_run.get(&run.get()) {
            Some(apart) => Some(apart.as_seat()),
            None => None,
        }
    }

    /// How many runs are open.
    pub fn count(&self) -> u64
        ensures { (runs : _) → KnowsOpen self.now (λ n. nth runs n) → result ≡ length (filter is_open_run runs) }
    {
        self.by_run.len() as u64
    }
}
