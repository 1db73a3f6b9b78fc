//! All that is known of the runs of a book, followed as the book is changed, and taken back.
ghost use Rattle.std.specs.Prelude.{◌≡◌, ◌+◌, ◌++◌, ◌∷◌, [], IfSome, Some, true, length};
ghost use Rattle.flow_base.specs.declared.book.Run.{Run as ARun};
ghost use Rattle.flow_base.specs.declared.book.Change.TheVariants.{AddRun};
ghost use Rattle.flow_model.specs.Book.{Book, changed, nth, with_run};
ghost use Rattle.flow_maps.specs.Seats.{IsSeat, IsSeated, Knows, KnowsRuns, made_of};
ghost use Rattle.flow_maps.specs.Signals.{AreOf, IsUntaken};
ghost use Rattle.flow_maps.specs.Undoing.{IsUndo, WasBefore, WasBegun};

use crate::heads::copied_request;
use crate::index::Index;
use crate::open_seats::OpenSeats;
use crate::seat::{Seat, first_seat, seat_behind, seat_of, taken_on};
use crate::signals::{SignalEvents, is_quiet};
use crate::turned::count_before;
use crate::undo::{RunBefore, Undo};
use flow_base::book::{Change, Run, Turn};
use flow_base::number::{LAST_NUMBER, RunId, TextNo};
use flow_base::text::Key;
use std::alloc::Global;

/// How many runs there are, which of them a request started, and the seats of the open ones.
#[derive(Drop)]
pub struct KnownRuns {
    pub(crate) count: u64,
    pub(crate) requests: Index,
    pub(crate) seats: OpenSeats,
}

impl KnownRuns {
    fn new(alloc: Global) -> KnownRuns
        ensures { (b : Book) → b.runs ≡ [] → KnowsRuns result b }
    {
        KnownRuns {
            count: 0,
            requests: Index::new(alloc),
            seats: OpenSeats::new(alloc),
        }
    }

    /// The number that the next run gets.
    fn next_run(&self) -> Option<RunId>
        ensures { IfSome result (λ n. (b : Book) → KnowsRuns self.now b → n ≡ length b.runs + 1) }
    {
        if self.count >= LAST_NUMBER {
            return None;
        }
        RunId::new(self.count + 1)
    }

    /// One more run, open or not, which has this number. Whether there was memory for it.
    fn add(&mut self, run: RunId, request: &Option<Key>, seat: Option<Seat>) -> bool
        ensures { result ≡ true → (b : Book) → (r : ARun) → run ≡ length b.runs + 1 → r.request ≡ request.now → IsSeated seat (Some r)
            → KnowsRuns self.old b → KnowsRuns self.new (record b { runs = b.runs ++ r ∷ [] }) }
    {
        if !self.requests.put_if(run, request) {
            return false;
        }
        let count = run.get();
        self.count = count;
        self.seats.put(run, seat)
    }

    /// The last run, which has this request, is there no more. Whether there was memory to look for it.
    fn take_last_back(&mut self, request: &Option<Key>) -> bool
        ensures { result ≡ true → (b : Book) → (r : ARun) → r.request ≡ request.now → KnowsRuns self.old (record b { runs = b.runs ++ r ∷ [] })
            → KnowsRuns self.new b }
    {
        let Some(run) = RunId::new(self.count) else {
            return false;
        };
        let Some(before) = count_before(self.count) else {
            return false;
        };
        if !self.requests.remove_if(request) {
            return false;
        }
        self.count = before;
        self.seats.clear(run)
    }
}

/// The runs, and where the signals of their flows are recorded.
#[derive(Drop)]
pub struct Facts {
    alloc: Global,
    pub(crate) runs: KnownRuns,
    pub(crate) signals: SignalEvents,
}

/// The signal that a change of a run brings to it, if it brings one. None where that isn't known, there was no room, or it isn't such a
/// change.
fn signal_by(
    signals: &mut SignalEvents,
    seat: &Seat,
    run: RunId,
    change: &Change,
) -> Option<Option<Key>>
    ensures { IfSome result (λ o. (b : Book) → (r : ARun) → nth b.runs run ≡ Some r → IsSeat seat.now r → AreOf signals.old b
        → AreOf signals.new (with_run b run (made_of change.now)) × IsUntaken o seat.now.head.flow b (with_run b run (made_of change.now))) }
{
    match change {
        Change::AddTurn(_, turn) => { signals.follow(&seat.head.flow, run, seat.head.events, turn) }
        Change::SetAttempt(_, _, _, _) => Some(None),
        Change::SetText(_, _) => Some(None),
        _ => None,
    }
}

impl Facts {
    /// There is no run yet.
    pub fn none(alloc: Global) -> Facts
        ensures { (b : Book) → b.runs ≡ [] → Knows result b }
    {
        Facts {
            alloc,
            runs: KnownRuns::new(alloc),
            signals: SignalEvents::new(alloc),
        }
    }

    /// One more run, which was read whole. Whether there was memory for it.
    pub fn add_whole(&mut self, whole: &Run) -> bool
        ensures { result ≡ true → (b : Book) → Knows self.old b → Knows self.new (record b { runs = b.runs ++ whole.now ∷ [] }) }
    {
        let Some(run) = self.runs.next_run() else {
            return false;
        };
        let Some(seat) = seat_of(self.alloc, whole) else {
            return false;
        };
        if !self
            .signals
            .add_run(&whole.flow, run, whole.history.as_slice())
        {
            return false;
        }
        self.runs.add(run, &whole.request, seat)
    }

    /// One more run, with its first turn. None where there was no memory for it, or that turn is a signal.
    fn begin(
        &mut self,
        flow: &Key,
        request: &Option<Key>,
        text: TextNo,
        turn: &Turn,
    ) -> Option<Undo>
        ensures { IfSome result (λ u. (b : Book) → Knows self.old b → Knows self.new (changed b (AddRun flow.now request.now text turn.now))
            × IsUndo u b (changed b (AddRun flow.now request.now text turn.now))) }
    {
        if !is_quiet(&turn.input) {
            return None;
        }
        let Some(run) = self.runs.next_run() else {
            return None;
        };
        let Ok(begun) = copied_request(self.alloc, request) else {
            return None;
        };
        let Some(seat) = first_seat(self.alloc, flow, request, text, turn) else {
            return None;
        };
        if !self.runs.add(run, request, seat) {
            return None;
        }
        Some(Undo::Begun(begun))
    }

    /// An open run is changed so. None where it isn't open, there was no memory for it, or it isn't such a change.
    fn go_on(&mut self, run: RunId, change: &Change) -> Option<RunBefore>
        ensures { IfSome result (λ u. (b : Book) → Knows self.old b → Knows self.new (with_run b run (made_of change.now))
            × WasBefore u b (with_run b run (made_of change.now))) }
    {
        let Some(seat) = self.runs.seats.take(run) else {
            return None;
        };
        let mut seat = seat;
        let Some(signal) = signal_by(&mut self.signals, &seat, run, change) else {
            return None;
        };
        let Some(kept) = taken_on(self.alloc, &mut seat) else {
            return None;
        };
        let Some(behind) = seat_behind(self.alloc, kept, change) else {
            return None;
        };
        if !self.runs.seats.put(run, behind) {
            return None;
        }
        Some(RunBefore { run, seat, signal })
    }

    /// The same, where the change is one of this run.
    fn follow(&mut self, run: RunId, change: &Change) -> Option<Undo>
        ensures { IfSome result (λ u. (b : Book) → changed b change.now ≡ with_run b run (made_of change.now) → Knows self.old b
            → Knows self.new (changed b change.now) × IsUndo u b (changed b change.now)) }
    {
        match self.go_on(run, change) {
            Some(before) => Some(Undo::Before(before)),
            None => None,
        }
    }

    /// The book is changed so: what takes the change back. None where it isn't followed.
    pub fn note(&mut self, change: &Change) -> Option<Undo>
        ensures { IfSome result (λ u. (b : Book) → Knows self.old b → Knows self.new (changed b change.now) × IsUndo u b (changed b change.now)) }
    {
        match change {
            Change::AddText(_) => Some(Undo::Text),
            Change::AddRun(flow, request, text, turn) => self.begin(flow, request, *text, turn),
            Change::AddTurn(run, _) => self.follow(*run, change),
            Change::SetAttempt(run, _, _, _) => self.follow(*run, change),
            Change::SetText(run, _) => self.follow(*run, change),
        }
    }

    /// A run that was begun is there no more. Whether there was memory to look for it.
    fn take_run_back(&mut self, request: &Option<Key>) -> bool
        ensures { result ≡ true → (b c : Book) → WasBegun request.now b c → Knows self.old c → Knows self.new b }
    {
        self.runs.take_last_back(request)
    }

    /// A run is again as it was. Whether there was memory for it.
    fn put_run_back(&mut self, before: RunBefore) -> bool
        ensures { result ≡ true → (b c : Book) → WasBefore before b c → Knows self.old c → Knows self.new b }
    {
        let RunBefore { run, seat, signal } = before;
        if !self.signals.put_back(&seat.head.flow, &signal) {
            return false;
        }
        if !self.runs.seats.clear(run) {
            return false;
        }
        self.runs.seats.put(run, Some(seat))
    }

    /// One change is taken back. Whether there was memory for it.
    pub fn take_back(&mut self, undo: Undo) -> bool
        ensures { result ≡ true → (b c : Book) → IsUndo undo b c → Knows self.old c → Knows self.new b }
    {
        match undo {
            Undo::Text => true,
            Undo::Begun(request) => self.take_run_back(&request),
            Undo::Before(before) => self.put_run_back(before),
        }
    }
}
