//! What all runs of a book come to, gathered from one after another as they are read. It serves where the maps don't tell it, as for
//! want of memory.
ghost use Rattle.std.specs.Prelude.{◌≡◌, ◌+◌, ◌∷◌, [], ℕ, List, OnOk, None, length, filter, if◌then◌else◌};
ghost use Rattle.flow_base.specs.declared.book.Run.{Run as ARun};
ghost use Rattle.flow_model.specs.Book.{signalled_from, signal_in, is_run_of, found_in};
ghost use Rattle.flow_maps.specs.Agenda.{is_open_run};
ghost use Rattle.flow_maps.specs.Gathering.{listed_with, outlook_from, found_with};
ghost use Rattle.flow_maps.specs.Signals as rule;

use crate::outlook::{BookWaits, add_tasks, moment_of, soonest, with_next};
use flow_base::book::{Due, OpenActivity, Run};
use flow_base::number::{EventId, Moment, RunId};
use flow_base::sequence::Sequence;
use flow_base::text::Key;
use flow_view::due::least_of;
use flow_view::history::{is_open, signal_in, timers_left};
use std::alloc::{AllocError, Global};

/// What is gathered from runs.
pub trait Gathers {
    type Value: Drop;

    /// What it comes to with these runs too, of which the first has this number.
    ghost comes_to: { Self → ℕ → List ARun → Self.Value };

    /// Gathers from one more run, of this number.
    fn add(&mut self, number: RunId, run: &Run) -> Result<(), AllocError>
        ensures { OnOk result ((rs : List ARun) → comes_to self.new (number + 1) rs ≡ comes_to self.old number (run.now ∷ rs)) };

    /// What all of them came to.
    fn end(self) -> Self::Value
        ensures { (n : ℕ) → result ≡ comes_to self n [] };
}

/// What runs wait for at a moment, and not before another, as far as they are listed.
#[derive(Drop)]
pub struct WaitingList {
    alloc: Global,
    since: u64,
    at: Moment,
    /// The open activities that may be attempted by then, and not before.
    ready: Vec<(RunId, OpenActivity)>,
    /// The first moment behind it at which another may be attempted.
    next: Option<Moment>,
    /// The open timer that is due first.
    first: Option<Due>,
    /// Those that are open.
    opened: Vec<RunId>,
}

/// Lists a run if it is open.
fn list_open(list: &mut Vec<RunId>, number: RunId, run: &Run) -> Result<(), AllocError>
    ensures { OnOk result ((rs : List ARun) → length list.new.items + length (filter is_open_run rs) ≡ length list.old.items + length
        (filter is_open_run (run.now ∷ rs))) }
{
    if !is_open(run.history.as_slice()) {
        return Ok(());
    }
    list.push(number)?;
    Ok(())
}

impl WaitingList {
    /// No run yet.
    pub fn new(alloc: Global, since: u64, at: Moment) -> WaitingList
        ensures { (n : ℕ) → (rs : List ARun) → listed_with result n rs ≡ outlook_from since at n rs }
    {
        WaitingList {
            alloc,
            since,
            at,
            ready: Vec::new(alloc),
            next: None,
            first: None,
            opened: Vec::new(alloc),
        }
    }
}

impl Gathers for WaitingList {
    type Value = BookWaits;

    ghost comes_to = { λ l n rs. listed_with l n rs };

    fn add(&mut self, number: RunId, run: &Run) -> Result<(), AllocError> {
        let timers = timers_left(self.alloc, run.history.as_slice())?;
        let first = least_of(Moment::last(), number, self.first, timers.as_slice());
        let next = soonest(self.at, self.next, number, run.tasks.as_slice());
        let tasks = run.tasks.as_slice();
        add_tasks(&mut self.ready, self.since, self.at, number, tasks)?;
        list_open(&mut self.opened, number, run)?;
        self.next = next;
        self.first = first;
        Ok(())
    }

    fn end(self) -> BookWaits {
        let WaitingList {
            alloc: _,
            since: _,
            at: _,
            ready,
            next,
            first,
            opened,
        } = self;
        BookWaits {
            ready: Sequence::from_vec(ready),
            due: with_next(moment_of(first), next),
            open_runs: opened.len() as u64,
        }
    }
}

/// The signal of a request that a run of a flow has taken, if one was found so far.
#[derive(Drop)]
pub struct SignalAsked<'a> {
    flow: &'a Key,
    request: &'a Key,
    found: Option<(RunId, EventId)>,
}

/// Where a run has recorded the signal of a request, if it is of this flow.
fn signal_of_run(number: RunId, run: &Run, flow: &Key, request: &Key) -> Option<(RunId, EventId)>
    ensures { result ≡ (if is_run_of flow.now run.now then found_in number (signal_in request.now run.now.history) None else None) }
{
    if !run.flow.is(flow) {
        return None;
    }
    match signal_in(run.history.as_slice(), request) {
        Some(event) => Some((number, event)),
        None => None,
    }
}

/// What was found before, else what is found later.
fn or_later(
    found: Option<(RunId, EventId)>,
    later: Option<(RunId, EventId)>,
) -> Option<(RunId, EventId)>
    ensures { result ≡ rule.or_later found later }
{
    match found {
        Some(found) => Some(found),
        None => later,
    }
}

impl<'a> SignalAsked<'a> {
    /// Nothing is found yet.
    pub fn new(flow: &'a Key, request: &'a Key) -> SignalAsked<'a>
        ensures { (n : ℕ) → (rs : List ARun) → found_with result n rs ≡ signalled_from flow.now request.now n rs }
    {
        SignalAsked {
            flow,
            request,
            found: None,
        }
    }
}

impl Gathers for SignalAsked<'_> {
    type Value = Option<(RunId, EventId)>;

    ghost comes_to = { λ s n rs. found_with s n rs };

    fn add(&mut self, number: RunId, run: &Run) -> Result<(), AllocError> {
        let later = signal_of_run(number, run, self.flow, self.request);
        let found = or_later(self.found, later);
        self.found = found;
        Ok(())
    }

    fn end(self) -> Option<(RunId, EventId)> {
        self.found
    }
}
