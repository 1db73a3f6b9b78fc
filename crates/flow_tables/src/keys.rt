//! What is known of a book that was read whole, and the reads of a book that it may answer.
ghost use Rattle.std.specs.Prelude.{◌≡◌};
ghost use Rattle.flow_tables.specs.Names.{Book, IfSome, List, Bytes, length};
ghost use Rattle.flow_maps.specs.Serving.{Serves};
ghost use Rattle.flow_maps.specs.Undoing.{GoesBack};
ghost use Rattle.flow_rows.specs.Whole.{shown_book};

use crate::ask::{BookRead, Of};
use crate::first_due::{LeastDue, NextMoment, moment_of};
use crate::one_event::OneEvent;
use crate::one_run::OneRun;
use crate::questions::{
    Count, LastRun, LastText, NewestEvent, OpenRun, Requested, RunOf, TextBody,
};
use flow_base::book::{Due, Run};
use flow_base::event::Event;
use flow_base::number::{Moment, RunId};
use flow_base::text::RawText;
use flow_maps::maps::Maps;
use flow_rows::book::WholeBook;
use flow_view::head::Head;
use std::alloc::Global;

/// What is known of these runs, which were read whole.
fn keys_of_runs(alloc: Global, runs: &[Run]) -> Maps
    ensures serves { (texts : List Bytes) → Serves result (record { texts = texts; runs = runs.now }) }
    ensures goes_back { (b : Book) → GoesBack result b b }
{
    let mut maps = Maps::none(alloc);
    for run in runs {
        maps.add_whole(run);
    }
    maps
}

fn text_count(book: &WholeBook) -> u64
    ensures { result ≡ length book.now.texts }
{
    book.texts.as_slice().len() as u64
}

/// What is known of a book that was read whole.
pub(crate) fn keys_of_book(alloc: Global, book: &WholeBook) -> Maps
    ensures serves { Serves result (shown_book book.now) }
    ensures goes_back { (b : Book) → GoesBack result b b }
{
    let mut maps = keys_of_runs(alloc, book.runs.as_slice());
    maps.count_texts(text_count(book));
    maps
}

/// A read of the book that its keys may answer.
pub(crate) trait ByKey: BookRead {
    fn find(&self, maps: &Maps) -> Option<Self::Value>
        ensures { IfSome result (λ v. (b : Book) → Serves maps.now b → v ≡ Self.value self.now b) };
}

impl ByKey for Of<RunOf<'_>> {
    fn find(&self, maps: &Maps) -> Option<Option<RunId>> {
        match &self.0 {
            Requested(request) => maps.requested(request),
            OpenRun(flow) => maps.open_run(flow),
        }
    }
}

impl ByKey for Of<Count> {
    fn find(&self, maps: &Maps) -> Option<u64> {
        match &self.0 {
            LastText => maps.text_count(),
            LastRun => maps.run_count(),
        }
    }
}

impl ByKey for OneRun<NewestEvent> {
    fn find(&self, maps: &Maps) -> Option<Option<Head>> {
        Some(Some(maps.head(self.0.0)?))
    }
}

impl ByKey for OneEvent {
    fn find(&self, maps: &Maps) -> Option<Option<Event>> {
        Some(Some(maps.event(self.0, self.1)?))
    }
}

impl ByKey for Of<TextBody> {
    fn find(&self, maps: &Maps) -> Option<Option<RawText>> {
        Some(Some(maps.text(self.0.0)?))
    }
}

impl ByKey for LeastDue {
    fn find(&self, maps: &Maps) -> Option<Option<Due>> {
        maps.least_due(self.0)
    }
}

impl ByKey for NextMoment {
    fn find(&self, maps: &Maps) -> Option<Option<Moment>> {
        Some(moment_of(maps.least_due(Moment::last())?))
    }
}
