//! What is known of the rows before they are changed: then it isn't asked again, and no statement is made that would find
//! nothing.

ghost use Rattle.std.specs.Prelude.{◌≡◌};
ghost use Rattle.flow_maps.specs.Serving.{Serves};
ghost use Rattle.flow_tables.specs.Known as words;
ghost use Rattle.flow_tables.specs.Names.{Book, Tables, Tells};

use flow_base::book::{Change, OpenActivity, Timer};
use flow_base::effect::{Effect, effect_of};
use flow_base::event::{Input, What};
use flow_base::number::{EventId, RunId};
use flow_maps::maps::Maps;
use flow_maps::seat::Seat;

/// Which rows a run may have in the outbox.
#[derive(Clone, Copy, Debug, PartialEq, Eq)]
pub enum OpenTasks {
    Gone,
    /// That of the activity of this event, and no other.
    Single(EventId),
    Unsure,
}

/// How a run stands in its rows.
#[derive(Clone, Copy, Debug, PartialEq, Eq)]
pub struct RowStanding {
    /// Whether the run is open.
    pub is_open: bool,
    /// Whether its row is known to be marked as open.
    pub is_marked: bool,
    pub tasks: OpenTasks,
    /// Whether it may have rows of timers.
    pub has_timers: bool,
}

/// A run of which all this is known.
#[derive(Clone, Copy, Debug, PartialEq, Eq)]
pub struct KnownRun {
    pub number: RunId,
    /// How many events it has.
    pub count: u64,
    pub standing: RowStanding,
}

/// What is known where a change is made.
#[derive(Clone, Copy, Debug, PartialEq, Eq)]
pub struct RowFacts {
    pub run: Option<KnownRun>,
    /// How many texts there are.
    pub texts: Option<u64>,
    /// How many runs there are.
    pub runs: Option<u64>,
}

/// What is known of tables of which nothing was read.
pub fn nothing_known() -> RowFacts
    ensures { result ≡ words.nothing_known }
{
    RowFacts {
        run: None,
        texts: None,
        runs: None,
    }
}

/// A run of which nothing is there but its row, marked as open or not.
pub fn first_standing(is_marked: bool) -> RowStanding
    ensures { result ≡ words.first_standing is_marked }
{
    RowStanding {
        is_open: false,
        is_marked,
        tasks: OpenTasks::Gone,
        has_timers: false,
    }
}

/// A run whose row alone was looked at.
pub fn any_standing(is_open: bool) -> RowStanding
    ensures { result ≡ words.any_standing is_open }
{
    RowStanding {
        is_open,
        is_marked: false,
        tasks: OpenTasks::Unsure,
        has_timers: true,
    }
}

/// What is known of the outbox once this activity's row is gone.
fn ended(tasks: &OpenTasks, scheduled: EventId) -> OpenTasks
    ensures { result ≡ words.ended tasks.now scheduled }
{
    match tasks {
        OpenTasks::Single(event) if event.get() == scheduled.get() => OpenTasks::Gone,
        known => *known,
    }
}

/// How a run stands behind an event.
pub fn standing_after(standing: &RowStanding, what: &What) -> RowStanding
    ensures { result ≡ words.stands_what standing.now what.now }
{
    let mut after = *standing;
    match effect_of(what) {
        Effect::Begins => after.is_open = true,
        Effect::OpensActivity => after.tasks = OpenTasks::Unsure,
        Effect::OpensTimer(_) => after.has_timers = true,
        Effect::EndsActivity(scheduled) => after.tasks = ended(&standing.tasks, scheduled),
        Effect::Closes(_) => {
            after.is_open = false;
            after.is_marked = false;
            after.tasks = OpenTasks::Gone;
        }
        Effect::EndsTimer(_) => {}
        Effect::Nothing => {}
    }
    after
}

/// Whether a turn with this input begins its run.
pub fn begins(input: &Input) -> bool
    ensures { result ≡ words.begins input.now }
{
    matches!(input, Input::Started(_))
}

fn is_only(tasks: &OpenTasks, event: EventId) -> bool
    ensures { result ≡ words.is_only tasks.now event }
{
    match tasks {
        OpenTasks::Single(only) => only.get() == event.get(),
        _ => false,
    }
}

/// Whether the activity of this event is known to be the run's only open one.
pub(crate) fn is_single(known: &Option<KnownRun>, run: RunId, event: EventId) -> bool
    ensures { result ≡ words.is_single known.now run event }
{
    match known {
        Some(known) => known.number.get() == run.get() && is_only(&known.standing.tasks, event),
        None => false,
    }
}

fn tasks_known(tasks: &[OpenActivity]) -> OpenTasks
    ensures { result ≡ words.tasks_known tasks.now }
{
    match tasks {
        [] => OpenTasks::Gone,
        [task] => OpenTasks::Single(task.event),
        _ => OpenTasks::Unsure,
    }
}

fn has_some(timers: &[Timer]) -> bool
    ensures { result ≡ words.has_some timers.now }
{
    match timers {
        [] => false,
        _ => true,
    }
}

/// What is known of an open run tells this of its rows.
pub fn seat_known(number: RunId, seat: &Seat) -> KnownRun
    ensures { result ≡ words.seat_known number seat.now }
{
    KnownRun {
        number,
        count: seat.head.events,
        standing: RowStanding {
            is_open: seat.head.is_open,
            is_marked: false,
            tasks: tasks_known(seat.head.tasks.as_slice()),
            has_timers: has_some(seat.timers.as_slice()),
        },
    }
}

/// The same of the run of a number, if it is known.
fn run_known(maps: &Maps, number: RunId) -> Option<KnownRun>
    ensures { (b : Book) → (t : Tables) → Serves maps.now b → Tells t b → words.OfRun result t }
{
    match maps.seat(number) {
        Some(seat) => Some(seat_known(number, seat)),
        None => None,
    }
}

/// The same of the run that a change is of.
fn changed_known(maps: &Maps, change: &Change) -> Option<KnownRun>
    ensures { (b : Book) → (t : Tables) → Serves maps.now b → Tells t b → words.OfRun result t }
{
    match change {
        Change::AddTurn(run, _) => run_known(maps, *run),
        Change::SetAttempt(run, _, _, _) => run_known(maps, *run),
        _ => None,
    }
}

/// What is known of the rows that a change is of.
pub(crate) fn row_facts(maps: &Maps, change: &Change) -> RowFacts
    ensures { (b : Book) → (t : Tables) → Serves maps.now b → Tells t b → words.IsKnown result t }
{
    RowFacts {
        run: changed_known(maps, change),
        texts: maps.text_count(),
        runs: maps.run_count(),
    }
}
