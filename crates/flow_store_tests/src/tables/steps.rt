//! What is done with tables in memory, step by step, and what each step is to answer. One function owns the tables, and
//! lends them to each step; the tests name rows alone.
use crate::tables::puts::{Put, change};
use crate::tables::rows::{event, key, moment, run};
use crate::tables::statements::is_told;
use flow_base::book::Due;
use flow_base::number::{EventId, RunId};
use flow_base::text::RawText;
use flow_check::language::Language;
use flow_tables::listener::Nobody;
use flow_tables::tables::Tables;
use flow_view::fault::ViewFault;
use flow_view::head::Head;
use flow_view::view::View;
use sqlite::{Connection, MemStore};
use std::alloc::Global;

pub type Memory = Tables<MemStore>;

/// A step, and its answer. Where a number is wanted of what isn't there, it is 0.
#[derive(Clone, Copy)]
pub enum Step {
    /// A transaction begins, and is committed or rolled back.
    Begins,
    Commits,
    RollsBack,
    /// A commit is refused.
    CommitsNothing,
    /// A change is taken.
    Puts(Put),
    /// A change is refused, and so all that follows in its transaction.
    Refuses(Put),
    /// How many runs there are isn't told.
    ReadsNothing,
    /// How many runs there are.
    Runs(u64),
    /// The number of a text.
    Text(&'static str, u64),
    /// A run of this number is read, which has so many events and open activities.
    Run(u64, usize, usize),
    /// A run that is read.
    Reads(u64),
    /// The head of a run that is read.
    ReadsHead(u64),
    /// How many events run 1 has, its text, and the event and the attempt of its one open activity.
    Head(u64, u64, u64, u64),
    /// Whether run 1 has an event of this number.
    Event(u64, bool),
    /// Of a flow and a request: the run that the request started, and the open one of the flow.
    Found(&'static str, &'static str, u64, u64),
    /// The timer that is due first by a moment: its moment, its run and its event.
    Due(u64, u64, u64, u64),
    /// When the next timer is due.
    Next(u64),
    /// The run and the event of the signal of a request in flow `f`.
    Signal(&'static str, u64, u64),
}

/// A text.
pub const A: &str = "workflow a() {}";

/// That text is put.
pub const TEXT: Step = Step::Puts(Put::Text(A));

// Each call of the tables in a function without clauses, so that no other carries those of all.

fn begins(tables: &mut Memory) -> bool {
    tables.begin().is_ok()
}

fn commits(tables: &mut Memory) -> bool {
    tables.commit().is_ok()
}

fn rolls_back(tables: &mut Memory) -> bool {
    tables.rollback().is_ok()
}

/// Whether a change is taken; nothing where it is refused as no tables take it.
fn puts(alloc: Global, tables: &mut Memory, put: Put) -> Option<bool> {
    match change(alloc, put) {
        Ok(change) => answer(&tables.put(&change)),
        Err(_) => Some(false),
    }
}

fn answer(put: &Result<(), ViewFault>) -> Option<bool> {
    match put {
        Ok(()) => Some(true),
        Err(ViewFault::StoreRefused) => None,
        Err(_) => Some(false),
    }
}

fn reads_nothing(tables: &mut Memory) -> bool {
    matches!(tables.run_count(), Err(ViewFault::StoreRefused))
}

fn has_runs(tables: &mut Memory, count: u64) -> bool {
    matches!(tables.run_count(), Ok(n) if n == count)
}

fn text_number(alloc: Global, tables: &mut Memory, body: &str) -> Option<u64> {
    let body = RawText::new(alloc, body).ok()?;
    match tables.text_number(&body) {
        Ok(Some(number)) => Some(number.get()),
        Ok(None) => Some(0),
        Err(_) => None,
    }
}

fn has_run(tables: &mut Memory, number: u64, events: usize, tasks: usize) -> bool {
    let Ok(number) = run(number) else {
        return false;
    };
    match tables.run(number) {
        Ok(Some(run)) => run.history.as_slice().len() == events
            && run.tasks.as_slice().len() == tasks,
        _ => false,
    }
}

fn reads(tables: &mut Memory, number: u64) -> bool {
    match run(number) {
        Ok(number) => tables.run(number).is_ok(),
        Err(_) => false,
    }
}

fn reads_head(tables: &mut Memory, number: u64) -> bool {
    match run(number) {
        Ok(number) => tables.head(number).is_ok(),
        Err(_) => false,
    }
}

fn head_numbers(head: &Head) -> (u64, u64, u64, u64) {
    match head.tasks.as_slice() {
        [task] => (head.events, head.text.get(), task.event.get(), task.attempt),
        _ => (head.events, head.text.get(), 0, 0),
    }
}

fn head(tables: &mut Memory) -> Option<(u64, u64, u64, u64)> {
    let number = run(1).ok()?;
    match tables.head(number) {
        Ok(Some(head)) => Some(head_numbers(&head)),
        Ok(None) => Some((0, 0, 0, 0)),
        Err(_) => None,
    }
}

/// The number of the event of this number of run 1.
fn event_number(tables: &mut Memory, number: u64) -> Option<u64> {
    let wanted = event(number).ok()?;
    let run = run(1).ok()?;
    match tables.event(run, wanted) {
        Ok(Some(event)) => Some(event.id.get()),
        Ok(None) => Some(0),
        Err(_) => None,
    }
}

fn has_event(tables: &mut Memory, number: u64, is_there: bool) -> bool {
    event_number(tables, number) == Some(if is_there { number } else { 0 })
}

fn number(run: Option<RunId>) -> u64 {
    match run {
        Some(run) => run.get(),
        None => 0,
    }
}

fn requested(alloc: Global, tables: &mut Memory, request: &str) -> Option<u64> {
    let request = key(alloc, request).ok()?;
    match tables.requested(&request) {
        Ok(found) => Some(number(found)),
        Err(_) => None,
    }
}

fn open_run(alloc: Global, tables: &mut Memory, flow: &str) -> Option<u64> {
    let flow = key(alloc, flow).ok()?;
    match tables.open_run(&flow) {
        Ok(found) => Some(number(found)),
        Err(_) => None,
    }
}

fn due_numbers(due: Option<Due>) -> (u64, u64, u64) {
    match due {
        Some(due) => (due.due.get(), due.run.get(), due.id.get()),
        None => (0, 0, 0),
    }
}

fn first_due(tables: &mut Memory, by: u64) -> Option<(u64, u64, u64)> {
    let by = moment(by).ok()?;
    match tables.least_due(by) {
        Ok(due) => Some(due_numbers(due)),
        Err(_) => None,
    }
}

fn next_due(tables: &mut Memory) -> Option<u64> {
    match tables.next_moment() {
        Ok(Some(moment)) => Some(moment.get()),
        Ok(None) => Some(0),
        Err(_) => None,
    }
}

fn signal_numbers(signal: Option<(RunId, EventId)>) -> (u64, u64) {
    match signal {
        Some((run, event)) => (run.get(), event.get()),
        None => (0, 0),
    }
}

fn signalled(alloc: Global, tables: &mut Memory, request: &str) -> Option<(u64, u64)> {
    let flow = key(alloc, "f").ok()?;
    let request = key(alloc, request).ok()?;
    match tables.signalled(&flow, &request) {
        Ok(signal) => Some(signal_numbers(signal)),
        Err(_) => None,
    }
}

/// Whether a step that reads answers so.
fn is_read(alloc: Global, tables: &mut Memory, step: Step) -> bool {
    match step {
        Step::ReadsNothing => reads_nothing(tables),
        Step::Runs(count) => has_runs(tables, count),
        Step::Text(body, number) => text_number(alloc, tables, body) == Some(number),
        Step::Run(number, events, tasks) => has_run(tables, number, events, tasks),
        Step::Reads(number) => reads(tables, number),
        Step::ReadsHead(number) => reads_head(tables, number),
        Step::Head(events, text, task, attempt) => head(tables)
            == Some((events, text, task, attempt)),
        Step::Event(number, is_there) => has_event(tables, number, is_there),
        other => is_found(alloc, tables, other),
    }
}

/// Whether a step that reads over several runs answers so.
fn is_found(alloc: Global, tables: &mut Memory, step: Step) -> bool {
    match step {
        Step::Found(flow, request, first, open) => requested(alloc, tables, request) == Some(first)
            && open_run(alloc, tables, flow) == Some(open),
        Step::Due(by, due, run, event) => first_due(tables, by) == Some((due, run, event)),
        Step::Next(due) => next_due(tables) == Some(due),
        Step::Signal(request, run, event) => signalled(alloc, tables, request)
            == Some((run, event)),
        _ => false,
    }
}

/// Whether a step answers so.
fn is_so(alloc: Global, tables: &mut Memory, step: Step) -> bool {
    match step {
        Step::Begins => begins(tables),
        Step::Commits => commits(tables),
        Step::RollsBack => rolls_back(tables),
        Step::CommitsNothing => !commits(tables),
        Step::Puts(put) => puts(alloc, tables, put) == Some(true),
        Step::Refuses(put) => puts(alloc, tables, put) == None,
        other => is_read(alloc, tables, other),
    }
}

fn all_so(alloc: Global, tables: &mut Memory, steps: &[Step]) -> bool {
    for step in steps {
        if !is_so(alloc, tables, *step) {
            return false;
        }
    }
    true
}

fn opened_over(alloc: Global, conn: Connection<MemStore>) -> Option<Memory> {
    match Tables::open(alloc, &Language, conn, Nobody) {
        Ok((tables, _book, _nobody)) => Some(tables),
        Err(_) => None,
    }
}

/// New tables.
fn opened(alloc: Global) -> Option<Memory> {
    match Connection::open_in_memory(alloc) {
        Ok(conn) => opened_over(alloc, conn),
        Err(_) => None,
    }
}

/// Whether each of these steps over new tables answers so.
pub fn are_so(alloc: Global, steps: &[Step]) -> bool {
    match opened(alloc) {
        Some(mut tables) => all_so(alloc, &mut tables, steps),
        None => false,
    }
}

fn are_so_over(alloc: Global, conn: Connection<MemStore>, steps: &[Step]) -> bool {
    match opened_over(alloc, conn) {
        Some(mut tables) => all_so(alloc, &mut tables, steps),
        None => false,
    }
}

/// The same, and then each of the others over the same store opened again.
pub fn are_so_again(alloc: Global, steps: &[Step], again: &[Step]) -> bool {
    match opened(alloc) {
        Some(mut tables) => {
            let so = all_so(alloc, &mut tables, steps);
            let so_again = are_so_over(alloc, tables.into_connection(), again);
            so && so_again
        }
        None => false,
    }
}

/// Whether each step over new tables answers so, and SQL counts these numbers behind them.
pub fn are_so_and_told(alloc: Global, steps: &[Step], wanted: &[(&str, i64)]) -> bool {
    match opened(alloc) {
        Some(mut tables) => {
            let so = all_so(alloc, &mut tables, steps);
            let mut conn = tables.into_connection();
            let told = is_told(&mut conn, wanted);
            so && told
        }
        None => false,
    }
}
