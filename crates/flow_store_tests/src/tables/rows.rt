//! Rows of tables in memory, one by one: what a test names, and the statement that puts or takes it.
use flow_base::number::{EventId, Moment, RunId, TextNo};
use flow_base::text::{Key, RawText};
use flow_rows::rows::{EventRow, OutboxRow, RunRow, TextRow, TimerRow};
use flow_tables::ask::change;
use flow_tables::row_changes::{
    NewEvent, NewEvents, NewRun, NewTask, NewText, NewTimer, RunMark, TaskGone, TasksGone,
    TimerGone, TimersGone,
};
use sqlite::{Connection, MemStore};
use std::alloc::Global;

pub type Memory = Connection<MemStore>;

/// A change of rows.
#[derive(Clone, Copy)]
pub enum Row {
    /// A text of this number.
    Text(i64, &'static str),
    /// A run of this number, its flow, its request, its text, and whether it is open.
    Run(i64, &'static str, &'static str, i64, i64),
    /// An event of a run, of kind 7.
    Event(i64, i64, &'static str),
    /// Two such events of a run, with one body.
    Events(i64, i64, i64, &'static str),
    /// A timer of a run, due at moment 8.
    Timer(i64, i64),
    /// An activity of a run, whose third attempt is ready at moment 9.
    Task(i64, i64),
    /// A timer of a run goes, or all of them.
    TimerGone(u64, u64),
    TimersGone(u64),
    /// An activity of a run goes, or all of them.
    TaskGone(u64, u64),
    TasksGone(u64),
    /// A run is marked as an open one, or as a closed one.
    Mark(u64, bool),
}

fn add_text(alloc: Global, conn: &mut Memory, num: i64, body: &str) -> bool {
    match RawText::new(alloc, body) {
        Ok(body) => change(conn, &NewText(&TextRow { num, body })).is_ok(),
        Err(_) => false,
    }
}

fn run_row(
    alloc: Global,
    num: i64,
    flow: &str,
    req: &str,
    textnum: i64,
    isopen: i64,
) -> Option<RunRow> {
    let flow = RawText::new(alloc, flow).ok()?;
    let req = RawText::new(alloc, req).ok()?;
    Some(RunRow {
        num,
        flow,
        req,
        textnum,
        isopen,
    })
}

fn add_run(conn: &mut Memory, row: Option<RunRow>) -> bool {
    match row {
        Some(row) => change(conn, &NewRun(&row)).is_ok(),
        None => false,
    }
}

fn event_row(alloc: Global, run: i64, id: i64, body: &str) -> Option<EventRow> {
    let body = RawText::new(alloc, body).ok()?;
    Some(EventRow {
        run,
        id,
        kind: 7,
        at: Some(8),
        body,
    })
}

fn add_event(alloc: Global, conn: &mut Memory, run: i64, id: i64, body: &str) -> bool {
    match event_row(alloc, run, id, body) {
        Some(row) => change(conn, &NewEvent(&row)).is_ok(),
        None => false,
    }
}

fn add_both(conn: &mut Memory, first: Option<EventRow>, second: Option<EventRow>) -> bool {
    match (first, second) {
        (Some(first), Some(second)) => change(conn, &NewEvents(&first, &second)).is_ok(),
        _ => false,
    }
}

fn add_timer(conn: &mut Memory, run: i64, id: i64) -> bool {
    change(conn, &NewTimer(&TimerRow { run, id, due: 8 })).is_ok()
}

fn add_task(conn: &mut Memory, run: i64, id: i64) -> bool {
    let row = OutboxRow {
        run,
        id,
        attempt: 3,
        ready: 9,
    };
    change(conn, &NewTask(&row)).is_ok()
}

fn take_timer(conn: &mut Memory, number: u64, id: u64) -> bool {
    match (run(number), event(id)) {
        (Ok(run), Ok(event)) => change(conn, &TimerGone(run, event)).is_ok(),
        _ => false,
    }
}

fn take_timers(conn: &mut Memory, number: u64) -> bool {
    match run(number) {
        Ok(run) => change(conn, &TimersGone(run)).is_ok(),
        Err(_) => false,
    }
}

fn take_task(conn: &mut Memory, number: u64, id: u64) -> bool {
    match (run(number), event(id)) {
        (Ok(run), Ok(event)) => change(conn, &TaskGone(run, event)).is_ok(),
        _ => false,
    }
}

fn take_tasks(conn: &mut Memory, number: u64) -> bool {
    match run(number) {
        Ok(run) => change(conn, &TasksGone(run)).is_ok(),
        Err(_) => false,
    }
}

fn mark(conn: &mut Memory, number: u64, is_open: bool) -> bool {
    match run(number) {
        Ok(run) => change(conn, &RunMark(run, is_open)).is_ok(),
        Err(_) => false,
    }
}

fn is_taken(conn: &mut Memory, row: Row) -> bool {
    match row {
        Row::TimerGone(run, id) => take_timer(conn, run, id),
        Row::TimersGone(run) => take_timers(conn, run),
        Row::TaskGone(run, id) => take_task(conn, run, id),
        Row::TasksGone(run) => take_tasks(conn, run),
        Row::Mark(run, is_open) => mark(conn, run, is_open),
        _ => false,
    }
}

/// Whether the change of a row is taken.
pub fn is_changed(alloc: Global, conn: &mut Memory, row: Row) -> bool {
    match row {
        Row::Text(num, body) => add_text(alloc, conn, num, body),
        Row::Run(num, flow, req, textnum, isopen) => {
            add_run(conn, run_row(alloc, num, flow, req, textnum, isopen))
        }
        Row::Event(run, id, body) => add_event(alloc, conn, run, id, body),
        Row::Events(run, first, second, body) => add_both(
            conn,
            event_row(alloc, run, first, body),
            event_row(alloc, run, second, body),
        ),
        Row::Timer(run, id) => add_timer(conn, run, id),
        Row::Task(run, id) => add_task(conn, run, id),
        other => is_taken(conn, other),
    }
}

pub fn run(number: u64) -> Result<RunId, &'static str> {
    match RunId::new(number) {
        Some(run) => Ok(run),
        None => Err("no run"),
    }
}

pub fn event(number: u64) -> Result<EventId, &'static str> {
    match EventId::new(number) {
        Some(event) => Ok(event),
        None => Err("no event"),
    }
}

pub fn text_no(number: u64) -> Result<TextNo, &'static str> {
    match TextNo::new(number) {
        Some(text) => Ok(text),
        None => Err("no text"),
    }
}

pub fn moment(milliseconds: u64) -> Result<Moment, &'static str> {
    match Moment::new(milliseconds) {
        Some(moment) => Ok(moment),
        None => Err("no moment"),
    }
}

pub fn key(alloc: Global, text: &str) -> Result<Key, &'static str> {
    match Key::new(alloc, text) {
        Ok(key) => Ok(key),
        Err(_) => Err("no key"),
    }
}
