//! Each question to tables in memory, within a transaction: the rows that are there, and nothing where there is none.
use crate::tables::rows::{Memory, Row, run};
use crate::tables::statements::{Statement, are_so, are_so_behind};
use flow_base::number::TextNo;
use flow_base::text::{Key, RawText};
use flow_rows::rows::{EventRow, OutboxRow, RunRow, TextRow};
use flow_tables::ask::{ask, ask_first};
use flow_tables::fault::StoreFault;
use flow_tables::questions::{
    AllRuns, AllTexts, LastEvent, LastRun, LastText, OpenRun, Requested, RunAt, RunEvents,
    RunTasks, TextBody, TextNumber,
};
use std::alloc::Global;
use std::test::Fail;

/// A question, and its answer.
#[derive(Clone, Copy)]
pub enum Read {
    /// Whether the two texts are read, or whether none is.
    Texts(bool),
    /// Whether the three runs are read, or whether none is.
    Runs(bool),
    /// The number of the last text, and of the last run.
    LastText(Option<i64>),
    LastRun(Option<i64>),
    /// The body of a text.
    Body(u64, Option<&'static str>),
    /// The number of a text.
    Number(&'static str, Option<i64>),
    /// Whether a run is there: the second of the three, or none.
    Run(u64, bool),
    /// The run of a request, and the open one of a flow.
    Requested(&'static str, Option<i64>),
    Open(&'static str, Option<i64>),
    /// Whether the two events of a run are read, or whether none is.
    Events(u64, bool),
    /// The number of the last event of a run.
    LastEvent(u64, Option<i64>),
    /// Whether the two open activities of a run are read, or whether none is.
    Tasks(u64, bool),
}

fn is_text(row: &TextRow, num: i64, body: &str) -> bool {
    row.num == num && row.body.as_str() == body
}

fn are_texts(rows: &[TextRow], are_there: bool) -> bool {
    match rows {
        [first, second] => are_there && is_text(first, 1, "a") && is_text(second, 2, "b"),
        [] => !are_there,
        _ => false,
    }
}

fn texts(alloc: Global, conn: &mut Memory, are_there: bool) -> bool {
    match ask(alloc, conn, &AllTexts) {
        Ok(rows) => are_texts(rows.as_slice(), are_there),
        Err(_) => false,
    }
}

fn is_run(row: &RunRow, num: i64, flow: &str, req: &str, isopen: i64) -> bool {
    let names = row.flow.as_str() == flow && row.req.as_str() == req;
    names && row.num == num && row.textnum == 2 && row.isopen == isopen
}

fn are_runs(rows: &[RunRow], are_there: bool) -> bool {
    match rows {
        [first, second, third] => are_there
            && is_run(first, 1, "f", "p", 0)
            && is_run(second, 2, "f", "q", 1)
            && is_run(third, 3, "g", "r", 0),
        [] => !are_there,
        _ => false,
    }
}

fn runs(alloc: Global, conn: &mut Memory, are_there: bool) -> bool {
    match ask(alloc, conn, &AllRuns) {
        Ok(rows) => are_runs(rows.as_slice(), are_there),
        Err(_) => false,
    }
}

fn is(found: Result<Option<i64>, StoreFault>, wanted: Option<i64>) -> bool {
    match found {
        Ok(number) => number == wanted,
        Err(_) => false,
    }
}

fn last_text(alloc: Global, conn: &mut Memory, wanted: Option<i64>) -> bool {
    is(ask_first(alloc, conn, &LastText), wanted)
}

fn last_run(alloc: Global, conn: &mut Memory, wanted: Option<i64>) -> bool {
    is(ask_first(alloc, conn, &LastRun), wanted)
}

fn is_body(alloc: Global, conn: &mut Memory, number: TextNo, wanted: Option<&str>) -> bool {
    match (ask_first(alloc, conn, &TextBody(number)), wanted) {
        (Ok(Some(found)), Some(body)) => found.as_str() == body,
        (Ok(None), None) => true,
        _ => false,
    }
}

fn body(alloc: Global, conn: &mut Memory, number: u64, wanted: Option<&str>) -> bool {
    match TextNo::new(number) {
        Some(number) => is_body(alloc, conn, number, wanted),
        None => false,
    }
}

fn text_number(alloc: Global, conn: &mut Memory, body: &str, wanted: Option<i64>) -> bool {
    match RawText::new(alloc, body) {
        Ok(body) => is(ask_first(alloc, conn, &TextNumber(&body)), wanted),
        Err(_) => false,
    }
}

fn is_second(found: &Option<RunRow>, is_there: bool) -> bool {
    match found {
        Some(row) => is_there && is_run(row, 2, "f", "q", 1),
        None => !is_there,
    }
}

fn run_at(alloc: Global, conn: &mut Memory, number: u64, is_there: bool) -> bool {
    let Ok(number) = run(number) else {
        return false;
    };
    match ask_first(alloc, conn, &RunAt(number)) {
        Ok(found) => is_second(&found, is_there),
        Err(_) => false,
    }
}

fn requested(alloc: Global, conn: &mut Memory, request: &str, wanted: Option<i64>) -> bool {
    match Key::new(alloc, request) {
        Ok(request) => is(ask_first(alloc, conn, &Requested(&request)), wanted),
        Err(_) => false,
    }
}

fn open_run(alloc: Global, conn: &mut Memory, flow: &str, wanted: Option<i64>) -> bool {
    match Key::new(alloc, flow) {
        Ok(flow) => is(ask_first(alloc, conn, &OpenRun(&flow)), wanted),
        Err(_) => false,
    }
}

fn is_event(row: &EventRow, id: i64, body: &str) -> bool {
    row.run == 1 && row.id == id && row.kind == 7 && row.body.as_str() == body
}

fn are_events(rows: &[EventRow], are_there: bool) -> bool {
    match rows {
        [first, second] => are_there && is_event(first, 1, "x") && is_event(second, 2, "y"),
        [] => !are_there,
        _ => false,
    }
}

fn events(alloc: Global, conn: &mut Memory, number: u64, are_there: bool) -> bool {
    let Ok(number) = run(number) else {
        return false;
    };
    match ask(alloc, conn, &RunEvents(number)) {
        Ok(rows) => are_events(rows.as_slice(), are_there),
        Err(_) => false,
    }
}

fn last_event(alloc: Global, conn: &mut Memory, of: u64, wanted: Option<i64>) -> bool {
    match run(of) {
        Ok(run) => is(ask_first(alloc, conn, &LastEvent(run)), wanted),
        Err(_) => false,
    }
}

fn is_task(row: &OutboxRow, id: i64) -> bool {
    row.run == 1 && row.id == id && row.attempt == 3 && row.ready == 9
}

fn are_tasks(rows: &[OutboxRow], are_there: bool) -> bool {
    match rows {
        [first, second] => are_there && is_task(first, 4) && is_task(second, 6),
        [] => !are_there,
        _ => false,
    }
}

fn tasks(alloc: Global, conn: &mut Memory, number: u64, are_there: bool) -> bool {
    let Ok(number) = run(number) else {
        return false;
    };
    match ask(alloc, conn, &RunTasks(number)) {
        Ok(rows) => are_tasks(rows.as_slice(), are_there),
        Err(_) => false,
    }
}

/// Whether a question for rows is answered so.
fn are_read(alloc: Global, conn: &mut Memory, read: Read) -> bool {
    match read {
        Read::Texts(are_there) => texts(alloc, conn, are_there),
        Read::Runs(are_there) => runs(alloc, conn, are_there),
        Read::Body(number, wanted) => body(alloc, conn, number, wanted),
        Read::Run(number, is_there) => run_at(alloc, conn, number, is_there),
        Read::Events(run, are_there) => events(alloc, conn, run, are_there),
        Read::Tasks(run, are_there) => tasks(alloc, conn, run, are_there),
        _ => false,
    }
}

/// Whether a question is answered so.
pub fn is_read(alloc: Global, conn: &mut Memory, read: Read) -> bool {
    match read {
        Read::LastText(wanted) => last_text(alloc, conn, wanted),
        Read::LastRun(wanted) => last_run(alloc, conn, wanted),
        Read::Number(body, wanted) => text_number(alloc, conn, body, wanted),
        Read::Requested(request, wanted) => requested(alloc, conn, request, wanted),
        Read::Open(flow, wanted) => open_run(alloc, conn, flow, wanted),
        Read::LastEvent(run, wanted) => last_event(alloc, conn, run, wanted),
        other => are_read(alloc, conn, other),
    }
}

const TEXT_A: Statement = Statement::Changes(Row::Text(1, "a"));

const TEXT_B: Statement = Statement::Changes(Row::Text(2, "b"));

const TWO_TEXTS: &[Statement] = &[Statement::Makes, Statement::Begins, TEXT_A, TEXT_B];

fn behind_texts(alloc: Global, then: &[Statement]) -> bool {
    are_so_behind(alloc, TWO_TEXTS, then)
}

/// The second text's runs: two of one flow, of which the first is closed, and a closed one of another.
const THREE_RUNS: &[Statement] = &[
    Statement::Makes,
    Statement::Begins,
    TEXT_A,
    TEXT_B,
    Statement::Changes(Row::Run(1, "f", "p", 2, 0)),
    Statement::Changes(Row::Run(2, "f", "q", 2, 1)),
    Statement::Changes(Row::Run(3, "g", "r", 2, 0)),
];

fn behind_runs(alloc: Global, then: &[Statement]) -> bool {
    are_so_behind(alloc, THREE_RUNS, then)
}

const NOTHING: &[Statement] = &[
    Statement::Makes,
    Statement::Begins,
    Statement::Reads(Read::Texts(false)),
    Statement::Reads(Read::Runs(false)),
    Statement::Reads(Read::LastText(None)),
    Statement::Reads(Read::LastRun(None)),
];

#[test]
fn no_rows_are_read(rt: HostRuntime) -> Result<(), Fail> {
    assert!(rt; are_so(rt.alloc(), NOTHING));
    Ok(())
}

const TEXTS: &[Statement] = &[
    Statement::Reads(Read::Texts(true)),
    Statement::Reads(Read::LastText(Some(2))),
];

#[test]
fn texts_are_read(rt: HostRuntime) -> Result<(), Fail> {
    assert!(rt; behind_texts(rt.alloc(), TEXTS));
    Ok(())
}

const BODIES: &[Statement] = &[
    Statement::Reads(Read::Body(1, Some("a"))),
    Statement::Reads(Read::Body(2, Some("b"))),
    Statement::Reads(Read::Body(3, None)),
];

#[test]
fn bodies_are_found(rt: HostRuntime) -> Result<(), Fail> {
    assert!(rt; behind_texts(rt.alloc(), BODIES));
    Ok(())
}

const NUMBERS: &[Statement] = &[
    Statement::Reads(Read::Number("b", Some(2))),
    Statement::Reads(Read::Number("B", None)),
];

#[test]
fn texts_are_found(rt: HostRuntime) -> Result<(), Fail> {
    assert!(rt; behind_texts(rt.alloc(), NUMBERS));
    Ok(())
}

const RUNS: &[Statement] = &[
    Statement::Reads(Read::Runs(true)),
    Statement::Reads(Read::LastRun(Some(3))),
];

#[test]
fn runs_are_read(rt: HostRuntime) -> Result<(), Fail> {
    assert!(rt; behind_runs(rt.alloc(), RUNS));
    Ok(())
}

const A_RUN: &[Statement] = &[
    Statement::Reads(Read::Run(2, true)),
    Statement::Reads(Read::Run(4, false)),
];

#[test]
fn a_run_is_found(rt: HostRuntime) -> Result<(), Fail> {
    assert!(rt; behind_runs(rt.alloc(), A_RUN));
    Ok(())
}

const REQUESTS: &[Statement] = &[
    Statement::Reads(Read::Requested("q", Some(2))),
    Statement::Reads(Read::Requested("f", None)),
];

#[test]
fn requests_are_found(rt: HostRuntime) -> Result<(), Fail> {
    assert!(rt; behind_runs(rt.alloc(), REQUESTS));
    Ok(())
}

const OPEN: &[Statement] = &[
    Statement::Reads(Read::Open("f", Some(2))),
    Statement::Reads(Read::Open("g", None)),
];

#[test]
fn open_runs_are_found(rt: HostRuntime) -> Result<(), Fail> {
    assert!(rt; behind_runs(rt.alloc(), OPEN));
    Ok(())
}

/// Events of two runs, not in their order.
const EVENTS: &[Statement] = &[
    Statement::Changes(Row::Event(1, 2, "y")),
    Statement::Changes(Row::Event(2, 5, "z")),
    Statement::Changes(Row::Event(1, 1, "x")),
    Statement::Reads(Read::Events(1, true)),
    Statement::Reads(Read::Events(3, false)),
];

#[test]
fn events_are_found(rt: HostRuntime) -> Result<(), Fail> {
    assert!(rt; behind_runs(rt.alloc(), EVENTS));
    Ok(())
}

const LAST_EVENTS: &[Statement] = &[
    Statement::Changes(Row::Event(1, 2, "y")),
    Statement::Changes(Row::Event(2, 5, "z")),
    Statement::Changes(Row::Event(1, 1, "x")),
    Statement::Reads(Read::LastEvent(1, Some(2))),
    Statement::Reads(Read::LastEvent(2, Some(5))),
    Statement::Reads(Read::LastEvent(3, None)),
];

#[test]
fn last_events_are_found(rt: HostRuntime) -> Result<(), Fail> {
    assert!(rt; behind_runs(rt.alloc(), LAST_EVENTS));
    Ok(())
}

/// Activities of two runs, not in their order.
const TASKS: &[Statement] = &[
    Statement::Changes(Row::Task(1, 6)),
    Statement::Changes(Row::Task(2, 7)),
    Statement::Changes(Row::Task(1, 4)),
    Statement::Reads(Read::Tasks(1, true)),
    Statement::Reads(Read::Tasks(3, false)),
];

#[test]
fn tasks_are_found(rt: HostRuntime) -> Result<(), Fail> {
    assert!(rt; behind_runs(rt.alloc(), TASKS));
    Ok(())
}
