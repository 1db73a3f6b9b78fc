//! Rows that no opening hands on: a store looks at its foreign keys itself, a run is read from sound rows alone, and what doesn't
//! fit a row isn't recorded.
use flow_base::book::Run;
use flow_base::event::{Cmd, Event, What};
use flow_base::fault::{Damage, Table};
use flow_base::number::{EventId, Moment, RunId, TextNo};
use flow_base::sequence::Sequence;
use flow_base::text::{Key, RawText};
use flow_base::value::Kind;
use flow_check::language::Language;
use flow_rows::change_rows;
use flow_rows::damage::damage;
use flow_rows::recall::read_run;
use flow_rows::rows::{EventRow, OutboxRow, RunRow, StoreRows};
use std::alloc::{AllocError, Global};
use std::test::Fail;

type RunCells = (i64, &'static str, &'static str, i64, i64);

type EventCells = (i64, i64, i64, Option<i64>, &'static str);

type TaskCells = (i64, i64, i64, i64);

const STARTED: &str = "{\"args\":[]}";

const STARTED_BEFORE: &str = "{\"args\":[],\"at\":1000}";

/// A run that waits for an activity.
const RUN: RunCells = (2, "f", "", 2, 1);

const HISTORY: &[EventCells] = &[
    (2, 1, 1, Some(1000), STARTED),
    (
        2,
        2,
        7,
        Some(1000),
        "{\"activity\":\"c\",\"args\":[7],\"every\":500,\"gives\":\"int\",\"tries\":3}",
    ),
];

/// The same in the first format.
const HISTORY_BEFORE: &[EventCells] = &[
    (2, 1, 1, None, STARTED_BEFORE),
    (
        2,
        2,
        7,
        None,
        "{\"activity\":\"c\",\"args\":[7],\"at\":1000,\"every\":500,\"gives\":\"int\",\"tries\":3}",
    ),
];

const OUTBOX: &[TaskCells] = &[(2, 2, 1, 1000)];

fn run_row(alloc: Global, cells: &RunCells) -> Result<RunRow, Fail> {
    let (num, flow, req, textnum, isopen) = cells;
    Ok(RunRow {
        num: *num,
        flow: RawText::new(alloc, flow)?,
        req: RawText::new(alloc, req)?,
        textnum: *textnum,
        isopen: *isopen,
    })
}

fn runs(alloc: Global, cells: &[RunCells]) -> Result<Sequence<RunRow>, Fail> {
    let mut rows = Vec::new(alloc);
    for run in cells {
        rows.push(run_row(alloc, run)?)?;
    }
    Ok(Sequence::from_vec(rows))
}

fn event_row(alloc: Global, cells: &EventCells) -> Result<EventRow, Fail> {
    let (run, id, kind, at, body) = cells;
    Ok(EventRow {
        run: *run,
        id: *id,
        kind: *kind,
        at: *at,
        body: RawText::new(alloc, body)?,
    })
}

fn events(alloc: Global, cells: &[EventCells]) -> Result<Sequence<EventRow>, Fail> {
    let mut rows = Vec::new(alloc);
    for event in cells {
        rows.push(event_row(alloc, event)?)?;
    }
    Ok(Sequence::from_vec(rows))
}

fn outbox(alloc: Global, cells: &[TaskCells]) -> Result<Sequence<OutboxRow>, Fail> {
    let mut rows = Vec::new(alloc);
    for (run, id, attempt, ready) in cells {
        rows.push(OutboxRow {
            run: *run,
            id: *id,
            attempt: *attempt,
            ready: *ready,
        })?;
    }
    Ok(Sequence::from_vec(rows))
}

/// The first damage of a store without texts. Who calls it holds no rows.
fn found(
    alloc: Global,
    runs_of: &[RunCells],
    events_of: &[EventCells],
) -> Result<Option<Damage>, Fail> {
    let runs = runs(alloc, runs_of)?;
    let events = events(alloc, events_of)?;
    let rows = StoreRows {
        texts: Sequence::new(alloc),
        runs,
        events,
        timers: Sequence::new(alloc),
        outbox: Sequence::new(alloc),
    };
    Ok(damage(alloc, &Language, &rows)?)
}

fn at(table: Table, run: i64, place: i64) -> Option<Damage> {
    Some(Damage {
        table,
        run,
        place,
        cause: None,
    })
}

#[test]
fn rows_name_what_is_there(rt: HostRuntime) -> Result<(), Fail> {
    let textless = (1, "f", "", 1, 1);
    assert!(rt; found(rt.alloc(), &[textless], &[])? == at(Table::Run, 1, 0));
    assert!(rt;
        found(rt.alloc(), &[], &[(4, 7, 1, Some(1000), STARTED)])? == at(Table::Event, 4, 7)
    );
    Ok(())
}

/// The run of these rows.
fn recalled(
    alloc: Global,
    cells: &RunCells,
    history: &[EventCells],
    tasks: &[TaskCells],
) -> Result<Option<Run>, Fail> {
    let row = run_row(alloc, cells)?;
    let history = events(alloc, history)?;
    let tasks = outbox(alloc, tasks)?;
    Ok(read_run(alloc, &row, history.as_slice(), tasks.as_slice())?)
}

fn is_run_2(run: &Run) -> bool {
    let tasks = run.tasks.as_slice();
    run.flow.as_str() == "f"
        && run.request.is_none()
        && run.text.get() == 2
        && run.history.len() == 2
        && tasks.len() == 1
        && tasks[0].event.get() == 2
        && tasks[0].attempt == 1
        && tasks[0].ready.get() == 1000
}

/// Whether it is read as run 2. Who calls it holds no run.
fn is_recalled(alloc: Global, history: &[EventCells]) -> Result<bool, Fail> {
    match recalled(alloc, &RUN, history, OUTBOX)? {
        Some(run) => Ok(is_run_2(&run)),
        None => Ok(false),
    }
}

/// Whether no run has such rows.
fn is_none(
    alloc: Global,
    cells: &RunCells,
    history: &[EventCells],
    tasks: &[TaskCells],
) -> Result<bool, Fail> {
    Ok(recalled(alloc, cells, history, tasks)?.is_none())
}

#[test]
fn a_run_is_read_from_its_rows(rt: HostRuntime) -> Result<(), Fail> {
    assert!(rt; is_recalled(rt.alloc(), HISTORY)?);
    assert!(rt; is_recalled(rt.alloc(), HISTORY_BEFORE)?);
    Ok(())
}

#[test]
fn no_run_has_such_rows(rt: HostRuntime) -> Result<(), Fail> {
    let alloc = rt.alloc();
    assert!(rt; is_none(alloc, &(2, "", "", 2, 1), HISTORY, OUTBOX)?);
    assert!(rt; is_none(alloc, &(2, "f", "", 0, 1), HISTORY, OUTBOX)?);
    assert!(rt; is_none(alloc, &RUN, &[(2, 1, 14, Some(1000), STARTED)], OUTBOX)?);
    // A body with its moment beside a column, and one without it beside none.
    assert!(rt;
        is_none(
            alloc,
            &RUN,
            &[(2, 1, 1, Some(1000), STARTED_BEFORE)],
            OUTBOX
        )?
    );
    assert!(rt; is_none(alloc, &RUN, &[(2, 1, 1, None, STARTED)], OUTBOX)?);
    assert!(rt; is_none(alloc, &RUN, &[(2, 1, 1, Some(-1), STARTED)], OUTBOX)?);
    assert!(rt; is_none(alloc, &RUN, HISTORY, &[(2, 2, 1, -1)])?);
    Ok(())
}

fn called(alloc: Global, tries: u64, every: u64) -> Result<Event, Fail> {
    let id = EventId::new(2).ok_or(AllocError)?;
    let at = Moment::new(1000).ok_or(AllocError)?;
    let activity = Key::new(alloc, "c")?;
    Ok(Event {
        id,
        at,
        what: What::Asked(Cmd::Schedule(activity, Sequence::new(alloc), tries, every, Kind::Int)),
    })
}

/// Whether a call of so many tries and this pause fits a row.
fn fits(alloc: Global, tries: u64, every: u64) -> Result<bool, Fail> {
    let event = called(alloc, tries, every)?;
    Ok(change_rows::fits_row(&event))
}

#[test]
fn a_row_has_limits(rt: HostRuntime) -> Result<(), Fail> {
    let alloc = rt.alloc();
    assert!(rt; fits(alloc, 20, 86400000)?);
    assert!(rt; !fits(alloc, 21, 0)?);
    assert!(rt; !fits(alloc, 0, 0)?);
    assert!(rt; !fits(alloc, 1, 86400001)?);
    Ok(())
}

// Its first turn opens it.
#[test]
fn a_new_run_is_not_open(rt: HostRuntime) -> Result<(), Fail> {
    let alloc = rt.alloc();
    let run = RunId::new(2).ok_or(AllocError)?;
    let flow = Key::new(alloc, "f")?;
    let text = TextNo::new(2).ok_or(AllocError)?;
    let row = change_rows::run_row(alloc, run, &flow, &None, text)?;
    assert!(rt;
        row.num == 2
            && row.flow.as_str() == "f"
            && row.req.as_str() == ""
            && row.textnum == 2
            && row.isopen == 0
    );
    Ok(())
}
