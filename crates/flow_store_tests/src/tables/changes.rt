//! Each change of rows on tables in memory, and what SQL finds then.
use crate::tables::rows::Row;
use crate::tables::statements::{Statement, are_so_behind};
use std::alloc::Global;
use std::test::Fail;

/// One text, and two runs of it.
const TWO_RUNS: &[Statement] = &[
    Statement::Makes,
    Statement::Begins,
    Statement::Changes(Row::Text(1, "a")),
    Statement::Changes(Row::Run(1, "f", "q", 1, 1)),
    Statement::Changes(Row::Run(2, "f", "q", 1, 1)),
];

fn behind_two_runs(alloc: Global, then: &[Statement]) -> bool {
    are_so_behind(alloc, TWO_RUNS, then)
}

const RUNS_THERE: &[Statement] = &[
    Statement::Counts("SELECT count(*) FROM text WHERE num = 1 AND body = 'a'", 1),
    Statement::Counts(
        "SELECT count(*) FROM run WHERE flow = 'f' AND req = 'q' AND textnum = 1 AND isopen = 1",
        2,
    ),
];

#[test]
fn texts_and_runs_come(rt: HostRuntime) -> Result<(), Fail> {
    assert!(rt; behind_two_runs(rt.alloc(), RUNS_THERE));
    Ok(())
}

const EVENT: Statement = Statement::Changes(Row::Event(2, 5, "b"));

const AN_EVENT: &[Statement] = &[
    EVENT,
    Statement::Counts(
        "SELECT count(*) FROM event2 WHERE run = 2 AND id = 5 AND kind = 7 AND at = 8 AND body = 'b'",
        1,
    ),
];

#[test]
fn an_event_comes(rt: HostRuntime) -> Result<(), Fail> {
    assert!(rt; behind_two_runs(rt.alloc(), AN_EVENT));
    Ok(())
}

/// Two come in order. Where one of two is there already, neither comes.
const TWO_EVENTS: &[Statement] = &[
    Statement::Changes(Row::Events(2, 5, 6, "b")),
    Statement::Counts(
        "SELECT sum(10 * rowid + id) FROM event2 WHERE run = 2 AND kind = 7 AND at = 8 AND body = 'b'",
        41,
    ),
    Statement::Refuses(Row::Events(2, 7, 6, "b")),
    Statement::Counts("SELECT count(*) FROM event2", 2),
];

#[test]
fn two_events_come(rt: HostRuntime) -> Result<(), Fail> {
    assert!(rt; behind_two_runs(rt.alloc(), TWO_EVENTS));
    Ok(())
}

const TIMER_AND_TASK: &[Statement] = &[
    Statement::Changes(Row::Timer(2, 5)),
    Statement::Changes(Row::Task(1, 6)),
    Statement::Counts(
        "SELECT count(*) FROM timer WHERE run = 2 AND id = 5 AND due = 8",
        1,
    ),
    Statement::Counts(
        "SELECT count(*) FROM outbox WHERE run = 1 AND id = 6 AND attempt = 3 AND ready = 9",
        1,
    ),
];

#[test]
fn a_timer_and_a_task_come(rt: HostRuntime) -> Result<(), Fail> {
    assert!(rt; behind_two_runs(rt.alloc(), TIMER_AND_TASK));
    Ok(())
}

/// An event and a text that are there are refused again, and an event of no run.
const BROKEN: &[Statement] = &[
    EVENT,
    Statement::Refuses(Row::Event(2, 5, "b")),
    Statement::Refuses(Row::Event(3, 5, "b")),
    Statement::Refuses(Row::Text(2, "a")),
    Statement::Counts("SELECT count(*) FROM event2", 1),
];

#[test]
fn what_breaks_a_rule_is_refused(rt: HostRuntime) -> Result<(), Fail> {
    assert!(rt; behind_two_runs(rt.alloc(), BROKEN));
    Ok(())
}

const TASKS: &str = "SELECT sum(10 * run + id) FROM outbox";

/// Of three activities goes the first, and then what is left of its run.
const TASKS_GO: &[Statement] = &[
    Statement::Changes(Row::Task(1, 5)),
    Statement::Changes(Row::Task(1, 6)),
    Statement::Changes(Row::Task(2, 5)),
    Statement::Changes(Row::TaskGone(1, 5)),
    Statement::Counts(TASKS, 41),
    Statement::Changes(Row::TasksGone(1)),
    Statement::Counts(TASKS, 25),
];

#[test]
fn tasks_go(rt: HostRuntime) -> Result<(), Fail> {
    assert!(rt; behind_two_runs(rt.alloc(), TASKS_GO));
    Ok(())
}

const TIMERS: &str = "SELECT sum(10 * run + id) FROM timer";

/// The same of timers.
const TIMERS_GO: &[Statement] = &[
    Statement::Changes(Row::Timer(1, 5)),
    Statement::Changes(Row::Timer(1, 6)),
    Statement::Changes(Row::Timer(2, 5)),
    Statement::Changes(Row::TimerGone(1, 5)),
    Statement::Counts(TIMERS, 41),
    Statement::Changes(Row::TimersGone(1)),
    Statement::Counts(TIMERS, 25),
];

#[test]
fn timers_go(rt: HostRuntime) -> Result<(), Fail> {
    assert!(rt; behind_two_runs(rt.alloc(), TIMERS_GO));
    Ok(())
}

const OPEN_RUNS: &str = "SELECT sum(num) FROM run WHERE isopen = 1";

const MARKED: &[Statement] = &[
    Statement::Changes(Row::Mark(1, false)),
    Statement::Counts(OPEN_RUNS, 2),
    Statement::Changes(Row::Mark(1, true)),
    Statement::Counts(OPEN_RUNS, 3),
];

#[test]
fn a_run_is_marked(rt: HostRuntime) -> Result<(), Fail> {
    assert!(rt; behind_two_runs(rt.alloc(), MARKED));
    Ok(())
}

/// Run 2 starts and completes.
const TURN: &[Statement] = &[
    Statement::WholeTurn(2),
    Statement::Counts("SELECT count(*) FROM event2 WHERE run = 2", 2),
    Statement::Counts("SELECT isopen FROM run WHERE num = 2", 0),
];

#[test]
fn a_turn_is_recorded(rt: HostRuntime) -> Result<(), Fail> {
    assert!(rt; behind_two_runs(rt.alloc(), TURN));
    Ok(())
}
