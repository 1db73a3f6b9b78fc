//! The history of a run that calls one activity, and ways in which one can differ from its program.
use crate::histories::{CALLED, CALLER, Row, STARTED, history, program};
use flow_base::event::{Event, State};
use flow_base::value::Value;
use flow_check::checked::Checked;
use flow_match::fault::ReplayFault;
use flow_match::replay::replay;
use flow_run::stance::Stance;
use std::alloc::Global;
use std::string::ToString;
use std::test::Fail;

const COMPLETED: Row = (3, 3, r#"{"at":1500,"of":2,"value":41}"#);

const CLOSED: Row = (4, 11, r#"{"at":1500,"value":42}"#);

const WHOLE: &[Row] = &[STARTED, CALLED, COMPLETED, CLOSED];

// Another trace in the place of the call: of another kind, with another argument, and with another number.
const STARTS_TIMER: &[Row] = &[
    STARTED,
    (2, 8, r#"{"at":1000,"due":1100}"#),
    COMPLETED,
    CLOSED,
];

const CALLS_OTHER: &[Row] = &[
    STARTED,
    (
        2,
        7,
        r#"{"activity":"c","args":[7,"usd"],"at":1000,"every":0,"gives":"int","tries":1}"#,
    ),
    COMPLETED,
    CLOSED,
];

const CALLS_LATER: &[Row] = &[
    STARTED,
    (
        3,
        7,
        r#"{"activity":"c","args":[7,"eur"],"at":1000,"every":0,"gives":"int","tries":1}"#,
    ),
    COMPLETED,
    CLOSED,
];

// Behind the call: a marker that nobody asks, a timer that nobody awaits, and a signal behind the end.
const MARKED: &[Row] = &[STARTED, CALLED, (3, 10, r#"{"at":1000,"patch":"p"}"#)];

const FIRED: &[Row] = &[STARTED, CALLED, (3, 5, r#"{"at":1500,"of":2}"#)];

const SIGNALED: &[Row] = &[
    STARTED,
    CALLED,
    COMPLETED,
    CLOSED,
    (5, 2, r#"{"at":1500,"name":"s","req":"q","value":1}"#),
];

/// Histories, each with what a replay says of it.
const MISMATCHES: &[(&[Row], &str)] = &[
    (&[], "E52 at 1"),
    (&[STARTED], "E52 at 2"),
    (STARTS_TIMER, "E50 at 2"),
    (CALLS_OTHER, "E51 at 2"),
    (CALLS_LATER, "E56 at 2"),
    (MARKED, "E53 at 3"),
    (FIRED, "E54 at 3"),
    (SIGNALED, "E55 at 5"),
];

fn is_said(alloc: Global, fault: &ReplayFault, words: &str) -> bool {
    match fault.to_string(alloc) {
        Ok(said) => said.as_str() == words,
        Err(_refused) => false,
    }
}

fn fault_is(alloc: Global, program: &Checked, events: &[Event], words: &str) -> bool {
    match replay(alloc, program, events) {
        Ok(_stance) => false,
        Err(fault) => is_said(alloc, &fault, words),
    }
}

fn tells(alloc: Global, program: &Checked, rows: &[Row], words: &str) -> bool {
    match history(alloc, rows) {
        Some(events) => fault_is(alloc, program, &events, words),
        None => false,
    }
}

// The number of the first history of which a replay says something else; how many there are where none is such.
fn other_of(alloc: Global, program: &Checked, rows: &[(&[Row], &str)]) -> usize {
    for i in 0..rows.len() {
        let (events, words) = rows[i];
        if !tells(alloc, program, events, words) {
            return i;
        }
    }
    rows.len()
}

fn first_other(alloc: Global, rows: &[(&[Row], &str)]) -> Option<usize> {
    let program = program(alloc, CALLER)?;
    Some(other_of(alloc, &program, rows))
}

#[test]
fn the_first_mismatch_is_told(rt: HostRuntime) -> Result<(), Fail> {
    assert!(rt; first_other(rt.alloc(), MISMATCHES) == Some(8));
    Ok(())
}

/// Where a history leaves its run.
#[derive(Clone, Copy)]
struct Position {
    state: State,
    events: u64,
    moment: u64,
    /// The numbers that the variables `n` and `r` have.
    n: Option<i64>,
    r: Option<i64>,
}

fn number(program: &Checked, stance: &Stance, name: &str) -> Option<i64> {
    match stance.variable(program, name) {
        Some(Value::Int(n)) => Some(*n),
        _ => None,
    }
}

fn stands(program: &Checked, stance: &Stance) -> Position {
    Position {
        state: stance.state(),
        events: stance.events(),
        moment: stance.moment().get(),
        n: number(program, stance, "n"),
        r: number(program, stance, "r"),
    }
}

fn replayed(alloc: Global, program: &Checked, events: &[Event]) -> Option<Position> {
    match replay(alloc, program, events) {
        Ok(stance) => Some(stands(program, &stance)),
        Err(_fault) => None,
    }
}

fn left_under(alloc: Global, program: &Checked, rows: &[Row]) -> Option<Position> {
    let events = history(alloc, rows)?;
    replayed(alloc, program, &events)
}

// Where these events leave a run.
fn left(alloc: Global, rows: &[Row]) -> Option<Position> {
    let program = program(alloc, CALLER)?;
    left_under(alloc, &program, rows)
}

fn is_left(left: &Position) -> bool {
    left.state == State::Completed && left.events == 4 && left.moment == 1500
}

fn has_values(left: &Position) -> bool {
    matches!(left.r, Some(41)) && matches!(left.n, Some(7))
}

#[test]
fn a_history_leaves_its_position(rt: HostRuntime) -> Result<(), Fail> {
    let left = left(rt.alloc(), WHOLE);
    assert!(rt; matches!(left, Some(left) if is_left(&left) && has_values(&left)));
    Ok(())
}
