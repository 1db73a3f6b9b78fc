//! Turns of a run, of a stance and of a plain run alike: what is asked, and what is refused.
use crate::histories::{Row, event, input, program};
use flow_base::code::Code;
use flow_base::event::{Cmd, Event, Input, State};
use flow_base::number::Moment;
use flow_base::syntax::Program;
use flow_base::value::Value;
use flow_check::checked::Checked;
use flow_match::matching::matches;
use flow_plain::plain::{PlainRun, plain_turn, unbegun};
use flow_run::stance::{Answers, Stance, turn};
use std::alloc::Global;
use std::test::Fail;

/// A turn: its moment, the kind and the body of what comes, and the row of the one command that is asked, or the code.
type Turn = (u64, i64, &'static str, Result<Row, Code>);

const CALLER: &str = "workflow a() { activity c() -> int; let r = 0; r = call c(); return r; }";

const STARTS: Turn = (
    10,
    1,
    r#"{"args":[],"at":10}"#,
    Ok((
        2,
        7,
        r#"{"activity":"c","args":[],"at":10,"every":0,"gives":"int","tries":1}"#,
    )),
);

const TERMINATED: &str = r#"{"at":20,"text":""}"#;

const GIVES: &str = r#"{"at":20,"of":2,"value":41}"#;

/// A run isn't ended before it has begun; it waits for its activity and no timer; once closed it takes nothing.
const TURNS: &[Turn] = &[
    (10, 6, TERMINATED, Err(Code::NotAwaited)),
    (10, 1, r#"{"args":[7],"at":10}"#, Err(Code::NotAwaited)),
    STARTS,
    (20, 5, r#"{"at":20,"of":2}"#, Err(Code::NotAwaited)),
    (20, 3, GIVES, Ok((4, 11, r#"{"at":20,"value":41}"#))),
    (20, 6, TERMINATED, Err(Code::Closed)),
];

// Whether the commands of a turn are the one of this row.
fn are(alloc: Global, commands: &[Cmd], row: Row) -> bool {
    match event(alloc, row) {
        Some(event) => is_alone(commands, &event),
        None => false,
    }
}

fn is_alone(commands: &[Cmd], event: &Event) -> bool {
    match commands {
        [command] => matches(command, event),
        _ => false,
    }
}

// Whether the next turn of a stance asks what is wanted, or is refused so.
fn stance_goes(
    alloc: Global,
    program: &Checked,
    stance: &mut Stance,
    at: Moment,
    input: &Input,
    wanted: Result<Row, Code>,
) -> bool {
    if stance.events() > 1000 {
        return false;
    }
    match turn(alloc, stance, program, at, input, Answers::Fresh) {
        Ok(commands) => matches!(wanted, Ok(row) if are(alloc, &commands, row)),
        Err(fault) => matches!(wanted, Err(code) if code == fault.code()),
    }
}

// The same of a plain run.
fn plain_goes(
    alloc: Global,
    program: &Program,
    run: &mut PlainRun,
    at: Moment,
    input: &Input,
    wanted: Result<Row, Code>,
) -> bool {
    if run.events() > 1000 {
        return false;
    }
    match plain_turn(alloc, run, program, at, input, Answers::Fresh) {
        Ok(commands) => matches!(wanted, Ok(row) if are(alloc, &commands, row)),
        Err(fault) => matches!(wanted, Err(code) if code == fault.code()),
    }
}

// The same of both.
fn goes(
    alloc: Global,
    program: &Checked,
    run: &mut PlainRun,
    stance: &mut Stance,
    next: Turn,
) -> Option<bool> {
    let (at, kind, body, wanted) = next;
    let at = Moment::new(at)?;
    let input = input(alloc, kind, body)?;
    let plain = plain_goes(alloc, program.program(), run, at, &input, wanted);
    let stance = stance_goes(alloc, program, stance, at, &input, wanted);
    Some(plain && stance)
}

// The number of the first turn in which these two ask something else; how many there are where none is such.
fn other_of_both(
    alloc: Global,
    program: &Checked,
    run: &mut PlainRun,
    stance: &mut Stance,
    turns: &[Turn],
) -> Option<usize> {
    for (i, next) in turns.iter().enumerate() {
        if !goes(alloc, program, run, stance, *next)? {
            return Some(i);
        }
    }
    Some(turns.len())
}

/// Where turns leave a run.
#[derive(Clone, Copy)]
struct Ending {
    other: Option<usize>,
    is_completed: bool,
    events: u64,
    plain_events: u64,
}

fn left_under(alloc: Global, program: &Checked, turns: &[Turn]) -> Ending {
    let mut run = unbegun(alloc);
    let mut stance = Stance::unbegun(alloc);
    let other = other_of_both(alloc, program, &mut run, &mut stance, turns);
    Ending {
        other,
        is_completed: run.state() == State::Completed && stance.state() == State::Completed,
        events: stance.events(),
        plain_events: run.events(),
    }
}

fn left(alloc: Global, turns: &[Turn]) -> Option<Ending> {
    let program = program(alloc, CALLER)?;
    Some(left_under(alloc, &program, turns))
}

fn is_left(left: &Ending) -> bool {
    matches!(left.other, Some(6)) && left.is_completed && left.events == 4 && left.plain_events == 4
}

#[test]
fn a_run_takes_what_it_awaits(rt: HostRuntime) -> Result<(), Fail> {
    let left = left(rt.alloc(), TURNS);
    assert!(rt; matches!(left, Some(left) if is_left(&left)));
    Ok(())
}

// What the first turn of a stance asks with these arguments, or its code.
fn begins(
    alloc: Global,
    program: &Checked,
    arguments: &[Value],
    wanted: Result<Row, Code>,
) -> Option<bool> {
    let at = Moment::new(1000)?;
    match Stance::first(alloc, program, arguments, at, Answers::Fresh) {
        Ok((stance, commands)) => {
            let asks = matches!(wanted, Ok(row) if are(alloc, &commands, row));
            Some(asks && stance.events() == 2)
        }
        Err(fault) => Some(matches!(wanted, Err(code) if code == fault.code())),
    }
}

// A run that returns its number: with the number 7, and with none.
fn begins_with_and_without(alloc: Global) -> Option<bool> {
    let program = program(alloc, "workflow a(n: int) { return n; }")?;
    let ends = Ok((2, 11, r#"{"at":1000,"value":7}"#));
    let with = begins(alloc, &program, &[Value::Int(7)], ends)?;
    let without = begins(alloc, &program, &[], Err(Code::NotAwaited))?;
    Some(with && without)
}

#[test]
fn a_first_turn_has_its_arguments(rt: HostRuntime) -> Result<(), Fail> {
    assert!(rt; begins_with_and_without(rt.alloc()) == Some(true));
    Ok(())
}
