//! Commands by a fixed rule: a number in, a command out. Ten of them are a round, which starts a run, has it reported, signalled and
//! looked at, and lets time pass. Rounds differ in what comes to their runs, so some are ended early and some wait in vain.
use flow_base::command::{Command, Complete, Fail, Start};
use flow_base::number::{EventId, Moment, RunId, TextNo};
use flow_base::sequence::Sequence;
use flow_base::text::{Key, RawText, Text};
use flow_base::value::Value;
use std::alloc::Global;
use std::string::ToString;

/// What each round has a run of.
const WAITS: &str =
    "workflow a(n: int) { activity c(int) -> int; signal s: int; let r = 0; let v = 0; \
r = call c(n) retry 2 every 500; v = wait signal s for 100 else { v = 0 - 1; }; sleep 150; return r + v; }";

/// A text of which there is no run.
const ENDS: &str = "workflow b() {}";

fn register(alloc: Global, text: &str) -> Option<Command> {
    Some(Command::Register(RawText::new(alloc, text).ok()?))
}

/// The round's name, for its flow and its requests.
fn name(alloc: Global, round: u64) -> Option<Key> {
    let digits = round.to_string(alloc).ok()?;
    Key::new(alloc, digits.as_str()).ok()
}

fn start(alloc: Global, round: u64, at: Moment) -> Option<Command> {
    let text = TextNo::new(1)?;
    let request = name(alloc, round)?;
    let flow = name(alloc, round)?;
    let arguments = Sequence::from_vec(vec![in alloc; Value::Int(7)].ok()?);
    Some(Command::Start(Start {
        request,
        flow,
        text,
        arguments,
        at,
    }))
}

fn signal(alloc: Global, round: u64, name_of_signal: &str, at: Moment) -> Option<Command> {
    let request = name(alloc, round)?;
    let flow = name(alloc, round)?;
    let signal = RawText::new(alloc, name_of_signal).ok()?;
    Some(Command::Signal(request, flow, signal, Value::Int(5), at))
}

fn fail(alloc: Global, run: RunId, at: Moment) -> Option<Command> {
    Some(Command::Fail(Fail {
        run,
        event: EventId::new(2)?,
        attempt: 1,
        reason: Text::new(alloc, "no").ok()?,
        at,
    }))
}

fn complete(run: RunId, at: Moment) -> Option<Command> {
    Some(Command::Complete(Complete {
        run,
        event: EventId::new(2)?,
        attempt: 2,
        value: Value::Int(41),
        at,
    }))
}

fn terminate(alloc: Global, run: RunId, at: Moment) -> Option<Command> {
    Some(Command::Terminate(run, Text::new(alloc, "enough").ok()?, at))
}

fn upgrade(run: RunId) -> Option<Command> {
    Some(Command::Upgrade(run, TextNo::new(1)?))
}

/// What ends a round, by what remains of its number.
fn end(alloc: Global, round: u64, run: RunId, at: Moment, is_last: bool) -> Option<Command> {
    match (is_last, round % 3) {
        (false, 0) => terminate(alloc, run, at),
        (false, _) => Some(Command::History(run)),
        (true, 1) => upgrade(run),
        (true, _) => register(alloc, ENDS),
    }
}

/// The command with this number. The first is 0.
pub fn command_at(alloc: Global, number: u64) -> Option<Command> {
    let round = number / 10;
    let run = RunId::new(round.saturating_add(1))?;
    let at = Moment::new(number.saturating_mul(10).saturating_add(1000))?;
    match number % 10 {
        0 => register(alloc, WAITS),
        1 | 4 => start(alloc, round, at),
        2 => fail(alloc, run, at),
        3 => complete(run, at),
        5 => signal(alloc, round, if round % 3 == 2 { "z" } else { "s" }, at),
        6 => Some(Command::Tick(at)),
        7 => Some(Command::Describe(run)),
        rest => end(alloc, round, run, at, rest == 9),
    }
}
