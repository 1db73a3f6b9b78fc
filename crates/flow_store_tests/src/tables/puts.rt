//! Changes of the book as plain rows: what a test names, and the change that it stands for.
use crate::tables::rows::{event, key, moment, run, text_no};
use flow_base::book::{Change, Turn};
use flow_base::event::{Cmd, Input};
use flow_base::sequence::Sequence;
use flow_base::text::{Key, RawText, Text};
use flow_base::value::{Kind, Value};
use std::alloc::Global;

/// What comes to a run.
#[derive(Clone, Copy)]
pub enum Comes {
    /// Its start, with no arguments.
    Start,
    /// The number 7, which the activity of an event gave.
    Gives(u64),
    /// That the timer of an event fired.
    Fires(u64),
    /// The signal of this request, with the number 7.
    Signal(&'static str),
    /// That it is to be ended.
    Terminated,
}

/// What a turn asks for.
#[derive(Clone, Copy)]
pub enum Asks {
    Nothing,
    /// An activity that gives a number, and is tried three times.
    Call,
    /// Two of them, and a timer that is due at this moment.
    TwoCallsAndTimer(u64),
    /// A timer that is due at this moment.
    Timer(u64),
    /// The run's end, with the number 7.
    Ends,
}

/// A change of the book.
#[derive(Clone, Copy)]
pub enum Put {
    Text(&'static str),
    /// A run of this flow, of this request and of text 1, which starts at moment 5 and asks for this.
    Run(&'static str, Option<&'static str>, Asks),
    /// A turn of a run at a moment.
    Turn(u64, u64, Comes, Asks),
    /// The second attempt at the activity of an event of run 1, which is ready at this moment.
    Attempt(u64, u64),
    /// Run 1 goes on under this text.
    Under(u64),
}

fn signal(alloc: Global, request: &str) -> Result<Input, &'static str> {
    let name = key(alloc, "s")?;
    let request = key(alloc, request)?;
    Ok(Input::Signaled(name, request, Value::Int(7)))
}

fn input(alloc: Global, comes: Comes) -> Result<Input, &'static str> {
    match comes {
        Comes::Start => Ok(Input::Started(Sequence::new(alloc))),
        Comes::Gives(scheduled) => Ok(Input::ActivityCompleted(event(scheduled)?, Value::Int(7))),
        Comes::Fires(started) => Ok(Input::TimerFired(event(started)?)),
        Comes::Signal(request) => signal(alloc, request),
        Comes::Terminated => Ok(Input::Terminated(Text::empty(alloc))),
    }
}

fn call(alloc: Global) -> Result<Cmd, &'static str> {
    let name = key(alloc, "c")?;
    Ok(Cmd::Schedule(name, Sequence::new(alloc), 3, 0, Kind::Int))
}

fn timer(due: u64) -> Result<Cmd, &'static str> {
    Ok(Cmd::StartTimer(moment(due)?))
}

fn push(commands: &mut Sequence<Cmd>, command: Cmd) -> Result<(), &'static str> {
    match commands.push(command) {
        Ok(()) => Ok(()),
        Err(_) => Err("no memory"),
    }
}

fn push_call(alloc: Global, commands: &mut Sequence<Cmd>) -> Result<(), &'static str> {
    push(commands, call(alloc)?)
}

fn push_timer(commands: &mut Sequence<Cmd>, due: u64) -> Result<(), &'static str> {
    push(commands, timer(due)?)
}

fn push_three(alloc: Global, commands: &mut Sequence<Cmd>, due: u64) -> Result<(), &'static str> {
    push_call(alloc, commands)?;
    push_call(alloc, commands)?;
    push_timer(commands, due)
}

fn fill(alloc: Global, commands: &mut Sequence<Cmd>, asks: Asks) -> Result<(), &'static str> {
    match asks {
        Asks::Nothing => Ok(()),
        Asks::Call => push_call(alloc, commands),
        Asks::TwoCallsAndTimer(due) => push_three(alloc, commands, due),
        Asks::Timer(due) => push_timer(commands, due),
        Asks::Ends => push(commands, Cmd::Complete(Value::Int(7))),
    }
}

fn commands(alloc: Global, asks: Asks) -> Result<Sequence<Cmd>, &'static str> {
    let mut commands = Sequence::new(alloc);
    fill(alloc, &mut commands, asks)?;
    Ok(commands)
}

/// The turn of these rows. What comes is made last, since it is the dearest to let go of.
pub fn turn(alloc: Global, at: u64, comes: Comes, asks: Asks) -> Result<Turn, &'static str> {
    let at = moment(at)?;
    let commands = commands(alloc, asks)?;
    let input = input(alloc, comes)?;
    Ok(Turn {
        at,
        input,
        commands,
    })
}

fn new_text(alloc: Global, body: &str) -> Result<Change, &'static str> {
    match RawText::new(alloc, body) {
        Ok(body) => Ok(Change::AddText(body)),
        Err(_) => Err("no memory"),
    }
}

fn request_key(alloc: Global, request: Option<&str>) -> Result<Option<Key>, &'static str> {
    match request {
        Some(text) => Ok(Some(key(alloc, text)?)),
        None => Ok(None),
    }
}

fn new_run(
    alloc: Global,
    flow: &str,
    request: Option<&str>,
    asks: Asks,
) -> Result<Change, &'static str> {
    let text = text_no(1)?;
    let flow = key(alloc, flow)?;
    let request = request_key(alloc, request)?;
    let turn = turn(alloc, 5, Comes::Start, asks)?;
    Ok(Change::AddRun(flow, request, text, turn))
}

fn new_turn(
    alloc: Global,
    number: u64,
    at: u64,
    comes: Comes,
    asks: Asks,
) -> Result<Change, &'static str> {
    let run = run(number)?;
    Ok(Change::AddTurn(run, turn(alloc, at, comes, asks)?))
}

fn new_attempt(scheduled: u64, ready: u64) -> Result<Change, &'static str> {
    let ready = moment(ready)?;
    Ok(Change::SetAttempt(run(1)?, event(scheduled)?, 2, ready))
}

fn other_text(number: u64) -> Result<Change, &'static str> {
    Ok(Change::SetText(run(1)?, text_no(number)?))
}

/// The change of a row.
pub fn change(alloc: Global, put: Put) -> Result<Change, &'static str> {
    match put {
        Put::Text(body) => new_text(alloc, body),
        Put::Run(flow, request, asks) => new_run(alloc, flow, request, asks),
        Put::Turn(number, at, comes, asks) => new_turn(alloc, number, at, comes, asks),
        Put::Attempt(scheduled, ready) => new_attempt(scheduled, ready),
        Put::Under(number) => other_text(number),
    }
}
