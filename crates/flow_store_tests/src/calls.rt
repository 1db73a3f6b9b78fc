//! Calls on a store as plain rows, what is told of them, and the commands that they stand for.
use flow_base::command::{Command, Complete, Reply, Start};
use flow_base::event::{Cmd, Event, State, What};
use flow_base::number::{EventId, Moment, RunId, TextNo};
use flow_base::sequence::Sequence;
use flow_base::submission::Receipt;
use flow_base::text::{Key, RawText};
use flow_base::value::Value;
use flow_model::answer::Stop;
use std::alloc::Global;

pub const A: &str =
    "workflow a(n: int) { activity c(int, text) -> int; let r = 0; r = call c(n, \"eur\"); return r + 1; }";

/// A command of these tests.
#[derive(Clone, Copy)]
pub enum Call {
    /// Registers the text A.
    Register,
    /// Starts a run of it under this flow and request. It waits on its activity.
    Start(&'static str),
    /// Reports that the activity of this run has completed.
    Complete(u64),
    /// Registers a flow with nothing to do.
    RegisterEmpty,
    /// Starts it.
    StartEmpty,
    /// Starts it with the same request, under another flow.
    StartEmptyAgain,
    /// Asks for the history of this run.
    History(u64),
    /// Asks for run 1.
    Describe,
}

/// Calls, each with its ticket.
pub type Calls = &'static [(u64, Call)];

/// What a reply names.
#[derive(Clone, Copy, PartialEq, Eq)]
pub enum Named {
    Text(u64),
    Run(u64),
    /// The run that the request had started before.
    Duplicate(u64),
    /// The event under which an input stands.
    Event(u64),
    Code(u8),
    /// So many events, of which the last one says that the run has returned this number.
    Returned(usize, i64),
    /// So many others, and whether the second of two is an end with an empty text.
    Events(usize, bool),
    /// So many events of a run, and whether it has completed.
    Described(usize, bool),
    Other,
}

/// What is told of a call.
#[derive(Clone, Copy, PartialEq, Eq)]
pub enum Told {
    /// Of one in a batch that is kept, and after which more is answered: the ticket, the place, and what the reply names.
    Kept(u64, u64, Named),
    /// Of a batch: the code (0 of none), and whether nothing is answered any more.
    Refused(u8, bool),
    /// By an engine that was given it alone, or in a list: what its reply names, the code where it is given up, the stop.
    Replied(Named),
    NotApplied(u8),
    Stopped(Stop),
}

/// What is to be told of calls.
#[derive(Clone, Copy)]
pub enum Want {
    /// This, and no more.
    Told(&'static [Told]),
    /// That each of them is kept, or has its reply.
    Kept,
    /// So many, and this of the last one.
    Last(usize, Told),
}

fn register(alloc: Global) -> Option<Command> {
    Some(Command::Register(RawText::new(alloc, A).ok()?))
}

fn arguments(alloc: Global, number: Option<i64>) -> Option<Sequence<Value>> {
    match number {
        Some(number) => Some(Sequence::from_vec(vec![in alloc; Value::Int(number)].ok()?)),
        None => Some(Sequence::new(alloc)),
    }
}

/// The start of a run of text 1, with one number or none.
fn start(
    alloc: Global,
    request: &str,
    flow: &str,
    number: Option<i64>,
    at: u64,
) -> Option<Command> {
    let text = TextNo::new(1)?;
    let at = Moment::new(at)?;
    let request = Key::new(alloc, request).ok()?;
    let flow = Key::new(alloc, flow).ok()?;
    let arguments = arguments(alloc, number)?;
    Some(Command::Start(Start {
        request,
        flow,
        text,
        arguments,
        at,
    }))
}

/// A run of the text A, under a flow of this name, which waits on its activity.
fn start_waiting(alloc: Global, name: &str) -> Option<Command> {
    start(alloc, name, name, Some(7), 1000)
}

fn complete(run: u64) -> Option<Command> {
    let run = RunId::new(run)?;
    let event = EventId::new(2)?;
    let at = Moment::new(1500)?;
    Some(Command::Complete(Complete {
        run,
        event,
        attempt: 1,
        value: Value::Int(41),
        at,
    }))
}

fn register_empty(alloc: Global) -> Option<Command> {
    Some(Command::Register(RawText::new(alloc, "workflow e() {}").ok()?))
}

fn start_empty(alloc: Global, flow: &str) -> Option<Command> {
    start(alloc, "q", flow, None, 0)
}

fn history(run: u64) -> Option<Command> {
    Some(Command::History(RunId::new(run)?))
}

fn describe() -> Option<Command> {
    Some(Command::Describe(RunId::new(1)?))
}

/// The command of a call.
pub fn command(alloc: Global, call: Call) -> Option<Command> {
    match call {
        Call::Register => register(alloc),
        Call::Start(name) => start_waiting(alloc, name),
        Call::Complete(run) => complete(run),
        Call::RegisterEmpty => register_empty(alloc),
        Call::StartEmpty => start_empty(alloc, "f"),
        Call::StartEmptyAgain => start_empty(alloc, "g"),
        Call::History(run) => history(run),
        Call::Describe => describe(),
    }
}

fn add(alloc: Global, list: &mut Vec<Command>, call: Call) -> bool {
    match command(alloc, call) {
        Some(command) => list.push(command).is_ok(),
        None => false,
    }
}

/// The commands of these calls.
pub fn commands(alloc: Global, calls: &[Call]) -> Option<Vec<Command>> {
    let mut list = Vec::new(alloc);
    let mut are = true;
    for call in calls {
        are = add(alloc, &mut list, *call) && are;
    }
    if are { Some(list) } else { None }
}

fn is_empty_end(event: &Event) -> bool {
    match &event.what {
        What::Asked(Cmd::Complete(Value::Text(text))) => text.as_str().is_empty(),
        _ => false,
    }
}

fn ends_empty(events: &[Event]) -> bool {
    match events {
        [_, event] => is_empty_end(event),
        _ => false,
    }
}

/// What the last event of a run says that it has returned.
fn returned(events: &[Event]) -> Option<i64> {
    match &events.last()?.what {
        What::Asked(Cmd::Complete(Value::Int(number))) => Some(*number),
        _ => None,
    }
}

fn named_by_history(events: &[Event]) -> Named {
    match returned(events) {
        Some(number) => Named::Returned(events.len(), number),
        None => Named::Events(events.len(), ends_empty(events)),
    }
}

/// What a reply names.
pub fn named_by(reply: &Reply) -> Named {
    match reply {
        Reply::Registered(text) => Named::Text(text.get()),
        Reply::Started(run) => Named::Run(run.get()),
        Reply::Duplicate(run) => Named::Duplicate(run.get()),
        Reply::Recorded(_, event) => Named::Event(event.get()),
        Reply::Refused(code) => Named::Code(code.number()),
        Reply::History(events) => named_by_history(events.as_slice()),
        Reply::Run(run) => Named::Described(run.events, matches!(&run.state, State::Completed)),
        _ => Named::Other,
    }
}

/// The same as one number.
pub fn numbered(reply: &Reply) -> u64 {
    let (kind, number) = match named_by(reply) {
        Named::Text(number) => (1, number),
        Named::Run(number) => (2, number),
        Named::Duplicate(number) => (3, number),
        Named::Event(number) => (4, number),
        Named::Code(number) => (5, number as u64),
        Named::Returned(events, _) | Named::Events(events, _) => (6, events as u64),
        Named::Described(events, _) => (7, events as u64),
        Named::Other => (8, 0),
    };
    number.wrapping_mul(16).wrapping_add(kind)
}

fn told_by(receipt: &Receipt, is_halted: bool) -> Told {
    if is_halted {
        return Told::Refused(0, true);
    }
    Told::Kept(receipt.ticket, receipt.place, named_by(&receipt.reply))
}

/// Puts what each of these receipts tells behind what was told before.
pub fn add_receipts(list: &mut Vec<Told>, receipts: &[Receipt], is_halted: bool) -> bool {
    let mut is = true;
    for receipt in receipts {
        is = is && list.push(told_by(receipt, is_halted)).is_ok();
    }
    is
}

/// Whether so many are told, all of them kept or replied.
fn are_kept(told: &[Told], count: usize) -> bool {
    let mut are = told.len() == count;
    for one in told {
        are = are && matches!(one, Told::Kept(_, _, _) | Told::Replied(_));
    }
    are
}

fn is_last(told: &[Told], last: Told) -> bool {
    match told.last() {
        Some(found) => *found == last,
        None => false,
    }
}

/// Whether what is told of so many calls is as it is to be.
pub fn is_as(told: &[Told], count: usize, want: Want) -> bool {
    match want {
        Want::Told(wanted) => told == wanted,
        Want::Kept => are_kept(told, count),
        Want::Last(count, last) => told.len() == count && is_last(told, last),
    }
}
