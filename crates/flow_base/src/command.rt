use crate::book::Timer;
use crate::code::Code;
use crate::event::{Event, State, Wrong};
use crate::number::{EventId, Moment, Most, RunId, TextNo};
use crate::sequence::Sequence;
use crate::text::{Key, RawText, Text};
use crate::value::Value;

/// A run of a flow is to be started.
#[derive(Debug, Drop)]
pub struct Start {
    /// The request id: the same one again is answered with the run that it started.
    pub request: Key,
    pub flow: Key,
    pub text: TextNo,
    pub arguments: Sequence<Value>,
    pub at: Moment,
}

/// An attempt of an activity gave a value.
#[derive(Debug, Drop)]
pub struct Complete {
    pub run: RunId,
    /// The event that scheduled the activity.
    pub event: EventId,
    pub attempt: u64,
    pub value: Value,
    pub at: Moment,
}

/// An attempt of an activity failed.
#[derive(Debug, Drop)]
pub struct Fail {
    pub run: RunId,
    /// The event that scheduled the activity.
    pub event: EventId,
    pub attempt: u64,
    pub reason: Text,
    pub at: Moment,
}

/// What is asked of the engine.
#[derive(Debug, Drop)]
pub enum Command {
    /// A text.
    Register(RawText),
    Start(Start),
    /// A request id, a flow, the signal's name, what it carries, and a moment.
    Signal(Key, Key, RawText, Value, Moment),
    Complete(Complete),
    Fail(Fail),
    /// The moment up to which timers are due.
    Tick(Moment),
    /// A run, why it is to be closed, and a moment.
    Terminate(RunId, Text, Moment),
    /// A run, and the text that it is to go on under.
    Upgrade(RunId, TextNo),
    Describe(RunId),
    History(RunId),
    /// Which runs are open: from this number on, and so many at most.
    Open(RunId, Most),
}

/// What is wrong with a text: the number of the rule, and the byte where it is broken.
#[derive(Clone, Copy, Debug, PartialEq, Eq)]
pub struct TextFault {
    pub code: Code,
    pub at: usize,
}

/// A run, told.
#[derive(Debug, Drop)]
pub struct Description {
    pub flow: Key,
    pub text: TextNo,
    pub state: State,
    /// How many events its history has.
    pub events: usize,
    /// The events of its open activities, rising.
    pub activities: Sequence<EventId>,
    /// The events of its open timers, rising.
    pub timers: Sequence<EventId>,
}

/// An open activity, told: the event that scheduled it, its name, its attempt from 1 up, and when that is ready.
#[derive(Debug, Drop)]
pub struct OpenTask {
    pub event: EventId,
    pub activity: Key,
    pub attempt: u64,
    pub ready: Moment,
}

/// An open run, told: what it waits for, and since when.
#[derive(Debug, Drop)]
pub struct OpenRun {
    pub run: RunId,
    pub flow: Key,
    pub text: TextNo,
    /// How many events its history has.
    pub events: usize,
    /// The moment of the last one.
    pub at: Moment,
    /// Its open activities in rising order of their events.
    pub activities: Sequence<OpenTask>,
    /// Its open timers in rising order of their events.
    pub timers: Sequence<Timer>,
    /// The signals that it waits for, in the order of its text; one for which two branches wait stands twice.
    pub waits: Sequence<Key>,
}

/// What the engine answers.
#[derive(Debug, Drop)]
pub enum Reply {
    Registered(TextNo),
    Started(RunId),
    /// The input stands in the history: a run and an event.
    Recorded(RunId, EventId),
    /// The request is known: the run that it started.
    Duplicate(RunId),
    /// The request is known: the run that took its signal, and the event that recorded it.
    DuplicateSignal(RunId, EventId),
    /// The attempt failed and another is made: the run, the next attempt, and when it is ready.
    Retry(RunId, u64, Moment),
    /// How many timers fired, and whether another one is due.
    Fired(u64, bool),
    /// The run goes on under this text.
    Upgraded(RunId, TextNo),
    Run(Description),
    History(Sequence<Event>),
    /// Open runs, rising, and the number of the next one where there are more.
    Open(Sequence<OpenRun>, Option<RunId>),
    /// E60 to E70 but E68 and E69.
    Refused(Code),
    /// E10 to E29: the text breaks a rule.
    BadText(TextFault),
    /// E68: the run's history doesn't stand under the text; the place of its first mismatch from 1, and what is wrong there.
    Mismatch(usize, Wrong),
    /// E69: the history is full; a run, and the event that closed it.
    Full(RunId, EventId),
}
