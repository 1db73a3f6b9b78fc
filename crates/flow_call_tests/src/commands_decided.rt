//! Each command decided over plain lists: its reply, and how many changes it makes of the book.
use crate::commands_kept::{CALLS, STARTS, commands};
use flow_base::command::{Command, Description, Reply};
use flow_base::event::State;
use flow_check::language::Language;
use flow_lines::ask::asked_of;
use flow_lines::command::command_of;
use flow_lines::reply::{Line, reply_line};
use flow_machine::decide::{decide, decide_all};
use flow_machine::seats::Seats;
use flow_programs::kept::Kept;
use flow_view::lists::Lists;
use std::alloc::Global;
use std::test::Fail;

/// The line of a command, the line of its reply, and how many changes it makes.
type Row = (&'static str, &'static str, usize);

const REGISTERED: &str = r#"{"reply":"registered","text":1}"#;

const STARTED: &str = r#"{"reply":"started","run":1}"#;

const REPORTS: &str = r#"{"at":1500,"attempt":1,"do":"complete","event":2,"run":1,"value":41}"#;

const DESCRIBES: &str = r#"{"do":"describe","run":1}"#;

/// What is known already, what is refused and what is asked changes nothing; a report is a change.
const REPORTED: &[Row] = &[
    (CALLS, REGISTERED, 1),
    (CALLS, REGISTERED, 0),
    (STARTS, STARTED, 1),
    (STARTS, r#"{"reply":"duplicate","run":1}"#, 0),
    (REPORTS, r#"{"event":3,"reply":"recorded","run":1}"#, 1),
    (REPORTS, r#"{"code":"E64","reply":"refused"}"#, 0),
    (
        r#"{"args":[7],"at":1500,"do":"start","flow":"f","req":"g","text":1}"#,
        r#"{"reply":"started","run":2}"#,
        1,
    ),
    (
        DESCRIBES,
        r#"{"activities":[],"events":4,"flow":"f","reply":"run","state":"completed","text":1,"timers":[]}"#,
        0,
    ),
];

/// A signal, an attempt that fails, an upgrade and an end are each a change.
const ENDED: &[Row] = &[
    (
        r#"{"do":"register","src":"workflow b() { activity c() -> int; signal s: text; let r = 0; r = call c() retry 2 every 500; return r; }"}"#,
        REGISTERED,
        1,
    ),
    (
        r#"{"args":[],"at":1000,"do":"start","flow":"f","req":"f","text":1}"#,
        STARTED,
        1,
    ),
    (
        r#"{"at":1050,"do":"signal","flow":"f","name":"s","req":"q2","value":"x"}"#,
        r#"{"event":3,"reply":"recorded","run":1}"#,
        1,
    ),
    (
        r#"{"at":2000,"attempt":1,"do":"fail","event":2,"reason":"no","run":1}"#,
        r#"{"attempt":2,"from":2500,"reply":"retry","run":1}"#,
        1,
    ),
    (
        r#"{"do":"register","src":"workflow b() { activity c() -> int; signal s: text; let r = 0; r = call c() retry 2 every 500; return r + 1; }"}"#,
        r#"{"reply":"registered","text":2}"#,
        1,
    ),
    (
        r#"{"do":"upgrade","run":1,"text":2}"#,
        r#"{"reply":"upgraded","run":1,"text":2}"#,
        1,
    ),
    (
        r#"{"at":2600,"do":"terminate","reason":"why","run":1}"#,
        r#"{"event":4,"reply":"recorded","run":1}"#,
        1,
    ),
];

/// Two timers that are due at once are two changes, and none is none.
const FIRED: &[Row] = &[
    (
        r#"{"do":"register","src":"workflow t() { parallel { { sleep 100; } { sleep 100; } } }"}"#,
        REGISTERED,
        1,
    ),
    (
        r#"{"args":[],"at":0,"do":"start","flow":"f","req":"f","text":1}"#,
        STARTED,
        1,
    ),
    (
        r#"{"at":99,"do":"tick"}"#,
        r#"{"count":0,"more":false,"reply":"fired"}"#,
        0,
    ),
    (
        r#"{"at":100,"do":"tick"}"#,
        r#"{"count":2,"more":false,"reply":"fired"}"#,
        2,
    ),
];

/// The texts of which the runs of [`LISTED`] are.
const LISTS_TEXTS: &[Row] = &[
    (
        r#"{"ask":"open","from":1,"most":1}"#,
        r#"{"reply":"open","runs":[]}"#,
        0,
    ),
    (
        r#"{"do":"register","src":"workflow r() { activity p(text) -> int; let r = 0; r = call p(\"eur\") retry 3 every 500; return r; }"}"#,
        REGISTERED,
        1,
    ),
    (
        r#"{"do":"register","src":"workflow w() { signal s: int; let v = 0; v = wait signal s for 100 else { v = 1; }; return v; }"}"#,
        r#"{"reply":"registered","text":2}"#,
        1,
    ),
    (
        r#"{"do":"register","src":"workflow s() { signal s: int; let v = 0; sleep 50; v = wait signal s; return v; }"}"#,
        r#"{"reply":"registered","text":3}"#,
        1,
    ),
];

/// An attempt that fails is told by the next one. Runs are told from a number on, the number of the next one stands there exactly where
/// there are more, and what is closed isn't listed.
const LISTED: &[Row] = &[
    (
        r#"{"args":[],"at":1000,"do":"start","flow":"f1","req":"q1","text":1}"#,
        STARTED,
        1,
    ),
    (
        r#"{"args":[],"at":1200,"do":"start","flow":"f2","req":"q2","text":2}"#,
        r#"{"reply":"started","run":2}"#,
        1,
    ),
    (
        r#"{"args":[],"at":1200,"do":"start","flow":"f3","req":"q3","text":3}"#,
        r#"{"reply":"started","run":3}"#,
        1,
    ),
    (
        r#"{"at":2000,"attempt":1,"do":"fail","event":2,"reason":"no","run":1}"#,
        r#"{"attempt":2,"from":2500,"reply":"retry","run":1}"#,
        1,
    ),
    (
        r#"{"at":1250,"do":"tick"}"#,
        r#"{"count":1,"more":false,"reply":"fired"}"#,
        1,
    ),
    (
        r#"{"ask":"open","from":1,"most":1}"#,
        r#"{"next":2,"reply":"open","runs":[{"activities":[[2,"p",2,2500]],"at":1000,"events":2,"flow":"f1","run":1,"text":1,"timers":[],"waits":[]}]}"#,
        0,
    ),
    (
        r#"{"ask":"open","from":2,"most":2}"#,
        r#"{"reply":"open","runs":[{"activities":[],"at":1200,"events":2,"flow":"f2","run":2,"text":2,"timers":[[2,1300]],"waits":["s"]},{"activities":[],"at":1250,"events":3,"flow":"f3","run":3,"text":3,"timers":[],"waits":["s"]}]}"#,
        0,
    ),
    (
        r#"{"at":1260,"do":"signal","flow":"f2","name":"s","req":"q4","value":5}"#,
        r#"{"event":3,"reply":"recorded","run":2}"#,
        1,
    ),
    (
        r#"{"ask":"open","from":1,"most":1}"#,
        r#"{"next":3,"reply":"open","runs":[{"activities":[[2,"p",2,2500]],"at":1000,"events":2,"flow":"f1","run":1,"text":1,"timers":[],"waits":[]}]}"#,
        0,
    ),
    (
        r#"{"ask":"open","from":2,"most":256}"#,
        r#"{"reply":"open","runs":[{"activities":[],"at":1250,"events":3,"flow":"f3","run":3,"text":3,"timers":[],"waits":["s"]}]}"#,
        0,
    ),
    (
        r#"{"ask":"open","from":4,"most":1}"#,
        r#"{"reply":"open","runs":[]}"#,
        0,
    ),
];

/// A signal that lies there isn't waited for, one for which two branches wait stands twice, and after an upgrade its text decides.
const AWAITED: &[Row] = &[
    (
        r#"{"do":"register","src":"workflow s() { signal s: int; let v = 0; sleep 50; parallel { { v = wait signal s; v = wait signal s; } { v = wait signal s; } } }"}"#,
        REGISTERED,
        1,
    ),
    (
        r#"{"args":[],"at":0,"do":"start","flow":"f","req":"q","text":1}"#,
        STARTED,
        1,
    ),
    (
        r#"{"at":7,"do":"signal","flow":"f","name":"s","req":"a","value":1}"#,
        r#"{"event":3,"reply":"recorded","run":1}"#,
        1,
    ),
    (
        r#"{"ask":"open","from":1,"most":1}"#,
        r#"{"reply":"open","runs":[{"activities":[],"at":7,"events":3,"flow":"f","run":1,"text":1,"timers":[[2,50]],"waits":[]}]}"#,
        0,
    ),
    (
        r#"{"at":50,"do":"tick"}"#,
        r#"{"count":1,"more":false,"reply":"fired"}"#,
        1,
    ),
    (
        r#"{"ask":"open","from":1,"most":1}"#,
        r#"{"reply":"open","runs":[{"activities":[],"at":50,"events":4,"flow":"f","run":1,"text":1,"timers":[],"waits":["s","s"]}]}"#,
        0,
    ),
    (
        r#"{"do":"register","src":"workflow s() { signal s: int; signal t: int; let v = 0; sleep 50; v = wait signal s; v = wait signal t; }"}"#,
        r#"{"reply":"registered","text":2}"#,
        1,
    ),
    (
        r#"{"do":"upgrade","run":1,"text":2}"#,
        r#"{"reply":"upgraded","run":1,"text":2}"#,
        1,
    ),
    (
        r#"{"ask":"open","from":1,"most":1}"#,
        r#"{"reply":"open","runs":[{"activities":[],"at":50,"events":4,"flow":"f","run":1,"text":2,"timers":[],"waits":["t"]}]}"#,
        0,
    ),
];

/// Whether a line of output is written so.
pub fn is_line(alloc: Global, line: &Line, wanted: &str) -> bool {
    match reply_line(alloc, line) {
        Ok(written) => written.as_str() == wanted,
        Err(_refused) => false,
    }
}

fn is_reply(alloc: Global, reply: Reply, wanted: &str) -> bool {
    is_line(alloc, &Line::Of(reply), wanted)
}

// Whether a command is answered so, and makes so many changes. They are in the book then.
fn is_decided(
    alloc: Global,
    book: &mut Lists,
    seats: &mut Seats,
    command: &Command,
    wanted: &str,
    changes: usize,
) -> bool {
    match decide(alloc, &mut Kept::new(alloc, Language), book, seats, command) {
        Ok((reply, made)) => made.len() == changes && is_reply(alloc, reply, wanted),
        Err(_fault) => false,
    }
}

// The same where no run's position is known yet.
fn is_put(
    alloc: Global,
    book: &mut Lists,
    command: &Command,
    wanted: &str,
    changes: usize,
) -> bool {
    match Seats::new(alloc, 1) {
        Ok(seats) => {
            let mut seats = seats;
            is_decided(alloc, book, &mut seats, command, wanted, changes)
        }
        Err(_refused) => false,
    }
}

// What a line spells: a command, or the question for open runs.
fn spelled(alloc: Global, line: &str) -> Option<Command> {
    match command_of(alloc, line.as_bytes()) {
        Ok(command) => Some(command),
        Err(_fault) => asked_of(alloc, line.as_bytes()).ok(),
    }
}

fn is_answered(alloc: Global, book: &mut Lists, line: &str, wanted: &str, changes: usize) -> bool {
    match &spelled(alloc, line) {
        Some(command) => is_put(alloc, book, command, wanted, changes),
        None => false,
    }
}

// Whether each of these is decided so, one after the other.
fn are_rows(alloc: Global, book: &mut Lists, rows: &[Row]) -> bool {
    for row in rows {
        let (line, reply, changes) = *row;
        if !is_answered(alloc, book, line, reply, changes) {
            return false;
        }
    }
    true
}

fn are_decided(alloc: Global, rows: &[Row]) -> bool {
    let mut book = Lists::new(alloc);
    are_rows(alloc, &mut book, rows)
}

// The number of the first of these lists of which a row is decided otherwise; how many there are where none is such.
fn first_other(alloc: Global, lists: &[&[Row]]) -> usize {
    for i in 0..lists.len() {
        if !are_decided(alloc, lists[i]) {
            return i;
        }
    }
    lists.len()
}

const LISTS: &[&[Row]] = &[REPORTED, ENDED, FIRED];

#[test]
fn what_is_refused_changes_nothing(rt: HostRuntime) -> Result<(), Fail> {
    assert!(rt; first_other(rt.alloc(), LISTS) == 3);
    Ok(())
}

// Whether the open runs of this book are listed so, behind the texts that its runs have.
fn are_listed(alloc: Global) -> bool {
    let mut book = Lists::new(alloc);
    are_rows(alloc, &mut book, LISTS_TEXTS) && are_rows(alloc, &mut book, LISTED)
}

#[test]
fn open_runs_are_listed(rt: HostRuntime) -> Result<(), Fail> {
    assert!(rt; are_listed(rt.alloc()));
    Ok(())
}

#[test]
fn signals_that_are_waited_for_are_told(rt: HostRuntime) -> Result<(), Fail> {
    assert!(rt; are_decided(rt.alloc(), AWAITED));
    Ok(())
}

/// A text, a start, a report and a question.
const TOGETHER: &[&str] = &[CALLS, STARTS, REPORTS, DESCRIBES];

fn is_completed(run: &Description) -> bool {
    run.events == 4 && run.state == State::Completed
}

fn are_replies(replies: &[Reply]) -> bool {
    match replies {
        [
            Reply::Registered(text),
            Reply::Started(run),
            Reply::Recorded(_, event),
            Reply::Run(described),
        ] => text.get() == 1 && run.get() == 1 && event.get() == 3 && is_completed(described),
        _ => false,
    }
}

fn decides(alloc: Global, seats: &mut Seats, commands: &[Command]) -> bool {
    let mut book = Lists::new(alloc);
    match decide_all(
        alloc,
        &mut Kept::new(alloc, Language),
        &mut book,
        seats,
        commands,
    ) {
        Ok(replies) => are_replies(replies.as_slice()),
        Err(_fault) => false,
    }
}

fn are_decided_together(alloc: Global, commands: &[Command]) -> bool {
    match Seats::new(alloc, 1) {
        Ok(seats) => {
            let mut seats = seats;
            decides(alloc, &mut seats, commands)
        }
        Err(_refused) => false,
    }
}

fn are_together(alloc: Global, lines: &[&str]) -> bool {
    match &commands(alloc, lines) {
        Some(commands) => are_decided_together(alloc, commands.as_slice()),
        None => false,
    }
}

#[test]
fn commands_are_decided_in_turn(rt: HostRuntime) -> Result<(), Fail> {
    assert!(rt; are_together(rt.alloc(), TOGETHER));
    Ok(())
}
