//! All runs of plain lists are replayed: what is reported of them.
use flow_base::book::{Change, Totals, Turn};
use flow_base::event::{Cmd, Input};
use flow_base::number::{EventId, Moment, RunId, TextNo};
use flow_base::sequence::Sequence;
use flow_base::text::{Key, RawText};
use flow_base::value::{Kind, Value};
use flow_check::language::Language;
use flow_machine::verify::{Unverified, verified};
use flow_programs::kept::Kept;
use flow_view::lists::Lists;
use flow_view::view::View;
use std::alloc::Global;
use std::test::Fail;

/// The program of the runs, one that calls with another argument, and a text that is none.
const SAME: &str =
    "workflow a(n: int) { activity c(int) -> int; let r = 0; r = call c(n); return r + 1; }";

const OTHER: &str =
    "workflow a(n: int) { activity c(int) -> int; let r = 0; r = call c(n + 1); return r + 1; }";

const NONE: &str = "workflow";

/// What is put into a book.
#[derive(Clone, Copy)]
enum Put {
    /// One more text.
    Text(&'static str),
    /// One more run, under the text of this number, which is started with 7 and has called its activity with it.
    Starts(u64),
    /// The activity of the run of this number gives this, and the run ends with 42.
    Ends(u64, i64),
}

/// What is reported of it.
#[derive(Clone, Copy)]
enum Verdict {
    /// How many texts, runs and events it has.
    Holds(u64, u64, u64),
    /// The run that doesn't replay, the place of the event, and the number of the mismatch.
    Differs(u64, usize, u8),
    /// The number of another refusal.
    Refused(u8),
}

fn numbers(alloc: Global, n: i64) -> Option<Sequence<Value>> {
    let list = vec![in alloc; Value::Int(n)].ok()?;
    Some(Sequence::from_vec(list))
}

fn called(alloc: Global) -> Option<Vec<Cmd>> {
    let args = numbers(alloc, 7)?;
    let name = Key::new(alloc, "c").ok()?;
    vec![in alloc; Cmd::Schedule(name, args, 1, 0, Kind::Int)].ok()
}

fn first_turn(alloc: Global) -> Option<Turn> {
    let at = Moment::new(1000)?;
    let commands = called(alloc)?;
    Some(Turn {
        at,
        input: Input::Started(numbers(alloc, 7)?),
        commands: Sequence::from_vec(commands),
    })
}

fn last_turn(alloc: Global, given: i64) -> Option<Turn> {
    let at = Moment::new(1500)?;
    let scheduled = EventId::new(2)?;
    let commands = vec![in alloc; Cmd::Complete(Value::Int(42))].ok()?;
    Some(Turn {
        at,
        input: Input::ActivityCompleted(scheduled, Value::Int(given)),
        commands: Sequence::from_vec(commands),
    })
}

fn started(alloc: Global, text: u64) -> Option<Change> {
    let text = TextNo::new(text)?;
    let flow = Key::new(alloc, "f").ok()?;
    Some(Change::AddRun(flow, None, text, first_turn(alloc)?))
}

fn ended(alloc: Global, run: u64, given: i64) -> Option<Change> {
    let run = RunId::new(run)?;
    Some(Change::AddTurn(run, last_turn(alloc, given)?))
}

fn change(alloc: Global, what: Put) -> Option<Change> {
    match what {
        Put::Text(body) => Some(Change::AddText(RawText::new(alloc, body).ok()?)),
        Put::Starts(text) => started(alloc, text),
        Put::Ends(run, given) => ended(alloc, run, given),
    }
}

fn is_put(book: &mut Lists, change: &Option<Change>) -> bool {
    match change {
        Some(change) => book.put(change).is_ok(),
        None => false,
    }
}

fn put_all(alloc: Global, book: &mut Lists, all: &[Put]) -> bool {
    let mut are = true;
    for what in all {
        are = is_put(book, &change(alloc, *what)) && are;
    }
    are
}

fn verdict_of(outcome: &Result<Totals, Unverified>) -> Verdict {
    match outcome {
        Ok(totals) => Verdict::Holds(totals.texts, totals.runs, totals.events),
        Err(Unverified::Mismatch { run, place, name }) => {
            Verdict::Differs(run.get(), *place, name.code().number())
        }
        Err(Unverified::StoreRefused) => Verdict::Refused(80),
        Err(Unverified::NoMemory(no_memory)) => Verdict::Refused(no_memory.code().number()),
    }
}

/// What is reported of a book of these.
fn reported(alloc: Global, all: &[Put]) -> Option<Verdict> {
    let mut book = Lists::new(alloc);
    if !put_all(alloc, &mut book, all) {
        return None;
    }
    Some(verdict_of(&verified(alloc, &mut Kept::new(alloc, Language), &mut book)))
}

fn holds(alloc: Global, all: &[Put], totals: (u64, u64, u64)) -> bool {
    match reported(alloc, all) {
        Some(Verdict::Holds(texts, runs, events)) => (texts, runs, events) == totals,
        _ => false,
    }
}

fn differs(alloc: Global, all: &[Put], wanted: (u64, usize, u8)) -> bool {
    match reported(alloc, all) {
        Some(Verdict::Differs(run, place, number)) => (run, place, number) == wanted,
        _ => false,
    }
}

fn is_refused(alloc: Global, all: &[Put], number: u8) -> bool {
    match reported(alloc, all) {
        Some(Verdict::Refused(refused)) => refused == number,
        _ => false,
    }
}

const NO_RUN: &[Put] = &[Put::Text(SAME), Put::Text(NONE)];

#[test]
fn a_book_without_runs_is_counted(rt: HostRuntime) -> Result<(), Fail> {
    assert!(rt; holds(rt.alloc(), &[], (0, 0, 0)));
    assert!(rt; holds(rt.alloc(), NO_RUN, (2, 0, 0)));
    Ok(())
}

/// The first run is closed, the second is open.
const BOTH_STAND: &[Put] = &[
    Put::Text(SAME),
    Put::Starts(1),
    Put::Ends(1, 41),
    Put::Starts(1),
];

#[test]
fn runs_that_replay_are_counted(rt: HostRuntime) -> Result<(), Fail> {
    assert!(rt; holds(rt.alloc(), BOTH_STAND, (1, 2, 6)));
    Ok(())
}

/// The first run is closed, and is under the other text; or it ends with a number to which its activity's doesn't lead.
const CLOSED_DIFFERS: &[Put] = &[
    Put::Text(SAME),
    Put::Text(OTHER),
    Put::Starts(2),
    Put::Ends(1, 41),
    Put::Starts(1),
];

const ANOTHER_END: &[Put] = &[
    Put::Text(SAME),
    Put::Starts(1),
    Put::Ends(1, 40),
    Put::Starts(1),
];

#[test]
fn a_closed_run_is_replayed(rt: HostRuntime) -> Result<(), Fail> {
    assert!(rt; differs(rt.alloc(), CLOSED_DIFFERS, (1, 2, 51)));
    assert!(rt; differs(rt.alloc(), ANOTHER_END, (1, 4, 51)));
    Ok(())
}

/// Both differ, at another place each; or the second alone.
const BOTH_DIFFER: &[Put] = &[
    Put::Text(SAME),
    Put::Text(OTHER),
    Put::Starts(1),
    Put::Ends(1, 40),
    Put::Starts(2),
];

const LAST_DIFFERS: &[Put] = &[
    Put::Text(SAME),
    Put::Text(OTHER),
    Put::Starts(1),
    Put::Ends(1, 41),
    Put::Starts(2),
];

#[test]
fn the_first_run_that_differs_is_named(rt: HostRuntime) -> Result<(), Fail> {
    assert!(rt; differs(rt.alloc(), BOTH_DIFFER, (1, 4, 51)));
    assert!(rt; differs(rt.alloc(), LAST_DIFFERS, (2, 2, 51)));
    Ok(())
}

/// A run whose text is no program, and one whose text isn't there.
const NO_PROGRAM: &[Put] = &[Put::Text(NONE), Put::Starts(1)];

const NO_TEXT: &[Put] = &[Put::Text(SAME), Put::Starts(2)];

#[test]
fn a_run_without_a_program_is_refused(rt: HostRuntime) -> Result<(), Fail> {
    assert!(rt; is_refused(rt.alloc(), NO_PROGRAM, 80));
    assert!(rt; is_refused(rt.alloc(), NO_TEXT, 80));
    Ok(())
}
