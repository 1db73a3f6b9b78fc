//! Positions of small books, found as they are read from a store and as more runs are told behind, with ample memory.
use crate::acts::{Act, are_so};
use crate::calls::{A, Call, Want};
use crate::keepers::{Cut, Keeping};
use flow_base::book::Run;
use flow_base::code::Code;
use flow_base::event::{Event, Input, State, What, Wrong};
use flow_base::fault::Fault;
use flow_base::number::{EventId, Moment, RunId, TextNo};
use flow_base::sequence::Sequence;
use flow_base::text::{Key, RawText};
use flow_base::value::Value;
use flow_check::language::Language;
use flow_programs::kept::Kept;
use flow_recover::found::ALL;
use flow_recover::positions::Position;
use flow_recover::replayer::{Replayer, positions};
use flow_rows::book::WholeBook;
use flow_tables::listener::Listener;
use flow_tables::tables::Tables;
use sqlite::{Alter, Connection};
use std::alloc::Global;
use std::string::ToString;
use std::test::Fail;

/// What is told behind the runs of a book, and seen of its positions.
#[derive(Clone, Copy)]
pub enum Case {
    /// Of an empty book there is none.
    Empty,
    /// Each open run has one.
    Open,
    /// It is where replay leads.
    Replayed,
    /// Two runs that don't replay are told behind, and the first of them is named.
    Unreplayable,
    /// A run without a text is told behind, and it is refused.
    NoText,
}

// The start of a run, with no command behind it.
fn start(alloc: Global) -> Option<Event> {
    let id = EventId::new(1)?;
    let at = Moment::new(1000)?;
    let arguments = vec![in alloc; Value::Int(7)].ok()?;
    Some(Event {
        id,
        at,
        what: What::Came(Input::Started(Sequence::from_vec(arguments))),
    })
}

fn history(alloc: Global) -> Option<Sequence<Event>> {
    let list = vec![in alloc; start(alloc)?].ok()?;
    Some(Sequence::from_vec(list))
}

// A run that has only begun, whose text is of this number.
fn idle_run(alloc: Global, text: u64) -> Option<Run> {
    let text = TextNo::new(text)?;
    let flow = Key::new(alloc, "i").ok()?;
    let history = history(alloc)?;
    Some(Run {
        flow,
        request: None,
        text,
        history,
        tasks: Sequence::new(alloc),
    })
}

fn hears(alloc: Global, replayer: &mut Replayer<Kept<Language>>, number: u64) -> Option<bool> {
    let number = RunId::new(number)?;
    let run = idle_run(alloc, 1)?;
    let text = RawText::new(alloc, A).ok()?;
    replayer.hear(alloc, number, &run, &text);
    Some(true)
}

fn hears_without(
    alloc: Global,
    replayer: &mut Replayer<Kept<Language>>,
    number: u64,
) -> Option<bool> {
    let number = RunId::new(number)?;
    let run = idle_run(alloc, 2)?;
    replayer.hear_without(alloc, number, &run);
    Some(true)
}

// Whether the runs of the case were told behind the others.
fn has_heard(alloc: Global, replayer: &mut Replayer<Kept<Language>>, case: Case) -> bool {
    match case {
        Case::Empty | Case::Open | Case::Replayed => true,
        Case::Unreplayable => {
            hears(alloc, replayer, 4).is_some() && hears(alloc, replayer, 5).is_some()
        }
        Case::NoText => hears_without(alloc, replayer, 4).is_some(),
    }
}

// The history of this run lacks its second event.
fn lacks_its_second_event(fault: &Fault, number: u64) -> bool {
    match fault {
        Fault::Mismatch { run, place, name } => {
            run.get() == number && *place == 2 && matches!(name, Wrong::MissingEvent)
        }
        _ => false,
    }
}

/// Whether a run waits on its activity, under the first text.
pub fn is_waiting(position: &Position, run: u64) -> bool {
    let is_named = position.run.get() == run && position.text.get() == 1;
    match position.tasks.as_slice() {
        [task] => is_named && task.event.get() == 2 && task.attempt == 1,
        _ => false,
    }
}

/// Whether the runs with these numbers wait, each on its activity, and no other has a position.
pub fn are_waiting(list: &[Position], runs: &[u64]) -> bool {
    let mut are = list.len() == runs.len();
    for (position, run) in list.iter().zip(runs) {
        are = are && is_waiting(position, *run);
    }
    are
}

// Whether the first position is open behind two events, at its moment.
fn is_replayed(list: &[Position]) -> bool {
    match list.first() {
        Some(position) => {
            let stance = &position.stance;
            stance.state() == State::Open && stance.events() == 2 && stance.moment().get() == 1000
        }
        None => false,
    }
}

fn are_so_in(list: &[Position], case: Case) -> bool {
    match case {
        Case::Empty => list.is_empty(),
        Case::Open => are_waiting(list, &[2, 3]),
        Case::Replayed => is_replayed(list),
        _ => false,
    }
}

fn is_refused_so(fault: &Fault, case: Case) -> bool {
    match case {
        Case::Unreplayable => { lacks_its_second_event(fault, 4) && fault.code() == Code::Mismatch }
        Case::NoText => matches!(fault, Fault::StoreRefused),
        _ => false,
    }
}

fn has(replayer: &Replayer<Kept<Language>>, case: Case) -> bool {
    match &replayer.refused() {
        Some(fault) => is_refused_so(fault, case),
        None => are_so_in(replayer.positions().first(), case),
    }
}

fn is_so(alloc: Global, replayer: Replayer<Kept<Language>>, case: Case) -> bool {
    let mut replayer = replayer;
    has_heard(alloc, &mut replayer, case) && has(&replayer, case)
}

/// Whether the open runs of a store, and those that are told behind, have these positions, and the store.
pub fn has_positions<S: Alter>(
    alloc: Global,
    conn: Connection<S>,
    case: Case,
) -> (bool, Connection<S>) {
    let listener = Replayer::new(alloc, Kept::new(alloc, Language), ALL);
    match Tables::open(alloc, &Language, conn, listener) {
        Ok((tables, _book, replayer)) => (is_so(alloc, replayer, case), tables.into_connection()),
        Err((_, conn)) => (false, conn),
    }
}

// The first of three runs has completed, the others wait.
const BEGUN: Act = Act::Keeps(Keeping::Commits(
    &[
        (1, Call::Register),
        (2, Call::Start("f")),
        (3, Call::Start("g")),
        (4, Call::Start("h")),
        (5, Call::Complete(1)),
    ],
    Cut::Singly,
    Want::Kept,
));

const EMPTY: &[Act] = &[Act::Has(Case::Empty)];

#[test]
fn an_empty_book_has_no_position(rt: HostRuntime) -> Result<(), Fail> {
    assert!(rt; are_so(rt.alloc(), EMPTY));
    Ok(())
}

const OPEN: &[Act] = &[BEGUN, Act::Has(Case::Open)];

#[test]
fn each_open_run_has_a_position(rt: HostRuntime) -> Result<(), Fail> {
    assert!(rt; are_so(rt.alloc(), OPEN));
    Ok(())
}

const REPLAYED: &[Act] = &[BEGUN, Act::Has(Case::Replayed)];

#[test]
fn a_position_is_that_of_replay(rt: HostRuntime) -> Result<(), Fail> {
    assert!(rt; are_so(rt.alloc(), REPLAYED));
    Ok(())
}

const UNREPLAYABLE: &[Act] = &[BEGUN, Act::Has(Case::Unreplayable)];

#[test]
fn the_least_run_that_does_not_replay_is_named(rt: HostRuntime) -> Result<(), Fail> {
    assert!(rt; are_so(rt.alloc(), UNREPLAYABLE));
    Ok(())
}

/// Whether a fault is told so.
pub fn is_told(alloc: Global, fault: &Fault, wanted: &str) -> bool {
    match fault.to_string(alloc) {
        Ok(text) => text.as_str() == wanted,
        Err(_) => false,
    }
}

fn is_mismatch_told(alloc: Global) -> bool {
    let Some(run) = RunId::new(4) else {
        return false;
    };
    let fault = Fault::Mismatch {
        run,
        place: 2,
        name: Wrong::MissingEvent,
    };
    is_told(alloc, &fault, "E68 run 4 doesn't replay: E52 at 2")
}

#[test]
fn a_mismatch_is_told(rt: HostRuntime) -> Result<(), Fail> {
    assert!(rt; is_mismatch_told(rt.alloc()));
    Ok(())
}

const NO_TEXT: &[Act] = &[BEGUN, Act::Has(Case::NoText)];

#[test]
fn a_run_without_a_text_is_refused(rt: HostRuntime) -> Result<(), Fail> {
    assert!(rt; are_so(rt.alloc(), NO_TEXT));
    Ok(())
}

// A run of it waits for a signal as soon as it has begun.
const WAITS: &str = "workflow w(n: int) { signal s: int; let v = 0; v = wait signal s; return v; }";

// The book in lists that has one text, and one run of it, which has only begun.
fn small_book(alloc: Global, text: &str) -> Option<WholeBook> {
    let texts = vec![in alloc; RawText::new(alloc, text).ok()?].ok()?;
    let runs = vec![in alloc; idle_run(alloc, 1)?].ok()?;
    Some(WholeBook {
        texts: Sequence::from_vec(texts),
        runs: Sequence::from_vec(runs),
    })
}

// Whether the first run has the only position, behind one event.
fn is_first_alone(list: &[Position]) -> bool {
    match list {
        [position] => position.run.get() == 1 && position.stance.events() == 1,
        _ => false,
    }
}

// Whether the run of the small book has a position, or else lacks its second event.
fn is_first(alloc: Global, text: &str, is_replayed: bool) -> bool {
    let Some(book) = small_book(alloc, text) else {
        return false;
    };
    match positions(alloc, Kept::new(alloc, Language), &book) {
        Ok(list) => is_replayed && is_first_alone(list.as_slice()),
        Err(fault) => !is_replayed && lacks_its_second_event(&fault, 1),
    }
}

#[test]
fn a_book_in_lists_has_positions(rt: HostRuntime) -> Result<(), Fail> {
    assert!(rt; is_first(rt.alloc(), WAITS, true) && is_first(rt.alloc(), A, false));
    Ok(())
}
