//! What is done with an engine, and what is told of it. One function owns the engine, lends it to what asks it, and closes it.
use crate::calls::{Call, Calls, Told, Want, add_receipts, command, commands, is_as, named_by};
use crate::keepers::{batch, code_of};
use crate::positions::are_waiting;
use crate::verifying::{Verdict, is_reported};
use flow_base::command::Command;
use flow_commit::batch::Batch;
use flow_engine::done::{Done, Unanswered};
use flow_engine::drive::drive;
use flow_engine::engine::Engine;
use flow_lines::batch::BatchSize;
use flow_lines::drive::drive_lines;
use flow_lines::streams::{Reading, Writing};
use flow_model::answer::{Answer, Stop};
use flow_move::watch::Unwatched;
use flow_settings::settings::Settings;
use sqlite::{Alter, Connection};
use std::alloc::Global;

/// What an engine is asked for.
#[derive(Clone, Copy)]
pub enum Asking {
    /// It answers calls one by one, of which this is told.
    Answers(&'static [Call], Want),
    /// It answers two lists of calls, of which this is told, and that.
    AnswersAll(&'static [Call], Want, &'static [Call], Want),
    /// It is given two lists of calls, each call a batch, of which this is told.
    Drives(Calls, Calls, &'static [Told]),
    /// Lines are answered, so many commands in a batch, and end with this status. What is written is there behind it.
    Lines(u64, &'static [u8], u8),
    /// It answers calls one by one, of which this is told, and then reports this of its store.
    Verifies(&'static [Call], Want, Verdict),
}

fn told_of(answer: &Answer) -> Told {
    match answer {
        Answer::Replied(reply) => Told::Replied(named_by(reply)),
        Answer::NotApplied(code) => Told::NotApplied(code.number()),
    }
}

fn told_by(answer: &Result<Answer, Stop>) -> Told {
    match answer {
        Ok(answer) => told_of(answer),
        Err(stop) => Told::Stopped(*stop),
    }
}

/// Puts what is told of a command behind what was told before.
fn answer<S: Alter>(list: &mut Vec<Told>, engine: &mut Engine<S>, command: Command) -> bool {
    let told = told_by(&engine.answer(command));
    list.push(told).is_ok()
}

fn answer_each<S: Alter>(
    alloc: Global,
    list: &mut Vec<Told>,
    engine: &mut Engine<S>,
    calls: &[Call],
) -> bool {
    let mut are = true;
    for call in calls {
        are = match command(alloc, *call) {
            Some(command) => answer(list, engine, command) && are,
            None => false,
        };
    }
    are
}

fn answers<S: Alter>(alloc: Global, engine: &mut Engine<S>, calls: &[Call], want: Want) -> bool {
    let mut list = Vec::new(alloc);
    answer_each(alloc, &mut list, engine, calls) && is_as(list.as_slice(), calls.len(), want)
}

fn tell_all(list: &mut Vec<Told>, answers: &[Answer]) -> bool {
    let mut are = true;
    for answer in answers {
        are = list.push(told_of(answer)).is_ok() && are;
    }
    are
}

/// Puts what is told of a list of commands behind what was told before, and of the stop behind it if there is one.
fn answer_list<S: Alter>(
    list: &mut Vec<Told>,
    engine: &mut Engine<S>,
    commands: Vec<Command>,
) -> bool {
    match engine.answer_all(commands) {
        Ok(answers) => tell_all(list, answers.as_slice()),
        Err(Unanswered::Stopped(answers, stop)) => {
            tell_all(list, answers.as_slice()) && list.push(Told::Stopped(stop)).is_ok()
        }
        Err(Unanswered::NoMemory(_)) => false,
    }
}

fn answer_calls<S: Alter>(
    alloc: Global,
    list: &mut Vec<Told>,
    engine: &mut Engine<S>,
    calls: &[Call],
) -> bool {
    match commands(alloc, calls) {
        Some(commands) => answer_list(list, engine, commands),
        None => false,
    }
}

fn answers_all<S: Alter>(
    alloc: Global,
    engine: &mut Engine<S>,
    calls: &[Call],
    want: Want,
) -> bool {
    let mut list = Vec::new(alloc);
    answer_calls(alloc, &mut list, engine, calls) && is_as(list.as_slice(), calls.len(), want)
}

/// Puts what is told of a batch behind what was told before.
fn add_done(list: &mut Vec<Told>, done: &Done, is_halted: bool) -> bool {
    match done {
        Done::Kept(receipts) => add_receipts(list, receipts.as_slice(), is_halted),
        Done::NotApplied(fault) => list.push(Told::Refused(code_of(fault), is_halted)).is_ok(),
        Done::Unknown => list.push(Told::Refused(84, is_halted)).is_ok(),
        Done::Halted => list.push(Told::Refused(85, is_halted)).is_ok(),
    }
}

fn add_dones(list: &mut Vec<Told>, dones: &[Done], is_halted: bool) -> bool {
    let mut are = true;
    for done in dones {
        are = add_done(list, done, is_halted) && are;
    }
    are
}

fn add_batch(alloc: Global, list: &mut Vec<Batch>, ticket: u64, call: Call) -> bool {
    match batch(alloc, ticket, call) {
        Some(batch) => list.push(batch).is_ok(),
        None => false,
    }
}

fn batches(alloc: Global, calls: &[(u64, Call)]) -> Option<Vec<Batch>> {
    let mut list = Vec::new(alloc);
    let mut are = true;
    for (ticket, call) in calls {
        are = add_batch(alloc, &mut list, *ticket, *call) && are;
    }
    if are { Some(list) } else { None }
}

fn drive_batches<S: Alter>(
    list: &mut Vec<Told>,
    engine: &mut Engine<S>,
    batches: Vec<Batch>,
) -> bool {
    match drive(engine, batches) {
        Ok(dones) => add_dones(list, dones.as_slice(), engine.is_halted()),
        Err((_, _)) => false,
    }
}

/// Puts what an engine tells of these calls, as one list of batches, behind what was told before.
fn drive_calls<S: Alter>(
    alloc: Global,
    list: &mut Vec<Told>,
    engine: &mut Engine<S>,
    calls: &[(u64, Call)],
) -> bool {
    match batches(alloc, calls) {
        Some(batches) => drive_batches(list, engine, batches),
        None => false,
    }
}

fn drives<S: Alter>(
    alloc: Global,
    engine: &mut Engine<S>,
    calls: &[(u64, Call)],
    more: &[(u64, Call)],
    want: Want,
) -> bool {
    let mut list = Vec::new(alloc);
    drive_calls(alloc, &mut list, engine, calls)
        && drive_calls(alloc, &mut list, engine, more)
        && is_as(list.as_slice(), calls.len(), want)
}

/// The status that the lines end with; their answers are written.
fn status<S: Alter>(
    alloc: Global,
    engine: &mut Engine<S>,
    lines: &[u8],
    size: BatchSize,
    out: &mut Vec<u8>,
) -> u8 {
    let mut input = Reading::new(lines);
    let mut output = Writing::new(out);
    match drive_lines(alloc, engine, &mut input, &mut output, size) {
        Ok(done) => done,
        Err(fault) => flow_lines::fault::status(&fault),
    }
}

fn lines_end<S: Alter>(
    alloc: Global,
    engine: &mut Engine<S>,
    lines: &[u8],
    size: u64,
    wanted: u8,
    out: &mut Vec<u8>,
) -> bool {
    match BatchSize::new(size) {
        Some(size) => status(alloc, engine, lines, size, out) == wanted,
        None => false,
    }
}

fn is_answered_so<S: Alter>(
    alloc: Global,
    engine: &mut Engine<S>,
    asking: Asking,
    out: &mut Vec<u8>,
) -> bool {
    match asking {
        Asking::Answers(calls, want) => answers(alloc, engine, calls, want),
        Asking::AnswersAll(calls, want, more, then) => {
            answers_all(alloc, engine, calls, want) && answers_all(alloc, engine, more, then)
        }
        Asking::Drives(calls, more, told) => drives(alloc, engine, calls, more, Want::Told(told)),
        Asking::Lines(size, lines, status) => lines_end(alloc, engine, lines, size, status, out),
        Asking::Verifies(calls, want, verdict) => {
            answers(alloc, engine, calls, want) && is_reported(engine, verdict)
        }
    }
}

/// Whether an engine that is opened for it alone, with these settings, answers so, and the store behind it.
pub fn answers_so<S: Alter>(
    alloc: Global,
    conn: Connection<S>,
    settings: Settings,
    asking: Asking,
    out: &mut Vec<u8>,
) -> (bool, Connection<S>) {
    match Engine::open(alloc, conn, settings) {
        Ok(engine) => {
            let mut engine = engine;
            let is = is_answered_so(alloc, &mut engine, asking, out);
            (is, engine.close())
        }
        Err((_fault, conn)) => (false, conn),
    }
}

/// Whether an engine that is opened for it lists these runs as open, each waiting on its activity, and the store after it.
pub fn lists_open<S: Alter>(
    alloc: Global,
    conn: Connection<S>,
    runs: &[u64],
) -> (bool, Connection<S>) {
    match Engine::open_listed(alloc, conn, Settings::usual(), &mut Unwatched) {
        Ok((engine, found)) => (are_waiting(found.as_slice(), runs), engine.close()),
        Err((_fault, conn)) => (false, conn),
    }
}
