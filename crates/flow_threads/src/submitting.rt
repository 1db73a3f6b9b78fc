//! What a thread does that submits.
use crate::commands::{command, note_of, refused_by};
use crate::note::Note;
use crate::plan::Plan;
use flow_base::submission::Receipt;
use flow_hub::hub::Hub;
use flow_hub::seats::Room;
use flow_hub::submitter::Submitter;
use flow_hub::ticket::{NotDone, Ticket};
use std::alloc::Global;
use std::collections::VecDeque;
use std::sync::Wait;
use std::thread;
use std::thread::Threads;
use std::time::Clock;

/// What all threads bring back of a race.
#[derive(Drop)]
pub struct Brought {
    /// What the text was answered, and each thread's answers, in the order in which it has fetched them.
    pub notes: Vec<Vec<Note>>,
    /// How many receipts were published then.
    pub published: u64,
}

/// What is noted of the answer to a ticket.
fn noted<B: Room>(answer: Result<Receipt, NotDone<B>>) -> Note {
    match answer {
        Ok(receipt) => note_of(&receipt),
        Err(instead) => refused_by(instead.code.number()),
    }
}

/// Waits with the first ticket. None: there is none, or memory was refused.
fn fetch_first<B: Room, R: Wait>(
    rt: &R,
    submitter: &mut Submitter<B>,
    open: &mut VecDeque<Ticket<B>>,
    notes: &mut Vec<Note>,
) -> Option<()> {
    let ticket = open.pop_front()?;
    notes.push(noted(submitter.wait(rt, ticket))).ok()
}

/// Submits a command, and puts its ticket behind the others. None: memory was refused.
fn submit<B: Room, R: Wait>(
    rt: &R,
    alloc: Global,
    submitter: &mut Submitter<B>,
    number: u64,
    open: &mut VecDeque<Ticket<B>>,
    notes: &mut Vec<Note>,
) -> Option<()> {
    match submitter.submit(rt, command(alloc, number)?) {
        Ok(ticket) => open.push_back(ticket).ok(),
        Err((_command, denied)) => notes.push(refused_by(denied.number())).ok(),
    }
}

/// Submits the commands from `first` to before `end`, and fetches as it goes.
fn submit_all<B: Room, R: Wait>(
    rt: &R,
    alloc: Global,
    submitter: &mut Submitter<B>,
    first: u64,
    end: u64,
    window: usize,
) -> Option<Vec<Note>> {
    let mut open = VecDeque::new(alloc);
    let mut notes = Vec::new(alloc);
    for number in first..end {
        if open.len() >= window {
            fetch_first(rt, submitter, &mut open, &mut notes)?;
        }
        submit(rt, alloc, submitter, number, &mut open, &mut notes)?;
    }
    for _left in 0..open.len() {
        fetch_first(rt, submitter, &mut open, &mut notes)?;
    }
    Some(notes)
}

/// What the thread of this number does.
fn work<B: Room, R: Wait>(
    rt: &R,
    alloc: Global,
    hub: &Hub<B>,
    plan: Plan,
    thread: u64,
) -> Option<Vec<Note>> {
    let first = plan.each.saturating_mul(thread).saturating_add(1);
    let end = first.saturating_add(plan.each);
    let mut submitter = hub.submitter(rt).ok()?;
    let notes = submit_all(rt, alloc, &mut submitter, first, end, plan.window);
    submitter.leave();
    notes
}

/// Puts what the threads bring behind the others. None: one of them, or this, was refused memory.
fn add_all(notes: &mut Vec<Vec<Note>>, more: Vec<Option<Vec<Note>>>) -> Option<()> {
    for some in more {
        notes.push(some?).ok()?;
    }
    Some(())
}

/// Registers the text, and then submits and fetches on all threads.
fn submit_race<B: Room + Send + Sync, R: Threads + Wait + Clock + Sync>(
    rt: &R,
    alloc: Global,
    hub: &Hub<B>,
    registrar: &mut Submitter<B>,
    plan: Plan,
) -> Option<Brought> {
    let mut notes = Vec::new(alloc);
    notes.push(submit_all(rt, alloc, registrar, 0, 1, 1)?).ok()?;
    thread::sleep(rt, plan.pause);
    let each = |at| work(rt, alloc, hub, plan, at as u64);
    let more = thread::map_indices(rt, alloc, plan.threads as usize, &each).ok()?;
    add_all(&mut notes, more)?;
    Some(Brought {
        notes,
        published: registrar.published(),
    })
}

/// The same, and closes the hub behind all of them.
pub fn run_race<B: Room + Send + Sync, R: Threads + Wait + Clock + Sync>(
    rt: &R,
    alloc: Global,
    hub: &Hub<B>,
    plan: Plan,
) -> Option<Brought> {
    let brought = match hub.submitter(rt) {
        Ok(mut registrar) => {
            let brought = submit_race(rt, alloc, hub, &mut registrar, plan);
            registrar.leave();
            brought
        }
        Err(_unseated) => None,
    };
    hub.close(rt);
    brought
}
