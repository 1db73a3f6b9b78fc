//! A publisher that answers each command by a code, and the calls of a submitter as plain data: no keeper is needed.
ghost use Rattle.std.specs.Prelude.{◌≡◌, ◌≤◌, []};

use crate::commands::{asked_run, describe};
use flow_base::code::Code;
use flow_base::command::Command;
use flow_base::fault::Fault;
use flow_hub::publisher::Publisher;
use flow_hub::seats::Room;
use flow_hub::submitter::Submitter;
use flow_hub::ticket::{NotDone, Ticket};
use std::alloc::Global;
use std::sync::Wait;

/// Waits for commands, takes up to `most`, and answers them by a code. False: the hub is closed, and nothing waited.
pub fn refuse_next<B: Room, R: Wait>(
    rt: &R,
    alloc: Global,
    publisher: &mut Publisher<B>,
    most: usize,
    code: Code,
) -> Option<bool>
    requires none { publisher.old.held ≡ [] }
    requires most { (1 ≤ most) × (most ≤ 64) }
    ensures { publisher.new.held ≡ [] }
{
    let mut taken = Vec::with_capacity(alloc, most).ok()?;
    publisher.skip(rt, &Fault::StoreRefused);
    let some = publisher.take(rt, &mut taken, most);
    publisher.refuse(rt, taken, code);
    Some(some)
}

/// Answers by E84 so often, or until the hub is closed and nothing waits. False where memory was refused.
pub fn refuse_often<B: Room, R: Wait>(
    rt: &R,
    alloc: Global,
    publisher: &mut Publisher<B>,
    times: u64,
) -> bool
    requires { publisher.old.held ≡ [] }
    ensures { publisher.new.held ≡ [] }
{
    for _time in 0..times {
        match refuse_next(rt, alloc, publisher, 64, Code::Unknown) {
            Some(true) => {}
            Some(false) => return true,
            None => return false,
        }
    }
    true
}

/// Submits a command that asks for this run, or gives the number of the refusal and the run of the command that comes back.
pub fn submit<B: Room, R: Wait>(
    rt: &R,
    submitter: &mut Submitter<B>,
    run: u64,
) -> Result<Ticket<B>, (u8, u64)> {
    let command = describe(run).ok_or((0, 0))?;
    match submitter.submit(rt, command) {
        Ok(ticket) => Ok(ticket),
        Err((command, denied)) => Err((denied.number(), asked_run(&command))),
    }
}

/// The same, of which only the refusal is told: `(0, 0)` where it is taken in.
pub fn denied<B: Room, R: Wait>(rt: &R, submitter: &mut Submitter<B>, run: u64) -> (u8, u64) {
    match submit(rt, submitter, run) {
        Ok(_ticket) => (0, 0),
        Err(told) => told,
    }
}

fn run_back(command: &Option<Command>) -> u64 {
    match command {
        Some(command) => asked_run(command),
        None => 0,
    }
}

/// What a ticket has instead of a receipt: the number of the refusal, and the run of the command that comes back, or 0.
pub fn told_instead<B: Room>(instead: &NotDone<B>) -> (u8, u64) {
    (instead.code.number(), run_back(&instead.command))
}

/// Waits with a ticket: `(0, 0)` where there is a receipt.
pub fn told<B: Room, R: Wait>(
    rt: &R,
    submitter: &mut Submitter<B>,
    ticket: Ticket<B>,
) -> (u8, u64) {
    match submitter.wait(rt, ticket) {
        Ok(_receipt) => (0, 0),
        Err(instead) => told_instead(&instead),
    }
}
