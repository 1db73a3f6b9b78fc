//! Opening a store in memory, after what a keeper has kept in it, with ample memory.
ghost use Rattle.std.specs.Prelude.{◌≤◌};

use crate::acts::{Act, are_so, are_so_in_lives};
use crate::calls::{Call, Want, commands};
use crate::keepers::{Cut, closed, tells};
use crate::positions::{is_told, is_waiting};
use flow_base::code::Code;
use flow_base::command::Command;
use flow_base::event::Wrong;
use flow_base::fault::Fault;
use flow_check::language::Language;
use flow_commit::keeper::Keeper;
use flow_machine::decide::decide_all;
use flow_machine::seats::Seats;
use flow_move::watch::Unwatched;
use flow_programs::kept::Kept;
use flow_recover::positions::Position;
use flow_recover::recover::recover;
use flow_tables::tables::Tables;
use sqlite::{Alter, Connection};
use std::alloc::Global;
use std::test::Fail;

/// What is found in a store that is opened.
#[derive(Clone, Copy, PartialEq, Eq)]
pub enum Found {
    /// No position, and a keeper that goes on.
    Nothing,
    /// One position, of this run, which waits on its activity.
    Waiting(u64),
    /// E68 of run 1, whose second event has another content.
    Mismatch,
    Refused(u8),
    Other,
}

/// What is done with a store that is opened.
#[derive(Clone, Copy)]
pub enum Recovering {
    /// This is found in it.
    Finds(Found),
    /// Its keeper keeps a call.
    Keeps(Call),
    /// A transaction that runs on has applied a call.
    Applies(Call),
}

fn found_at(list: &[Position], is_halted: bool) -> Found {
    if is_halted {
        return Found::Other;
    }
    match list {
        [] => Found::Nothing,
        [position] => {
            let run = position.run.get();
            if is_waiting(position, run) {
                return Found::Waiting(run);
            }
            Found::Other
        }
        _ => Found::Other,
    }
}

// The second event of run 1 has another content.
fn is_mismatch(fault: &Fault) -> bool {
    match fault {
        Fault::Mismatch { run, place, name } => {
            run.get() == 1 && *place == 2 && matches!(name, Wrong::OtherContent)
        }
        _ => false,
    }
}

fn refused(fault: &Fault) -> Found {
    if is_mismatch(fault) && fault.code() == Code::Mismatch {
        return Found::Mismatch;
    }
    Found::Refused(fault.code().number())
}

fn is_refused_so(fault: &Fault, recovering: Recovering) -> bool {
    match recovering {
        Recovering::Finds(wanted) => refused(fault) == wanted,
        _ => false,
    }
}

/// Whether the call is kept, and the store behind it.
fn kept<S: Alter>(alloc: Global, keeper: Keeper<S>, call: Call) -> (bool, Connection<S>) {
    let mut keeper = keeper;
    let is = tells(alloc, &mut keeper, &[(1, call)], Cut::Singly, Want::Kept);
    (is, closed(keeper))
}

fn decided<S: Alter>(
    alloc: Global,
    tables: &mut Tables<S>,
    seats: &mut Seats,
    commands: &[Command],
) -> bool {
    let mut programs = Kept::new(alloc, Language);
    decide_all(alloc, &mut programs, tables, seats, commands).is_ok()
}

fn decides<S: Alter>(alloc: Global, tables: &mut Tables<S>, commands: &[Command]) -> bool {
    match Seats::new(alloc, 1) {
        Ok(seats) => {
            let mut seats = seats;
            decided(alloc, tables, &mut seats, commands)
        }
        Err(_) => false,
    }
}

fn decides_call<S: Alter>(alloc: Global, tables: &mut Tables<S>, call: Call) -> bool {
    match &commands(alloc, &[call]) {
        Some(commands) => decides(alloc, tables, commands.as_slice()),
        None => false,
    }
}

fn applies<S: Alter>(alloc: Global, tables: &mut Tables<S>, call: Call) -> bool {
    tables.begin().is_ok() && decides_call(alloc, tables, call)
}

/// Whether the call is applied, and the store within the transaction.
fn applied<S: Alter>(alloc: Global, tables: Tables<S>, call: Call) -> (bool, Connection<S>) {
    let mut tables = tables;
    let is = applies(alloc, &mut tables, call);
    (is, tables.into_connection())
}

fn done<S: Alter>(
    alloc: Global,
    keeper: Keeper<S>,
    found: Found,
    recovering: Recovering,
) -> (bool, Connection<S>) {
    match recovering {
        Recovering::Finds(wanted) => (found == wanted, closed(keeper)),
        Recovering::Keeps(call) => kept(alloc, keeper, call),
        Recovering::Applies(call) => applied(alloc, keeper.into_tables(), call),
    }
}

/// How many positions are kept at most.
fn most_of(recovering: Recovering) -> usize
    ensures first { 1 ≤ result }
    ensures last { result ≤ 4096 }
{
    match recovering {
        Recovering::Finds(_) => 256,
        Recovering::Keeps(_) => 1,
        Recovering::Applies(_) => 2,
    }
}

/// Whether this is done with a store that is opened, and the store behind it.
pub fn recovers<S: Alter>(
    alloc: Global,
    conn: Connection<S>,
    recovering: Recovering,
) -> (bool, Connection<S>) {
    match recover(alloc, conn, most_of(recovering), 256, &mut Unwatched) {
        Ok((keeper, positions)) => {
            let found = found_at(positions.first(), keeper.is_halted());
            drop(positions);
            done(alloc, keeper, found, recovering)
        }
        Err((fault, conn)) => (is_refused_so(&fault, recovering), conn),
    }
}

// A keeper that is opened for it keeps a call.
const REGISTER: Act = Act::Recovers(Recovering::Keeps(Call::Register));

const START: Act = Act::Recovers(Recovering::Keeps(Call::Start("f")));

const START_ANOTHER: Act = Act::Recovers(Recovering::Keeps(Call::Start("g")));

const COMPLETE: Act = Act::Recovers(Recovering::Keeps(Call::Complete(1)));

// A transaction that runs on has applied it.
const APPLY_COMPLETE: Act = Act::Recovers(Recovering::Applies(Call::Complete(1)));

// What is found.
const NOTHING: Act = Act::Recovers(Recovering::Finds(Found::Nothing));

const FIRST_WAITS: Act = Act::Recovers(Recovering::Finds(Found::Waiting(1)));

const SECOND_WAITS: Act = Act::Recovers(Recovering::Finds(Found::Waiting(2)));

const EMPTY: &[Act] = &[NOTHING];

#[test]
fn an_empty_store_has_no_position(rt: HostRuntime) -> Result<(), Fail> {
    assert!(rt; are_so(rt.alloc(), EMPTY));
    Ok(())
}

const BEGUN: &[Act] = &[REGISTER, START, FIRST_WAITS];

#[test]
fn a_run_that_waits_has_a_position(rt: HostRuntime) -> Result<(), Fail> {
    assert!(rt; are_so(rt.alloc(), BEGUN));
    Ok(())
}

const CLOSED: &[Act] = &[REGISTER, START, COMPLETE, NOTHING];

#[test]
fn a_closed_run_has_none(rt: HostRuntime) -> Result<(), Fail> {
    assert!(rt; are_so(rt.alloc(), CLOSED));
    Ok(())
}

const ONE_CLOSED: &[&[Act]] = &[&[REGISTER, START, START_ANOTHER, COMPLETE], &[SECOND_WAITS]];

#[test]
fn an_open_run_has_one_beside_a_closed_one(rt: HostRuntime) -> Result<(), Fail> {
    assert!(rt; are_so_in_lives(rt.alloc(), ONE_CLOSED));
    Ok(())
}

const STOPPED_WITHIN: &[&[Act]] = &[&[REGISTER, START, APPLY_COMPLETE], &[FIRST_WAITS]];

#[test]
fn a_stop_within_a_transaction_leaves_the_last_commit(rt: HostRuntime) -> Result<(), Fail> {
    assert!(rt; are_so_in_lives(rt.alloc(), STOPPED_WITHIN));
    Ok(())
}

const RUNS_ON: &[Act] = &[REGISTER, START, APPLY_COMPLETE, FIRST_WAITS];

#[test]
fn a_transaction_that_runs_is_rolled_back(rt: HostRuntime) -> Result<(), Fail> {
    assert!(rt; are_so(rt.alloc(), RUNS_ON));
    Ok(())
}

const THREE_LIVES: &[&[Act]] = &[&[REGISTER, START], &[COMPLETE], &[NOTHING]];

#[test]
fn what_was_committed_is_there_after_a_stop(rt: HostRuntime) -> Result<(), Fail> {
    assert!(rt; are_so_in_lives(rt.alloc(), THREE_LIVES));
    Ok(())
}

const OTHER_ARGUMENT: &[Act] = &[
    REGISTER,
    START,
    Act::Changes("UPDATE event2 SET body = replace(body, 'eur', 'usd') WHERE id = 2"),
    Act::Recovers(Recovering::Finds(Found::Mismatch)),
];

// Its rows tell a book, but the program asks for another argument than its second event has.
#[test]
fn a_run_that_does_not_replay_is_refused(rt: HostRuntime) -> Result<(), Fail> {
    assert!(rt; are_so(rt.alloc(), OTHER_ARGUMENT));
    Ok(())
}

fn is_number_told(alloc: Global) -> bool {
    let fault = Fault::BadVersion;
    fault.code() == Code::BadVersion && is_told(alloc, &fault, "E82 another format")
}

#[test]
fn a_refusal_tells_its_number(rt: HostRuntime) -> Result<(), Fail> {
    assert!(rt; is_number_told(rt.alloc()));
    Ok(())
}
