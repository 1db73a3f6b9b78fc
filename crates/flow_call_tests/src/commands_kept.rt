//! Where a run stands once it has begun: its first report needs no replay.
use flow_base::command::Command;
use flow_base::number::{RunId, TextNo};
use flow_check::language::Language;
use flow_lines::command::command_of;
use flow_machine::decide::decide_all;
use flow_machine::seats::Seats;
use flow_programs::kept::Kept;
use flow_view::lists::Lists;
use std::alloc::Global;
use std::test::Fail;

/// A text whose runs call one activity.
pub const CALLS: &str =
    r#"{"do":"register","src":"workflow a(n: int) { activity c(int, text) -> int; let r = 0; r = call c(n, \"eur\"); return r + 1; }"}"#;

const ENDS: &str = r#"{"do":"register","src":"workflow b(n: int) { return n; }"}"#;

/// A run of the first text.
pub const STARTS: &str = r#"{"args":[7],"at":1000,"do":"start","flow":"f","req":"f","text":1}"#;

/// These commands, if each line is one.
pub fn commands(alloc: Global, lines: &[&str]) -> Option<Vec<Command>> {
    let mut list = Vec::new(alloc);
    for line in lines {
        list.push(command_of(alloc, line.as_bytes()).ok()?).ok()?;
    }
    Some(list)
}

/// Whether the position of run 1 under text 1 is known behind so many events.
fn is_known(seats: &mut Seats, events: u64) -> Option<bool> {
    let run = RunId::new(1)?;
    let text = TextNo::new(1)?;
    match seats.take(run, text, events) {
        Ok(Some(_stance)) => Some(true),
        Ok(None) => Some(false),
        Err(_) => None,
    }
}

/// The commands are decided over a new book, and where they lead is kept.
fn are_kept(alloc: Global, seats: &mut Seats, commands: &[Command]) -> bool {
    let mut book = Lists::new(alloc);
    let mut programs = Kept::new(alloc, Language);
    let decided = decide_all(alloc, &mut programs, &mut book, seats, commands).is_ok();
    seats.settle();
    decided
}

fn is_known_behind(alloc: Global, commands: &[Command], events: u64) -> Option<bool> {
    match Seats::new(alloc, 1) {
        Ok(seats) => {
            let mut seats = seats;
            if are_kept(alloc, &mut seats, commands) {
                is_known(&mut seats, events)
            } else {
                None
            }
        }
        Err(_) => None,
    }
}

/// Whether run 1 is known to stand behind so many events, once these commands are kept; nothing where one can't be decided.
fn stands(alloc: Global, lines: &[&str], events: u64) -> Option<bool> {
    match &commands(alloc, lines) {
        Some(commands) => is_known_behind(alloc, commands.as_slice(), events),
        None => None,
    }
}

#[test]
fn a_run_stands_where_its_first_turn_led(rt: HostRuntime) -> Result<(), Fail> {
    let lines = [CALLS, STARTS];
    assert!(rt; stands(rt.alloc(), &lines, 2) == Some(true));
    assert!(rt; stands(rt.alloc(), &lines, 1) == Some(false));
    Ok(())
}

#[test]
fn a_run_that_ends_at_once_stands_nowhere(rt: HostRuntime) -> Result<(), Fail> {
    let lines = [ENDS, STARTS];
    assert!(rt; stands(rt.alloc(), &lines, 2) == Some(false));
    Ok(())
}
