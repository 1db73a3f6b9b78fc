//! Where a replay leaves a run that is open, and a copy of it.
use crate::histories::{CALLED, CALLER, Row, STARTED, history, program};
use flow_base::event::{Event, State};
use flow_base::value::{Kind, Value};
use flow_check::checked::Checked;
use flow_match::replay::replay;
use flow_run::stance::Stance;
use flow_run::waits::OpenWait;
use std::alloc::Global;
use std::test::Fail;

/// The run waits on its activity.
const OPEN: &[Row] = &[STARTED, CALLED];

fn has_seven(program: &Checked, stance: &Stance) -> bool {
    match stance.variable(program, "n") {
        Some(value) => value.is(&Value::Int(7)),
        None => false,
    }
}

fn is_wait(waits: &[OpenWait]) -> bool {
    match waits {
        [OpenWait::Activity(2, into, Kind::Int)] => into.as_str() == "r",
        _ => false,
    }
}

fn waits(alloc: Global, program: &Checked, stance: &Stance) -> bool {
    match stance.waits(alloc, program) {
        Ok(waits) => is_wait(waits.as_slice()),
        Err(_) => false,
    }
}

// Whether the run is open and waits on its activity.
fn is_open(alloc: Global, program: &Checked, stance: &Stance) -> bool {
    stance.events() == 2
        && stance.state() == State::Open
        && has_seven(program, stance)
        && waits(alloc, program, stance)
}

fn is_copied(alloc: Global, program: &Checked, stance: &Stance) -> bool {
    match stance.copy(alloc) {
        Ok(copied) => is_open(alloc, program, &copied),
        Err(_) => false,
    }
}

fn is_replayed(alloc: Global, program: &Checked, events: &[Event]) -> bool {
    match replay(alloc, program, events) {
        Ok(stance) => is_open(alloc, program, &stance) && is_copied(alloc, program, &stance),
        Err(_) => false,
    }
}

fn are_replayed(alloc: Global, rows: &[Row]) -> Option<bool> {
    let events = history(alloc, rows)?;
    let program = program(alloc, CALLER)?;
    Some(is_replayed(alloc, &program, events.as_slice()))
}

#[test]
fn a_copy_waits_on_the_same_activity(rt: HostRuntime) -> Result<(), Fail> {
    assert!(rt; are_replayed(rt.alloc(), OPEN) == Some(true));
    Ok(())
}
