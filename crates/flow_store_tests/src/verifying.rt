//! A store whose runs are all replayed: what is reported of it, and that nothing of it is changed.
use crate::acts::{Act, are_so, are_so_failing};
use crate::calls::{Call, Named, Told, Want};
use crate::engines::Asking;
use flow_base::book::Totals;
use flow_base::fault::Fault;
use flow_engine::engine::Engine;
use flow_model::answer::Stop;
use sqlite::Alter;
use std::test::Fail;

/// What is reported of a store.
#[derive(Clone, Copy)]
pub enum Verdict {
    /// How many texts, runs and events it has.
    Holds(u64, u64, u64),
    /// The run that doesn't replay, the place of the event, and the number of the mismatch.
    Differs(u64, usize, u8),
    /// The number of another refusal.
    Refused(u8),
}

fn holds(totals: &Totals, wanted: Verdict) -> bool {
    match wanted {
        Verdict::Holds(texts, runs, events) => {
            (totals.texts, totals.runs, totals.events) == (texts, runs, events)
        }
        _ => false,
    }
}

fn differs(fault: &Fault, run: u64, place: usize, number: u8) -> bool {
    match fault {
        Fault::Mismatch {
            run: found,
            place: at,
            name,
        } => found.get() == run && *at == place && name.code().number() == number,
        _ => false,
    }
}

fn is_refused(fault: &Fault, wanted: Verdict) -> bool {
    match wanted {
        Verdict::Holds(_, _, _) => false,
        Verdict::Differs(run, place, number) => differs(fault, run, place, number),
        Verdict::Refused(number) => fault.code().number() == number,
    }
}

/// Whether this is reported when an engine verifies its store.
pub fn is_reported<S: Alter>(engine: &mut Engine<S>, wanted: Verdict) -> bool {
    match &engine.verify() {
        Ok(totals) => holds(totals, wanted),
        Err(fault) => is_refused(fault, wanted),
    }
}

/// A run that has ended, and one that waits on its activity.
const BEGUN: &[Call] = &[
    Call::Register,
    Call::Start("f"),
    Call::Complete(1),
    Call::Start("g"),
];

/// They are verified, the second one ends, and they are verified again.
const VERIFIED: &[Act] = &[
    Act::Asks(Asking::Verifies(BEGUN, Want::Kept, Verdict::Holds(1, 2, 6))),
    Act::Asks(Asking::Verifies(&[], Want::Kept, Verdict::Holds(1, 2, 6))),
    Act::Asks(Asking::Verifies(&[Call::Complete(2)], Want::Kept, Verdict::Holds(1, 2, 8))),
];

#[test]
fn a_store_is_counted(rt: HostRuntime) -> Result<(), Fail> {
    assert!(rt; are_so(rt.alloc(), VERIFIED));
    Ok(())
}

#[test]
fn a_store_in_a_file_is_counted(rt: HostRuntime) -> Result<(), Fail> {
    assert!(rt; are_so_failing(rt.alloc(), u64::MAX, 1, VERIFIED));
    Ok(())
}

/// The first run has ended with 42, to which the 40 of its activity doesn't lead.
const CHANGED: &[Act] = &[
    Act::Asks(Asking::Answers(BEGUN, Want::Kept)),
    Act::Changes("UPDATE event2 SET body = replace(body, '41', '40') WHERE run = 1 AND id = 3"),
    Act::Asks(Asking::Verifies(&[], Want::Kept, Verdict::Differs(1, 4, 51))),
    // The engine goes on, and the other run is no worse.
    Act::Asks(Asking::Verifies(&[Call::Complete(2)], Want::Kept, Verdict::Differs(1, 4, 51))),
    Act::Counts(&[("SELECT * FROM event2", 8)]),
];

#[test]
fn a_closed_run_that_differs_is_named(rt: HostRuntime) -> Result<(), Fail> {
    assert!(rt; are_so(rt.alloc(), CHANGED));
    Ok(())
}

const HALTED: &[Act] = &[Act::Asks(Asking::Verifies(
    &[Call::Register, Call::Start("f"), Call::Complete(1)],
    Want::Told(&[
        Told::Replied(Named::Text(1)),
        Told::Stopped(Stop::Unknown),
        Told::Stopped(Stop::Halted),
    ]),
    Verdict::Refused(85),
))];

// The commit of the second command fails, and nothing more is answered.
#[test]
fn a_halted_engine_verifies_nothing(rt: HostRuntime) -> Result<(), Fail> {
    assert!(rt; are_so_failing(rt.alloc(), 30, 2000, HALTED));
    Ok(())
}
