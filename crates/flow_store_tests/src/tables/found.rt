//! What tables in memory find over several runs: the timer that is due first, and a signal.
use crate::tables::puts::{Asks, Comes, Put};
use crate::tables::steps::{Step, TEXT, are_so, are_so_again};
use std::test::Fail;

/// A run that waits for a timer.
const WAITS_80: Step = Step::Puts(Put::Run("f", None, Asks::Timer(80)));

const WAITS_90: Step = Step::Puts(Put::Run("f", None, Asks::Timer(90)));

/// The second run waits for what is due first.
const TWO_TIMERS: &[Step] = &[
    Step::Begins,
    TEXT,
    WAITS_90,
    WAITS_80,
    Step::Due(100, 80, 2, 2),
    Step::Due(79, 0, 0, 0),
    Step::Next(80),
];

#[test]
fn the_first_timer_is_found(rt: HostRuntime) -> Result<(), Fail> {
    assert!(rt; are_so(rt.alloc(), TWO_TIMERS));
    Ok(())
}

const NO_TIMER: &[Step] = &[Step::Begins, Step::Due(100, 0, 0, 0), Step::Next(0)];

#[test]
fn no_timer_is_found(rt: HostRuntime) -> Result<(), Fail> {
    assert!(rt; are_so(rt.alloc(), NO_TIMER));
    Ok(())
}

/// A signal of request `q` comes to run 1, which completes.
const SIGNAL: Step = Step::Puts(Put::Turn(1, 5, Comes::Signal("q"), Asks::Ends));

/// A run that was signalled and is closed, and a later one of its flow.
const SIGNALLED: &[Step] = &[
    Step::Begins,
    TEXT,
    WAITS_90,
    SIGNAL,
    WAITS_80,
    Step::Signal("q", 1, 3),
    Step::Signal("p", 0, 0),
];

#[test]
fn a_signal_is_found_in_an_earlier_run(rt: HostRuntime) -> Result<(), Fail> {
    assert!(rt; are_so(rt.alloc(), SIGNALLED));
    Ok(())
}

/// The timer of run 1 fires, and the run starts another one.
const WAITS_AGAIN: Step = Step::Puts(Put::Turn(1, 5, Comes::Fires(2), Asks::Timer(85)));

/// What is due first behind a timer that fired, and behind the end of its run. Before each turn the run is read.
const READ: &[Step] = &[
    Step::Begins,
    TEXT,
    WAITS_80,
    WAITS_90,
    Step::Reads(1),
    WAITS_AGAIN,
    Step::Due(100, 85, 1, 4),
    Step::Reads(1),
    SIGNAL,
    Step::Due(100, 90, 2, 2),
];

#[test]
fn timers_follow_their_runs(rt: HostRuntime) -> Result<(), Fail> {
    assert!(rt; are_so(rt.alloc(), READ));
    Ok(())
}

/// Before each turn the head of the run is read.
const HEAD_READ: &[Step] = &[
    Step::Begins,
    TEXT,
    WAITS_80,
    WAITS_90,
    Step::ReadsHead(1),
    WAITS_AGAIN,
    Step::Due(100, 85, 1, 4),
    Step::ReadsHead(1),
    SIGNAL,
    Step::Due(100, 90, 2, 2),
];

#[test]
fn timers_follow_runs_of_which_the_head_was_read(rt: HostRuntime) -> Result<(), Fail> {
    assert!(rt; are_so(rt.alloc(), HEAD_READ));
    Ok(())
}

const NOT_READ: &[Step] = &[
    Step::Begins,
    TEXT,
    WAITS_80,
    WAITS_90,
    WAITS_AGAIN,
    Step::Due(100, 85, 1, 4),
    SIGNAL,
    Step::Due(100, 90, 2, 2),
];

#[test]
fn timers_of_runs_that_were_not_read(rt: HostRuntime) -> Result<(), Fail> {
    assert!(rt; are_so(rt.alloc(), NOT_READ));
    Ok(())
}

/// A timer is committed, and an earlier one rolled back.
const TIMERS_BACK: &[Step] = &[
    Step::Begins,
    TEXT,
    WAITS_90,
    Step::Commits,
    Step::Begins,
    WAITS_80,
    Step::Due(100, 80, 2, 2),
    Step::RollsBack,
    Step::Begins,
    Step::Due(100, 90, 1, 2),
];

#[test]
fn a_rollback_takes_timers_back(rt: HostRuntime) -> Result<(), Fail> {
    assert!(rt; are_so(rt.alloc(), TIMERS_BACK));
    Ok(())
}

/// A signal was taken before the last commit, another came in a transaction that is rolled back.
const SIGNALS_BACK: &[Step] = &[
    Step::Begins,
    TEXT,
    WAITS_90,
    SIGNAL,
    WAITS_80,
    Step::Commits,
    Step::Begins,
    Step::Puts(Put::Turn(2, 5, Comes::Signal("p"), Asks::Ends)),
    Step::RollsBack,
    Step::Begins,
    Step::Signal("q", 1, 3),
    Step::Signal("p", 0, 0),
];

#[test]
fn a_rollback_takes_signals_back(rt: HostRuntime) -> Result<(), Fail> {
    assert!(rt; are_so(rt.alloc(), SIGNALS_BACK));
    Ok(())
}

/// Of two runs that were read one takes a signal and ends, the other goes on, and a third begins: all of it is rolled back. Then the
/// first takes its signal again.
const RUNS_BACK: &[Step] = &[
    Step::Begins,
    TEXT,
    WAITS_90,
    Step::Puts(Put::Run("g", Some("r"), Asks::Timer(80))),
    Step::Commits,
    Step::Begins,
    Step::ReadsHead(1),
    SIGNAL,
    Step::ReadsHead(2),
    Step::Puts(Put::Turn(2, 5, Comes::Fires(2), Asks::Timer(95))),
    WAITS_90,
    Step::Due(100, 90, 3, 2),
    Step::RollsBack,
    Step::Begins,
    Step::Runs(2),
    Step::Found("f", "r", 2, 1),
    Step::Signal("q", 0, 0),
    Step::Due(100, 80, 2, 2),
    Step::ReadsHead(1),
    SIGNAL,
    Step::Signal("q", 1, 3),
    Step::Found("f", "r", 2, 0),
    Step::Found("g", "r", 2, 2),
];

#[test]
fn a_rollback_puts_runs_back(rt: HostRuntime) -> Result<(), Fail> {
    assert!(rt; are_so(rt.alloc(), RUNS_BACK));
    Ok(())
}

/// Two runs of two flows that wait, the second for what is due first.
const TWO_FLOWS: &[Step] = &[
    Step::Begins,
    TEXT,
    WAITS_90,
    Step::Puts(Put::Run("g", None, Asks::Timer(80))),
    Step::Commits,
];

const OPENED_AGAIN: &[Step] = &[Step::Begins, Step::Due(85, 80, 2, 2), Step::Next(80)];

#[test]
fn timers_are_known_behind_an_opening(rt: HostRuntime) -> Result<(), Fail> {
    assert!(rt; are_so_again(rt.alloc(), TWO_FLOWS, OPENED_AGAIN));
    Ok(())
}
