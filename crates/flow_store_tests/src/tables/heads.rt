//! What tables in memory tell of a run that goes on: its head, the events of its activities, and its text.
use crate::tables::puts::{Asks, Comes, Put};
use crate::tables::steps::{Step, TEXT, are_so};
use std::test::Fail;

/// A run that waits for an activity.
const CALLS: Step = Step::Puts(Put::Run("f", None, Asks::Call));

/// That activity gave a value, and the run waits for the next one.
const CALLS_AGAIN: Step = Step::Puts(Put::Turn(1, 5, Comes::Gives(2), Asks::Call));

const FOLLOWED: &[Step] = &[
    Step::Begins,
    TEXT,
    CALLS,
    Step::Commits,
    Step::Begins,
    Step::Head(2, 1, 2, 1),
    CALLS_AGAIN,
    Step::Head(4, 1, 4, 1),
    Step::Puts(Put::Attempt(4, 50)),
    Step::Head(4, 1, 4, 2),
];

#[test]
fn a_head_follows_its_run(rt: HostRuntime) -> Result<(), Fail> {
    assert!(rt; are_so(rt.alloc(), FOLLOWED));
    Ok(())
}

const UNDER_OTHER: &[Step] = &[
    Step::Begins,
    TEXT,
    CALLS,
    Step::Commits,
    Step::Begins,
    Step::Puts(Put::Text("workflow b() {}")),
    Step::Puts(Put::Under(2)),
    Step::Head(2, 2, 2, 1),
];

#[test]
fn a_head_has_the_text_that_its_run_goes_on_under(rt: HostRuntime) -> Result<(), Fail> {
    assert!(rt; are_so(rt.alloc(), UNDER_OTHER));
    Ok(())
}

const ROLLED_BACK: &[Step] = &[
    Step::Begins,
    TEXT,
    CALLS,
    Step::Commits,
    Step::Begins,
    Step::Head(2, 1, 2, 1),
    CALLS_AGAIN,
    Step::RollsBack,
    Step::Begins,
    Step::Head(2, 1, 2, 1),
    Step::Event(4, false),
];

#[test]
fn a_rollback_takes_a_head_back(rt: HostRuntime) -> Result<(), Fail> {
    assert!(rt; are_so(rt.alloc(), ROLLED_BACK));
    Ok(())
}

const EVENTS: &[Step] = &[
    Step::Begins,
    TEXT,
    CALLS,
    Step::Commits,
    Step::Begins,
    Step::Event(2, true),
    Step::Event(1, true),
    Step::Event(3, false),
];

#[test]
fn the_event_of_an_activity_is_found(rt: HostRuntime) -> Result<(), Fail> {
    assert!(rt; are_so(rt.alloc(), EVENTS));
    Ok(())
}
