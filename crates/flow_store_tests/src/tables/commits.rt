//! Tables in memory: what a commit keeps and a rollback forgets, and what is refused.
use crate::tables::puts::{Asks, Comes, Put};
use crate::tables::steps::{A, Step, TEXT, are_so, are_so_and_told};
use std::test::Fail;

const KEPT: &[Step] = &[
    Step::Begins,
    TEXT,
    Step::Commits,
    Step::Begins,
    Step::Text(A, 1),
];

#[test]
fn a_commit_keeps_a_text(rt: HostRuntime) -> Result<(), Fail> {
    assert!(rt; are_so(rt.alloc(), KEPT));
    Ok(())
}

const FORGOTTEN: &[Step] = &[
    Step::Begins,
    TEXT,
    Step::Text(A, 1),
    Step::RollsBack,
    Step::Begins,
    Step::Text(A, 0),
];

#[test]
fn a_rollback_forgets_a_text(rt: HostRuntime) -> Result<(), Fail> {
    assert!(rt; are_so(rt.alloc(), FORGOTTEN));
    Ok(())
}

const OUTSIDE: &[Step] = &[
    Step::ReadsNothing,
    Step::CommitsNothing,
    Step::Begins,
    Step::Runs(0),
];

#[test]
fn nothing_is_read_outside_of_a_transaction(rt: HostRuntime) -> Result<(), Fail> {
    assert!(rt; are_so(rt.alloc(), OUTSIDE));
    Ok(())
}

/// A run that has events already starts once more.
const UNFIT: &[Step] = &[
    Step::Begins,
    TEXT,
    Step::Puts(Put::Run("f", None, Asks::Nothing)),
    Step::Refuses(Put::Turn(1, 5, Comes::Start, Asks::Nothing)),
    Step::ReadsNothing,
    Step::CommitsNothing,
    Step::RollsBack,
    Step::Begins,
    Step::Runs(0),
];

#[test]
fn an_unfit_change_refuses_the_rest(rt: HostRuntime) -> Result<(), Fail> {
    assert!(rt; are_so(rt.alloc(), UNFIT));
    Ok(())
}

/// The activity of event 2 gives a value, and run 1 completes.
const COMPLETES: Step = Step::Puts(Put::Turn(1, 7, Comes::Gives(2), Asks::Ends));

/// A run begins, is read and closes in one transaction.
const READ_AND_CLOSED: &[Step] = &[
    Step::Begins,
    TEXT,
    Step::Puts(Put::Run("f", None, Asks::Call)),
    Step::Run(1, 2, 1),
    COMPLETES,
    Step::Run(1, 4, 0),
    Step::Commits,
];

/// The same of a run that waits for more.
const CLOSED_WITH_MORE: &[Step] = &[
    Step::Begins,
    TEXT,
    Step::Puts(Put::Run("f", None, Asks::TwoCallsAndTimer(9))),
    Step::Run(1, 4, 2),
    COMPLETES,
    Step::Run(1, 6, 0),
    Step::Commits,
];

/// No activity, no timer and no run is open.
const NOTHING_OPEN: &[(&str, i64)] = &[
    ("SELECT count(*) FROM outbox", 0),
    ("SELECT count(*) FROM timer", 0),
    ("SELECT sum(isopen) FROM run", 0),
];

#[test]
fn a_run_that_was_read_closes(rt: HostRuntime) -> Result<(), Fail> {
    assert!(rt; are_so_and_told(rt.alloc(), READ_AND_CLOSED, NOTHING_OPEN));
    Ok(())
}

#[test]
fn what_it_leaves_open_goes(rt: HostRuntime) -> Result<(), Fail> {
    assert!(rt; are_so_and_told(rt.alloc(), CLOSED_WITH_MORE, NOTHING_OPEN));
    Ok(())
}
