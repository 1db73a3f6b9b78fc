//! Runs found by their keys, which are kept in memory: behind a commit, a rollback, and where a key stands twice.
use crate::tables::puts::{Asks, Comes, Put};
use crate::tables::steps::{Step, TEXT, are_so};
use std::test::Fail;

/// A run of flow `f` by request `q`.
const START: Step = Step::Puts(Put::Run("f", Some("q"), Asks::Nothing));

/// Run 1 is terminated.
const TERMINATE: Step = Step::Puts(Put::Turn(1, 7, Comes::Terminated, Asks::Nothing));

/// One run is committed, another rolled back.
const ROLLED_BACK: &[Step] = &[
    Step::Begins,
    TEXT,
    START,
    Step::Found("f", "q", 1, 1),
    Step::Commits,
    Step::Begins,
    Step::Puts(Put::Run("g", Some("r"), Asks::Nothing)),
    Step::Found("g", "r", 2, 2),
    Step::RollsBack,
    Step::Begins,
    Step::Found("g", "r", 0, 0),
    Step::Found("f", "q", 1, 1),
];

#[test]
fn a_rollback_takes_keys_back(rt: HostRuntime) -> Result<(), Fail> {
    assert!(rt; are_so(rt.alloc(), ROLLED_BACK));
    Ok(())
}

/// Two runs have the same flow and the same request, and the first one closes.
const DOUBLED: &[Step] = &[
    Step::Begins,
    TEXT,
    START,
    Step::Found("f", "q", 1, 1),
    START,
    Step::Found("f", "q", 1, 1),
    TERMINATE,
    Step::Found("f", "q", 1, 2),
];

/// The same, and the first one is read before.
const DOUBLED_AND_READ: &[Step] = &[
    Step::Begins,
    TEXT,
    START,
    Step::Found("f", "q", 1, 1),
    START,
    Step::Found("f", "q", 1, 1),
    Step::Run(1, 1, 0),
    TERMINATE,
    Step::Found("f", "q", 1, 2),
];

#[test]
fn a_doubled_key_is_that_of_the_first(rt: HostRuntime) -> Result<(), Fail> {
    assert!(rt; are_so(rt.alloc(), DOUBLED));
    assert!(rt; are_so(rt.alloc(), DOUBLED_AND_READ));
    Ok(())
}

const CLOSED: &[Step] = &[
    Step::Begins,
    TEXT,
    START,
    Step::Found("f", "q", 1, 1),
    TERMINATE,
    Step::Found("f", "q", 1, 0),
];

const READ_AND_CLOSED: &[Step] = &[
    Step::Begins,
    TEXT,
    START,
    Step::Found("f", "q", 1, 1),
    Step::Run(1, 1, 0),
    TERMINATE,
    Step::Found("f", "q", 1, 0),
];

#[test]
fn a_closed_run_is_not_open(rt: HostRuntime) -> Result<(), Fail> {
    assert!(rt; are_so(rt.alloc(), CLOSED));
    assert!(rt; are_so(rt.alloc(), READ_AND_CLOSED));
    Ok(())
}
