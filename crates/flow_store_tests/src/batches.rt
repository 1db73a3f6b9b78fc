//! Batches of many commands committed over a store in memory, with ample memory.
use crate::acts::{Act, are_so};
use crate::calls::{Call, Named, Told, Want};
use crate::keepers::{Cut, Keeping};
use std::test::Fail;

const REQUESTED: &[Act] = &[Act::Keeps(Keeping::Commits(
    &[
        (1, Call::RegisterEmpty),
        (2, Call::History(1)),
        (3, Call::StartEmpty),
        (4, Call::StartEmptyAgain),
    ],
    Cut::InBatches(2),
    Want::Told(&[
        Told::Kept(1, 1, Named::Text(1)),
        Told::Kept(2, 2, Named::Code(70)),
        Told::Kept(3, 3, Named::Run(1)),
        Told::Kept(4, 4, Named::Duplicate(1)),
    ]),
))];

// The batch is the second one: a request that starts a run, and the same request for another flow.
#[test]
fn a_request_counts_within_its_batch(rt: HostRuntime) -> Result<(), Fail> {
    assert!(rt; are_so(rt.alloc(), REQUESTED));
    Ok(())
}

const MANY: &[Act] = &[Act::Keeps(Keeping::Commits(
    &[(8, Call::RegisterEmpty); 65],
    Cut::InBatches(64),
    Want::Last(65, Told::Kept(8, 65, Named::Text(1))),
))];

// 64 commands in one batch, and one in a batch behind it. All but the first find the text that it registered.
#[test]
fn a_batch_has_64_commands(rt: HostRuntime) -> Result<(), Fail> {
    assert!(rt; are_so(rt.alloc(), MANY));
    Ok(())
}

/// Each statement of the first two commands may visit so few rows, and one of the third may not.
const STEPS: Act = Act::Limits(Some(3));

/// A batch of two, of which both are decided.
const TWO: &[Act] = &[
    STEPS,
    Act::Keeps(Keeping::Commits(
        &[(1, Call::Register), (2, Call::Start("f"))],
        Cut::InBatches(3),
        Want::Kept,
    )),
];

/// A batch with one more, which reads the run's events, and a batch after it.
const THREE: &[Act] = &[
    STEPS,
    Act::Keeps(Keeping::Commits(
        &[
            (1, Call::Register),
            (2, Call::Start("f")),
            (3, Call::History(1)),
            (4, Call::RegisterEmpty),
        ],
        Cut::InBatches(3),
        Want::Told(&[Told::Refused(80, false), Told::Kept(4, 1, Named::Text(1))]),
    )),
];

// Only the third command needs a statement of more steps. Nothing stays of the two before it: the next batch, which is kept,
// has the first place and registers the first text.
#[test]
fn a_refused_command_refuses_its_batch(rt: HostRuntime) -> Result<(), Fail> {
    assert!(rt; are_so(rt.alloc(), TWO) && are_so(rt.alloc(), THREE));
    Ok(())
}
