//! Lists of batches over a store in memory, with ample memory.
use crate::acts::{Act, are_so};
use crate::calls::{Call, Calls, Named, Told};
use crate::engines::Asking;
use std::test::Fail;

/// The start of a run that waits on its activity.
const BEGUN: Calls = &[(7, Call::Register), (5, Call::Start("f"))];

/// Its activity is reported twice.
const REPORTED: Calls = &[(3, Call::Complete(1)), (1, Call::Complete(1))];

// The last one is E64.
const BY_ONE: &[Act] = &[Act::Asks(Asking::Drives(
    BEGUN,
    REPORTED,
    &[
        Told::Kept(7, 1, Named::Text(1)),
        Told::Kept(5, 2, Named::Run(1)),
        Told::Kept(3, 3, Named::Event(3)),
        Told::Kept(1, 4, Named::Code(64)),
    ],
))];

#[test]
fn batches_of_one_are_kept(rt: HostRuntime) -> Result<(), Fail> {
    assert!(rt; are_so(rt.alloc(), BY_ONE));
    Ok(())
}

const NONE: &[Act] = &[Act::Asks(Asking::Drives(&[], &[], &[]))];

#[test]
fn no_batch_has_no_answer(rt: HostRuntime) -> Result<(), Fail> {
    assert!(rt; are_so(rt.alloc(), NONE));
    Ok(())
}

const ASKED: Calls = &[(2, Call::History(1))];

const NOTHING_TO_DO: &[Act] = &[Act::Asks(Asking::Drives(
    &[(1, Call::RegisterEmpty), (2, Call::StartEmpty)],
    ASKED,
    &[
        Told::Kept(1, 1, Named::Text(1)),
        Told::Kept(2, 2, Named::Run(1)),
        Told::Kept(2, 3, Named::Events(2, true)),
    ],
))];

#[test]
fn a_flow_with_nothing_to_do_ends(rt: HostRuntime) -> Result<(), Fail> {
    assert!(rt; are_so(rt.alloc(), NOTHING_TO_DO));
    Ok(())
}
