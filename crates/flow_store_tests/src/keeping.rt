//! Single commands committed over a store in memory, with ample memory.
use crate::acts::{Act, are_so, are_so_failing};
use crate::calls::{Call, Named, Told, Want};
use crate::keepers::{Cut, Keeping};
use std::test::Fail;

const FIRST: &[Act] = &[Act::Keeps(Keeping::Commits(
    &[(5, Call::Register), (4, Call::Start("f"))],
    Cut::Singly,
    Want::Told(&[
        Told::Kept(5, 1, Named::Text(1)),
        Told::Kept(4, 2, Named::Run(1)),
    ]),
))];

#[test]
fn receipts_stand_at_their_places(rt: HostRuntime) -> Result<(), Fail> {
    assert!(rt; are_so(rt.alloc(), FIRST));
    Ok(())
}

const REFUSED: &[Act] = &[Act::Keeps(Keeping::Commits(
    &[(1, Call::Complete(1)), (2, Call::Register)],
    Cut::Singly,
    Want::Told(&[
        Told::Kept(1, 1, Named::Code(70)),
        Told::Kept(2, 2, Named::Text(1)),
    ]),
))];

// A refused command is kept too, and the keeper goes on.
#[test]
fn a_refusal_is_kept(rt: HostRuntime) -> Result<(), Fail> {
    assert!(rt; are_so(rt.alloc(), REFUSED));
    Ok(())
}

const UNCHANGED: &[Act] = &[
    Act::Keeps(Keeping::Commits(&[(1, Call::Complete(1))], Cut::Singly, Want::Kept)),
    Act::Keeps(Keeping::Commits(&[], Cut::Singly, Want::Kept)),
    Act::Counts(&[("SELECT num FROM run", 0)]),
];

#[test]
fn a_refusal_changes_nothing(rt: HostRuntime) -> Result<(), Fail> {
    assert!(rt; are_so(rt.alloc(), UNCHANGED));
    Ok(())
}

const NOT_APPLIED: &[Act] = &[Act::Keeps(Keeping::Commits(
    &[(1, Call::Register), (1, Call::Start("f"))],
    Cut::Singly,
    Want::Told(&[Told::Kept(1, 1, Named::Text(1)), Told::Refused(80, false)]),
))];

// With one page in memory a read of the second command fails. Nothing of it is kept, and the keeper goes on.
#[test]
fn a_read_that_fails_applies_nothing(rt: HostRuntime) -> Result<(), Fail> {
    assert!(rt; are_so_failing(rt.alloc(), 34, 1, NOT_APPLIED));
    Ok(())
}

const HALTED: &[Act] = &[Act::Keeps(Keeping::Commits(
    &[
        (1, Call::Register),
        (1, Call::Start("f")),
        (1, Call::Complete(1)),
    ],
    Cut::Singly,
    Want::Told(&[
        Told::Kept(1, 1, Named::Text(1)),
        Told::Refused(84, true),
        Told::Refused(85, true),
    ]),
))];

// With all pages in memory only the commit reaches the log. Nobody knows of it, and the keeper answers no more.
#[test]
fn a_commit_that_fails_halts(rt: HostRuntime) -> Result<(), Fail> {
    assert!(rt; are_so_failing(rt.alloc(), 30, 2000, HALTED));
    Ok(())
}
