//! Lists of commands answered by an engine, with ample memory, and the runs that the next one finds open.
use crate::acts::{Act, are_so, are_so_failing};
use crate::calls::{Call, Named, Told, Want};
use crate::engines::Asking;
use flow_model::answer::Stop;
use std::test::Fail;

// examples/payment.jsonl
const PAYMENT: &[Call] = &[
    Call::Register,
    Call::Start("f"),
    Call::Complete(1),
    Call::History(1),
    Call::Describe,
];

const PAID: Want = Want::Told(&[
    Told::Replied(Named::Text(1)),
    Told::Replied(Named::Run(1)),
    Told::Replied(Named::Event(3)),
    Told::Replied(Named::Returned(4, 42)),
    Told::Replied(Named::Described(4, true)),
]);

const AT_ONCE: &[Act] = &[Act::Asks(Asking::AnswersAll(PAYMENT, PAID, &[], Want::Told(&[])))];

const SINGLY: &[Act] = &[Act::Asks(Asking::Answers(PAYMENT, PAID))];

#[test]
fn a_list_is_answered_as_one_by_one(rt: HostRuntime) -> Result<(), Fail> {
    assert!(rt; are_so(rt.alloc(), AT_ONCE) && are_so(rt.alloc(), SINGLY));
    Ok(())
}

const STOPPED: &[Act] = &[Act::Asks(Asking::AnswersAll(
    &[Call::Register, Call::Start("f"), Call::Complete(1)],
    Want::Told(&[Told::Replied(Named::Text(1)), Told::Stopped(Stop::Unknown)]),
    &[Call::Complete(1)],
    Want::Told(&[Told::Stopped(Stop::Halted)]),
))];

// The commit of the second command fails. What was answered before it isn't lost, and nothing more is answered.
#[test]
fn a_stop_gives_back_the_answers_before_it(rt: HostRuntime) -> Result<(), Fail> {
    assert!(rt; are_so_failing(rt.alloc(), 30, 2000, STOPPED));
    Ok(())
}

// The last one is E80.
const GIVEN_UP: &[Act] = &[Act::Asks(Asking::Answers(
    &[Call::Register, Call::Start("f")],
    Want::Told(&[Told::Replied(Named::Text(1)), Told::NotApplied(80)]),
))];

// With one page in memory a read of the second command fails: it is given up.
#[test]
fn a_read_that_fails_gives_it_up(rt: HostRuntime) -> Result<(), Fail> {
    assert!(rt; are_so_failing(rt.alloc(), 34, 1, GIVEN_UP));
    Ok(())
}

const OPEN: &[Act] = &[
    Act::Lists(&[]),
    Act::Asks(Asking::Answers(
        &[
            Call::Register,
            Call::Start("f"),
            Call::Start("g"),
            Call::Start("h"),
            Call::Complete(1),
        ],
        Want::Kept,
    )),
    Act::Lists(&[2, 3]),
];

// The first of three runs has completed, the others wait.
#[test]
fn each_open_run_is_listed(rt: HostRuntime) -> Result<(), Fail> {
    assert!(rt; are_so(rt.alloc(), OPEN));
    Ok(())
}
