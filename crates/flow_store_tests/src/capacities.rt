//! Replies of engines that keep where one run stands, where a few stand, and where all do.
use crate::acts::{Act, are_written};
use crate::engines::Asking;
use crate::worked_rows::ROWS;
use std::alloc::Global;
use std::test::Fail;

// Two runs in turn, so that one of them always pushes the other's position out where one is kept.
const IN_TURN: &[u8] =
    b"{\"do\":\"register\",\"src\":\"workflow a(n: int) { activity c(int) -> int; let r = 0; r = call c(n); r = call c(r); return r; }\"}
{\"args\":[7],\"at\":1000,\"do\":\"start\",\"flow\":\"f\",\"req\":\"q1\",\"text\":1}
{\"args\":[8],\"at\":1000,\"do\":\"start\",\"flow\":\"g\",\"req\":\"q2\",\"text\":1}
{\"at\":1500,\"attempt\":1,\"do\":\"complete\",\"event\":2,\"run\":1,\"value\":1}
{\"at\":1500,\"attempt\":1,\"do\":\"complete\",\"event\":2,\"run\":2,\"value\":2}
{\"at\":2500,\"attempt\":1,\"do\":\"complete\",\"event\":4,\"run\":1,\"value\":3}
{\"at\":2500,\"attempt\":1,\"do\":\"complete\",\"event\":4,\"run\":2,\"value\":4}
{\"do\":\"history\",\"run\":1}
{\"do\":\"describe\",\"run\":2}
";

// What is said of run 2 behind its end.
const ENDED: &[u8] =
    b"{\"activities\":[],\"events\":6,\"flow\":\"g\",\"reply\":\"run\",\"state\":\"completed\",\"text\":1,\"timers\":[]}
";

// Run 2 has 33 events; no other statement of these lines visits so many rows.
const STEPS: u64 = 30;

// In batches of two: the third is rolled back, since the events of its second command are more than a statement may visit here.
// What its report led to is forgotten with it, so the next report is the third event, and its value is what the activity is called
// with again.
const ROLLED_BACK: &[u8] =
    b"{\"do\":\"register\",\"src\":\"workflow w() { activity c(int) -> int; let v = 0; v = call c(v); v = call c(v); return v; }\"}
{\"do\":\"register\",\"src\":\"workflow p() { parallel { { parallel { { sleep 5; } { sleep 5; } { sleep 5; } { sleep 5; } { sleep 5; } { sleep 5; } { sleep 5; } { sleep 5; } } } { parallel { { sleep 5; } { sleep 5; } { sleep 5; } { sleep 5; } { sleep 5; } { sleep 5; } { sleep 5; } { sleep 5; } } } { parallel { { sleep 5; } { sleep 5; } { sleep 5; } { sleep 5; } { sleep 5; } { sleep 5; } { sleep 5; } { sleep 5; } } } { parallel { { sleep 5; } { sleep 5; } { sleep 5; } { sleep 5; } { sleep 5; } { sleep 5; } { sleep 5; } { sleep 5; } } } } }\"}
{\"args\":[],\"at\":0,\"do\":\"start\",\"flow\":\"f\",\"req\":\"q1\",\"text\":1}
{\"args\":[],\"at\":0,\"do\":\"start\",\"flow\":\"g\",\"req\":\"q2\",\"text\":2}
{\"at\":1,\"attempt\":1,\"do\":\"complete\",\"event\":2,\"run\":1,\"value\":5}
{\"do\":\"history\",\"run\":2}
{\"at\":2,\"attempt\":1,\"do\":\"complete\",\"event\":2,\"run\":1,\"value\":6}
{\"do\":\"history\",\"run\":1}
";

const NOT_APPLIED: &[u8] = b"{\"reply\":\"registered\",\"text\":1}
{\"reply\":\"registered\",\"text\":2}
{\"reply\":\"started\",\"run\":1}
{\"reply\":\"started\",\"run\":2}
{\"code\":\"E80\",\"reply\":\"not applied\"}
{\"code\":\"E80\",\"reply\":\"not applied\"}
{\"event\":3,\"reply\":\"recorded\",\"run\":1}
{\"events\":[[1,\"WorkflowExecutionStarted\",{\"args\":[],\"at\":0}],[2,\"ActivityTaskScheduled\",{\"activity\":\"c\",\"args\":[0],\"at\":0,\"every\":0,\"gives\":\"int\",\"tries\":1}],[3,\"ActivityTaskCompleted\",{\"at\":2,\"of\":2,\"value\":6}],[4,\"ActivityTaskScheduled\",{\"activity\":\"c\",\"args\":[6],\"at\":2,\"every\":0,\"gives\":\"int\",\"tries\":1}]],\"reply\":\"history\"}
";

/// How lines are driven: so many commands in a batch, so many positions kept, so many rows that a statement may visit.
#[derive(Clone, Copy)]
struct How {
    size: u64,
    capacity: usize,
    steps: Option<u64>,
}

// Command by command, with no limit.
const WITH_ONE: How = How {
    size: 1,
    capacity: 1,
    steps: None,
};

const WITH_ALL: How = How {
    size: 1,
    capacity: 4096,
    steps: None,
};

// In batches of two.
const LIMITED_WITH_ONE: How = How {
    size: 2,
    capacity: 1,
    steps: Some(STEPS),
};

const LIMITED_WITH_ALL: How = How {
    size: 2,
    capacity: 4096,
    steps: Some(STEPS),
};

/// Whether lines that are driven so over a new store end with this status. What they are answered is written.
fn ends(alloc: Global, lines: &'static [u8], how: How, status: u8, out: &mut Vec<u8>) -> bool {
    let acts = [
        Act::Limits(how.steps),
        Act::AsksWith(how.capacity, Asking::Lines(how.size, lines, status)),
    ];
    are_written(alloc, &acts, out)
}

/// Whether lines end with this status, and are answered the same, by one position and by all of them, and that ends so.
fn are_same(
    alloc: Global,
    lines: &'static [u8],
    one: How,
    all: How,
    status: u8,
    end: &[u8],
) -> bool {
    let mut some = Vec::new(alloc);
    let mut most = Vec::new(alloc);
    let are = ends(alloc, lines, one, status, &mut some)
        && ends(alloc, lines, all, status, &mut most);
    are && some.as_slice() == most.as_slice() && some.as_slice().ends_with(end)
}

/// The place of the first of these lists of lines that isn't answered to its end, or not the same by one position and by all.
fn first_other(alloc: Global, rows: &[&'static [u8]]) -> Option<usize> {
    for at in 0..rows.len() {
        if !are_same(alloc, rows[at], WITH_ONE, WITH_ALL, 0, b"}\n") {
            return Some(at);
        }
    }
    None
}

#[test]
fn one_position_and_all_positions_give_the_same_replies(rt: HostRuntime) -> Result<(), Fail> {
    assert!(rt; are_same(rt.alloc(), IN_TURN, WITH_ONE, WITH_ALL, 0, ENDED));
    Ok(())
}

#[test]
fn worked_rows_are_the_same_with_one_position_and_with_all(rt: HostRuntime) -> Result<(), Fail> {
    assert!(rt; first_other(rt.alloc(), ROWS) == None);
    Ok(())
}

fn is_left(alloc: Global) -> bool {
    are_same(
        alloc,
        ROLLED_BACK,
        LIMITED_WITH_ONE,
        LIMITED_WITH_ALL,
        3,
        NOT_APPLIED,
    )
}

#[test]
fn a_batch_that_is_rolled_back_leaves_no_position(rt: HostRuntime) -> Result<(), Fail> {
    assert!(rt; is_left(rt.alloc()));
    Ok(())
}
