//! Two threads submit, and a third one answers: each gets its own commands back, and all tickets are counted.
ghost use Rattle.std.specs.Prelude.{◌≡◌, []};
ghost use Rattle.flow_hub.specs.Seating.{IsRoomOf};

use crate::refusing::{refuse_often, submit, told};
use flow_hub::hub::Hub;
use flow_hub::publisher::Publisher;
use flow_hub::seats::{Opened, Room};
use flow_hub::settled::Settled;
use flow_hub::submitter::Submitter;
use std::alloc::Global;
use std::marker::Brand;
use std::sync::Wait;
use std::test::*;
use std::thread::{Threads, join};

/// Submits a command that asks for this run, and waits: whether that command comes back, answered by E84.
fn comes_back<B: Room, R: Wait>(rt: &R, submitter: &mut Submitter<B>, run: u64) -> bool {
    match submit(rt, submitter, run) {
        Ok(ticket) => {
            let (code, back) = told(rt, submitter, ticket);
            code == 84 && back == run
        }
        Err(_told) => false,
    }
}

/// Asks for the runs from `first` to before `end` one after the other, and counts the commands that come back.
fn counted<B: Room, R: Wait>(rt: &R, submitter: &mut Submitter<B>, first: u64, end: u64) -> u64 {
    let mut count: u64 = 0;
    for run in first..end {
        if comes_back(rt, submitter, run) {
            count = count.saturating_add(1);
        }
    }
    count
}

/// Submits on two threads, counts the tickets, and closes the hub.
fn raced<B: Room + Send + Sync, R: Threads + Wait + Sync>(
    rt: &R,
    hub: &Hub<B>,
    mut a: Submitter<B>,
    mut b: Submitter<B>,
) -> (u64, u64, Option<Settled>) {
    let (one, two) = join(
        rt,
        move || {
            let count = counted(rt, &mut a, 1, 501);
            (a, count)
        },
        move || {
            let count = counted(rt, &mut b, 501, 1001);
            (b, count)
        },
    );
    let (mut a, first) = one;
    let (b, second) = two;
    a.gather(b);
    let settled = a.settle(rt);
    hub.close(rt);
    (first, second, settled)
}

/// The same over a publisher on a thread of its own.
fn served_over<B: Room + Send + Sync, R: Threads + Wait + Sync>(
    rt: &R,
    alloc: Global,
    publisher: Publisher<B>,
    hub: &Hub<B>,
) -> Option<(u64, u64, Option<Settled>)>
    requires { publisher.held ≡ [] }
{
    let mut publisher = publisher;
    let a = hub.submitter(rt).ok()?;
    let b = hub.submitter(rt).ok()?;
    let (counts, ended) = join(
        rt,
        move || raced(rt, hub, a, b),
        move ||
            requires { publisher.held ≡ [] }
        { refuse_often(rt, alloc, &mut publisher, u64::MAX) },
    );
    if ended { Some(counts) } else { None }
}

fn served<B: Room + Send + Sync, R: Threads + Wait + Sync>(
    rt: &R,
    alloc: Global,
    opened: Opened,
) -> Option<(u64, u64, Option<Settled>)>
    requires { IsRoomOf opened B.table B.name B.parts }
{
    let (publisher, hub) = Hub::<B>::new(alloc, opened).ok()?;
    served_over(rt, alloc, publisher, &hub)
}

#[test]
fn two_threads_get_their_own_answers(rt: HostRuntime) -> Result<(), Fail> {
    let alloc = rt.alloc();
    let settled = Settled {
        given: 1000,
        by_receipt: 0,
        by_code: 1000,
        taken: 0,
        waiting: 0,
    };
    let counts = served::<Brand, HostRuntime>(&rt, alloc, Opened::new(alloc)?);
    assert!(rt; counts == Some((500, 500, Some(settled))));
    Ok(())
}
