//! A full hub, a closed one, and tickets of others.
ghost use Rattle.std.specs.Prelude.{◌≡◌, []};
ghost use Rattle.flow_hub.specs.Seating.{IsRoomOf};

use crate::refusing::{denied, refuse_next, refuse_often, submit, told, told_instead};
use flow_base::code::Code;
use flow_hub::hub::Hub;
use flow_hub::publisher::Publisher;
use flow_hub::seats::{Opened, Room};
use flow_hub::submitter::Submitter;
use flow_hub::ticket::{NotDone, Ticket};
use std::alloc::Global;
use std::marker::Brand;
use std::sync::Wait;
use std::test::*;

/// Submits so many commands, and keeps the first ticket.
fn fill<B: Room, R: Wait>(rt: &R, submitter: &mut Submitter<B>, count: u64) -> Option<Ticket<B>> {
    let first = submit(rt, submitter, 1).ok()?;
    for n in 1..count {
        if denied(rt, submitter, n) != (0, 0) {
            return None;
        }
    }
    Some(first)
}

/// What is told where 1,024 commands are submitted and none is taken, where all are answered and none is fetched, of the first
/// one's ticket, and then. Once all are answered and given up, as many are taken in again.
fn overfilled<B: Room, R: Wait>(
    rt: &R,
    alloc: Global,
    publisher: &mut Publisher<B>,
    submitter: &mut Submitter<B>,
) -> Option<[(u8, u64); 4]>
    requires { publisher.old.held ≡ [] }
{
    let first = fill(rt, submitter, 1024)?;
    let untaken = denied(rt, submitter, 2000);
    if !refuse_often(rt, alloc, publisher, 16) {
        return None;
    }
    let unfetched = denied(rt, submitter, 2001);
    let fetched = told(rt, submitter, first);
    let taken_in = denied(rt, submitter, 2002);
    refuse_next(rt, alloc, publisher, 64, Code::Unknown)?;
    submitter.give_up(rt);
    fill(rt, submitter, 1024)?;
    Some([untaken, unfetched, fetched, taken_in])
}

fn full<B: Room, R: Wait>(rt: &R, alloc: Global, opened: Opened) -> Option<[(u8, u64); 4]>
    requires { IsRoomOf opened B.table B.name B.parts }
{
    let (mut publisher, hub) = Hub::<B>::new(alloc, opened).ok()?;
    let mut submitter = hub.submitter(rt).ok()?;
    overfilled(rt, alloc, &mut publisher, &mut submitter)
}

#[test]
fn a_full_hub_takes_nothing_in(rt: HostRuntime) -> Result<(), Fail> {
    let alloc = rt.alloc();
    let all = full::<Brand, HostRuntime>(&rt, alloc, Opened::new(alloc)?);
    assert!(rt; all == Some([(90, 2000), (90, 2001), (84, 1), (0, 0)]));
    Ok(())
}

/// What is told of an answered ticket with another submitter, and then with its own.
fn lent_ticket<B: Room, R: Wait>(
    rt: &R,
    alloc: Global,
    publisher: &mut Publisher<B>,
    owner: &mut Submitter<B>,
    other: &mut Submitter<B>,
) -> Option<[(u8, u64); 2]>
    requires { publisher.old.held ≡ [] }
{
    let ticket = submit(rt, owner, 7).ok()?;
    refuse_next(rt, alloc, publisher, 64, Code::Unknown)?;
    match other.wait(rt, ticket) {
        Ok(_receipt) => None,
        Err(instead) => {
            let first = told_instead(&instead);
            let NotDone { ticket, .. } = instead;
            Some([first, told(rt, owner, ticket)])
        }
    }
}

/// The same of two submitters of this hub.
fn lent_between<B: Room, R: Wait>(
    rt: &R,
    alloc: Global,
    publisher: &mut Publisher<B>,
    hub: &Hub<B>,
) -> Option<[(u8, u64); 2]>
    requires { publisher.old.held ≡ [] }
{
    let mut owner = hub.submitter(rt).ok()?;
    let mut other = hub.submitter(rt).ok()?;
    lent_ticket(rt, alloc, publisher, &mut owner, &mut other)
}

fn lent<B: Room, R: Wait>(rt: &R, alloc: Global, opened: Opened) -> Option<[(u8, u64); 2]>
    requires { IsRoomOf opened B.table B.name B.parts }
{
    let (mut publisher, hub) = Hub::<B>::new(alloc, opened).ok()?;
    lent_between(rt, alloc, &mut publisher, &hub)
}

#[test]
fn a_ticket_is_its_submitters_own(rt: HostRuntime) -> Result<(), Fail> {
    let alloc = rt.alloc();
    let both = lent::<Brand, HostRuntime>(&rt, alloc, Opened::new(alloc)?);
    assert!(rt; both == Some([(92, 0), (84, 7)]));
    Ok(())
}

/// One command is taken and answered E84, the hub closed, and what waits answered E85. Whether more can come.
fn refuse_and_close<B: Room, R: Wait>(
    rt: &R,
    alloc: Global,
    publisher: &mut Publisher<B>,
) -> Option<bool>
    requires { publisher.old.held ≡ [] }
{
    refuse_next(rt, alloc, publisher, 1, Code::Unknown)?;
    publisher.close(rt);
    refuse_next(rt, alloc, publisher, 64, Code::Halted)?;
    refuse_next(rt, alloc, publisher, 64, Code::Halted)
}

/// What is told of two commands before the closing and of one after it, where nothing more can come.
fn closed_on<B: Room, R: Wait>(
    rt: &R,
    alloc: Global,
    publisher: &mut Publisher<B>,
    submitter: &mut Submitter<B>,
) -> Option<[(u8, u64); 3]>
    requires { publisher.old.held ≡ [] }
{
    let first = submit(rt, submitter, 1).ok()?;
    let second = submit(rt, submitter, 2).ok()?;
    if refuse_and_close(rt, alloc, publisher)? {
        return None;
    }
    let first = told(rt, submitter, first);
    let second = told(rt, submitter, second);
    Some([first, second, denied(rt, submitter, 3)])
}

fn halted<B: Room, R: Wait>(rt: &R, alloc: Global, opened: Opened) -> Option<[(u8, u64); 3]>
    requires { IsRoomOf opened B.table B.name B.parts }
{
    let (mut publisher, hub) = Hub::<B>::new(alloc, opened).ok()?;
    let mut submitter = hub.submitter(rt).ok()?;
    closed_on(rt, alloc, &mut publisher, &mut submitter)
}

#[test]
fn what_waits_is_answered_after_closing(rt: HostRuntime) -> Result<(), Fail> {
    let alloc = rt.alloc();
    let all = halted::<Brand, HostRuntime>(&rt, alloc, Opened::new(alloc)?);
    assert!(rt; all == Some([(84, 1), (85, 2), (91, 3)]));
    Ok(())
}
