//! A hub has one feed, which ends its wait at a ring and behind a board; and of a closed hub there is no task, no tick, and nothing to
//! rest for.
ghost use Rattle.flow_hub.specs.Seating.{IsRoomOf};

use crate::clock::Still;
use flow_base::fault::Fault;
use flow_hub::fed::Fed;
use flow_hub::feed::Feed;
use flow_hub::hub::Hub;
use flow_hub::publisher::Publisher;
use flow_hub::seats::{Opened, Room};
use flow_hub::submitter::Submitter;
use std::alloc::Global;
use std::marker::Brand;
use std::sync::Wait;
use std::test::*;
use std::time::Clock as Timing;

fn is_nothing(fed: &Fed) -> bool {
    matches!(fed, Fed::Nothing)
}

fn is_closed(fed: &Fed) -> bool {
    matches!(fed, Fed::Closed)
}

/// Whether there is nothing at a ring, and nothing behind a board that was skipped.
fn heard<B: Room, R: Wait>(
    rt: &R,
    hub: &Hub<B>,
    publisher: &mut Publisher<B>,
    feed: &mut Feed<B>,
) -> [bool; 2] {
    hub.ring(rt);
    let rung = is_nothing(&feed.listen(rt));
    publisher.skip(rt, &Fault::StoreRefused);
    [rung, is_nothing(&feed.last(rt))]
}

/// Whether the feed says that the hub is closed.
fn says_closed<B: Room, R: Wait>(rt: &R, feed: &mut Feed<B>) -> [bool; 2] {
    [is_closed(&feed.listen(rt)), is_closed(&feed.last(rt))]
}

/// Whether there is a task, a tick, and an end to rest for.
fn asked_all<B: Room, R: Wait + Timing>(
    rt: &R,
    feed: &mut Feed<B>,
    submitter: &mut Submitter<B>,
    clock: &Still,
) -> [bool; 3] {
    let task = feed.next(rt).is_some();
    let tick = submitter.next_tick(rt, clock).is_some();
    [task, tick, submitter.rest(rt)]
}

/// What was seen of a feed, and whether a hub has a second one.
#[derive(Drop)]
struct Seen {
    second: bool,
    heard: [bool; 2],
    closed: [bool; 2],
    all: [bool; 3],
}

/// Whether there is a second feed, what the feed hears of an open hub, and what a closed one has.
fn closed<B: Room, R: Wait + Timing>(rt: &R, alloc: Global, opened: Opened) -> Option<Seen>
    requires { IsRoomOf opened B.table B.name B.parts }
{
    let (mut publisher, hub) = Hub::<B>::new(alloc, opened).ok()?;
    let clock = Still::at(1000)?;
    let mut feed = hub.feed(rt).ok()??;
    let second = hub.feed(rt).ok()?.is_some();
    let mut submitter = hub.submitter(rt).ok()?;
    let heard = heard(rt, &hub, &mut publisher, &mut feed);
    hub.close(rt);
    let closed = says_closed(rt, &mut feed);
    let all = asked_all(rt, &mut feed, &mut submitter, &clock);
    publisher.meet(rt, submitter, feed);
    Some(Seen {
        second,
        heard,
        closed,
        all,
    })
}

#[test]
fn a_closed_hub_gives_nothing_out(rt: HostRuntime) -> Result<(), Fail> {
    let alloc = rt.alloc();
    let seen = closed::<Brand, HostRuntime>(&rt, alloc, Opened::new(alloc)?).ok_or("no hub")?;
    assert!(rt; !seen.second && seen.heard == [true, true] && seen.closed == [true, true]);
    assert!(rt; seen.all == [false, false, false]);
    Ok(())
}
