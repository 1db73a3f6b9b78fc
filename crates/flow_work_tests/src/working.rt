//! An engine serves a hub on one thread. On another one a task is fetched and reported and a timer fired, until nothing is left to be
//! done.
ghost use Rattle.std.specs.Prelude.{◌≡◌, []};
ghost use Rattle.flow_hub.specs.Seating.{IsRoomOf};

use crate::clock::Still;
use crate::serving::{Told, fetched, serve_over_memory, submitted};
use flow_base::command::{Command, Complete, Start};
use flow_base::number::{Moment, TextNo};
use flow_base::sequence::Sequence;
use flow_base::task::Task;
use flow_base::text::{Key, RawText};
use flow_base::value::Value;
use flow_hub::feed::Feed;
use flow_hub::hub::Hub;
use flow_hub::publisher::Publisher;
use flow_hub::seats::{Opened, Room};
use flow_hub::submitter::Submitter;
use std::alloc::Global;
use std::marker::Brand;
use std::sync::Wait;
use std::test::*;
use std::thread::{Threads, join};
use std::time::Clock as Timing;

const CALLS_AND_SLEEPS: &str =
    "workflow w() { activity a() -> int; let r = 0; r = call a(); sleep 300; return r; }";

/// What whoever works for a hub sees: the run, the event and the attempt of the task, the place of the tick and how many timers it
/// fired, and whether nothing was left to be done.
#[derive(Clone, Copy, PartialEq, Eq)]
struct Seen {
    task: (u64, u64, u64),
    fired: Told,
    rested: bool,
}

fn register(alloc: Global) -> Option<Command> {
    Some(Command::Register(RawText::new(alloc, CALLS_AND_SLEEPS).ok()?))
}

fn start(alloc: Global) -> Option<Command> {
    let text = TextNo::new(1)?;
    let at = Moment::new(1000)?;
    let request = Key::new(alloc, "q").ok()?;
    let flow = Key::new(alloc, "f").ok()?;
    Some(Command::Start(Start {
        request,
        flow,
        text,
        arguments: Sequence::new(alloc),
        at,
    }))
}

fn report(task: &Task) -> Option<Command> {
    let at = Moment::new(1200)?;
    Some(Command::Complete(Complete {
        run: task.run,
        event: task.event,
        attempt: task.attempt,
        value: Value::Int(41),
        at,
    }))
}

/// Submits a command and waits for its receipt.
fn answered<B: Room, R: Wait>(
    rt: &R,
    submitter: &mut Submitter<B>,
    command: Option<Command>,
) -> Option<Told> {
    let ticket = submitted(rt, submitter, command?)?;
    Some(fetched(rt, submitter, ticket))
}

/// Fetches the next task and reports it.
fn done_next<B: Room, R: Wait>(
    rt: &R,
    feed: &mut Feed<B>,
    submitter: &mut Submitter<B>,
) -> Option<(u64, u64, u64)> {
    let task = feed.next(rt)?;
    answered(rt, submitter, report(&task))?;
    Some((task.run.get(), task.event.get(), task.attempt))
}

/// Submits what there is to do, does it, and rests.
fn worked<B: Room, R: Wait + Timing>(
    rt: &R,
    alloc: Global,
    feed: &mut Feed<B>,
    submitter: &mut Submitter<B>,
    clock: &Still,
) -> Option<Seen> {
    answered(rt, submitter, register(alloc))?;
    answered(rt, submitter, start(alloc))?;
    let task = done_next(rt, feed, submitter)?;
    let tick = submitter.next_tick(rt, clock);
    let fired = answered(rt, submitter, tick)?;
    let rested = submitter.rest(rt);
    Some(Seen {
        task,
        fired,
        rested,
    })
}

/// The same over an engine on a thread of its own, by whose clock the task is ready and the timer isn't due.
fn served_over<B: Room + Send + Sync, R: Threads + Wait + Timing + Sync>(
    rt: &R,
    alloc: Global,
    publisher: Publisher<B>,
    hub: &Hub<B>,
) -> Option<Seen>
    requires { (publisher.history ≡ []) × (publisher.last ≡ []) × (publisher.held ≡ []) }
{
    let mut publisher = publisher;
    let early = Still::at(1000)?;
    let late = Still::at(1500)?;
    let mut feed = hub.feed(rt).ok()??;
    let mut submitter = hub.submitter(rt).ok()?;
    let (seen, ended) = join(
        rt,
        move || {
            let seen = worked(rt, alloc, &mut feed, &mut submitter, &late);
            hub.close(rt);
            seen
        },
        move ||
            requires { (publisher.history ≡ []) × (publisher.last ≡ []) × (publisher.held ≡ []) }
        { serve_over_memory(rt, alloc, &mut publisher, early) },
    );
    if ended? { seen } else { None }
}

fn served<B: Room + Send + Sync, R: Threads + Wait + Timing + Sync>(
    rt: &R,
    alloc: Global,
    opened: Opened,
) -> Option<Seen>
    requires { IsRoomOf opened B.table B.name B.parts }
{
    let (publisher, hub) = Hub::<B>::new(alloc, opened).ok()?;
    served_over(rt, alloc, publisher, &hub)
}

// The tick by the clock at 1500 fires the timer that is due from 1500 on, by the fourth command of the history.
#[test]
fn what_is_to_be_done_is_given_out(rt: HostRuntime) -> Result<(), Fail> {
    let alloc = rt.alloc();
    let seen = served::<Brand, HostRuntime>(&rt, alloc, Opened::new(alloc)?);
    let wanted = Seen {
        task: (1, 2, 1),
        fired: Told { place: 4, named: 1 },
        rested: true,
    };
    assert!(rt; seen == Some(wanted));
    Ok(())
}
