//! What the threads owe that fire timers, hand out tasks, make attempts and read: what each has done, once it has ended. Who has such a
//! thread's handle has started it, since nothing else makes one.
ghost use Rattle.std.specs.Prelude.{◌≡◌};

use crate::input::Taking;
use crate::reports::Reporter;
use crate::tasks::Tasks;
use crate::unknown::Stranger;
use flow_hub::seats::Room;
use flow_pool::activity::Activity;
use flow_pool::ends::TaskReceiver;
use flow_timers::Clock;
use std::io::{BufRead, Write};
use std::snapshot::Snapshot;
use std::thread::{Promise, PromisedHandle};

/// What is left of a thread that answers lines and closes the hub at its end, and what it saw then: nothing but closing the hub gives
/// what that is taken of.
#[derive(Drop)]
pub(crate) struct Closing<T, S, G> {
    pub(crate) left: T,
    pub(crate) seen: Snapshot<S>,
    /// What gave it the lines, as it was at its end, for contracts alone.
    pub(crate) inputs: Snapshot<G>,
}

/// What a thread had at its end that takes from one thing and gives to another, for contracts alone.
#[derive(Drop)]
pub(crate) struct LastSeen<A, Z> {
    pub(crate) source: Snapshot<A>,
    pub(crate) target: Snapshot<Z>,
}

/// What these are now.
pub(crate) fn last_seen<A, Z>(source: &A, target: &Z) -> LastSeen<A, Z>
    ensures source { result.source.value ≡ source.now }
    ensures target { result.target.value ≡ target.now }
{
    LastSeen {
        source: Snapshot::of(source),
        target: Snapshot::of(target),
    }
}

/// What a worker had: where its tasks came from, and whom it reported to.
pub(crate) type Worked<B> = LastSeen<TaskReceiver, Reporter<B>>;

/// What a worker began with. At its end it has made an attempt of each task that it took, and has reported it.
#[derive(Drop)]
pub(crate) struct OwedWork<B: Room, A, C, P: Write> {
    pub(crate) activities: Snapshot<Vec<A>>,
    pub(crate) receiver: Snapshot<TaskReceiver>,
    pub(crate) reports: Snapshot<Reporter<B>>,
    pub(crate) unknown: Snapshot<Stranger<P>>,
    pub(crate) clock: Snapshot<C>,
}

impl<B: Room, A: Activity, C: Clock, P: Write> Promise<Worked<B>> for OwedWork<B, A, C, P> {
    ghost use Rattle.std.specs.Prelude.{is_some};
    ghost use Rattle.flow_pool.specs.Ends.{known_by, taken_by};
    ghost use Rattle.flow_pool.specs.Reports.{MayCome, is_left};
    ghost use Rattle.flow_work.specs.Working.{HasWorked};

    ghost kept_by = { λ p r. HasWorked (C.tells p.clock.value) (MayCome A.named A.gives p.activities.value.items) (is_left (is_some p.unknown.value.names) A.named p.activities.value.items) (taken_by p.receiver.value) (known_by r.source.value) p.reports.value.told r.target.value.told };
}

/// A thread that makes attempts.
pub(crate) type Working<B, A, C, P> = PromisedHandle<Worked<B>, OwedWork<B, A, C, P>>;

/// What the thread began with that hands out tasks. At its end it has handed out what it was given.
#[derive(Drop)]
pub(crate) struct OwedTasks<B: Room> {
    pub(crate) tasks: Snapshot<Tasks<B>>,
}

impl<B: Room> Promise<Tasks<B>> for OwedTasks<B> {
    ghost use Rattle.flow_work.specs.Working.{HasHanded};

    ghost kept_by = { λ p r. HasHanded p.tasks.value.feed r.feed };
}

/// A thread that hands out tasks.
pub(crate) type Dispatching<B> = PromisedHandle<Tasks<B>, OwedTasks<B>>;

/// What the thread began with that fires what is due. At its end it has fired ticks, and no more are to be.
#[derive(Drop)]
pub(crate) struct OwedTicks<B: Room, C> {
    pub(crate) reports: Snapshot<Reporter<B>>,
    pub(crate) clock: Snapshot<C>,
}

impl<B: Room, C: Clock> Promise<Snapshot<Reporter<B>>> for OwedTicks<B, C> {
    ghost use Rattle.flow_work.specs.Working.{HasFired};

    ghost kept_by = { λ p r. HasFired (C.tells p.clock.value) r.value.submitter.was p.reports.value.told r.value.told };
}

/// A thread that fires what is due.
pub(crate) type Timing<B, C> = PromisedHandle<Snapshot<Reporter<B>>, OwedTicks<B, C>>;

/// What the thread began with that reads. At its end it has handed on what it read.
#[derive(Drop)]
pub(crate) struct OwedLines<I, T> {
    pub(crate) reader: Snapshot<I>,
    pub(crate) taking: Snapshot<T>,
}

impl<I: BufRead, T: Taking> Promise<LastSeen<I, T>> for OwedLines<I, T> {
    ghost use Rattle.flow_work.specs.Working.{HasHandedOn};

    ghost kept_by = { λ p r. HasHandedOn (T.gone r.target.value) (I.remaining p.reader.value) (I.remaining r.source.value) (T.taken p.taking.value) (T.taken r.target.value) };
}

/// A thread that reads.
pub(crate) type ReadingLines<I, T> = PromisedHandle<LastSeen<I, T>, OwedLines<I, T>>;
