//! The threads that a running engine starts. Each owns all that it has.
ghost use Rattle.std.specs.Prelude.{◌≡◌, [], IfErr, IfOk, is_some};
ghost use Rattle.flow_pool.specs.Ends.{known_by, taken_by};
ghost use Rattle.flow_pool.specs.Reports.{MayCome, is_left};
ghost use Rattle.flow_work.specs.Promised.{OwesReplies};
ghost use Rattle.flow_work.specs.Working.{HasFired, HasHanded, HasHandedOn, HasWorked};

use crate::clerk::{Answered, run_clerk};
use crate::desk::Desk;
use crate::giving::Giving;
use crate::handing::{Handing, Ringing};
use crate::input::{InputMessage, Taking, read_lines};
use crate::owing::{
    Closing, Dispatching, LastSeen, OwedLines, OwedTasks, OwedTicks, OwedWork, ReadingLines,
    Timing, Worked, Working, last_seen,
};
use crate::progress::Progress;
use crate::reports::Reporter;
use crate::starting::{start_closing, start_seen};
use crate::tasks::Tasks;
use crate::timer::fire_timers;
use crate::unknown::Stranger;
use crossbeam_channel::Sender;
use crossbeam_utils::sync::WaitGroup;
use flow_base::fault::Fault;
use flow_hub::hub::{Hub, SeenClosed};
use flow_hub::seats::Room;
use flow_pool::activity::Activity;
use flow_pool::dispatcher::dispatcher;
use flow_pool::ends::{TaskReceiver, TaskSender};
use flow_pool::worker::worker;
use flow_timers::Clock;
use std::alloc::{AllocError, Global};
use std::io::{BufRead, Write};
use std::snapshot::Snapshot;
use std::sync::{Arc, Wait};
use std::thread::{Promise, PromisedHandle, Threads};
use std::{thread, time};

/// Makes attempts until no task comes any more, or nothing is answered.
fn run_worker<B: Room, R: Wait + time::Clock, A: Activity + Drop, C: Clock, P: Write + Drop>(
    rt: &R,
    alloc: Global,
    activities: Vec<A>,
    receiver: TaskReceiver,
    reports: Reporter<B>,
    unknown: Stranger<P>,
    clock: &C,
    group: WaitGroup,
) -> Worked<B>
    ensures { HasWorked (C.tells clock.now) (MayCome A.named A.gives activities.items)
        (is_left (is_some unknown.names) A.named activities.items) (taken_by receiver) (known_by result.source.value) reports.told
        result.target.value.told }
{
    let (end, told) = worker(rt, alloc, activities, receiver, reports, unknown, clock);
    let worked = last_seen(&end, &told);
    drop(end);
    drop(told);
    drop(group);
    worked
}

/// Hands tasks to the workers until none is posted any more. The workers end when its end of the channel is gone. Where the tasks came
/// from comes back.
fn run_dispatcher<B: Room, R: Wait>(
    rt: &R,
    tasks: Tasks<B>,
    sender: TaskSender,
    group: WaitGroup,
) -> Tasks<B>
    ensures { HasHanded tasks.feed result.feed }
{
    let (end, posted) = dispatcher(rt, tasks, sender);
    drop(end);
    drop(group);
    posted
}

/// Fires what is due until nothing is answered any more.
fn run_timer<B: Room, R: Wait + time::Clock, C: Clock>(
    rt: &R,
    reports: Reporter<B>,
    clock: &C,
    group: WaitGroup,
) -> Snapshot<Reporter<B>>
    ensures { HasFired (C.tells clock.now) result.value.submitter.was reports.told result.value.told }
{
    let told = fire_timers(rt, reports, clock);
    let fired = Snapshot::of(&told);
    drop(told);
    drop(group);
    fired
}

/// Reads until the input has ended, or nobody takes it any more.
fn run_reader<R: Wait, I: BufRead + Drop, T: Taking>(
    rt: &R,
    alloc: Global,
    reader: I,
    taking: T,
) -> LastSeen<I, T>
    ensures { HasHandedOn (T.gone result.target.value) (I.remaining reader) (I.remaining result.source.value) (T.taken taking)
        (T.taken result.target.value) }
{
    let (reader_left, taking_left) = read_lines(rt, alloc, reader, taking);
    let read = last_seen(&reader_left, &taking_left);
    drop(reader_left);
    drop(taking_left);
    read
}

/// All that the thread has that answers lines.
#[derive(Drop)]
pub(crate) struct Answerer<B: Room, W: Write, P: Write, G> {
    pub(crate) desk: Desk<B, W>,
    pub(crate) inputs: G,
    pub(crate) hub: Arc<Hub<B>, Global>,
    pub(crate) progress: Option<Progress<P>>,
}

/// What the thread began with that answers lines. Behind its end it has printed a reply for each line that it took in, in their order; no
/// line comes any more, or nothing is answered; and no run is open.
#[derive(Drop)]
pub(crate) struct OwedReplies<B: Room, W: Write, C, G> {
    pub(crate) desk: Snapshot<Desk<B, W>>,
    pub(crate) clock: Snapshot<C>,
    pub(crate) inputs: Snapshot<G>,
}

impl<B: Room, W: Write, C: Clock, G: Giving> Promise<Closing<Answered<B, W>, SeenClosed<B>, G>>
    for OwedReplies<B, W, C, G> {
    ghost use Rattle.flow_work.specs.Promised.{OwesReplies};

    ghost kept_by = { λ p r. OwesReplies (C.tells p.clock.value) p.desk.value.page p.desk.value.pending.lines.items (G.given p.inputs.value) (G.given r.inputs.value) r.left.submitter r.left.lines r.left.page };
}

/// A thread that answers lines.
pub(crate) type Answering<B, W, C, G> = PromisedHandle<
    Closing<Answered<B, W>, SeenClosed<B>, G>,
    OwedReplies<B, W, C, G>,
>;

/// Answers lines until the input has ended and no run is open, and then closes the hub.
fn run_desk<
    B: Room,
    W: Write + Drop,
    R: Wait + time::Clock,
    C: Clock,
    P: Write + Drop,
    G: Giving + Drop,
>(rt: &R, answerer: Answerer<B, W, P, G>, clock: &C) -> Closing<Answered<B, W>, SeenClosed<B>, G>
    ensures { OwesReplies (C.tells clock.now) answerer.desk.page answerer.desk.pending.lines.items (G.given answerer.inputs)
        (G.given result.inputs.value) result.left.submitter result.left.lines result.left.page }
{
    let Answerer {
        desk,
        inputs,
        hub,
        progress,
    } = answerer;
    let mut inputs = inputs;
    let answered = run_clerk(rt, desk, clock, &mut inputs, progress);
    let given = Snapshot::of(&inputs);
    drop(inputs);
    let closed = hub.close(rt);
    let seen = Snapshot::of(&closed);
    drop(closed);
    Closing {
        left: answered,
        seen,
        inputs: given,
    }
}

/// Starts a thread that runs a worker. E01 where there is none.
pub(crate) fn start_worker<B, R, A, C, P>(
    rt: &R,
    alloc: Global,
    activities: Vec<A>,
    receiver: TaskReceiver,
    reports: Reporter<B>,
    unknown: Stranger<P>,
    clock: C,
    group: WaitGroup,
) -> Result<Working<B, A, C, P>, Fault>
where
    B: Room + Send + Sync + 'static,
    R: Threads + Wait + time::Clock + Copy + Send + Drop + 'static,
    A: Activity + Drop + Send + 'static,
    C: Clock + Copy + Send + Drop + 'static,
    P: Write + Drop + Send + 'static,
    ensures owed { IfOk result (λ h. (h.promise.activities.value ≡ activities) × (h.promise.receiver.value ≡ receiver)
        × (h.promise.clock.value ≡ clock)) }
    ensures refused { IfErr result (λ f. f ≡ Fault.NoMemory _) }
{
    let its = *rt;
    let owed = OwedWork {
        activities: Snapshot::of(&activities),
        receiver: Snapshot::of(&receiver),
        reports: Snapshot::of(&reports),
        unknown: Snapshot::of(&unknown),
        clock: Snapshot::of(&clock),
    };
    match start_seen(
        rt,
        owed,
        move || run_worker(
            &its, alloc, activities, receiver, reports, unknown, &clock, group,
        ),
    ) {
        Ok(thread) => Ok(thread),
        Err(fault) => Err(fault),
    }
}

/// Starts the thread that hands tasks to workers. E01 where there is none.
pub(crate) fn start_dispatcher<B, R>(
    rt: &R,
    tasks: Tasks<B>,
    sender: TaskSender,
    group: WaitGroup,
) -> Result<Dispatching<B>, Fault>
where
    B: Room + Send + Sync + 'static,
    R: Threads + Wait + Copy + Send + Drop + 'static,
    ensures owed { IfOk result (λ h. h.promise.tasks.value ≡ tasks) }
    ensures refused { IfErr result (λ f. f ≡ Fault.NoMemory _) }
{
    let its = *rt;
    let owed = OwedTasks {
        tasks: Snapshot::of(&tasks),
    };
    match thread::spawn_with(rt, owed, move || run_dispatcher(&its, tasks, sender, group)) {
        Ok(thread) => Ok(thread),
        Err(refused) => Err(Fault::from(AllocError::from(refused))),
    }
}

/// Starts the thread that fires what is due. E01 where there is none.
pub(crate) fn start_timer<B, R, C>(
    rt: &R,
    reports: Reporter<B>,
    clock: C,
    group: WaitGroup,
) -> Result<Timing<B, C>, Fault>
where
    B: Room + Send + Sync + 'static,
    R: Threads + Wait + time::Clock + Copy + Send + Drop + 'static,
    C: Clock + Copy + Send + Drop + 'static,
    ensures owed { IfOk result (λ h. (h.promise.reports.value ≡ reports) × (h.promise.clock.value ≡ clock)) }
    ensures refused { IfErr result (λ f. f ≡ Fault.NoMemory _) }
{
    let its = *rt;
    let owed = OwedTicks {
        reports: Snapshot::of(&reports),
        clock: Snapshot::of(&clock),
    };
    match thread::spawn_with(rt, owed, move || run_timer(&its, reports, &clock, group)) {
        Ok(thread) => Ok(thread),
        Err(refused) => Err(Fault::from(AllocError::from(refused))),
    }
}

/// Starts the thread that reads. E01 where there is none. Nobody waits for it, since no call ends a read that has begun.
fn start_reading<R, I, T>(
    rt: &R,
    alloc: Global,
    reader: I,
    taking: T,
) -> Result<ReadingLines<I, T>, Fault>
where
    R: Threads + Wait + Copy + Send + Drop + 'static,
    I: BufRead + Drop + Send + 'static,
    T: Taking + Send + 'static,
    ensures owed { IfOk result (λ h. (h.promise.reader.value ≡ reader) × (h.promise.taking.value ≡ taking)) }
    ensures refused { IfErr result (λ f. f ≡ Fault.NoMemory _) }
{
    let its = *rt;
    let owed = OwedLines {
        reader: Snapshot::of(&reader),
        taking: Snapshot::of(&taking),
    };
    match thread::spawn_with(rt, owed, move || run_reader(&its, alloc, reader, taking)) {
        Ok(thread) => Ok(thread),
        Err(refused) => Err(Fault::from(AllocError::from(refused))),
    }
}

/// Starts the thread that reads and hands on.
pub(crate) fn start_reader<R, I>(
    rt: &R,
    alloc: Global,
    reader: I,
    lines: Sender<InputMessage>,
) -> Result<ReadingLines<I, Handing>, Fault>
where
    R: Threads + Wait + Copy + Send + Drop + 'static,
    I: BufRead + Drop + Send + 'static,
    ensures owed { IfOk result (λ h. (h.promise.reader.value ≡ reader) × (h.promise.taking.value.taken ≡ [])) }
    ensures refused { IfErr result (λ f. f ≡ Fault.NoMemory _) }
{
    match start_reading(rt, alloc, reader, Handing::new(lines)) {
        Ok(thread) => Ok(thread),
        Err(fault) => Err(fault),
    }
}

/// Starts the thread that reads, hands on and rings.
pub(crate) fn start_ringing<B, R, I>(
    rt: &R,
    alloc: Global,
    reader: I,
    lines: Sender<InputMessage>,
    hub: Arc<Hub<B>, Global>,
) -> Result<ReadingLines<I, Ringing<B>>, Fault>
where
    B: Room + Send + Sync + 'static,
    R: Threads + Wait + Copy + Send + Drop + 'static,
    I: BufRead + Drop + Send + 'static,
    ensures owed { IfOk result (λ h. (h.promise.reader.value ≡ reader) × (h.promise.taking.value.handing.taken ≡ [])) }
    ensures refused { IfErr result (λ f. f ≡ Fault.NoMemory _) }
{
    match start_reading(rt, alloc, reader, Ringing::new(lines, hub)) {
        Ok(thread) => Ok(thread),
        Err(fault) => Err(fault),
    }
}

/// Starts the thread that answers lines. E01 where there is none.
pub(crate) fn start_desk<B, R, W, C, P, G>(
    rt: &R,
    answerer: Answerer<B, W, P, G>,
    clock: C,
) -> Result<Answering<B, W, C, G>, Fault>
where
    B: Room + Send + Sync + 'static,
    R: Threads + Wait + time::Clock + Copy + Send + Drop + 'static,
    W: Write + Drop + Send + 'static,
    C: Clock + Copy + Send + Drop + 'static,
    P: Write + Drop + Send + 'static,
    G: Giving + Drop + Send + 'static,
    ensures owed { IfOk result (λ h. (h.promise.desk.value ≡ answerer.desk) × (h.promise.clock.value ≡ clock)
        × (h.promise.inputs.value ≡ answerer.inputs)) }
    ensures refused { IfErr result (λ f. f ≡ Fault.NoMemory _) }
{
    let its = *rt;
    let owed = OwedReplies {
        desk: Snapshot::of(&answerer.desk),
        clock: Snapshot::of(&clock),
        inputs: Snapshot::of(&answerer.inputs),
    };
    match start_closing(rt, owed, move || run_desk(&its, answerer, &clock)) {
        Ok(thread) => Ok(thread),
        Err(fault) => Err(fault),
    }
}
