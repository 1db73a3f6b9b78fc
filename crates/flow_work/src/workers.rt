//! Who makes attempts of the tasks that are posted to a hub, and who hands the tasks to them.
ghost use Rattle.std.specs.Prelude.{◌≡◌, length, IfOk, IfErr};
ghost use Rattle.flow_hub.specs.Knowing.{nothing};

use crate::crew::{start_dispatcher, start_worker};
use crate::owing::{Dispatching, Working};
use crate::reports::Reporter;
use crate::skills::Skills;
use crate::tally::Tally;
use crate::tasks::Tasks;
use crate::unknown::Strangers;
use crossbeam_utils::sync::WaitGroup;
use flow_base::fault::Fault;
use flow_base::memory::NoMemory;
use flow_hub::denied::Unseated;
use flow_hub::feed::Feed;
use flow_hub::hub::Hub;
use flow_hub::seats::Room;
use flow_pool::activity::Activity;
use flow_pool::channel::opened;
use flow_pool::ends::{TaskReceiver, TaskSender};
use flow_timers::Clock;
use std::alloc::{AllocError, Global};
use std::io::Write;
use std::sync::Wait;
use std::thread::Threads;
use std::time;

/// How many tasks may wait for a worker.
const MOST_TASKS: usize = 64;

/// The channel of tasks with an end for each worker.
fn open_channel(
    alloc: Global,
    workers: usize,
) -> Result<(TaskSender, Vec<TaskReceiver>), AllocError>
    ensures { IfOk result (λ r. length r.1.items ≡ workers) }
{
    let (mut sender, door) = opened(alloc, MOST_TASKS)?;
    let mut receivers = Vec::with_capacity(alloc, workers)?;
    'ends: for made in 0..workers {
        receivers.push(sender.worker(&door)?)?;
    }
    Ok((sender, receivers))
}

/// Who gives tasks out, of a hub that was just made.
pub(crate) fn feed_of<B: Room, R: Wait>(rt: &R, hub: &Hub<B>) -> Result<Feed<B>, Fault>
    ensures none { IfOk result (λ f. f ≡ nothing) }
    ensures refused { IfErr result (λ f. f ≡ Fault.NoMemory _) }
{
    // Nobody has asked this hub for its feed before.
    match hub.feed(rt)? {
        Some(feed) => Ok(feed),
        None => Err(Fault::NoMemory(NoMemory::told())),
    }
}

/// Why nobody is seated at a hub. A hub that was just made has numbers left for its few submitters, so memory is what is wanting.
pub(crate) fn unseated_fault(unseated: Unseated) -> Fault
    ensures { result ≡ Fault.NoMemory _ }
{
    match unseated {
        Unseated::NoMemory(no_memory) => Fault::NoMemory(no_memory),
        Unseated::InboxFull(_) => Fault::NoMemory(NoMemory::told()),
    }
}

/// One who reports to a hub. E01 where there's no memory for it.
pub(crate) fn reporter<B: Room, R: Wait>(
    rt: &R,
    hub: &Hub<B>,
    tally: Option<Tally>,
) -> Result<Reporter<B>, Fault>
    ensures { IfErr result (λ f. f ≡ Fault.NoMemory _) }
{
    match hub.submitter(rt) {
        Ok(submitter) => Ok(Reporter::new(submitter, tally)),
        Err(unseated) => Err(unseated_fault(unseated)),
    }
}

/// Starts the thread of one worker, with activities of its own.
fn start_one<B, R, A, K, C, P>(
    rt: &R,
    alloc: Global,
    hub: &Hub<B>,
    receiver: TaskReceiver,
    skills: &K,
    clock: C,
    tally: &Tally,
    strangers: &Strangers<P>,
    group: &WaitGroup,
) -> Result<Working<B, A, C, P>, Fault>
where
    B: Room + Send + Sync + 'static,
    R: Threads + Wait + time::Clock + Copy + Send + Drop + 'static,
    A: Activity + Drop + Send + 'static,
    K: Skills<A>,
    C: Clock + Copy + Send + Drop + 'static,
    P: Write + Drop + Send + 'static,
    ensures owed { IfOk result (λ h. K.has skills.now h.promise.activities.value.items × (h.promise.receiver.value ≡ receiver)
        × (h.promise.clock.value ≡ clock)) }
    ensures refused { IfErr result (λ f. f ≡ Fault.NoMemory _) }
{
    let group = group.clone()?;
    let own = tally.share()?;
    let unknown = strangers.share(own)?;
    let tally = tally.share()?;
    let activities = skills.of_worker(alloc)?;
    let reports = reporter(rt, hub, Some(tally))?;
    match start_worker(
        rt, alloc, activities, receiver, reports, unknown, clock, group,
    ) {
        Ok(thread) => Ok(thread),
        Err(fault) => Err(fault),
    }
}

/// Starts a thread for each of these ends.
fn start_workers<B, R, A, K, C, P>(
    rt: &R,
    alloc: Global,
    hub: &Hub<B>,
    receivers: Vec<TaskReceiver>,
    skills: &K,
    clock: C,
    tally: &Tally,
    strangers: &Strangers<P>,
    group: &WaitGroup,
) -> Result<Vec<Working<B, A, C, P>>, Fault>
where
    B: Room + Send + Sync + 'static,
    R: Threads + Wait + time::Clock + Copy + Send + Drop + 'static,
    A: Activity + Drop + Send + 'static,
    K: Skills<A>,
    C: Clock + Copy + Send + Drop + 'static,
    P: Write + Drop + Send + 'static,
    ensures count { IfOk result (λ w. length w.items ≡ length receivers.items) }
    ensures refused { IfErr result (λ f. f ≡ Fault.NoMemory _) }
{
    let mut workers = Vec::with_capacity(alloc, receivers.len())?;
    'starts: for receiver in receivers {
        let worker = start_one(
            rt, alloc, hub, receiver, skills, clock, tally, strangers, group,
        )?;
        workers.push_reserved(worker);
    }
    Ok(workers)
}

/// Who hands tasks out, and who makes attempts of them.
pub(crate) type Pool<B, A, C, P> = (Dispatching<B>, Vec<Working<B, A, C, P>>);

/// Starts those who make attempts of the tasks that are posted, so many, and who hands the tasks to them and gives back where they came
/// from.
pub(crate) fn start_pool<B, R, A, K, C, P>(
    rt: &R,
    alloc: Global,
    hub: &Hub<B>,
    workers: usize,
    skills: &K,
    clock: C,
    tally: &Tally,
    strangers: &Strangers<P>,
    group: &WaitGroup,
) -> Result<Pool<B, A, C, P>, Fault>
where
    B: Room + Send + Sync + 'static,
    R: Threads + Wait + time::Clock + Copy + Send + Drop + 'static,
    A: Activity + Drop + Send + 'static,
    K: Skills<A>,
    C: Clock + Copy + Send + Drop + 'static,
    P: Write + Drop + Send + 'static,
    ensures workers { IfOk result (λ r. length r.1.items ≡ workers) }
    ensures refused { IfErr result (λ f. f ≡ Fault.NoMemory _) }
{
    let (sender, receivers) = open_channel(alloc, workers)?;
    let its_group = group.clone()?;
    let its_tally = tally.share()?;
    let feed = feed_of(rt, hub)?;
    // Nothing is posted yet, so it hands nothing out before the workers are there.
    let dispatching = start_dispatcher(rt, Tasks::new(feed, its_tally), sender, its_group)?;
    let working = start_workers(
        rt, alloc, hub, receivers, skills, clock, tally, strangers, group,
    )?;
    Ok((dispatching, working))
}
