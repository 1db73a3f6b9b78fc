//! What the thread has that answers lines and prints tasks, and what it owes for it.
ghost use Rattle.std.specs.Prelude.{◌≡◌, IfErr, IfOk};
ghost use Rattle.flow_work.specs.Promised.{OwesLines};

use crate::counter::{Counter, Told};
use crate::desk::Desk;
use crate::giving::Giving;
use crate::owing::Closing;
use crate::starting::start_closing;
use flow_base::fault::Fault;
use flow_hub::feed::Feed;
use flow_hub::hub::{Hub, SeenClosed};
use flow_hub::seats::Room;
use flow_timers::Clock;
use std::alloc::Global;
use std::io::Write;
use std::snapshot::Snapshot;
use std::sync::{Arc, Wait};
use std::thread::{Promise, PromisedHandle, Threads};
use std::time;

/// All that the thread has that answers lines and prints tasks.
#[derive(Drop)]
pub(crate) struct Teller<B: Room, W: Write, G> {
    pub(crate) desk: Desk<B, W>,
    pub(crate) feed: Feed<B>,
    pub(crate) inputs: G,
    pub(crate) hub: Arc<Hub<B>, Global>,
}

/// What it began with. Behind its end it has printed a reply for each line that it took in, in their order, and the tasks that were
/// given to it; and no line comes any more, or nothing is answered.
#[derive(Drop)]
pub(crate) struct Owed<B: Room, W: Write, C, G> {
    pub(crate) desk: Snapshot<Desk<B, W>>,
    pub(crate) feed: Snapshot<Feed<B>>,
    pub(crate) clock: Snapshot<C>,
    pub(crate) inputs: Snapshot<G>,
}

impl<B: Room, W: Write, C: Clock, G: Giving> Promise<Closing<Told<B, W>, SeenClosed<B>, G>>
    for Owed<B, W, C, G> {
    ghost use Rattle.flow_work.specs.Promised.{OwesLines};

    ghost kept_by = { λ p r. OwesLines (C.tells p.clock.value) p.desk.value.page p.desk.value.pending.lines.items p.feed.value (G.given p.inputs.value) (G.given r.inputs.value) r.left.feed r.left.submitter r.left.lines r.left.page };
}

/// Answers lines and prints tasks until the input has ended, and then closes the hub.
fn run_teller<B: Room, W: Write + Drop, R: Wait + time::Clock, C: Clock, G: Giving + Drop>(
    rt: &R,
    teller: Teller<B, W, G>,
    clock: &C,
) -> Closing<Told<B, W>, SeenClosed<B>, G>
    ensures { OwesLines (C.tells clock.now) teller.desk.page teller.desk.pending.lines.items teller.feed (G.given teller.inputs)
        (G.given result.inputs.value) result.left.feed result.left.submitter result.left.lines result.left.page }
{
    let Teller {
        desk,
        feed,
        inputs,
        hub,
    } = teller;
    let mut counter = Counter::new(desk, feed);
    let mut inputs = inputs;
    counter.serve_lines(rt, clock, &mut inputs);
    let given = Snapshot::of(&inputs);
    drop(inputs);
    let closed = hub.close(rt);
    let seen = Snapshot::of(&closed);
    drop(closed);
    let left = counter.into_told();
    Closing {
        left,
        seen,
        inputs: given,
    }
}

/// Starts the thread that answers lines and prints tasks. E01 where there is none.
pub(crate) fn start_teller<B, R, W, C, G>(
    rt: &R,
    teller: Teller<B, W, G>,
    clock: C,
) -> Result<PromisedHandle<Closing<Told<B, W>, SeenClosed<B>, G>, Owed<B, W, C, G>>, Fault>
where
    B: Room + Send + Sync + 'static,
    R: Threads + Wait + time::Clock + Copy + Send + Drop + 'static,
    W: Write + Drop + Send + 'static,
    C: Clock + Copy + Send + Drop + 'static,
    G: Giving + Drop + Send + 'static,
    ensures owed { IfOk result (λ h. (h.promise.desk.value ≡ teller.desk) × (h.promise.feed.value ≡ teller.feed)
        × (h.promise.clock.value ≡ clock) × (h.promise.inputs.value ≡ teller.inputs)) }
    ensures refused { IfErr result (λ f. f ≡ Fault.NoMemory _) }
{
    let its = *rt;
    let owed = Owed {
        desk: Snapshot::of(&teller.desk),
        feed: Snapshot::of(&teller.feed),
        clock: Snapshot::of(&clock),
        inputs: Snapshot::of(&teller.inputs),
    };
    match start_closing(rt, owed, move || run_teller(&its, teller, &clock)) {
        Ok(thread) => Ok(thread),
        Err(fault) => Err(fault),
    }
}
