//! A running engine whose activities are outside: tasks are lines that it prints, and their reports lines that it reads.
ghost use Rattle.std.specs.Prelude.{◌≡◌, [], IfOk, IfErr};
ghost use Rattle.flow_hub.specs.Knowing.{IsBefore, IsSamePart, nothing};
ghost use Rattle.flow_hub.specs.Seating.{IsRoomOf};
ghost use Rattle.flow_work.specs.Counting.{IsStatusOf};
ghost use Rattle.flow_work.specs.Endings.{HasRun};
ghost use Rattle.flow_work.specs.Printing.{blank};
ghost use Rattle.flow_work.specs.Serving.{Shows};

use crate::counter::Told;
use crate::crew::start_ringing;
use crate::desk::Desk;
use crate::ended::{Ended, Served};
use crate::giving::Incoming;
use crate::handing::Ringing;
use crate::owing::{Closing, ReadingLines, Timing};
use crate::running::{Opening, begin, open_hub, open_lines, serve_new, start_timing};
use crate::stopping::Stopper;
use crate::teller::{Owed, Teller, start_teller};
use crate::workers::feed_of;
use crossbeam_utils::sync::WaitGroup;
use flow_base::fault::Fault;
use flow_engine::engine::Engine;
use flow_hub::feed::Feed;
use flow_hub::hub::{Hub, SeenClosed};
use flow_hub::publisher::Publisher;
use flow_hub::seats::{Opened, Room};
use flow_settings::settings::Settings;
use flow_timers::Clock;
use sqlite::Alter;
use std::alloc::Global;
use std::io::{BufRead, Write};
use std::marker::Brand;
use std::sync::{Arc, Wait};
use std::thread::{PromisedHandle, Threads};
use std::time;

/// How many lines may be read ahead: more than a worker has tasks in its hands that it has read and not looked at, so that it may write
/// their reports though its next lines can't be printed.
const MOST_LINES: usize = 4_096;

/// What the threads that read and print have beside where the lines come from and where they go.
struct Supplies<B: Room, C: Clock> {
    opening: Opening<B>,
    feed: Feed<B>,
    /// For who reads.
    its_hub: Arc<Hub<B>, Global>,
    /// Who fires what is due.
    timing: Timing<B, C>,
}

/// Starts who fires what is due, and opens what those need who read and print.
fn start_first<B, R, C>(
    rt: &R,
    alloc: Global,
    hub: &Arc<Hub<B>, Global>,
    clock: C,
    group: &WaitGroup,
) -> Result<Supplies<B, C>, Fault>
where
    B: Room + Send + Sync + 'static,
    R: Threads + Wait + time::Clock + Copy + Send + Drop + 'static,
    C: Clock + Copy + Send + Drop + 'static,
    ensures none { IfOk result (λ s. (s.opening.pending.lines.items ≡ []) × (s.feed ≡ nothing)) }
    ensures refused { IfErr result (λ f. f ≡ Fault.NoMemory _) }
{
    let timing = start_timing(rt, hub, clock, group)?;
    let feed = feed_of(rt, hub)?;
    let its_hub = Arc::try_clone(hub)?;
    let opening = open_lines(rt, alloc, hub, MOST_LINES)?;
    Ok(Supplies {
        opening,
        feed,
        its_hub,
        timing,
    })
}

/// Who answers lines and prints tasks, the end by which it is told that no line is answered any more, who reads, and who fires what is
/// due.
type Telling<B, I, W, C> = (
    PromisedHandle<Closing<Told<B, W>, SeenClosed<B>, Incoming>, Owed<B, W, C, Incoming>>,
    Stopper,
    ReadingLines<I, Ringing<B>>,
    Timing<B, C>,
);

/// Starts who reads lines and who answers them and prints tasks.
fn start_lines<B, R, I, W, C>(
    rt: &R,
    alloc: Global,
    supplies: Supplies<B, C>,
    reader: I,
    writer: W,
    clock: C,
) -> Result<Telling<B, I, W, C>, Fault>
where
    B: Room + Send + Sync + 'static,
    R: Threads + Wait + time::Clock + Copy + Send + Drop + 'static,
    I: BufRead + Drop + Send + 'static,
    W: Write + Drop + Send + 'static,
    C: Clock + Copy + Send + Drop + 'static,
    requires none { (supplies.opening.pending.lines.items ≡ []) × (supplies.feed ≡ nothing) }
    ensures given { IfOk result (λ r. r.0.promise.inputs.value.given ≡ []) }
    ensures page { IfOk result (λ r. (r.0.promise.desk.value.page ≡ blank (W.contents writer))
        × (r.0.promise.desk.value.pending.lines.items ≡ [])) }
    ensures owed { IfOk result (λ r. (r.0.promise.feed.value ≡ nothing) × (r.0.promise.clock.value ≡ clock)) }
    ensures reads { IfOk result (λ r. r.2.promise.reader.value ≡ reader) }
    ensures refused { IfErr result (λ f. f ≡ Fault.NoMemory _) }
{
    let Supplies {
        opening,
        feed,
        its_hub,
        timing,
    } = supplies;
    let Opening {
        lines,
        own_lines,
        inputs,
        pending,
        submitter,
        hub,
    } = opening;
    let desk = Desk::new(alloc, submitter, pending, writer);
    let teller = Teller {
        desk,
        feed,
        inputs: Incoming::new(inputs),
        hub,
    };
    let reading = start_ringing(rt, alloc, reader, lines, its_hub)?;
    let telling = start_teller(rt, teller, clock)?;
    Ok((telling, Stopper::new(own_lines), reading, timing))
}

/// Starts all threads but the one that serves.
fn start_all<B, R, I, W, C>(
    rt: &R,
    alloc: Global,
    hub: &Arc<Hub<B>, Global>,
    reader: I,
    writer: W,
    clock: C,
    group: &WaitGroup,
) -> Result<Telling<B, I, W, C>, Fault>
where
    B: Room + Send + Sync + 'static,
    R: Threads + Wait + time::Clock + Copy + Send + Drop + 'static,
    I: BufRead + Drop + Send + 'static,
    W: Write + Drop + Send + 'static,
    C: Clock + Copy + Send + Drop + 'static,
    ensures page { IfOk result (λ r. (r.0.promise.desk.value.page ≡ blank (W.contents writer))
        × (r.0.promise.desk.value.pending.lines.items ≡ [])) }
    ensures owed { IfOk result (λ r. (r.0.promise.feed.value ≡ nothing) × (r.0.promise.clock.value ≡ clock)) }
    ensures reads { IfOk result (λ r. r.2.promise.reader.value ≡ reader) }
    ensures refused { IfErr result (λ f. f ≡ Fault.NoMemory _) }
{
    let supplies = start_first(rt, alloc, hub, clock, group)?;
    start_lines(rt, alloc, supplies, reader, writer, clock)
}

/// What came of it, once the thread has ended that printed: what it had of the hub is taken back.
fn taken_back<B: Room, R: Wait, W: Write + Drop>(
    rt: &R,
    publisher: &mut Publisher<B>,
    told: Closing<Told<B, W>, SeenClosed<B>, Incoming>,
    served: Result<(), Fault>,
) -> Served<W>
    ensures served { result.ended.served ≡ served }
    ensures printed { (W.contents result.ended.writer ≡ told.left.page.bytes) × (result.is_mute ≡ told.left.page.is_mute)
        × (result.shown ≡ told.left.page.shown) }
    ensures lines { result.lines ≡ told.left.lines }
    ensures status { result.ended.status ≡ told.left.page.status }
    ensures submitter { IsBefore told.left.submitter.was publisher.new }
    ensures feed { IsBefore told.left.feed publisher.new }
    ensures part { IsSamePart publisher.old publisher.new }
{
    let Closing {
        left,
        seen: _seen,
        inputs: _inputs,
    } = told;
    let Told {
        page,
        submitter,
        feed,
        lines,
    } = left;
    publisher.meet(rt, submitter, feed);
    let shown = page.shown();
    let (writer, status, is_mute) = page.into_parts();
    Served {
        ended: Ended {
            writer,
            status,
            served,
        },
        is_mute,
        lines,
        shown,
    }
}

/// Runs an engine: serves, fires what is due by the clock, reads lines, prints their replies, and in between a line for each task,
/// until the input has ended and each line has its reply. Then it prints the tasks that are ready.
///
/// # Failure
/// E01 where there's no memory or no thread to begin with: nothing is served then.
pub fn serve<S, R, I, W, C>(
    rt: &R,
    alloc: Global,
    engine: &mut Engine<S>,
    reader: I,
    writer: W,
    settings: Settings,
    clock: C,
) -> Result<Served<W>, Fault>
where
    S: Alter,
    R: Threads + Wait + time::Clock + Copy + Send + Drop + 'static,
    I: BufRead + Drop + Send + 'static,
    W: Write + Drop + Send + 'static,
    C: Clock + Copy + Send + Drop + 'static,
    requires { engine.old.log ≡ [] }
    // What is said of `work`.
    ensures ran { HasRun S.Store engine.old engine.new result (λ e. e.ended.served) }
    // What was printed: to the lines that were taken in, in their order, what is said of them by what was kept and what wasn't; and in
    // between the tasks that were posted.
    ensures shown { IfOk result (λ e. Shows S.Store (C.tells clock) engine.old engine.new (W.contents writer)
        (W.contents e.ended.writer) e.is_mute e.lines e.shown) }
    // The status is the greatest of the replies that were printed, or 3.
    ensures status { IfOk result (λ e. IsStatusOf e.is_mute e.shown e.ended.status) }
{
    let (group, opened) = begin(alloc)?;
    serve_in::<S, Brand, R, I, W, C>(
        rt, alloc, opened, group, engine, reader, writer, settings, clock,
    )
}

fn serve_in<S, B, R, I, W, C>(
    rt: &R,
    alloc: Global,
    opened: Opened,
    group: WaitGroup,
    engine: &mut Engine<S>,
    reader: I,
    writer: W,
    settings: Settings,
    clock: C,
) -> Result<Served<W>, Fault>
where
    S: Alter,
    B: Room + Send + Sync + 'static,
    R: Threads + Wait + time::Clock + Copy + Send + Drop + 'static,
    I: BufRead + Drop + Send + 'static,
    W: Write + Drop + Send + 'static,
    C: Clock + Copy + Send + Drop + 'static,
    requires room { IsRoomOf opened B.table B.name B.parts }
    requires fresh { engine.old.log ≡ [] }
    ensures ran { HasRun S.Store engine.old engine.new result (λ e. e.ended.served) }
    ensures shown { IfOk result (λ e. Shows S.Store (C.tells clock) engine.old engine.new (W.contents writer)
        (W.contents e.ended.writer) e.is_mute e.lines e.shown) }
    ensures status { IfOk result (λ e. IsStatusOf e.is_mute e.shown e.ended.status) }
{
    let (mut publisher, hub) = open_hub::<B>(alloc, opened)?;
    match start_all(rt, alloc, &hub, reader, writer, clock, &group) {
        Ok((telling, stopper, _reading, _timing)) => {
            let served = serve_new(rt, engine, &mut publisher, &clock, settings.batch());
            // Who answers lines may have none, and none is answered any more.
            stopper.stop(rt);
            let told = telling.join(rt);
            group.wait(rt);
            Ok(taken_back(rt, &mut publisher, told, served))
        }
        Err(fault) => {
            hub.close(rt);
            group.wait(rt);
            Err(fault)
        }
    }
}
