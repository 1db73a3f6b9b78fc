//! A running engine: the threads around the one that serves.
ghost use Rattle.std.specs.Prelude.{◌≡◌, ◌≤◌, false, [], length, IfOk, IfErr, OnOk};
ghost use Rattle.flow_hub.specs.Knowing.{IsBefore, IsSamePart, nothing};
ghost use Rattle.flow_hub.specs.Publishing.{IsDone, TakesAll};
ghost use Rattle.flow_hub.specs.Seating.{IsRoomOf};
ghost use Rattle.flow_engine.specs.Answering.{Follows};
ghost use Rattle.flow_work.specs.Endings.{EndsServing, HasRun, HasServedAll};
ghost use Rattle.flow_work.specs.Printing.{blank};
ghost use Rattle.flow_work.specs.Serving.{PrintsReplies, ServedBy};

use crate::clerk::Answered;
use crate::crew::{Answerer, Answering, start_desk, start_reader, start_timer};
use crate::desk::Desk;
use crate::ended::Ended;
use crate::giving::Incoming;
use crate::handing::Handing;
use crate::input::InputMessage;
use crate::owing::{Closing, Dispatching, ReadingLines, Timing, Working};
use crate::progress::Progress;
use crate::queue::Queue;
use crate::skills::Skills;
use crate::stopping::Stopper;
use crate::tally::Tally;
use crate::unknown::{Strangers, UnknownActivity};
use crate::workers::{reporter, start_pool, unseated_fault};
use crossbeam_channel::{Receiver, Sender, bounded};
use crossbeam_utils::sync::WaitGroup;
use flow_base::fault::Fault;
use flow_engine::engine::Engine;
use flow_hub::feed::Feed;
use flow_hub::hub::{Hub, SeenClosed};
use flow_hub::publisher::Publisher;
use flow_hub::seats::{Opened, Room};
use flow_hub::submitter::Submitter;
use flow_pool::activity::Activity;
use flow_serve::serve;
use flow_settings::settings::Settings;
use flow_timers::Clock;
use sqlite::Alter;
use std::alloc::{AllocError, Global};
use std::io::{BufRead, Write};
use std::marker::Brand;
use std::sync::{Arc, Wait};
use std::thread::Threads;
use std::time;

/// How many lines may be read ahead.
const MOST_LINES: usize = 64;

/// What those who read and answer lines have beside where the lines come from and where the replies go.
pub(crate) struct Opening<B: Room> {
    pub(crate) lines: Sender<InputMessage>,
    pub(crate) own_lines: Sender<InputMessage>,
    pub(crate) inputs: Receiver<InputMessage>,
    pub(crate) pending: Queue<B>,
    pub(crate) submitter: Submitter<B>,
    pub(crate) hub: Arc<Hub<B>, Global>,
}

/// All that may be refused of it is asked for here, where nothing else is held. So many lines may be read ahead.
pub(crate) fn open_lines<B: Room, R: Wait>(
    rt: &R,
    alloc: Global,
    hub: &Arc<Hub<B>, Global>,
    most: usize,
) -> Result<Opening<B>, Fault>
    ensures none { IfOk result (λ o. o.pending.lines.items ≡ []) }
    ensures refused { IfErr result (λ f. f ≡ Fault.NoMemory _) }
{
    let pending = Queue::new(alloc)?;
    let (lines, inputs) = bounded(alloc, most)?;
    let own_lines = lines.clone()?;
    let own_hub = Arc::try_clone(hub)?;
    match hub.submitter(rt) {
        Ok(submitter) => Ok(Opening {
            lines,
            own_lines,
            inputs,
            pending,
            submitter,
            hub: own_hub,
        }),
        Err(unseated) => Err(unseated_fault(unseated)),
    }
}

/// Who answers lines, the end by which it is told that no line is answered any more, and who reads.
type Telling<B, I, W, C> = (
    Answering<B, W, C, Incoming>,
    Stopper,
    ReadingLines<I, Handing>,
);

/// Those who need no line: who fires what is due, who hands out tasks, and who makes attempts of them.
#[derive(Drop)]
struct Crew<B: Room, A: Activity, C: Clock, P: Write> {
    timing: Timing<B, C>,
    dispatching: Dispatching<B>,
    workers: Vec<Working<B, A, C, P>>,
}

/// All threads but the one that serves.
type Started<B, I, A, W, C, P> = (Telling<B, I, W, C>, Crew<B, A, C, P>);

/// Starts who reads lines and who answers them.
fn start_lines<B, R, I, W, C, P>(
    rt: &R,
    alloc: Global,
    opening: Opening<B>,
    reader: I,
    writer: W,
    clock: C,
    progress: Option<Progress<P>>,
) -> Result<Telling<B, I, W, C>, Fault>
where
    B: Room + Send + Sync + 'static,
    R: Threads + Wait + time::Clock + Copy + Send + Drop + 'static,
    I: BufRead + Drop + Send + 'static,
    W: Write + Drop + Send + 'static,
    C: Clock + Copy + Send + Drop + 'static,
    P: Write + Drop + Send + 'static,
    requires none { opening.pending.lines.items ≡ [] }
    ensures page { IfOk result (λ r. (r.0.promise.desk.value.page ≡ blank (W.contents writer))
        × (r.0.promise.desk.value.pending.lines.items ≡ [])) }
    ensures owed { IfOk result (λ r. r.0.promise.clock.value ≡ clock) }
    ensures reads { IfOk result (λ r. r.2.promise.reader.value ≡ reader) }
    ensures given { IfOk result (λ r. r.0.promise.inputs.value.given ≡ []) }
    ensures refused { IfErr result (λ f. f ≡ Fault.NoMemory _) }
{
    let Opening {
        lines,
        own_lines,
        inputs,
        pending,
        submitter,
        hub,
    } = opening;
    let answerer = Answerer {
        desk: Desk::new(alloc, submitter, pending, writer),
        inputs: Incoming::new(inputs),
        hub,
        progress,
    };
    let reading = start_reader(rt, alloc, reader, lines)?;
    let answering = start_desk(rt, answerer, clock)?;
    Ok((answering, Stopper::new(own_lines), reading))
}

/// Starts who fires what is due.
pub(crate) fn start_timing<B, R, C>(
    rt: &R,
    hub: &Hub<B>,
    clock: C,
    group: &WaitGroup,
) -> Result<Timing<B, C>, Fault>
where
    B: Room + Send + Sync + 'static,
    R: Threads + Wait + time::Clock + Copy + Send + Drop + 'static,
    C: Clock + Copy + Send + Drop + 'static,
    ensures owed { IfOk result (λ h. h.promise.clock.value ≡ clock) }
    ensures refused { IfErr result (λ f. f ≡ Fault.NoMemory _) }
{
    let group = group.clone()?;
    let reports = reporter(rt, hub, None)?;
    match start_timer(rt, reports, clock, group) {
        Ok(thread) => Ok(thread),
        Err(fault) => Err(fault),
    }
}

/// Starts those who need no line, and counts the tasks that are with workers.
fn start_others<B, R, A, K, C, P>(
    rt: &R,
    alloc: Global,
    hub: &Hub<B>,
    workers: usize,
    skills: &K,
    clock: C,
    strangers: &Strangers<P>,
    group: &WaitGroup,
) -> Result<(Crew<B, A, C, P>, Tally), Fault>
where
    B: Room + Send + Sync + 'static,
    R: Threads + Wait + time::Clock + Copy + Send + Drop + 'static,
    A: Activity + Drop + Send + 'static,
    K: Skills<A>,
    C: Clock + Copy + Send + Drop + 'static,
    P: Write + Drop + Send + 'static,
    ensures workers { IfOk result (λ r. length r.0.workers.items ≡ workers) }
    ensures refused { IfErr result (λ f. f ≡ Fault.NoMemory _) }
{
    let tally = Tally::new(alloc)?;
    let timing = start_timing(rt, hub, clock, group)?;
    let (dispatching, working) = start_pool(
        rt, alloc, hub, workers, skills, clock, &tally, strangers, group,
    )?;
    let crew = Crew {
        timing,
        dispatching,
        workers: working,
    };
    Ok((crew, tally))
}

/// A terminal, if there is one, that shows what is left.
fn progress_on<P: Write + Drop>(
    alloc: Global,
    terminal: Option<P>,
    tally: Tally,
) -> Option<Progress<P>> {
    match terminal {
        Some(terminal) => Some(Progress::new(alloc, terminal, tally)),
        None => None,
    }
}

/// Starts those who need no line, and opens what those need who do.
fn start_first<B, R, A, K, C, P>(
    rt: &R,
    alloc: Global,
    hub: &Arc<Hub<B>, Global>,
    workers: usize,
    skills: &K,
    clock: C,
    strangers: &Strangers<P>,
    group: &WaitGroup,
) -> Result<(Opening<B>, Crew<B, A, C, P>, Tally), Fault>
where
    B: Room + Send + Sync + 'static,
    R: Threads + Wait + time::Clock + Copy + Send + Drop + 'static,
    A: Activity + Drop + Send + 'static,
    K: Skills<A>,
    C: Clock + Copy + Send + Drop + 'static,
    P: Write + Drop + Send + 'static,
    ensures none { IfOk result (λ r. r.0.pending.lines.items ≡ []) }
    ensures workers { IfOk result (λ r. length r.1.workers.items ≡ workers) }
    ensures refused { IfErr result (λ f. f ≡ Fault.NoMemory _) }
{
    let (crew, tally) = start_others(rt, alloc, hub, workers, skills, clock, strangers, group)?;
    let opening = open_lines(rt, alloc, hub, MOST_LINES)?;
    Ok((opening, crew, tally))
}

/// Starts all threads but the one that serves, as many workers as the settings say.
fn start_all<B, R, I, W, A, K, C, P>(
    rt: &R,
    alloc: Global,
    hub: &Arc<Hub<B>, Global>,
    reader: I,
    writer: W,
    terminal: Option<P>,
    unknown: UnknownActivity<P>,
    settings: Settings,
    skills: &K,
    clock: C,
    group: &WaitGroup,
) -> Result<Started<B, I, A, W, C, P>, Fault>
where
    B: Room + Send + Sync + 'static,
    R: Threads + Wait + time::Clock + Copy + Send + Drop + 'static,
    I: BufRead + Drop + Send + 'static,
    W: Write + Drop + Send + 'static,
    A: Activity + Drop + Send + 'static,
    K: Skills<A>,
    C: Clock + Copy + Send + Drop + 'static,
    P: Write + Drop + Send + 'static,
    ensures page { IfOk result (λ r. (r.0.0.promise.desk.value.page ≡ blank (W.contents writer))
        × (r.0.0.promise.desk.value.pending.lines.items ≡ [])) }
    ensures owed { IfOk result (λ r. r.0.0.promise.clock.value ≡ clock) }
    ensures reads { IfOk result (λ r. r.0.2.promise.reader.value ≡ reader) }
    ensures workers { IfOk result (λ r. length r.1.workers.items ≡ settings.workers) }
    ensures refused { IfErr result (λ f. f ≡ Fault.NoMemory _) }
{
    let strangers = Strangers::new(alloc, unknown, terminal.is_some())?;
    let workers = settings.workers();
    let (opening, crew, tally) = start_first(
        rt, alloc, hub, workers, skills, clock, &strangers, group,
    )?;
    let progress = progress_on(alloc, terminal, tally);
    let telling = start_lines(rt, alloc, opening, reader, writer, clock, progress)?;
    Ok((telling, crew))
}

/// Who gave the tasks out, once the threads have ended.
fn feed_back<B: Room, R: Threads, A: Activity, C: Clock, P: Write>(
    rt: &R,
    crew: Crew<B, A, C, P>,
) -> Feed<B> {
    let Crew {
        timing: _timing,
        dispatching,
        workers: _workers,
    } = crew;
    dispatching.join(rt).into_feed()
}

/// What came of it, once the threads have ended that answered lines and handed out tasks: what they had of the hub is taken back.
fn ended_with<B: Room, R: Wait, W: Write + Drop>(
    rt: &R,
    publisher: &mut Publisher<B>,
    answered: Closing<Answered<B, W>, SeenClosed<B>, Incoming>,
    feed: Feed<B>,
    served: Result<(), Fault>,
) -> Ended<W>
    ensures served { result.served ≡ served }
    ensures printed { (W.contents result.writer ≡ answered.left.page.bytes) × (result.status ≡ answered.left.page.status) }
    ensures submitter { IsBefore answered.left.submitter.was publisher.new }
    ensures part { IsSamePart publisher.old publisher.new }
{
    let Closing {
        left,
        seen: _seen,
        inputs: _inputs,
    } = answered;
    let Answered {
        page,
        submitter,
        lines: _lines,
    } = left;
    publisher.meet(rt, submitter, feed);
    let (writer, status, _is_mute) = page.into_parts();
    Ended {
        writer,
        status,
        served,
    }
}

/// Runs an engine: serves, runs activities on as many threads as the settings say, fires what is due by the clock, reads lines and
/// prints their replies, until the input has ended, each line has its reply and no run is open.
///
/// # Failure
/// E01 where there's no memory or no thread to begin with: nothing is served then.
pub fn work<S, R, I, W, A, K, C>(
    rt: &R,
    alloc: Global,
    engine: &mut Engine<S>,
    reader: I,
    writer: W,
    settings: Settings,
    skills: &K,
    clock: C,
) -> Result<Ended<W>, Fault>
where
    S: Alter,
    R: Threads + Wait + time::Clock + Copy + Send + Drop + 'static,
    I: BufRead + Drop + Send + 'static,
    W: Write + Drop + Send + 'static,
    A: Activity + Drop + Send + 'static,
    K: Skills<A>,
    C: Clock + Copy + Send + Drop + 'static,
    requires { engine.old.log ≡ [] }
    // What was taken was committed batch by batch, each over the book that those before it left, and nothing else changes the book: so it
    // says what is kept and what a stop leaves, also where a fault ended it. Where nothing was served all is as before.
    ensures ran { HasRun S.Store engine.old engine.new result (λ e. e.served) }
    // What was printed: replies to the lines that were taken in, in their order, by what was kept and what wasn't; and their status.
    ensures printed { IfOk result (λ e. PrintsReplies S.Store (C.tells clock) engine.old engine.new (W.contents writer)
        (W.contents e.writer) e.status) }
{
    work_shown(
        rt,
        alloc,
        engine,
        reader,
        writer,
        None::<Vec<u8>>,
        UnknownActivity::Fail,
        settings,
        skills,
        clock,
    )
}

/// Runs an engine as `work` does. A terminal, where there is one, shows what is left once the last reply is printed. A task whose
/// activity no worker has fails, or is left alone, as is said.
pub fn work_shown<S, R, I, W, A, K, C, P>(
    rt: &R,
    alloc: Global,
    engine: &mut Engine<S>,
    reader: I,
    writer: W,
    terminal: Option<P>,
    unknown: UnknownActivity<P>,
    settings: Settings,
    skills: &K,
    clock: C,
) -> Result<Ended<W>, Fault>
where
    S: Alter,
    R: Threads + Wait + time::Clock + Copy + Send + Drop + 'static,
    I: BufRead + Drop + Send + 'static,
    W: Write + Drop + Send + 'static,
    A: Activity + Drop + Send + 'static,
    K: Skills<A>,
    C: Clock + Copy + Send + Drop + 'static,
    P: Write + Drop + Send + 'static,
    requires { engine.old.log ≡ [] }
    ensures ran { HasRun S.Store engine.old engine.new result (λ e. e.served) }
    ensures printed { IfOk result (λ e. PrintsReplies S.Store (C.tells clock) engine.old engine.new (W.contents writer)
        (W.contents e.writer) e.status) }
{
    let (group, opened) = begin(alloc)?;
    work_in::<S, Brand, R, I, W, A, K, C, P>(
        rt, alloc, opened, group, engine, reader, writer, terminal, unknown, settings, skills,
        clock,
    )
}

/// The group of the threads that are waited for, and what a hub is made of.
pub(crate) fn begin(alloc: Global) -> Result<(WaitGroup, Opened), AllocError> {
    let group = WaitGroup::new(alloc)?;
    let opened = Opened::new(alloc)?;
    Ok((group, opened))
}

/// A hub that threads share, and its publisher.
pub(crate) type Parts<B> = (Publisher<B>, Arc<Hub<B>, Global>);

pub(crate) fn open_hub<B: Room>(alloc: Global, opened: Opened) -> Result<Parts<B>, AllocError>
    requires room { IsRoomOf opened B.table B.name B.parts }
    ensures { IfOk result (λ p. p.0 ≡ nothing) }
{
    let (publisher, hub) = Hub::<B>::new(alloc, opened)?;
    let hub = Arc::new(alloc, hub)?;
    Ok((publisher, hub))
}

/// Serves a hub that was just made, until it is closed and nothing waits, or the engine serves no more.
pub(crate) fn serve_new<S: Alter, B: Room, R: Wait + time::Clock, C: Clock>(
    rt: &R,
    engine: &mut Engine<S>,
    publisher: &mut Publisher<B>,
    clock: &C,
    most: usize,
) -> Result<(), Fault>
    requires fresh { engine.old.log ≡ [] }
    requires nothing { publisher.old ≡ nothing }
    requires most { (1 ≤ most) × (most ≤ 64) }
    ensures served { OnOk result (HasServedAll S.Store engine.old engine.new) }
    ensures ends { IfErr result (EndsServing S.Store engine.old engine.new) }
    ensures hub { ServedBy S.Store (C.tells clock.now) engine.old engine.new publisher.new }
    // All that was submitted is answered and the hub is closed, on Ok by somebody who has the hub.
    ensures done { IsDone publisher.new }
    ensures closed { OnOk result (publisher.new.ended ≡ false) }
    // What waited was taken together: `most` at once, or all.
    ensures whole { TakesAll most publisher.old publisher.new }
    ensures goes_on { OnOk result (engine.new.halted ≡ engine.old.halted) }
    ensures found { engine.new.found ≡ engine.old.found }
    ensures follows { Follows S.Store engine.old engine.new }
{
    match serve(engine, rt, publisher, clock, most) {
        Ok(()) => Ok(()),
        Err(fault) => Err(fault),
    }
}

fn work_in<S, B, R, I, W, A, K, C, P>(
    rt: &R,
    alloc: Global,
    opened: Opened,
    group: WaitGroup,
    engine: &mut Engine<S>,
    reader: I,
    writer: W,
    terminal: Option<P>,
    unknown: UnknownActivity<P>,
    settings: Settings,
    skills: &K,
    clock: C,
) -> Result<Ended<W>, Fault>
where
    S: Alter,
    B: Room + Send + Sync + 'static,
    R: Threads + Wait + time::Clock + Copy + Send + Drop + 'static,
    I: BufRead + Drop + Send + 'static,
    W: Write + Drop + Send + 'static,
    A: Activity + Drop + Send + 'static,
    K: Skills<A>,
    C: Clock + Copy + Send + Drop + 'static,
    P: Write + Drop + Send + 'static,
    requires room { IsRoomOf opened B.table B.name B.parts }
    requires fresh { engine.old.log ≡ [] }
    ensures ran { HasRun S.Store engine.old engine.new result (λ e. e.served) }
    ensures printed { IfOk result (λ e. PrintsReplies S.Store (C.tells clock) engine.old engine.new (W.contents writer)
        (W.contents e.writer) e.status) }
{
    let (mut publisher, hub) = open_hub::<B>(alloc, opened)?;
    match start_all(
        rt, alloc, &hub, reader, writer, terminal, unknown, settings, skills, clock, &group,
    ) {
        Ok((telling, crew)) => {
            let (answering, stopper, _reading) = telling;
            let served = serve_new(rt, engine, &mut publisher, &clock, settings.batch());
            // Who answers lines may wait for one, and none is answered any more.
            stopper.stop(rt);
            let answered = answering.join(rt);
            group.wait(rt);
            let feed = feed_back(rt, crew);
            Ok(ended_with(rt, &mut publisher, answered, feed, served))
        }
        Err(fault) => {
            hub.close(rt);
            group.wait(rt);
            Err(fault)
        }
    }
}
