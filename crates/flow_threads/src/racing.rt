//! An engine that serves a hub to which many threads submit.
ghost use Rattle.std.specs.Prelude.{◌≡◌, ◌≤◌, []};
ghost use Rattle.flow_hub.specs.Seating.{IsRoomOf};

use crate::course::{Course, Turn};
use crate::driving::driven;
use crate::note::Raced;
use crate::plan::Plan;
use crate::submitting::{Brought, run_race};
use flow_base::fault::Fault;
use flow_base::number::Moment;
use flow_engine::engine::Engine;
use flow_hub::hub::Hub;
use flow_hub::publisher::Publisher;
use flow_hub::seats::{Opened, Room};
use flow_serve::serve;
use flow_settings::settings::Settings;
use flow_timers::Clock;
use sqlite::{Alter, Connection};
use std::alloc::Global;
use std::marker::Brand;
use std::sync::Wait;
use std::thread::{Threads, join};
use std::time;

/// A clock that stands.
#[derive(Clone, Copy)]
struct Still {
    now: Moment,
}

impl Clock for Still {
    ghost use Rattle.std.specs.Prelude.{◌≡◌};

    ghost tells = { λ c at. at ≡ c.now };

    fn now(&self) -> Moment {
        self.now
    }
}

/// How many commands are committed together, 1 to 64.
pub fn limited(most: usize) -> usize
    ensures { (1 ≤ result) × (result ≤ 64) }
{
    if most < 1 {
        1
    } else if most > 64 {
        64
    } else {
        most
    }
}

/// Serves a hub until it is closed and all is answered: for which number it has ended.
fn serve_to_end<S: Alter, B: Room, R: Wait + time::Clock>(
    rt: &R,
    engine: &mut Engine<S>,
    publisher: &mut Publisher<B>,
    clock: Still,
    most: usize,
) -> u8
    requires { (engine.old.log ≡ []) × (publisher.old.history ≡ []) × (publisher.old.last ≡ []) × (publisher.old.held ≡ []) }
{
    match serve(engine, rt, publisher, &clock, limited(most)) {
        Ok(()) => 0,
        Err(fault) => number_of(&fault),
    }
}

fn number_of(fault: &Fault) -> u8 {
    fault.code().number()
}

/// Serves on one thread, and submits on the others.
fn serve_race<S: Alter + Send, B: Room + Send + Sync, R: Threads + Wait + time::Clock + Sync>(
    rt: &R,
    alloc: Global,
    engine: &mut Engine<S>,
    publisher: &mut Publisher<B>,
    hub: &Hub<B>,
    clock: Still,
    plan: Plan,
) -> (Option<Brought>, u8)
    requires { (engine.old.log ≡ []) × (publisher.old.history ≡ []) × (publisher.old.last ≡ []) × (publisher.old.held ≡ []) }
{
    let most = plan.most;
    join(
        rt,
        move || run_race(rt, alloc, hub, plan),
        move ||
            requires { (engine.now.log ≡ []) × (publisher.now.history ≡ []) × (publisher.now.last ≡ []) × (publisher.now.held ≡ []) }
        { serve_to_end(rt, engine, publisher, clock, most) },
    )
}

/// The same over a hub of this name. None: there is no memory for one.
fn race_named<S: Alter + Send, B: Room + Send + Sync, R: Threads + Wait + time::Clock + Sync>(
    rt: &R,
    alloc: Global,
    engine: &mut Engine<S>,
    opened: Opened,
    clock: Still,
    plan: Plan,
) -> Option<(Option<Brought>, u8)>
    requires room { IsRoomOf opened B.table B.name B.parts }
    requires anew { engine.old.log ≡ [] }
{
    let (mut publisher, hub) = Hub::<B>::new(alloc, opened).ok()?;
    let raced = serve_race(rt, alloc, engine, &mut publisher, &hub, clock, plan);
    publisher.leave();
    hub.leave();
    Some(raced)
}

/// A race over an engine that was opened just now. None: memory was refused.
fn race<S: Alter + Send, R: Threads + Wait + time::Clock + Sync>(
    rt: &R,
    alloc: Global,
    engine: &mut Engine<S>,
    plan: Plan,
) -> Option<Raced>
    requires { engine.old.log ≡ [] }
{
    let clock = Still {
        now: Moment::new(1000)?,
    };
    let opened = Opened::new(alloc).ok()?;
    let (brought, ended) = race_named::<S, Brand, R>(rt, alloc, engine, opened, clock, plan)?;
    let Brought { notes, published } = brought?;
    Some(Raced {
        notes,
        published,
        ended,
    })
}

/// What comes of a turn over an engine that was opened just now.
fn played<S: Alter + Send, R: Threads + Wait + time::Clock + Sync>(
    rt: &R,
    alloc: Global,
    engine: &mut Engine<S>,
    turn: Turn,
    course: &Course,
) -> Option<Raced>
    requires { engine.old.log ≡ [] }
{
    match turn {
        Turn::Race(plan) => race(rt, alloc, engine, plan),
        Turn::Again(plan) | Turn::Anew(plan) => {
            let numbers = course.numbers(alloc, plan)?;
            driven(alloc, engine, numbers.as_slice(), plan.most)
        }
    }
}

/// What comes of a turn over a store, which comes back.
pub fn play<S: Alter + Send, R: Threads + Wait + time::Clock + Sync>(
    rt: &R,
    alloc: Global,
    conn: Connection<S>,
    turn: Turn,
    course: &Course,
) -> (Option<Raced>, Connection<S>) {
    match Engine::open(alloc, conn, Settings::usual()) {
        Ok(engine) => {
            let mut engine = engine;
            let made = played(rt, alloc, &mut engine, turn, course);
            (made, engine.close())
        }
        Err((_fault, conn)) => (None, conn),
    }
}
