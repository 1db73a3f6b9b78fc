//! A life of an engine that serves a hub, as the headline has it.
ghost use Rattle.std.specs.Prelude.{◌≡◌, ◌≤◌, true, [], IfErr, IfOk, OnOk};
ghost use Rattle.sqlite.specs.Held.{state};
ghost use Rattle.sqlite.specs.State.{HasCleanDisk};
ghost use Rattle.flow_tables.specs.Owned.{state_of};
ghost use Rattle.flow_hub.specs.Knowing.{nothing};
ghost use Rattle.flow_hub.specs.Publishing.{TakesAll};
ghost use Rattle.flow_engine.specs.Headline.{IsLife, Refused};
ghost use Rattle.flow_serve.specs.Living.{HasLivedServing, ServesHub};
ghost use Rattle.flow_serve.specs.Posting.{Posts};

use crate::server::serve;
use flow_base::fault::Fault;
use flow_engine::engine::Engine;
use flow_hub::publisher::Publisher;
use flow_hub::seats::Room;
use flow_settings::settings::Settings;
use flow_timers::Clock;
use sqlite::{Alter, Connection};
use std::alloc::Global;
use std::sync::Wait;
use std::time;

/// The engine behind all that it has served, and how serving has ended.
fn served<S: Alter, B: Room, R: Wait + time::Clock, C: Clock>(
    engine: Engine<S>,
    rt: &R,
    publisher: &mut Publisher<B>,
    clock: &C,
    most: usize,
) -> (Engine<S>, Result<(), Fault>)
    requires fresh { engine.log ≡ [] }
    requires none { publisher.old ≡ nothing }
    requires most { (1 ≤ most) × (most ≤ 64) }
    ensures serves { ServesHub S.Store engine result.0 publisher.new.history }
    ensures closed { OnOk result.1 (publisher.new.ended ≡ publisher.old.ended) }
    ensures closes { IfErr result.1 (λ _. publisher.new.ended ≡ true) }
    ensures whole { TakesAll most publisher.old publisher.new }
    ensures posts { Posts S.Store (C.tells clock.now) result.0 publisher.old.posted publisher.new.posted }
{
    let mut engine = engine;
    let outcome = serve(&mut engine, rt, publisher, clock, most);
    (engine, outcome)
}

/// Opens an engine over a store, asks it where its runs stand, and serves a hub to whose publisher nothing is known yet: a life, since
/// these calls say all that the headline asks of one. The receipts that the hub is told are those of this life.
///
/// # Failure
/// As of `Engine::open`, and then the hub isn't served. How serving has ended is told beside the engine.
pub fn live<S: Alter, B: Room, R: Wait + time::Clock, C: Clock>(
    alloc: Global,
    conn: Connection<S>,
    settings: Settings,
    rt: &R,
    publisher: &mut Publisher<B>,
    clock: &C,
    most: usize,
) -> Result<(Engine<S>, Result<(), Fault>), (Fault, Connection<S>)>
    requires none { publisher.old ≡ nothing }
    requires most { (1 ≤ most) × (most ≤ 64) }
    ensures lived { IfOk result (λ r. HasCleanDisk (state_of S.Store r.0.stored)
        → HasLivedServing S.Store conn r.0 publisher.new.history) }
    // The outcome that is told is that of serving: on Ok the publisher hasn't closed the hub, and behind a fault it has.
    ensures closed { IfOk result (λ r. OnOk r.1 (publisher.new.ended ≡ publisher.old.ended)) }
    ensures closes { IfOk result (λ r. IfErr r.1 (λ _. publisher.new.ended ≡ true)) }
    // What waited was taken together: `most` at once, or all.
    ensures whole { OnOk result (TakesAll most publisher.old publisher.new) }
    // All that is posted is what boards of the kept book name, each at a moment of the clock.
    ensures posts { IfOk result (λ r. Posts S.Store (C.tells clock.now) r.0 publisher.old.posted publisher.new.posted) }
    ensures early { IfErr result (λ e. HasCleanDisk (state S.Store e.1) → IsLife S.Store (Refused conn e.0 e.1)) }
{
    match Engine::open(alloc, conn, settings) {
        Ok(engine) => {
            let found = engine.found();
            drop(found);
            Ok(served(engine, rt, publisher, clock, most))
        }
        Err((fault, conn)) => Err((fault, conn)),
    }
}
