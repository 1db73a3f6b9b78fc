//! A life of the engine, as the headline has it.
ghost use Rattle.std.specs.Prelude.{◌≡◌, IfErr, IfOk};
ghost use Rattle.sqlite.specs.Held.{state};
ghost use Rattle.sqlite.specs.State.{HasCleanDisk};
ghost use Rattle.flow_base.specs.declared.fault.Fault.TheVariants.{NoMemory};
ghost use Rattle.flow_tables.specs.Owned.{state_of};
ghost use Rattle.flow_engine.specs.Driving.{Runs};
ghost use Rattle.flow_engine.specs.Living.{HasEndedEarly, HasLived};

use crate::done::Done;
use crate::drive::drive;
use crate::engine::Engine;
use flow_base::fault::Fault;
use flow_commit::batch::Batch;
use flow_settings::settings::Settings;
use sqlite::{Alter, Connection};
use std::alloc::Global;

/// The engine behind these batches, and what became of each.
fn driven<S: Alter>(
    engine: Engine<S>,
    batches: Vec<Batch>,
) -> Result<(Engine<S>, Vec<Done>), (Fault, Connection<S>)>
    ensures runs { IfOk result (λ r. Runs S.Store engine r.0 batches.items r.1.items) }
    ensures early { IfErr result (λ e. (e.0 ≡ NoMemory _) × (e.1 ≡ engine.stored.held)) }
{
    let mut engine = engine;
    match drive(&mut engine, batches) {
        Ok(dones) => Ok((engine, dones)),
        Err((_batches, refused)) => Err((Fault::from(refused), engine.close())),
    }
}

/// Opens an engine over a store, asks it where its runs stand, and drives batches: a life, since these calls say all that the
/// headline asks of one.
///
/// # Failure
/// As of `Engine::open`; and E01 where there is no memory for what becomes of the batches, before the first of them.
pub fn live<S: Alter>(
    alloc: Global,
    conn: Connection<S>,
    settings: Settings,
    batches: Vec<Batch>,
) -> Result<(Engine<S>, Vec<Done>), (Fault, Connection<S>)>
    ensures lived { IfOk result (λ r. HasCleanDisk (state_of S.Store r.0.stored) → HasLived S.Store conn r.0 batches.items r.1.items) }
    ensures early { IfErr result (λ e. HasCleanDisk (state S.Store e.1) → HasEndedEarly S.Store conn e.0 e.1) }
{
    match Engine::open(alloc, conn, settings) {
        Ok(engine) => {
            let found = engine.found();
            drop(found);
            match driven(engine, batches) {
                Ok((last, dones)) => Ok((last, dones)),
                Err((fault, left)) => Err((fault, left)),
            }
        }
        Err((fault, conn)) => Err((fault, conn)),
    }
}
