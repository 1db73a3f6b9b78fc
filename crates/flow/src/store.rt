//! The store of a call, and the engine over it.
ghost use Rattle.std.specs.Prelude.{Ok, IfOk, IfErr};
ghost use Rattle.sqlite.specs.Held.{state};
ghost use Rattle.sqlite.specs.Steps.{over_memory, IsEmpty};
ghost use Rattle.flow.specs.Openings.{IsHandedOn, IsNotOpened, IsOfCode, IsOfFile, IsOfOpening, IsOver, IsUnmade};

use crate::moving::Moving;
use crate::system::System;
use flow_base::fault::Fault;
use flow_base::memory::NoMemory;
use flow_cli::reason::{Early, Unopened};
use flow_engine::engine::Engine;
use flow_settings::settings::Settings;
use sqlite::{Alter, Connection, Error, ErrorCode, MemStore};
use std::alloc::Global;
use std::io::Write;

/// The engine over a store. A terminal, where there is one, shows how far its move is, if it is moved.
fn open<S: Alter + Drop, P: Write + Drop>(
    alloc: Global,
    conn: Connection<S>,
    settings: Settings,
    terminal: Option<P>,
) -> Result<Engine<S>, Fault>
    ensures over { IfOk result (IsOver S.Store conn) }
    // The fault is that of the engine, with all that the engine tells of it.
    ensures refused { IfErr result (IsHandedOn S.Store (state S.Store conn)) }
{
    let mut moving = Moving::on(alloc, terminal);
    let opened = Engine::open_watched(alloc, conn, settings, &mut moving);
    moving.clear();
    match opened {
        Ok(engine) => Ok(engine),
        Err((fault, _held)) => Err(fault),
    }
}

/// Why the store in a file that was opened has no engine: for what the engine says alone, the file is told too.
fn unkept(alloc: Global, file: &str, fault: Fault) -> Early
    ensures { IsOfOpening file.now fault result }
{
    match fault {
        Fault::StoreRefused => Early::unopened(alloc, file, Unopened::Failed),
        _ => Early::from(fault),
    }
}

/// Why a file isn't opened, by what was said of it.
fn unopened_by<H: System>(alloc: Global, system: &H, file: &str, said: ErrorCode) -> Early
    ensures { IsOfCode (H.finds system.now file.now) file.now said result }
{
    match said {
        ErrorCode::OutOfMemory => Early::from(Fault::NoMemory(NoMemory::told())),
        _ => Early::unopened(alloc, file, system.unopened(file, said)),
    }
}

/// Why a file isn't opened.
fn unopened<H: System>(alloc: Global, system: &H, file: &str, error: Error) -> Early
    ensures { IsOfFile (H.finds system.now) file.now error result }
{
    match error {
        Error::SqliteFailure(said) => unopened_by(alloc, system, file, said),
        _ => Early::unopened(alloc, file, Unopened::Failed),
    }
}

/// The store in this file, which is made where there is none.
pub fn open_file<H: System>(
    alloc: Global,
    system: &H,
    file: &str,
    settings: Settings,
) -> Result<Engine<H::Base>, Early>
    ensures opened { IfOk result (λ e. (conn : _) × (H.opens system.now file.now (Ok conn) × IsOver H.Base.Store conn e)) }
    ensures refused { IfErr result (IsNotOpened H.Base.Store (H.opens system.now) (H.finds system.now) file.now) }
{
    match system.open(file) {
        Ok(conn) => match open(alloc, conn, settings, system.terminal()) {
            Ok(engine) => Ok(engine),
            Err(fault) => Err(unkept(alloc, file, fault)),
        },
        Err(error) => Err(unopened(alloc, system, file, error)),
    }
}

/// A new store in memory.
pub fn open_memory(alloc: Global, settings: Settings) -> Result<Engine<MemStore>, Fault>
    ensures opened { IfOk result (λ e. (conn : _) × (IsEmpty (state over_memory conn) × IsOver over_memory conn e)) }
    ensures refused { IfErr result (IsUnmade over_memory) }
{
    let conn = Connection::open_in_memory(alloc)?;
    match open(alloc, conn, settings, None::<Vec<u8>>) {
        Ok(engine) => Ok(engine),
        Err(fault) => Err(fault),
    }
}
