//! Payments of orders that go on through any stop: an engine over the file `payments.db`, with two activities of this program's own.
//! Command lines in, reply lines out; it ends when the input has ended and no order is open.
#![tactic(auto)]

ghost use Rattle.std.specs.Prelude.{◌≡◌, [], IfOk};

mod shop;

use crate::shop::Shop;
use flow_base::fault::Fault;
use flow_base::memory::NoMemory;
use flow_engine::engine::Engine;
use flow_lines::ending::ended;
use flow_lines::fault::fault_of_error;
use flow_lines::streams::Writing;
use flow_settings::settings::Settings;
use flow_work::clock::SystemClock;
use flow_work::running::work;
use sqlite::{Alter, Connection, Error, ErrorCode, File, FileStore};
use std::io::BufReader;
use std::process::ExitCode;
use std::sync::Wait;
use std::thread::Threads;
use std::time::Clock;

/// The engine runs from here, where both the store and who starts threads are known.
fn main(rt: HostRuntime) -> ExitCode {
    let outcome = match open(&rt) {
        Ok(engine) => {
            let mut engine = engine;
            let outcome = keep_running(&rt, &rt, &mut engine);
            let _ = engine.close().close();
            outcome
        }
        Err(fault) => Err(fault),
    };
    ExitCode::from(ended(rt.alloc(), &mut Writing::new(rt.stderr()), &outcome))
}

/// Opens the store, which is made where there is none. E01 where memory is wanting, and E80 where the file can't be opened.
fn open(rt: &HostRuntime) -> Result<Engine<FileStore<File>>, Fault>
    ensures { IfOk result (λ e. e.log ≡ []) }
{
    match Connection::open(rt, "payments.db") {
        Ok(conn) => engine_over(rt, conn),
        Err(Error::SqliteFailure(ErrorCode::OutOfMemory)) => {
            Err(Fault::NoMemory(NoMemory::told()))
        }
        Err(_) => Err(Fault::StoreRefused),
    }
}

/// The engine over the store.
fn engine_over<S: Alter + Drop>(rt: &HostRuntime, conn: Connection<S>) -> Result<Engine<S>, Fault>
    ensures { IfOk result (λ e. e.log ≡ []) }
{
    match Engine::open(rt.alloc(), conn, Settings::usual()) {
        Ok(engine) => Ok(engine),
        Err((fault, _conn)) => Err(fault),
    }
}

/// Runs the engine from standard input to standard output.
fn keep_running<S: Alter, T: Threads + Wait + Clock + Copy + Send + Drop + 'static>(
    rt: &HostRuntime,
    threads: &T,
    engine: &mut Engine<S>,
) -> Result<u8, Fault>
    requires { engine.old.log ≡ [] }
{
    let reader = match BufReader::new(rt.alloc(), rt.reader()) {
        Ok(reader) => reader,
        Err(error) => return Err(fault_of_error(error.kind(), Fault::NoFile)),
    };
    let clock = SystemClock::new(*threads);
    let ended = work(
        threads,
        rt.alloc(),
        engine,
        reader,
        rt.stdout(),
        Settings::usual(),
        &Shop::Charge,
        clock,
    );
    match ended {
        Ok(ended) => ended.outcome(),
        Err(fault) => Err(fault),
    }
}
