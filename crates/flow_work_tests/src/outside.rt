//! An engine whose activities are outside: what it prints.
ghost use Rattle.std.specs.Prelude.{◌≡◌, []};

use crate::clock::Still;
use crate::runs::is_whole;
use flow_engine::engine::Engine;
use flow_settings::settings::Settings;
use flow_work::serving::serve;
use sqlite::{Connection, MemStore};
use std::alloc::Global;
use std::sync::Wait;
use std::test::*;
use std::thread::Threads;
use std::time;

const LINES: &[u8] =
    b"{\"do\":\"register\",\"src\":\"workflow w(n: int) { activity charge(int) -> int; let r = 0; r = call charge(n); return r; }\"}
{\"args\":[7],\"at\":0,\"do\":\"start\",\"flow\":\"order-7\",\"req\":\"q1\",\"text\":1}
";

const PRINTED: &str = "{\"reply\":\"registered\",\"text\":1}
{\"reply\":\"started\",\"run\":1}
{\"activity\":\"charge\",\"args\":[7],\"attempt\":1,\"event\":2,\"flow\":\"order-7\",\"reply\":\"task\",\"run\":1}
";

/// Serves these lines. Whether exactly the replies and the task were printed, and all has ended well.
fn is_printed<R>(
    rt: &R,
    alloc: Global,
    engine: &mut Engine<MemStore>,
    settings: Settings,
    clock: Still,
) -> bool
where
    R: Threads + Wait + time::Clock + Copy + Send + Drop + 'static,
    requires { engine.old.log ≡ [] }
{
    match serve(rt, alloc, engine, LINES, Vec::new(alloc), settings, clock) {
        Ok(served) => is_whole(&served.ended, PRINTED),
        Err(_fault) => false,
    }
}

fn outcome<R>(rt: &R, alloc: Global, settings: Settings, clock: Still) -> Option<bool>
where
    R: Threads + Wait + time::Clock + Copy + Send + Drop + 'static,
{
    let conn = Connection::open_in_memory(alloc).ok()?;
    match Engine::open(alloc, conn, settings) {
        Ok(engine) => {
            let mut engine = engine;
            Some(is_printed(rt, alloc, &mut engine, settings, clock))
        }
        Err((_fault, _conn)) => None,
    }
}

#[test]
fn a_task_is_printed_behind_its_start(rt: HostRuntime) -> Result<(), Fail> {
    let alloc = rt.alloc();
    let clock = Still::at(1000).ok_or("no moment")?;
    assert!(rt; outcome(&rt, alloc, Settings::usual(), clock) == Some(true));
    Ok(())
}
