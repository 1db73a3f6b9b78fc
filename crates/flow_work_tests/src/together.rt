//! Two workers run at once: one activity waits for what the other one does.
use crate::clock::Still;
use crate::runs::{history, is_answered};
use flow_base::command::Reply;
use flow_base::event::{Cmd, Event, What};
use flow_base::task::Task;
use flow_base::value::Value;
use flow_engine::engine::Engine;
use flow_pool::activity::{Activity, Attempt};
use flow_settings::settings::Settings;
use flow_work::skills::Skills;
use sqlite::{Connection, MemStore};
use std::alloc::{AllocError, Global};
use std::sync::atomic::{AtomicBool, Ordering};
use std::sync::{Arc, Wait};
use std::test::*;
use std::thread::Threads;
use std::{thread, time};

/// How often `hold` asks whether `mark` has run.
const ASKED: u64 = 10_000_000;

/// One of two activities over one mark: `hold` gives 1 once the mark is there, and fails with `alone` where it doesn't come; `mark`
/// sets it and gives 2.
#[derive(Drop)]
struct OfPair {
    sets: bool,
    mark: Arc<AtomicBool, Global>,
}

fn hold(alloc: Global, mark: &AtomicBool) -> Result<Attempt, AllocError> {
    for _ in 0..ASKED {
        if mark.load(Ordering::SeqCst) {
            return Ok(Attempt::Done(Value::Int(1)));
        }
        thread::yield_now();
    }
    Attempt::failed(alloc, "alone")
}

impl Activity for OfPair {
    ghost use Rattle.std.specs.Prelude.{List, ℕ, codes, cond};

    ghost named = { λ p. cond p.sets (codes "mark") (codes "hold") };

    ghost gives = { λ _ t a. Unit {0} };

    fn name(&self) -> &str {
        if self.sets { "mark" } else { "hold" }
    }

    fn run(&mut self, alloc: Global, _task: &Task) -> Result<Attempt, AllocError> {
        if self.sets {
            self.mark.store(true, Ordering::SeqCst);
            return Ok(Attempt::Done(Value::Int(2)));
        }
        hold(alloc, &self.mark)
    }
}

/// Each worker has both.
#[derive(Drop)]
struct Both {
    mark: Arc<AtomicBool, Global>,
}

impl Skills<OfPair> for Both {
    ghost has = { λ _ all. Unit {0} };

    fn of_worker(&self, alloc: Global) -> Result<Vec<OfPair>, AllocError> {
        let mut both = Vec::with_capacity(alloc, 2)?;
        let mark = Arc::try_clone(&self.mark)?;
        both.push(OfPair { sets: false, mark })?;
        let mark = Arc::try_clone(&self.mark)?;
        both.push(OfPair { sets: true, mark })?;
        Ok(both)
    }
}

const LINES: &[u8] =
    b"{\"do\":\"register\",\"src\":\"workflow h() { activity hold() -> int; let r = 0; r = call hold(); return r; }\"}
{\"do\":\"register\",\"src\":\"workflow m() { activity mark() -> int; let r = 0; r = call mark(); return r; }\"}
{\"args\":[],\"at\":0,\"do\":\"start\",\"flow\":\"a\",\"req\":\"q1\",\"text\":1}
{\"args\":[],\"at\":0,\"do\":\"start\",\"flow\":\"b\",\"req\":\"q2\",\"text\":2}
";

const REPLIES: &str = "{\"reply\":\"registered\",\"text\":1}
{\"reply\":\"registered\",\"text\":2}
{\"reply\":\"started\",\"run\":1}
{\"reply\":\"started\",\"run\":2}
";

fn given(event: &Event) -> Option<i64> {
    match &event.what {
        What::Asked(Cmd::Complete(Value::Int(number))) => Some(*number),
        _ => None,
    }
}

fn given_last(reply: &Reply) -> Option<i64> {
    match reply {
        Reply::History(events) => given(events.as_slice().last()?),
        _ => None,
    }
}

/// What a run has returned.
fn returned(engine: &mut Engine<MemStore>, run: u64) -> Option<i64> {
    let reply = history(engine, run)?;
    given_last(&reply)
}

/// Whether all was answered, and what the two runs have returned.
fn outcome<R>(
    rt: &R,
    alloc: Global,
    skills: &Both,
    clock: Still,
    settings: Settings,
) -> Option<(bool, Option<i64>, Option<i64>)>
where
    R: Threads + Wait + time::Clock + Copy + Send + Drop + 'static,
{
    let conn = Connection::open_in_memory(alloc).ok()?;
    match Engine::open(alloc, conn, settings) {
        Ok(engine) => {
            let mut engine = engine;
            let is_answered = is_answered(
                rt,
                alloc,
                &mut engine,
                LINES,
                REPLIES,
                settings,
                skills,
                clock,
            );
            let held = returned(&mut engine, 1);
            let marked = returned(&mut engine, 2);
            Some((is_answered, held, marked))
        }
        Err((_fault, _conn)) => None,
    }
}

#[test]
fn two_at_once(rt: HostRuntime) -> Result<(), Fail> {
    let alloc = rt.alloc();
    let settings = Settings::new(16, 2, 256).ok_or("no settings")?;
    let clock = Still::at(1000).ok_or("no moment")?;
    let mark = Arc::new(alloc, AtomicBool::new(false))?;
    let ended = outcome(&rt, alloc, &Both { mark }, clock, settings);
    assert!(rt; ended == Some((true, Some(1), Some(2))));
    Ok(())
}
