//! An engine that runs over lines, and what became of its runs.
ghost use Rattle.std.specs.Prelude.{◌≡◌, []};

use crate::clock::Still;
use flow_base::command::{Command, Reply};
use flow_base::number::RunId;
use flow_engine::engine::Engine;
use flow_model::answer::{Answer, Answering};
use flow_pool::activity::Activity;
use flow_settings::settings::Settings;
use flow_work::ended::Ended;
use flow_work::running::work;
use flow_work::skills::Skills;
use sqlite::MemStore;
use std::alloc::Global;
use std::io::BufRead;
use std::sync::Wait;
use std::thread::Threads;
use std::time;

/// Whether exactly these replies were printed, and all has ended well.
pub fn is_whole(ended: &Ended<Vec<u8>>, replies: &str) -> bool {
    ended.writer.as_slice() == replies.as_bytes() && ended.served.is_ok() && ended.status.get() == 0
}

/// Runs an engine over these lines. Whether exactly these replies were printed, and all has ended well.
pub fn is_answered<R, I, A, K>(
    rt: &R,
    alloc: Global,
    engine: &mut Engine<MemStore>,
    lines: I,
    replies: &str,
    settings: Settings,
    skills: &K,
    clock: Still,
) -> bool
where
    R: Threads + Wait + time::Clock + Copy + Send + Drop + 'static,
    I: BufRead + Drop + Send + 'static,
    A: Activity + Drop + Send + 'static,
    K: Skills<A>,
    requires { engine.old.log ≡ [] }
{
    let printed = Vec::new(alloc);
    match work(rt, alloc, engine, lines, printed, settings, skills, clock) {
        Ok(ended) => is_whole(&ended, replies),
        Err(_fault) => false,
    }
}

/// The answer to who asks for a run's history. None where nothing is replied.
pub fn history(engine: &mut Engine<MemStore>, run: u64) -> Option<Reply> {
    let run = RunId::new(run)?;
    match engine.answer(Command::History(run)) {
        Ok(Answer::Replied(reply)) => Some(reply),
        _ => None,
    }
}
