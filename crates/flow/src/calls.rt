//! What the words of the program ask for.
ghost use Rattle.std.specs.Prelude.{◌≡◌, Ok, IfOk, IfErr, map, string_bytes};
ghost use Rattle.flow.specs.Called.{Answered, IsCalled, IsMisused, IsWordless};

use crate::over::{list, verify, work_over};
use crate::replaying::replay;
use crate::running::{Activities, keep_running};
use crate::system::System;
use crate::texts::{check, safe, settle};
use flow_base::fault::Fault;
use flow_cli::call::{Call, call_of};
use flow_cli::reason::Early;
use flow_engine::engine::Engine;
use flow_lines::fault::fault_of_error;
use flow_lines::output::Output;
use flow_model::answer::Answering;
use sqlite::MemStore;
use std::alloc::Global;
use std::sync::Wait;
use std::thread::Threads;
use std::time::Clock;

/// Does what a call asks for, and gives the status.
fn answer<H, T, O, P>(
    alloc: Global,
    system: &H,
    threads: &T,
    output: &mut O,
    errors: &mut P,
    call: &Call<'_>,
) -> Result<u8, Early>
where
    H: System,
    T: Threads + Wait + Clock + Copy + Send + Drop + 'static,
    O: Output,
    P: Output,
    ensures { Answered (H.reads system.now) (H.takes system.now) (H.lists system.now) (H.misses system.now)
        H.Base.Store (H.opens system.now) (H.finds system.now) (H.closes system.now) (H.gives system.now) (H.lends system.now) H.Replies.contents (H.prints system.now)
        ⟦<Engine<H::Base> as Answering>⟧ ⟦<Engine<MemStore> as Answering>⟧ H.Lines.LineSource O.Output P.Output output.old output.new errors.old errors.new call.now result }
{
    match call {
        Call::Check(file) => check(alloc, system, output, errors, file),
        Call::Safe { old, new } => safe(alloc, system, output, errors, old, new),
        Call::Settle { old, new } => settle(alloc, system, output, errors, old, new),
        Call::Replay { file, history } => replay(alloc, system, output, errors, file, history),
        Call::Over(base, work) => work_over(alloc, system, output, base, work),
        Call::Open(base) => list(alloc, system, output, base),
        Call::Verify(base) => verify(alloc, system, output, base),
        Call::Work {
            base,
            settings,
            leave_unknown,
        } => {
            let activities = Activities::Inside {
                leave_unknown: *leave_unknown,
            };
            keep_running(alloc, system, threads, base, *settings, activities)
        }
        Call::Serve { base, settings } => {
            keep_running(alloc, system, threads, base, *settings, Activities::Outside)
        }
    }
}

/// The words that the program was called with.
fn words_of<H: System>(system: &H) -> Result<Vec<String>, Early>
    ensures called { IfOk result (λ words. H.calls system.now (Ok words)) }
    ensures unknown { IfErr result (IsWordless (H.calls system.now)) }
{
    match system.words() {
        Ok(words) => Ok(words),
        Err(error) => Err(Early::from(fault_of_error(error.kind(), Fault::BadUsage))),
    }
}

/// Why words are no call.
fn misused(words: &[String], fault: Fault) -> Early
    ensures { IsMisused (map string_bytes words.now) fault result }
{
    match fault {
        Fault::BadUsage => Early::misused(words),
        _ => Early::from(fault),
    }
}

/// Does what the words ask for; the first is the program's own name. Threads are started by `threads`.
pub fn called<H, T, O, P>(
    alloc: Global,
    system: &H,
    threads: &T,
    output: &mut O,
    errors: &mut P,
) -> Result<u8, Early>
where
    H: System,
    T: Threads + Wait + Clock + Copy + Send + Drop + 'static,
    O: Output,
    P: Output,
    ensures { IsCalled (H.calls system.now) ((output.new ≡ output.old) × (errors.new ≡ errors.old))
        (Answered (H.reads system.now) (H.takes system.now) (H.lists system.now) (H.misses system.now)
        H.Base.Store (H.opens system.now) (H.finds system.now) (H.closes system.now) (H.gives system.now) (H.lends system.now) H.Replies.contents (H.prints system.now)
        ⟦<Engine<H::Base> as Answering>⟧ ⟦<Engine<MemStore> as Answering>⟧ H.Lines.LineSource O.Output P.Output output.old output.new errors.old errors.new) result }
{
    let words = words_of(system)?;
    match call_of(alloc, words.as_slice()) {
        Ok(call) => answer(alloc, system, threads, output, errors, &call),
        Err(fault) => Err(misused(words.as_slice(), fault)),
    }
}
