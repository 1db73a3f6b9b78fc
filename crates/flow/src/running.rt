//! The call that keeps an engine running.
ghost use Rattle.std.specs.Prelude.{◌≡◌, [], Ok, IfOk, IfErr, option_map};
ghost use Rattle.sqlite.specs.Steps.{over_memory};
ghost use Rattle.flow.specs.Over.{OverFile, OverMemory, OverNamed};
ghost use Rattle.flow.specs.Running.{HasSettings, IsUnlent, Prints, Replies, Runs, RunsWith};

use crate::ends::early;
use crate::settings::settings_in;
use crate::store::{open_file, open_memory};
use crate::system::System;
use flow_base::fault::Fault;
use flow_cli::reason::Early;
use flow_engine::engine::Engine;
use flow_lines::fault::fault_of_error;
use flow_settings::settings::Settings;
use flow_work::clock::SystemClock;
use flow_work::running::work_shown;
use flow_work::serving::serve;
use flow_work::skills::BuiltIn;
use flow_work::unknown::UnknownActivity;
use sqlite::Alter;
use std::alloc::Global;
use std::sync::Wait;
use std::thread::Threads;
use std::time::Clock;

/// Where the activities of a running engine are.
#[derive(Clone, Copy, Debug)]
pub enum Activities {
    /// In the program. One that it doesn't have fails, or is left alone.
    Inside { leave_unknown: bool },
    /// Outside: tasks and their reports are lines.
    Outside,
}

/// Standard input, for a thread.
fn reader_of<H: System>(system: &H) -> Result<H::Reader, Fault>
    ensures lent { IfOk result (λ reader. H.lends system.now (Ok reader)) }
    ensures refused { IfErr result (IsUnlent (H.lends system.now)) }
{
    match system.reader() {
        Ok(reader) => Ok(reader),
        Err(error) => Err(fault_of_error(error.kind(), Fault::NoFile)),
    }
}

/// Runs an engine from this input to standard output, with activities outside.
fn run_outside<H: System, S: Alter, T: Threads + Wait + Clock + Copy + Send + Drop + 'static>(
    alloc: Global,
    system: &H,
    threads: &T,
    engine: &mut Engine<S>,
    reader: H::Reader,
    settings: Settings,
) -> Result<u8, Fault>
    requires { engine.old.log ≡ [] }
    ensures runs { Runs S.Store (H.lends system.now) engine.old engine.new result }
    ensures prints { Prints S.Store H.Replies.contents (H.prints system.now) (H.lends system.now) engine.old engine.new result }
{
    let replies = system.replies();
    match serve(
        threads,
        alloc,
        engine,
        reader,
        replies,
        settings,
        SystemClock::new(*threads),
    ) {
        Ok(ended) => ended.outcome(),
        Err(fault) => Err(fault),
    }
}

/// What becomes of a task whose activity no worker has.
fn unknown_to<H: System>(system: &H, leave_unknown: bool) -> UnknownActivity<H::Notes> {
    if leave_unknown {
        UnknownActivity::Leave(system.notes())
    } else {
        UnknownActivity::Fail
    }
}

/// Runs an engine from this input to standard output, with the activities of the program.
fn run_inside<H: System, S: Alter, T: Threads + Wait + Clock + Copy + Send + Drop + 'static>(
    alloc: Global,
    system: &H,
    threads: &T,
    engine: &mut Engine<S>,
    reader: H::Reader,
    settings: Settings,
    leave_unknown: bool,
) -> Result<u8, Fault>
    requires { engine.old.log ≡ [] }
    ensures runs { Runs S.Store (H.lends system.now) engine.old engine.new result }
    ensures replies { Replies S.Store H.Replies.contents (H.prints system.now) (H.lends system.now) engine.old engine.new result }
{
    let unknown = unknown_to(system, leave_unknown);
    let output = system.replies();
    match work_shown(
        threads,
        alloc,
        engine,
        reader,
        output,
        system.terminal(),
        unknown,
        settings,
        &BuiltIn,
        SystemClock::new(*threads),
    ) {
        Ok(ended) => ended.outcome(),
        Err(fault) => Err(fault),
    }
}

/// Runs an engine from this input to standard output.
fn run_from<H: System, S: Alter, T: Threads + Wait + Clock + Copy + Send + Drop + 'static>(
    alloc: Global,
    system: &H,
    threads: &T,
    engine: &mut Engine<S>,
    reader: H::Reader,
    settings: Settings,
    activities: Activities,
) -> Result<u8, Fault>
    requires { engine.old.log ≡ [] }
    ensures { RunsWith activities S.Store H.Replies.contents (H.prints system.now) (H.lends system.now) engine.old engine.new result }
{
    match activities {
        Activities::Inside { leave_unknown } => run_inside(
            alloc,
            system,
            threads,
            engine,
            reader,
            settings,
            leave_unknown,
        ),
        Activities::Outside => run_outside(alloc, system, threads, engine, reader, settings),
    }
}

/// Runs an engine from standard input to standard output.
fn run<H: System, S: Alter, T: Threads + Wait + Clock + Copy + Send + Drop + 'static>(
    alloc: Global,
    system: &H,
    threads: &T,
    engine: &mut Engine<S>,
    settings: Settings,
    activities: Activities,
) -> Result<u8, Fault>
    requires { engine.old.log ≡ [] }
    ensures { RunsWith activities S.Store H.Replies.contents (H.prints system.now) (H.lends system.now) engine.old engine.new result }
{
    match reader_of(system) {
        Ok(reader) => run_from(alloc, system, threads, engine, reader, settings, activities),
        Err(fault) => Err(fault),
    }
}

fn run_in_file<H: System, T: Threads + Wait + Clock + Copy + Send + Drop + 'static>(
    alloc: Global,
    system: &H,
    threads: &T,
    file: &str,
    settings: Settings,
    activities: Activities,
) -> Result<u8, Early>
    ensures { OverFile H.Base.Store (H.opens system.now) (H.finds system.now) (H.closes system.now) file.now (Unit {0})
        (RunsWith activities H.Base.Store H.Replies.contents (H.prints system.now) (H.lends system.now)) result }
{
    let mut engine = open_file(alloc, system, file, settings)?;
    let outcome = run(alloc, system, threads, &mut engine, settings, activities);
    let mut held = Some(engine.close());
    system.close(&mut held);
    early(outcome)
}

fn run_in_memory<H: System, T: Threads + Wait + Clock + Copy + Send + Drop + 'static>(
    alloc: Global,
    system: &H,
    threads: &T,
    settings: Settings,
    activities: Activities,
) -> Result<u8, Early>
    ensures { OverMemory (Unit {0}) (RunsWith activities over_memory H.Replies.contents (H.prints system.now) (H.lends system.now)) result }
{
    let mut engine = open_memory(alloc, settings)?;
    early(run(alloc, system, threads, &mut engine, settings, activities))
}

/// Keeps an engine running over the store of this name; `-` is a new one in memory.
fn run_over<H: System, T: Threads + Wait + Clock + Copy + Send + Drop + 'static>(
    alloc: Global,
    system: &H,
    threads: &T,
    base: &str,
    settings: Settings,
    activities: Activities,
) -> Result<u8, Early>
    ensures { OverNamed base.now
        (OverMemory (Unit {0}) (RunsWith activities over_memory H.Replies.contents (H.prints system.now) (H.lends system.now)))
        (OverFile H.Base.Store (H.opens system.now) (H.finds system.now) (H.closes system.now) base.now (Unit {0})
        (RunsWith activities H.Base.Store H.Replies.contents (H.prints system.now) (H.lends system.now))) result }
{
    match base {
        "-" => run_in_memory(alloc, system, threads, settings, activities),
        file => run_in_file(alloc, system, threads, file, settings, activities),
    }
}

/// Keeps an engine running by the settings in a file. Settings that aren't allowed are E96, and nothing is opened then.
pub fn keep_running<H: System, T: Threads + Wait + Clock + Copy + Send + Drop + 'static>(
    alloc: Global,
    system: &H,
    threads: &T,
    base: &str,
    file: Option<&str>,
    activities: Activities,
) -> Result<u8, Early>
    ensures { HasSettings (H.reads system.now) (option_map (λ name. name.now) file.entry)
        (OverNamed base.now
        (OverMemory (Unit {0}) (RunsWith activities over_memory H.Replies.contents (H.prints system.now) (H.lends system.now)))
        (OverFile H.Base.Store (H.opens system.now) (H.finds system.now) (H.closes system.now) base.now (Unit {0})
        (RunsWith activities H.Base.Store H.Replies.contents (H.prints system.now) (H.lends system.now)))) result }
{
    match settings_in(alloc, system, file) {
        Ok(settings) => run_over(alloc, system, threads, base, settings, activities),
        Err(early) => Err(early),
    }
}
