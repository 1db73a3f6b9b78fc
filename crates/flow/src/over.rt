//! What is done over the store of a call: in a file, or in memory.
ghost use Rattle.std.specs.Prelude.{◌≡◌, Ok, Err};
ghost use Rattle.sqlite.specs.Steps.{over_memory};
ghost use Rattle.flow_base.specs.declared.fault.Fault.TheVariants as faults;
ghost use Rattle.flow_cli.specs.Reasons.{early_of};
ghost use Rattle.flow_settings.specs.Allowed.{chosen};
ghost use Rattle.flow.specs.Configured.{settings_for};
ghost use Rattle.flow.specs.Over.{Asks, IsOnFile, OverFile, OverMemory, OverNamed, Verifies};
ghost use Rattle.flow.specs.Working.{Lists, Performed};

use crate::ends::early;
use crate::standard::{listed, performed};
use crate::store::{open_file, open_memory};
use crate::system::System;
use flow_base::fault::Fault;
use flow_cli::cache::CacheSize;
use flow_cli::reason::Early;
use flow_cli::totals::tell_totals;
use flow_cli::work::Work;
use flow_engine::engine::Engine;
use flow_lines::output::Output;
use flow_model::answer::Answering;
use flow_settings::settings::Settings;
use sqlite::{Alter, MemStore};
use std::alloc::Global;

/// The usual settings with so many positions.
fn caching(cache: CacheSize) -> Settings
    ensures { result ≡ chosen 16 4 cache }
{
    match Settings::new(16, 4, cache.get() as usize) {
        Some(settings) => settings,
        None => Settings::usual(),
    }
}

/// The settings by which it is done.
fn settings_by(work: &Work) -> Settings
    ensures { result ≡ settings_for work.now }
{
    match work {
        Work::Drive(_, cache) => caching(*cache),
        Work::History(_) => Settings::usual(),
    }
}

/// Does it over the store in a file.
fn work_in_file<H: System, O: Output>(
    alloc: Global,
    system: &H,
    output: &mut O,
    file: &str,
    work: &Work,
) -> Result<u8, Early>
    ensures { OverFile H.Base.Store (H.opens system.now) (H.finds system.now) (H.closes system.now) file.now (output.new ≡ output.old)
        (λ first last. Performed ⟦<Engine<H::Base> as Answering>⟧ H.Lines.LineSource O.Output
        (H.gives system.now) work.now first last output.old output.new) result }
{
    let mut engine = open_file(alloc, system, file, settings_by(work))?;
    let outcome = performed(alloc, system, &mut engine, output, work);
    let mut held = Some(engine.close());
    system.close(&mut held);
    early(outcome)
}

/// Tells a history of the store in a file; where there is none there is no run, and none is made.
fn ask_file<H: System, O: Output>(
    alloc: Global,
    system: &H,
    output: &mut O,
    file: &str,
    work: &Work,
) -> Result<u8, Early>
    ensures { IsOnFile (H.misses system.now file.now) (λ r. (r ≡ Err (early_of faults.NoRun)) × (output.new ≡ output.old))
        (OverFile H.Base.Store (H.opens system.now) (H.finds system.now) (H.closes system.now) file.now (output.new ≡ output.old)
        (λ first last. Performed ⟦<Engine<H::Base> as Answering>⟧ H.Lines.LineSource O.Output
        (H.gives system.now) work.now first last output.old output.new)) result }
{
    if system.is_not_there(file) {
        return Err(Early::from(Fault::NoRun));
    }
    work_in_file(alloc, system, output, file, work)
}

/// A question for a history makes no file.
fn work_over_file<H: System, O: Output>(
    alloc: Global,
    system: &H,
    output: &mut O,
    file: &str,
    work: &Work,
) -> Result<u8, Early>
    ensures { Asks (H.misses system.now file.now) work.now (λ r. (r ≡ Err (early_of faults.NoRun)) × (output.new ≡ output.old))
        (OverFile H.Base.Store (H.opens system.now) (H.finds system.now) (H.closes system.now) file.now (output.new ≡ output.old)
        (λ first last. Performed ⟦<Engine<H::Base> as Answering>⟧ H.Lines.LineSource O.Output
        (H.gives system.now) work.now first last output.old output.new)) result }
{
    match work {
        Work::Drive(_, _) => work_in_file(alloc, system, output, file, work),
        Work::History(_) => ask_file(alloc, system, output, file, work),
    }
}

fn work_over_memory<H: System, O: Output>(
    alloc: Global,
    system: &H,
    output: &mut O,
    work: &Work,
) -> Result<u8, Early>
    ensures { OverMemory (output.new ≡ output.old)
        (λ first last. Performed ⟦<Engine<MemStore> as Answering>⟧ H.Lines.LineSource O.Output
        (H.gives system.now) work.now first last output.old output.new) result }
{
    let mut engine = open_memory(alloc, settings_by(work))?;
    early(performed(alloc, system, &mut engine, output, work))
}

/// Does it over the store of this name; `-` is a new one in memory.
pub fn work_over<H: System, O: Output>(
    alloc: Global,
    system: &H,
    output: &mut O,
    base: &str,
    work: &Work,
) -> Result<u8, Early>
    ensures { OverNamed base.now
        (OverMemory (output.new ≡ output.old)
        (λ first last. Performed ⟦<Engine<MemStore> as Answering>⟧ H.Lines.LineSource O.Output
        (H.gives system.now) work.now first last output.old output.new))
        (Asks (H.misses system.now base.now) work.now (λ r. (r ≡ Err (early_of faults.NoRun)) × (output.new ≡ output.old))
        (OverFile H.Base.Store (H.opens system.now) (H.finds system.now) (H.closes system.now) base.now (output.new ≡ output.old)
        (λ first last. Performed ⟦<Engine<H::Base> as Answering>⟧ H.Lines.LineSource O.Output
        (H.gives system.now) work.now first last output.old output.new))) result }
{
    match base {
        "-" => work_over_memory(alloc, system, output, work),
        file => work_over_file(alloc, system, output, file, work),
    }
}

fn list_in_file<H: System, O: Output>(
    alloc: Global,
    system: &H,
    output: &mut O,
    file: &str,
) -> Result<u8, Early>
    ensures { OverFile H.Base.Store (H.opens system.now) (H.finds system.now) (H.closes system.now) file.now (output.new ≡ output.old)
        (λ first last. Lists ⟦<Engine<H::Base> as Answering>⟧ O.Output first last output.old output.new) result }
{
    let mut engine = open_file(alloc, system, file, Settings::usual())?;
    let outcome = listed(alloc, &mut engine, output);
    let mut held = Some(engine.close());
    system.close(&mut held);
    early(outcome)
}

/// A file that isn't there has no open run, and none is made.
fn list_file<H: System, O: Output>(
    alloc: Global,
    system: &H,
    output: &mut O,
    file: &str,
) -> Result<u8, Early>
    ensures { IsOnFile (H.misses system.now file.now) (λ r. (r ≡ Ok 0) × (output.new ≡ output.old))
        (OverFile H.Base.Store (H.opens system.now) (H.finds system.now) (H.closes system.now) file.now (output.new ≡ output.old)
        (λ first last. Lists ⟦<Engine<H::Base> as Answering>⟧ O.Output first last output.old output.new)) result }
{
    if system.is_not_there(file) {
        return Ok(0);
    }
    list_in_file(alloc, system, output, file)
}

fn list_memory<O: Output>(alloc: Global, output: &mut O) -> Result<u8, Early>
    ensures { OverMemory (output.new ≡ output.old)
        (λ first last. Lists ⟦<Engine<MemStore> as Answering>⟧ O.Output first last output.old output.new) result }
{
    let mut engine = open_memory(alloc, Settings::usual())?;
    early(listed(alloc, &mut engine, output))
}

/// Lists the open runs of the store of this name; `-` is a new one in memory, which has none.
pub fn list<H: System, O: Output>(
    alloc: Global,
    system: &H,
    output: &mut O,
    base: &str,
) -> Result<u8, Early>
    ensures { OverNamed base.now
        (OverMemory (output.new ≡ output.old) (λ first last. Lists ⟦<Engine<MemStore> as Answering>⟧ O.Output first last output.old output.new))
        (IsOnFile (H.misses system.now base.now) (λ r. (r ≡ Ok 0) × (output.new ≡ output.old))
        (OverFile H.Base.Store (H.opens system.now) (H.finds system.now) (H.closes system.now) base.now (output.new ≡ output.old)
        (λ first last. Lists ⟦<Engine<H::Base> as Answering>⟧ O.Output first last output.old output.new))) result }
{
    match base {
        "-" => list_memory(alloc, output),
        file => list_file(alloc, system, output, file),
    }
}

/// Replays each run of a store, and writes how much it holds.
fn verified<S: Alter, O: Output>(
    alloc: Global,
    engine: &mut Engine<S>,
    output: &mut O,
) -> Result<u8, Fault>
    ensures { Verifies S.Store O.Output engine.old engine.new output.old output.new result }
{
    match engine.verify() {
        Ok(totals) => tell_totals(alloc, output, &totals),
        Err(fault) => Err(fault),
    }
}

fn verify_file<H: System, O: Output>(
    alloc: Global,
    system: &H,
    output: &mut O,
    file: &str,
) -> Result<u8, Early>
    ensures { OverFile H.Base.Store (H.opens system.now) (H.finds system.now) (H.closes system.now) file.now (output.new ≡ output.old)
        (λ first last. Verifies H.Base.Store O.Output first last output.old output.new) result }
{
    let mut engine = open_file(alloc, system, file, Settings::usual())?;
    let outcome = verified(alloc, &mut engine, output);
    let mut held = Some(engine.close());
    system.close(&mut held);
    early(outcome)
}

fn verify_memory<O: Output>(alloc: Global, output: &mut O) -> Result<u8, Early>
    ensures { OverMemory (output.new ≡ output.old) (λ first last. Verifies over_memory O.Output first last output.old output.new) result }
{
    let mut engine = open_memory(alloc, Settings::usual())?;
    early(verified(alloc, &mut engine, output))
}

/// Replays each run of the store of this name, closed ones too; `-` is a new one in memory, which has none.
pub fn verify<H: System, O: Output>(
    alloc: Global,
    system: &H,
    output: &mut O,
    base: &str,
) -> Result<u8, Early>
    ensures { OverNamed base.now
        (OverMemory (output.new ≡ output.old) (λ first last. Verifies over_memory O.Output first last output.old output.new))
        (OverFile H.Base.Store (H.opens system.now) (H.finds system.now) (H.closes system.now) base.now (output.new ≡ output.old)
        (λ first last. Verifies H.Base.Store O.Output first last output.old output.new)) result }
{
    match base {
        "-" => verify_memory(alloc, output),
        file => verify_file(alloc, system, output, file),
    }
}
