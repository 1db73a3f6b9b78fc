//! What is done over an open store.
ghost use Rattle.std.specs.Prelude.{◌≡◌, ◌⊎◌, ◌∷◌, [], ℕ, true, IfOk, IfErr, IfSome};
ghost use Rattle.flow_base.specs.declared.code.Code.TheVariants as codes;
ghost use Rattle.flow_base.specs.declared.command.Command.TheVariants as commands;
ghost use Rattle.flow_lines.specs.Answering.{AllAnswered, HasFew, IsFull, OfBatch, SomeAnswered, StatusWithin, StopsAmong, StopsWithin};
ghost use Rattle.flow_lines.specs.Counting.{IsCounted};
ghost use Rattle.flow_lines.specs.Driving.{lines_of};
ghost use Rattle.flow_lines.specs.Ends.{input_failed, output_failed};
ghost use Rattle.flow_lines.specs.Faults.{fault_status};
ghost use Rattle.flow_cli.specs.Histories.{TellsHistory, BeginsHistory, HasNoRun, CausedUnwritten};
ghost use Rattle.flow_lines.specs.Stopping.{CausedFault, StoppedBy};
ghost use Rattle.flow_cli.specs.Working.{OfWork};

use crate::cache::CacheSize;
use crate::history::tell_history;
use flow_base::fault::Fault;
use flow_base::number::RunId;
use flow_lines::batch::BatchSize;
use flow_lines::drive::drive_lines;
use flow_lines::input::LineSource;
use flow_lines::output::Output;
use flow_model::answer::Answering;
use std::alloc::Global;

/// What is done over an open store.
#[derive(Clone, Copy, Debug)]
pub enum Work {
    /// Command lines are answered, so many commands together; so many positions of runs are kept meanwhile.
    Drive(BatchSize, CacheSize),
    /// The history of a run is told.
    History(RunId),
}

/// Does it over whoever keeps the store's book, and gives the status.
///
/// # Failure
/// As of `drive_lines` and `tell_history`.
pub fn perform<I: LineSource, O: Output, E: Answering>(
    alloc: Global,
    engine: &mut E,
    input: &mut I,
    output: &mut O,
    work: &Work,
) -> Result<u8, Fault>
    ensures done { IfOk result (λ n. OfWork work.now
        (λ most. E.is_sure engine.new → IfSome (I.left input.old)
        (λ bytes. AllAnswered E.rules (OfBatch most (E.gives_up engine.old engine.new))
        (IsCounted E.Answering engine.old engine.new) (IsFull most) (E.book engine.old)
        (E.book engine.new) (lines_of bytes) (O.contents output.old) (O.contents output.new) n))
        (λ run. E.is_sure engine.new → TellsHistory E.rules (E.book engine.old) (E.book engine.new) run (O.contents output.old)
        (O.contents output.new))) }
    ensures status { IfOk result (λ n. OfWork work.now (λ most. StatusWithin (OfBatch most (E.gives_up engine.old engine.new)) n)
        (λ run. n ≡ 0)) }
    ensures part { IfErr result (λ e. OfWork work.now
        (λ most. E.is_sure engine.new → IfSome (I.left input.old)
        (λ bytes. StopsWithin E.rules (OfBatch most (E.gives_up engine.old engine.new))
        (IsCounted E.Answering engine.old engine.new) (OfBatch most (E.stops engine.old engine.new))
        (IsFull most) (E.book engine.old) (E.book engine.new) e (lines_of bytes) (O.contents output.old) (O.contents output.new)))
        (λ run. (output.new ≡ output.old) ⊎ (E.is_sure engine.new
        → BeginsHistory E.rules (E.book engine.old) (E.book engine.new) run (O.contents output.old) (O.contents output.new)))) }
    ensures early { IfErr result (λ e. OfWork work.now (λ most. fault_status e ≡ 3) (λ run. (e ≡ Fault.NoRun) ⊎ (fault_status e ≡ 3))) }
    ensures lines { IfOk result (λ n. OfWork work.now
        (λ most. E.is_sure engine.new → SomeAnswered E.rules (OfBatch most (E.gives_up engine.old engine.new))
        (IsCounted E.Answering engine.old engine.new) (HasFew most)
        (E.book engine.old) (E.book engine.new) 0 (O.contents output.old) (O.contents output.new) n)
        (λ run. Unit {0})) }
    ensures cut { IfErr result (λ e. OfWork work.now
        (λ most. E.is_sure engine.new → StopsAmong E.rules (OfBatch most (E.gives_up engine.old engine.new))
        (IsCounted E.Answering engine.old engine.new)
        (OfBatch most (E.stops engine.old engine.new)) (HasFew most) (E.book engine.old) (E.book engine.new) e (O.contents output.old)
        (O.contents output.new))
        (λ run. Unit {0})) }
    // E94 where a read failed and E95 where a write did, and each of them only there. The history of a run reads nothing.
    ensures input { I.failed input.new ≡ input_failed result (I.failed input.old) }
    ensures output { O.failed output.new ≡ output_failed result (O.failed output.old) }
    ensures memory { IfErr result (λ e. OfWork work.now
        (λ most. e ≡ Fault.NoMemory _ → (O.ran_out output.new ≡ true)
        ⊎ (E.is_sure engine.new → (n : ℕ) × SomeAnswered E.rules (OfBatch most (E.gives_up engine.old engine.new))
        (IsCounted E.Answering engine.old engine.new) (HasFew most)
        (E.book engine.old) (E.book engine.new) 0 (O.contents output.old) (O.contents output.new) n))
        (λ run. Unit {0})) }
    ensures cause { IfErr result (λ e. OfWork work.now
        (λ most. CausedFault e (StoppedBy E.rules (OfBatch most (E.gives_up engine.old engine.new))
        (OfBatch most (E.stops engine.old engine.new)) (IsFull most) (E.is_sure engine.new) (E.book engine.old) (I.left input.old)))
        (λ run. CausedUnwritten e (E.is_sure engine.new → HasNoRun E.rules (E.book engine.old) (E.book engine.new) run)
        (E.is_sure engine.new → E.gives_up engine.old engine.new (E.book engine.old) (commands.History run ∷ []) codes.StoreRefused)
        (E.stops engine.old engine.new (E.book engine.old) (commands.History run ∷ [])))) }
    ensures sure { E.is_sure engine.new → E.is_sure engine.old }
    ensures follows { (a : E) → E.follows a engine.old → E.follows a engine.new }
{
    match work {
        Work::Drive(most, _cache) => drive_lines(alloc, engine, input, output, *most),
        Work::History(run) => tell_history(alloc, engine, output, *run),
    }
}
