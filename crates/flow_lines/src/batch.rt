//! Lines whose commands are applied together.
ghost use Rattle.std.specs.Prelude.{◌≡◌, ◌≤◌, ◌+◌, ◌++◌, ◌∷◌, [], ℕ, true, false, List, length, Bool, Option, OnOk, IfOk, IfErr, IfSome};
ghost use Rattle.flow_lines.specs.Answering.{EndsFull, EndsNext, Gathered, HasEnded, HasOneMore, IsFilled, StopsBetween, commands_in, are_commands};
ghost use Rattle.flow_lines.specs.Ends.{Gives, input_failed, output_failed};
ghost use Rattle.flow_lines.specs.Faults.{fault_status};
ghost use Rattle.flow_lines.specs.Stopping.{CausedFault};

use crate::command::{LineFault, command_of};
use crate::drive::read;
use crate::input::LineSource;
use flow_base::command::Command;
use flow_base::fault::Fault;
pub use flow_base::number::BatchSize;
use std::alloc::{AllocError, Global};

/// A batch that was begun: lines that were read and have no answer yet.
#[derive(Drop)]
pub(crate) struct Begun {
    /// The commands among the lines.
    pub(crate) commands: Vec<Command>,
    /// Which of the lines are commands.
    pub(crate) marks: Vec<bool>,
}

/// Begins a batch with a line that is a command.
fn begin(alloc: Global, command: Command) -> Result<Begun, AllocError>
    ensures commands { IfOk result (λ b. b.commands.items ≡ command ∷ []) }
    ensures marks { IfOk result (λ b. b.marks.items ≡ true ∷ []) }
{
    let mut commands = Vec::new(alloc);
    let mut marks = Vec::new(alloc);
    marks.push(true)?;
    commands.push(command)?;
    Ok(Begun { commands, marks })
}

/// Puts a line to a batch.
fn put_line(alloc: Global, line: &[u8], begun: &mut Begun) -> Result<(), Fault>
    ensures commands { OnOk result (begun.new.commands.items ≡ begun.old.commands.items ++ commands_in (line.now ∷ [])) }
    ensures marks { OnOk result (begun.new.marks.items ≡ begun.old.marks.items ++ are_commands (line.now ∷ [])) }
    ensures memory { IfErr result (λ f. f ≡ Fault.NoMemory _) }
{
    let is_command = match command_of(alloc, line) {
        Ok(command) => {
            begun.commands.push(command)?;
            true
        }
        Err(LineFault::NotACommand) => false,
        Err(LineFault::NoMemory(no_memory)) => return Err(Fault::NoMemory(no_memory)),
    };
    begun.marks.push(is_command)?;
    Ok(())
}

/// Puts the next line of the input to a batch; no where the input has ended.
fn put_next<I: LineSource>(alloc: Global, input: &mut I, begun: &mut Begun) -> Result<bool, Fault>
    ensures gathered { IfOk result (λ found. Gathered begun.old.commands.items begun.new.commands.items begun.old.marks.items begun.new.marks.items (I.left input.old) (I.left input.new)) }
    ensures more { IfOk result (λ found. HasOneMore begun.old.commands.items begun.new.commands.items) }
    ensures last { IfOk result (λ found. EndsNext begun.old.commands.items begun.new.commands.items begun.new.marks.items) }
    // Yes is one line more, and no is none, where nothing is left to read.
    ensures found { IfOk result (λ found. found ≡ true → length begun.new.marks.items ≡ length begun.old.marks.items + 1) }
    ensures ended { IfOk result (λ found. found ≡ false → begun.new.marks.items ≡ begun.old.marks.items) }
    ensures end { IfOk result (λ found. found ≡ false → IfSome (I.left input.old) (λ bytes. bytes ≡ [])) }
    ensures given { IfOk result (λ found. Gives 0 (I.given input.old) (I.given input.new)) }
    ensures left { IfOk result (λ found. found ≡ false → HasEnded (I.left input.old) (I.left input.new)) }
    ensures input { I.failed input.new ≡ input_failed result (I.failed input.old) }
    ensures output { (before : Bool) → output_failed result before ≡ before }
    ensures between { IfErr result StopsBetween }
    ensures status { IfErr result (λ f. fault_status f ≡ 3) }
    ensures cause { IfErr result (λ f. CausedFault f (λ s. ⊥)) }
{
    let line = match read(alloc, input) {
        Ok(Some(line)) => line,
        Ok(None) => return Ok(false),
        Err(fault) => return Err(fault),
    };
    match put_line(alloc, line.as_slice(), begun) {
        Ok(()) => Ok(true),
        Err(fault) => Err(fault),
    }
}

/// The batch that begins with a command: lines are read until it has so many commands, or the input has ended.
///
/// # Failure
/// E01, and E94 where a read failed: none of the batch is applied then.
pub(crate) fn gather<I: LineSource>(
    alloc: Global,
    input: &mut I,
    first: Command,
    most: BatchSize,
) -> Result<Begun, Fault>
    ensures gathered { IfOk result (λ b. Gathered (first ∷ []) b.commands.items (true ∷ []) b.marks.items (I.left input.old)
        (I.left input.new)) }
    ensures some { IfOk result (λ b. 1 ≤ length b.commands.items) }
    ensures few { IfOk result (λ b. length b.commands.items ≤ most) }
    ensures full { IfOk result (λ b. IsFilled most b.commands.items b.marks.items (I.left input.old) (I.left input.new)) }
    // Where it has as many commands as it may, nothing was read behind the last of them.
    ensures ends { IfOk result (λ b. EndsFull most b.commands.items b.marks.items) }
    ensures given { IfOk result (λ b. Gives 0 (I.given input.old) (I.given input.new)) }
    ensures input { I.failed input.new ≡ input_failed result (I.failed input.old) }
    ensures output { (before : Bool) → output_failed result before ≡ before }
    ensures between { IfErr result StopsBetween }
    ensures status { IfErr result (λ f. fault_status f ≡ 3) }
    ensures cause { IfErr result (λ f. CausedFault f (λ s. ⊥)) }
{
    let mut begun = begin(alloc, first)?;
    for _ in 0..u64::MAX {
        if begun.commands.len() as u64 >= most.get() {
            return Ok(begun);
        }
        match put_next(alloc, input, &mut begun) {
            Ok(true) => {}
            Ok(false) => return Ok(begun),
            Err(fault) => return Err(fault),
        }
    }
    Ok(begun)
}
