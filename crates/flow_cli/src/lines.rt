//! Lines that are written one after the other.
ghost use Rattle.std.specs.Prelude.{◌≡◌, ◌⊎◌, ◌++◌, ◌∷◌, [], ℕ, Bool, List, IfOk, IfErr, OnOk, string_bytes};
ghost use Rattle.std.specs.Io.KnownBytes.{Appends};
ghost use Rattle.flow_lines.specs.Answering.{WritesPart};
ghost use Rattle.flow_lines.specs.Driving.{WritesBeginning};
ghost use Rattle.flow_lines.specs.Ends.{input_failed, output_failed};
ghost use Rattle.flow_lines.specs.Faults.{fault_status};
ghost use Rattle.flow_cli.specs.Lines.{lines_written};

use flow_base::fault::Fault;
use flow_lines::drive::write_text;
use flow_lines::output::Output;
use std::alloc::{AllocError, Global};

/// What is told on a line of its own.
pub(crate) trait HasLine {
    /// The bytes of the line.
    ghost text: { Self → List ℕ };

    /// The line, without its end.
    fn line(&self, alloc: Global) -> Result<String, AllocError>
        ensures { IfOk result (λ line. string_bytes line ≡ text self.now) };
}

fn write_one<T: HasLine, O: Output>(alloc: Global, output: &mut O, thing: &T) -> Result<(), Fault>
    ensures all { OnOk result (Appends (O.contents output.old) (O.contents output.new) (T.text thing.now ++ 10 ∷ [])) }
    ensures stopped { IfErr result (λ e. WritesPart e (O.contents output.old) (O.contents output.new) (T.text thing.now ++ 10 ∷ [])) }
    ensures status { IfErr result (λ e. fault_status e ≡ 3) }
    ensures output { O.failed output.new ≡ output_failed result (O.failed output.old) }
    ensures input { (before : Bool) → input_failed result before ≡ before }
{
    let text = thing.line(alloc)?;
    write_text(output, text)
}

/// Writes things, a line for each.
///
/// # Failure
/// Each has the status 3. What was written is then a beginning of the lines, cut within one only where a write failed.
pub(crate) fn write_lines<T: HasLine, O: Output>(
    alloc: Global,
    output: &mut O,
    things: &[T],
) -> Result<(), Fault>
    ensures all { OnOk result (Appends (O.contents output.old) (O.contents output.new) (lines_written T.text things.now)) }
    ensures beginning { IfErr result (λ e. WritesBeginning (O.contents output.old) (O.contents output.new) (lines_written T.text things.now)) }
    ensures status { IfErr result (λ e. fault_status e ≡ 3) }
    // E95 where the output failed, and only there; else memory ran out.
    ensures output { O.failed output.new ≡ output_failed result (O.failed output.old) }
    ensures input { (before : Bool) → input_failed result before ≡ before }
    ensures cause { IfErr result (λ e. (e ≡ Fault.NoMemory _) ⊎ (e ≡ Fault.OutputFailed)) }
{
    for thing in things {
        match write_one(alloc, output, thing) {
            Ok(()) => {}
            Err(fault) => return Err(fault),
        }
    }
    Ok(())
}
