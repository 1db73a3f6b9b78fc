//! What is told of texts: a line, marks on standard error, and a status.
ghost use Rattle.std.specs.Prelude.{◌≡◌, ◌⊎◌, ◌++◌, ◌∷◌, [], Bool, IfErr, OnOk, string_bytes};
ghost use Rattle.std.specs.Io.KnownBytes.{Appends};
ghost use Rattle.flow_lines.specs.Answering.{WritesPart};
ghost use Rattle.flow_lines.specs.Ends.{input_failed, output_failed};
ghost use Rattle.flow_lines.specs.Faults.{fault_status};
ghost use Rattle.flow_cli.specs.Places.{IsMarked};
ghost use Rattle.flow_cli.specs.Telling.{telling, Tells};

use flow_base::fault::Fault;
use flow_lines::drive::write_text;
use flow_lines::output::Output;

/// Writes an answer as a line, and the marks that belong to it as errors. That these can't be written changes nothing.
#[tactic(auto, using(crate::proofs::Marks::marked_by))]
fn write_marked<O: Output, P: Output>(
    output: &mut O,
    errors: &mut P,
    line: String,
    marks: &[u8],
) -> Result<(), Fault>
    ensures all { OnOk result (Appends (O.contents output.old) (O.contents output.new) (string_bytes line ++ 10 ∷ [])) }
    ensures stopped { IfErr result (λ f. WritesPart f (O.contents output.old) (O.contents output.new) (string_bytes line ++ 10 ∷ [])) }
    ensures output { O.failed output.new ≡ output_failed result (O.failed output.old) }
    ensures input { (before : Bool) → input_failed result before ≡ before }
    ensures status { IfErr result (λ f. fault_status f ≡ 3) }
    ensures cause { IfErr result (λ f. (f ≡ Fault.NoMemory _) ⊎ (f ≡ Fault.OutputFailed)) }
    ensures marked { OnOk result (IsMarked (P.contents errors.old) (P.contents errors.new) (P.failed errors.new)
        (P.ran_out errors.new) marks.now) }
    ensures unmarked { IfErr result (λ f. errors.new ≡ errors.old) }
{
    match write_text(output, line) {
        Ok(()) => {
            let _marked = errors.put(marks);
            Ok(())
        }
        Err(fault) => Err(fault),
    }
}

/// Tells an answer: writes its line, and as errors what is marked, and gives its status.
///
/// # Failure
/// Each has the status 3: E01, and E95 where a write failed.
pub(crate) fn tell<O: Output, P: Output>(
    output: &mut O,
    errors: &mut P,
    line: String,
    marks: &[u8],
    status: u8,
) -> Result<u8, Fault>
    ensures { Tells O.Output P.Output (telling (string_bytes line) marks.now status) output.old output.new errors.old errors.new result }
{
    match write_marked(output, errors, line, marks) {
        Ok(()) => Ok(status),
        Err(fault) => Err(fault),
    }
}
