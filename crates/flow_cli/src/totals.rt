//! What `flow verify` says of a store whose runs all replay.
ghost use Rattle.std.specs.Prelude.{◌≡◌, ◌⊎◌, ◌++◌, ◌∷◌, [], Bool, IfOk, IfErr, string_bytes};
ghost use Rattle.std.specs.Io.KnownBytes.{Appends};
ghost use Rattle.flow_lines.specs.Answering.{WritesPart};
ghost use Rattle.flow_lines.specs.Ends.{input_failed, output_failed};
ghost use Rattle.flow_lines.specs.Faults.{fault_status};
ghost use Rattle.flow_cli.specs.Totals.{totals_text};

use flow_base::book::Totals;
use flow_base::fault::Fault;
use flow_lines::drive::write_text;
use flow_lines::output::Output;
use std::alloc::{AllocError, Global};

/// The line of what a store holds, without its end.
pub fn totals_line(alloc: Global, totals: &Totals) -> Result<String, AllocError>
    ensures { IfOk result (λ line. string_bytes line ≡ totals_text totals.now) }
{
    let texts = totals.texts;
    let runs = totals.runs;
    let events = totals.events;
    format!(in alloc; "ok texts={texts} runs={runs} events={events}")
}

/// Writes the line of what a store holds, and gives the status 0.
///
/// # Failure
/// Each has the status 3: E01, and E95 where a write failed.
#[tactic(auto, using(flow_lines::proofs::Endings::same_kept))]
pub fn tell_totals<O: Output>(alloc: Global, output: &mut O, totals: &Totals) -> Result<u8, Fault>
    ensures told { IfOk result (λ n. Appends (O.contents output.old) (O.contents output.new) (totals_text totals.now ++ 10 ∷ [])) }
    ensures status { IfOk result (λ n. n ≡ 0) }
    ensures stopped { IfErr result (λ e. WritesPart e (O.contents output.old) (O.contents output.new) (totals_text totals.now ++ 10 ∷ [])) }
    ensures early { IfErr result (λ e. fault_status e ≡ 3) }
    // E95 where the output failed, and only there; else memory ran out.
    ensures output { O.failed output.new ≡ output_failed result (O.failed output.old) }
    ensures input { (before : Bool) → input_failed result before ≡ before }
    ensures cause { IfErr result (λ e. (e ≡ Fault.NoMemory _) ⊎ (e ≡ Fault.OutputFailed)) }
{
    let line = totals_line(alloc, totals)?;
    match write_text(output, line) {
        Ok(()) => Ok(0),
        Err(fault) => Err(fault),
    }
}
