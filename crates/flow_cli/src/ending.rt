//! How the program ends: what it says of an early end, and its status.
ghost use Rattle.std.specs.Prelude.{◌≡◌, ◌⊎◌, true, IfOk, IfErr, IfSome, IfNone, OnOk};
ghost use Rattle.std.specs.Io.KnownBytes.{Appends};
ghost use Rattle.flow_cli.specs.Ending.{SaysAll, SaysEarly};
ghost use Rattle.flow_cli.specs.Reasons.{reason_text};
ghost use Rattle.flow_lines.specs.Driving.{WritesBeginning};
ghost use Rattle.flow_lines.specs.Ending.{SaysFirst};
ghost use Rattle.flow_lines.specs.Ends.{write_failed};
ghost use Rattle.flow_lines.specs.Faults.{fault_status};

use crate::reason::{Early, MEMORY, Reason};
use flow_lines::ending::say_fault;
use flow_lines::fault::status;
use flow_lines::output::{Output, Unwritten};
use std::alloc::Global;

/// Says why, in the lines behind that of the fault. That memory ran out is said without any.
#[tactic(auto, using(flow_lines::proofs::Endings::none_written))]
pub fn say_reason<O: Output>(
    alloc: Global,
    errors: &mut O,
    reason: &Reason,
) -> Result<(), Unwritten>
    ensures all { OnOk result (Appends (O.contents errors.old) (O.contents errors.new) (reason_text reason.now)) }
    ensures beginning { WritesBeginning (O.contents errors.old) (O.contents errors.new) (reason_text reason.now) }
    ensures failed { O.failed errors.new ≡ write_failed result (O.failed errors.old) }
{
    if let Reason::Memory = reason {
        return errors.put(MEMORY.as_bytes());
    }
    let lines = reason.lines(alloc)?;
    let done = errors.put(lines.as_bytes())?;
    Ok(done)
}

/// Says a fault and why.
#[tactic(auto, using(crate::proofs::Endings::fault_begun, crate::proofs::Endings::early_begun, crate::proofs::Endings::early_first, crate::proofs::Endings::early_said))]
fn say_early<O: Output>(alloc: Global, errors: &mut O, early: &Early) -> Result<(), Unwritten>
    ensures said { SaysEarly early.now (O.contents errors.old) (O.contents errors.new) }
    ensures all { OnOk result (SaysAll early.now (O.contents errors.old) (O.contents errors.new)) }
    ensures failed { O.failed errors.new ≡ write_failed result (O.failed errors.old) }
    ensures first { SaysFirst early.now.fault (O.contents errors.old) (O.contents errors.new)
        ⊎ ((O.failed errors.new ≡ true) ⊎ (O.ran_out errors.new ≡ true)) }
{
    match say_fault(alloc, errors, &early.fault) {
        Ok(()) => say_reason(alloc, errors, &early.reason),
        Err(unwritten) => Err(unwritten),
    }
}

/// How the program ends: the status, and why not all was said of an early end, if it wasn't.
#[derive(Clone, Copy, Debug, PartialEq, Eq)]
pub struct End {
    pub status: u8,
    pub unsaid: Option<Unwritten>,
}

/// Says why the program ended early, if it did: on one line, and in the lines of the reason behind it. That they can't be written
/// changes nothing of the status.
pub fn ended_early<O: Output>(alloc: Global, errors: &mut O, outcome: &Result<u8, Early>) -> End
    ensures done { IfOk outcome.now (λ n. (result.status ≡ n) × (errors.new ≡ errors.old)) }
    ensures early { IfErr outcome.now (λ e. result.status ≡ fault_status e.fault) }
    ensures said { IfErr outcome.now (λ e. SaysEarly e (O.contents errors.old) (O.contents errors.new)) }
    // All is said, or memory was refused, or a write failed there.
    ensures all { IfErr outcome.now (λ e. IfNone result.unsaid (SaysAll e (O.contents errors.old) (O.contents errors.new))) }
    ensures failed { IfErr outcome.now (λ e. IfSome result.unsaid (λ u. u ≡ Unwritten.Failed → O.failed errors.new ≡ true)) }
    // Where nothing has failed there the line of the fault, or of its number, stands there first.
    ensures first { IfErr outcome.now (λ e. SaysFirst e.fault (O.contents errors.old) (O.contents errors.new)
        ⊎ ((O.failed errors.new ≡ true) ⊎ (O.ran_out errors.new ≡ true))) }
{
    match outcome {
        Ok(status) => End {
            status: *status,
            unsaid: None,
        },
        Err(early) => {
            let status = status(&early.fault);
            match say_early(alloc, errors, early) {
                Ok(()) => End {
                    status,
                    unsaid: None,
                },
                Err(unwritten) => End {
                    status,
                    unsaid: Some(unwritten),
                },
            }
        }
    }
}
