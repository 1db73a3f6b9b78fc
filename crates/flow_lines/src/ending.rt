//! How a program ends: what it says of a fault, and its status.
ghost use Rattle.std.specs.Prelude.{◌≡◌, ◌⊎◌, ◌++◌, ◌∷◌, [], true, IfOk, IfErr, OnOk, string_bytes};
ghost use Rattle.std.specs.Io.KnownBytes.{Appends};
ghost use Rattle.flow_lines.specs.Driving.{WritesBeginning};
ghost use Rattle.flow_lines.specs.Ending.{SaysFault, SaysFirst, SaysLine};
ghost use Rattle.flow_lines.specs.Ends.{write_failed, write_ran_out};
ghost use Rattle.flow_lines.specs.Faults.{fault_status, fault_text};

use crate::fault::{fault_line, short_line, status};
use crate::output::{Output, Unwritten, with_end};
use flow_base::fault::Fault;
use std::alloc::{AllocError, Global};

/// Writes a text and then another one.
#[tactic(auto, using(crate::proofs::Endings::first_begun, crate::proofs::Endings::both_begun, crate::proofs::Endings::both_written))]
fn put_both<O: Output>(output: &mut O, first: &[u8], then: &[u8]) -> Result<(), Unwritten>
    ensures all { OnOk result (Appends (O.contents output.old) (O.contents output.new) (first.now ++ then.now)) }
    ensures beginning { WritesBeginning (O.contents output.old) (O.contents output.new) (first.now ++ then.now) }
    ensures failed { O.failed output.new ≡ write_failed result (O.failed output.old) }
    ensures ran_out { O.ran_out output.new ≡ write_ran_out result (O.ran_out output.old) }
{
    match output.put(first) {
        Ok(()) => match output.put(then) {
            Ok(()) => Ok(()),
            Err(unwritten) => Err(unwritten),
        },
        Err(unwritten) => Err(unwritten),
    }
}

/// The line of a fault, with its end.
fn whole_line(alloc: Global, fault: &Fault) -> Result<String, AllocError>
    ensures { IfOk result (λ line. string_bytes line ≡ fault_text fault.now ++ 10 ∷ []) }
{
    with_end(fault_line(alloc, fault)?)
}

/// Says a fault. Where no memory is left for its line, its number is said alone, so E01 is always said.
pub fn say_fault<O: Output>(alloc: Global, errors: &mut O, fault: &Fault) -> Result<(), Unwritten>
    ensures said { SaysFault fault.now (O.contents errors.old) (O.contents errors.new) }
    ensures first { OnOk result (SaysFirst fault.now (O.contents errors.old) (O.contents errors.new)) }
    ensures line { OnOk result (SaysLine fault.now (O.contents errors.old) (O.contents errors.new)) }
    ensures failed { O.failed errors.new ≡ write_failed result (O.failed errors.old) }
    ensures ran_out { O.ran_out errors.new ≡ write_ran_out result (O.ran_out errors.old) }
{
    match whole_line(alloc, fault) {
        Ok(line) => {
            let done = errors.put(line.as_bytes())?;
            Ok(done)
        }
        Err(_) => {
            let done = put_both(errors, &short_line(fault), b"\n")?;
            Ok(done)
        }
    }
}

/// Says on one line why the program ended early, if it did, and gives the status that it ends with. That the line can't be
/// written changes nothing.
pub fn ended<O: Output>(alloc: Global, errors: &mut O, outcome: &Result<u8, Fault>) -> u8
    ensures done { IfOk outcome.now (λ n. (result ≡ n) × (errors.new ≡ errors.old)) }
    ensures early { IfErr outcome.now (λ f. result ≡ fault_status f) }
    ensures said { IfErr outcome.now (λ f. SaysFault f (O.contents errors.old) (O.contents errors.new)) }
    // Where nothing has failed there the line of the fault, or of its number, stands there first.
    ensures first { IfErr outcome.now (λ f. SaysFirst f (O.contents errors.old) (O.contents errors.new)
        ⊎ ((O.failed errors.new ≡ true) ⊎ (O.ran_out errors.new ≡ true))) }
{
    match outcome {
        Ok(status) => *status,
        Err(fault) => {
            let _said = say_fault(alloc, errors, fault);
            status(fault)
        }
    }
}
