//! What a program says of a fault, and the status that it ends with.
ghost use Rattle.std.specs.Prelude.{◌≡◌, ◌⊎◌, IfOk, string_bytes};
ghost use Rattle.std.specs.declared.io.ErrorKind.TheVariants.{OutOfMemory};
ghost use Rattle.flow_lines.specs.Faults as words;
ghost use Rattle.flow_lines.specs.Faults.{fault_details, fault_text, short_text, fault_status};
ghost use Rattle.flow_base.specs.declared.fault.Fault.TheVariants.{Damaged};

use flow_base::fault::{Damage, Fault};
use flow_base::memory::NoMemory;
use flow_model::answer::Stop;
use std::alloc::{AllocError, Global};
use std::io::ErrorKind;

fn damage_details(alloc: Global, damage: &Damage) -> Result<String, AllocError>
    ensures { IfOk result (λ s. string_bytes s ≡ fault_details (Damaged damage.now)) }
{
    let table = damage.table.name();
    let run = damage.run;
    let place = damage.place;
    match damage.cause {
        Some(cause) => format!(in alloc; " {table} {run} {place} {cause}"),
        None => format!(in alloc; " {table} {run} {place}"),
    }
}

/// What stands behind the code of a fault.
fn details(alloc: Global, fault: &Fault) -> Result<String, AllocError>
    ensures { IfOk result (λ s. string_bytes s ≡ fault_details fault.now) }
{
    match fault {
        Fault::Mismatch { run, place, name } => {
            let run = run.get();
            let name = name.code();
            format!(in alloc; " {run} {place} {name}")
        }
        Fault::Damaged(damage) => damage_details(alloc, damage),
        _ => Ok(String::new(alloc)),
    }
}

/// The line of a fault on standard error, without its end.
pub fn fault_line(alloc: Global, fault: &Fault) -> Result<String, AllocError>
    ensures { IfOk result (λ line. string_bytes line ≡ fault_text fault.now) }
{
    let code = fault.code();
    let details = details(alloc, fault)?;
    format!(in alloc; "flow: {code}{details}")
}

/// The number of a fault, as its line begins, where no memory is left for the line.
pub fn short_line(fault: &Fault) -> [u8; 9]
    ensures { result ≡ short_text fault.now }
{
    let number = fault.code().number();
    let tens = b'0' + number / 10;
    let ones = b'0' + number % 10;
    [b'f', b'l', b'o', b'w', b':', b' ', b'E', tens, ones]
}

/// The status that a program ends with after the fault.
pub fn status(fault: &Fault) -> u8
    ensures { result ≡ fault_status fault.now }
{
    match fault {
        Fault::Mismatch { .. } | Fault::NoRun => 1,
        Fault::NoFile | Fault::BadSettings | Fault::BadUsage => 2,
        Fault::NoMemory(_)
        | Fault::StoreRefused
        | Fault::NotOurs
        | Fault::BadVersion
        | Fault::Damaged(_)
        | Fault::Unknown
        | Fault::Halted
        | Fault::InputFailed
        | Fault::OutputFailed => 3,
    }
}

/// The fault of a command that has no answer.
pub fn fault_of_stop(stop: Stop) -> Fault
    ensures { result ≡ words.fault_of_stop stop }
{
    match stop {
        Stop::Unknown => Fault::Unknown,
        Stop::Halted => Fault::Halted,
    }
}

/// The fault of a file or of words that can't be read: E01 where memory ran out, and else the other one.
pub fn fault_of_error(kind: ErrorKind, other: Fault) -> Fault
    ensures memory { kind ≡ OutOfMemory → result ≡ Fault.NoMemory _ }
    ensures other { (result ≡ other) ⊎ (kind ≡ OutOfMemory) }
{
    match kind {
        ErrorKind::OutOfMemory => Fault::NoMemory(NoMemory::told()),
        _ => other,
    }
}
