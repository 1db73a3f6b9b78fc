//! The calls that check texts.
ghost use Rattle.std.specs.Prelude.{◌≡◌, Ok, Err, IfOk, IfErr};
ghost use Rattle.std.specs.IoError.{error_kind};
ghost use Rattle.std.specs.declared.io.Error.{Error as IoError};
ghost use Rattle.flow_cli.specs.Telling.{Tells};
ghost use Rattle.flow.specs.Ends.{Ends};
ghost use Rattle.flow.specs.Reading.{IsUnread, Reads};
ghost use Rattle.flow.specs.Telling.{tells_safety, tells_settlement, tells_verdict};

use crate::ends::early;
use crate::system::System;
use flow_base::fault::Fault;
use flow_base::memory::NoMemory;
use flow_check::language::Language;
use flow_cli::check::tell_verdict;
use flow_cli::reason::Early;
use flow_cli::safety::tell_safety;
use flow_cli::settlement::tell_settlement;
use flow_lines::output::Output;
use std::alloc::Global;
use std::io::ErrorKind;

/// The end of a call whose file can't be read: E01 where memory ran out, and else E93 and why.
pub fn unread(alloc: Global, file: &str, kind: ErrorKind) -> Early
    ensures { IsUnread file.now kind result }
{
    match kind {
        ErrorKind::OutOfMemory => Early::from(Fault::NoMemory(NoMemory::told())),
        _ => Early::unread(alloc, Fault::NoFile, file, kind),
    }
}

/// The text of a file.
pub fn text_in<H: System>(alloc: Global, system: &H, file: &str) -> Result<String, Early>
    ensures read { IfOk result (λ text. H.reads system.now file.now (Ok text)) }
    ensures unread { IfErr result (λ e. (error : IoError)
        × (H.reads system.now file.now (Err error) × IsUnread file.now (error_kind error) e)) }
{
    match system.text(file) {
        Ok(text) => Ok(text),
        Err(error) => Err(unread(alloc, file, error.kind())),
    }
}

/// Tells whether the text of a file is a program.
pub fn check<H: System, O: Output, P: Output>(
    alloc: Global,
    system: &H,
    output: &mut O,
    errors: &mut P,
    file: &str,
) -> Result<u8, Early>
    ensures { Reads (H.reads system.now) file.now ((output.new ≡ output.old) × (errors.new ≡ errors.old))
        (λ text. Ends (Tells O.Output P.Output (tells_verdict text) output.old output.new errors.old errors.new)) result }
{
    let text = text_in(alloc, system, file)?;
    early(tell_verdict(alloc, &Language, output, errors, text.as_str()))
}

/// Tells whether a change is safe. Both files are read before one is checked.
pub fn safe<H: System, O: Output, P: Output>(
    alloc: Global,
    system: &H,
    output: &mut O,
    errors: &mut P,
    old: &str,
    new: &str,
) -> Result<u8, Early>
    ensures { Reads (H.reads system.now) old.now ((output.new ≡ output.old) × (errors.new ≡ errors.old))
        (λ first. Reads (H.reads system.now) new.now ((output.new ≡ output.old) × (errors.new ≡ errors.old))
        (λ then. Ends (Tells O.Output P.Output (tells_safety first then) output.old output.new errors.old errors.new))) result }
{
    let old = text_in(alloc, system, old)?;
    let new = text_in(alloc, system, new)?;
    early(tell_safety(alloc, &Language, output, errors, old.as_str(), new.as_str()))
}

/// Tells which patches a change settles. Both files are read before one is checked.
pub fn settle<H: System, O: Output, P: Output>(
    alloc: Global,
    system: &H,
    output: &mut O,
    errors: &mut P,
    old: &str,
    new: &str,
) -> Result<u8, Early>
    ensures { Reads (H.reads system.now) old.now ((output.new ≡ output.old) × (errors.new ≡ errors.old))
        (λ first. Reads (H.reads system.now) new.now ((output.new ≡ output.old) × (errors.new ≡ errors.old))
        (λ then. Ends (Tells O.Output P.Output (tells_settlement first then) output.old output.new errors.old errors.new))) result }
{
    let old = text_in(alloc, system, old)?;
    let new = text_in(alloc, system, new)?;
    early(tell_settlement(alloc, &Language, output, errors, old.as_str(), new.as_str()))
}
