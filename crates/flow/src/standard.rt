//! What is done over an open store, from the lines of the input to the output.
ghost use Rattle.flow.specs.Working.{Lists, Performed};

use crate::system::System;
use flow_base::fault::Fault;
use flow_cli::listing::tell_open;
use flow_cli::work::{Work, perform};
use flow_lines::fault::fault_of_error;
use flow_lines::output::Output;
use flow_model::answer::Answering;
use std::alloc::Global;

/// Does it from the lines of the input to the output.
///
/// # Failure
/// As of `perform`; E94 where the input can't be made, E01 where memory ran out.
pub fn performed<H: System, O: Output, E: Answering>(
    alloc: Global,
    system: &H,
    engine: &mut E,
    output: &mut O,
    work: &Work,
) -> Result<u8, Fault>
    ensures { Performed E.Answering H.Lines.LineSource O.Output
        (H.gives system.now) work.now engine.old engine.new output.old output.new result }
{
    let mut lines = match system.lines() {
        Ok(lines) => lines,
        Err(error) => return Err(fault_of_error(error.kind(), Fault::InputFailed)),
    };
    perform(alloc, engine, &mut lines, output, work)
}

/// Lists the open runs.
///
/// # Failure
/// As of `tell_open`.
pub fn listed<O: Output, E: Answering>(
    alloc: Global,
    engine: &mut E,
    output: &mut O,
) -> Result<u8, Fault>
    ensures { Lists E.Answering O.Output engine.old engine.new output.old output.new result }
{
    tell_open(alloc, engine, output)
}
