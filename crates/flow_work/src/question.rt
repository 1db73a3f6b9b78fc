//! Lines that are commands, and those that ask.
ghost use Rattle.flow_lines.specs.Faults.{GivesLine};
ghost use Rattle.flow_work.specs.Questions.{line_served, read_as};

use flow_base::command::Command;
use flow_lines::ask::asked_of;
use flow_lines::command::{LineFault, command_of};
use std::alloc::Global;

/// Which lines are read as commands.
#[derive(Clone, Copy, Debug)]
pub(crate) enum Accepted {
    /// Those that spell one.
    Commands,
    /// Those too that ask which runs are open.
    QuestionsToo,
}

/// The command that a line is, or else the question.
#[tactic(auto, using(crate::proofs::Questions::by_command, crate::proofs::Questions::by_question))]
fn served_of(alloc: Global, line: &[u8]) -> Result<Command, LineFault>
    ensures { GivesLine result (line_served line.now) }
{
    match command_of(alloc, line) {
        Ok(command) => Ok(command),
        Err(LineFault::NotACommand) => asked_of(alloc, line),
        Err(LineFault::NoMemory(no_memory)) => Err(LineFault::NoMemory(no_memory)),
    }
}

/// The command that a line is.
///
/// # Failure
/// E02 where it is none, E01 where memory runs out.
pub(crate) fn read_as(alloc: Global, accepted: Accepted, line: &[u8]) -> Result<Command, LineFault>
    ensures { GivesLine result (read_as accepted line.now) }
{
    match accepted {
        Accepted::Commands => command_of(alloc, line),
        Accepted::QuestionsToo => served_of(alloc, line),
    }
}
