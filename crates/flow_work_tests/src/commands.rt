//! The commands of these tests.
use flow_base::command::Command;
use flow_base::number::RunId;

/// Asks for a run. It takes no memory.
pub fn describe(run: u64) -> Option<Command> {
    Some(Command::Describe(RunId::new(run)?))
}

/// The run that a command asks for, 0 of any other command.
pub fn asked_run(command: &Command) -> u64 {
    match command {
        Command::Describe(run) => run.get(),
        _ => 0,
    }
}
