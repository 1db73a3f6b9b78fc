//! Commands at another moment.
ghost use Rattle.std.specs.Prelude.{◌≡◌};
ghost use Rattle.flow_work.specs.Moments as words;

use flow_base::command::{Command, Complete, Fail, Start};
use flow_base::number::Moment;

/// The command at this moment; one that has no moment, as it is.
pub fn command_at(command: Command, at: Moment) -> Command
    ensures { result ≡ words.command_at command at }
{
    match command {
        Command::Start(asked) => Command::Start(Start { at, ..asked }),
        Command::Signal(request, flow, name, value, _) => {
            Command::Signal(request, flow, name, value, at)
        }
        Command::Complete(asked) => Command::Complete(Complete { at, ..asked }),
        Command::Fail(asked) => Command::Fail(Fail { at, ..asked }),
        Command::Tick(_) => Command::Tick(at),
        Command::Terminate(run, reason, _) => Command::Terminate(run, reason, at),
        Command::Register(src) => Command::Register(src),
        Command::Upgrade(run, text) => Command::Upgrade(run, text),
        Command::Describe(run) => Command::Describe(run),
        Command::History(run) => Command::History(run),
        Command::Open(from, most) => Command::Open(from, most),
    }
}
