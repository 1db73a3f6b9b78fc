//! When timers are to fire: a clock, and the command that fires what is due. And how long to wait before something is tried once more.
#![tactic(auto)]

pub mod pause;
#[cfg(test)]
mod tests;

ghost use Rattle.std.specs.Prelude.{◌≡◌};
ghost use Rattle.flow_timers.specs.Due.{due_tick};

use flow_base::command::Command;
use flow_base::number::Moment;

/// What tells the moment.
pub trait Clock {
    ghost use Rattle.std.specs.Prelude.{ℕ};

    /// Which moments it may tell. Who is given a clock of any kind knows of none but those that `now` gave.
    ghost tells: { Self → ℕ → Type 0 };

    fn now(&self) -> Moment
        ensures { tells self.now result };
}

/// The command that fires what is due: a tick at this moment exactly where a timer is due and not later than now.
pub fn tick_due(due: Option<Moment>, now: Moment) -> Option<Command>
    ensures { result ≡ due_tick due now }
{
    match due {
        Some(moment) => {
            if moment.get() <= now.get() {
                Some(Command::Tick(now))
            } else {
                None
            }
        }
        None => None,
    }
}
