//! How long to wait before something is tried once more.
ghost use Rattle.std.specs.Prelude.{◌≡◌};
ghost use Rattle.flow_timers.specs.Pausing.{longer, pause_after};

use std::marker::Model;
use std::thread;
use std::time::{Clock as Timing, Duration};

/// The longest pause, in milliseconds.
const LONGEST: u64 = 1_000;

/// How long to wait before something that was refused is tried once more: a millisecond at first, then twice as long each time, and a
/// second at most. What was refused may be refused for long, as while a disk is full, and trying without a pause takes a processor. To a
/// contract it is its milliseconds.
#[derive(Clone, Copy, Debug, PartialEq, Eq)]
pub struct Pause {
    milliseconds: u64,
}

impl Model for Pause {
    ghost use Rattle.std.specs.Prelude.{ℕ, ◌≤◌};

    ghost Value = { ℕ };

    ghost view = { λ p. p.milliseconds };

    ghost invariant = { λ p. p.milliseconds ≤ 1000 };

    ghost inverse = { λ n. record { milliseconds = n } };
}

impl Pause {
    /// Before the first try.
    pub fn new() -> Pause
        ensures { result ≡ 1 }
    {
        Pause { milliseconds: 1 }
    }

    /// Sleeps so long. The next pause is longer.
    pub fn wait<T: Timing>(&mut self, timing: &T)
        ensures { self.new ≡ longer self.old }
    {
        thread::sleep(timing, Duration::from_millis(self.milliseconds));
        self.milliseconds = (self.milliseconds * 2).min(LONGEST);
    }

    /// Begins anew if it was done. If it was refused it sleeps.
    pub fn wait_unless<T: Timing>(&mut self, timing: &T, done: bool)
        ensures { self.new ≡ pause_after done self.old }
    {
        if done {
            *self = Pause::new();
        } else {
            self.wait(timing);
        }
    }
}
