//! What the program ends with.
ghost use Rattle.std.specs.Prelude.{◌≡◌, ◌≤◌, max};
ghost use Rattle.flow_lines.specs.Driving.{answer_status};

use flow_lines::reply::Line;
use std::marker::Model;

/// A status that the program may end with, 0 to 3.
#[derive(Clone, Copy, Debug, PartialEq, Eq)]
pub struct Status {
    number: u8,
}

impl Model for Status {
    ghost use Rattle.std.specs.Prelude.{ℕ, ◌≤◌};

    ghost Value = { ℕ };

    ghost view = { λ s. s.number };

    ghost invariant = { λ s. s.number ≤ 3 };

    ghost inverse = { λ n. record { number = n } };
}

impl Status {
    /// All was answered.
    pub fn done() -> Status
        ensures { result ≡ 0 }
    {
        Status { number: 0 }
    }

    /// Something couldn't be read, written or kept.
    pub fn failed() -> Status
        ensures { result ≡ 3 }
    {
        Status { number: 3 }
    }

    /// That of a line of output: 1 behind a line that is no command, 3 behind a command that wasn't applied.
    pub fn of_line(line: &Line) -> Status
        ensures { result ≡ answer_status line.now }
    {
        match line {
            Line::Of(_) => Status { number: 0 },
            Line::Bad => Status { number: 1 },
            Line::NotApplied(_) => Status { number: 3 },
        }
    }

    /// The greater of the two.
    pub fn or(self, other: Status) -> Status
        ensures { result ≡ max self other }
    {
        if self.number < other.number {
            other
        } else {
            self
        }
    }

    /// Its number.
    pub fn get(self) -> u8
        ensures value { result ≡ self }
        ensures last { result ≤ 3 }
    {
        self.number
    }
}
