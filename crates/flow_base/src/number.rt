ghost use Rattle.std.specs.Prelude.{◌≡◌, ◌<◌, ◌≤◌, ◌^◌, ◌↔◌, IsSome, IfSome, max};

use std::marker::Model;

/// The largest number of a run, a text or an event, and the largest attempt.
pub const LAST_NUMBER: u64 = 9223372036854775807;

/// The last moment, in milliseconds.
pub const LAST_MOMENT: u64 = 1000000000000000;

/// The number of a run: from 1, over the whole store.
#[derive(Clone, Copy, Debug, PartialEq, Eq)]
pub struct RunId {
    number: u64,
}

impl Model for RunId {
    ghost use Rattle.std.specs.Prelude.{ℕ, ◌≤◌, ◌<◌, ◌^◌};

    ghost Value = { ℕ };

    ghost view = { λ r. r.number };

    ghost invariant = { λ r. (1 ≤ r.number) × (r.number < 2 ^ 63) };

    ghost inverse = { λ n. record { number = n } };
}

impl RunId {
    /// The run of this number, from 1 to [`LAST_NUMBER`].
    pub fn new(number: u64) -> Option<RunId>
        ensures valid { IsSome result ↔ ((1 ≤ number) × (number < 2 ^ 63)) }
        ensures value { IfSome result (λ r. r ≡ number) }
    {
        if number >= 1 && number <= LAST_NUMBER {
            Some(RunId { number })
        } else {
            None
        }
    }

    /// Its number, from 1 to [`LAST_NUMBER`].
    pub fn get(self) -> u64
        ensures value { result ≡ self }
        ensures first { 1 ≤ result }
        ensures last { result < 2 ^ 63 }
    {
        self.number
    }
}

/// The number of a text: from 1, in order of registration.
#[derive(Clone, Copy, Debug, PartialEq, Eq)]
pub struct TextNo {
    number: u64,
}

impl Model for TextNo {
    ghost use Rattle.std.specs.Prelude.{ℕ, ◌≤◌, ◌<◌, ◌^◌};

    ghost Value = { ℕ };

    ghost view = { λ r. r.number };

    ghost invariant = { λ r. (1 ≤ r.number) × (r.number < 2 ^ 63) };

    ghost inverse = { λ n. record { number = n } };
}

impl TextNo {
    /// The text of this number, from 1 to [`LAST_NUMBER`].
    pub fn new(number: u64) -> Option<TextNo>
        ensures valid { IsSome result ↔ ((1 ≤ number) × (number < 2 ^ 63)) }
        ensures value { IfSome result (λ r. r ≡ number) }
    {
        if number >= 1 && number <= LAST_NUMBER {
            Some(TextNo { number })
        } else {
            None
        }
    }

    /// Its number, from 1 to [`LAST_NUMBER`].
    pub fn get(self) -> u64
        ensures value { result ≡ self }
        ensures first { 1 ≤ result }
        ensures last { result < 2 ^ 63 }
    {
        self.number
    }
}

/// The number of an event in its history: from 1, without gaps.
#[derive(Clone, Copy, Debug, PartialEq, Eq)]
pub struct EventId {
    number: u64,
}

impl Model for EventId {
    ghost use Rattle.std.specs.Prelude.{ℕ, ◌≤◌, ◌<◌, ◌^◌};

    ghost Value = { ℕ };

    ghost view = { λ r. r.number };

    ghost invariant = { λ r. (1 ≤ r.number) × (r.number < 2 ^ 63) };

    ghost inverse = { λ n. record { number = n } };
}

impl EventId {
    /// The event of this number, from 1 to [`LAST_NUMBER`].
    pub fn new(number: u64) -> Option<EventId>
        ensures valid { IsSome result ↔ ((1 ≤ number) × (number < 2 ^ 63)) }
        ensures value { IfSome result (λ r. r ≡ number) }
    {
        if number >= 1 && number <= LAST_NUMBER {
            Some(EventId { number })
        } else {
            None
        }
    }

    /// Its number, from 1 to [`LAST_NUMBER`].
    pub fn get(self) -> u64
        ensures value { result ≡ self }
        ensures first { 1 ≤ result }
        ensures last { result < 2 ^ 63 }
    {
        self.number
    }
}

/// How many open runs are listed together at most: 1 to 256.
#[derive(Clone, Copy, Debug, PartialEq, Eq)]
pub struct Most {
    number: u64,
}

impl Model for Most {
    ghost use Rattle.std.specs.Prelude.{ℕ, ◌≤◌};

    ghost Value = { ℕ };

    ghost view = { λ m. m.number };

    ghost invariant = { λ m. (1 ≤ m.number) × (m.number ≤ 256) };

    ghost inverse = { λ n. record { number = n } };
}

impl Most {
    /// So many, from 1 to 256.
    pub fn new(number: u64) -> Option<Most>
        ensures valid { IsSome result ↔ ((1 ≤ number) × (number ≤ 256)) }
        ensures value { IfSome result (λ m. m ≡ number) }
    {
        if number >= 1 && number <= 256 {
            Some(Most { number })
        } else {
            None
        }
    }

    /// How many, 1 to 256.
    pub fn get(self) -> u64
        ensures value { result ≡ self }
        ensures first { 1 ≤ result }
        ensures last { result ≤ 256 }
    {
        self.number
    }
}

/// How many commands are applied together at most: 1 to 64.
#[derive(Clone, Copy, Debug, PartialEq, Eq)]
pub struct BatchSize {
    number: u64,
}

impl Model for BatchSize {
    ghost use Rattle.std.specs.Prelude.{ℕ, ◌≤◌};

    ghost Value = { ℕ };

    ghost view = { λ s. s.number };

    ghost invariant = { λ s. (1 ≤ s.number) × (s.number ≤ 64) };

    ghost inverse = { λ n. record { number = n } };
}

impl BatchSize {
    /// This size, from 1 to 64.
    pub fn new(number: u64) -> Option<BatchSize>
        ensures valid { IsSome result ↔ ((1 ≤ number) × (number ≤ 64)) }
        ensures value { IfSome result (λ s. s ≡ number) }
    {
        if number >= 1 && number <= 64 {
            Some(BatchSize { number })
        } else {
            None
        }
    }

    /// How many commands a batch has, 1 to 64.
    pub fn get(self) -> u64
        ensures value { result ≡ self }
        ensures first { 1 ≤ result }
        ensures last { result ≤ 64 }
    {
        self.number
    }
}

/// Milliseconds, from 0 to [`LAST_MOMENT`].
#[derive(Clone, Copy, Debug, PartialEq, Eq)]
pub struct Moment {
    milliseconds: u64,
}

impl Model for Moment {
    ghost use Rattle.std.specs.Prelude.{ℕ, ◌≤◌};

    ghost Value = { ℕ };

    ghost view = { λ m. m.milliseconds };

    ghost invariant = { λ m. m.milliseconds ≤ 1000000000000000 };

    ghost inverse = { λ n. record { milliseconds = n } };
}

impl Moment {
    /// The moment after so many milliseconds, up to [`LAST_MOMENT`].
    pub fn new(milliseconds: u64) -> Option<Moment>
        ensures valid { IsSome result ↔ (milliseconds ≤ LAST_MOMENT) }
        ensures value { IfSome result (λ m. m ≡ milliseconds) }
    {
        if milliseconds <= LAST_MOMENT {
            Some(Moment { milliseconds })
        } else {
            None
        }
    }

    /// The last one that there is.
    pub fn last() -> Moment
        ensures { result ≡ LAST_MOMENT }
    {
        Moment {
            milliseconds: LAST_MOMENT,
        }
    }

    /// Its milliseconds, from 0 to 10^15.
    pub fn get(self) -> u64
        ensures value { result ≡ self }
        ensures last { result ≤ LAST_MOMENT }
    {
        self.milliseconds
    }

    /// The later of the two.
    pub fn max(self, other: Moment) -> Moment
        ensures { result ≡ max self other }
    {
        if self.milliseconds < other.milliseconds {
            other
        } else {
            self
        }
    }
}
