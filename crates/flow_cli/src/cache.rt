//! How many positions of runs are kept in memory.
ghost use Rattle.std.specs.Prelude.{◌≡◌, ◌≤◌, ◌↔◌, IsSome, IfSome};

use std::marker::Model;

/// How many positions of runs are kept in memory at most: 1 to 4,096.
#[derive(Clone, Copy, Debug, PartialEq, Eq)]
pub struct CacheSize {
    number: u64,
}

impl Model for CacheSize {
    ghost use Rattle.std.specs.Prelude.{ℕ, ◌≤◌};

    ghost Value = { ℕ };

    ghost view = { λ s. s.number };

    ghost invariant = { λ s. (1 ≤ s.number) × (s.number ≤ 4096) };

    ghost inverse = { λ n. record { number = n } };
}

impl CacheSize {
    /// This size, from 1 to 4,096.
    pub fn new(number: u64) -> Option<CacheSize>
        ensures valid { IsSome result ↔ ((1 ≤ number) × (number ≤ 4096)) }
        ensures value { IfSome result (λ s. s ≡ number) }
    {
        if number >= 1 && number <= 4096 {
            Some(CacheSize { number })
        } else {
            None
        }
    }

    /// How many positions are kept, 1 to 4,096.
    pub fn get(self) -> u64
        ensures value { result ≡ self }
        ensures first { 1 ≤ result }
        ensures last { result ≤ 4096 }
    {
        self.number
    }
}
