//! One call that fails.
ghost use Rattle.std.specs.Prelude.{◌≡◌, false};
ghost use Rattle.flow_crash.specs.Numbers.{Rises};
ghost use Rattle.flow_crash.specs.Numbering.{failed_by};

use crate::calls::{Calls, Part};
use crate::rule::Rule;

/// Refuses one call, and nothing of it is carried out. All others are passed on.
#[derive(Drop)]
pub struct FailAt {
    calls: Calls,
    at: u64,
    last: u64,
    refusals: u64,
}

impl FailAt {
    ghost use Rattle.flow_crash.specs.Failing.{at_of, IsFresh};

    /// With the count of the calls of its store, and the number of the one that fails.
    pub fn new(calls: Calls, at: u64) -> FailAt
        ensures at { at_of result ≡ at }
        ensures fresh { IsFresh result }
    {
        FailAt {
            calls,
            at,
            last: 0,
            refusals: 0,
        }
    }
}

impl Rule for FailAt {
    ghost last_of = { λ r. r.last };

    ghost refusals_of = { λ r. r.refusals };

    ghost fate = { λ old new. failed_by old.at new.last };

    ghost steps = { λ old new. (new.at ≡ old.at) × Rises old.last new.last };

    ghost is_tearing = { false };

    fn tears() -> bool {
        false
    }

    fn ask(&mut self) -> Option<Part> {
        self.last = self.calls.next_after(self.last);
        if self.last == self.at {
            self.refusals = self.refusals.saturating_add(1);
            return Some(Part::Before);
        }
        None
    }

    fn last(&self) -> u64 {
        self.last
    }

    fn refusals(&self) -> u64 {
        self.refusals
    }
}
