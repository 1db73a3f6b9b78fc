//! Counting, with no call refused.
ghost use Rattle.std.specs.Prelude.{◌≡◌, false, None};
ghost use Rattle.flow_crash.specs.Numbers.{Rises};

use crate::calls::{Calls, Part};
use crate::rule::Rule;

/// Counts the calls of one file.
#[derive(Drop)]
pub struct Counting {
    calls: Calls,
    last: u64,
}

impl Counting {
    ghost use Rattle.flow_crash.specs.Counted.{last_of};

    /// With the count of the calls of its store.
    pub fn new(calls: Calls) -> Counting
        ensures { last_of result ≡ 0 }
    {
        Counting { calls, last: 0 }
    }
}

impl Rule for Counting {
    ghost last_of = { λ r. r.last };

    ghost refusals_of = { λ _. 0 };

    ghost fate = { λ _ _. None };

    ghost steps = { λ old new. Rises old.last new.last };

    ghost is_tearing = { false };

    fn tears() -> bool {
        false
    }

    fn ask(&mut self) -> Option<Part> {
        self.last = self.calls.next_after(self.last);
        None
    }

    fn last(&self) -> u64 {
        self.last
    }

    fn refusals(&self) -> u64 {
        0
    }
}
