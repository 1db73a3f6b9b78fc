//! A stop at one call.
ghost use Rattle.std.specs.Prelude.{◌≡◌, ◌<◌, ◌≤◌, true, IsSome};
ghost use Rattle.sqlite_disk.specs.Disk.{MoreFaults};
ghost use Rattle.flow_crash.specs.Numbering.{fate};
ghost use Rattle.flow_crash.specs.Stopping.{has_met, Goes};

use crate::calls::{Calls, Part, Stop};
use crate::rule::Rule;

/// Passes calls on up to the one at which a store stops, and refuses that one and all later ones.
#[derive(Drop)]
pub struct StopAt {
    calls: Calls,
    stop: Stop,
    /// The number of the last call up to the stop, 0 before the first.
    last: u64,
    refusals: u64,
}

impl StopAt {
    ghost use Rattle.flow_crash.specs.Stopping.{stop_of, IsFresh};

    /// With the count of the calls of its store, and where it stops.
    pub fn new(calls: Calls, stop: Stop) -> StopAt
        ensures stop { stop_of result ≡ stop }
        ensures fresh { IsFresh result }
    {
        StopAt {
            calls,
            stop,
            last: 0,
            refusals: 0,
        }
    }

    fn refuse(&mut self)
        ensures counts { MoreFaults self.old.refusals self.new.refusals × (self.old.refusals ≤ self.new.refusals) }
        ensures same { (self.new.stop ≡ self.old.stop) × (self.new.last ≡ self.old.last) }
    {
        self.refusals = self.refusals.saturating_add(1);
    }
}

impl Rule for StopAt {
    ghost last_of = { λ r. r.last };

    ghost refusals_of = { λ r. r.refusals };

    ghost fate = { λ old new. fate old.stop old.last new.last };

    ghost steps = { Goes };

    ghost is_tearing = { true };

    ghost has_stopped = { λ r. has_met r.stop.at r.last };

    fn tears() -> bool {
        true
    }

    #[tactic(auto, unfolding(crate::specs::Numbering::fate))]
    fn ask(&mut self) -> Option<Part> {
        if self.last < self.stop.at {
            self.last = self.calls.next_after(self.last);
            let part = self.stop.refuses(self.last);
            if part.is_some() {
                self.refuse();
            }
            return part;
        }
        self.refuse();
        Some(Part::Before)
    }

    fn last(&self) -> u64 {
        self.last
    }

    fn refusals(&self) -> u64 {
        self.refusals
    }
}
