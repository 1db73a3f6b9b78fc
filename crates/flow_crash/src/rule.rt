//! The rule by which the calls of a file get numbers, and some are refused.
ghost use Rattle.std.specs.Prelude.{◌≡◌, ◌≢◌, ◌≤◌, ℕ, Bool, false, IsTrue, IsSome, Option, Some, None};
ghost use Rattle.sqlite_disk.specs.Disk.{MoreFaults};
ghost use Rattle.flow_crash.specs.declared.calls.Part.{Part as APart};
ghost use Rattle.flow_crash.specs.declared.calls.Part.TheVariants as parts;

use crate::calls::Part;

/// What gives the calls of one file their numbers.
pub trait Rule {
    /// The number of the last call, 0 before the first. Behind a stop no call gets one.
    ghost last_of: { Self → ℕ };

    /// How many calls were refused.
    ghost refusals_of: { Self → ℕ };

    /// How much of a call is carried out where it's refused, by what the rule was before it and is behind it. None: it is passed on.
    ghost fate: { Self → Self → Option APart };

    /// What a call makes of the rule.
    ghost steps: { Self → Self → Type 0 };

    /// A write may be carried out in part.
    ghost is_tearing: { Bool };

    /// From here on each call is refused, and nothing of it is carried out.
    ghost has_stopped: { Self → Bool } = { λ _. false };

    fn tears() -> bool
        ensures { result ≡ is_tearing };

    /// Numbers a call, and counts it where it is refused: how much of it is carried out then.
    fn ask(&mut self) -> Option<Part>
        ensures fate { result ≡ fate self.old self.new }
        ensures steps { steps self.old self.new }
        ensures stopped { IsTrue (has_stopped self.old) → (result ≡ Some parts.Before) × IsTrue (has_stopped self.new) }
        ensures passed { result ≡ None → refusals_of self.new ≡ refusals_of self.old }
        ensures counts { IsSome result → MoreFaults (refusals_of self.old) (refusals_of self.new) × (refusals_of self.old ≤ refusals_of self.new) }
        ensures whole { is_tearing ≡ false → result ≢ Some parts.Half };

    /// The number of the last call.
    fn last(&self) -> u64
        ensures { result ≡ last_of self.now };

    /// How many calls were refused. It stops at the top of its type.
    fn refusals(&self) -> u64
        ensures { result ≡ refusals_of self.now };
}
