ghost use Rattle.flow_patch.specs.Difference.{DifferenceDecides};
ghost use Rattle.flow_patch.specs.Settle.{NoIsRefused, SettledStands};
ghost use Rattle.flow_patch.specs.Unsettled.{UnsettledDecides};
ghost use Rattle.flow_patch.specs.Wrap.{WrapIsComputed, WrappedNeverFails, WrappedStands};

/// A history that stands under a text stands under each that wraps it, and leaves the run the same to a submitter: so no
/// open run is refused such a text.
pub fn wrapped_stands()
    ensures stands { WrappedStands }
    ensures never_fails { WrappedNeverFails }
{}

/// Whether a text wraps another is told by taking its new patches out, and by looking for a first difference.
pub fn wraps_are_computed()
    ensures plain { WrapIsComputed }
    ensures difference { DifferenceDecides }
{}

/// A history that stands under a text, in which no settled patch was answered no, stands under the settled text, and leaves the run
/// the same to a submitter. Without that premise it isn't so.
pub fn settled_stands()
    ensures stands { SettledStands }
    ensures no_is_refused { NoIsRefused }
{}

/// Whether a text settles another is told by looking for a first difference.
pub fn settling_is_computed()
    ensures { UnsettledDecides }
{}
