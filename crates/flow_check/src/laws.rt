ghost use Rattle.flow_check.specs.Typed.{NothingMissing, OnlyNextBegins, OneKind, CommandsFit, ValueHasKind, StandsReached};

/// In a run of a checked program no expression meets a missing variable or a value of the wrong type.
pub fn checked_programs_fit()
    ensures nothing_missing { NothingMissing }
    ensures only_next { OnlyNextBegins }
    ensures one_kind { OneKind }
    ensures commands { CommandsFit }
    ensures values { ValueHasKind }
    // Each configuration of a standing history is one that the others speak of.
    ensures stands { StandsReached }
{}
