ghost use Rattle.flow_model.specs.Logs.{AfterCut, AfterLogCut, AfterOneLimit, AfterOneMore, LogRepliesCut, RepliesCut, RepliesInOrder, RepliesOneLimit};
ghost use Rattle.flow_model.specs.Stands.{AtMostOne, NotBoth};
ghost use Rattle.flow_model.specs.Turned.{TurnIsComputed, ComputedIsTurn, PositionIsComputed, OneMoreTurnStands, FirstTurnStands};
ghost use Rattle.flow_model.specs.Verdict.{OneMismatch, StandsOrFails, VerdictOfMismatch, VerdictOfStanding};

/// A history stands at one configuration at most, and nowhere where it has a mismatch.
pub fn stands_once()
    ensures once { AtMostOne }
    ensures not_both { NotBoth }
{}

/// A turn is what the function computes, and a standing history leaves its position.
pub fn turns_are_computed()
    ensures computed { TurnIsComputed }
    ensures made { ComputedIsTurn }
    ensures position { PositionIsComputed }
{}

/// A history has a verdict under each program: where it leaves the run, if it stands, else its one first mismatch.
pub fn verdicts_are_computed()
    ensures standing { VerdictOfStanding }
    ensures mismatch { VerdictOfMismatch }
    ensures each { StandsOrFails }
    ensures one { OneMismatch }
{}

/// A run's first fresh turn stands, and so does a standing history with one more.
pub fn one_more_turn()
    ensures first { FirstTurnStands }
    ensures more { OneMoreTurnStands }
{}

/// Commands are applied one after the other: wherever a list of them is cut, the book and the replies are the same, and each
/// has the reply that it gets over the book that those before it left.
pub fn logs_are_cut_anywhere()
    ensures after { AfterCut }
    ensures replies { RepliesCut }
    ensures one_more { AfterOneMore }
    ensures in_order { RepliesInOrder }
{}

/// The same of a log in which each command has the limit of its life; and where all have one, it is a list of commands under it.
pub fn logs_have_limits()
    ensures after { AfterLogCut }
    ensures replies { LogRepliesCut }
    ensures one_after { AfterOneLimit }
    ensures one_replies { RepliesOneLimit }
{}
