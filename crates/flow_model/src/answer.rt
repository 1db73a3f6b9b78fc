//! What answers commands, one after the other.
ghost use Rattle.std.specs.Prelude.{◌⊎◌, ◌≤◌, ◌∷◌, [], ℕ, List, length, IfOk, IfErr, OnOk};
ghost use Rattle.flow_base.specs.declared.code.Code.{Code};
ghost use Rattle.flow_base.specs.declared.code.Code.TheVariants as codes;
ghost use Rattle.flow_base.specs.declared.command.Command.{Command};
ghost use Rattle.flow_model.specs.Apply.{Rules};
ghost use Rattle.flow_model.specs.Book.{Book};
ghost use Rattle.flow_model.specs.Answers.{Answers, CausedAnswer, AnswersTogether, CausedTogether, CountsTogether, IsMoreBy, StopsSince};
ghost use Rattle.flow_model.specs.declared.answer.Stop.{Stop};

use flow_base::code::Code;
use flow_base::command::{Command, Reply};

/// How a command was answered.
#[derive(Debug, Drop)]
pub enum Answer {
    /// It was applied; this is its reply.
    Replied(Reply),
    /// It was given up, with E80 or E01, and the book is as it was.
    NotApplied(Code),
}

/// How commands were answered that are applied together.
#[derive(Debug, Drop)]
pub enum Together {
    /// All were applied; these are their replies.
    Replied(Vec<Reply>),
    /// All were given up, with E80 or E01, and the book is as it was.
    NotApplied(Code),
}

/// Why a command has no answer. Nobody answers another one then.
#[derive(Clone, Copy, Debug, PartialEq, Eq)]
pub enum Stop {
    /// E84: nobody knows whether it is kept.
    Unknown,
    /// E85: an earlier command was stopped so.
    Halted,
}

/// What keeps a book and answers commands over it, each for good before its answer is given.
pub trait Answering {
    /// By which rules it decides.
    ghost rules: { Rules };

    /// The book that it keeps.
    ghost book: { Self → Book };

    /// Whether all that it told so far was true, as where no disk lied. Once false it stays so.
    ghost is_sure: { Self → Type 0 };

    /// What answering keeps beside the book: what a stop may leave, and what was committed.
    ghost follows: { Self → Self → Type 0 };

    /// What stands behind commands that are given up together over a book, since it was the first and now that it is the second.
    ghost gives_up: { Self → Self → Book → List Command → Code → Type 0 };

    /// How many failures of its store it has counted.
    ghost failures: { Self → ℕ };

    /// What else than such a failure stands behind E80 of commands over a book, since it was the first and now that it is the second.
    ghost excuses: { Self → Self → Book → List Command → Type 0 };

    /// What stands behind a stop at commands over a book, since it was the first and now that it is the second.
    ghost stops: { Self → Self → Book → List Command → Stop → Type 0 };

    /// Answers a command.
    fn answer(&mut self, command: Command) -> Result<Answer, Stop>
        ensures answers { IfOk result (λ a. is_sure self.new → Answers rules (book self.old) (book self.new) command a) }
        ensures cause { IfOk result (λ a. CausedAnswer (gives_up self.old self.new (book self.old) (command ∷ [])) a) }
        ensures stopped { IfErr result (λ s. stops self.old self.new (book self.old) (command ∷ []) s) }
        // Behind this answer a stop has such a cause since before it too, so a list of answers can't hide which stop it is.
        ensures since { OnOk result (StopsSince stops self.old self.new) }
        ensures sure { is_sure self.new → is_sure self.old }
        ensures follows { (a : Self) → follows a self.old → follows a self.new };

    /// Answers 1 to 64 commands that are applied together or not at all.
    fn answer_together(&mut self, commands: Vec<Command>) -> Result<Together, Stop>
        requires some { 1 ≤ length commands.items }
        requires most { length commands.items ≤ 64 }
        ensures answers { IfOk result (λ t. is_sure self.new → AnswersTogether rules (book self.old) (book self.new) commands.items t) }
        // Each has a reply where they are applied.
        ensures count { IfOk result (λ t. CountsTogether commands.items t) }
        ensures cause { IfOk result (λ t. CausedTogether (gives_up self.old self.new (book self.old) commands.items) t) }
        ensures stopped { IfErr result (λ s. stops self.old self.new (book self.old) commands.items s) }
        ensures since { OnOk result (StopsSince stops self.old self.new) }
        ensures sure { is_sure self.new → is_sure self.old }
        ensures follows { (a : Self) → follows a self.old → follows a self.new };

    /// It follows itself.
    ghost follows_self: { (a : Self) → follows a a };

    /// What stood behind commands that were given up stands behind them later too.
    ghost gives_up_still: { (a b c : Self) (k : Book) (cs : List Command) (code : Code)
        → follows b c → gives_up a b k cs code → gives_up a c k cs code };

    /// And since an earlier state.
    ghost gives_up_since: { (a b c : Self) (k : Book) (cs : List Command) (code : Code)
        → follows a b → follows b c → gives_up b c k cs code → gives_up a c k cs code };

    /// A failure that was counted is counted for good.
    ghost failures_still: { (a b : Self) → is_sure b → follows a b → failures a ≤ failures b };

    /// Behind E80 stands something else, or a failure that was counted in between.
    ghost excused_or_failed: { (a b : Self) (k : Book) (cs : List Command)
        → is_sure b → gives_up a b k cs codes.StoreRefused → excuses a b k cs ⊎ IsMoreBy 1 (failures a) (failures b) };

    /// What stood behind commands beside failures stands behind them later too.
    ghost excuses_still: { (a b c : Self) (k : Book) (cs : List Command)
        → is_sure c → follows b c → excuses a b k cs → excuses a c k cs };

    /// And since an earlier state.
    ghost excuses_since: { (a b c : Self) (k : Book) (cs : List Command)
        → is_sure c → follows a b → follows b c → excuses b c k cs → excuses a c k cs };
}
