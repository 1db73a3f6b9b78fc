//! Commands answered over a store that keeps them.
ghost use Rattle.std.specs.Prelude.{◌≡◌, ◌∷◌, ◌++◌, ◌+◌, ◌≤◌, List, [], Some, None, IfOk, IfErr, OnOk, MatchResult, length, map, vec_len};
ghost use Rattle.std.specs.Prelude.{vec_capacity};
ghost use Rattle.flow_model.specs.Book.{Book};
ghost use Rattle.flow_model.specs.Answers.{Answers, CausedAnswer};
ghost use Rattle.flow_base.specs.declared.submission.Receipt.{Receipt as AReceipt};
ghost use Rattle.flow_base.specs.declared.submission.Taken.{Taken as ATaken};
ghost use Rattle.flow_commit.specs.Keeping.{rules, IsFit, KeepsBook, commands_of, kept_book};
ghost use Rattle.flow_commit.specs.Committing.{HasGoneOn};
ghost use Rattle.flow_engine.specs.GivingUp.{GivesUp};
ghost use Rattle.flow_engine.specs.Answering.{IsSure, Follows, HasAnswered, HasStopped, AnswersAll, AreCaused, KeepsAnswered, EndsEarly};
ghost use Rattle.flow_engine.specs.Answering.{LeavesBehind, AreAlone, AreCut, IsSingle, AreSingle, alone, given, first_stop, TellsStop};
ghost use Rattle.flow_engine.specs.Answering.{IsPart, IsPartUpTo};

use crate::done::{Done, Unanswered};
use crate::drive::drive;
use crate::engine::Engine;
use flow_base::code::Code;
use flow_base::command::{Command, Reply};
use flow_base::memory::NoMemory;
use flow_base::submission::{Receipt, Taken};
use flow_commit::batch::Batch;
use flow_model::answer::{Answer, Answering, Stop, Together};
use sqlite::Alter;
use std::alloc::{AllocError, Global};

/// The reply of a batch of one command.
fn reply_of(mut receipts: Vec<Receipt>) -> Reply
    requires { length receipts.items ≡ 1 }
    ensures { (r : AReceipt) → receipts.items ≡ r ∷ [] → result ≡ r.reply }
{
    let Receipt {
        ticket: _,
        place: _,
        command: _,
        reply,
    } = receipts.remove(0);
    reply
}

/// The answer to the command of a batch of one, by what became of it.
fn answer_of(done: Done) -> Result<Answer, Stop>
    requires { IsSingle done }
    ensures given { IfOk result (λ a. (given (done ∷ []) ≡ a ∷ []) × (first_stop (done ∷ []) ≡ None)) }
    ensures stops { IfErr result (λ s. (given (done ∷ []) ≡ []) × (first_stop (done ∷ []) ≡ Some s)) }
{
    match done {
        Done::Kept(receipts) => Ok(Answer::Replied(reply_of(receipts))),
        Done::NotApplied(fault) => Ok(Answer::NotApplied(fault.code())),
        Done::Unknown => Err(Stop::Unknown),
        Done::Halted => Err(Stop::Halted),
    }
}

/// The answer to one command.
fn one_answer(mut dones: Vec<Done>) -> Result<Answer, Stop>
    requires one { length dones.items ≡ 1 }
    requires single { AreSingle dones.items }
    ensures given { IfOk result (λ a. (given dones.items ≡ a ∷ []) × (first_stop dones.items ≡ None)) }
    ensures stops { IfErr result (λ s. (given dones.items ≡ []) × (first_stop dones.items ≡ Some s)) }
{
    answer_of(dones.remove(0))
}

/// Puts the answers to commands behind others, up to the first stop.
fn all_answers(mut answers: Vec<Answer>, dones: Vec<Done>) -> Result<Vec<Answer>, Unanswered>
    requires room { vec_len answers + length dones.items ≤ vec_capacity answers }
    requires single { AreSingle dones.items }
    ensures given { IfOk result (λ all. (all.items ≡ answers.items ++ given dones.items) × (first_stop dones.items ≡ None)) }
    ensures stops { IfErr result (λ u. TellsStop answers.items dones.items u) }
{
    for done in dones {
        match answer_of(done) {
            Ok(answer) => answers.push_reserved(answer),
            Err(stop) => return Err(Unanswered::Stopped(answers, stop)),
        }
    }
    Ok(answers)
}

/// The list of one batch, of one command.
fn one_batch(alloc: Global, taken: Taken) -> Result<Vec<Batch>, AllocError>
    ensures { IfOk result (λ batches. batches.items ≡ (taken ∷ []) ∷ []) }
{
    let mut batches = Vec::new(alloc);
    batches.reserve(1)?;
    match Batch::one(alloc, taken) {
        Ok(batch) => batches.push_reserved(batch),
        Err((_, error)) => return Err(error),
    }
    Ok(batches)
}

/// No answers yet, with room for those to all commands: what can fail is done before the first command.
fn room_for(alloc: Global, commands: &[Command]) -> Result<Vec<Answer>, AllocError>
    ensures none { IfOk result (λ answers. answers.items ≡ []) }
    ensures room { IfOk result (λ answers. vec_len answers + length commands.now ≤ vec_capacity answers) }
{
    let mut answers = Vec::new(alloc);
    answers.reserve(commands.len())?;
    Ok(answers)
}

/// Cuts commands into batches, with tickets from this one on. Each is committed by itself.
fn cut(alloc: Global, first: u64, commands: Vec<Command>) -> Result<Vec<Batch>, AllocError>
    ensures { IfOk result (λ batches. AreCut commands.items batches.items) }
{
    let mut batches = Vec::new(alloc);
    batches.reserve(commands.len())?;
    let mut ticket = first;
    for command in commands {
        match Batch::one(alloc, Taken { ticket, command }) {
            Ok(batch) => batches.push_reserved(batch),
            Err((_, error)) => return Err(error),
        }
        ticket = ticket.saturating_add(1);
    }
    Ok(batches)
}

/// Commits a batch of one command, and answers it.
fn answered<S: Alter>(engine: &mut Engine<S>, batches: Vec<Batch>) -> Result<Answer, Stop>
    requires one { length batches.items ≡ 1 }
    requires alone { AreAlone batches.items }
    ensures answers { IfOk result (λ a. IsSure S.Store engine.new → (t : ATaken) → batches.items ≡ (t ∷ []) ∷ []
        → Answers rules (kept_book S.Store engine.old) (kept_book S.Store engine.new) t.command a) }
    ensures given_up { IfOk result (λ a. (t : ATaken) → batches.items ≡ (t ∷ []) ∷ []
        → CausedAnswer (GivesUp S.Store engine.old engine.new (kept_book S.Store engine.old) (t.command ∷ [])) a) }
    ensures stopped { IfErr result (λ s. HasStopped engine.old engine.new s) }
    ensures unstopped { OnOk result (HasAnswered engine.old engine.new) }
    ensures sure { IsSure S.Store engine.new → IsSure S.Store engine.old }
    ensures follows { Follows S.Store engine.old engine.new }
    ensures goes_on { IsFit S.Store engine.new → HasGoneOn S.Store engine.old engine.new }
    ensures part { (t : ATaken) → batches.items ≡ (t ∷ []) ∷ []
        → MatchResult result (λ a. IsPart S.Store engine.old engine.new (t.command ∷ []) (a ∷ []) None)
        (λ s. IsPart S.Store engine.old engine.new (t.command ∷ []) [] (Some s)) }
{
    match drive(engine, batches) {
        Ok(dones) => one_answer(dones),
        Err((_, refused)) => Ok(Answer::NotApplied(NoMemory::from(refused).code())),
    }
}

/// Commits batches of one command each, and answers them behind no others.
fn all_answered<S: Alter>(
    engine: &mut Engine<S>,
    batches: Vec<Batch>,
    answers: Vec<Answer>,
) -> Result<Vec<Answer>, Unanswered>
    requires none { answers.items ≡ [] }
    requires room { vec_len answers + length batches.items ≤ vec_capacity answers }
    requires alone { AreAlone batches.items }
    ensures answers { IfOk result (λ all. IsSure S.Store engine.new → (ts : List ATaken) → batches.items ≡ map alone ts
        → AnswersAll rules (kept_book S.Store engine.old) (kept_book S.Store engine.new) (commands_of ts) all.items) }
    ensures kept { IfOk result (λ all. IsFit S.Store engine.new → (b : Book) → KeepsBook S.Store engine.old b → (ts : List ATaken)
        → batches.items ≡ map alone ts → KeepsAnswered S.Store engine.new b (commands_of ts) all.items) }
    ensures count { IfOk result (λ all. length all.items ≡ length batches.items) }
    ensures given_up { IfOk result (λ all. (ts : List ATaken) → batches.items ≡ map alone ts
        → AreCaused (GivesUp S.Store engine.old engine.new) (kept_book S.Store engine.old) (commands_of ts) all.items) }
    ensures early { IfErr result (λ u. (ts : List ATaken) → batches.items ≡ map alone ts
        → EndsEarly S.Store engine.old engine.new (commands_of ts) u) }
    ensures leaves { IfErr result (λ u. IsFit S.Store engine.new → (b : Book) → KeepsBook S.Store engine.old b → (ts : List ATaken)
        → batches.items ≡ map alone ts → LeavesBehind S.Store engine.new b (commands_of ts) u) }
    ensures sure { IsSure S.Store engine.new → IsSure S.Store engine.old }
    ensures follows { Follows S.Store engine.old engine.new }
    ensures goes_on { IsFit S.Store engine.new → HasGoneOn S.Store engine.old engine.new }
    ensures part { (ts : List ATaken) → batches.items ≡ map alone ts
        → MatchResult result (λ all. IsPart S.Store engine.old engine.new (commands_of ts) all.items None)
        (λ u. IsPartUpTo S.Store engine.old engine.new (commands_of ts) u) }
{
    match drive(engine, batches) {
        Ok(dones) => all_answers(answers, dones),
        Err((_, refused)) => Err(Unanswered::NoMemory(NoMemory::from(refused))),
    }
}

impl<S: Alter> Engine<S> {
    /// Answers a command: it is committed by itself, before its answer is given.
    ///
    /// # Failure
    /// E84 where nobody knows until the store is opened again whether it is kept, and E85 at every later command.
    pub fn answer(&mut self, command: Command) -> Result<Answer, Stop>
        // The book is the one in the tables. It is known on a disk that told no lie, over a file that held our tables or none, and
        // while the connection is open.
        ensures answers { IfOk result (λ a. IsSure S.Store self.new
            → Answers rules (kept_book S.Store self.old) (kept_book S.Store self.new) command a) }
        // It is given up with E01, or with E80 for a cause in what the engine is before and behind; the book is again the one in the
        // tables.
        ensures cause { IfOk result (λ a. CausedAnswer (GivesUp S.Store self.old self.new (kept_book S.Store self.old) (command ∷ [])) a) }
        ensures stopped { IfErr result (λ s. HasStopped self.old self.new s) }
        ensures unstopped { OnOk result (HasAnswered self.old self.new) }
        ensures sure { IsSure S.Store self.new → IsSure S.Store self.old }
        ensures follows { Follows S.Store self.old self.new }
        ensures goes_on { IsFit S.Store self.new → HasGoneOn S.Store self.old self.new }
        // It is a part of a life, as the headline has it.
        ensures part { MatchResult result (λ a. IsPart S.Store self.old self.new (command ∷ []) (a ∷ []) None)
            (λ s. IsPart S.Store self.old self.new (command ∷ []) [] (Some s)) }
    {
        let ticket = self.tickets(1);
        match one_batch(self.alloc(), Taken { ticket, command }) {
            Ok(batches) => answered(self, batches),
            Err(refused) => Ok(Answer::NotApplied(NoMemory::from(refused).code())),
        }
    }

    /// Answers commands, one after the other: each is committed before the next one is decided, and the answers are given
    /// behind the last. A stop gives back the answers before it.
    ///
    /// # Failure
    /// E01, before the first command, and nothing has changed; E84 where nobody knows until the store is opened again whether
    /// the next command is kept; E85 where the engine had halted before.
    pub fn answer_all(&mut self, commands: Vec<Command>) -> Result<Vec<Answer>, Unanswered>
        ensures answers { IfOk result (λ all. IsSure S.Store self.new
            → AnswersAll rules (kept_book S.Store self.old) (kept_book S.Store self.new) commands.items all.items) }
        // Over a book that is kept, the book behind the commands is kept.
        ensures kept { IfOk result (λ all. IsFit S.Store self.new → (b : Book) → KeepsBook S.Store self.old b
            → KeepsAnswered S.Store self.new b commands.items all.items) }
        ensures count { IfOk result (λ all. length all.items ≡ length commands.items) }
        ensures cause { IfOk result (λ all. AreCaused (GivesUp S.Store self.old self.new)
            (kept_book S.Store self.old) commands.items all.items) }
        ensures stopped { IfErr result (λ u. EndsEarly S.Store self.old self.new commands.items u) }
        // The answers before a stop are those of the first commands, and a stop of the process then leaves the book behind them, or
        // that behind the commands in hand.
        ensures leaves { IfErr result (λ u. IsFit S.Store self.new → (b : Book) → KeepsBook S.Store self.old b
            → LeavesBehind S.Store self.new b commands.items u) }
        ensures sure { IsSure S.Store self.new → IsSure S.Store self.old }
        ensures follows { Follows S.Store self.old self.new }
        ensures goes_on { IsFit S.Store self.new → HasGoneOn S.Store self.old self.new }
        // They are a part of a life, as the headline has it.
        ensures part { MatchResult result (λ all. IsPart S.Store self.old self.new commands.items all.items None)
            (λ u. IsPartUpTo S.Store self.old self.new commands.items u) }
    {
        let first = self.tickets(commands.len() as u64);
        let answers = match room_for(self.alloc(), commands.as_slice()) {
            Ok(answers) => answers,
            Err(refused) => return Err(Unanswered::NoMemory(NoMemory::from(refused))),
        };
        match cut(self.alloc(), first, commands) {
            Ok(batches) => all_answered(self, batches, answers),
            Err(refused) => Err(Unanswered::NoMemory(NoMemory::from(refused))),
        }
    }
}

impl<S: Alter> Answering for Engine<S> {
    ghost use Rattle.flow_commit.specs.Keeping.{rules, kept_book};
    ghost use Rattle.flow_engine.specs.Answering.{IsSure, HasStopped};
    ghost use Rattle.flow_engine.specs.Counting.{HasOtherCause};
    ghost use Rattle.flow_engine.specs.Following.{Succeeds, succeeds_self, gives_up_still, gives_up_since};
    ghost use Rattle.flow_engine.specs.Following.{failures_still, excused_or_failed, excuses_still, excuses_since};
    ghost use Rattle.flow_tables.specs.Owned.{state_of};
    ghost use Rattle.flow_engine.specs.GivingUp.{GivesUp};

    ghost rules = { rules };

    ghost book = { λ e. kept_book S.Store e };

    ghost is_sure = { λ e. IsSure S.Store e };

    ghost follows = { λ a b. Succeeds S.Store a b };

    ghost gives_up = { λ a e b cs k. GivesUp S.Store a e b cs k };

    ghost failures = { λ e. (state_of S.Store e.stored).faults };

    ghost excuses = { λ a e b cs. HasOtherCause S.Store a e b cs };

    ghost stops = { λ a e b cs stop. HasStopped a e stop };

    ghost follows_self = { λ a. succeeds_self _ a };

    ghost gives_up_still = { λ a b c k cs code. gives_up_still _ a b c k cs code };

    ghost gives_up_since = { λ a b c k cs code. gives_up_since _ a b c k cs code };

    ghost failures_still = { λ a b. failures_still _ a b };

    ghost excused_or_failed = { λ a b k cs. excused_or_failed _ a b k cs };

    ghost excuses_still = { λ a b c k cs. excuses_still _ a b c k cs };

    ghost excuses_since = { λ a b c k cs. excuses_since _ a b c k cs };

    fn answer(&mut self, command: Command) -> Result<Answer, Stop> {
        Engine::answer(self, command)
    }

    fn answer_together(&mut self, commands: Vec<Command>) -> Result<Together, Stop> {
        Engine::answer_together(self, commands)
    }
}
