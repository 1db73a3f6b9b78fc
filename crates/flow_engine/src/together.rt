//! Commands that are answered together: they are one batch, so a store keeps all of them or none.
ghost use Rattle.std.specs.Prelude.{◌≡◌, ◌≤◌, ◌+◌, ◌∷◌, [], List, length, map, vec_len, vec_capacity, IfOk, IfErr, OnOk};
ghost use Rattle.flow_model.specs.Book.{Book};
ghost use Rattle.flow_model.specs.Apply.{after};
ghost use Rattle.flow_model.specs.Answers.{AnswersTogether, CausedTogether, CountsTogether};
ghost use Rattle.flow_base.specs.declared.submission.Taken.{Taken as ATaken};
ghost use Rattle.flow_tables.specs.Owned.{state_of, LeavesEither};
ghost use Rattle.flow_commit.specs.Keeping.{rules, IsFit, KeepsBook, commands_of, kept_book};
ghost use Rattle.flow_engine.specs.Answering.{IsSure, Follows, HasAnswered, HasStopped};
ghost use Rattle.flow_commit.specs.Committing.{HasGoneOn};
ghost use Rattle.flow_engine.specs.Driving.{reply_of};
ghost use Rattle.flow_engine.specs.GivingUp.{GivesUp};
ghost use Rattle.flow_engine.specs.Together.{KeepsTogether, IsToldOf, IsOnePart, IsTogether, are_kept};

use crate::done::Done;
use crate::drive::drive;
use crate::engine::Engine;
use flow_base::code::Code;
use flow_base::command::{Command, Reply};
use flow_base::memory::NoMemory;
use flow_base::submission::{Receipt, Taken};
use flow_commit::batch::Batch;
use flow_model::answer::{Stop, Together};
use sqlite::Alter;
use std::alloc::{AllocError, Global};

/// The commands as submissions, with tickets from this one on.
fn taken_of(alloc: Global, first: u64, commands: Vec<Command>) -> Result<Vec<Taken>, AllocError>
    ensures { IfOk result (λ taken. commands_of taken.items ≡ commands.items) }
{
    let mut all = Vec::new(alloc);
    all.reserve(commands.len())?;
    let mut ticket = first;
    for command in commands {
        all.push_reserved(Taken { ticket, command });
        ticket = ticket.saturating_add(1);
    }
    Ok(all)
}

/// The list of one batch.
fn one_batch(alloc: Global, taken: Vec<Taken>) -> Result<Vec<Batch>, AllocError>
    requires some { 1 ≤ length taken.items }
    requires most { length taken.items ≤ 64 }
    ensures { IfOk result (λ batches. batches.items ≡ taken.items ∷ []) }
{
    let mut batches = Vec::new(alloc);
    batches.reserve(1)?;
    batches.push_reserved(Batch::of(taken));
    Ok(batches)
}

/// No replies yet, with room for so many: what can fail is done before the commands are applied.
fn room_for(alloc: Global, count: usize) -> Result<Vec<Reply>, AllocError>
    ensures none { IfOk result (λ replies. replies.items ≡ []) }
    ensures room { IfOk result (λ replies. vec_len replies + count ≤ vec_capacity replies) }
{
    let mut replies = Vec::new(alloc);
    replies.reserve(count)?;
    Ok(replies)
}

/// The replies of receipts, in their order.
fn replies_in(receipts: Vec<Receipt>, mut replies: Vec<Reply>) -> Vec<Reply>
    requires none { replies.items ≡ [] }
    requires room { vec_len replies + length receipts.items ≤ vec_capacity replies }
    ensures { result.items ≡ map reply_of receipts.items }
{
    for receipt in receipts {
        let Receipt {
            ticket: _,
            place: _,
            command: _,
            reply,
        } = receipt;
        replies.push_reserved(reply);
    }
    replies
}

/// What is told of a batch, by what became of it.
fn told_of(done: Done, replies: Vec<Reply>) -> Result<Together, Stop>
    requires none { replies.items ≡ [] }
    requires room { vec_len replies + are_kept done ≤ vec_capacity replies }
    ensures { IsToldOf done result }
{
    match done {
        Done::Kept(receipts) => Ok(Together::Replied(replies_in(receipts, replies))),
        Done::NotApplied(fault) => Ok(Together::NotApplied(fault.code())),
        Done::Unknown => Err(Stop::Unknown),
        Done::Halted => Err(Stop::Halted),
    }
}

/// Commits one batch, and answers it.
fn answered<S: Alter>(
    engine: &mut Engine<S>,
    batches: Vec<Batch>,
    replies: Vec<Reply>,
) -> Result<Together, Stop>
    requires none { replies.items ≡ [] }
    requires one { length batches.items ≡ 1 }
    requires some { (batch : List ATaken) → batches.items ≡ batch ∷ [] → 1 ≤ length batch }
    requires room { (batch : List ATaken) → batches.items ≡ batch ∷ [] → vec_len replies + length batch ≤ vec_capacity replies }
    ensures { (batch : List ATaken) → batches.items ≡ batch ∷ [] → IsTogether S.Store engine.old engine.new (commands_of batch) result }
{
    match drive(engine, batches) {
        Ok(mut dones) => told_of(dones.remove(0), replies),
        Err((_, refused)) => Ok(Together::NotApplied(NoMemory::from(refused).code())),
    }
}

impl<S: Alter> Engine<S> {
    /// Answers 1 to 64 commands, which are applied in one transaction: all of them are committed before their replies are given,
    /// or none is applied.
    ///
    /// # Failure
    /// E84 where nobody knows until the store is opened again whether they are kept, all or none, and E85 at every later command.
    pub fn answer_together(&mut self, commands: Vec<Command>) -> Result<Together, Stop>
        requires some { 1 ≤ length commands.items }
        requires most { length commands.items ≤ 64 }
        // The book is the one in the tables, as that of `answer`.
        ensures answers { IfOk result (λ t. IsSure S.Store self.new
            → AnswersTogether rules (kept_book S.Store self.old) (kept_book S.Store self.new) commands.items t) }
        // Over a book that is kept, the book behind the commands is kept.
        ensures kept { IfOk result (λ t. IsFit S.Store self.new → (b : Book) → KeepsBook S.Store self.old b
            → KeepsTogether S.Store self.new b commands.items t) }
        ensures count { IfOk result (λ t. CountsTogether commands.items t) }
        ensures cause { IfOk result (λ t. CausedTogether
            (GivesUp S.Store self.old self.new (kept_book S.Store self.old) commands.items) t) }
        ensures stopped { IfErr result (λ s. HasStopped self.old self.new s) }
        ensures unstopped { OnOk result (HasAnswered self.old self.new) }
        // A stop of the process then leaves the book before all of them, or the book behind them all.
        ensures leaves { IfErr result (λ s. IsFit S.Store self.new → (b : Book) → KeepsBook S.Store self.old b
            → LeavesEither (state_of S.Store self.new.stored) b (after rules b commands.items)) }
        ensures sure { IsSure S.Store self.new → IsSure S.Store self.old }
        ensures follows { Follows S.Store self.old self.new }
        ensures goes_on { IsFit S.Store self.new → HasGoneOn S.Store self.old self.new }
        // They are a part of a life, as the headline has it.
        ensures part { IsOnePart S.Store self.old self.new commands.items result }
    {
        let first = self.tickets(commands.len() as u64);
        let replies = match room_for(self.alloc(), commands.len()) {
            Ok(replies) => replies,
            Err(refused) => return Ok(Together::NotApplied(NoMemory::from(refused).code())),
        };
        let taken = match taken_of(self.alloc(), first, commands) {
            Ok(taken) => taken,
            Err(refused) => return Ok(Together::NotApplied(NoMemory::from(refused).code())),
        };
        match one_batch(self.alloc(), taken) {
            Ok(batches) => answered(self, batches, replies),
            Err(refused) => Ok(Together::NotApplied(NoMemory::from(refused).code())),
        }
    }
}
