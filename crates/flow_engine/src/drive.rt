//! Batches, one after the other.
ghost use Rattle.std.specs.Prelude.{◌≡◌, ◌⊎◌, ◌++◌, true, false, length, IfOk, IfErr};
ghost use Rattle.flow_model.specs.Book.{Book};
ghost use Rattle.sqlite.specs.Tree.{Trees};
ghost use Rattle.flow_tables.specs.Owned.{state_of};
ghost use Rattle.flow_commit.specs.Keeping.{IsFit, IsUp, IsWell, KeepsBook, kept_book};
ghost use Rattle.flow_commit.specs.Committing.{HasGoneOn};
ghost use Rattle.flow_engine.specs.Counting.{IsCounted};
ghost use Rattle.flow_engine.specs.GivingUp.{AreGivenUp, IsGivenUpFor, WasRefused};
ghost use Rattle.flow_engine.specs.declared.done.Done.TheVariants as dones;
ghost use Rattle.flow_engine.specs.Driving.{HasDone, IsDoneFor, IsNoted, NotesAll, Drives, IsLeft, ReachesSound, ReachesWell, Runs};
ghost use Rattle.flow_engine.specs.Driving.{all_halted, kept_of, in_hand};

use crate::done::Done;
use crate::engine::Engine;
use flow_commit::batch::Batch;
use flow_commit::outcome::Outcome;
use sqlite::Alter;
use std::alloc::AllocError;

/// Commits a batch and gives its stamp up.
pub(crate) fn done_with<S: Alter>(engine: &mut Engine<S>, batch: Batch) -> Done
    ensures fit { IsFit S.Store engine.new → IsFit S.Store engine.old }
    ensures does { IsFit S.Store engine.new → (b : Book) → KeepsBook S.Store engine.old b
        → HasDone S.Store engine.old engine.new b batch result }
    ensures cause { IsFit S.Store engine.new → (b : Book) → KeepsBook S.Store engine.old b
        → IsDoneFor S.Store engine.old engine.new b batch result }
    ensures halted { engine.old.halted ≡ true → engine.new ≡ engine.old }
    ensures later { engine.old.halted ≡ true → result ≡ dones.Halted }
    ensures same { engine.new.stored.opened ≡ engine.old.stored.opened }
    ensures noted { IsNoted engine.old engine.new batch result }
    ensures up { IsFit S.Store engine.new → IsUp S.Store engine.new → IsUp S.Store engine.old }
    ensures own { IsFit S.Store engine.new → IsUp S.Store engine.old → (engine.new ≡ engine.old)
        ⊎ KeepsBook S.Store engine.old (kept_book S.Store engine.old) }
    ensures why { IsFit S.Store engine.new → IsGivenUpFor (WasRefused S.Store engine.old engine.new)
        (kept_book S.Store engine.old) batch result }
    ensures goes_on { IsFit S.Store engine.new → HasGoneOn S.Store engine.old engine.new }
{
    match engine.commit(batch) {
        Outcome::Kept(receipts, stamp) => {
            stamp.discard();
            Done::Kept(receipts)
        }
        Outcome::NotApplied(_, fault) => Done::NotApplied(fault),
        Outcome::Unknown(_batch, _fault) => Done::Unknown,
        Outcome::Halted(_) => Done::Halted,
    }
}

/// Commits batches one after the other, and tells what became of each.
///
/// # Failure
/// E01, before the first batch: they come back, and nothing has changed.
pub fn drive<S: Alter>(
    engine: &mut Engine<S>,
    batches: Vec<Batch>,
) -> Result<Vec<Done>, (Vec<Batch>, AllocError)>
    ensures fit { IsFit S.Store engine.new → IsFit S.Store engine.old }
    // Each answer over the book that the batches before it left, and why it was given.
    ensures drives { IsFit S.Store engine.new → (b : Book) → KeepsBook S.Store engine.old b → engine.old.halted ≡ false
        → IfOk result (λ ds. Drives S.Store engine.old engine.new b batches.items ds.items) }
    // Every book on the way is sound, and so is the one that a batch in hand may have led to.
    ensures sound { IfOk result (λ ds. (b : Book) → ReachesSound b (kept_of batches.items ds.items ++ in_hand batches.items ds.items)) }
    ensures well { IfOk result (λ ds. (b : Book) → ReachesWell b (kept_of batches.items ds.items ++ in_hand batches.items ds.items)) }
    // So whatever a stop leaves at this moment is found again, and nothing of it is refused.
    ensures leaves { IsFit S.Store engine.new → (b : Book) → IsWell b → KeepsBook S.Store engine.old b → engine.old.halted ≡ false
        → IfOk result (λ ds. (db : Trees) → (state_of S.Store engine.new.stored).may_leave db
        → IsLeft db b (kept_of batches.items ds.items) (in_hand batches.items ds.items)) }
    // This is what a life has of these batches.
    ensures runs { IfOk result (λ ds. Runs S.Store engine.old engine.new batches.items ds.items) }
    // An engine that has halted does nothing.
    ensures halted { engine.old.halted ≡ true → engine.new ≡ engine.old }
    ensures later { engine.old.halted ≡ true → IfOk result (λ ds. ds.items ≡ all_halted batches.items) }
    // What is noted whatever the disk tells.
    ensures noted { engine.old.halted ≡ false → IfOk result (λ ds. NotesAll engine.old engine.new batches.items ds.items) }
    ensures count { IfOk result (λ ds. length ds.items ≡ length batches.items) }
    ensures opened { engine.new.stored.opened ≡ engine.old.stored.opened }
    // An open connection was open before, and a book was kept unless nothing was done.
    ensures up { IsFit S.Store engine.new → IsUp S.Store engine.new → IsUp S.Store engine.old }
    ensures own { IsFit S.Store engine.new → IsUp S.Store engine.old → (engine.new ≡ engine.old)
        ⊎ KeepsBook S.Store engine.old (kept_book S.Store engine.old) }
    // Why batches were given up with E80, over the book read off the tables at the beginning, whether it is known to be kept or not.
    ensures given_up { IfOk result (λ ds. IsFit S.Store engine.new
        → AreGivenUp (WasRefused S.Store engine.old engine.new) (kept_book S.Store engine.old) batches.items ds.items) }
    // No more of them than the store has counted failures, but for other causes.
    ensures counted { IfOk result
        (λ ds. IsFit S.Store engine.new → IsCounted S.Store engine.old engine.new (kept_book S.Store engine.old) batches.items ds.items) }
    ensures goes_on { IsFit S.Store engine.new → HasGoneOn S.Store engine.old engine.new }
    ensures back { IfErr result (λ e. e.0 ≡ batches) }
    ensures same { IfErr result (λ _. engine.new ≡ engine.old) }
{
    let mut dones = Vec::new(engine.alloc());
    if let Err(refused) = dones.reserve(batches.len()) {
        return Err((batches, refused));
    }
    for batch in batches {
        dones.push_reserved(done_with(engine, batch));
    }
    Ok(dones)
}
