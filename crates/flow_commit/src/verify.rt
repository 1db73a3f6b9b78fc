//! Whether all runs that the tables keep stand, read in a transaction of its own that changes nothing.
ghost use Rattle.std.specs.Prelude.{◌≡◌, ◌⊎◌, false};
ghost use Rattle.flow_check.specs.Language.{meaning_of};
ghost use Rattle.flow_model.specs.Book.{Book};
ghost use Rattle.flow_machine.specs.Verifying.{CantBeReplayed, CausedUnverified};
ghost use Rattle.flow_tables.specs.Owned.{IsFit, IsUp, Follows, Keeps, kept_book, state_of};
ghost use Rattle.flow_commit.specs.Committing.{IsDown};
ghost use Rattle.flow_commit.specs.Verifying.{IsVerdict};

use crate::survey::roll_back;
use crate::transaction::begin_anew;
use flow_base::book::Totals;
use flow_check::language::Language;
use flow_machine::verify::{Unverified, verified};
use flow_programs::kept::Kept;
use flow_tables::tables::Tables;
use flow_view::fault::ViewFault;
use sqlite::Alter;
use std::alloc::Global;

/// Begins a transaction and replays each run in it.
fn replayed<S: Alter>(
    alloc: Global,
    programs: &mut Kept<Language>,
    tables: &mut Tables<S>,
) -> Result<Totals, Unverified>
    ensures verdict { IsFit S.Store tables.new → (b : Book) → Keeps (state_of S.Store tables.old) b → IsVerdict b result }
    ensures follows { Follows S.Store tables.old tables.new }
    ensures own { IsFit S.Store tables.new → IsUp S.Store tables.old → Keeps (state_of S.Store tables.old) (kept_book S.Store tables.old) }
    ensures cause { IsFit S.Store tables.new → (b : Book) → Keeps (state_of S.Store tables.old) b
        → CausedUnverified result (IsDown S.Store tables.old tables.new ⊎ CantBeReplayed meaning_of b) }
{
    match begin_anew(tables) {
        Ok(()) => verified(alloc, programs, tables),
        Err(ViewFault::NoMemory(no_memory)) => Err(Unverified::NoMemory(no_memory)),
        Err(ViewFault::StoreRefused) => Err(Unverified::StoreRefused),
    }
}

/// Replays each run of the book that the tables keep, closed ones too. Its transaction has changed nothing, and is rolled back.
pub(crate) fn verify_all<S: Alter>(
    alloc: Global,
    programs: &mut Kept<Language>,
    tables: &mut Tables<S>,
) -> Result<Totals, Unverified>
    ensures verdict { IsFit S.Store tables.new → (b : Book) → Keeps (state_of S.Store tables.old) b → IsVerdict b result }
    ensures follows { Follows S.Store tables.old tables.new }
    ensures own { IsFit S.Store tables.new → IsUp S.Store tables.old → Keeps (state_of S.Store tables.old) (kept_book S.Store tables.old) }
    ensures cause { IsFit S.Store tables.new → (b : Book) → Keeps (state_of S.Store tables.old) b
        → CausedUnverified result (IsDown S.Store tables.old tables.new ⊎ CantBeReplayed meaning_of b) }
    // None runs behind it, however it ends.
    ensures rest { IsFit S.Store tables.new → (state_of S.Store tables.new).in_transaction ≡ false }
{
    let outcome = replayed(alloc, programs, tables);
    roll_back(tables);
    outcome
}
