//! Rows looked through for damage, as opening looks through those of a store.
ghost use Rattle.std.specs.Prelude.{◌≡◌, IfOk, None};
ghost use Rattle.flow_check.specs.Language.{is_program};
ghost use Rattle.flow_model.specs.Book.{Book};
ghost use Rattle.flow_rows.specs.Damages.{first_damage};
ghost use Rattle.flow_rows.specs.Rows.{Format, AreRowsIn, by_run};
ghost use Rattle.flow_rows.specs.Standing.{StandsFor};
ghost use Rattle.flow_rows.specs.Told.{book_in, TellsIn};

use flow_base::fault::Damage;
use flow_check::language::Language;
use flow_rows::rows::StoreRows;
use std::alloc::{AllocError, Global};

/// The first damage of rows whose texts are of the language, by table, then run, then place; none exactly where they
/// stand for a book.
pub fn damage(alloc: Global, rows: &StoreRows) -> Result<Option<Damage>, AllocError>
    // Which damage it is.
    ensures first { IfOk result (λ o. o ≡ first_damage is_program rows.now) }
    // Rows of one format without damage stand for a book.
    ensures stands { IfOk result (λ o. o ≡ None → (f : Format) → AreRowsIn f rows.now.events → (b : Book)
        × StandsFor is_program f rows.now b) }
    // and tell it: it is the book that is read from them.
    ensures tells { IfOk result (λ o. o ≡ None → (f : Format) → AreRowsIn f rows.now.events
        → TellsIn f (by_run rows.now) (book_in (by_run rows.now))) }
    // Rows that stand for a book have no damage.
    ensures none { IfOk result (λ o. (f : Format) (b : Book) → StandsFor is_program f rows.now b → o ≡ None) }
{
    flow_rows::damage::damage(alloc, &Language, rows)
}
