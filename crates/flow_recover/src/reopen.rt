//! Opening a store anew: what `recover` is then given.
ghost use Rattle.std.specs.Prelude.{IsTrue, IfOk, IfErr};
ghost use Rattle.sqlite.specs.Tree.{Trees};
ghost use Rattle.sqlite.specs.View.{IsClean};
ghost use Rattle.sqlite.specs.State.{HasCleanDisk};
ghost use Rattle.sqlite.specs.Held.{state, IsNew};
ghost use Rattle.sqlite.specs.Steps.{IsFresh};
ghost use Rattle.sqlite.specs.Files.{file_state, image_of, HoldsDatabase, IsCleanLeft, FailsToOpenFiles, LeavesFiles};
ghost use Rattle.flow_model.specs.Book.{Book};
ghost use Rattle.flow_recover.specs.Recovering.{HoldBook, IsOfDisk, IsOpenedOver};

use sqlite::{Alter, Connection, Error, FileStore, Files, Leftover, Options};
use sqlite_disk::Disk;
use std::alloc::Global;

/// Opens a store over the trees that it has.
///
/// # Failure
/// A store that holds a book, be it the empty one in no tables, is refused for memory or a failure of its disk alone. Either way
/// a stop leaves what it could leave before.
pub fn reopen<S: Alter + Drop>(alloc: Global, store: S) -> Result<Connection<S>, (Error, S)>
    requires { IsClean (S.Store.view store) → IsFresh (S.Store.view store) }
    // No limit on steps is set.
    ensures fresh { IfOk result IsNew }
    ensures opened { IfOk result (λ c. HasCleanDisk (state S.Store c) → IsOpenedOver (state S.Store c) (S.Store.view store).trees) }
    ensures own { IfErr result (λ e. IsClean (S.Store.view e.1) → (b : Book) → HoldBook (S.Store.view store).trees b
        → IsOfDisk S.Store store e.1 e.0) }
    ensures stops { IfErr result (λ e. (db : Trees) → S.Store.recovers e.1 db → S.Store.recovers store db) }
{
    match Connection::over(alloc, store) {
        Ok(conn) => Ok(conn),
        Err((error, store)) => Err((error, store)),
    }
}

/// Opens the two files of a store, as a stop or a close left them.
///
/// # Failure
/// As of `Connection::open_files`.
pub fn reopen_files<D: Disk + Drop>(
    alloc: Global,
    files: Files<D>,
    options: Options,
) -> Result<Connection<FileStore<D>>, (Error, Leftover<D>)>
    requires log { IsTrue (D.Disk.is_usable files.log) }
    requires db { IsTrue (D.Disk.is_usable files.db) }
    // No limit on steps is set.
    ensures fresh { IfOk result IsNew }
    ensures opened { IfOk result (λ c. HasCleanDisk (file_state c) → (db : Trees) → ∥ HoldsDatabase (image_of D.Disk files) db ∥₁
        → IsOpenedOver (file_state c) db) }
    ensures cause { IfErr result (λ e. IsCleanLeft e.1 → FailsToOpenFiles files e.1 e.0) }
    ensures unharmed { IfErr result (λ e. IsCleanLeft e.1 → LeavesFiles files e.1) }
{
    match Connection::open_files(alloc, files, options) {
        Ok(opened) => Ok(opened),
        Err((error, left)) => Err((error, left)),
    }
}
