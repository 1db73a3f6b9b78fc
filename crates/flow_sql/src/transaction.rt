//! A transaction of the store: its begin, its end, and the way back.

ghost use Rattle.std.specs.Prelude.{◌≡◌, OnOk};
ghost use Rattle.sqlite.specs.State.{CommitsBy};
ghost use Rattle.flow_sql.specs.Names.{state, Executes, HasCleanDisk, Survives, IfErr, IsTrue, MatchResult, codes, false, true, ℕ, Err, Ok, []};
ghost use Rattle.flow_sql.specs.States.{HasBegun, HasCommitted, HasEnded, Holds, IsOver, IsRefused, IsStill, IsUndone, RunsTo, HasGoneBack};

use sqlite::{Alter, Connection, Error};

/// Runs a statement that shows no rows.
pub fn run<S: Alter>(conn: &mut Connection<S>, sql: &str) -> Result<(), Error>
    ensures runs { HasCleanDisk (state S.Store conn.new) → RunsTo sql.now (state S.Store conn.old) (state S.Store conn.new) result }
    ensures open { HasCleanDisk (state S.Store conn.new) → IsTrue (state S.Store conn.new).is_open
        → IsTrue (state S.Store conn.old).is_open }
    ensures survives { Survives (state S.Store conn.old) (state S.Store conn.new) (CommitsBy sql.now [] (state S.Store conn.old)) }
{
    match conn.execute(sql, &[]) {
        Ok(_) => Ok(()),
        Err(error) => Err(error),
    }
}

/// Begins a transaction.
pub fn begin<S: Alter>(conn: &mut Connection<S>) -> Result<(), Error>
    ensures begun { Holds false (state S.Store conn.old) → HasCleanDisk (state S.Store conn.new)
        → MatchResult result (λ _. IsStill true (state S.Store conn.old) (state S.Store conn.new))
        (λ _. IsRefused false (state S.Store conn.old) (state S.Store conn.new)) }
    ensures effect { HasCleanDisk (state S.Store conn.new)
        → MatchResult result (λ _. HasBegun (state S.Store conn.old) (state S.Store conn.new))
        (λ e. Executes (codes "BEGIN") [] (state S.Store conn.old) (state S.Store conn.new) (Err e)) }
    ensures open { HasCleanDisk (state S.Store conn.new) → IsTrue (state S.Store conn.new).is_open
        → IsTrue (state S.Store conn.old).is_open }
    ensures survives { Survives (state S.Store conn.old) (state S.Store conn.new) (λ _. ⊥) }
{
    run(conn, "BEGIN")
}

/// Commits. After an error the disk may have what was written or not, unless the connection is still open.
pub fn commit<S: Alter>(conn: &mut Connection<S>) -> Result<(), Error>
    ensures committed { Holds true (state S.Store conn.old) → HasCleanDisk (state S.Store conn.new)
        → MatchResult result
        (λ _. IsOver false (state S.Store conn.new) × ((state S.Store conn.new).now ≡ (state S.Store conn.old).now)
        × ((state S.Store conn.new).committed ≡ (state S.Store conn.old).now))
        (λ _. IsUndone (state S.Store conn.old) (state S.Store conn.new)) }
    ensures effect { HasCleanDisk (state S.Store conn.new)
        → MatchResult result (λ _. HasCommitted (state S.Store conn.old) (state S.Store conn.new))
        (λ e. Executes (codes "COMMIT") [] (state S.Store conn.old) (state S.Store conn.new) (Err e)) }
    ensures ended { HasCleanDisk (state S.Store conn.new) → IsTrue (state S.Store conn.old).in_transaction
        → IfErr result (λ _. HasEnded (state S.Store conn.old) (state S.Store conn.new)) }
    ensures open { HasCleanDisk (state S.Store conn.new) → IsTrue (state S.Store conn.new).is_open
        → IsTrue (state S.Store conn.old).is_open }
    ensures survives { Survives (state S.Store conn.old) (state S.Store conn.new) (λ db. db ≡ (state S.Store conn.old).now.trees) }
{
    run(conn, "COMMIT")
}

/// Goes back to the last commit. On a disk that tells no lie the transaction has ended after an error too.
pub fn rollback<S: Alter>(conn: &mut Connection<S>) -> Result<(), Error>
    ensures undone { Holds true (state S.Store conn.old) → HasCleanDisk (state S.Store conn.new)
        → IsUndone (state S.Store conn.old) (state S.Store conn.new) }
    ensures cause { HasCleanDisk (state S.Store conn.new)
        → MatchResult result (λ _. IsTrue (state S.Store conn.old).in_transaction)
        (λ e. Executes (codes "ROLLBACK") [] (state S.Store conn.old) (state S.Store conn.new) (Err e)) }
    ensures done { HasCleanDisk (state S.Store conn.new)
        → OnOk result ((count : ℕ) × Executes (codes "ROLLBACK") [] (state S.Store conn.old) (state S.Store conn.new) (Ok count)) }
    ensures ended { HasCleanDisk (state S.Store conn.new) → IsTrue (state S.Store conn.old).in_transaction
        → HasEnded (state S.Store conn.old) (state S.Store conn.new) }
    ensures open { HasCleanDisk (state S.Store conn.new) → IsTrue (state S.Store conn.new).is_open
        → IsTrue (state S.Store conn.old).is_open }
    ensures survives { Survives (state S.Store conn.old) (state S.Store conn.new) (λ _. ⊥) }
{
    run(conn, "ROLLBACK")
}

/// Ends the transaction if one runs. After an error too none runs any more.
pub fn undo<S: Alter>(conn: &mut Connection<S>) -> Result<(), Error>
    ensures ended { HasCleanDisk (state S.Store conn.new) → HasEnded (state S.Store conn.old) (state S.Store conn.new) }
    ensures undone { Holds true (state S.Store conn.old) → HasCleanDisk (state S.Store conn.new)
        → IsUndone (state S.Store conn.old) (state S.Store conn.new) }
    ensures cause { HasCleanDisk (state S.Store conn.new)
        → IfErr result (λ e. Executes (codes "ROLLBACK") [] (state S.Store conn.old) (state S.Store conn.new) (Err e)) }
    ensures inside { IfErr result (λ _. (state S.Store conn.old).in_transaction ≡ true) }
    ensures done { HasCleanDisk (state S.Store conn.new) → OnOk result (HasGoneBack S.Store conn.old conn.new) }
    ensures survives { Survives (state S.Store conn.old) (state S.Store conn.new) (λ _. ⊥) }
{
    if conn.is_autocommit() {
        return Ok(());
    }
    rollback(conn)
}
