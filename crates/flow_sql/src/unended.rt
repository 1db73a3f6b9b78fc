//! The ends of a transaction of which somebody has to know whether they took place. Each E84 begins in this file.

ghost use Rattle.std.specs.Prelude.{◌≡◌, OnOk};
ghost use Rattle.flow_base.specs.declared.fault.Fault.TheVariants as faults;
ghost use Rattle.flow_sql.specs.Names.{state, Executes, HasCleanDisk, Survives, IfErr, IsTrue, MatchResult, codes, true, Err, []};
ghost use Rattle.flow_sql.specs.States.{HasCommitted, HasEnded, HasGoneBack};

use crate::transaction::{commit, undo};
use flow_base::fault::Fault;
use sqlite::{Alter, Connection, Error};

/// A COMMIT or a ROLLBACK was refused, so nobody knows what is kept until the store is opened again.
///
/// No other file can make one, and none is copied: each is of a statement of its own. So what can't be answered without one, as E84,
/// isn't answered unless the end of a transaction was refused.
#[derive(Debug, Drop)]
pub struct Unended {
    made: (),
}

impl Unended {
    /// How it is reported at opening: E84.
    pub fn fault(self) -> Fault
        ensures { result ≡ faults.Unknown }
    {
        Fault::Unknown
    }
}

/// Why a transaction wasn't ended: that statement was refused with this.
#[derive(Debug, Drop)]
pub struct Cut {
    pub error: Error,
    pub unended: Unended,
}

/// It was refused with this.
fn refused(error: Error) -> Cut
    ensures { result.error ≡ error }
{
    Cut {
        error,
        unended: Unended { made: () },
    }
}

/// Commits. After a refusal nobody knows what is kept.
pub fn conclude<S: Alter>(conn: &mut Connection<S>) -> Result<(), Cut>
    ensures effect { HasCleanDisk (state S.Store conn.new)
        → MatchResult result (λ _. HasCommitted (state S.Store conn.old) (state S.Store conn.new))
        (λ c. Executes (codes "COMMIT") [] (state S.Store conn.old) (state S.Store conn.new) (Err c.error)) }
    ensures ended { HasCleanDisk (state S.Store conn.new) → IsTrue (state S.Store conn.old).in_transaction
        → IfErr result (λ _. HasEnded (state S.Store conn.old) (state S.Store conn.new)) }
    ensures survives { Survives (state S.Store conn.old) (state S.Store conn.new) (λ db. db ≡ (state S.Store conn.old).now.trees) }
{
    match commit(conn) {
        Ok(()) => Ok(()),
        Err(error) => Err(refused(error)),
    }
}

/// Ends the transaction if one runs. After a refusal nobody knows what is kept.
pub fn retract<S: Alter>(conn: &mut Connection<S>) -> Result<(), Cut>
    ensures ended { HasCleanDisk (state S.Store conn.new) → HasEnded (state S.Store conn.old) (state S.Store conn.new) }
    ensures cause { HasCleanDisk (state S.Store conn.new)
        → IfErr result (λ c. Executes (codes "ROLLBACK") [] (state S.Store conn.old) (state S.Store conn.new) (Err c.error)) }
    ensures inside { IfErr result (λ _. (state S.Store conn.old).in_transaction ≡ true) }
    ensures done { HasCleanDisk (state S.Store conn.new) → OnOk result (HasGoneBack S.Store conn.old conn.new) }
    ensures survives { Survives (state S.Store conn.old) (state S.Store conn.new) (λ _. ⊥) }
{
    match undo(conn) {
        Ok(()) => Ok(()),
        Err(error) => Err(refused(error)),
    }
}
