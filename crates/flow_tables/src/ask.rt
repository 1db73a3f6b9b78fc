//! Questions to the tables and changes of their rows, each one statement. One that is refused has changed nothing, or the
//! transaction has ended.
ghost use Rattle.std.specs.Prelude.{◌≡◌};
ghost use Rattle.flow_tables.specs.Names.{Row as SqlRow, List, map, Book, Tells as TellsBook, Tables, read_sql, write_sql, state, Executes};
ghost use Rattle.flow_tables.specs.Names.{HasCleanDisk, Survives, IfErr, CommitsBy, Shown, FailsToQuery, IfOk};
ghost use Rattle.sqlite.specs.State.{CommitsShowing};
ghost use Rattle.flow_tables.specs.Reads.{Tells, IsReadFault};
ghost use Rattle.flow_tables.specs.Asking.{IsAsked, IsFirst, IsValue, IsRecalled, IsChanged};
ghost use Rattle.flow_sql.specs.Meaning.{Asks, IsReadSo, Alters};

use crate::fault::{StoreFault, view_fault};
use crate::questions::first_of;
use crate::rows::{Said, read_all};
use flow_view::fault::ViewFault;
use sqlite::{Alter, Connection, Error, Row};
use std::alloc::Global;

/// What is asked of the tables in one statement.
pub trait Question: Sized {
    /// What a row of the answer says.
    type Item: Said + Drop;

    ghost asks: { Self → Asks Self.Item };

    fn send<S: Alter>(&self, conn: &mut Connection<S>) -> Result<Vec<Row>, Error>
        ensures ok { HasCleanDisk (state S.Store conn.new)
            → IfOk result (λ rows. Shown (read_sql (asks self.now).read) (asks self.now).params (state S.Store conn.old)
            (state S.Store conn.new) rows.items) }
        ensures err { HasCleanDisk (state S.Store conn.new)
            → IfErr result (FailsToQuery (read_sql (asks self.now).read) (asks self.now).params (state S.Store conn.old)
            (state S.Store conn.new)) }
        ensures survives { Survives (state S.Store conn.old) (state S.Store conn.new)
            (CommitsShowing (read_sql (asks self.now).read) (asks self.now).params (state S.Store conn.old)) }
        ensures so { IsReadSo (asks self.now) Self.Item.said Self.Item.kinds };
}

/// A question whose answer is a value of the book.
pub(crate) trait OfBook: Question {
    type Value: Drop;

    ghost value: { Self → Book → Self.Value };

    fn value(&self, items: Vec<Self::Item>) -> Result<Self::Value, ViewFault>
        ensures { (t : Tables) (b : Book) → TellsBook t b → (Self.asks self.now).tells t items.items → IsValue result (value self.now b) };
}

/// What is read of the book, in one question or several.
pub(crate) trait BookRead {
    type Value: Drop;

    ghost value: { Self → Book → Self.Value };

    fn read<S: Alter>(
        &self,
        alloc: Global,
        conn: &mut Connection<S>,
    ) -> Result<Self::Value, ViewFault>
        ensures { IsRecalled S.Store conn.old conn.new result (value self.now) };
}

/// What the rows of the answer say, whatever tables there are.
pub fn ask_rows<Q: Question, S: Alter>(
    alloc: Global,
    conn: &mut Connection<S>,
    question: &Q,
) -> Result<Vec<Q::Item>, StoreFault>
    ensures said { HasCleanDisk (state S.Store conn.new)
        → IfOk result (λ v. Tells Q.Item.said (read_sql (Q.asks question.now).read) (Q.asks question.now).params (state S.Store conn.old)
        (state S.Store conn.new) v.items) }
    ensures cause { HasCleanDisk (state S.Store conn.new)
        → IfErr result (IsReadFault Q.Item.kinds (read_sql (Q.asks question.now).read) (Q.asks question.now).params
        (state S.Store conn.old) (state S.Store conn.new)) }
    ensures survives { Survives (state S.Store conn.old) (state S.Store conn.new)
        (CommitsShowing (read_sql (Q.asks question.now).read) (Q.asks question.now).params (state S.Store conn.old)) }
    ensures so { IsReadSo (Q.asks question.now) Q.Item.said Q.Item.kinds }
    // Whatever the tables are, each item is what a row said.
    ensures shown { IfOk result (λ v. (rows : List SqlRow) × (v.items ≡ map Q.Item.said rows)) }
{
    match question.send(conn) {
        Ok(rows) => read_all(alloc, rows.as_slice()),
        Err(error) => Err(StoreFault::from(error)),
    }
}

/// What the rows of the answer say.
pub fn ask<Q: Question, S: Alter>(
    alloc: Global,
    conn: &mut Connection<S>,
    question: &Q,
) -> Result<Vec<Q::Item>, StoreFault>
    ensures { IsAsked (read_sql (Q.asks question.now).read) (Q.asks question.now).params Q.Item.kinds (state S.Store conn.old)
        (state S.Store conn.new) result (λ t v. (Q.asks question.now).tells t v.items) }
{
    ask_rows(alloc, conn, question)
}

/// What the rows of the answer say; and each item is what a row said, whatever the tables are.
pub(crate) fn ask_said<Q: Question, S: Alter>(
    alloc: Global,
    conn: &mut Connection<S>,
    question: &Q,
) -> Result<Vec<Q::Item>, StoreFault>
    ensures asked { IsAsked (read_sql (Q.asks question.now).read) (Q.asks question.now).params Q.Item.kinds (state S.Store conn.old)
        (state S.Store conn.new) result (λ t v. (Q.asks question.now).tells t v.items) }
    ensures said { HasCleanDisk (state S.Store conn.new)
        → IfOk result (λ v. Tells Q.Item.said (read_sql (Q.asks question.now).read) (Q.asks question.now).params (state S.Store conn.old)
        (state S.Store conn.new) v.items) }
    ensures shown { IfOk result (λ v. (rows : List SqlRow) × (v.items ≡ map Q.Item.said rows)) }
{
    ask_rows(alloc, conn, question)
}

/// What the first row of the answer says.
pub fn ask_first<Q: Question, S: Alter>(
    alloc: Global,
    conn: &mut Connection<S>,
    question: &Q,
) -> Result<Option<Q::Item>, StoreFault>
    ensures { IsAsked (read_sql (Q.asks question.now).read) (Q.asks question.now).params Q.Item.kinds (state S.Store conn.old)
        (state S.Store conn.new) result (IsFirst (Q.asks question.now).tells) }
{
    match ask(alloc, conn, question) {
        Ok(items) => Ok(first_of(items)),
        Err(fault) => Err(fault),
    }
}

/// A question as a read of the book.
#[derive(Drop)]
pub(crate) struct Of<Q>(pub(crate) Q);

impl<Q: OfBook> BookRead for Of<Q> {
    type Value = Q::Value;

    ghost value = { λ q. Q.value q.0 };

    fn read<S: Alter>(
        &self,
        alloc: Global,
        conn: &mut Connection<S>,
    ) -> Result<Q::Value, ViewFault> {
        match ask(alloc, conn, &self.0) {
            Ok(items) => self.0.value(items),
            Err(fault) => Err(view_fault(fault)),
        }
    }
}

/// A change of rows in one statement.
pub trait RowChange: Sized {
    ghost does: { Self → Alters };

    fn send<S: Alter>(&self, conn: &mut Connection<S>) -> Result<usize, Error>
        ensures runs { HasCleanDisk (state S.Store conn.new)
            → Executes (write_sql (does self.now).write) (does self.now).params (state S.Store conn.old) (state S.Store conn.new) result }
        ensures survives { Survives (state S.Store conn.old) (state S.Store conn.new)
            (CommitsBy (write_sql (does self.now).write) (does self.now).params (state S.Store conn.old)) }
        ensures sure { (does self.now).sure };
}

/// Changes the rows so.
pub fn change<C: RowChange, S: Alter>(conn: &mut Connection<S>, change: &C) -> Result<(), Error>
    ensures { IsChanged S.Store (write_sql (C.does change.now).write) (C.does change.now).params conn.old conn.new result
        (C.does change.now).fits (C.does change.now).welcome (C.does change.now).after }
{
    match change.send(conn) {
        Ok(_) => Ok(()),
        Err(error) => Err(error),
    }
}
