//! What is done with a connection to a store in memory, one statement after the other, and what each is to answer. One
//! function owns the connection, and lends it to each statement; the tests name rows alone.
use crate::tables::puts::{Asks, Comes, Put, change, turn};
use crate::tables::reads::{Read, is_read};
use crate::tables::rows::{Memory, Row, is_changed, run};
use flow_base::fault::Fault;
use flow_base::memory::NoMemory;
use flow_check::language::Language;
use flow_sql::transaction::{begin, commit, rollback, undo};
use flow_tables::book_changes::put_change;
use flow_tables::create::create;
use flow_tables::fault::Refusal;
use flow_tables::known::{any_standing, nothing_known};
use flow_tables::listener::Nobody;
use flow_tables::tables::Tables;
use flow_tables::turn_changes::put_turn;
use flow_view::view::View;
use sqlite::{Connection, Error, MemStore};
use std::alloc::Global;
use std::mem::replace;

/// A statement, and its answer.
#[derive(Clone, Copy)]
pub enum Statement {
    /// The tables are made, or refused.
    Makes,
    MakesNothing,
    /// The tables are opened, with so many texts and runs.
    Opens(u64, u64),
    /// An opening is refused, since the tables aren't ours.
    IsNotOurs,
    /// A transaction begins, is committed, rolled back, or ended if one runs.
    Begins,
    Commits,
    RollsBack,
    Undoes,
    /// No transaction runs.
    IsFree,
    /// A change of rows is taken, or refused.
    Changes(Row),
    Refuses(Row),
    /// The turn in which a run starts and completes is put.
    WholeTurn(u64),
    /// A change of the book is taken, refused as unfit, or refused.
    Puts(Put),
    PutsUnfit(Put),
    PutsNothing(Put),
    /// A question is answered so.
    Reads(Read),
    /// SQL of several statements is taken.
    Sql(&'static str),
    /// SQL counts this number, or is refused.
    Counts(&'static str, i64),
    CountsNothing(&'static str),
}

// Each call of the tables in a function without clauses, so that no other carries those of all.

fn makes(conn: &mut Memory) -> bool {
    create(conn).is_ok()
}

/// How many texts and runs tables show, if they can be read.
fn shown(tables: &mut Tables<MemStore>) -> Option<(u64, u64)> {
    tables.begin().ok()?;
    let texts = tables.text_count().ok()?;
    let runs = tables.run_count().ok()?;
    tables.rollback().ok()?;
    Some((texts, runs))
}

/// How many texts and runs the book has that opening gives. The connection comes back, whatever it gives.
fn opened(alloc: Global, conn: &mut Memory) -> Result<Option<(u64, u64)>, Fault> {
    let Ok(other) = Connection::open_in_memory(alloc) else {
        return Ok(None);
    };
    match Tables::open(alloc, &Language, replace(conn, other), Nobody) {
        Ok((mut tables, _book, _nobody)) => {
            let found = shown(&mut tables);
            *conn = tables.into_connection();
            Ok(found)
        }
        Err((fault, back)) => {
            *conn = back;
            Err(fault)
        }
    }
}

fn opens(alloc: Global, conn: &mut Memory, texts: u64, runs: u64) -> bool {
    match opened(alloc, conn) {
        Ok(Some(found)) => found == (texts, runs),
        Ok(None) => false,
        Err(_) => false,
    }
}

fn is_not_ours(alloc: Global, conn: &mut Memory) -> bool {
    matches!(opened(alloc, conn), Err(Fault::NotOurs))
}

fn begins(conn: &mut Memory) -> bool {
    begin(conn).is_ok()
}

fn commits(conn: &mut Memory) -> bool {
    commit(conn).is_ok()
}

fn rolls_back(conn: &mut Memory) -> bool {
    rollback(conn).is_ok()
}

fn undoes(conn: &mut Memory) -> bool {
    undo(conn).is_ok()
}

fn puts_whole_turn(alloc: Global, conn: &mut Memory, number: u64) -> bool {
    let Ok(run) = run(number) else {
        return false;
    };
    match turn(alloc, 5, Comes::Start, Asks::Ends) {
        Ok(turn) => put_turn(alloc, conn, run, &any_standing(false), 0, &turn).is_ok(),
        Err(_) => false,
    }
}

/// What a change of the book is answered.
fn put(alloc: Global, conn: &mut Memory, put: Put) -> Result<(), Refusal> {
    match change(alloc, put) {
        Ok(change) => put_change(alloc, conn, &nothing_known(), &change),
        Err(_) => Err(Refusal::NoMemory(NoMemory::told())),
    }
}

fn is_sql(conn: &mut Memory, sql: &str) -> bool {
    conn.execute_batch(sql).is_ok()
}

fn count(conn: &mut Memory, sql: &str) -> Result<i64, Error> {
    conn.query_row(sql, &[])?.get(0)
}

fn counts(conn: &mut Memory, sql: &str, wanted: i64) -> bool {
    match count(conn, sql) {
        Ok(number) => number == wanted,
        Err(_) => false,
    }
}

/// Whether SQL counts these numbers.
pub fn is_told(conn: &mut Memory, wanted: &[(&str, i64)]) -> bool {
    for (sql, number) in wanted {
        if !counts(conn, sql, *number) {
            return false;
        }
    }
    true
}

fn is_put(alloc: Global, conn: &mut Memory, statement: Statement) -> bool {
    match statement {
        Statement::Changes(row) => is_changed(alloc, conn, row),
        Statement::Refuses(row) => !is_changed(alloc, conn, row),
        Statement::WholeTurn(run) => puts_whole_turn(alloc, conn, run),
        Statement::Puts(change) => put(alloc, conn, change) == Ok(()),
        Statement::PutsUnfit(change) => put(alloc, conn, change) == Err(Refusal::Unfit),
        Statement::PutsNothing(change) => put(alloc, conn, change).is_err(),
        _ => false,
    }
}

fn is_counted(alloc: Global, conn: &mut Memory, statement: Statement) -> bool {
    match statement {
        Statement::Reads(read) => is_read(alloc, conn, read),
        Statement::Sql(sql) => is_sql(conn, sql),
        Statement::Counts(sql, number) => counts(conn, sql, number),
        Statement::CountsNothing(sql) => count(conn, sql).is_err(),
        other => is_put(alloc, conn, other),
    }
}

/// Whether a statement answers so.
fn is_so(alloc: Global, conn: &mut Memory, statement: Statement) -> bool {
    match statement {
        Statement::Makes => makes(conn),
        Statement::MakesNothing => !makes(conn),
        Statement::Opens(texts, runs) => opens(alloc, conn, texts, runs),
        Statement::IsNotOurs => is_not_ours(alloc, conn),
        Statement::Begins => begins(conn),
        Statement::Commits => commits(conn),
        Statement::RollsBack => rolls_back(conn),
        Statement::Undoes => undoes(conn),
        Statement::IsFree => conn.is_autocommit(),
        other => is_counted(alloc, conn, other),
    }
}

fn all_so(alloc: Global, conn: &mut Memory, statements: &[Statement]) -> bool {
    for statement in statements {
        if !is_so(alloc, conn, *statement) {
            return false;
        }
    }
    true
}

fn both_so(alloc: Global, conn: &mut Memory, first: &[Statement], then: &[Statement]) -> bool {
    all_so(alloc, conn, first) && all_so(alloc, conn, then)
}

/// Whether each of these statements over an empty store answers so, and behind them each of the others.
pub fn are_so_behind(alloc: Global, first: &[Statement], then: &[Statement]) -> bool {
    match Connection::open_in_memory(alloc) {
        Ok(mut conn) => both_so(alloc, &mut conn, first, then),
        Err(_) => false,
    }
}

/// Whether each of these statements over an empty store answers so.
pub fn are_so(alloc: Global, statements: &[Statement]) -> bool {
    are_so_behind(alloc, statements, &[])
}
