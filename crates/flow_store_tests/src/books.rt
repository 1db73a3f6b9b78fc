//! Books as one number each: a digest of all rows of a store, which an opening takes for sound.
use crate::course::{Course, Ended, NOTHING, Plan, asked};
use sqlite::{Alter, Connection, MemStore, Row};
use sqlite_disk::digest_of;
use sqlite_value::value::ValueRef;
use std::alloc::Global;

/// All rows, in an order that is theirs alone.
const TABLES: [&str; 5] = [
    "SELECT num, body FROM text ORDER BY num",
    "SELECT num, flow, req, textnum, isopen FROM run ORDER BY num",
    "SELECT run, id, kind, at, body FROM event2 ORDER BY run, id",
    "SELECT run, id, due FROM timer ORDER BY run, id",
    "SELECT run, id, attempt, ready FROM outbox ORDER BY run, id",
];

fn add(out: &mut Vec<u8>, bytes: &[u8]) -> bool {
    // A value ends by a byte that no text of ours has.
    out.extend_from_slice(bytes).is_ok() && out.push(255).is_ok()
}

fn add_value(out: &mut Vec<u8>, row: &Row, at: usize) -> bool {
    match row.get_ref(at) {
        Ok(ValueRef::Int(number)) => add(out, &number.to_le_bytes()),
        Ok(ValueRef::Text(text)) => add(out, text),
        _ => false,
    }
}

fn add_row(out: &mut Vec<u8>, row: &Row) -> bool {
    let mut is = true;
    for at in 0..row.column_count() {
        is = add_value(out, row, at) && is;
    }
    is
}

fn add_rows(out: &mut Vec<u8>, rows: &[Row]) -> bool {
    let mut is = true;
    for row in rows {
        is = add_row(out, row) && is;
    }
    is && add(out, b"")
}

fn add_table<S: Alter>(out: &mut Vec<u8>, conn: &mut Connection<S>, sql: &str) -> bool {
    match conn.query_all(sql, &[]) {
        Ok(rows) => add_rows(out, rows.as_slice()),
        Err(_) => false,
    }
}

fn digest<S: Alter>(alloc: Global, conn: &mut Connection<S>) -> Option<u64> {
    let mut out = Vec::new(alloc);
    let mut is = true;
    for sql in &TABLES {
        is = add_table(&mut out, conn, *sql) && is;
    }
    if is {
        Some(digest_of(0, out.as_slice()))
    } else {
        None
    }
}

/// The book that an opening finds, and the store behind it. None: it is refused.
pub fn found<S: Alter>(alloc: Global, conn: Connection<S>) -> (Option<u64>, Connection<S>) {
    let (course, conn) = asked(alloc, conn, NOTHING);
    let mut conn = conn;
    let book = if course.is_open {
        digest(alloc, &mut conn)
    } else {
        None
    };
    (book, conn)
}

/// A book, and what the replies to its batches name.
#[derive(Clone, Copy)]
struct Known {
    book: u64,
    told: u64,
}

/// The books that a plan leads to where nothing disturbs it.
#[derive(Drop)]
pub struct Books {
    /// Before its first batch, and after each of them.
    after: Vec<Known>,
    /// After all batches but one, for each of them.
    without: Vec<Known>,
}

fn is_at(list: &[Known], at: u64, book: Option<u64>) -> bool {
    match list.get(at as usize) {
        Some(known) => Some(known.book) == book,
        None => false,
    }
}

fn is_told_at(list: &[Known], at: u64, told: u64) -> bool {
    match list.get(at as usize) {
        Some(known) => known.told == told,
        None => false,
    }
}

impl Books {
    /// The one book of nothing.
    pub fn of(alloc: Global, book: Option<u64>) -> Option<Books> {
        let mut after = Vec::new(alloc);
        let is = push(&mut after, book, 0);
        let without = Vec::new(alloc);
        if is {
            Some(Books { after, without })
        } else {
            None
        }
    }

    /// Whether it is the book after so many batches.
    pub fn is_after(&self, batches: u64, book: Option<u64>) -> bool {
        is_at(self.after.as_slice(), batches, book)
    }

    /// Whether it is the book after all batches but this one.
    pub fn is_without(&self, batch: u64, book: Option<u64>) -> bool {
        is_at(self.without.as_slice(), batch, book)
    }

    /// Whether the replies to the batches of a course that were kept are those that nothing disturbs.
    pub fn are_told(&self, course: &Course) -> bool {
        if course.broken == Ended::GivenUp && course.kept_later > 0 {
            return is_told_at(self.without.as_slice(), course.kept, course.told);
        }
        is_told_at(self.after.as_slice(), course.kept, course.told)
    }
}

fn push(list: &mut Vec<Known>, book: Option<u64>, told: u64) -> bool {
    match book {
        Some(book) => list.push(Known { book, told }).is_ok(),
        None => false,
    }
}

/// The book behind batches that are all kept, what the replies to them name, and the store behind them.
fn kept<S: Alter>(
    alloc: Global,
    conn: Connection<S>,
    plan: Plan,
) -> (Option<u64>, u64, Connection<S>) {
    let (course, conn) = asked(alloc, conn, plan);
    let (book, conn) = found(alloc, conn);
    (
        if course.broken == Ended::Kept {
            book
        } else {
            None
        },
        course.told,
        conn,
    )
}

/// Puts the book before a plan's first batch and those after each of them into the list.
fn note_after(
    alloc: Global,
    conn: Connection<MemStore>,
    plan: Plan,
    list: &mut Vec<Known>,
) -> bool {
    let (book, told, next) = kept(alloc, conn, NOTHING);
    let mut conn = next;
    let mut are = push(list, book, told);
    let mut all_told = told;
    for at in plan.from..plan.to {
        let (book, told, next) = kept(alloc, conn, plan.only(at));
        conn = next;
        all_told = all_told.wrapping_add(told);
        are = push(list, book, all_told) && are;
    }
    let _store = conn.into_store();
    are
}

fn book_over(alloc: Global, conn: Connection<MemStore>, plan: Plan) -> (Option<u64>, u64) {
    let (book, told, conn) = kept(alloc, conn, plan);
    let _store = conn.into_store();
    (book, told)
}

/// The book that a plan leads to over a new store in memory, and what the replies to its batches name.
pub fn book(alloc: Global, plan: Plan) -> (Option<u64>, u64) {
    match Connection::open_in_memory(alloc) {
        Ok(conn) => book_over(alloc, conn, plan),
        Err(_) => (None, 0),
    }
}

fn after(alloc: Global, plan: Plan, list: &mut Vec<Known>) -> bool {
    match Connection::open_in_memory(alloc) {
        Ok(conn) => note_after(alloc, conn, plan, list),
        Err(_) => false,
    }
}

fn without(alloc: Global, plan: Plan, list: &mut Vec<Known>) -> bool {
    let mut are = true;
    for at in plan.from..plan.to {
        let (book, told) = book(alloc, plan.all_but(at));
        are = push(list, book, told) && are;
    }
    are
}

/// The books of a plan, over stores in memory.
pub fn books_of(alloc: Global, plan: Plan) -> Option<Books> {
    let mut books = Books {
        after: Vec::new(alloc),
        without: Vec::new(alloc),
    };
    let are = after(alloc, plan, &mut books.after) && without(alloc, plan, &mut books.without);
    if are { Some(books) } else { None }
}
