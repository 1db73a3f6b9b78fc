//! What is done with a store, one act after the other, and what each is to come to. Whatever kind of store it is, one function
//! owns its connection between two acts, and each act opens it, asks and closes it again. The tests name acts alone.
use crate::engines::{Asking, answers_so, lists_open};
use crate::keepers::{Keeping, keeps};
use crate::opening::{Recovering, recovers};
use crate::positions::{Case, has_positions};
use flow_recover::reopen::reopen;
use flow_settings::settings::Settings;
use sqlite::{Alter, Connection, FileStore, Files, MemStore, Options};
use sqlite_disk::{Disk, Fuse, Memory};
use std::alloc::Global;

/// What is done with a store.
#[derive(Clone, Copy)]
pub enum Act {
    /// From here on a statement may visit so many rows, or any number.
    Limits(Option<u64>),
    /// It is changed by a statement.
    Changes(&'static str),
    /// Each of these statements finds so many rows.
    Counts(&'static [(&'static str, usize)]),
    /// A keeper is opened for it, asked and closed.
    Keeps(Keeping),
    /// It is opened, after a stop or anew.
    Recovers(Recovering),
    /// Its book has these positions.
    Has(Case),
    /// An engine with the usual settings is opened for it, asked and closed.
    Asks(Asking),
    /// The same with so many positions at most.
    AsksWith(usize, Asking),
    /// An engine is opened for it, and lists these runs as open.
    Lists(&'static [u64]),
    /// This was written since the store was new, or since this was asked before.
    Wrote(&'static [u8]),
}

fn count<S: Alter>(conn: &mut Connection<S>, sql: &str) -> usize {
    match conn.query_all(sql, &[]) {
        Ok(rows) => rows.len(),
        Err(_) => 99,
    }
}

fn are_counted<S: Alter>(conn: &mut Connection<S>, wanted: &[(&str, usize)]) -> bool {
    let mut are = true;
    for (sql, rows) in wanted {
        are = are && count(conn, *sql) == *rows;
    }
    are
}

/// Whether an act of the store itself is done so.
fn is_so<S: Alter>(conn: &mut Connection<S>, act: Act) -> bool {
    match act {
        Act::Limits(rows) => {
            conn.set_step_limit(rows);
            true
        }
        Act::Changes(sql) => conn.execute_batch(sql).is_ok(),
        Act::Counts(wanted) => are_counted(conn, wanted),
        _ => false,
    }
}

fn is_written(out: &mut Vec<u8>, wanted: &[u8]) -> bool {
    let is = out.as_slice() == wanted;
    out.clear();
    is
}

fn lent<S: Alter>(conn: Connection<S>, act: Act) -> (bool, Connection<S>) {
    let mut conn = conn;
    let is = is_so(&mut conn, act);
    (is, conn)
}

fn asked<S: Alter>(
    alloc: Global,
    conn: Connection<S>,
    settings: Option<Settings>,
    asking: Asking,
    out: &mut Vec<u8>,
) -> (bool, Connection<S>) {
    match settings {
        Some(settings) => answers_so(alloc, conn, settings, asking, out),
        None => (false, conn),
    }
}

/// Whether an act is done so, and the store behind it. What lines are answered is written behind what was written before.
fn done<S: Alter>(
    alloc: Global,
    conn: Connection<S>,
    act: Act,
    out: &mut Vec<u8>,
) -> (bool, Connection<S>) {
    match act {
        Act::Keeps(keeping) => keeps(alloc, conn, keeping),
        Act::Recovers(recovering) => recovers(alloc, conn, recovering),
        Act::Has(case) => has_positions(alloc, conn, case),
        Act::Asks(asking) => answers_so(alloc, conn, Settings::usual(), asking, out),
        Act::AsksWith(most, asking) => {
            asked(alloc, conn, Settings::new(16, 4, most), asking, out)
        }
        Act::Lists(runs) => lists_open(alloc, conn, runs),
        Act::Wrote(wanted) => (is_written(out, wanted), conn),
        other => lent(conn, other),
    }
}

fn all_done<S: Alter>(
    alloc: Global,
    conn: Connection<S>,
    acts: &[Act],
    out: &mut Vec<u8>,
) -> (bool, Connection<S>) {
    let mut conn = conn;
    let mut are = true;
    for act in acts {
        let (is, next) = done(alloc, conn, *act, out);
        conn = next;
        are = are && is;
    }
    (are, conn)
}

// What a stop leaves of it, opened anew.
fn stopped(alloc: Global, conn: Connection<MemStore>) -> Option<Connection<MemStore>> {
    match reopen(alloc, conn.into_store()) {
        Ok(conn) => Some(conn),
        Err((_, _)) => None,
    }
}

// The store of the next life: the first one is as it was made.
fn next_life(
    alloc: Global,
    conn: Connection<MemStore>,
    is_first: bool,
) -> Option<Connection<MemStore>> {
    if is_first {
        return Some(conn);
    }
    stopped(alloc, conn)
}

/// Whether the acts of each life of a store are done so. Between two lives it is stopped, and opened anew with what the stop left.
fn all_lived(
    alloc: Global,
    conn: Connection<MemStore>,
    lives: &[&[Act]],
    out: &mut Vec<u8>,
) -> bool {
    let mut conn = conn;
    let mut are = true;
    let mut is_first = true;
    for acts in lives {
        match next_life(alloc, conn, is_first) {
            Some(next) => {
                let (is, left) = all_done(alloc, next, *acts, out);
                conn = left;
                are = are && is;
            }
            None => return false,
        }
        is_first = false;
    }
    // A store is let go of, and no connection.
    let _store = conn.into_store();
    are
}

/// The same of a new store in memory.
fn lives_in_memory(alloc: Global, lives: &[&[Act]], out: &mut Vec<u8>) -> bool {
    match Connection::open_in_memory(alloc) {
        Ok(conn) => all_lived(alloc, conn, lives, out),
        Err(_) => false,
    }
}

/// Whether each of these acts is done so over a new store in memory. What lines are answered is written.
pub fn are_written(alloc: Global, acts: &[Act], out: &mut Vec<u8>) -> bool {
    lives_in_memory(alloc, &[acts], out)
}

/// Whether the acts of each life of a new store in memory are done so, with a stop between two lives.
pub fn are_so_in_lives(alloc: Global, lives: &[&[Act]]) -> bool {
    let mut out = Vec::new(alloc);
    lives_in_memory(alloc, lives, &mut out)
}

/// Whether each of these acts is done so over a new store in memory.
pub fn are_so(alloc: Global, acts: &[Act]) -> bool {
    are_so_in_lives(alloc, &[acts])
}

/// Whether these acts are done so over a store in files, and the files.
fn all_done_in_files<D: Disk + Drop>(
    alloc: Global,
    conn: Connection<FileStore<D>>,
    acts: &[Act],
) -> (bool, Files<D>) {
    let mut out = Vec::new(alloc);
    let (are, conn) = all_done(alloc, conn, acts, &mut out);
    (are, conn.into_store().close())
}

fn are_so_in_files<D: Disk + Drop>(
    alloc: Global,
    files: Files<D>,
    cache_pages: usize,
    acts: &[Act],
) -> (bool, Files<D>) {
    if !files.may_be_used() {
        return (false, files);
    }
    let mut options = Options::new(1);
    options.cache_pages = cache_pages;
    match Connection::open_files(alloc, files, options) {
        Ok(conn) => all_done_in_files(alloc, conn, acts),
        Err((_, left)) => (false, left.into_files()),
    }
}

/// The same over files in memory, whose log fails from so many calls on, with so many pages at hand.
pub fn are_so_failing(alloc: Global, calls: u64, cache_pages: usize, acts: &[Act]) -> bool {
    let files = Files {
        log: Fuse::new(Memory::new(alloc), calls),
        db: Fuse::new(Memory::new(alloc), u64::MAX),
    };
    let (are, _files) = are_so_in_files(alloc, files, cache_pages, acts);
    are
}
