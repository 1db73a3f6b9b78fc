//! Stores of the first format, which an opening moves: the book that is found in them is that of a store of our format with the same
//! rows, also behind an opening that stops at one of its calls, or of which one call fails.
use crate::books::Books;
use crate::course::NOTHING;
use crate::files::{crashed, empty, found_in, opened};
use crate::stride::stride;
use crate::{failures, stops};
use sqlite::{Alter, Connection, FileStore, Files};
use sqlite_disk::Memory;
use std::alloc::Global;
use std::test::Fail;

/// The tables of the first format. Those of ours are one more.
const TABLES: &str = "CREATE TABLE meta (name TEXT PRIMARY KEY, value INTEGER NOT NULL) STRICT; \
CREATE TABLE text (num INTEGER PRIMARY KEY, body TEXT NOT NULL UNIQUE) STRICT; \
CREATE TABLE run (num INTEGER PRIMARY KEY, flow TEXT NOT NULL, req TEXT NOT NULL, textnum INTEGER NOT NULL REFERENCES text(num), isopen INTEGER NOT NULL CHECK (isopen IN (0, 1))) STRICT; \
CREATE TABLE event (run INTEGER NOT NULL REFERENCES run(num), id INTEGER NOT NULL, kind INTEGER NOT NULL, body TEXT NOT NULL, PRIMARY KEY (run, id)) STRICT; \
CREATE TABLE timer (run INTEGER NOT NULL REFERENCES run(num), id INTEGER NOT NULL, due INTEGER NOT NULL, PRIMARY KEY (run, id)) STRICT; \
CREATE TABLE outbox (run INTEGER NOT NULL REFERENCES run(num), id INTEGER NOT NULL, attempt INTEGER NOT NULL, ready INTEGER NOT NULL, PRIMARY KEY (run, id)) STRICT";

/// Texts, and runs of which some wait, for an activity, a timer and a signal, and some are closed.
const ROWS: &str =
    "INSERT INTO text (num, body) VALUES (1, 'workflow a(n: int) { activity c(int) -> int; let r = 0; if n == 0 { sleep 100; return 0; } r = call c(n) retry 3 every 500; continue as new(n); }'); \
INSERT INTO text (num, body) VALUES (2, 'workflow w() { signal s: int; let v = 0; while 1 == 1 { v = wait signal s; } }'); \
INSERT INTO text (num, body) VALUES (3, 'workflow f(n: int) { patch \"v2\" { fail \"no\"; } }'); \
INSERT INTO run (num, flow, req, textnum, isopen) VALUES (1, 'f', 'q1', 1, 0); \
INSERT INTO run (num, flow, req, textnum, isopen) VALUES (2, 'f', '', 1, 1); \
INSERT INTO run (num, flow, req, textnum, isopen) VALUES (3, 'g', 'q2', 1, 1); \
INSERT INTO run (num, flow, req, textnum, isopen) VALUES (4, 'h', 'q3', 2, 1); \
INSERT INTO run (num, flow, req, textnum, isopen) VALUES (5, 'i', 'q4', 3, 0); \
INSERT INTO timer (run, id, due) VALUES (3, 2, 1100); \
INSERT INTO outbox (run, id, attempt, ready) VALUES (2, 2, 1, 1500)";

/// Their events in the first format.
const FIRST: &str = "INSERT INTO meta (name, value) VALUES ('format', 1); \
INSERT INTO event (run, id, kind, body) VALUES (1, 1, 1, '{\"args\":[7],\"at\":1000}'); \
INSERT INTO event (run, id, kind, body) VALUES (1, 2, 7, '{\"activity\":\"c\",\"args\":[7],\"at\":1000,\"every\":500,\"gives\":\"int\",\"tries\":3}'); \
INSERT INTO event (run, id, kind, body) VALUES (1, 3, 3, '{\"at\":1500,\"of\":2,\"value\":41}'); \
INSERT INTO event (run, id, kind, body) VALUES (1, 4, 13, '{\"args\":[7],\"at\":1500}'); \
INSERT INTO event (run, id, kind, body) VALUES (2, 1, 1, '{\"args\":[7],\"at\":1500}'); \
INSERT INTO event (run, id, kind, body) VALUES (2, 2, 7, '{\"activity\":\"c\",\"args\":[7],\"at\":1500,\"every\":500,\"gives\":\"int\",\"tries\":3}'); \
INSERT INTO event (run, id, kind, body) VALUES (3, 1, 1, '{\"args\":[0],\"at\":1000}'); \
INSERT INTO event (run, id, kind, body) VALUES (3, 2, 8, '{\"at\":1000,\"due\":1100}'); \
INSERT INTO event (run, id, kind, body) VALUES (4, 1, 1, '{\"args\":[],\"at\":2000}'); \
INSERT INTO event (run, id, kind, body) VALUES (4, 2, 2, '{\"at\":2001,\"name\":\"s\",\"req\":\"s1\",\"value\":5}'); \
INSERT INTO event (run, id, kind, body) VALUES (5, 1, 1, '{\"args\":[1],\"at\":3000}'); \
INSERT INTO event (run, id, kind, body) VALUES (5, 2, 10, '{\"at\":3000,\"patch\":\"v2\"}'); \
INSERT INTO event (run, id, kind, body) VALUES (5, 3, 12, '{\"at\":3000,\"cause\":\"UserFail\",\"text\":\"no\"}')";

/// The same in ours.
const SECOND: &str =
    "CREATE TABLE event2 (run INTEGER NOT NULL REFERENCES run(num), id INTEGER NOT NULL, kind INTEGER NOT NULL, at INTEGER NOT NULL, body TEXT NOT NULL, PRIMARY KEY (run, id)) STRICT; \
INSERT INTO meta (name, value) VALUES ('format', 2); \
INSERT INTO event2 (run, id, kind, at, body) VALUES (1, 1, 1, 1000, '{\"args\":[7]}'); \
INSERT INTO event2 (run, id, kind, at, body) VALUES (1, 2, 7, 1000, '{\"activity\":\"c\",\"args\":[7],\"every\":500,\"gives\":\"int\",\"tries\":3}'); \
INSERT INTO event2 (run, id, kind, at, body) VALUES (1, 3, 3, 1500, '{\"of\":2,\"value\":41}'); \
INSERT INTO event2 (run, id, kind, at, body) VALUES (1, 4, 13, 1500, '{\"args\":[7]}'); \
INSERT INTO event2 (run, id, kind, at, body) VALUES (2, 1, 1, 1500, '{\"args\":[7]}'); \
INSERT INTO event2 (run, id, kind, at, body) VALUES (2, 2, 7, 1500, '{\"activity\":\"c\",\"args\":[7],\"every\":500,\"gives\":\"int\",\"tries\":3}'); \
INSERT INTO event2 (run, id, kind, at, body) VALUES (3, 1, 1, 1000, '{\"args\":[0]}'); \
INSERT INTO event2 (run, id, kind, at, body) VALUES (3, 2, 8, 1000, '{\"due\":1100}'); \
INSERT INTO event2 (run, id, kind, at, body) VALUES (4, 1, 1, 2000, '{\"args\":[]}'); \
INSERT INTO event2 (run, id, kind, at, body) VALUES (4, 2, 2, 2001, '{\"name\":\"s\",\"req\":\"s1\",\"value\":5}'); \
INSERT INTO event2 (run, id, kind, at, body) VALUES (5, 1, 1, 3000, '{\"args\":[1]}'); \
INSERT INTO event2 (run, id, kind, at, body) VALUES (5, 2, 10, 3000, '{\"patch\":\"v2\"}'); \
INSERT INTO event2 (run, id, kind, at, body) VALUES (5, 3, 12, 3000, '{\"cause\":\"UserFail\",\"text\":\"no\"}')";

/// Where the rows are, which `left` has written.
#[derive(Clone, Copy)]
enum Place {
    /// In the file of the pages: the store was closed.
    Pages,
    /// In the log: the machine stopped before the store was closed.
    Log,
}

fn fill<S: Alter>(conn: &mut Connection<S>, events: &str) -> bool {
    let is = conn.execute_batch("BEGIN").is_ok() && conn.execute_batch(TABLES).is_ok();
    let are = is && conn.execute_batch(ROWS).is_ok() && conn.execute_batch(events).is_ok();
    are && conn.execute_batch("COMMIT").is_ok()
}

/// The files behind a connection, whose log goes into the pages or stays.
fn files_of(conn: Connection<FileStore<Memory>>, place: Place) -> Option<Files<Memory>> {
    match place {
        Place::Pages => match conn.close_files() {
            Ok(files) => Some(files),
            Err((_error, store)) => {
                let _files = store.close();
                None
            }
        },
        Place::Log => Some(crashed(conn.into_store().close())),
    }
}

/// The files of a store with these events.
fn left(alloc: Global, events: &str, place: Place) -> Option<Files<Memory>> {
    match opened(alloc, empty(alloc)) {
        Ok(conn) => {
            let mut conn = conn;
            let is = fill(&mut conn, events);
            let files = files_of(conn, place);
            if is { files } else { None }
        }
        Err(_files) => None,
    }
}

/// The book that is found in a store with these events.
fn book(alloc: Global, events: &str, place: Place) -> Option<u64> {
    found_in(alloc, left(alloc, events, place)?)
}

fn are_moved(alloc: Global, place: Place) -> bool {
    let second = book(alloc, SECOND, Place::Pages);
    second.is_some() && book(alloc, FIRST, place) == second
}

#[test]
fn a_store_of_the_first_format_holds_its_book(rt: HostRuntime) -> Result<(), Fail> {
    assert!(rt; are_moved(rt.alloc(), Place::Pages));
    assert!(rt; are_moved(rt.alloc(), Place::Log));
    Ok(())
}

/// The book of a store of our format with the same rows.
fn books_of_second(alloc: Global) -> Option<Books> {
    Books::of(alloc, book(alloc, SECOND, Place::Pages))
}

/// Of the opening that moves a store, with a stop at each call.
fn stopped_moves(alloc: Global, place: Place, step: u64) -> Option<[u64; 4]> {
    let base = left(alloc, FIRST, place)?;
    let books = books_of_second(alloc)?;
    Some(stops::swept(alloc, &base, NOTHING, &books, step))
}

/// The same where each call fails.
fn failed_moves(alloc: Global, place: Place, step: u64) -> Option<[u64; 7]> {
    let base = left(alloc, FIRST, place)?;
    let books = books_of_second(alloc)?;
    Some(failures::swept(alloc, &base, NOTHING, &books, step))
}

/// Some failures refused the opening, and the book was found behind all.
fn are_right(figures: Option<[u64; 7]>) -> bool {
    match figures {
        Some(figures) => figures[1] > 0 && figures[6] == 0,
        None => false,
    }
}

#[test]
fn a_stop_in_a_move_leaves_the_book(rt: HostRuntime) -> Result<(), Fail> {
    let figures = stopped_moves(rt.alloc(), Place::Pages, stride(&rt, 6));
    println!(rt; "moves of a closed store, stopped: {figures:?}")?;
    assert!(rt; stops::is_right(figures));
    Ok(())
}

#[test]
fn a_stop_in_a_move_of_a_killed_store_leaves_the_book(rt: HostRuntime) -> Result<(), Fail> {
    let figures = stopped_moves(rt.alloc(), Place::Log, stride(&rt, 6));
    println!(rt; "moves of a killed store, stopped: {figures:?}")?;
    assert!(rt; stops::is_right(figures));
    Ok(())
}

#[test]
fn a_failure_in_a_move_leaves_the_book(rt: HostRuntime) -> Result<(), Fail> {
    let figures = failed_moves(rt.alloc(), Place::Pages, stride(&rt, 2));
    println!(rt; "moves of a closed store, failed: {figures:?}")?;
    assert!(rt; are_right(figures));
    Ok(())
}

#[test]
fn a_failure_in_a_move_of_a_killed_store_leaves_the_book(rt: HostRuntime) -> Result<(), Fail> {
    let figures = failed_moves(rt.alloc(), Place::Log, stride(&rt, 2));
    println!(rt; "moves of a killed store, failed: {figures:?}")?;
    assert!(rt; are_right(figures));
    Ok(())
}
