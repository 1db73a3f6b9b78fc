//! Opening over the rows of a small history, without one of our tables, and beside another. `tests/cases` has damaged rows.
use crate::tables::statements::{Statement, are_so, are_so_behind};
use std::test::Fail;

/// A run that waits for an activity and a timer.
const ROWS: &str = "INSERT INTO text (num, body) VALUES (1, 'workflow a() {}'); \
INSERT INTO run (num, flow, req, textnum, isopen) VALUES (1, 'f', 'q', 1, 1); \
INSERT INTO event2 (run, id, kind, at, body) VALUES (1, 1, 1, 1000, '{\"args\":[]}'); \
INSERT INTO event2 (run, id, kind, at, body) VALUES (1, 2, 7, 1000, '{\"activity\":\"c\",\"args\":[7],\"every\":500,\"gives\":\"int\",\"tries\":3}'); \
INSERT INTO event2 (run, id, kind, at, body) VALUES (1, 3, 8, 1000, '{\"due\":1100}'); \
INSERT INTO timer (run, id, due) VALUES (1, 3, 1100); \
INSERT INTO outbox (run, id, attempt, ready) VALUES (1, 2, 1, 1000)";

const FILLED: &[Statement] = &[Statement::Makes, Statement::Sql(ROWS)];

const WHOLE: &[Statement] = &[
    Statement::Opens(1, 1),
    Statement::IsFree,
    Statement::Opens(1, 1),
];

#[test]
fn rows_of_a_book_are_opened(rt: HostRuntime) -> Result<(), Fail> {
    assert!(rt; are_so_behind(rt.alloc(), FILLED, WHOLE));
    Ok(())
}

const DROPPED: &[Statement] = &[Statement::Sql("DROP TABLE outbox"), Statement::IsNotOurs];

#[test]
fn a_missing_table(rt: HostRuntime) -> Result<(), Fail> {
    assert!(rt; are_so_behind(rt.alloc(), FILLED, DROPPED));
    Ok(())
}

/// A table that isn't ours keeps its row, and ours come beside it.
const NOTE: &[Statement] = &[
    Statement::Sql("CREATE TABLE note (said TEXT) STRICT; INSERT INTO note (said) VALUES ('a')"),
    Statement::Opens(0, 0),
    Statement::Counts("SELECT count(*) FROM note, meta", 1),
];

#[test]
fn a_table_of_others_stays(rt: HostRuntime) -> Result<(), Fail> {
    assert!(rt; are_so(rt.alloc(), NOTE));
    Ok(())
}
