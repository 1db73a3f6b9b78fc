//! Opening, transactions, and what others left in the file.
use crate::tables::statements::{Statement, are_so};
use std::test::Fail;

const TWICE: &[Statement] = &[
    Statement::Opens(0, 0),
    Statement::Opens(0, 0),
    Statement::MakesNothing,
    Statement::IsFree,
];

#[test]
fn opens_twice(rt: HostRuntime) -> Result<(), Fail> {
    assert!(rt; are_so(rt.alloc(), TWICE));
    Ok(())
}

const PUT: Statement = Statement::Sql("INSERT INTO text (num, body) VALUES (1, 'a')");

const TEXTS: &str = "SELECT count(num) FROM text";

const KEPT: &[Statement] = &[
    Statement::Makes,
    Statement::Begins,
    PUT,
    Statement::RollsBack,
    Statement::Counts(TEXTS, 0),
    Statement::Begins,
    PUT,
    Statement::Commits,
    Statement::Counts(TEXTS, 1),
];

#[test]
fn keeps_what_was_committed(rt: HostRuntime) -> Result<(), Fail> {
    assert!(rt; are_so(rt.alloc(), KEPT));
    Ok(())
}

const ENDED: &[Statement] = &[
    Statement::Makes,
    Statement::Begins,
    PUT,
    Statement::Opens(0, 0),
    Statement::Counts(TEXTS, 0),
    Statement::Undoes,
];

#[test]
fn opening_ends_a_transaction(rt: HostRuntime) -> Result<(), Fail> {
    assert!(rt; are_so(rt.alloc(), ENDED));
    Ok(())
}

const OTHERS: &[Statement] = &[
    Statement::Sql("CREATE TABLE meta (name TEXT) STRICT"),
    Statement::IsNotOurs,
    Statement::IsFree,
    Statement::CountsNothing(TEXTS),
];

#[test]
fn leaves_tables_of_others(rt: HostRuntime) -> Result<(), Fail> {
    assert!(rt; are_so(rt.alloc(), OTHERS));
    Ok(())
}
