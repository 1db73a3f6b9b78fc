//! An event of each kind is written as the row that it was read from, in either format.
use crate::histories::{CALLED, Row, STARTED, event};
use flow_base::code::Code;
use flow_base::event::Event;
use flow_base::number::EventId;
use flow_events::kind::EventKind;
use flow_events::row::{of_row, to_body, to_row};
use std::alloc::Global;
use std::test::Fail;

/// A row of each kind, in the order of kinds.
const ROWS: &[Row] = &[
    STARTED,
    (2, 2, r#"{"at":5,"name":"paid","req":"q-1","value":"hi"}"#),
    (3, 3, r#"{"at":1500,"of":2,"value":41}"#),
    (3, 4, r#"{"at":5,"of":2,"text":"no"}"#),
    (3, 5, r#"{"at":1000000000000000,"of":2}"#),
    (4, 6, r#"{"at":5,"text":"history limit"}"#),
    CALLED,
    (2, 8, r#"{"at":1000,"due":1100}"#),
    (4, 9, r#"{"at":1100,"of":2}"#),
    (2, 10, r#"{"at":0,"patch":"v2"}"#),
    (4, 11, r#"{"at":0,"value":"a\n\u001f\"\\/é"}"#),
    (4, 12, r#"{"at":1500,"cause":"Arith","text":""}"#),
    (2, 13, r#"{"args":[1],"at":10}"#),
];

/// The moment and the body of each in the second format.
const BESIDE: &[(i64, &str)] = &[
    (1000, r#"{"args":[7]}"#),
    (5, r#"{"name":"paid","req":"q-1","value":"hi"}"#),
    (1500, r#"{"of":2,"value":41}"#),
    (5, r#"{"of":2,"text":"no"}"#),
    (1000000000000000, r#"{"of":2}"#),
    (5, r#"{"text":"history limit"}"#),
    (
        1000,
        r#"{"activity":"c","args":[7,"eur"],"every":0,"gives":"int","tries":1}"#,
    ),
    (1000, r#"{"due":1100}"#),
    (1100, r#"{"of":2}"#),
    (0, r#"{"patch":"v2"}"#),
    (0, r#"{"value":"a\n\u001f\"\\/é"}"#),
    (1500, r#"{"cause":"Arith","text":""}"#),
    (10, r#"{"args":[1]}"#),
];

fn has_body(alloc: Global, event: &Event, body: &str) -> bool {
    match to_body(alloc, event) {
        Ok(text) => text.as_str() == body,
        Err(_refused) => false,
    }
}

fn is_written_again(alloc: Global, row: Row) -> bool {
    let (_, kind, body) = row;
    match &event(alloc, row) {
        Some(event) => EventKind::of(&event.what).number() == kind && has_body(alloc, event, body),
        None => false,
    }
}

// The number of the first row that is written otherwise; how many there are where none is such.
fn first_other(alloc: Global, rows: &[Row]) -> usize {
    for i in 0..rows.len() {
        if !is_written_again(alloc, rows[i]) {
            return i;
        }
    }
    rows.len()
}

fn has_row(alloc: Global, event: &Event, kind: i64, at: i64, body: &str) -> bool {
    match to_row(alloc, event) {
        Ok(row) => row.kind == kind && row.at == at && row.body.as_str() == body,
        Err(_refused) => false,
    }
}

fn is_written_beside(alloc: Global, row: Row, at: i64, body: &str) -> bool {
    let (_, kind, _) = row;
    match &event(alloc, row) {
        Some(event) => has_row(alloc, event, kind, at, body),
        None => false,
    }
}

// The event of a row of the second format, by its body with the moment in it.
fn is_read_beside(alloc: Global, row: Row, at: i64, body: &str) -> bool {
    let (id, kind, text) = row;
    let Some(id) = EventId::new(id) else {
        return false;
    };
    match &of_row(alloc, id, kind, at, body) {
        Ok(event) => has_body(alloc, event, text),
        Err(_fault) => false,
    }
}

// The number of the first row that is written or read otherwise in the second format.
fn first_other_beside(alloc: Global, rows: &[Row], beside: &[(i64, &str)]) -> usize {
    for i in 0..rows.len() {
        if i >= beside.len() {
            return i;
        }
        let (at, body) = beside[i];
        if !is_written_beside(alloc, rows[i], at, body)
            || !is_read_beside(alloc, rows[i], at, body)
        {
            return i;
        }
    }
    rows.len()
}

// Why a row of the second format is no event.
fn refusal(alloc: Global, kind: i64, at: i64, body: &str) -> Option<Code> {
    match of_row(alloc, EventId::new(3)?, kind, at, body) {
        Ok(_event) => None,
        Err(fault) => Some(fault.code()),
    }
}

#[test]
fn an_event_is_written_as_its_row(rt: HostRuntime) -> Result<(), Fail> {
    assert!(rt; first_other(rt.alloc(), ROWS) == 13);
    Ok(())
}

#[test]
fn its_row_has_the_moment_in_a_column(rt: HostRuntime) -> Result<(), Fail> {
    assert!(rt; first_other_beside(rt.alloc(), ROWS, BESIDE) == 13);
    Ok(())
}

#[test]
fn a_moment_has_one_place(rt: HostRuntime) -> Result<(), Fail> {
    let alloc = rt.alloc();
    let body = r#"{"of":2,"value":41}"#;
    assert!(rt; refusal(alloc, 3, 1500, body) == None);
    assert!(rt; refusal(alloc, 3, 1500, r#"{"at":1500,"of":2,"value":41}"#) == Some(Code::BadBody));
    assert!(rt; refusal(alloc, 3, -1, body) == Some(Code::BadBody));
    assert!(rt; refusal(alloc, 3, 1000000000000001, body) == Some(Code::BadBody));
    Ok(())
}

#[test]
fn a_kind_comes_before_a_moment(rt: HostRuntime) -> Result<(), Fail> {
    let alloc = rt.alloc();
    assert!(rt; refusal(alloc, 14, -1, "{}") == Some(Code::BadKind));
    assert!(rt; refusal(alloc, 3, 1500, r#"{"of": 2,"value":41}"#) == Some(Code::SecondSpelling));
    Ok(())
}
