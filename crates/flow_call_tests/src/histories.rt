//! Events from their rows, and programs from their texts.
use flow_base::event::{Event, Input, What};
use flow_base::number::EventId;
use flow_check::check::check;
use flow_check::checked::Checked;
use flow_events::row::of_row_1;
use flow_syntax::parse::parse;
use std::alloc::Global;

/// An event as it is stored: its number, its kind, and its body.
pub type Row = (u64, i64, &'static str);

/// A program that calls one activity.
pub const CALLER: &str =
    "workflow a(n: int) { activity c(int, text) -> int; let r = 0; r = call c(n, \"eur\"); return r + 1; }";

/// Its run begins with the number 7.
pub const STARTED: Row = (1, 1, r#"{"args":[7],"at":1000}"#);

/// The trace of the call.
pub const CALLED: Row = (
    2,
    7,
    r#"{"activity":"c","args":[7,"eur"],"at":1000,"every":0,"gives":"int","tries":1}"#,
);

/// The checked program of a text.
pub fn program(alloc: Global, text: &str) -> Option<Checked> {
    let program = parse(alloc, text).ok()?;
    check(alloc, program).ok()
}

/// The event of a row.
pub fn event(alloc: Global, row: Row) -> Option<Event> {
    let (id, kind, body) = row;
    let id = EventId::new(id)?;
    of_row_1(alloc, id, kind, body).ok()
}

/// The events of these rows.
pub fn history(alloc: Global, rows: &[Row]) -> Option<Vec<Event>> {
    let mut events = Vec::new(alloc);
    for row in rows {
        events.push(event(alloc, *row)?).ok()?;
    }
    Some(events)
}

/// What came, by the row of its event.
pub fn input(alloc: Global, kind: i64, body: &'static str) -> Option<Input> {
    let Event { what, .. } = event(alloc, (1, kind, body))?;
    match what {
        What::Came(input) => Some(input),
        What::Asked(_command) => None,
    }
}
