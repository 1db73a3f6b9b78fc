//! The first damage of rows in lists, with ample memory. Of rows that name no run there are here what no store would hand out, since
//! it looks at its foreign keys first.
use flow_base::fault::{Damage, Table};
use flow_base::sequence::Sequence;
use flow_base::text::RawText;
use flow_recover::damage::damage;
use flow_rows::rows::{StoreRows, TextRow, TimerRow};
use std::alloc::{AllocError, Global};
use std::test::Fail;

const SOUND: &[(i64, &str)] = &[(1, "workflow a() {}"), (2, "workflow b() {}")];

const UNREAD: &[(i64, &str)] = &[(1, "workflow a() {}"), (2, "workflow")];

/// Timers of two runs that aren't there, by rising run: the second has the lesser id.
const STRAYS: &[(i64, i64)] = &[(4, 7), (5, 1)];

const SECOND_TEXT: Option<Damage> = Some(Damage {
    table: Table::Text,
    run: 0,
    place: 2,
    cause: None,
});

const FIRST_STRAY: Option<Damage> = Some(Damage {
    table: Table::Timer,
    run: 4,
    place: 7,
    cause: None,
});

fn text_row(alloc: Global, num: i64, body: &str) -> Option<TextRow> {
    let body = RawText::new(alloc, body).ok()?;
    Some(TextRow { num, body })
}

fn texts(alloc: Global, cells: &[(i64, &str)]) -> Option<Sequence<TextRow>> {
    let mut rows = Vec::new(alloc);
    for (num, body) in cells {
        let row = text_row(alloc, *num, body)?;
        rows.push(row).ok()?;
    }
    Some(Sequence::from_vec(rows))
}

fn timers(alloc: Global, cells: &[(i64, i64)]) -> Option<Sequence<TimerRow>> {
    let mut rows = Vec::new(alloc);
    for (run, id) in cells {
        let row = TimerRow {
            run: *run,
            id: *id,
            due: 5,
        };
        rows.push(row).ok()?;
    }
    Some(Sequence::from_vec(rows))
}

fn rows(alloc: Global, bodies: &[(i64, &str)], strays: &[(i64, i64)]) -> Option<StoreRows> {
    let timers = timers(alloc, strays)?;
    let texts = texts(alloc, bodies)?;
    Some(StoreRows {
        texts,
        runs: Sequence::new(alloc),
        events: Sequence::new(alloc),
        timers,
        outbox: Sequence::new(alloc),
    })
}

fn is_so(found: Result<Option<Damage>, AllocError>, wanted: Option<Damage>) -> bool {
    match found {
        Ok(found) => found == wanted,
        Err(_refused) => false,
    }
}

/// Whether this is the first damage of such rows.
fn is_first(
    alloc: Global,
    bodies: &[(i64, &str)],
    strays: &[(i64, i64)],
    wanted: Option<Damage>,
) -> bool {
    match rows(alloc, bodies, strays) {
        Some(rows) => is_so(damage(alloc, &rows), wanted),
        None => false,
    }
}

#[test]
fn sound_rows_have_no_damage(rt: HostRuntime) -> Result<(), Fail> {
    assert!(rt; is_first(rt.alloc(), SOUND, &[], None));
    Ok(())
}

#[test]
fn a_text_that_is_no_program_is_named(rt: HostRuntime) -> Result<(), Fail> {
    assert!(rt; is_first(rt.alloc(), UNREAD, STRAYS, SECOND_TEXT));
    Ok(())
}

#[test]
fn the_first_row_of_the_first_unknown_run_is_named(rt: HostRuntime) -> Result<(), Fail> {
    assert!(rt; is_first(rt.alloc(), SOUND, STRAYS, FIRST_STRAY));
    Ok(())
}
