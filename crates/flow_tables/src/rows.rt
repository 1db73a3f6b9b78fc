//! Rows of answers, read as what they say.
ghost use Rattle.std.specs.Prelude.{◌≡◌};
ghost use Rattle.flow_tables.specs.Names.{Row as SqlRow, Kind, column, IfErr, List, map, number_at, IfOk, Some, slice_get};
ghost use Rattle.sqlite.specs.Kind.TheVariants.{Integer, Text};
ghost use Rattle.sqlite_value.specs.Order.{bytes};
ghost use Rattle.flow_sql.specs.Stored.{number_said, text_said, text_row_said, run_row_said, event_row_said, timer_row_said, task_row_said};
ghost use Rattle.flow_sql.specs.Stored.{number_kinds, text_kinds, text_row_kinds, run_row_kinds, event_row_kinds, timer_row_kinds};
ghost use Rattle.flow_sql.specs.Stored.{task_row_kinds};
ghost use Rattle.flow_tables.specs.Reads.{IsMisread, AreMisread};

use crate::fault::StoreFault;
use flow_base::memory::NoMemory;
use flow_base::text::RawText;
use flow_rows::rows::{EventRow, OutboxRow, RunRow, TextRow, TimerRow};
use sqlite::Row;
use std::alloc::Global;

/// A column that is a number.
pub fn number_at(row: &Row, at: usize) -> Result<i64, StoreFault>
    ensures value { IfOk result (λ n. n ≡ number_at row.now at) }
    ensures cause { (kinds : List Kind) → slice_get kinds at ≡ Some Integer → IfErr result (IsMisread kinds row.now) }
{
    match row.get(at) {
        Ok(number) => Ok(number),
        Err(error) => Err(StoreFault::from(error)),
    }
}

/// A column that is a text.
pub fn text_at(alloc: Global, row: &Row, at: usize) -> Result<RawText, StoreFault>
    ensures value { IfOk result (λ t. t ≡ bytes (column row.now at)) }
    ensures cause { (kinds : List Kind) → slice_get kinds at ≡ Some Text → IfErr result (IsMisread kinds row.now) }
{
    let found: Result<String, sqlite::Error> = row.get(at);
    match found {
        Ok(text) => match RawText::new(alloc, text.as_str()) {
            Ok(text) => Ok(text),
            Err(refused) => Err(StoreFault::NoMemory(NoMemory::from(refused))),
        },
        Err(error) => Err(StoreFault::from(error)),
    }
}

/// What a row of an answer says.
pub trait Said: Sized {
    ghost said: { SqlRow → Self };

    // What its columns hold.
    ghost kinds: { List Kind };

    fn read(alloc: Global, row: &Row) -> Result<Self, StoreFault>
        ensures value { IfOk result (λ x. x ≡ said row.now) }
        ensures cause { IfErr result (IsMisread kinds row.now) };
}

impl Said for EventRow {
    ghost said = { event_row_said };

    ghost kinds = { event_row_kinds };

    fn read(alloc: Global, row: &Row) -> Result<EventRow, StoreFault> {
        Ok(EventRow {
            run: number_at(row, 0)?,
            id: number_at(row, 1)?,
            kind: number_at(row, 2)?,
            at: Some(number_at(row, 3)?),
            body: text_at(alloc, row, 4)?,
        })
    }
}

impl Said for i64 {
    ghost said = { number_said };

    ghost kinds = { number_kinds };

    fn read(_: Global, row: &Row) -> Result<i64, StoreFault> {
        number_at(row, 0)
    }
}

impl Said for TimerRow {
    ghost said = { timer_row_said };

    ghost kinds = { timer_row_kinds };

    fn read(_: Global, row: &Row) -> Result<TimerRow, StoreFault> {
        Ok(TimerRow {
            run: number_at(row, 0)?,
            id: number_at(row, 1)?,
            due: number_at(row, 2)?,
        })
    }
}

impl Said for RawText {
    ghost said = { text_said };

    ghost kinds = { text_kinds };

    fn read(alloc: Global, row: &Row) -> Result<RawText, StoreFault> {
        text_at(alloc, row, 0)
    }
}

impl Said for TextRow {
    ghost said = { text_row_said };

    ghost kinds = { text_row_kinds };

    fn read(alloc: Global, row: &Row) -> Result<TextRow, StoreFault> {
        Ok(TextRow {
            num: number_at(row, 0)?,
            body: text_at(alloc, row, 1)?,
        })
    }
}

impl Said for RunRow {
    ghost said = { run_row_said };

    ghost kinds = { run_row_kinds };

    fn read(alloc: Global, row: &Row) -> Result<RunRow, StoreFault> {
        Ok(RunRow {
            num: number_at(row, 0)?,
            flow: text_at(alloc, row, 1)?,
            req: text_at(alloc, row, 2)?,
            textnum: number_at(row, 3)?,
            isopen: number_at(row, 4)?,
        })
    }
}

impl Said for OutboxRow {
    ghost said = { task_row_said };

    ghost kinds = { task_row_kinds };

    fn read(_: Global, row: &Row) -> Result<OutboxRow, StoreFault> {
        Ok(OutboxRow {
            run: number_at(row, 0)?,
            id: number_at(row, 1)?,
            attempt: number_at(row, 2)?,
            ready: number_at(row, 3)?,
        })
    }
}

/// What the rows of an answer say.
pub fn read_all<T: Said + Drop>(alloc: Global, rows: &[Row]) -> Result<Vec<T>, StoreFault>
    ensures value { IfOk result (λ v. v.items ≡ map T.Said.said rows.now) }
    ensures cause { IfErr result (AreMisread T.Said.kinds rows.now) }
{
    let mut list = Vec::new(alloc);
    for row in rows {
        let value = T::read(alloc, row)?;
        list.push(value)?;
    }
    Ok(list)
}
