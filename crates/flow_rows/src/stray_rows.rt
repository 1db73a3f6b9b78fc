//! Rows of no run.
ghost use Rattle.std.specs.Prelude.{◌≡◌, ◌<◌, ◌^◌, ℤ, map};
ghost use Rattle.flow_rows.specs.Damages.{first_of, strays, is_below, is_behind};

use crate::rows::{EventRow, OutboxRow, TimerRow};
use flow_base::fault::{Damage, Table};

/// A row that names a run, with an id in it.
pub trait OfRun {
    /// The run and the id.
    ghost place: { Self → ℤ × ℤ };

    fn run(&self) -> i64
        ensures { result ≡ (place self.now).0 };

    fn id(&self) -> i64
        ensures { result ≡ (place self.now).1 };
}

impl OfRun for EventRow {
    ghost use Rattle.flow_rows.specs.Damages.{event_place};

    ghost place = { event_place };

    fn run(&self) -> i64 {
        self.run
    }

    fn id(&self) -> i64 {
        self.id
    }
}

impl OfRun for TimerRow {
    ghost use Rattle.flow_rows.specs.Damages.{timer_place};

    ghost place = { timer_place };

    fn run(&self) -> i64 {
        self.run
    }

    fn id(&self) -> i64 {
        self.id
    }
}

impl OfRun for OutboxRow {
    ghost use Rattle.flow_rows.specs.Damages.{task_place};

    ghost place = { task_place };

    fn run(&self) -> i64 {
        self.run
    }

    fn id(&self) -> i64 {
        self.id
    }
}

/// The first row of a table that stands before run 1.
pub fn stray_below<R: OfRun>(table: Table, rows: &[R]) -> Option<Damage>
    ensures { result ≡ first_of (strays table is_below (map R.place rows.now)) }
{
    for row in rows {
        if row.run() < 1 {
            return Some(Damage {
                table,
                run: row.run(),
                place: row.id(),
                cause: None,
            });
        }
    }
    None
}

/// The first row of a table that stands behind the last of so many runs.
pub fn stray_behind<R: OfRun>(table: Table, runs: u64, rows: &[R]) -> Option<Damage>
    requires { runs < 2 ^ 63 }
    ensures { result ≡ first_of (strays table (is_behind runs) (map R.place rows.now)) }
{
    let last = runs as i64;
    for row in rows {
        if last < row.run() {
            return Some(Damage {
                table,
                run: row.run(),
                place: row.id(),
                cause: None,
            });
        }
    }
    None
}
