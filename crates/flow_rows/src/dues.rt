//! The timer that is due first, of rows in any order.
ghost use Rattle.std.specs.Prelude.{◌≡◌, ◌≤◌, None};
ghost use Rattle.flow_rows.specs.Dues as rule;

use crate::rows::TimerRow;
use flow_base::book::Due;
use flow_base::number::{EventId, Moment, RunId};
use flow_view::due::lesser;

/// The timer that a row tells, if its numbers are those of one.
#[tactic(auto, using(crate::proofs::Recalls::cast_is, crate::proofs::Recalls::natural_is))]
fn due_of(row: &TimerRow) -> Option<Due>
    ensures { result ≡ rule.due_in row.now }
{
    if row.run < 1 || row.id < 1 || row.due < 0 {
        return None;
    }
    let run = RunId::new(row.run as u64).unwrap();
    let id = EventId::new(row.id as u64).unwrap();
    match Moment::new(row.due as u64) {
        Some(due) => Some(Due { due, run, id }),
        None => None,
    }
}

/// The lesser of what was found before and of a timer, where it is due by a moment.
fn with_due(at: u64, best: Option<Due>, found: Option<Due>) -> Option<Due>
    ensures { result ≡ rule.with_due at best found }
{
    let Some(due) = found else {
        return best;
    };
    if due.due.get() <= at {
        Some(lesser(best, due))
    } else {
        best
    }
}

/// The one that is due first, of the timers that are due by a moment.
pub fn least_due(at: Moment, rows: &[TimerRow]) -> Option<Due>
    ensures least { result ≡ rule.least_of_rows at None rows.now }
    // It has this by its type.
    ensures last { at ≤ 1000000000000000 }
{
    let by = at.get();
    let mut least = None;
    for row in rows {
        least = with_due(by, least, due_of(row));
    }
    least
}
