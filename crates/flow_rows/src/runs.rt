ghost use Rattle.std.specs.Prelude.{◌≡◌, ◌<◌, ◌^◌, List, None, pos};
ghost use Rattle.std.specs.List.{list_any};
ghost use Rattle.flow_rows.specs.declared.rows.RunRow.{RunRow as ARow};
ghost use Rattle.flow_rows.specs.Rows.{events_of};
ghost use Rattle.flow_rows.specs.Damages as rule;
ghost use Rattle.flow_rows.specs.Damages.{first_of};
ghost use Rattle.flow_rows.specs.Taken.{HasTaken};
ghost use Rattle.flow_rows.specs.Parts.{part_fits, run_damaged};
ghost use Rattle.flow_rows.specs.Inspecting.{part_in};

use crate::rows::{EventRow, RunRow, RunRows};
use crate::taken_names::NamesInUse;
use flow_base::fault::{Damage, Table};

/// Whether an event is of a kind that closes its run.
fn closes(event: &EventRow) -> bool
    ensures { result ≡ rule.closes event.now }
{
    event.kind == 6 || event.kind == 11 || event.kind == 12 || event.kind == 13
}

/// Whether an event of a run closes it.
fn is_closed(events: &[EventRow], run: i64) -> bool
    ensures { result ≡ list_any rule.closes (events_of events.now run) }
{
    for event in events {
        if event.run == run && closes(event) {
            return true;
        }
    }
    false
}

fn flow_fits(flow: &str) -> bool
    ensures { result ≡ rule.flow_fits flow.now }
{
    1 <= flow.len() && flow.len() <= 64
}

fn request_fits(taken: &NamesInUse, request: &str) -> bool
    ensures { (before : List ARow) → HasTaken taken.now before → result ≡ rule.request_fits before request.now }
{
    request.len() <= 64 && (request.len() == 0 || !taken.has_request(request))
}

fn mark_fits(events: &[EventRow], run: i64, mark: i64) -> bool
    ensures { result ≡ rule.mark_fits events.now run mark }
{
    if is_closed(events, run) {
        mark == 0
    } else {
        mark == 1
    }
}

fn flow_is_free(taken: &NamesInUse, row: &RunRow) -> bool
    ensures { (before : List ARow) → HasTaken taken.now before → result ≡ rule.flow_is_free before row.now }
{
    row.isopen != 1 || !taken.has_flow(row.flow.as_str())
}

/// Whether run `n` is numbered and named, and its text is among so many.
fn cells_fit(texts: usize, taken: &NamesInUse, n: u64, row: &RunRow) -> bool
    requires { n < 2 ^ 63 }
    ensures { (before : List ARow) → HasTaken taken.now before → result ≡ rule.cells_fit texts before n row.now }
{
    row.num == n as i64
        && flow_fits(row.flow.as_str())
        && request_fits(taken, row.req.as_str())
        && (1 <= row.textnum && row.textnum as u64 <= texts as u64)
}

/// Whether run `n` keeps the rules, if there are so many texts and the runs before it have taken this.
fn run_fits(texts: usize, taken: &NamesInUse, n: u64, rows: &RunRows<'_, '_>) -> bool
    requires { n < 2 ^ 63 }
    ensures { (before : List ARow) → HasTaken taken.now before → result ≡ part_fits texts before n (part_in n rows.now) }
{
    cells_fit(texts, taken, n, rows.row)
        && mark_fits(rows.events, n as i64, rows.row.isopen)
        && flow_is_free(taken, rows.row)
}

/// Run `n` breaks a rule.
fn broken(n: u64) -> Damage
    requires { n < 2 ^ 63 }
    ensures { result ≡ record { table = Table.Run; run = pos n; place = pos 0; cause = None } }
{
    Damage {
        table: Table::Run,
        run: n as i64,
        place: 0,
        cause: None,
    }
}

/// The damage of run `n`, unless it fits.
fn damage_unless(fits: bool, n: u64) -> Option<Damage>
    requires { n < 2 ^ 63 }
    ensures { result ≡ first_of (rule.unless fits Table.Run (pos n) (pos 0)) }
{
    if fits { None } else { Some(broken(n)) }
}

/// The damage of run `n`, if it breaks a rule.
pub fn run_damage(
    texts: usize,
    taken: &NamesInUse,
    n: u64,
    rows: &RunRows<'_, '_>,
) -> Option<Damage>
    requires { n < 2 ^ 63 }
    ensures { (before : List ARow) → HasTaken taken.now before → result ≡ first_of (run_damaged texts before n (part_in n rows.now)) }
{
    let fits = run_fits(texts, taken, n, rows);
    damage_unless(fits, n)
}
