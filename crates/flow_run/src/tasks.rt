ghost use Rattle.std.specs.Prelude.{◌≡◌, ◌<◌, length, IfOk, OnOk, Some, slice_get, true};
ghost use Rattle.flow_base.specs.declared.syntax.Stmt.{Stmt as AStmt};
ghost use Rattle.flow_base.specs.Shown.{shown_stmt};
ghost use Rattle.flow_model.specs.Step as model;
ghost use Rattle.flow_run.specs.Marks.{within};
ghost use Rattle.flow_run.specs.Shown.{shown_store, shown_setting};
ghost use Rattle.flow_run.specs.Flat.{KeepsTask, blocks_of, is_task, is_task_next, shown_onward, shown_went, AreFull, is_idle, task_rest};
ghost use Rattle.flow_nodes.specs.Links.{AreLinked, stmts_at};

use crate::begins::{Begun, Next, begin};
use crate::cell::{Cell, Doing, Place};
use crate::places::{advance, enter};
use crate::setting::Setting;
use crate::store::{Store, take};
use flow_base::event::Cmd;
use flow_nodes::table::ProgramTable;
use flow_values::fault::EvalFault;
use std::alloc::Global;

/// What one step does with a task: the statement at a place may split it.
#[derive(Debug, Drop)]
pub enum Went {
    Stays,
    Goes,
    Asks(Box<Cmd>),
    Splits(Place),
    Ends(Box<Cmd>),
}

/// What one step does with a task, or want of memory.
pub type Acted = Result<Went, EvalFault>;

// A task that waits for nothing goes on.
fn go_on(alloc: Global, table: &ProgramTable, s: &Setting, t: &mut Store, cell: &mut Cell) -> Acted
    requires linked { AreLinked table.now.lists.items }
    requires full { AreFull table.now.lists.items cell.old }
    requires idle { is_idle cell.old.doing ≡ true }
    ensures step { IfOk result (λ w. shown_went table.now.lists.items cell.new t.new w ≡ model.move (shown_setting s.now)
        (shown_store t.old) (task_rest table.now.lists.items cell.old)) }
    ensures kept { IfOk result (λ w. KeepsTask table.now.lists.items cell.old t.old cell.new t.new w) }
    ensures full { IfOk result (λ _. AreFull table.now.lists.items cell.new) }
{
    match advance(table, &mut cell.places) {
        None => Ok(Went::Stays),
        Some(place) => {
            let stmt = table.stmt(place.list, place.at);
            let links = table.link(place.list, place.at);
            match begin(alloc, table, s, t, stmt, links)? {
                Begun::Goes(next) => {
                    onward(alloc, table, cell, place, next)?;
                    Ok(Went::Goes)
                }
                Begun::Asks(next, c) => {
                    onward(alloc, table, cell, place, next)?;
                    Ok(Went::Asks(c))
                }
                Begun::Splits => Ok(Went::Splits(place)),
                Begun::Ends(c) => Ok(Went::Ends(c)),
            }
        }
    }
}

// What a task does next, behind the statement at a place.
fn onward(
    alloc: Global,
    table: &ProgramTable,
    cell: &mut Cell,
    place: Place,
    next: Next,
) -> Result<(), EvalFault>
    requires at { place.at < length (stmts_at table.now.lists.items place.list) }
    requires full { AreFull table.now.lists.items cell.old }
    requires task { is_task_next next ≡ true }
    ensures rest { OnOk result ((st : AStmt) → slice_get (stmts_at table.now.lists.items place.list) place.at ≡ Some st
        → task_rest table.now.lists.items cell.new ≡ within (blocks_of table.now.lists.items cell.old.places.items)
        (shown_onward table.now.lists.items (shown_stmt st) next)) }
    ensures full { OnOk result (AreFull table.now.lists.items cell.new) }
    ensures task { OnOk result (is_task cell.new.doing ≡ true) }
{
    match next {
        Next::Over => {
            cell.doing = Doing::Over;
            Ok(())
        }
        Next::Nothing => {
            cell.doing = Doing::Empty;
            Ok(())
        }
        Next::Enters(list) => enter(alloc, table, cell, list),
        Next::Repeats(list) => {
            cell.places.push(Place {
                list: place.list,
                at: place.at,
                to: place.at + 1,
            })?;
            enter(alloc, table, cell, list)?;
            Ok(())
        }
        Next::Waits(doing) => {
            cell.doing = Box::into_inner(doing);
            Ok(())
        }
    }
}

/// What one step does with a task: the leftmost place that can step is in it, or it stays.
pub fn act(
    alloc: Global,
    table: &ProgramTable,
    s: &Setting,
    t: &mut Store,
    cell: &mut Cell,
) -> Acted
    requires linked { AreLinked table.now.lists.items }
    requires full { AreFull table.now.lists.items cell.old }
    requires task { is_task cell.old.doing ≡ true }
    ensures step { IfOk result (λ w. shown_went table.now.lists.items cell.new t.new w ≡ model.move (shown_setting s.now)
        (shown_store t.old) (task_rest table.now.lists.items cell.old)) }
    ensures kept { IfOk result (λ w. KeepsTask table.now.lists.items cell.old t.old cell.new t.new w) }
    ensures full { IfOk result (λ _. AreFull table.now.lists.items cell.new) }
{
    match &cell.doing {
        Doing::Over => go_on(alloc, table, s, t, cell),
        Doing::Empty => go_on(alloc, table, s, t, cell),
        Doing::OnSignal(into, signal) => {
            let heard = take(alloc, t, into, signal)?;
            if heard {
                cell.doing = Doing::Over;
                Ok(Went::Goes)
            } else {
                Ok(Went::Stays)
            }
        }
        Doing::OnSignalFor(into, signal, timer, _) => {
            let cancel = Box::new(alloc, Cmd::CancelTimer(*timer))?;
            let in_time = take(alloc, t, into, signal)?;
            if in_time {
                cell.doing = Doing::Over;
                Ok(Went::Asks(cancel))
            } else {
                Ok(Went::Stays)
            }
        }
        Doing::Raised(c, text) => {
            let text = text.copy(alloc)?;
            let fail = Box::new(alloc, Cmd::Fail(*c, text))?;
            Ok(Went::Ends(fail))
        }
        Doing::OnActivity(_, _, _, _) => Ok(Went::Stays),
        Doing::OnTimer(_) => Ok(Went::Stays),
        Doing::Join(_, _) => Ok(Went::Stays),
    }
}
