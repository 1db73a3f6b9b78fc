ghost use Rattle.std.specs.Prelude.{◌≡◌, ◌+◌, not, OnOk, true};
ghost use Rattle.flow_model.specs.Rest.{is_end, rest_of};
ghost use Rattle.flow_run.specs.Marks.{within};
ghost use Rattle.flow_run.specs.Flat.{AreFullPlaces, IsFull, IsNextOf, blocks_of, is_task, left_at, AreFull, task_rest};
ghost use Rattle.flow_nodes.specs.Links.{block_at};

use crate::cell::{Cell, Doing, Place};
use flow_nodes::table::ProgramTable;
use flow_values::fault::EvalFault;
use std::alloc::Global;

// Whether statements are left at a place behind its first.
#[tactic(auto, using(crate::proofs::Parts::begun_part, crate::proofs::Parts::ended_part, crate::proofs::Parts::ended_list))]
fn has_more(table: &ProgramTable, place: Place) -> bool
    requires { IsFull table.now.lists.items place }
    ensures { result ≡ not (is_end (left_at table.now.lists.items (record { list = place.list; at = place.at + 1; to = place.to }))) }
{
    let count = table.stmts(place.list).len();
    if place.at >= count - 1 {
        return false;
    }
    if place.at + 1 >= place.to {
        return false;
    }
    true
}

/// The statement that is next of a task, which its places then are behind.
pub fn advance(table: &ProgramTable, places: &mut Vec<Place>) -> Option<Place>
    requires { AreFullPlaces table.now.lists.items places.old.items }
    ensures next { IsNextOf table.now.lists.items places.old.items places.new.items result }
    ensures full { AreFullPlaces table.now.lists.items places.new.items }
{
    let count = places.len();
    if count == 0 {
        return None;
    }
    let place = places[count - 1];
    if has_more(table, place) {
        places[count - 1].at += 1;
    } else {
        let _last = places.pop();
    }
    Some(place)
}

/// A list begins.
pub fn enter(
    alloc: Global,
    table: &ProgramTable,
    cell: &mut Cell,
    list: usize,
) -> Result<(), EvalFault>
    requires { AreFull table.now.lists.items cell.old }
    ensures rest { OnOk result (task_rest table.now.lists.items cell.new ≡ within (blocks_of table.now.lists.items cell.old.places.items)
        (rest_of (block_at table.now.lists.items list))) }
    ensures full { OnOk result (AreFull table.now.lists.items cell.new) }
    ensures task { OnOk result (is_task cell.new.doing ≡ true) }
{
    let to = table.stmts(list).len();
    if to == 0 {
        cell.doing = Doing::Empty;
        return Ok(());
    }
    cell.places.push(Place { list, at: 0, to })?;
    cell.doing = Doing::Over;
    Ok(())
}
