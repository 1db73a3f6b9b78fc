ghost use Rattle.std.specs.Prelude.{◌≡◌, ◌<◌, ◌+◌, ◌^◌, ◌∷◌, [], length, take, drop, remove, slice_index_or, if◌then◌else◌, IfOk, OnOk, true, false};
ghost use Rattle.flow_model.specs.Rest.{Rest, is_done, rest_of};
ghost use Rattle.flow_run.specs.Marks.{Counted, One, onto, within, Settles};
ghost use Rattle.flow_run.specs.declared.cell.Cell.{Cell as ACell};
ghost use Rattle.flow_run.specs.Shown.{shown_setting};
ghost use Rattle.flow_run.specs.Flat.{ActedAt, AreFull, AreFullCells, AreSound, KeepsSound, StepsAt, StepsFirst, blocks_of, branches_at, branches_of, is_task, join_of as joined, mark_of, marks_of, task_rest};
ghost use Rattle.flow_nodes.specs.Links.{AreLinked, block_at};

use crate::cell::{Cell, Doing};
use crate::joins::{end, is_over, join_of};
use crate::places::enter;
use crate::setting::Setting;
use crate::store::Store;
use crate::tasks::{Went, act};
use flow_base::event::Cmd;
use flow_nodes::table::ProgramTable;
use flow_values::fault::EvalFault;
use std::alloc::Global;

/// What one step does with a run.
#[derive(Debug, Drop)]
pub enum Stepped {
    Stays,
    Goes,
    Asks(Box<Cmd>),
    Ends(Box<Cmd>),
}

/// What began at a place has gone on. If it is over, the join that it is a branch of knows it then.
pub fn settle(table: &ProgramTable, cells: &mut Vec<Cell>, i: usize)
    requires there { i < length cells.old.items }
    requires full { AreFullCells table.now.lists.items cells.old.items }
    requires settles { Settles (marks_of table.now.lists.items cells.old.items) i }
    ensures shows { onto (marks_of table.now.lists.items cells.new.items) [] ≡ onto (marks_of table.now.lists.items cells.old.items) [] }
    ensures sound { AreSound table.now.lists.items cells.new.items }
{
    if is_over(table, &cells[i]) {
        end(table, cells, i);
    }
}

/// A branch that begins with a list.
pub fn branch(alloc: Global, table: &ProgramTable, list: usize) -> Result<Cell, EvalFault>
    ensures mark { IfOk result (λ c. mark_of table.now.lists.items c ≡ One (rest_of (block_at table.now.lists.items list))) }
    ensures full { IfOk result (λ c. AreFull table.now.lists.items c) }
{
    // Room for one, which is what most branches need.
    let places = Vec::with_capacity(alloc, 1)?;
    let mut cell = Cell {
        places,
        doing: Doing::Over,
    };
    enter(alloc, table, &mut cell, list)?;
    Ok(cell)
}

// What a branch counts for in its join.
fn count(is_over: bool) -> usize
    ensures { result ≡ (if is_over then 0 else 1) }
{
    if is_over { 0 } else { 1 }
}

/// The branches of a statement begin, behind the place of the task that it splits.
pub fn split(
    alloc: Global,
    table: &ProgramTable,
    cells: &mut Vec<Cell>,
    i: usize,
    lists: &[usize],
) -> Result<(), EvalFault>
    requires there { i < length cells.old.items }
    requires full { AreFullCells table.now.lists.items cells.old.items }
    requires earlier { (r : Rest) → is_done r ≡ false
        → Counted (take i (marks_of table.now.lists.items cells.old.items))
        (r ∷ onto (drop (i + 1) (marks_of table.now.lists.items cells.old.items)) []) }
    requires later { Counted (drop (i + 1) (marks_of table.now.lists.items cells.old.items)) [] }
    ensures shows { OnOk result ((c : ACell) → c ≡ slice_index_or cells.old.items i c
        → onto (marks_of table.now.lists.items cells.new.items) [] ≡ onto (take i (marks_of table.now.lists.items cells.old.items))
        (within (blocks_of table.now.lists.items c.places.items) (branches_at table.now.lists.items lists.now) ∷ onto
        (drop (i + 1) (marks_of table.now.lists.items cells.old.items)) [])) }
    ensures sound { OnOk result (AreSound table.now.lists.items cells.new.items) }
{
    let mut running = 0;
    let mut k = lists.len();
    while k > 0 {
        k -= 1;
        let child = branch(alloc, table, lists[k])?;
        running += count(is_over(table, &child));
        cells.insert(i + 1, child)?;
    }
    cells[i].doing = Doing::Join(lists.len(), running);
    settle(table, cells, i);
    Ok(())
}

// How many branches stand behind what begins with a cell.
fn branches(doing: &Doing) -> usize
    ensures { result ≡ branches_of (joined doing.now) }
{
    match join_of(doing) {
        Some((n, _)) => n,
        None => 0,
    }
}

// Cells are far fewer than numbers.
fn are_few(cells: &[Cell])
    ensures { length cells.now < 2 ^ 59 }
{
    let _count = cells.len();
}

// A cell goes; says how many branches stood behind what begins with it.
fn take_out(cells: &mut Vec<Cell>, at: usize) -> usize
    requires { at < length cells.old.items }
    ensures items { cells.new.items ≡ remove cells.old.items at }
    ensures count { (c : ACell) × ((c ≡ slice_index_or cells.old.items at c) × (result ≡ branches_of (joined c.doing))) }
{
    let count = branches(&cells[at].doing);
    let _gone = cells.remove(at);
    count
}

/// The branches of a join, all over, are no more: so many rests go that stand behind it.
pub fn clear(table: &ProgramTable, cells: &mut Vec<Cell>, i: usize, n: usize)
    requires there { i < length cells.old.items }
    requires full { AreFullCells table.now.lists.items cells.old.items }
    requires later { Counted (drop (i + 1) (marks_of table.now.lists.items cells.old.items)) [] }
    ensures front { take (i + 1) (marks_of table.now.lists.items cells.new.items) ≡ take (i + 1)
        (marks_of table.now.lists.items cells.old.items) }
    ensures shows { onto (drop (i + 1) (marks_of table.now.lists.items cells.new.items)) [] ≡ drop n
        (onto (drop (i + 1) (marks_of table.now.lists.items cells.old.items)) []) }
    ensures counted { Counted (drop (i + 1) (marks_of table.now.lists.items cells.new.items)) [] }
    ensures cell { (d : ACell) → slice_index_or cells.new.items i d ≡ slice_index_or cells.old.items i d }
    ensures there { i < length cells.new.items }
    ensures full { AreFullCells table.now.lists.items cells.new.items }
{
    let mut left = n;
    while left > 0 {
        if i + 1 >= cells.len() {
            return;
        }
        are_few(cells);
        left = (left - 1).saturating_add(take_out(cells, i + 1));
    }
}

/// The task at a place steps, if it can.
pub fn act_at(
    alloc: Global,
    table: &ProgramTable,
    s: &Setting,
    t: &mut Store,
    cells: &mut Vec<Cell>,
    i: usize,
) -> Result<Stepped, EvalFault>
    requires there { i < length cells.old.items }
    requires linked { AreLinked table.now.lists.items }
    requires full { AreFullCells table.now.lists.items cells.old.items }
    requires task { (c : ACell) → c ≡ slice_index_or cells.old.items i c → is_task c.doing ≡ true }
    requires earlier { (c : ACell) → c ≡ slice_index_or cells.old.items i c → is_done (task_rest table.now.lists.items c) ≡ false
        → (r : Rest) → is_done r ≡ false → Counted (take i (marks_of table.now.lists.items cells.old.items))
        (r ∷ onto (drop (i + 1) (marks_of table.now.lists.items cells.old.items)) []) }
    requires later { Counted (drop (i + 1) (marks_of table.now.lists.items cells.old.items)) [] }
    ensures step { IfOk result (λ m. (c : ACell) → c ≡ slice_index_or cells.old.items i c
        → ActedAt table.now.lists.items (shown_setting s.now) t.old c cells.old.items i t.new cells.new.items m) }
    ensures sound { IfOk result (λ m. KeepsSound table.now.lists.items cells.new.items m) }
{
    let went = act(alloc, table, s, t, &mut cells[i])?;
    match went {
        Went::Stays => Ok(Stepped::Stays),
        Went::Goes => {
            settle(table, cells, i);
            Ok(Stepped::Goes)
        }
        Went::Asks(c) => {
            settle(table, cells, i);
            Ok(Stepped::Asks(c))
        }
        Went::Splits(place) => {
            let links = table.link(place.list, place.at);
            split(alloc, table, cells, i, &links.branches)?;
            Ok(Stepped::Goes)
        }
        Went::Ends(c) => Ok(Stepped::Ends(c)),
    }
}

/// A join whose branches are all over goes on.
pub fn resume(
    alloc: Global,
    table: &ProgramTable,
    s: &Setting,
    t: &mut Store,
    cells: &mut Vec<Cell>,
    i: usize,
    n: usize,
) -> Result<Stepped, EvalFault>
    requires there { i < length cells.old.items }
    requires linked { AreLinked table.now.lists.items }
    requires sound { AreSound table.now.lists.items cells.old.items }
    requires join { (c : ACell) → c ≡ slice_index_or cells.old.items i c → (c.doing ≡ Doing.Join n 0) × (0 < length c.places.items) }
    ensures step { IfOk result (λ m. StepsAt table.now.lists.items (shown_setting s.now) t.old cells.old.items i t.new cells.new.items m) }
    ensures sound { IfOk result (λ m. KeepsSound table.now.lists.items cells.new.items m) }
{
    clear(table, cells, i, n);
    cells[i].doing = Doing::Over;
    let m = act_at(alloc, table, s, t, cells, i)?;
    Ok(m)
}

// What begins at a place steps, if it can.
fn step_at(
    alloc: Global,
    table: &ProgramTable,
    s: &Setting,
    t: &mut Store,
    cells: &mut Vec<Cell>,
    i: usize,
) -> Result<Stepped, EvalFault>
    requires there { i < length cells.old.items }
    requires linked { AreLinked table.now.lists.items }
    requires sound { AreSound table.now.lists.items cells.old.items }
    ensures step { IfOk result (λ m. StepsAt table.now.lists.items (shown_setting s.now) t.old cells.old.items i t.new cells.new.items m) }
    ensures sound { IfOk result (λ m. KeepsSound table.now.lists.items cells.new.items m) }
{
    let here = &cells[i];
    match join_of(&here.doing) {
        Some((n, running)) => {
            if running > 0 {
                return Ok(Stepped::Stays);
            }
            if here.places.len() == 0 {
                return Ok(Stepped::Stays);
            }
            let m = resume(alloc, table, s, t, cells, i, n)?;
            Ok(m)
        }
        None => {
            let m = act_at(alloc, table, s, t, cells, i)?;
            Ok(m)
        }
    }
}

/// The leftmost task or join that can step does.
pub fn step(
    alloc: Global,
    table: &ProgramTable,
    s: &Setting,
    t: &mut Store,
    cells: &mut Vec<Cell>,
) -> Result<Stepped, EvalFault>
    requires linked { AreLinked table.now.lists.items }
    requires sound { AreSound table.now.lists.items cells.old.items }
    ensures step { IfOk result (λ m. StepsFirst table.now.lists.items (shown_setting s.now) t.old cells.old.items t.new cells.new.items m) }
    ensures sound { IfOk result (λ m. KeepsSound table.now.lists.items cells.new.items m) }
{
    let count = cells.len();
    for i in 0..count {
        match step_at(alloc, table, s, t, cells, i)? {
            Stepped::Stays => {}
            Stepped::Goes => return Ok(Stepped::Goes),
            Stepped::Asks(c) => return Ok(Stepped::Asks(c)),
            Stepped::Ends(c) => return Ok(Stepped::Ends(c)),
        }
    }
    Ok(Stepped::Stays)
}
