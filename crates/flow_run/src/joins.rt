ghost use Rattle.std.specs.Prelude.{◌≡◌, ◌<◌, ◌≤◌, ◌∷◌, [], length, drop, List, true, false};
ghost use Rattle.flow_model.specs.Rest.{Rest, is_done};
ghost use Rattle.flow_run.specs.Marks.{Counted, IsParent, Owes, Parent, first_rest, onto, put};
ghost use Rattle.flow_run.specs.Flat.{AreFull, AreFullCells, join_of as joined, mark_of, marks_of};

use crate::cell::{Cell, Doing};
use flow_nodes::table::ProgramTable;

/// How many branches a join has, and how many of them run.
pub fn join_of(doing: &Doing) -> Option<(usize, usize)>
    ensures { result ≡ joined doing.now }
{
    match doing {
        Doing::Join(n, k) => Some((*n, *k)),
        _ => None,
    }
}

/// Whether nothing is left of a task, or of a join and its branches.
pub fn is_over(_table: &ProgramTable, cell: &Cell) -> bool
    requires { AreFull _table.now.lists.items cell.now }
    ensures { (rs : List Rest) → Counted (mark_of _table.now.lists.items cell.now ∷ []) rs
        → is_done (first_rest (put (mark_of _table.now.lists.items cell.now) rs)) ≡ result }
{
    if !cell.places.is_empty() {
        return false;
    }
    match &cell.doing {
        Doing::Over => true,
        Doing::Empty => true,
        Doing::Join(_, running) => {
            if *running > 0 {
                return false;
            }
            true
        }
        Doing::OnActivity(_, _, _, _) => false,
        Doing::OnTimer(_) => false,
        Doing::OnSignal(_, _) => false,
        Doing::OnSignalFor(_, _, _, _) => false,
        Doing::Raised(_, _) => false,
    }
}

// The join that has the task or join at a place among its branches.
fn parent(_table: &ProgramTable, cells: &[Cell], i: usize) -> Option<usize>
    requires { i ≤ length cells.now }
    ensures { IsParent (marks_of _table.now.lists.items cells.now) i result }
{
    let mut j = i;
    let mut k = 0;
    while j > 0 {
        j -= 1;
        match join_of(&cells[j].doing) {
            Some((n, _)) => {
                if k < n {
                    return Some(j);
                }
                k = k - n + 1;
            }
            None => k += 1,
        }
    }
    None
}

/// The task or join at a place is over: the join that it is a branch of has one less that runs. Where that was the last, and
/// nothing follows it, it is over too.
pub fn end(table: &ProgramTable, cells: &mut Vec<Cell>, i: usize)
    requires there { i < length cells.old.items }
    requires full { AreFullCells table.now.lists.items cells.old.items }
    requires owes { Owes (marks_of table.now.lists.items cells.old.items) i }
    ensures shows { onto (marks_of table.now.lists.items cells.new.items) [] ≡ onto (marks_of table.now.lists.items cells.old.items) [] }
    ensures counted { Counted (marks_of table.now.lists.items cells.new.items) [] }
    ensures full { AreFullCells table.now.lists.items cells.new.items }
{
    match parent(table, cells, i) {
        None => {}
        Some(j) => {
            leave(table, cells, i, j);
            if is_over(table, &cells[j]) {
                end(table, cells, j);
            }
        }
    }
}

// A join has one branch less that runs.
fn leave(table: &ProgramTable, cells: &mut Vec<Cell>, i: usize, j: usize)
    requires there { i < length cells.old.items }
    requires full { AreFullCells table.now.lists.items cells.old.items }
    requires owes { Owes (marks_of table.now.lists.items cells.old.items) i }
    requires parent { Parent (marks_of table.now.lists.items cells.old.items) i j }
    ensures length { length cells.new.items ≡ length cells.old.items }
    ensures shows { onto (marks_of table.now.lists.items cells.new.items) [] ≡ onto (marks_of table.now.lists.items cells.old.items) [] }
    ensures later { Counted (drop j (marks_of table.now.lists.items cells.new.items)) [] }
    ensures counted { is_done (first_rest (onto (drop j (marks_of table.now.lists.items cells.new.items)) [])) ≡ false
        → Counted (marks_of table.now.lists.items cells.new.items) [] }
    ensures owes { is_done (first_rest (onto (drop j (marks_of table.now.lists.items cells.new.items)) [])) ≡ true
        → Owes (marks_of table.now.lists.items cells.new.items) j }
    ensures full { AreFullCells table.now.lists.items cells.new.items }
{
    match join_of(&cells[j].doing) {
        Some((n, running)) => cells[j].doing = Doing::Join(n, running - 1),
        None => {}
    }
}
