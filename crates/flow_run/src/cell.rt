ghost use Rattle.std.specs.Prelude.{◌≡◌, IfOk};
ghost use Rattle.flow_run.specs.Flat.{content, contents_of};

use flow_base::event::Cause;
use flow_base::number::EventId;
use flow_base::text::{Key, Text};
use flow_base::value::Kind;
use std::alloc::{AllocError, Global};

/// What is left of a list of the table: the statements from one number up to another.
#[derive(Clone, Copy, Debug)]
pub struct Place {
    pub list: usize,
    pub at: usize,
    pub to: usize,
}

/// What is done where an activity fails: a list, and the place of its end in the text.
#[derive(Clone, Copy, Debug)]
pub struct Late {
    pub list: usize,
    pub end: usize,
}

/// What a task does by itself.
#[derive(Debug, Drop)]
pub enum Doing {
    /// Nothing: the statement at its last place is next.
    Over,
    /// The same: a list without statements has begun.
    Empty,
    OnActivity(u64, Key, Kind, Option<Late>),
    OnTimer(u64),
    OnSignal(Key, Key),
    OnSignalFor(Key, Key, EventId, usize),
    Raised(Cause, Text),
    /// Its branches, which stand behind it: how many there are, and how many still run.
    Join(usize, usize),
}

/// A task or a join, and what follows it: its last place goes first.
#[derive(Debug, Drop)]
pub struct Cell {
    pub places: Vec<Place>,
    pub doing: Doing,
}

impl Cell {
    /// An equal one, or E01.
    pub fn copy(&self, alloc: Global) -> Result<Cell, AllocError>
        ensures { IfOk result (λ c. content c ≡ content self.now) }
    {
        let places = copy_places(alloc, &self.places)?;
        let doing = self.doing.copy(alloc)?;
        Ok(Cell { places, doing })
    }
}

impl Doing {
    /// The same, or E01.
    pub fn copy(&self, alloc: Global) -> Result<Doing, AllocError>
        ensures { IfOk result (λ d. d ≡ self.now) }
    {
        match self {
            Doing::Over => Ok(Doing::Over),
            Doing::Empty => Ok(Doing::Empty),
            Doing::OnActivity(n, x, k, late) => Ok(Doing::OnActivity(
                *n,
                x.copy(alloc)?,
                *k,
                *late,
            )),
            Doing::OnTimer(n) => Ok(Doing::OnTimer(*n)),
            Doing::OnSignal(x, s) => {
                let x = x.copy(alloc)?;
                Ok(Doing::OnSignal(x, s.copy(alloc)?))
            }
            Doing::OnSignalFor(x, s, n, late) => {
                let x = x.copy(alloc)?;
                Ok(Doing::OnSignalFor(x, s.copy(alloc)?, *n, *late))
            }
            Doing::Raised(c, t) => Ok(Doing::Raised(*c, t.copy(alloc)?)),
            Doing::Join(n, k) => Ok(Doing::Join(*n, *k)),
        }
    }
}

fn copy_places(alloc: Global, places: &[Place]) -> Result<Vec<Place>, AllocError>
    ensures { IfOk result (λ v. v.items ≡ places.now) }
{
    let mut list = Vec::with_capacity(alloc, places.len())?;
    for p in places {
        list.push(*p)?;
    }
    Ok(list)
}

/// Equal ones, or E01.
pub fn copy_cells(alloc: Global, cells: &[Cell]) -> Result<Vec<Cell>, AllocError>
    ensures { IfOk result (λ v. contents_of v.items ≡ contents_of cells.now) }
{
    let mut list = Vec::with_capacity(alloc, cells.len())?;
    for c in cells {
        list.push(c.copy(alloc)?)?;
    }
    Ok(list)
}
