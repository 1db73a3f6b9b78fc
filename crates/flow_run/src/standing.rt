ghost use Rattle.std.specs.Prelude.{◌≡◌, IfOk};
ghost use Rattle.flow_run.specs.Whole.{IsWhole, same_standing};

use crate::cell::{Cell, copy_cells};
use crate::decided::Decided;
use flow_base::event::State;
use flow_base::number::Moment;
use flow_nodes::linked::Linked;
use flow_values::named::NamedValues;
use flow_values::slots::Slots;
use std::alloc::{AllocError, Global};
use std::marker::Model;

/// What a run that has begun is between two turns. It shares the table of its program.
#[derive(Debug, Drop)]
pub struct Standing {
    pub table: Linked,
    /// The tasks and joins, from the left.
    pub cells: Vec<Cell>,
    pub variables: Slots,
    pub buffer: NamedValues,
    pub decided: Decided,
    pub events: u64,
    pub moment: Moment,
    pub state: State,
}

/// The same, with what every turn keeps of it: at each place of a cell something is left, each join knows how many of its branches
/// run, and all cells are those of one rest.
#[derive(Debug, Drop)]
pub struct SoundStanding {
    standing: Standing,
}

impl Model for SoundStanding {
    ghost use Rattle.flow_run.specs.declared.standing.Standing.{Standing as AStanding};
    ghost use Rattle.flow_run.specs.contracts.standing.Standing as row;
    ghost use Rattle.flow_run.specs.Whole.{IsWhole};

    ghost Value = { AStanding };

    ghost coded = { row.the_row.coded };

    ghost view = { λ p. p.standing };

    ghost invariant = { λ p. IsWhole p.standing };
}

impl SoundStanding {
    /// What keeps it.
    pub fn of(standing: Standing) -> SoundStanding
        requires { IsWhole standing }
        ensures { result ≡ standing }
    {
        SoundStanding { standing }
    }

    /// What it is.
    pub fn get(&self) -> &Standing
        ensures same { result.now ≡ self.now }
        ensures whole { IsWhole self.now }
    {
        &self.standing
    }

    /// An equal one, over the same table and values, or E01.
    pub fn copy(&self, alloc: Global) -> Result<SoundStanding, AllocError>
        ensures { IfOk result (λ p. same_standing p self.now) }
    {
        let standing = copied(alloc, &self.standing)?;
        Ok(SoundStanding { standing })
    }
}

fn copied(alloc: Global, run: &Standing) -> Result<Standing, AllocError>
    ensures same { IfOk result (λ s. same_standing s run.now) }
    ensures whole { IfOk result (λ s. IsWhole run.now → IsWhole s) }
{
    let table = run.table.share()?;
    let cells = copy_cells(alloc, &run.cells)?;
    let variables = run.variables.share()?;
    let buffer = run.buffer.share()?;
    let decided = run.decided.copy(alloc)?;
    Ok(Standing {
        table,
        cells,
        variables,
        buffer,
        decided,
        events: run.events,
        moment: run.moment,
        state: run.state,
    })
}
