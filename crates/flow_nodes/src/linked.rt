ghost use Rattle.std.specs.Prelude.{◌≡◌, IfOk};
ghost use Rattle.flow_base.specs.Shown.{shown_block, shown_program};
ghost use Rattle.flow_nodes.specs.Links.{AreLinked, block_at};

use crate::linking::table_of;
use crate::table::ProgramTable;
use flow_base::syntax::Program;
use std::alloc::{AllocError, Global};
use std::marker::Model;
use std::sync::Arc;

/// A table whose statements have their links. All runs of a program share it.
#[derive(Debug, Drop)]
pub struct Linked {
    table: Arc<ProgramTable>,
}

impl Model for Linked {
    ghost use Rattle.flow_nodes.specs.declared.table.ProgramTable.{ProgramTable as ATable};
    ghost use Rattle.flow_nodes.specs.contracts.table.ProgramTable as row;
    ghost use Rattle.flow_nodes.specs.Links.{AreLinked};

    ghost Value = { ATable };

    ghost coded = { row.the_row.coded };

    ghost view = { λ l. l.table.value };

    ghost invariant = { λ l. AreLinked l.table.value.lists.items };
}

impl Linked {
    /// The table of a program, or E01.
    pub fn of(alloc: Global, program: &Program) -> Result<Linked, AllocError>
        ensures { IfOk result (λ l. block_at l.lists.items l.body ≡ (shown_program program.now).body) }
    {
        let table = Arc::new(alloc, table_of(alloc, program)?)?;
        Ok(Linked { table })
    }

    /// The table.
    pub fn table(&self) -> &ProgramTable
        ensures same { result.now ≡ self.now }
        ensures linked { AreLinked self.now.lists.items }
    {
        &self.table
    }

    /// The same table, not a copy of it.
    pub fn share(&self) -> Result<Linked, AllocError>
        ensures { IfOk result (λ l. l ≡ self.now) }
    {
        Ok(Linked {
            table: self.table.clone()?,
        })
    }
}
