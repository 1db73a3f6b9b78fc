ghost use Rattle.std.specs.Prelude.{◌≡◌};
ghost use Rattle.flow_base.specs.Shown.{shown_program};
ghost use Rattle.flow_nodes.specs.Links.{block_at};

use flow_base::syntax::Program;
use flow_nodes::linked::Linked;
use std::marker::Model;

/// A program and a table.
#[derive(Debug, Drop)]
pub struct Both {
    pub program: Program,
    pub table: Linked,
}

/// The same, where the table is that of the program.
#[derive(Debug, Drop)]
pub struct Tabled {
    both: Both,
}

impl Model for Tabled {
    ghost use Rattle.flow_model.specs.declared.tabled.Both.{Both as ABoth};
    ghost use Rattle.flow_model.specs.contracts.tabled.Both as row;
    ghost use Rattle.flow_model.specs.Tabled.{IsTabled};

    ghost Value = { ABoth };

    ghost coded = { row.the_row.coded };

    ghost view = { λ t. t.both };

    ghost invariant = { λ t. IsTabled t.both };
}

impl Tabled {
    ghost use Rattle.flow_model.specs.Tabled.{IsTabled};

    /// What makes it one.
    pub fn of(program: Program, table: Linked) -> Tabled
        requires { block_at table.lists.items table.body ≡ (shown_program program).body }
        ensures { result.program ≡ program }
    {
        let both = Both { program, table };
        Tabled { both }
    }

    /// The two.
    pub fn both(&self) -> &Both
        ensures same { result.now ≡ self.now }
        ensures tabled { IsTabled self.now }
    {
        &self.both
    }
}
