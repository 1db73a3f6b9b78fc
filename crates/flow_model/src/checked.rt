ghost use Rattle.std.specs.Prelude.{◌≡◌};
ghost use Rattle.flow_base.specs.Shown.{shown_program};
ghost use Rattle.flow_nodes.specs.Links.{block_at};
ghost use Rattle.flow_model.specs.WellFormed.{WellFormed};

use crate::tabled::Tabled;
use flow_base::syntax::Program;
use flow_nodes::linked::Linked;

/// A program that keeps the checking rules, and its table, which all its runs share.
#[derive(Debug, Drop)]
pub struct Checked {
    tabled: Tabled,
    pub ghost well_formed: { WellFormed (shown_program tabled.program) },
}

impl Checked {
    ghost use Rattle.flow_model.specs.Checked.{shown_checked};

    /// A program that keeps the rules, which whoever makes one has shown, and its table.
    pub fn of(program: Program, table: Linked) -> Checked
        requires well_formed { WellFormed (shown_program program) }
        requires tabled { block_at table.lists.items table.body ≡ (shown_program program).body }
        ensures { shown_checked result ≡ shown_program program }
    {
        let tabled = Tabled::of(program, table);
        Checked { tabled }
    }

    /// The program that was checked.
    pub fn program(&self) -> &Program
        ensures same { shown_program result.now ≡ shown_checked self.now }
        ensures well_formed { WellFormed (shown_checked self.now) }
    {
        &self.tabled.both().program
    }

    /// Its table.
    pub fn table(&self) -> &Linked
        ensures { block_at result.now.lists.items result.now.body ≡ (shown_checked self.now).body }
    {
        &self.tabled.both().table
    }
}
