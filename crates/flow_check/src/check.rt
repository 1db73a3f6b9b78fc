ghost use Rattle.std.specs.Prelude.{◌≡◌, None, OnOk, IfOk, IfErr};
ghost use Rattle.flow_base.specs.Shown.{shown_program};
ghost use Rattle.flow_model.specs.WellFormed.{WellFormed, first_fault as first_fault_of};
ghost use Rattle.flow_model.specs.Checked.{shown_checked};
ghost use Rattle.flow_check.specs.Faults.{IsCheckFault};

use crate::fault::CheckFault;
use crate::first::FirstFault;
use crate::names::{check_names, check_types};
use crate::scope::Scope;
use crate::statement::check_statements;
use flow_base::command::TextFault;
use flow_base::syntax::Program;
use flow_model::checked::Checked;
use flow_nodes::linked::Linked;
use std::alloc::{AllocError, Global};

/// The program, if it keeps the checking rules.
///
/// # Failure
/// E20 to E29: the rule that is broken at the least place, and of those there the one with the lowest number.
pub fn check(alloc: Global, program: Program) -> Result<Checked, CheckFault>
    ensures ok { IfOk result (λ c. shown_checked c ≡ shown_program program) }
    // The program keeps every rule.
    ensures well_formed { OnOk result (WellFormed (shown_program program)) }
    // The fault is the one with the least place, and of those there the one with the lowest number.
    ensures fault { IfErr result (λ e. IsCheckFault (shown_program program) e) }
{
    match first_fault(alloc, &program)? {
        Some(fault) => Err(CheckFault::Rule(fault)),
        None => {
            let table = Linked::of(alloc, &program)?;
            Ok(Checked::of(program, table))
        }
    }
}

/// The fault with the least place, and of those there the one with the lowest number.
fn first_fault(alloc: Global, program: &Program) -> Result<Option<TextFault>, AllocError>
    ensures { IfOk result (λ o. o ≡ first_fault_of (shown_program program.now)) }
{
    let mut found = FirstFault::none();
    check_names(alloc, program, &mut found)?;
    check_types(&program.declarations, &mut found);
    let mut scope = Scope::none(alloc, &program.parameters);
    scope.add_parameters(&program.parameters)?;
    scope.add_declarations(&program.declarations)?;
    check_statements(&mut scope, program.body.as_slice(), false, &mut found)?;
    Ok(found.get())
}
