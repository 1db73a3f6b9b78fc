//! Two programs compared: names, parameters, declarations, and then their bodies.
ghost use Rattle.std.specs.Prelude.{◌≡◌, [], map, Some, None, IfErr, IfOk, OnOk};
ghost use Rattle.flow_base.specs.Shown.{shown_block, shown_declaration, shown_program};
ghost use Rattle.flow_patch.specs.Behind.{behind, ended, unknown_in};
ghost use Rattle.flow_patch.specs.Settle.{is_among};
ghost use Rattle.flow_patch.specs.Unsettled.{difference_of_all, first_unsettled};
ghost use Rattle.flow_patch.specs.Difference.{beginning_of, difference_of_declarations, difference_of_parameters, first_difference, place_of_declared};

use crate::same::{same_declaration, same_parameter};
use crate::unsettled::compare_lists;
use crate::walk::{behind, place_of};
use flow_base::syntax::{Declaration, Parameter, Program, Stmt};
use flow_base::text::Key;

/// The place where the new program first differs from those that wrap the old one.
pub(crate) fn compare(old: &Program, new: &Program) -> Result<(), usize>
    ensures same { OnOk result (first_difference (shown_program old.now) (shown_program new.now) ≡ None) }
    ensures place { IfErr result (λ at. first_difference (shown_program old.now) (shown_program new.now) ≡ Some at) }
{
    if !old.name.is(&new.name) {
        return Err(new.at);
    }
    let behind = beginning(new.body.as_slice(), new.body_end);
    compare_parameters(&old.parameters, &new.parameters, new.parameters_end)?;
    compare_declarations(&old.declarations, &new.declarations, behind)?;
    compare_bodies(old.body.as_slice(), new.body.as_slice(), new.body_end)
}

/// The place where the new program first differs from the old one with its patches of these ids settled.
pub(crate) fn compare_settled(old: &Program, new: &Program, ids: &[Key]) -> Result<(), usize>
    ensures same { OnOk result (first_unsettled (is_among ids.now) (shown_program old.now) (shown_program new.now) ≡ None) }
    ensures place { IfErr result (λ at. first_unsettled (is_among ids.now) (shown_program old.now) (shown_program new.now) ≡ Some at) }
{
    if !old.name.is(&new.name) {
        return Err(new.at);
    }
    let behind = beginning(new.body.as_slice(), new.body_end);
    compare_parameters(&old.parameters, &new.parameters, new.parameters_end)?;
    compare_all(&old.declarations, &new.declarations, behind)?;
    compare_lists(body_of(old), body_of(new), new.body_end, ids)
}

fn body_of(program: &Program) -> &[Stmt]
    ensures { shown_block result.now ≡ (shown_program program.now).body }
{
    program.body.as_slice()
}

/// The new text may not lack a parameter, nor have one more.
fn compare_parameters(old: &[Parameter], new: &[Parameter], end: usize) -> Result<(), usize>
    ensures same { OnOk result (difference_of_parameters old.now new.now end ≡ None) }
    ensures place { IfErr result (λ at. difference_of_parameters old.now new.now end ≡ Some at) }
{
    let mut rest = new;
    for parameter in old {
        match rest.split_first() {
            Some((other, more)) => {
                if !same_parameter(parameter, other) {
                    return Err(other.at);
                }
                rest = more;
            }
            None => return Err(end),
        }
    }
    match rest.split_first() {
        Some((other, _)) => Err(other.at),
        None => Ok(()),
    }
}

/// The place of a declaration's keyword.
fn place_of_declaration(declaration: &Declaration) -> usize
    ensures { result ≡ place_of_declared (shown_declaration declaration.now) }
{
    match declaration {
        Declaration::Activity(at, _, _, _, _) => *at,
        Declaration::Signal(at, _, _, _) => *at,
    }
}

/// The new text may have more declarations behind those of the old one, and then goes on at a place.
fn compare_declarations(
    old: &[Declaration],
    new: &[Declaration],
    behind: usize,
) -> Result<(), usize>
    ensures same { OnOk result (difference_of_declarations (map shown_declaration old.now) (map shown_declaration new.now) behind ≡ None) }
    ensures place { IfErr result (λ at. difference_of_declarations (map shown_declaration old.now)
        (map shown_declaration new.now) behind ≡ Some at) }
{
    let _more = more_declared(old, new, behind)?;
    Ok(())
}

/// The new text may not lack a declaration, nor have one more, and then goes on at a place.
fn compare_all(old: &[Declaration], new: &[Declaration], behind: usize) -> Result<(), usize>
    ensures same { OnOk result (difference_of_all (map shown_declaration old.now) (map shown_declaration new.now) behind ≡ None) }
    ensures place { IfErr result (λ at. difference_of_all (map shown_declaration old.now)
        (map shown_declaration new.now) behind ≡ Some at) }
{
    let more = more_declared(old, new, behind)?;
    match more.split_first() {
        Some((other, _)) => Err(place_of_declaration(other)),
        None => Ok(()),
    }
}

/// What the new text declares behind the declarations of the old one, or the place where it lacks one of them.
fn more_declared<'a>(
    old: &[Declaration],
    new: &'a [Declaration],
    behind: usize,
) -> Result<&'a [Declaration], usize>
    ensures more { OnOk result (difference_of_declarations (map shown_declaration old.now) (map shown_declaration new.now) behind ≡ None) }
    ensures all { IfOk result (λ more. difference_of_all (map shown_declaration old.now)
        (map shown_declaration new.now) behind ≡ difference_of_all [] (map shown_declaration more.now) behind) }
    ensures place { IfErr result (λ at. difference_of_declarations (map shown_declaration old.now)
        (map shown_declaration new.now) behind ≡ Some at) }
    ensures place_of_all { IfErr result (λ at. difference_of_all (map shown_declaration old.now)
        (map shown_declaration new.now) behind ≡ Some at) }
{
    let mut rest = new;
    for declaration in old {
        match rest.split_first() {
            Some((other, more)) => {
                if !same_declaration(declaration, other) {
                    return Err(place_of_declaration(other));
                }
                rest = more;
            }
            None => return Err(behind),
        }
    }
    Ok(rest)
}

/// The place of the first statement, or of the brace where there is none.
fn beginning(body: &[Stmt], end: usize) -> usize
    ensures { result ≡ beginning_of (shown_block body.now) end }
{
    match body.split_first() {
        Some((first, _)) => place_of(first),
        None => end,
    }
}

/// The new body ends at a brace.
fn compare_bodies(old: &[Stmt], new: &[Stmt], end: usize) -> Result<(), usize>
    ensures same { OnOk result (ended (behind (unknown_in (shown_block old.now)) (shown_block new.now) (shown_block old.now)) end ≡ None) }
    ensures place { IfErr result (λ at. ended (behind (unknown_in (shown_block old.now)) (shown_block new.now)
        (shown_block old.now)) end ≡ Some at) }
{
    let rest = behind(new, old, old)?;
    match rest.split_first() {
        None => Ok(()),
        Some(_) => Err(end),
    }
}
