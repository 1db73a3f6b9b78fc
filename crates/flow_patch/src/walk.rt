//! One walk over a new text, beside the old one.
ghost use Rattle.std.specs.Prelude.{◌≡◌, map, Ok, Err, Some, None, IfOk, IfErr, OnOk};
ghost use Rattle.flow_base.specs.Shown.{shown_block, shown_braced, shown_branch, shown_stmt, branches_of};
ghost use Rattle.flow_patch.specs.Behind.{behind, behind_statement, ended, unknown_in, within, within_beside};
ghost use Rattle.flow_patch.specs.Difference.{first_list, place_of, second_list};

use crate::ids::has_patch;
use crate::same::same_head;
use flow_base::syntax::{Block, Branch, Stmt};
use flow_base::text::Key;

/// The place of a statement's first token.
pub(crate) fn place_of(statement: &Stmt) -> usize
    ensures { result ≡ place_of (shown_stmt statement.now) }
{
    match statement {
        Stmt::Let(at, _, _, _) => *at,
        Stmt::Assign(at, _, _) => *at,
        Stmt::Call(at, _, _, _, _, _, _) => *at,
        Stmt::WaitSignal(at, _, _, _) => *at,
        Stmt::WaitSignalFor(at, _, _, _, _, _) => *at,
        Stmt::Sleep(at, _) => *at,
        Stmt::If(at, _, _, _) => *at,
        Stmt::While(at, _, _) => *at,
        Stmt::Parallel(at, _, _, _) => *at,
        Stmt::Patch(at, _, _, _, _) => *at,
        Stmt::Deprecate(at, _, _) => *at,
        Stmt::Return(at, _) => *at,
        Stmt::FailWith(at, _) => *at,
        Stmt::Continue(at, _) => *at,
    }
}

/// The one list within a statement, or the first of its two; an empty one where it has none.
pub(crate) fn first_list(statement: &Stmt) -> &[Stmt]
    ensures { shown_block result.now ≡ first_list (shown_stmt statement.now) }
{
    match statement {
        Stmt::Call(_, _, _, _, _, _, Some(otherwise)) => otherwise.list.as_slice(),
        Stmt::WaitSignalFor(_, _, _, _, _, late) => late.list.as_slice(),
        Stmt::If(_, _, then, _) => then.list.as_slice(),
        Stmt::While(_, _, body) => body.list.as_slice(),
        Stmt::Patch(_, _, _, since, _) => since.list.as_slice(),
        _ => &[],
    }
}

/// The second of the two lists within a statement; an empty one where it has no two.
pub(crate) fn second_list(statement: &Stmt) -> &[Stmt]
    ensures { shown_block result.now ≡ second_list (shown_stmt statement.now) }
{
    match statement {
        Stmt::If(_, _, _, otherwise) => otherwise.list.as_slice(),
        Stmt::Patch(_, _, _, _, before) => before.list.as_slice(),
        _ => &[],
    }
}

/// What is left of an old list behind what a new one stands for, where the patches of the new text whose ids the old text
/// hasn't give way to their second lists, and a `deprecate` with such an id to nothing.
///
/// # Failure
/// The place where the new list first differs.
#[cycle(walks)]
pub(crate) fn behind<'a>(new: &[Stmt], old: &'a [Stmt], text: &[Stmt]) -> Result<&'a [Stmt], usize>
    ensures left { IfOk result (λ rest. behind (unknown_in (shown_block text.now)) (shown_block new.now) (shown_block old.now) ≡ Ok
        (shown_block rest.now)) }
    ensures place { IfErr result (λ at. behind (unknown_in (shown_block text.now)) (shown_block new.now) (shown_block old.now) ≡ Err at) }
{
    let mut rest = old;
    for statement in new {
        rest = behind_statement(statement, rest, text)?;
    }
    Ok(rest)
}

#[cycle(walks)]
fn behind_statement<'a>(new: &Stmt, old: &'a [Stmt], text: &[Stmt]) -> Result<&'a [Stmt], usize>
    ensures left { IfOk result (λ rest. behind_statement (unknown_in (shown_block text.now)) (shown_stmt new.now)
        (shown_block old.now) ≡ Ok (shown_block rest.now)) }
    ensures place { IfErr result (λ at. behind_statement (unknown_in (shown_block text.now)) (shown_stmt new.now)
        (shown_block old.now) ≡ Err at) }
{
    if let Stmt::Patch(_, _, id, _, before) = new {
        if !has_patch(text, id, true) {
            return behind(before.list.as_slice(), old, text);
        }
    }
    if let Stmt::Deprecate(_, _, id) = new {
        if !has_patch(text, id, true) {
            return Ok(old);
        }
    }
    match old.split_first() {
        Some((first, rest)) if same_head(first, new) => {
            compare_within(new, first, text)?;
            Ok(rest)
        }
        _ => Err(place_of(new)),
    }
}

/// Compares the lists within two statements of one head.
#[cycle(walks)]
fn compare_within(new: &Stmt, old: &Stmt, text: &[Stmt]) -> Result<(), usize>
    ensures same { OnOk result (within (unknown_in (shown_block text.now)) (shown_stmt new.now) (shown_stmt old.now) ≡ None) }
    ensures place { IfErr result (λ at. within (unknown_in (shown_block text.now)) (shown_stmt new.now) (shown_stmt old.now) ≡ Some at) }
{
    match new {
        Stmt::Call(_, _, _, _, _, _, Some(otherwise)) => {
            compare_lists(otherwise, first_list(old), text)
        }
        Stmt::WaitSignalFor(_, _, _, _, _, late) => compare_lists(late, first_list(old), text),
        Stmt::If(_, _, then, otherwise) => {
            compare_lists(then, first_list(old), text)?;
            compare_lists(otherwise, second_list(old), text)
        }
        Stmt::While(_, _, body) => compare_lists(body, first_list(old), text),
        Stmt::Parallel(_, first, others, end) => match old {
            Stmt::Parallel(_, other, more, _) => {
                compare_lists(&first.body, other.body.list.as_slice(), text)?;
                compare_branches(others, more, *end, text)
            }
            _ => Err(first.at),
        },
        Stmt::Patch(_, _, _, since, before) => {
            compare_lists(since, first_list(old), text)?;
            compare_lists(before, second_list(old), text)
        }
        _ => Ok(()),
    }
}

/// Compares two lists, the new one with the brace that ends it.
#[cycle(walks)]
fn compare_lists(new: &Block, old: &[Stmt], text: &[Stmt]) -> Result<(), usize>
    ensures same { OnOk result (ended (behind (unknown_in (shown_block text.now)) (shown_braced new.now).0 (shown_block old.now))
        (shown_braced new.now).1 ≡ None) }
    ensures place { IfErr result (λ at. ended (behind (unknown_in (shown_block text.now)) (shown_braced new.now).0 (shown_block old.now))
        (shown_braced new.now).1 ≡ Some at) }
{
    let rest = behind(new.list.as_slice(), old, text)?;
    match rest.split_first() {
        None => Ok(()),
        Some(_) => Err(new.end),
    }
}

/// Compares branches whose block ends at a brace: where the new text has fewer, it is told there.
#[cycle(walks)]
fn compare_branches(new: &[Branch], old: &[Branch], end: usize, text: &[Stmt]) -> Result<(), usize>
    ensures same { OnOk result (within_beside (unknown_in (shown_block text.now)) (branches_of (map shown_branch new.now))
        (branches_of (map shown_branch old.now)) end ≡ None) }
    ensures place { IfErr result (λ at. within_beside (unknown_in (shown_block text.now)) (branches_of (map shown_branch new.now))
        (branches_of (map shown_branch old.now)) end ≡ Some at) }
{
    let mut rest = old;
    for branch in new {
        let Some((other, more)) = rest.split_first() else {
            return Err(branch.at);
        };
        compare_lists(&branch.body, other.body.list.as_slice(), text)?;
        rest = more;
    }
    match rest.split_first() {
        None => Ok(()),
        Some(_) => Err(end),
    }
}
