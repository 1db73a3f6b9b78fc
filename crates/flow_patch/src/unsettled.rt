//! One walk over an old text, its patches settled, beside the new one.
ghost use Rattle.std.specs.Prelude.{◌≡◌, map, Ok, Err, Some, None, IfOk, IfErr, OnOk};
ghost use Rattle.flow_base.specs.Shown.{shown_block, shown_branch, shown_stmt, branches_of};
ghost use Rattle.flow_patch.specs.Difference.{same_head};
ghost use Rattle.flow_patch.specs.Settle.{deprecated, is_among};
ghost use Rattle.flow_patch.specs.Unsettled.{finished, first_end, left, left_beside, left_statement, left_within, met, second_end};

use crate::ids::is_among;
use crate::same::same_head;
use crate::walk::{first_list, place_of, second_list};
use flow_base::syntax::{Branch, Stmt};
use flow_base::text::Key;

/// Where the one list within a statement ends, or the first of its two.
fn first_end(statement: &Stmt) -> usize
    ensures { result ≡ first_end (shown_stmt statement.now) }
{
    match statement {
        Stmt::Call(_, _, _, _, _, _, Some(otherwise)) => otherwise.end,
        Stmt::WaitSignalFor(_, _, _, _, _, late) => late.end,
        Stmt::If(_, _, then, _) => then.end,
        Stmt::While(_, _, body) => body.end,
        Stmt::Parallel(_, _, _, end) => *end,
        Stmt::Patch(_, _, _, since, _) => since.end,
        _ => 0,
    }
}

/// Where the second of the two lists within a statement ends.
fn second_end(statement: &Stmt) -> usize
    ensures { result ≡ second_end (shown_stmt statement.now) }
{
    match statement {
        Stmt::If(_, _, _, otherwise) => otherwise.end,
        Stmt::Patch(_, _, _, _, before) => before.end,
        _ => 0,
    }
}

/// Nothing may be left of a new list.
fn nothing_left(rest: &[Stmt]) -> Result<(), usize>
    ensures same { OnOk result (finished (Ok (shown_block rest.now)) ≡ None) }
    ensures place { IfErr result (λ at. finished (Ok (shown_block rest.now)) ≡ Some at) }
{
    match rest.split_first() {
        None => Ok(()),
        Some((first, _)) => Err(place_of(first)),
    }
}

/// Whether a statement is the `deprecate` of this id.
fn deprecates(id: &Key, statement: &Stmt) -> bool
    ensures { result ≡ same_head (deprecated id.now) (shown_stmt statement.now) }
{
    match statement {
        Stmt::Deprecate(_, _, other) => id.is(other),
        _ => false,
    }
}

/// What is left of a new list, which ends there, behind the `deprecate` of this id.
fn behind_deprecated<'a>(id: &Key, new: &'a [Stmt], end: usize) -> Result<&'a [Stmt], usize>
    ensures left { IfOk result (λ rest. met (deprecated id.now) (shown_block new.now) end (λ u. None) ≡ Ok (shown_block rest.now)) }
    ensures place { IfErr result (λ at. met (deprecated id.now) (shown_block new.now) end (λ u. None) ≡ Err at) }
{
    match new.split_first() {
        Some((first, rest)) if deprecates(id, first) => Ok(rest),
        Some((first, _)) => Err(place_of(first)),
        None => Err(end),
    }
}

/// What is left of a new list, which ends there, behind what an old one stands for, where the patches with these ids give way to
/// their `deprecate` and their first lists.
///
/// # Failure
/// The place where the new list first differs.
#[cycle(settles)]
fn left<'a>(old: &[Stmt], new: &'a [Stmt], end: usize, ids: &[Key]) -> Result<&'a [Stmt], usize>
    ensures left { IfOk result (λ rest. left (is_among ids.now) (shown_block old.now) (shown_block new.now) end ≡ Ok
        (shown_block rest.now)) }
    ensures place { IfErr result (λ at. left (is_among ids.now) (shown_block old.now) (shown_block new.now) end ≡ Err at) }
{
    let mut rest = new;
    for statement in old {
        rest = left_statement(statement, rest, end, ids)?;
    }
    Ok(rest)
}

#[cycle(settles)]
fn left_statement<'a>(
    old: &Stmt,
    new: &'a [Stmt],
    end: usize,
    ids: &[Key],
) -> Result<&'a [Stmt], usize>
    ensures left { IfOk result (λ rest. left_statement (is_among ids.now) (shown_stmt old.now) (shown_block new.now) end ≡ Ok
        (shown_block rest.now)) }
    ensures place { IfErr result (λ at. left_statement (is_among ids.now) (shown_stmt old.now) (shown_block new.now) end ≡ Err at) }
{
    if let Stmt::Patch(_, _, id, since, _) = old {
        if is_among(ids, id) {
            let rest = behind_deprecated(id, new, end)?;
            return left(since.list.as_slice(), rest, end, ids);
        }
    }
    match new.split_first() {
        Some((first, rest)) if same_head(old, first) => {
            compare_within(old, first, ids)?;
            Ok(rest)
        }
        Some((first, _)) => Err(place_of(first)),
        None => Err(end),
    }
}

/// Compares the lists within two statements of one head.
#[cycle(settles)]
fn compare_within(old: &Stmt, new: &Stmt, ids: &[Key]) -> Result<(), usize>
    ensures same { OnOk result (left_within (is_among ids.now) (shown_stmt old.now) (shown_stmt new.now) ≡ None) }
    ensures place { IfErr result (λ at. left_within (is_among ids.now) (shown_stmt old.now) (shown_stmt new.now) ≡ Some at) }
{
    match old {
        Stmt::Call(_, _, _, _, _, _, Some(otherwise)) => {
            compare_lists(
                otherwise.list.as_slice(),
                first_list(new),
                first_end(new),
                ids,
            )
        }
        Stmt::WaitSignalFor(_, _, _, _, _, late) => {
            compare_lists(late.list.as_slice(), first_list(new), first_end(new), ids)
        }
        Stmt::If(_, _, then, otherwise) => {
            compare_lists(then.list.as_slice(), first_list(new), first_end(new), ids)?;
            compare_lists(
                otherwise.list.as_slice(),
                second_list(new),
                second_end(new),
                ids,
            )
        }
        Stmt::While(_, _, body) => {
            compare_lists(body.list.as_slice(), first_list(new), first_end(new), ids)
        }
        Stmt::Parallel(_, first, others, _) => match new {
            Stmt::Parallel(_, other, more, end) => {
                compare_lists(
                    first.body.list.as_slice(),
                    other.body.list.as_slice(),
                    other.body.end,
                    ids,
                )?;
                compare_branches(others, more, *end, ids)
            }
            _ => Err(first_end(new)),
        },
        Stmt::Patch(_, _, _, since, before) => {
            compare_lists(since.list.as_slice(), first_list(new), first_end(new), ids)?;
            compare_lists(
                before.list.as_slice(),
                second_list(new),
                second_end(new),
                ids,
            )
        }
        _ => Ok(()),
    }
}

/// Compares two lists, of which the new one ends there.
#[cycle(settles)]
pub(crate) fn compare_lists(
    old: &[Stmt],
    new: &[Stmt],
    end: usize,
    ids: &[Key],
) -> Result<(), usize>
    ensures same { OnOk result (finished (left (is_among ids.now) (shown_block old.now) (shown_block new.now) end) ≡ None) }
    ensures place { IfErr result (λ at. finished (left (is_among ids.now) (shown_block old.now) (shown_block new.now) end) ≡ Some at) }
{
    let rest = left(old, new, end, ids)?;
    nothing_left(rest)
}

/// Compares branches, of which the block of the new ones ends there.
#[cycle(settles)]
fn compare_branches(old: &[Branch], new: &[Branch], end: usize, ids: &[Key]) -> Result<(), usize>
    ensures same { OnOk result (left_beside (is_among ids.now) (branches_of (map shown_branch old.now))
        (branches_of (map shown_branch new.now)) end ≡ None) }
    ensures place { IfErr result (λ at. left_beside (is_among ids.now) (branches_of (map shown_branch old.now))
        (branches_of (map shown_branch new.now)) end ≡ Some at) }
{
    let mut rest = new;
    for branch in old {
        let Some((other, more)) = rest.split_first() else {
            return Err(end);
        };
        compare_lists(
            branch.body.list.as_slice(),
            other.body.list.as_slice(),
            other.body.end,
            ids,
        )?;
        rest = more;
    }
    match rest.split_first() {
        None => Ok(()),
        Some((other, _)) => Err(other.at),
    }
}
