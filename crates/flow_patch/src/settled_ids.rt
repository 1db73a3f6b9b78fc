//! The ids that a change settles.
ghost use Rattle.std.specs.Prelude.{◌≡◌, [], ◌∷◌, ◌++◌, map, if◌then◌else◌, IfOk, OnOk};
ghost use Rattle.flow_base.specs.Shown.{shown_block, shown_braced, shown_branch, shown_program, shown_stmt, branches_of};
ghost use Rattle.flow_patch.specs.Settle.{deprecated_ids, ids_beside, ids_within, patched_by, settled_ids};

use crate::ids::has_patch;
use flow_base::syntax::{Block, Branch, Program, Stmt};
use flow_base::text::Key;
use std::alloc::{AllocError, Global};

/// A law: what adds nothing leaves the list as it is.
fn none_added(ids: &Vec<Key>)
    ensures { ids.now.items ≡ ids.now.items ++ [] }
{}

/// Adds an id that stands under `deprecate`, if it stands under `patch` in the old text.
fn add_id(alloc: Global, id: &Key, text: &[Stmt], ids: &mut Vec<Key>) -> Result<(), AllocError>
    ensures { OnOk result (ids.new.items ≡ ids.old.items ++ (if patched_by (shown_block text.now) id.now then id.now ∷ [] else [])) }
{
    if has_patch(text, id, false) {
        let copy = id.copy(alloc)?;
        ids.push(copy)?;
        return Ok(());
    }
    none_added(ids);
    Ok(())
}

/// Adds the ids under `deprecate` in the list that stand under `patch` in the old text, in the order of their places.
#[cycle(settled)]
fn add_ids(
    alloc: Global,
    list: &[Stmt],
    text: &[Stmt],
    ids: &mut Vec<Key>,
) -> Result<(), AllocError>
    ensures { OnOk result (ids.new.items ≡ ids.old.items ++ deprecated_ids (patched_by (shown_block text.now)) (shown_block list.now)) }
{
    for statement in list {
        add_within(alloc, statement, text, ids)?;
    }
    Ok(())
}

#[cycle(settled)]
fn add_within(
    alloc: Global,
    statement: &Stmt,
    text: &[Stmt],
    ids: &mut Vec<Key>,
) -> Result<(), AllocError>
    ensures { OnOk result (ids.new.items ≡ ids.old.items ++ ids_within (patched_by (shown_block text.now)) (shown_stmt statement.now)) }
{
    match statement {
        Stmt::Call(_, _, _, _, _, _, Some(otherwise)) => add_block(alloc, otherwise, text, ids),
        Stmt::WaitSignalFor(_, _, _, _, _, late) => add_block(alloc, late, text, ids),
        Stmt::If(_, _, then, otherwise) => {
            add_block(alloc, then, text, ids)?;
            add_block(alloc, otherwise, text, ids)?;
            Ok(())
        }
        Stmt::While(_, _, body) => add_block(alloc, body, text, ids),
        Stmt::Parallel(_, first, others, _) => {
            add_block(alloc, &first.body, text, ids)?;
            add_beside(alloc, others, text, ids)?;
            Ok(())
        }
        Stmt::Patch(_, _, _, since, before) => {
            add_block(alloc, since, text, ids)?;
            add_block(alloc, before, text, ids)?;
            Ok(())
        }
        Stmt::Deprecate(_, _, id) => add_id(alloc, id, text, ids),
        _ => {
            none_added(ids);
            Ok(())
        }
    }
}

#[cycle(settled)]
fn add_block(
    alloc: Global,
    block: &Block,
    text: &[Stmt],
    ids: &mut Vec<Key>,
) -> Result<(), AllocError>
    ensures { OnOk result (ids.new.items ≡ ids.old.items ++ deprecated_ids (patched_by (shown_block text.now)) (shown_braced block.now).0) }
{
    add_ids(alloc, block.list.as_slice(), text, ids)
}

#[cycle(settled)]
fn add_beside(
    alloc: Global,
    branches: &[Branch],
    text: &[Stmt],
    ids: &mut Vec<Key>,
) -> Result<(), AllocError>
    ensures { OnOk result (ids.new.items ≡ ids.old.items ++ ids_beside (patched_by (shown_block text.now))
        (branches_of (map shown_branch branches.now))) }
{
    for branch in branches {
        add_block(alloc, &branch.body, text, ids)?;
    }
    Ok(())
}

/// The ids that stand under `patch` in the old text and under `deprecate` in the new one, in the order of their places there.
pub(crate) fn settled_ids(
    alloc: Global,
    old: &Program,
    new: &Program,
) -> Result<Vec<Key>, AllocError>
    ensures { IfOk result (λ ids. ids.items ≡ settled_ids (shown_program old.now) (shown_program new.now)) }
{
    let mut ids = Vec::new(alloc);
    add_ids(alloc, new.body.as_slice(), old.body.as_slice(), &mut ids)?;
    Ok(ids)
}
