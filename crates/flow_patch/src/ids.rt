//! The ids of a text's patches; and which ids a list has.
ghost use Rattle.std.specs.Prelude.{◌≡◌, map};
ghost use Rattle.flow_base.specs.Shown.{shown_block, shown_branch, shown_stmt, branches_of};
ghost use Rattle.flow_patch.specs.Settle.{is_among};
ghost use Rattle.flow_patch.specs.Wrap.{block_has, branches_have, has_id};

use flow_base::syntax::{Branch, Stmt};
use flow_base::text::Key;

/// Whether a patch in the list has the id, or, where these count, a `deprecate`.
#[cycle(ids)]
pub(crate) fn has_patch(list: &[Stmt], id: &Key, deprecated: bool) -> bool
    ensures { result ≡ block_has deprecated id.now (shown_block list.now) }
{
    for statement in list {
        if is_patch_within(statement, id, deprecated) {
            return true;
        }
    }
    false
}

#[cycle(ids)]
fn is_patch_within(statement: &Stmt, id: &Key, deprecated: bool) -> bool
    ensures { result ≡ has_id deprecated id.now (shown_stmt statement.now) }
{
    match statement {
        Stmt::Call(_, _, _, _, _, _, Some(otherwise)) => has_patch(
            otherwise.list.as_slice(),
            id,
            deprecated,
        ),
        Stmt::WaitSignalFor(_, _, _, _, _, late) => has_patch(late.list.as_slice(), id, deprecated),
        Stmt::If(_, _, then, otherwise) => {
            has_patch(then.list.as_slice(), id, deprecated)
                || has_patch(otherwise.list.as_slice(), id, deprecated)
        }
        Stmt::While(_, _, body) => has_patch(body.list.as_slice(), id, deprecated),
        Stmt::Parallel(_, first, others, _) => {
            has_patch(first.body.list.as_slice(), id, deprecated)
                || have_patch(others, id, deprecated)
        }
        Stmt::Patch(_, _, patch, since, before) => {
            patch.is(id)
                || has_patch(since.list.as_slice(), id, deprecated)
                || has_patch(before.list.as_slice(), id, deprecated)
        }
        Stmt::Deprecate(_, _, patch) => deprecated && patch.is(id),
        _ => false,
    }
}

#[cycle(ids)]
fn have_patch(branches: &[Branch], id: &Key, deprecated: bool) -> bool
    ensures { result ≡ branches_have deprecated id.now (branches_of (map shown_branch branches.now)) }
{
    for branch in branches {
        if has_patch(branch.body.list.as_slice(), id, deprecated) {
            return true;
        }
    }
    false
}

/// Whether the id is one of these.
pub(crate) fn is_among(ids: &[Key], id: &Key) -> bool
    ensures { result ≡ is_among ids.now id.now }
{
    for one in ids {
        if one.is(id) {
            return true;
        }
    }
    false
}
