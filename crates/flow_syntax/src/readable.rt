//! What the types of a program give that its words alone don't: each `parallel` has a branch, each patch and each
//! `deprecate` an id that a text may have. Laws, which read and change nothing.
ghost use Rattle.std.specs.Prelude.{map, IsTrue};
ghost use Rattle.flow_base.specs.Shown.{shown_stmt, shown_braced, shown_branch, shown_otherwise, shown_block, branches_of};
ghost use Rattle.flow_model.specs.Grammar.{is_patch_id};
ghost use Rattle.flow_syntax.specs.Print.{IsReadable, AreReadable, IsReadableElse, AreReadableBranches};

use flow_base::syntax::{Block, Branch, Stmt};
use flow_base::text::Key;

fn patch_id(id: &Key)
    ensures { IsTrue (is_patch_id id.now) }
{
    let _id = id.as_str();
}

#[cycle(readable)]
fn statement(stmt: &Stmt)
    ensures { IsReadable (shown_stmt stmt.now) }
{
    match stmt {
        Stmt::Let(_, _, _, _) | Stmt::Assign(_, _, _) | Stmt::WaitSignal(_, _, _, _) => {}
        Stmt::Sleep(_, _) | Stmt::Return(_, _) | Stmt::FailWith(_, _) | Stmt::Continue(_, _) => {}
        Stmt::Call(_, _, _, _, _, _, failing) => otherwise(failing),
        Stmt::WaitSignalFor(_, _, _, _, _, late) => block(late),
        Stmt::If(_, _, first, second) => {
            block(first);
            block(second);
        }
        Stmt::While(_, _, body) => block(body),
        Stmt::Parallel(_, first, others, _) => {
            block(&first.body);
            branches(others);
        }
        Stmt::Patch(_, _, id, first, second) => {
            patch_id(id);
            block(first);
            block(second);
        }
        Stmt::Deprecate(_, _, id) => patch_id(id),
    }
}

#[cycle(readable)]
fn block(block: &Block)
    ensures { AreReadable (shown_braced block.now).0 }
{
    statements(block.list.as_slice());
}

#[cycle(readable)]
fn otherwise(otherwise: &Option<Block>)
    ensures { IsReadableElse (shown_otherwise otherwise.now) }
{
    match otherwise {
        None => {}
        Some(list) => block(list),
    }
}

#[cycle(readable)]
fn branches(list: &[Branch])
    ensures { AreReadableBranches (branches_of (map shown_branch list.now)) }
{
    for branch in list {
        block(&branch.body);
    }
}

/// What is printed of these statements is a text of them.
#[cycle(readable)]
pub fn statements(list: &[Stmt])
    ensures { AreReadable (shown_block list.now) }
{
    for stmt in list {
        statement(stmt);
    }
}
