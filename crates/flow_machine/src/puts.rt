//! Changes that a command makes: listed, and put into a view.
ghost use Rattle.std.specs.Prelude.{◌++◌, ◌∷◌, ◌≡◌, IfOk, OnOk, []};
ghost use Rattle.flow_machine.specs.Fitting.{HasUnfit};
ghost use Rattle.flow_model.specs.Book.{changed_by};
ghost use Rattle.flow_view.specs.Called.{Called};

use flow_base::book::Change;
use flow_view::fault::ViewFault;
use flow_view::view::View;
use std::alloc::{AllocError, Global};

/// A list of this change alone.
pub fn one(alloc: Global, change: Change) -> Result<Vec<Change>, AllocError>
    ensures { IfOk result (λ v. v.items ≡ change ∷ []) }
{
    let mut changes = Vec::new(alloc);
    changes.push(change)?;
    Ok(changes)
}

/// Changes are listed behind others.
pub fn list_behind(changes: &mut Vec<Change>, more: Vec<Change>) -> Result<(), AllocError>
    ensures { OnOk result (changes.new.items ≡ changes.old.items ++ more.items) }
{
    for change in more {
        changes.push(change)?;
    }
    Ok(())
}

/// Puts changes into a view, in their order.
pub fn put_all<V: View>(view: &mut V, changes: &[Change]) -> Result<(), ViewFault>
    ensures put { OnOk result (V.is_sure view.new → V.book view.new ≡ changed_by (V.book view.old) changes.now) }
    ensures called { Called V.View view.old view.new result (HasUnfit V.unfit (V.book view.old) changes.now) }
{
    for change in changes {
        view.put(change)?;
    }
    Ok(())
}
