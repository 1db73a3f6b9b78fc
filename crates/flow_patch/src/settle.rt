ghost use Rattle.std.specs.Prelude.{◌≡◌, None, IfOk, IfErr, OnOk};
ghost use Rattle.flow_model.specs.Checked.{shown_checked};
ghost use Rattle.flow_patch.specs.Settle.{is_among, settled_ids, KeepsAnswered, Settles};
ghost use Rattle.flow_patch.specs.Unsettled.{first_unsettled};
ghost use Rattle.flow_patch.specs.Refusals.{SaysUnsettled};

use crate::compare::compare_settled;
use crate::fault::{Unsafe, Unsettled};
use crate::settled_ids::settled_ids;
use flow_base::code::Code;
use flow_base::text::Key;
use flow_model::checked::Checked;
use std::alloc::Global;

/// The ids of the patches that the new text settles, in the order of their places: the new text is the old one, but that each
/// patch whose id stands under `deprecate` there gave way to that and its first list. Such a text is right for each run of the old
/// one that took none of these patches' second lists.
///
/// # Failure
/// E01; E58 at the place where the new text first differs.
pub fn settle(alloc: Global, old: &Checked, new: &Checked) -> Result<Vec<Key>, Unsettled>
    ensures ids { IfOk result (λ ids. ids.items ≡ settled_ids (shown_checked old.now) (shown_checked new.now)) }
    ensures settles { OnOk result (Settles (is_among (settled_ids (shown_checked old.now) (shown_checked new.now))) (shown_checked old.now)
        (shown_checked new.now)) }
    ensures same { OnOk result (first_unsettled (is_among (settled_ids (shown_checked old.now) (shown_checked new.now)))
        (shown_checked old.now) (shown_checked new.now) ≡ None) }
    // E58 comes where the new text settles nothing of the old one, at the first difference.
    ensures refused { IfErr result (λ e. SaysUnsettled (shown_checked old.now) (shown_checked new.now) e) }
    // What stands under the old text and took none of the second lists stands under the new one, and nobody who sends commands
    // sees a difference.
    ensures stands { OnOk result (KeepsAnswered (is_among (settled_ids (shown_checked old.now) (shown_checked new.now)))
        (shown_checked old.now) (shown_checked new.now)) }
{
    let ids = settled_ids(alloc, old.program(), new.program())?;
    match compare_settled(old.program(), new.program(), ids.as_slice()) {
        Ok(()) => Ok(ids),
        Err(at) => Err(Unsettled::Differs(Unsafe {
            at,
            code: Code::NotSettled,
        })),
    }
}
