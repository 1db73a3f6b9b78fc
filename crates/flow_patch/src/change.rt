ghost use Rattle.std.specs.Prelude.{◌≡◌, Some, None, IfErr, OnErr, OnOk};
ghost use Rattle.flow_model.specs.Checked.{shown_checked};
ghost use Rattle.flow_patch.specs.Difference.{first_difference};
ghost use Rattle.flow_patch.specs.Upgrades.{IsUpgraded, KeepsStanding, NeverFails};
ghost use Rattle.flow_patch.specs.Wrap.{Wrap};

use crate::compare::compare;
use crate::fault::Unsafe;
use flow_base::code::Code;
use flow_model::checked::Checked;

/// Whether the new text wraps the old one: some lists of statements of the old text stand in the new one as the second lists
/// of patches with new ids, and it may declare more at the end. Both texts are read, and no memory is taken.
///
/// # Failure
/// E57 at the place where the new text first differs from those that wrap the old one.
pub fn safe_change(old: &Checked, new: &Checked) -> Result<(), Unsafe>
    ensures safe { OnOk result (Wrap (shown_checked old.now) (shown_checked new.now)) }
    ensures refused { OnErr result (Wrap (shown_checked old.now) (shown_checked new.now) → ⊥) }
    ensures same { OnOk result (first_difference (shown_checked old.now) (shown_checked new.now) ≡ None) }
    ensures code { IfErr result (λ e. e.code ≡ Code.NotAWrap) }
    ensures place { IfErr result (λ e. first_difference (shown_checked old.now) (shown_checked new.now) ≡ Some e.at) }
    // What stands under the old text stands under the new one, and nobody who sends commands sees a difference.
    ensures stands { OnOk result (KeepsStanding (shown_checked old.now) (shown_checked new.now)) }
    // So no history that stood has a mismatch, and no upgrade of an open run is refused for one.
    ensures never_fails { OnOk result (NeverFails (shown_checked old.now) (shown_checked new.now)) }
    ensures upgraded { OnOk result (IsUpgraded (shown_checked old.now) (shown_checked new.now)) }
{
    match compare(old.program(), new.program()) {
        Ok(()) => Ok(()),
        Err(at) => Err(Unsafe {
            at,
            code: Code::NotAWrap,
        }),
    }
}
