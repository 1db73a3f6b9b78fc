ghost use Rattle.std.specs.Prelude.{◌≡◌, IfOk, OnOk, false, if◌then◌else◌};
ghost use Rattle.flow_base.specs.declared.event.Cmd.{Cmd as ACmd};
ghost use Rattle.flow_model.specs.Rest as tree;
ghost use Rattle.flow_model.specs.Step as model;
ghost use Rattle.flow_run.specs.Shown.{shown_store};

use crate::decided::Decided;
use flow_base::text::Key;
use flow_base::value::Value;
use flow_values::fault::EvalFault;
use flow_values::named::NamedValues;
use flow_values::slots::Slots;
use std::alloc::Global;

/// What the steps of a turn change beside what is left of the program.
#[derive(Debug, Drop)]
pub struct Store {
    pub variables: Slots,
    pub buffer: NamedValues,
    pub decided: Decided,
    /// `while` conditions that this turn has tested.
    pub tests: u32,
}

/// A variable gets a value.
pub fn set(alloc: Global, t: &mut Store, name: &Key, v: Value) -> Result<(), EvalFault>
    ensures { OnOk result (shown_store t.new ≡ model.set_in (shown_store t.old) name.now v) }
{
    t.variables.set(alloc, name, v)?;
    Ok(())
}

/// A variable gets the oldest signal of a name, which leaves the buffer; says whether one was there.
pub fn take(alloc: Global, t: &mut Store, into: &Key, signal: &Key) -> Result<bool, EvalFault>
    ensures taken { IfOk result (λ is. (m : model.Move)
        → (if is then model.Goes tree.Done (shown_store t.new) else m) ≡ model.on_signal (model.oldest signal.now t.old.buffer)
        (λ v. model.Goes tree.Done (model.take_signal (shown_store t.old) into.now signal.now v)) m) }
    ensures in_time { IfOk result (λ is. (c : ACmd) (m : model.Move)
        → (if is then model.Asks tree.Done (shown_store t.new) c else m) ≡ model.on_signal (model.oldest signal.now t.old.buffer)
        (λ v. model.Asks tree.Done (model.take_signal (shown_store t.old) into.now signal.now v) c) m) }
    ensures kept { IfOk result (λ is. is ≡ false → t.new ≡ t.old) }
{
    match t.buffer.take(alloc, signal)? {
        Some(v) => {
            set(alloc, t, into, v)?;
            Ok(true)
        }
        None => Ok(false),
    }
}
