//! Who has the activities of a running engine.
use flow_pool::activity::Activity;
use flow_pool::builtin::Builtin;
use std::alloc::{AllocError, Global};

/// Gives each worker activities of its own.
pub trait Skills<A: Activity> {
    ghost use Rattle.std.specs.Prelude.{List, IfOk};

    /// The activities that a worker may get.
    ghost has: { Self → List A → Type 0 };

    /// The activities of one more worker.
    fn of_worker(&self, alloc: Global) -> Result<Vec<A>, AllocError>
        ensures { IfOk result (λ all. has self.now all.items) };
}

/// The activities that the program has: `echo`, `add` and `flaky`.
#[derive(Clone, Copy, Debug)]
pub struct BuiltIn;

impl Skills<Builtin> for BuiltIn {
    ghost use Rattle.std.specs.Prelude.{◌≡◌};
    ghost use Rattle.flow_pool.specs.Builtin.{all_builtin};

    ghost has = { λ _ all. all ≡ all_builtin };

    fn of_worker(&self, alloc: Global) -> Result<Vec<Builtin>, AllocError> {
        Builtin::all(alloc)
    }
}
