//! What becomes of a task whose activity no worker has.
use flow_base::task::Task;
use std::sync::Wait;

/// Decides of the tasks that a worker has no activity for.
pub trait Unknown {
    ghost use Rattle.std.specs.Prelude.{◌≡◌, Bool};

    /// Whether they are left alone. Those that aren't fail.
    ghost leaves: { Self → Bool };

    /// A worker has no activity for this task. Whether the task is left alone: nothing is reported of it, and it stays open.
    fn leave<R: Wait>(&mut self, rt: &R, task: &Task) -> bool
        ensures left { result ≡ leaves self.old }
        ensures same { leaves self.new ≡ leaves self.old };
}

/// They fail.
#[derive(Clone, Copy, Debug, Drop)]
pub struct Fails;

impl Unknown for Fails {
    ghost use Rattle.std.specs.Prelude.{false};

    ghost leaves = { λ _. false };

    fn leave<R: Wait>(&mut self, _rt: &R, _task: &Task) -> bool {
        false
    }
}
