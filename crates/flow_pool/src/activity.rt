ghost use Rattle.std.specs.Prelude.{◌≡◌, ◌≤◌, IfOk, length};
ghost use Rattle.flow_pool.specs.Attempts.{failed_with};

use flow_base::task::Task;
use flow_base::text::Text;
use flow_base::value::Value;
use std::alloc::{AllocError, Global};

/// What came of an attempt.
#[derive(Debug, Drop)]
pub enum Attempt {
    /// It gave this.
    Done(Value),
    /// It failed, and this is why.
    Failed(Text),
}

impl Attempt {
    /// A failure for a reason, of at most 4,096 bytes.
    pub fn failed(alloc: Global, reason: &str) -> Result<Attempt, AllocError>
        requires { length reason.now ≤ 4096 }
        ensures { IfOk result (λ a. a ≡ failed_with reason.now) }
    {
        match Text::fitting(alloc, reason) {
            Ok(text) => Ok(Attempt::Failed(text)),
            Err(refused) => Err(refused),
        }
    }
}

/// What runs outside of the engine. A worker calls it for each attempt; one attempt may be run more than once, since a
/// process may end before its report is kept.
pub trait Activity {
    ghost use Rattle.std.specs.Prelude.{◌≡◌, List, ℕ, IfOk};
    ghost use Rattle.flow_base.specs.declared.task.Task.{Task};
    ghost use Rattle.flow_pool.specs.declared.activity.Attempt.{Attempt};

    /// What programs call it.
    ghost named: { Self → List ℕ };

    /// What may come of a task.
    ghost gives: { Self → Task → Attempt → Type 0 };

    fn name(&self) -> &str
        ensures { result.now ≡ named self.now };

    /// Makes one attempt. Where memory is missing it is asked again.
    fn run(&mut self, alloc: Global, task: &Task) -> Result<Attempt, AllocError>
        ensures gives { IfOk result (λ a. gives self.old task.now a) }
        ensures named { named self.new ≡ named self.old }
        ensures keeps { (t : Task) (a : Attempt) → gives self.new t a → gives self.old t a };
}
