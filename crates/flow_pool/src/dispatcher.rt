//! The dispatcher: hands the tasks that were posted to the workers.
ghost use Rattle.std.specs.Prelude.{◌≡◌, ◌⊎◌, [], ◌++◌, List, length};
ghost use Rattle.flow_pool.specs.Ends.{put_by, made_by, back_at, came_back, IsSameFeed};
ghost use Rattle.flow_base.specs.declared.task.Task.{Task};

use crate::ends::TaskSender;
use flow_base::task::Task;
use std::sync::Wait;

/// Gives the tasks that were posted, as the hub does.
pub trait TaskSource: Drop {
    ghost use Rattle.std.specs.Prelude.{◌≡◌, [], ◌∷◌, ◌++◌, List, IfNone, MatchOption};
    ghost use Rattle.flow_base.specs.declared.task.Task.{Task};

    /// All that it gave, for contracts alone.
    ghost given: { Self → List Task };

    /// No more will be posted, for contracts alone.
    ghost ended: { Self → Type 0 };

    /// Waits for the next task. None where no more will be posted.
    fn next<R: Wait>(&mut self, rt: &R) -> Option<Task>
        ensures given { MatchOption result (given self.new ≡ given self.old) (λ t. given self.new ≡ given self.old ++ t ∷ []) }
        ensures ended { IfNone result (ended self.new) };
}

/// Puts each task that was posted into the channel, in order, until no more is posted or no worker is left. Where no more is posted
/// each that was given is put; where no worker is left the last one that was given came back from the channel, and is lost. Both ends
/// come back: the workers end when the sender is let go.
pub fn dispatcher<R: Wait, P: TaskSource>(rt: &R, posted: P, sender: TaskSender) -> (TaskSender, P)
    ensures puts { (ts : List Task) × (lost : List Task) × (put_by result.0 ≡ put_by sender ++ ts)
        × (P.given result.1 ≡ (P.given posted ++ ts) ++ lost) × (came_back result.0 ≡ came_back sender ++ lost)
        × (((lost ≡ []) × P.ended result.1) ⊎ (length lost ≡ 1)) }
    ensures same { IsSameFeed sender result.0 × (made_by result.0 ≡ made_by sender) × (back_at result.0 ≡ back_at sender) }
{
    let mut posted = posted;
    let mut sender = sender;
    'tasks: for _ in rt.forever() {
        let Some(task) = posted.next(rt) else {
            return (sender, posted);
        };
        if let Err(_lost) = sender.put(rt, task) {
            return (sender, posted);
        }
    }
    unreachable!()
}
