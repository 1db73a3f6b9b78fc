//! What `complete` and `fail` refuse alike.
ghost use Rattle.std.specs.Prelude.{◌≡◌};
ghost use Rattle.flow_machine.specs.ByHead as by_head;
ghost use Rattle.flow_model.specs.Apply as apply;

use flow_base::book::OpenActivity;
use flow_base::code::Code;
use flow_base::number::EventId;
use flow_view::head::Head;

/// The first refusal of a report of an attempt, whatever it gave.
#[tactic(auto, unfolding(crate::specs::ByHead::attempt_refusal))]
pub fn attempt_refusal(head: &Head, event: EventId, attempt: u64) -> Option<Code>
    ensures { result ≡ by_head.attempt_refusal head.now event attempt }
{
    match task_at(head.tasks.as_slice(), event) {
        None => Some(Code::NotOpen),
        Some(task) => {
            if task.attempt == attempt {
                None
            } else {
                Some(Code::OldAttempt)
            }
        }
    }
}

fn task_at(tasks: &[OpenActivity], event: EventId) -> Option<OpenActivity>
    ensures { result ≡ apply.task_at tasks.now event }
{
    for i in 0..tasks.len() {
        if tasks[i].event == event {
            return Some(tasks[i]);
        }
    }
    None
}
