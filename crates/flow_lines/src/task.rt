//! Lines of tasks.
ghost use Rattle.std.specs.Prelude.{◌≡◌, ◌++◌, ◌∷◌, [], IfOk, IfErr, OnOk, string_bytes};
ghost use Rattle.std.specs.Io.KnownBytes.{Appends, Keeps};
ghost use Rattle.serde_json.specs.View.{view};
ghost use Rattle.serde_json.specs.Written.{compact_text};
ghost use Rattle.flow_lines.specs.Driving.{WritesBeginning};
ghost use Rattle.flow_lines.specs.Tasks.{task_out, task_text};

use crate::output::{Unwritten, with_end};
use crate::streams::write_bytes;
use flow_base::encoding::values_to_json;
use flow_base::task::Task;
use serde_json::{Value as Json, json};
use std::alloc::{AllocError, Global};
use std::io::Write;
use std::string::ToString;

fn task_json(alloc: Global, task: &Task) -> Result<Json, AllocError>
    ensures { IfOk result (λ j. view j ≡ task_out task.now) }
{
    let args = values_to_json(alloc, task.args.as_slice())?;
    json!(in alloc; {
        "activity": task.activity.as_str(),
        "args": args,
        "attempt": task.attempt,
        "event": task.event.get(),
        "flow": task.flow.as_str(),
        "reply": "task",
        "run": task.run.get()
    })
}

/// The line of a task, without its end: compact JSON, its keys in byte order.
#[tactic(auto, using(crate::proofs::Tasks::task_plain, crate::proofs::Tasks::task_bytes))]
pub fn task_line(alloc: Global, task: &Task) -> Result<String, AllocError>
    ensures json { IfOk result (λ s. string_bytes s ≡ compact_text (task_out task.now)) }
    ensures bytes { IfOk result (λ s. string_bytes s ≡ task_text task.now) }
{
    task_json(alloc, task)?.to_string(alloc)
}

/// The line of a task, with its end.
fn whole_line(alloc: Global, task: &Task) -> Result<String, AllocError>
    ensures { IfOk result (λ s. string_bytes s ≡ task_text task.now ++ 10 ∷ []) }
{
    with_end(task_line(alloc, task)?)
}

/// Writes the line of a task.
#[tactic(auto, using(crate::proofs::Endings::none_written, crate::proofs::Endings::same_kept))]
pub fn write_task<W: Write>(alloc: Global, writer: &mut W, task: &Task) -> Result<(), Unwritten>
    ensures all { OnOk result (Appends (W.contents writer.old) (W.contents writer.new) (task_text task.now ++ 10 ∷ [])) }
    ensures beginning { WritesBeginning (W.contents writer.old) (W.contents writer.new) (task_text task.now ++ 10 ∷ []) }
    ensures kept { IfErr result (λ e. e ≡ Unwritten.NoMemory _ → Keeps (W.contents writer.old) (W.contents writer.new)) }
{
    let text = whole_line(alloc, task)?;
    let done = write_bytes(writer, text.as_bytes())?;
    Ok(done)
}
