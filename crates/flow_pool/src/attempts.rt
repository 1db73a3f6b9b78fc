//! How an attempt is made.
ghost use Rattle.std.specs.Prelude.{◌≡◌, ◌<◌, ◌≤◌, None, ℕ, List, length, is_some, IfOk, IfSome, IfNone, slice_get};
ghost use Rattle.flow_pool.specs.Attempts.{failed_with};
ghost use Rattle.flow_pool.specs.Reports.{first_named, is_left, MayCome};
ghost use Rattle.flow_base.specs.declared.task.Task.{Task};
ghost use Rattle.flow_pool.specs.declared.activity.Attempt.{Attempt};

use crate::activity::{Activity, Attempt};
use crate::unknown::Unknown;
use flow_base::task::Task;
use flow_timers::pause::Pause;
use std::alloc::{AllocError, Global};
use std::sync::Wait;
use std::time;

// Where the first activity of this name stands.
fn place_of<A: Activity>(activities: &[A], name: &str) -> Option<usize>
    ensures none { IfNone result (first_named A.named name.now activities.now ≡ None) }
    ensures some { IfSome result (λ i. (i < length activities.now)
        × (first_named A.named name.now activities.now ≡ slice_get activities.now i)) }
{
    'places: for i in 0..activities.len() {
        if activities[i].name() == name {
            return Some(i);
        }
    }
    None
}

// Whether the task is left alone.
pub(crate) fn is_left<R: Wait, A: Activity, U: Unknown>(
    rt: &R,
    activities: &[A],
    task: &Task,
    unknown: &mut U,
) -> bool
    ensures left { result ≡ is_left (U.leaves unknown.old) A.named activities.now task.now }
    ensures same { U.leaves unknown.new ≡ U.leaves unknown.old }
{
    match place_of(activities, task.activity.as_str()) {
        Some(_place) => false,
        None => unknown.leave(rt, task),
    }
}

// Makes an attempt by the first activity of its name. It fails where there is none.
fn attempted<A: Activity>(
    alloc: Global,
    activities: &mut Vec<A>,
    task: &Task,
) -> Result<Attempt, AllocError>
    ensures comes { IfOk result (λ a. MayCome A.named A.gives activities.old.items task.now a) }
    ensures keeps { (t : Task) (a : Attempt) → MayCome A.named A.gives activities.new.items t a
        → MayCome A.named A.gives activities.old.items t a }
    ensures named { (name : List ℕ) → is_some (first_named A.named name activities.new.items) ≡ is_some
        (first_named A.named name activities.old.items) }
{
    match place_of(activities.as_slice(), task.activity.as_str()) {
        Some(i) => activities[i].run(alloc, task),
        None => Attempt::failed(alloc, "no such activity"),
    }
}

/// Makes an attempt, again and again while memory is missing, and waits longer each time.
pub(crate) fn attempt<R: Wait + time::Clock, A: Activity>(
    rt: &R,
    alloc: Global,
    activities: &mut Vec<A>,
    task: &Task,
) -> Attempt
    ensures comes { MayCome A.named A.gives activities.old.items task.now result }
    ensures keeps { (t : Task) (a : Attempt) → MayCome A.named A.gives activities.new.items t a
        → MayCome A.named A.gives activities.old.items t a }
    ensures named { (name : List ℕ) → is_some (first_named A.named name activities.new.items) ≡ is_some
        (first_named A.named name activities.old.items) }
{
    let mut pause = Pause::new();
    'tries: for _ in rt.forever() {
        if let Ok(attempt) = attempted(alloc, activities, task) {
            return attempt;
        }
        pause.wait(rt);
    }
    unreachable!()
}

/// A failure for a reason, as soon as there's memory for it.
pub(crate) fn failure<R: Wait + time::Clock>(rt: &R, alloc: Global, reason: &str) -> Attempt
    requires { length reason.now ≤ 4096 }
    ensures { result ≡ failed_with reason.now }
{
    let mut pause = Pause::new();
    'tries: for _ in rt.forever() {
        if let Ok(attempt) = Attempt::failed(alloc, reason) {
            return attempt;
        }
        pause.wait(rt);
    }
    unreachable!()
}
