//! A worker: takes tasks, makes an attempt of each, and reports it.
ghost use Rattle.std.specs.Prelude.{◌≡◌, ◌++◌, ℕ, List, is_err, is_some};
ghost use Rattle.flow_base.specs.declared.task.Task.{Task};
ghost use Rattle.flow_pool.specs.declared.activity.Attempt.{Attempt};
ghost use Rattle.flow_pool.specs.Ends.{known_by, number_of, taken_by, IsSameEnd};
ghost use Rattle.flow_pool.specs.Orders.{WasEmpty};
ghost use Rattle.flow_pool.specs.Reports.{Telling, Tells, Follows, Reported, Does, Works, MayCome, first_named, is_left, is_wrong_type};

use crate::activity::{Activity, Attempt};
use crate::attempts::{attempt, failure, is_left};
use crate::ends::TaskReceiver;
use crate::hand::Tells;
use crate::report::{Reports, Unheard, report};
use crate::unknown::Unknown;
use flow_base::code::Code;
use flow_base::command::{Command, Reply};
use flow_base::task::Task;
use flow_timers::Clock;
use flow_timers::pause::Pause;
use std::alloc::Global;
use std::sync::Wait;
use std::time;

// Tells a report until there's a reply, or nobody to tell. It waits longer each time, since what stands in the way may last, as a full
// disk does.
fn tell<R: Wait + time::Clock, S: Reports>(
    rt: &R,
    reports: &mut S,
    command: Command,
) -> Result<Reply, Unheard>
    ensures { (log : List Telling) × (S.told reports.new ≡ S.told reports.old ++ log) × Tells command log result }
{
    let mut command = command;
    let mut pause = Pause::new();
    'tries: for _ in rt.forever() {
        match reports.tell(rt, command) {
            Ok(reply) => return Ok(reply),
            Err((back, unheard)) => {
                if unheard.is_final() {
                    return Err(unheard);
                }
                command = back;
            }
        }
        pause.wait(rt);
    }
    unreachable!()
}

// Whether the report has to be followed by a failure.
fn has_wrong_type(heard: &Result<Reply, Unheard>) -> bool
    ensures { result ≡ is_wrong_type heard.now }
{
    matches!(heard, Ok(Reply::Refused(Code::WrongType)))
}

// Tells the failure that follows E66. Whether nobody is left to tell.
fn follow<R: Wait + time::Clock, S: Reports, C: Clock>(
    rt: &R,
    alloc: Global,
    task: &Task,
    heard: Result<Reply, Unheard>,
    reports: &mut S,
    clock: &C,
) -> bool
    ensures { (more : List Telling) × (S.told reports.new ≡ S.told reports.old ++ more)
        × Follows (C.tells clock.now) task.now heard more result }
{
    if !has_wrong_type(&heard) {
        return heard.is_err();
    }
    let failed = failure(rt, alloc, "wrong type");
    tell(rt, reports, report(task, failed, clock.now())).is_err()
}

// Makes an attempt of a task and reports it. Whether nobody is left to tell.
fn work<R: Wait + time::Clock, A: Activity, S: Reports, C: Clock>(
    rt: &R,
    alloc: Global,
    activities: &mut Vec<A>,
    task: &Task,
    reports: &mut S,
    clock: &C,
) -> bool
    ensures reported { (log : List Telling) × (S.told reports.new ≡ S.told reports.old ++ log)
        × Reported (C.tells clock.now) (MayCome A.named A.gives activities.old.items) task.now log result }
    ensures keeps { (t : Task) (a : Attempt) → MayCome A.named A.gives activities.new.items t a
        → MayCome A.named A.gives activities.old.items t a }
    ensures named { (name : List ℕ) → is_some (first_named A.named name activities.new.items) ≡ is_some
        (first_named A.named name activities.old.items) }
{
    let attempt = attempt(rt, alloc, activities, task);
    let heard = tell(rt, reports, report(task, attempt, clock.now()));
    follow(rt, alloc, task, heard, reports, clock)
}

// Does what is to be done of a task: leaves it alone, or makes an attempt and reports it. Whether nobody is left to tell.
fn deal<R: Wait + time::Clock, A: Activity, S: Reports, U: Unknown, C: Clock>(
    rt: &R,
    alloc: Global,
    activities: &mut Vec<A>,
    task: &Task,
    reports: &mut S,
    unknown: &mut U,
    clock: &C,
) -> bool
    ensures does { (log : List Telling) × (S.told reports.new ≡ S.told reports.old ++ log)
        × Does (C.tells clock.now) (MayCome A.named A.gives activities.old.items) task.now
        (is_left (U.leaves unknown.old) A.named activities.old.items task.now) log result }
    ensures keeps { (t : Task) (a : Attempt) → MayCome A.named A.gives activities.new.items t a
        → MayCome A.named A.gives activities.old.items t a }
    ensures named { (name : List ℕ) → is_some (first_named A.named name activities.new.items) ≡ is_some
        (first_named A.named name activities.old.items) }
    ensures same { U.leaves unknown.new ≡ U.leaves unknown.old }
{
    if is_left(rt, activities.as_slice(), task, unknown) {
        return false;
    }
    work(rt, alloc, activities, task, reports, clock)
}

/// Takes tasks, makes an attempt of each by the first activity of its name, and reports it: what it gave or why it failed, at
/// the moment that the clock tells then. A task whose activity isn't there fails with `no such activity`, or is left alone; and after
/// E66 the failure `wrong type` is reported. A report is made again after E01, E80 and E90, each time after a longer pause, of a second
/// at most. It ends only where the channel was empty, as after its sender is gone, or after E84, E85 and E91; both ends come back.
pub fn worker<
    R: Wait + time::Clock,
    A: Activity + Drop,
    S: Reports,
    U: Unknown + Drop,
    C: Clock,
    E: Tells,
>(
    rt: &R,
    alloc: Global,
    activities: Vec<A>,
    receiver: TaskReceiver<E>,
    reports: S,
    unknown: U,
    clock: &C,
) -> (TaskReceiver<E>, S)
    ensures works { (ts : List Task) × (log : List Telling) × (taken_by result.0 ≡ taken_by receiver ++ ts)
        × (S.told result.1 ≡ S.told reports ++ log)
        × Works (C.tells clock.now) (MayCome A.named A.gives activities.items) (is_left (U.leaves unknown) A.named activities.items)
        (WasEmpty E.empty (known_by result.0)) ts log }
    ensures same { IsSameEnd receiver result.0 × (number_of result.0 ≡ number_of receiver) }
{
    let mut activities = activities;
    let mut receiver = receiver;
    let mut reports = reports;
    let mut unknown = unknown;
    'tasks: for _ in rt.forever() {
        let Some(task) = receiver.take(rt) else {
            return (receiver, reports);
        };
        if deal(
            rt,
            alloc,
            &mut activities,
            &task,
            &mut reports,
            &mut unknown,
            clock,
        ) {
            return (receiver, reports);
        }
    }
    unreachable!()
}
