//! The keys of what was posted, and which tasks of a board are new.
ghost use Rattle.std.specs.Prelude.{◌≡◌, ◌≤◌, ◌<◌, ◌^◌, ◌+◌, ◌∷◌, [], ◌++◌, ◌&&◌, ◌||◌, cond, not, true, false, List, length, take, vec_len, IfOk, IfErr, OnErr, OnOk};
ghost use Rattle.std.specs.BTreeSet.{btree_set_len, contains};
ghost use Rattle.std.specs.VecDeque.{deque_len, deque_capacity};
ghost use Rattle.flow_base.specs.Keys.{Key, key_of as the_key};
ghost use Rattle.flow_base.specs.declared.task.Task.{Task as ATask};
ghost use Rattle.flow_queues.specs.Posting.{HasStill, IsFirstOf, apart_of, chosen, has_key, is_key, is_of, key_cmp, new_ones};

use crate::over::Over;
use flow_base::number::RunId;
use flow_base::task::{Posted, Task};
use std::alloc::{AllocError, Global};
use std::collections::{BTreeSet, VecDeque};

/// The keys of what was posted and may still come.
pub type Keys = BTreeSet<Posted>;

fn key_of(task: &Task) -> Posted
    ensures { result ≡ the_key task.now }
{
    (task.run.get(), task.event.get(), task.attempt)
}

/// Whether the task's key is new. It is there then.
fn add(keys: &mut Keys, task: &Task) -> Result<bool, AllocError>
    ensures new { IfOk result (λ new. new ≡ not (contains key_cmp keys.old (the_key task.now))) }
    ensures added { IfOk result (λ new. (q : Key)
        → contains key_cmp keys.new q ≡ cond (is_key (the_key task.now) q) true (contains key_cmp keys.old q)) }
    ensures refused { OnErr result ((q : Key) → contains key_cmp keys.new q ≡ contains key_cmp keys.old q) }
{
    match keys.insert(key_of(task)) {
        Ok(new) => Ok(new),
        Err(refused) => Err(AllocError::from(refused)),
    }
}

fn remove(keys: &mut Keys, task: &Task)
    ensures { (q : Key) → contains key_cmp keys.new q ≡ cond (is_key (the_key task.now) q) false (contains key_cmp keys.old q) }
{
    keys.remove(&key_of(task));
}

fn remove_if(keys: &mut Keys, task: &Task, marked: bool)
    ensures { (q : Key) → contains key_cmp keys.new q ≡ cond (marked && is_key (the_key task.now) q) false (contains key_cmp keys.old q) }
{
    if marked {
        remove(keys, task);
    }
}

/// Takes the keys of the tasks that are marked away again.
fn remove_marked(keys: &mut Keys, tasks: &[Task], marks: &Vec<bool>)
    requires { vec_len marks.now ≤ length tasks.now }
    ensures { (q : Key) → contains key_cmp keys.new q ≡
        (contains key_cmp keys.old q && not (has_key (chosen tasks.now marks.now.items) q)) }
{
    for k in 0..marks.len() {
        remove_if(keys, &tasks[k], marks[k]);
    }
}

/// Whether the task is of no run that is gone, and its key is new. It is there then.
fn add_apart(keys: &mut Keys, gone: &Over, task: &Task) -> Result<bool, AllocError>
    ensures new { IfOk result (λ new. new ≡ (not (is_of gone.now task.now.run) && not (contains key_cmp keys.old (the_key task.now)))) }
    ensures added { IfOk result (λ new. (q : Key)
        → contains key_cmp keys.new q ≡ cond (new && is_key (the_key task.now) q) true (contains key_cmp keys.old q)) }
    ensures refused { OnErr result ((q : Key) → contains key_cmp keys.new q ≡ contains key_cmp keys.old q) }
{
    if gone.contains(task.run) {
        return Ok(false);
    }
    match add(keys, task) {
        Ok(fresh) => Ok(fresh),
        Err(refused) => Err(refused),
    }
}

/// Joins the keys of these tasks to those of what was posted, and marks the tasks whose key is new; but none of a run that is gone,
/// whose keys aren't there any more. If memory is refused all is as before.
pub fn add_all(
    alloc: Global,
    keys: &mut Keys,
    gone: &Over,
    tasks: &[Task],
) -> Result<Vec<bool>, AllocError>
    ensures marked { IfOk result (λ marks. (posted : List ATask) → HasStill gone.now keys.old posted
        → (chosen tasks.now marks.items ≡ new_ones posted (apart_of gone.now tasks.now))
        × HasStill gone.now keys.new (posted ++ new_ones posted (apart_of gone.now tasks.now))) }
    ensures length { IfOk result (λ marks. vec_len marks ≡ length tasks.now) }
    ensures refused { OnErr result ((q : Key) → contains key_cmp keys.new q ≡ contains key_cmp keys.old q) }
{
    let mut marks = Vec::with_capacity(alloc, tasks.len())?;
    for task in tasks {
        match add_apart(keys, gone, task) {
            Ok(new) => marks.push_reserved(new),
            Err(refused) => {
                remove_marked(keys, tasks, &marks);
                return Err(refused);
            }
        }
    }
    Ok(marks)
}

/// The first key of a run.
fn first_of(keys: &Keys, run: u64) -> Option<Posted>
    requires { run < 2 ^ 63 }
    ensures { IsFirstOf run keys.now result }
{
    let mut own = keys.range((run, 0, 0)..(run + 1, 0, 0));
    let Some(key) = own.next() else {
        return None;
    };
    Some(*key)
}

fn drop_key(keys: &mut Keys, key: &Posted)
    ensures dropped { (q : Key) → contains key_cmp keys.new q ≡ cond (is_key key.now q) false (contains key_cmp keys.old q) }
    ensures fewer { contains key_cmp keys.old key.now ≡ true → btree_set_len keys.new < btree_set_len keys.old }
{
    keys.remove(key);
}

/// Takes all keys of a run away. It looks at these alone.
fn let_go_one(keys: &mut Keys, run: u64)
    requires { run < 2 ^ 63 }
    ensures { (q : Key) → contains key_cmp keys.new q ≡ (contains key_cmp keys.old q && not (is_of (run ∷ []) q.0)) }
{
    while let Some(key) = first_of(keys, run) {
        drop_key(keys, &key);
    }
}

/// Notes that these runs are gone and takes all their keys away, looking at these alone: of all of them, or of so many, those before the
/// first for which memory is refused.
pub fn let_go(keys: &mut Keys, gone: &mut Over, runs: &[RunId]) -> (usize, Result<(), AllocError>)
    ensures gone { gone.new ≡ gone.old ++ take result.0 runs.now }
    ensures keys { (q : Key) → contains key_cmp keys.new q ≡ (contains key_cmp keys.old q && not (is_of (take result.0 runs.now) q.0)) }
    ensures all { OnOk result.1 (result.0 ≡ length runs.now) }
{
    for i in 0..runs.len() {
        let run = runs[i];
        if let Err(refused) = gone.add(run) {
            return (i, Err(refused));
        }
        let_go_one(keys, run.get());
    }
    (runs.len(), Ok(()))
}

/// Moves the tasks that are marked behind those that wait.
pub fn push_marked(waiting: &mut VecDeque<Task>, tasks: Vec<Task>, marks: Vec<bool>)
    requires room { deque_len waiting.old + vec_len tasks ≤ deque_capacity waiting.old }
    ensures items { waiting.new.items ≡ waiting.old.items ++ chosen tasks.items marks.items }
{
    for (task, mark) in tasks.into_iter().zip(marks) {
        if mark {
            waiting.push_back_reserved(task);
        }
    }
}
