//! Which open activities are to be posted, and when there is more to be done.
ghost use Rattle.std.specs.Prelude.{◌≡◌, ◌+◌, ◌++◌, IfOk, OnOk, filter};
ghost use Rattle.flow_view.specs.Called.{Kept};
ghost use Rattle.flow_view.specs.Reading.{Caused};
ghost use Rattle.flow_tables.specs.Calls.{Recalled};
ghost use Rattle.flow_commit.specs.Boards as rule;

use flow_base::book::OpenActivity;
use flow_base::event::{Cmd, Event, What, copy_values};
use flow_base::number::{Moment, RunId};
use flow_base::sequence::Sequence;
use flow_base::task::{Posted, Task};
use flow_base::text::Key;
use flow_base::value::Value;
use flow_view::fault::ViewFault;
use flow_view::head::Head;
use flow_view::view::View;
use std::alloc::{AllocError, Global};
use std::collections::BTreeSet;

/// An open activity with its run.
type Waiting = (RunId, OpenActivity);

/// What is read of a book for a board.
#[derive(Drop)]
pub(crate) struct Draft {
    pub(crate) tasks: Sequence<Task>,
    pub(crate) due: Option<Moment>,
    pub(crate) open_runs: u64,
    /// What may be attempted before this moment the next board needn't look at.
    pub(crate) since: u64,
}

fn is_posted(posted: &BTreeSet<Posted>, key: &Posted) -> bool
    ensures { result ≡ rule.is_posted posted.now.keys key.now }
{
    posted.contains(key)
}

/// Whether an attempt wasn't posted.
fn is_new(posted: &BTreeSet<Posted>, entry: &Waiting) -> bool
    ensures { result ≡ rule.is_new posted.now.keys entry.now }
{
    let task = &entry.1;
    let key = (entry.0.get(), task.event.get(), task.attempt);
    !is_posted(posted, &key)
}

/// The activities that may be attempted, but for those that were posted.
pub(crate) fn wanted(
    alloc: Global,
    posted: &BTreeSet<Posted>,
    ready: &[Waiting],
) -> Result<Vec<Waiting>, AllocError>
    ensures { IfOk result (λ v. v.items ≡ filter (rule.is_new posted.now.keys) ready.now) }
{
    let mut list = Vec::new(alloc);
    for entry in ready {
        if is_new(posted, entry) {
            list.push(*entry)?;
        }
    }
    Ok(list)
}

/// The sooner of a moment and of the one from which on an attempt may be made.
fn since_one(since: u64, entry: &Waiting) -> u64
    ensures { result ≡ rule.since_one since entry.now }
{
    let ready = entry.1.ready.get();
    if ready < since {
        return ready;
    }
    since
}

/// From which moment on the next board has to look at what waits, behind a board at a moment that names these.
pub(crate) fn since_next(at: Moment, new: &[Waiting]) -> u64
    ensures { result ≡ rule.since_all (at + 1) new.now }
{
    let mut since = at.get() + 1;
    for entry in new {
        since = since_one(since, entry);
    }
    since
}

fn called_of(alloc: Global, command: &Cmd) -> Result<Option<(Key, Sequence<Value>)>, AllocError>
    ensures { IfOk result (λ o. o ≡ rule.called_of command.now) }
{
    match command {
        Cmd::Schedule(activity, args, _, _, _) => {
            let activity = activity.copy(alloc)?;
            let args = copy_values(alloc, args.as_slice())?;
            Ok(Some((activity, args)))
        }
        _ => Ok(None),
    }
}

/// What an event calls, if it is such an event.
fn called_in(alloc: Global, event: &Event) -> Result<Option<(Key, Sequence<Value>)>, AllocError>
    ensures { IfOk result (λ o. o ≡ rule.called_in event.now.what) }
{
    match &event.what {
        What::Came(_) => Ok(None),
        What::Asked(command) => called_of(alloc, command),
    }
}

/// What an event calls, if there is one.
fn called_by(
    alloc: Global,
    event: &Option<Event>,
) -> Result<Option<(Key, Sequence<Value>)>, AllocError>
    ensures { IfOk result (λ o. o ≡ rule.called_by event.now) }
{
    match event {
        Some(event) => called_in(alloc, event),
        None => Ok(None),
    }
}

/// What the event calls that scheduled an activity.
fn call_at<V: View>(
    alloc: Global,
    view: &mut V,
    entry: &Waiting,
) -> Result<Option<(Key, Sequence<Value>)>, ViewFault>
    ensures { Recalled V.View view.old view.new result (λ b. rule.call_at b entry.now.0 entry.now.1.event) }
{
    let event = view.event(entry.0, entry.1.event)?;
    match called_by(alloc, &event) {
        Ok(call) => Ok(call),
        Err(refused) => Err(ViewFault::from(refused)),
    }
}

fn flow_in(head: Option<Head>) -> Option<Key>
    ensures { result ≡ rule.flow_in head }
{
    let Some(head) = head else {
        return None;
    };
    let Head {
        flow,
        request: _,
        text: _,
        events: _,
        moment: _,
        is_open: _,
        tasks: _,
    } = head;
    Some(flow)
}

/// The flow of an open activity's run.
fn flow_at<V: View>(view: &mut V, entry: &Waiting) -> Result<Option<Key>, ViewFault>
    ensures { Recalled V.View view.old view.new result (λ b. rule.flow_at b entry.now.0) }
{
    let head = view.head(entry.0)?;
    Ok(flow_in(head))
}

fn add_task(
    list: &mut Vec<Task>,
    entry: &Waiting,
    flow: Option<Key>,
    call: Option<(Key, Sequence<Value>)>,
) -> Result<(), AllocError>
    ensures { OnOk result (list.new.items ≡ list.old.items ++ rule.task_with entry.now flow call) }
{
    let Some(flow) = flow else {
        return Ok(());
    };
    if let Some((activity, args)) = call {
        list.push(Task {
            flow,
            run: entry.0,
            event: entry.1.event,
            attempt: entry.1.attempt,
            activity,
            args,
        })?;
    }
    Ok(())
}

/// One more task, read from the book.
fn add_ready<V: View>(
    alloc: Global,
    view: &mut V,
    list: &mut Vec<Task>,
    entry: &Waiting,
) -> Result<(), ViewFault>
    ensures reads { OnOk result (V.is_sure view.new → (V.book view.new ≡ V.book view.old)
        × (list.new.items ≡ list.old.items ++ rule.task_at (V.book view.old) entry.now)) }
    ensures cause { (a : V) → V.follows a view.old → V.is_true view.new → V.is_sure view.old → Caused result (V.refuses a view.new) }
    ensures kept { Kept V.View view.old view.new result }
{
    let flow = flow_at(view, entry)?;
    let call = call_at(alloc, view, entry)?;
    match add_task(list, entry, flow, call) {
        Ok(()) => Ok(()),
        Err(refused) => Err(ViewFault::from(refused)),
    }
}

/// The tasks of these open activities, each with what its event calls.
pub(crate) fn tasks_of<V: View>(
    alloc: Global,
    view: &mut V,
    wanted: &[Waiting],
) -> Result<Sequence<Task>, ViewFault>
    ensures { Recalled V.View view.old view.new result (λ b. rule.tasks_of b wanted.now) }
{
    let mut list = Vec::new(alloc);
    for entry in wanted {
        add_ready(alloc, view, &mut list, entry)?;
    }
    Ok(Sequence::from_vec(list))
}
