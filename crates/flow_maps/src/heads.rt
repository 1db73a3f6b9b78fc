//! Heads of runs, and what changes make of them.
ghost use Rattle.std.specs.Prelude.{◌≡◌, IfOk, IfSome, map};
ghost use Rattle.flow_model.specs.Book.{at_attempt, unbegun_run};
ghost use Rattle.flow_maps.specs.Seats as rule;
ghost use Rattle.flow_view.specs.Heads as heads;

use crate::left::{tasks_behind, with_attempt};
use crate::turned::{count_behind, is_open_behind};
use flow_base::book::{Turn, copy_tasks};
use flow_base::number::{EventId, Moment, TextNo};
use flow_base::sequence::Sequence;
use flow_base::text::Key;
use flow_view::head::Head;
use std::alloc::{AllocError, Global};

pub(crate) fn copied_request(
    alloc: Global,
    request: &Option<Key>,
) -> Result<Option<Key>, AllocError>
    ensures { IfOk result (λ r. r ≡ request.now) }
{
    match request {
        Some(request) => {
            let request = request.copy(alloc)?;
            Ok(Some(request))
        }
        None => Ok(None),
    }
}

/// The same head.
fn copied(alloc: Global, head: &Head) -> Result<Head, AllocError>
    ensures { IfOk result (λ h. h ≡ head.now) }
{
    let flow = head.flow.copy(alloc)?;
    let request = copied_request(alloc, &head.request)?;
    let tasks = copy_tasks(alloc, head.tasks.as_slice())?;
    Ok(Head {
        flow,
        request,
        text: head.text,
        events: head.events,
        moment: head.moment,
        is_open: head.is_open,
        tasks,
    })
}

/// The same head, where there is memory for it.
pub(crate) fn copied_if(alloc: Global, head: &Head) -> Option<Head>
    ensures { IfSome result (λ h. h ≡ head.now) }
{
    match copied(alloc, head) {
        Ok(head) => Some(head),
        Err(_) => None,
    }
}

/// The head of a run of which nothing is recorded yet.
pub(crate) fn fresh(
    alloc: Global,
    flow: &Key,
    request: &Option<Key>,
    text: TextNo,
) -> Result<Head, AllocError>
    ensures { IfOk result (λ h. h ≡ heads.head_of (unbegun_run flow.now request.now text)) }
{
    let flow = flow.copy(alloc)?;
    let request = copied_request(alloc, request)?;
    Ok(Head {
        flow,
        request,
        text,
        events: 0,
        moment: Moment::new(0).unwrap(),
        is_open: false,
        tasks: Sequence::new(alloc),
    })
}

/// The head of a run behind a turn more.
pub(crate) fn head_behind(alloc: Global, head: Head, turn: &Turn) -> Option<Head>
    ensures { IfSome result (λ h. h ≡ rule.head_behind turn.now head) }
{
    let mut head = head;
    let count = head.events;
    head.events = count_behind(count, turn.commands.as_slice().len())?;
    head.moment = turn.at;
    head.is_open = is_open_behind(head.is_open, turn);
    head.tasks = tasks_behind(alloc, head.tasks, count, turn)?;
    Some(head)
}

/// The same head, of whose activities that of an event is at another attempt.
pub(crate) fn attempted(
    alloc: Global,
    head: Head,
    event: EventId,
    attempt: u64,
    ready: Moment,
) -> Option<Head>
    ensures { IfSome result (λ h. h ≡ record head { tasks = map (at_attempt event attempt ready) head.tasks }) }
{
    let mut head = head;
    head.tasks = with_attempt(alloc, head.tasks, event, attempt, ready)?;
    Some(head)
}
