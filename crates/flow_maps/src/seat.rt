//! What is known of an open run: its head, its open timers, and the events that scheduled its open activities.
ghost use Rattle.std.specs.Prelude.{◌≡◌, IfSome, List, Some, false};
ghost use Rattle.flow_base.specs.declared.book.Run.{Run as ARun};
ghost use Rattle.flow_base.specs.declared.event.Event.{Event as AnEvent};
ghost use Rattle.flow_model.specs.Book.{unbegun_run, with_attempt, with_text, with_turn};
ghost use Rattle.flow_model.specs.Open as left_open;
ghost use Rattle.flow_maps.specs.Seats.{AreCalls, IsSeat, IsSeated, made_of};
ghost use Rattle.flow_view.specs.Heads as heads;
ghost use Rattle.flow_view.specs.Outlines.{outline_of};

use crate::calls::{Calls, calls_behind, calls_of};
use crate::heads::{attempted, copied_if, fresh, head_behind};
use crate::left::timers_behind;
use flow_base::book::{Change, OpenActivity, Run, Timer, Turn};
use flow_base::event::State;
use flow_base::number::{EventId, Moment, TextNo};
use flow_base::sequence::Sequence;
use flow_base::text::Key;
use flow_view::head::{Head, head_of};
use flow_view::history::{is_open, timers_of};
use flow_view::outline::Outline;
use std::alloc::Global;
use std::mem::replace;

/// A run without its history, and what it waits for.
#[derive(Drop)]
pub struct Seat {
    pub head: Head,
    pub timers: Sequence<Timer>,
    pub(crate) calls: Calls,
}

/// A closed run has no seat. One that has activities even so isn't known.
fn closed(tasks: &[OpenActivity]) -> Option<Option<Seat>>
    ensures { IfSome result (λ o. (r : ARun) → r.tasks ≡ tasks.now → (heads.head_of r).is_open ≡ false → IsSeated o (Some r)) }
{
    if tasks.is_empty() {
        return Some(None);
    }
    None
}

/// The timers of a run that was read whole, if there is memory for them.
fn read_timers(alloc: Global, whole: &Run) -> Option<Sequence<Timer>>
    ensures { IfSome result (λ ts. ts ≡ left_open.open_timers whole.now.history) }
{
    match timers_of(alloc, whole.history.as_slice()) {
        Ok(timers) => Some(Sequence::from_vec(timers)),
        Err(_) => None,
    }
}

/// What is known of a run that was read whole, and is open.
fn read_seat(alloc: Global, whole: &Run) -> Option<Seat>
    ensures { IfSome result (λ s. IsSeat s whole.now) }
{
    let Some(timers) = read_timers(alloc, whole) else {
        return None;
    };
    let Some(calls) = calls_of(alloc, whole) else {
        return None;
    };
    match head_of(alloc, whole) {
        Ok(head) => Some(Seat {
            head,
            timers,
            calls,
        }),
        Err(_) => None,
    }
}

/// The seat of a run that was read whole, if it is open. None where there is no memory for it.
pub(crate) fn seat_of(alloc: Global, whole: &Run) -> Option<Option<Seat>>
    ensures { IfSome result (λ o. IsSeated o (Some whole.now)) }
{
    if !is_open(whole.history.as_slice()) {
        return closed(whole.tasks.as_slice());
    }
    match read_seat(alloc, whole) {
        Some(seat) => Some(Some(seat)),
        None => None,
    }
}

/// What is known of the activities of a run, which from now on is nothing.
fn taken_calls(alloc: Global, calls: &mut Calls) -> Calls
    ensures taken { result ≡ calls.old }
    ensures none { (h : List AnEvent) → AreCalls calls.new.items h }
{
    replace(calls, Vec::new(alloc))
}

/// The same seat, which takes with it what is known of activities.
pub(crate) fn taken_on(alloc: Global, seat: &mut Seat) -> Option<Seat>
    ensures { IfSome result (λ s. (r : ARun) → IsSeat seat.old r → IsSeat s r × IsSeat seat.new r) }
{
    let Some(head) = copied_if(alloc, &seat.head) else {
        return None;
    };
    let Some(timers) = copied_timers(alloc, seat.timers.as_slice()) else {
        return None;
    };
    let calls = taken_calls(alloc, &mut seat.calls);
    Some(Seat {
        head,
        timers,
        calls,
    })
}

fn copied_timers(alloc: Global, timers: &[Timer]) -> Option<Sequence<Timer>>
    ensures { IfSome result (λ ts. ts ≡ timers.now) }
{
    let mut list = Vec::new(alloc);
    match list.extend_from_slice(timers) {
        Ok(()) => Some(Sequence::from_vec(list)),
        Err(_) => None,
    }
}

/// How an open run stands, if there is memory for it.
pub(crate) fn outline_by(alloc: Global, seat: &Seat) -> Option<Outline>
    ensures { IfSome result (λ o. (r : ARun) → IsSeat seat.now r → o ≡ outline_of r) }
{
    if !seat.head.is_open {
        return None;
    }
    let Some(head) = copied_if(alloc, &seat.head) else {
        return None;
    };
    let Some(timers) = copied_timers(alloc, seat.timers.as_slice()) else {
        return None;
    };
    Some(Outline {
        head,
        state: State::Open,
        timers,
    })
}

/// The seat of a run behind a turn more, if it is open then. None where there is no memory for it.
fn behind_turn(alloc: Global, seat: Seat, turn: &Turn) -> Option<Option<Seat>>
    ensures { IfSome result (λ o. (r : ARun) → IsSeat seat r → IsSeated o (Some (with_turn turn.now r))) }
{
    let Seat {
        head,
        timers,
        calls,
    } = seat;
    let count = head.events;
    let Some(head) = head_behind(alloc, head, turn) else {
        return None;
    };
    let stays_open = head.is_open;
    if !stays_open {
        return closed(head.tasks.as_slice());
    }
    let Some(timers) = timers_behind(alloc, timers, count, turn) else {
        return None;
    };
    let Some(calls) = calls_behind(alloc, calls, count, turn) else {
        return None;
    };
    Some(Some(Seat {
        head,
        timers,
        calls,
    }))
}

/// What is known of a run of which nothing is recorded yet.
fn unbegun(alloc: Global, flow: &Key, request: &Option<Key>, text: TextNo) -> Option<Seat>
    ensures { IfSome result (λ s. IsSeat s (unbegun_run flow.now request.now text)) }
{
    match fresh(alloc, flow, request, text) {
        Ok(head) => Some(Seat {
            head,
            timers: Sequence::new(alloc),
            calls: Vec::new(alloc),
        }),
        Err(_) => None,
    }
}

/// The seat of a run behind its first turn, if it is open then. None where there is no memory for it.
pub(crate) fn first_seat(
    alloc: Global,
    flow: &Key,
    request: &Option<Key>,
    text: TextNo,
    turn: &Turn,
) -> Option<Option<Seat>>
    ensures { IfSome result (λ o. IsSeated o (Some (with_turn turn.now (unbegun_run flow.now request.now text)))) }
{
    match unbegun(alloc, flow, request, text) {
        Some(seat) => behind_turn(alloc, seat, turn),
        None => None,
    }
}

/// The same seat, of whose activities that of an event is at another attempt. None where there is no memory for it.
fn at_attempt(
    alloc: Global,
    seat: Seat,
    event: EventId,
    attempt: u64,
    ready: Moment,
) -> Option<Option<Seat>>
    ensures { IfSome result (λ o. (r : ARun) → IsSeated (Some seat) (Some r) → IsSeated o (Some (with_attempt event attempt ready r))) }
{
    let Seat {
        head,
        timers,
        calls,
    } = seat;
    match attempted(alloc, head, event, attempt, ready) {
        Some(head) => Some(Some(Seat {
            head,
            timers,
            calls,
        })),
        None => None,
    }
}

/// The same seat under another text.
fn under_text(seat: Seat, text: TextNo) -> Seat
    ensures { (r : ARun) → IsSeated (Some seat) (Some r) → IsSeated (Some result) (Some (with_text text r)) }
{
    let mut seat = seat;
    seat.head.text = text;
    seat
}

/// The seat of an open run behind a change of it, if it is open then. None where there is no memory for it, or it isn't such a change.
pub(crate) fn seat_behind(alloc: Global, seat: Seat, change: &Change) -> Option<Option<Seat>>
    ensures { IfSome result (λ o. (r : ARun) → IsSeated (Some seat) (Some r) → IsSeated o (Some (made_of change.now r))) }
{
    match change {
        Change::AddTurn(_, turn) => behind_turn(alloc, seat, turn),
        Change::SetAttempt(_, event, attempt, ready) => {
            at_attempt(alloc, seat, *event, *attempt, *ready)
        }
        Change::SetText(_, text) => Some(Some(under_text(seat, *text))),
        Change::AddText(_) => None,
        Change::AddRun(_, _, _, _) => None,
    }
}
