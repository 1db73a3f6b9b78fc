//! Lines that were read and of which nothing is printed yet.
ghost use Rattle.std.specs.Prelude.{◌≡◌, ◌≤◌, ◌<◌, ◌∷◌, ◌++◌, [], length, IfOk, MatchOption};
ghost use Rattle.std.specs.VecDeque.{deque_capacity};

use flow_hub::seats::Room;
use flow_hub::ticket::{Ticket, TicketFacts};
use flow_lines::reply::Line;
use std::alloc::{AllocError, Global};
use std::collections::VecDeque;
use std::marker::Model;

/// How many lines may wait for their replies.
pub(crate) const MOST_PENDING: usize = 64;

/// A line that was read and of which nothing is printed yet, as contracts see it. No value of it is made.
pub(crate) enum Pending {
    /// Its command was submitted.
    Submitted(TicketFacts),
    /// What is to be printed is known.
    Known(Line),
}

/// The same, with the ticket itself.
#[derive(Drop)]
pub(crate) enum Waiting<B: Room> {
    Submitted(Ticket<B>),
    Known(Line),
}

/// A line that was read and of which nothing is printed yet.
#[derive(Drop)]
pub(crate) struct PendingLine<B: Room> {
    pub(crate) line: Waiting<B>,
}

impl<B: Room> Model for PendingLine<B> {
    ghost use Rattle.flow_work.specs.declared.queue.Pending.{Pending};
    ghost use Rattle.flow_work.specs.Waiting.{pending_code, pending_of};

    ghost Value = { Pending };

    ghost coded = { pending_code };

    ghost view = { λ p. pending_of p.line };
}

impl<B: Room> PendingLine<B> {
    /// Its command was submitted.
    pub(crate) fn submitted(ticket: Ticket<B>) -> PendingLine<B>
        ensures { result ≡ Pending.Submitted ticket }
    {
        PendingLine {
            line: Waiting::Submitted(ticket),
        }
    }

    /// What is to be printed is known.
    pub(crate) fn known(line: Line) -> PendingLine<B>
        ensures { result ≡ Pending.Known line }
    {
        PendingLine {
            line: Waiting::Known(line),
        }
    }
}

/// The lines of which nothing is printed yet, oldest first.
#[derive(Drop)]
pub(crate) struct Queue<B: Room> {
    lines: VecDeque<PendingLine<B>>,
    ghost room: { 64 ≤ deque_capacity lines },
}

impl<B: Room> Queue<B> {
    /// No lines, with room for [`MOST_PENDING`].
    pub(crate) fn new(alloc: Global) -> Result<Queue<B>, AllocError>
        ensures { IfOk result (λ q. q.lines.items ≡ []) }
    {
        let lines = VecDeque::with_capacity(alloc, MOST_PENDING)?;
        Ok(Queue { lines })
    }

    pub(crate) fn len(&self) -> usize
        ensures { result ≡ length self.now.lines.items }
    {
        self.lines.len()
    }

    /// One line more, behind the others.
    pub(crate) fn push(&mut self, pending: PendingLine<B>)
        requires { length self.old.lines.items < 64 }
        ensures { self.new.lines.items ≡ self.old.lines.items ++ pending ∷ [] }
    {
        self.lines.push_back_reserved(pending);
    }

    /// The oldest line, which is gone then.
    pub(crate) fn pop(&mut self) -> Option<PendingLine<B>>
        ensures { MatchOption result ((self.old.lines.items ≡ []) × (self.new.lines.items ≡ []))
            (λ p. self.old.lines.items ≡ p ∷ self.new.lines.items) }
    {
        self.lines.pop_front()
    }
}
