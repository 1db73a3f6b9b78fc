//! How a run stands: what is told of it without its history.
ghost use Rattle.std.specs.Prelude.{◌≡◌, IfOk};
ghost use Rattle.flow_view.specs.Outlines as outlines;

use crate::head::{Head, head_of};
use crate::history::{state_of, timers_left};
use flow_base::book::{Run, Timer};
use flow_base::event::State;
use flow_base::sequence::Sequence;
use std::alloc::{AllocError, Global};

/// A run without its events, but with what they leave.
#[derive(Debug, Drop)]
pub struct Outline {
    pub head: Head,
    pub state: State,
    /// Its open timers in rising order of their events.
    pub timers: Sequence<Timer>,
}

/// How a run stands that is whole.
pub fn outline_of(alloc: Global, run: &Run) -> Result<Outline, AllocError>
    ensures { IfOk result (λ s. s ≡ outlines.outline_of run.now) }
{
    let head = head_of(alloc, run)?;
    let events = run.history.as_slice();
    let timers = timers_left(alloc, events)?;
    Ok(Outline {
        head,
        state: state_of(events),
        timers: Sequence::from_vec(timers),
    })
}
