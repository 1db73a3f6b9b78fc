ghost use Rattle.std.specs.Prelude.{◌≡◌, ◌++◌, IfOk, is_some, map};
ghost use Rattle.flow_base.specs.Syntax.{block_of};
ghost use Rattle.flow_base.specs.Shown.{shown_stmt, shown_braced, shown_otherwise};
ghost use Rattle.flow_plain.specs.Shown.{shown_rest};
ghost use Rattle.flow_run.specs.Shown.{waits_of};
ghost use Rattle.flow_model.specs.Rest.{rest_of};
ghost use Rattle.flow_model.specs.Deliver.{target_of, awaited_kind, replaced, when_fired};

use flow_base::event::Cause;
use flow_base::number::EventId;
use flow_base::syntax::{Block, Stmt};
use flow_base::text::{Key, Text};
use flow_base::value::Kind;
use flow_run::waits::OpenWait;
use std::alloc::{AllocError, Global};
use std::sync::Arc;

/// What is left of a program.
#[derive(Debug, Drop)]
pub(crate) enum Rest {
    Done,
    /// The event that scheduled the activity, the variable that waits for it, the type that it gives, and what is done
    /// where it fails: with no such list the run fails.
    OnActivity(u64, Key, Kind, Option<Block>),
    /// A sleep waits on the timer that this event started.
    OnTimer(u64),
    /// The variable that waits, and the signal.
    OnSignal(Key, Key),
    /// The same, with the event that started the timer, and what is done where that fires first.
    OnSignalFor(Key, Key, EventId, Block),
    /// An activity failed: the run is to fail, with this text.
    Raised(Cause, Text),
    /// What goes on, and then the statements of a list from the first number up to the second. The list is the program's
    /// own: rests share it.
    Then(Box<Rest>, Arc<Vec<Stmt>>, usize, usize),
    /// Two branches side by side.
    Beside(Box<Rest>, Box<Rest>),
}

impl Rest {
    /// An equal rest, over the same lists of statements, or E01.
    pub fn copy(&self, alloc: Global) -> Result<Rest, AllocError>
        ensures { IfOk result (λ r. shown_rest r ≡ shown_rest self.now) }
    {
        match self {
            Rest::Done => Ok(Rest::Done),
            Rest::OnActivity(n, x, k, o) => {
                let x = x.copy(alloc)?;
                Ok(Rest::OnActivity(*n, x, *k, share_otherwise(o)?))
            }
            Rest::OnTimer(n) => Ok(Rest::OnTimer(*n)),
            Rest::OnSignal(x, s) => Ok(Rest::OnSignal(x.copy(alloc)?, s.copy(alloc)?)),
            Rest::OnSignalFor(x, s, n, late) => {
                let x = x.copy(alloc)?;
                let s = s.copy(alloc)?;
                Ok(Rest::OnSignalFor(x, s, *n, late.share()?))
            }
            Rest::Raised(c, t) => Ok(Rest::Raised(*c, t.copy(alloc)?)),
            Rest::Then(r, b, i, to) => {
                let r = Box::new(alloc, r.copy(alloc)?)?;
                Ok(Rest::Then(r, b.clone()?, *i, *to))
            }
            Rest::Beside(a, b) => {
                let a = Box::new(alloc, a.copy(alloc)?)?;
                let b = Box::new(alloc, b.copy(alloc)?)?;
                Ok(Rest::Beside(a, b))
            }
        }
    }

    /// The list with its open waits behind, from the left. A refusal of memory leaves no list.
    pub fn with_waits(
        &self,
        alloc: Global,
        mut list: Vec<OpenWait>,
    ) -> Result<Vec<OpenWait>, AllocError>
        ensures { IfOk result (λ all. all.items ≡ list.items ++ waits_of (shown_rest self.now)) }
    {
        match self {
            Rest::Done => Ok(list),
            Rest::OnActivity(n, x, k, _) => {
                list.push(OpenWait::Activity(*n, x.copy(alloc)?, *k))?;
                Ok(list)
            }
            Rest::OnTimer(n) => {
                list.push(OpenWait::Timer(*n))?;
                Ok(list)
            }
            Rest::OnSignal(x, s) => {
                list.push(OpenWait::Signal(x.copy(alloc)?, s.copy(alloc)?))?;
                Ok(list)
            }
            Rest::OnSignalFor(x, s, n, _) => {
                let x = x.copy(alloc)?;
                list.push(OpenWait::SignalFor(x, s.copy(alloc)?, n.get()))?;
                Ok(list)
            }
            Rest::Raised(_, _) => Ok(list),
            Rest::Then(r, _, _, _) => r.with_waits(alloc, list),
            Rest::Beside(a, b) => {
                let left = a.with_waits(alloc, list)?;
                b.with_waits(alloc, left)
            }
        }
    }

    /// The type of what the activity gives that a wait is on.
    pub fn awaited(&self, event: EventId) -> Option<Kind>
        ensures { result ≡ awaited_kind (target_of event (shown_rest self.now)) }
    {
        match self {
            Rest::OnActivity(n, _, k, _) => { if *n == event.get() { Some(*k) } else { None } }
            Rest::Then(r, _, _, _) => r.awaited(event),
            Rest::Beside(a, b) => match a.awaited(event) {
                Some(k) => Some(k),
                None => b.awaited(event),
            },
            _ => None,
        }
    }

    /// Whether a wait is on the timer that an event started.
    pub fn awaits_timer(&self, event: EventId) -> bool
        ensures { result ≡ is_some (replaced (when_fired event) (shown_rest self.now)) }
    {
        match self {
            Rest::OnTimer(n) => *n == event.get(),
            Rest::OnSignalFor(_, _, n, _) => n.get() == event.get(),
            Rest::Then(r, _, _, _) => r.awaits_timer(event),
            Rest::Beside(a, b) => a.awaits_timer(event) || b.awaits_timer(event),
            _ => false,
        }
    }
}

/// A list that begins.
pub(crate) fn entered(alloc: Global, block: &Block) -> Result<Rest, AllocError>
    ensures { IfOk result (λ r. shown_rest r ≡ rest_of (shown_braced block.now).0) }
{
    begun(alloc, &block.list)
}

/// All statements of a list.
pub(crate) fn begun(alloc: Global, list: &Arc<Vec<Stmt>>) -> Result<Rest, AllocError>
    ensures { IfOk result (λ r. shown_rest r ≡ rest_of (block_of (map shown_stmt list.now.value.items))) }
{
    let all = list.clone()?;
    let to = list.len();
    Ok(Rest::Then(Box::new(alloc, Rest::Done)?, all, 0, to))
}

/// The same list, if there is one.
pub(crate) fn share_otherwise(otherwise: &Option<Block>) -> Result<Option<Block>, AllocError>
    ensures { IfOk result (λ o. shown_otherwise o ≡ shown_otherwise otherwise.now) }
{
    match otherwise {
        None => Ok(None),
        Some(b) => Ok(Some(b.share()?)),
    }
}
