//! The channel in which tasks go from the dispatcher to the workers. Its rule: what was taken, in order of taking, is a
//! beginning of what was put, and each of it was taken by one worker.
ghost use Rattle.std.specs.Prelude.{◌≡◌, [], ◌∷◌, ◌++◌, ◌+◌, ◌<◌, IfOk, IfErr, IfNone, OnOk, OnErr, MatchOption};
ghost use Rattle.flow_pool.specs.Orders.{back_of, Delivers, WasEmpty};
ghost use Rattle.flow_pool.specs.Ends.{put_by, made_by, back_at, came_back, known_by, number_of, room_of, taken_by, AreOne, IsOpenTo, IsSameEnd, IsSameFeed};

use crate::ends::{Door, TaskReceiver, TaskSender, receiver, sender, with_task};
use crate::hand::{AddsWorker, Learnt, Puts, Returns, Takes, Tells};
use crossbeam_channel::{SendError, bounded_with};
use flow_base::task::Task;
use std::alloc::{AllocError, Global};
use std::snapshot::Snapshot;
use std::sync::Wait;

/// A channel that holds so many tasks, from 1.
pub fn opened(alloc: Global, most: usize) -> Result<(TaskSender, Door), AllocError>
    requires { 0 < most }
    ensures { IfOk result (λ r. IsOpenTo r.0 r.1 × (put_by r.0 ≡ []) × (made_by r.0 ≡ 0) × (back_at r.0 ≡ []) × (came_back r.0 ≡ [])
        × (room_of r.0 ≡ most)) }
{
    let (end, from, pass) = bounded_with(alloc, most)?;
    Ok((sender(end, pass), Door { end: from }))
}

impl TaskSender {
    /// The end of one more worker, which has taken nothing. After an error nothing has changed.
    pub fn worker(&mut self, door: &Door) -> Result<TaskReceiver, AllocError>
        requires { IsOpenTo self.old door.now }
        ensures made { IfOk result (λ r. AreOne self.new r × (number_of r ≡ made_by self.old) × (taken_by r ≡ [])) }
        ensures counted { OnOk result (made_by self.new ≡ made_by self.old + 1) }
        ensures err { OnErr result (made_by self.new ≡ made_by self.old) }
        ensures same { IsSameFeed self.old self.new × (put_by self.new ≡ put_by self.old) × (back_at self.new ≡ back_at self.old) }
        ensures returned { came_back self.new ≡ came_back self.old }
    {
        let end = door.end.try_clone()?;
        let pass = self.end.another::<AddsWorker>(&mut self.pass);
        Ok(receiver(end, pass))
    }

    /// Puts a task behind all that were put. It comes back where no worker is left.
    pub fn put<R: Wait>(&mut self, rt: &R, task: Task) -> Result<(), Task>
        ensures put { OnOk result ((put_by self.new ≡ put_by self.old ++ task ∷ []) × (came_back self.new ≡ came_back self.old)) }
        ensures back { IfErr result (λ t. (t ≡ task) × (put_by self.new ≡ put_by self.old)
            × (came_back self.new ≡ came_back self.old ++ task ∷ [])) }
        ensures same { IsSameFeed self.old self.new × (made_by self.new ≡ made_by self.old) × (back_at self.new ≡ back_at self.old) }
    {
        match self.end.send_as::<Puts, R>(rt, &mut self.pass, task) {
            Ok(()) => Ok(()),
            Err(SendError::Disconnected(task)) => {
                self.returned = with_task(&self.returned, Snapshot::of(&task));
                Err(task)
            }
            Err(SendError::OutOfMemory(_task)) => unreachable!(),
        }
    }

    /// Takes back the end of a worker, with what it knows.
    pub fn take_back(&mut self, worker: TaskReceiver)
        requires { AreOne self.old worker }
        ensures back { back_at self.new ≡ back_at self.old ++ back_of (number_of worker) (taken_by worker) ∷ [] }
        ensures same { IsSameFeed self.old self.new × (put_by self.new ≡ put_by self.old) × (made_by self.new ≡ made_by self.old) }
        ensures returned { came_back self.new ≡ came_back self.old }
    {
        let TaskReceiver { end: _end, pass } = worker;
        self.end.absorb::<Returns>(&mut self.pass, pass);
    }

    /// What the channel has done: what was taken, in order of taking, is a beginning of what was put, each task of it was
    /// taken by one worker, and those of a worker that came back are all that it took.
    pub fn settle(&mut self)
        ensures delivers { Delivers (put_by self.new) (made_by self.new) (back_at self.new) }
        ensures same { IsSameFeed self.old self.new × (put_by self.new ≡ put_by self.old) × (made_by self.new ≡ made_by self.old)
            × (back_at self.new ≡ back_at self.old) }
        ensures returned { came_back self.new ≡ came_back self.old }
    {
        self.end.learn_as::<Learnt>(&mut self.pass);
    }
}

impl<E: Tells> TaskReceiver<E> {
    /// Takes the next task. None where the channel was empty at a moment of the call, as after its sender is gone.
    pub fn take<R: Wait>(&mut self, rt: &R) -> Option<Task>
        ensures taken { MatchOption result (taken_by self.new ≡ taken_by self.old) (λ x. taken_by self.new ≡ taken_by self.old ++ x ∷ []) }
        ensures none { IfNone result (WasEmpty E.empty (known_by self.new)) }
        ensures same { IsSameEnd self.old self.new × (number_of self.new ≡ number_of self.old) }
    {
        self.end.recv_as::<Takes<E>, R>(rt, &mut self.pass).ok()
    }
}
