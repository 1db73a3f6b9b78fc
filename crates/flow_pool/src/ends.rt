//! The ends of the channel of tasks, each with what it knows.
ghost use Rattle.std.specs.Prelude.{◌≡◌, true, [], ◌∷◌, ◌++◌};
ghost use Rattle.crossbeam_channel.specs.Claims.{view, IsSeatAt};
ghost use Rattle.crossbeam_channel.specs.Ends.{sends_on, receives_on};

use crate::hand::{Hand, InTurn, Tells, Truly};
use crossbeam_channel::{Pass, RuledReceiver, RuledSender};
use flow_base::task::Task;
use std::snapshot::Snapshot;
use unseen::{Listed, Makes};

struct Nothing;

impl Makes<(), Task> for Nothing {
    ghost use Rattle.std.specs.Prelude.{[]};

    ghost list = { λ _. [] };
}

struct OneMore;

impl Makes<(Listed<Task>, Snapshot<Task>), Task> for OneMore {
    ghost use Rattle.std.specs.Prelude.{[], ◌∷◌, ◌++◌};

    ghost list = { λ p. p.0 ++ p.1.value ∷ [] };
}

/// These tasks, and one more.
pub(crate) fn with_task(tasks: &Listed<Task>, task: Snapshot<Task>) -> Listed<Task>
    ensures { result ≡ tasks.now ++ task.value ∷ [] }
{
    let more = (tasks.again(), task);
    Listed::of::<(Listed<Task>, Snapshot<Task>), OneMore>(&more)
}

/// The dispatcher's end of the channel.
#[derive(Drop)]
pub struct TaskSender {
    pub(crate) end: RuledSender<Task, Hand, InTurn<Truly>>,
    pub(crate) pass: Pass<Task, Hand>,
    /// The tasks that came back, since no worker was left, for contracts alone.
    pub(crate) returned: Listed<Task>,
    ghost seat: { IsSeatAt (sends_on end) pass },
    ghost sends: { (view pass).sends ≡ true },
}

/// The other side of a channel, before its workers are made.
#[derive(Drop)]
pub struct Door {
    pub(crate) end: RuledReceiver<Task, Hand, InTurn<Truly>>,
}

/// A worker's end of the channel.
#[derive(Drop)]
pub struct TaskReceiver<E: Tells = Truly> {
    pub(crate) end: RuledReceiver<Task, Hand, InTurn<E>>,
    pub(crate) pass: Pass<Task, Hand>,
    ghost seat: { IsSeatAt (receives_on end) pass },
    ghost works: { (view pass).works ≡ true },
}

/// An end of the dispatcher.
pub(crate) fn sender(
    end: RuledSender<Task, Hand, InTurn<Truly>>,
    pass: Pass<Task, Hand>,
) -> TaskSender
    requires { IsSeatAt (sends_on end) pass × ((view pass).sends ≡ true) }
    ensures { (result.end ≡ end) × (result.pass ≡ pass) × (result.returned ≡ []) }
{
    TaskSender {
        end,
        pass,
        returned: Listed::of::<(), Nothing>(&()),
    }
}

/// An end of a worker.
pub(crate) fn receiver(
    end: RuledReceiver<Task, Hand, InTurn<Truly>>,
    pass: Pass<Task, Hand>,
) -> TaskReceiver
    requires { IsSeatAt (receives_on end) pass × ((view pass).works ≡ true) }
    ensures { (result.end ≡ end) × (result.pass ≡ pass) }
{
    TaskReceiver { end, pass }
}
