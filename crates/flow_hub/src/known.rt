//! What threads know of a hub.
ghost use Rattle.std.specs.Prelude.{◌≡◌, [], ◌∷◌, ◌++◌, length, map};
ghost use Rattle.flow_hub.specs.Knowing.{nothing, with_ask, with_taken, with_published, with_refused, with_posted, with_skipped, with_given, with_ended};
ghost use Rattle.flow_queues.specs.Posting.{chosen};

use flow_base::code::Code;
use flow_base::fault::Fault;
use flow_base::number::{Moment, RunId};
use flow_base::submission::{Receipt, Taken};
use flow_base::task::Task;
use flow_commit::account::Account;
use flow_commit::stamp::Stamp;
use flow_queues::refused::Refused;
use std::collections::VecDeque;
use unseen::{Listed, Makes};

/// What a board says beside its tasks.
#[derive(Clone, Copy, Debug, PartialEq, Eq)]
pub struct BoardSummary {
    /// When a timer is due next, or the next attempt of an activity is ready.
    pub due: Option<Moment>,
    /// How many runs are open.
    pub open_runs: u64,
}

/// What was taken at once. No value of it is made.
pub struct TakeFacts {
    /// How many.
    pub taken: u64,
    /// How many were left to wait then.
    pub left: u64,
}

/// What threads know of a hub. Its lists are data for contracts alone.
#[derive(Drop)]
pub struct HubFacts {
    /// All that was submitted: each submission stands at its ticket.
    pub asked: Listed<Taken>,
    /// The one history: all receipts that were published, in their order.
    pub history: Listed<Receipt>,
    /// All submissions that were answered by a code, in their order.
    pub refused: Listed<Refused>,
    /// What the last published stamp tells of its keeper. Before the first one there is none.
    pub last: Listed<Account>,
    /// What is taken, and not answered yet.
    pub held: Listed<Taken>,
    /// What was taken at once, each time that something was, in their order.
    pub takes: Listed<TakeFacts>,
    /// How many answers their submitters have fetched.
    pub fetched: u64,
    /// How many submitters the hub has given.
    pub members: u64,
    /// Whether nothing more is taken in.
    pub closed: bool,
    /// Whether it is its publisher who has closed it. Where not, it is somebody who has the hub.
    pub ended: bool,
    /// All tasks that were posted, in their order.
    pub posted: Listed<Task>,
    /// The runs whose keys the publisher has let go of, since they are over.
    pub gone: Listed<RunId>,
    /// Those of them that were given to whoever hands them to workers, in their order.
    pub given: Listed<Task>,
    /// Whether a board was posted or skipped since the hub was made and since what was taken last was answered.
    pub boarded: bool,
    /// What the last board says. None where what was taken was answered since it was made.
    pub outlook: Option<BoardSummary>,
    /// For which faults boards were skipped, the last one first.
    pub skipped: Listed<Fault>,
}

struct Empty;

impl<E> Makes<(), E> for Empty {
    ghost use Rattle.std.specs.Prelude.{[]};

    ghost list = { λ _. [] };
}

/// A list, and one more at its end.
struct OneMore;

impl<E> Makes<(Listed<E>, &E), E> for OneMore {
    ghost use Rattle.std.specs.Prelude.{[], ◌∷◌, ◌++◌};

    ghost list = { λ p. p.0 ++ p.1.now ∷ [] };
}

/// A list, and behind it these.
struct Behind;

impl<E> Makes<(Listed<E>, &Vec<E>), E> for Behind {
    ghost use Rattle.std.specs.Prelude.{◌++◌};

    ghost list = { λ p. p.0 ++ p.1.now.items };
}

/// A list, and behind it that these were taken at once where those were left.
struct AtOnce;

impl Makes<(Listed<TakeFacts>, &Vec<Taken>, &VecDeque<Taken>), TakeFacts> for AtOnce {
    ghost use Rattle.std.specs.Prelude.{◌++◌, length};
    ghost use Rattle.flow_hub.specs.Knowing.{taken_at_once};

    ghost list = { λ p. p.0 ++ taken_at_once p.1.now.items (length p.2.now.items) };
}

/// One more, and behind it a list.
struct Before;

impl<E> Makes<(&E, Listed<E>), E> for Before {
    ghost use Rattle.std.specs.Prelude.{◌∷◌};

    ghost list = { λ p. p.0.now ∷ p.1 };
}

/// A list, and behind it these with a code.
struct Answered;

impl Makes<(Listed<Refused>, &Vec<Taken>, Code), Refused> for Answered {
    ghost use Rattle.std.specs.Prelude.{◌++◌, map};
    ghost use Rattle.flow_queues.specs.Refusing.{refused_by};

    ghost list = { λ p. p.0 ++ map (refused_by p.2) p.1.now.items };
}

/// A list, and behind it those of these that are marked.
struct Chosen;

impl Makes<(Listed<Task>, &Vec<Task>, &Vec<bool>), Task> for Chosen {
    ghost use Rattle.std.specs.Prelude.{◌++◌};
    ghost use Rattle.flow_queues.specs.Posting.{chosen};

    ghost list = { λ p. p.0 ++ chosen p.1.now.items p.2.now.items };
}

/// What a stamp tells of its keeper.
struct Named;

impl Makes<Stamp, Account> for Named {
    ghost use Rattle.std.specs.Prelude.{[], ◌∷◌};

    ghost list = { λ s. s.account ∷ [] };
}

/// Runs, and after them the first so many of those that a stamp names as closed.
struct Closed;

impl Makes<(Listed<RunId>, &Stamp, usize), RunId> for Closed {
    ghost use Rattle.std.specs.Prelude.{◌++◌, take};

    ghost list = { λ p. p.0 ++ take p.2 p.1.now.closed };
}

impl HubFacts {
    pub(crate) fn new() -> HubFacts
        ensures { result ≡ nothing }
    {
        HubFacts {
            asked: Listed::of::<(), Empty>(&()),
            history: Listed::of::<(), Empty>(&()),
            refused: Listed::of::<(), Empty>(&()),
            last: Listed::of::<(), Empty>(&()),
            held: Listed::of::<(), Empty>(&()),
            takes: Listed::of::<(), Empty>(&()),
            fetched: 0,
            members: 0,
            closed: false,
            ended: false,
            posted: Listed::of::<(), Empty>(&()),
            gone: Listed::of::<(), Empty>(&()),
            given: Listed::of::<(), Empty>(&()),
            boarded: false,
            outlook: None,
            skipped: Listed::of::<(), Empty>(&()),
        }
    }

    /// A command was submitted.
    pub(crate) fn ask(&mut self, taken: &Taken)
        ensures { self.new ≡ with_ask self.old taken.now }
    {
        self.asked = Listed::of::<(Listed<Taken>, &Taken), OneMore>(&(self.asked.again(), taken));
    }

    /// These were taken at once, and those left to wait.
    pub(crate) fn take(&mut self, taken: &Vec<Taken>, left: &VecDeque<Taken>)
        ensures { self.new ≡ with_taken self.old taken.now.items (length left.now.items) }
    {
        self.held = Listed::of::<(Listed<Taken>, &Vec<Taken>), Behind>(&(self.held.again(), taken));
        let takes = (self.takes.again(), taken, left);
        self.takes = Listed::of::<(Listed<TakeFacts>, &Vec<Taken>, &VecDeque<Taken>), AtOnce>(
            &takes,
        );
    }

    /// What was taken is answered by the receipts of a stamp, and so many of the runs that it names as closed are gone.
    pub(crate) fn publish(&mut self, receipts: &Vec<Receipt>, stamp: &Stamp, count: usize)
        ensures { self.new ≡ with_published self.old stamp.now count receipts.now.items }
    {
        self.history = Listed::of::<(Listed<Receipt>, &Vec<Receipt>), Behind>(&(
            self.history.again(),
            receipts,
        ));
        self.last = Listed::of::<Stamp, Named>(stamp);
        let closed = (self.gone.again(), stamp, count);
        self.gone = Listed::of::<(Listed<RunId>, &Stamp, usize), Closed>(&closed);
        self.held = Listed::of::<(), Empty>(&());
        self.boarded = false;
        self.outlook = None;
    }

    /// What was taken is answered by a code.
    pub(crate) fn refuse(&mut self, all: &Vec<Taken>, code: Code)
        ensures { self.new ≡ with_refused self.old all.now.items code }
    {
        self.refused = Listed::of::<(Listed<Refused>, &Vec<Taken>, Code), Answered>(&(
            self.refused.again(),
            all,
            code,
        ));
        self.held = Listed::of::<(), Empty>(&());
        self.boarded = false;
        self.outlook = None;
    }

    /// A board was posted: those of its tasks that are marked, and what it says beside.
    pub(crate) fn post(&mut self, tasks: &Vec<Task>, marks: &Vec<bool>, outlook: BoardSummary)
        ensures { self.new ≡ with_posted self.old (chosen tasks.now.items marks.now.items) outlook }
    {
        self.posted = Listed::of::<(Listed<Task>, &Vec<Task>, &Vec<bool>), Chosen>(&(
            self.posted.again(),
            tasks,
            marks,
        ));
        self.boarded = true;
        self.outlook = Some(outlook);
    }

    /// No board this time, for this fault.
    pub(crate) fn skip(&mut self, fault: &Fault)
        ensures { self.new ≡ with_skipped self.old fault.now }
    {
        self.boarded = true;
        self.skipped = Listed::of::<(&Fault, Listed<Fault>), Before>(&(
            fault,
            self.skipped.again(),
        ));
    }

    /// Its publisher has closed it.
    pub(crate) fn finish(&mut self)
        ensures { self.new ≡ with_ended self.old }
    {
        self.closed = true;
        self.ended = true;
    }

    /// A task was given to whoever hands them to workers.
    pub(crate) fn give(&mut self, task: &Task)
        ensures { self.new ≡ with_given self.old task.now }
    {
        self.given = Listed::of::<(Listed<Task>, &Task), OneMore>(&(self.given.again(), task));
    }
}
