//! What a worker reports, and to whom.
ghost use Rattle.std.specs.Prelude.{◌≡◌};
ghost use Rattle.flow_pool.specs.Reports.{report_of, unheard_number, is_final};

use crate::activity::Attempt;
use flow_base::command::{Command, Complete, Fail, Reply};
use flow_base::number::Moment;
use flow_base::task::Task;
use std::sync::Wait;

/// Why a report wasn't answered by a reply.
#[derive(Clone, Copy, Debug, PartialEq, Eq, thiserror::Error)]
pub enum Unheard {
    #[error("E{:02} out of memory", self.number())]
    NoMemory,
    #[error("E{:02} the store refused", self.number())]
    StoreRefused,
    #[error("E{:02} not known whether it was kept", self.number())]
    Unknown,
    #[error("E{:02} halted", self.number())]
    Halted,
    #[error("E{:02} inbox full", self.number())]
    InboxFull,
    #[error("E{:02} hub closed", self.number())]
    HubClosed,
}

impl Unheard {
    /// The number of the refusal.
    pub fn number(self) -> u8
        ensures { result ≡ unheard_number self }
    {
        match self {
            Unheard::NoMemory => 1,
            Unheard::StoreRefused => 80,
            Unheard::Unknown => 84,
            Unheard::Halted => 85,
            Unheard::InboxFull => 90,
            Unheard::HubClosed => 91,
        }
    }

    /// Whether nothing that is reported from now on is kept: E84, E85 and E91. After the others the report is made again.
    pub fn is_final(self) -> bool
        ensures { result ≡ is_final self }
    {
        matches!(
            self,
            Unheard::Unknown | Unheard::Halted | Unheard::HubClosed
        )
    }
}

/// Takes reports, as a submitter of the hub does.
pub trait Reports {
    ghost use Rattle.std.specs.Prelude.{◌≡◌, [], ◌∷◌, ◌++◌, List, IfErr};
    ghost use Rattle.flow_pool.specs.Reports.{Telling, came_of};

    /// All that was reported, and what came of it, for contracts alone.
    ghost told: { Self → List Telling };

    /// Submits a command and waits for its reply. Where there is none, the command comes back.
    fn tell<R: Wait>(&mut self, rt: &R, command: Command) -> Result<Reply, (Command, Unheard)>
        ensures told { told self.new ≡ told self.old ++ (command, came_of result) ∷ [] }
        ensures back { IfErr result (λ e. e.0 ≡ command) };
}

/// The report of an attempt.
pub fn report(task: &Task, attempt: Attempt, at: Moment) -> Command
    ensures { result ≡ report_of task.now attempt at }
{
    let run = task.run;
    let event = task.event;
    let number = task.attempt;
    match attempt {
        Attempt::Done(value) => Command::Complete(Complete {
            run,
            event,
            attempt: number,
            value,
            at,
        }),
        Attempt::Failed(reason) => Command::Fail(Fail {
            run,
            event,
            attempt: number,
            reason,
            at,
        }),
    }
}
