//! What a keeper's book gives out to be done.
ghost use Rattle.std.specs.Prelude.{◌≡◌};

use crate::waiting::Draft;
use flow_base::number::Moment;
use flow_base::task::{Posted, Task};
use std::collections::BTreeSet;
use std::marker::Model;
use unseen::{Listed, Makes};

/// The tasks of a keeper's book that are ready and weren't posted. A keeper alone makes it.
#[derive(Drop)]
pub struct Board {
    /// In order of run and event.
    pub(crate) tasks: Vec<Task>,
    /// When a timer is due next, or the next attempt of an activity is ready.
    pub(crate) due: Option<Moment>,
    pub(crate) open_runs: u64,
    /// How many commands the keeper had kept.
    pub(crate) kept: u64,
    /// What had been posted when it was made, for contracts alone.
    pub(crate) posted: Listed<Posted>,
}

impl Model for Board {
    ghost use Rattle.flow_commit.specs.Boards.{Boarded, boarded_code};

    ghost Value = { Boarded };

    ghost coded = { boarded_code };

    ghost view = { λ b. record { tasks = b.tasks.items; due = b.due; open_runs = b.open_runs; kept = b.kept; posted = b.posted } };
}

// The keys that are there.
pub(crate) struct Keys;

impl Makes<&BTreeSet<Posted>, Posted> for Keys {
    ghost list = { λ s. s.now.keys };
}

/// The board of a draft, behind so many commands, where these tasks were posted.
pub(crate) fn board_of(draft: Draft, kept: u64, posted: &BTreeSet<Posted>) -> Board
    ensures { result ≡ record { tasks = draft.tasks; due = draft.due; open_runs = draft.open_runs; kept = kept; posted = posted.now.keys } }
{
    let Draft {
        tasks,
        due,
        open_runs,
        since: _,
    } = draft;
    Board {
        tasks: tasks.into_vec(),
        due,
        open_runs,
        kept,
        posted: Listed::of::<&BTreeSet<Posted>, Keys>(&posted),
    }
}

impl Board {
    /// Its tasks in order of run and event.
    pub fn tasks(&self) -> &[Task]
        ensures { result.now ≡ self.now.tasks }
    {
        self.tasks.as_slice()
    }

    /// Its tasks in order of run and event, the moment at which more is to be done, and how many runs are open.
    pub fn into_parts(self) -> (Vec<Task>, Option<Moment>, u64)
        ensures tasks { result.0.items ≡ self.tasks }
        ensures due { result.1 ≡ self.due }
        ensures open_runs { result.2 ≡ self.open_runs }
    {
        let Board {
            tasks,
            due,
            open_runs,
            kept: _,
            posted: _,
        } = self;
        (tasks, due, open_runs)
    }
}
