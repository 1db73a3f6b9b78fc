//! Which open timer is due first: all rows of timers are read, since no row tells which is the least.
ghost use Rattle.std.specs.Prelude.{◌≡◌, option_map};
ghost use Rattle.flow_model.specs.Book as words;
ghost use Rattle.flow_rows.specs.Dues as rule;

use crate::ask::{BookRead, ask};
use crate::fault::view_fault;
use crate::questions::AllTimers;
use flow_base::book::Due;
use flow_base::number::Moment;
use flow_rows::dues::least_due;
use flow_view::fault::ViewFault;
use sqlite::{Alter, Connection};
use std::alloc::Global;

/// The open timer that is due first, of those that are due by a moment.
#[derive(Drop)]
pub(crate) struct LeastDue(pub(crate) Moment);

impl BookRead for LeastDue {
    type Value = Option<Due>;

    ghost value = { λ q b. words.least_due b q.0 };

    fn read<S: Alter>(
        &self,
        alloc: Global,
        conn: &mut Connection<S>,
    ) -> Result<Option<Due>, ViewFault> {
        match ask(alloc, conn, &AllTimers) {
            Ok(rows) => Ok(least_due(self.0, rows.as_slice())),
            Err(fault) => Err(view_fault(fault)),
        }
    }
}

pub(crate) fn moment_of(found: Option<Due>) -> Option<Moment>
    ensures { result ≡ option_map rule.moment_of found }
{
    Some(found?.due)
}

/// The moment at which the first of all open timers is due.
#[derive(Drop)]
pub(crate) struct NextMoment;

impl BookRead for NextMoment {
    type Value = Option<Moment>;

    ghost value = { λ q b. rule.next_moment b };

    fn read<S: Alter>(
        &self,
        alloc: Global,
        conn: &mut Connection<S>,
    ) -> Result<Option<Moment>, ViewFault> {
        match ask(alloc, conn, &AllTimers) {
            Ok(rows) => Ok(moment_of(least_due(Moment::last(), rows.as_slice()))),
            Err(fault) => Err(view_fault(fault)),
        }
    }
}
