//! Commands answered over a view.
ghost use Rattle.flow_model.specs.Apply.{rules_of};

use flow_base::command::Command;
use flow_check::language::Language;
use flow_machine::decide::{decide, decide_all};
use flow_machine::seats::Seats;
use flow_model::answer::{Answer, Answering, Stop, Together};
use flow_programs::kept::Kept;
use flow_programs::programs::Programs;
use flow_view::lists::Lists;
use flow_view::view::View;
use std::alloc::Global;

/// Decides commands over a view that nobody rolls back, as the plain lists: where one can't be decided nobody knows which of its
/// changes the view holds.
#[derive(Drop)]
pub struct Deciding<V, P> {
    pub alloc: Global,
    pub programs: P,
    pub view: V,
}

impl<V: View + Drop, P: Programs + Drop> Answering for Deciding<V, P> {
    ghost use Rattle.std.proofs.Common.{inl};
    ghost use Rattle.flow_model.proofs.Failures.{no_fewer};

    ghost rules = { rules_of P.meaning };

    ghost book = { λ s. V.book s.view };

    ghost is_sure = { λ s. V.is_sure s.view };

    ghost follows = { λ a b. (v : V) → V.follows v a.view → V.follows v b.view };

    // No command is given up.
    ghost gives_up = { λ a s b cs k. ⊥ };

    ghost failures = { λ s. 0 };

    ghost excuses = { λ a s b cs. ⊥ };

    ghost stops = { λ a s b cs stop. Unit {0} };

    ghost follows_self = { λ a v before. before };

    ghost gives_up_still = { λ a b c k cs code on none. none };

    ghost gives_up_since = { λ a b c k cs code on later none. none };

    // No failure is counted, since there is no store.
    ghost failures_still = { λ a b sure on. no_fewer 0 };

    ghost excused_or_failed = { λ a b k cs sure none. inl none };

    ghost excuses_still = { λ a b c k cs sure on none. none };

    ghost excuses_since = { λ a b c k cs sure on later none. none };

    fn answer(&mut self, command: Command) -> Result<Answer, Stop> {
        // No position is known from one command to the next.
        let Ok(mut seats) = Seats::new(self.alloc, 1) else {
            return Err(Stop::Unknown);
        };
        match decide(
            self.alloc,
            &mut self.programs,
            &mut self.view,
            &mut seats,
            &command,
        ) {
            Ok((reply, _)) => Ok(Answer::Replied(reply)),
            Err(_) => Err(Stop::Unknown),
        }
    }

    fn answer_together(&mut self, commands: Vec<Command>) -> Result<Together, Stop> {
        let Ok(mut seats) = Seats::new(self.alloc, 1) else {
            return Err(Stop::Unknown);
        };
        match decide_all(
            self.alloc,
            &mut self.programs,
            &mut self.view,
            &mut seats,
            commands.as_slice(),
        ) {
            Ok(replies) => Ok(Together::Replied(replies)),
            Err(_) => Err(Stop::Unknown),
        }
    }
}

pub fn over_lists(alloc: Global) -> Deciding<Lists, Kept<Language>> {
    Deciding {
        alloc,
        programs: Kept::new(alloc, Language),
        view: Lists::new(alloc),
    }
}
