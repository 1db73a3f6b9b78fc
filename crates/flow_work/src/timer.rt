//! The thread that fires what is due.
ghost use Rattle.flow_work.specs.Firing.{Fires};

use crate::reports::Reporter;
use flow_hub::seats::Room;
use flow_timers::Clock;
use flow_timers::pause::Pause;
use std::sync::Wait;
use std::time;

/// Submits a tick as soon as something is due by the clock, waits for its answer, and goes on, until nothing is answered any more.
/// After E01, E80 and E90 it asks again what is due, each time after a longer pause, of a second at most.
#[tactic(auto, using(crate::proofs::Firing::fires_none))]
pub(crate) fn fire_timers<R: Wait + time::Clock, B: Room, C: Clock>(
    rt: &R,
    reports: Reporter<B>,
    clock: &C,
) -> Reporter<B>
    ensures { Fires (C.tells clock.now) result.submitter.was reports.told result.told }
{
    let mut reports = reports;
    let mut pause = Pause::new();
    'ticks: for _ in rt.forever() {
        if !reports.fire(rt, clock, &mut pause) {
            return reports;
        }
    }
    unreachable!()
}
