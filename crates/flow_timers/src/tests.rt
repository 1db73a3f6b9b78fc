//! A tick is due from the moment of the timer on, by a clock that stands.
use crate::{Clock, tick_due};
use flow_base::command::Command;
use flow_base::number::Moment;
use std::test::Fail;

#[derive(Clone, Copy)]
struct Still {
    now: Moment,
}

impl Clock for Still {
    ghost use Rattle.std.specs.Prelude.{◌≡◌};

    ghost tells = { λ c at. at ≡ c.now };

    fn now(&self) -> Moment {
        self.now
    }
}

fn moment(at: u64) -> Result<Moment, Fail> {
    Ok(Moment::new(at).ok_or("no moment")?)
}

fn moment_of(command: &Command) -> u64 {
    match command {
        Command::Tick(at) => at.get(),
        _ => 0,
    }
}

// The moment of the tick, if one is due.
fn ticked(due: Option<Moment>, clock: &Still) -> Option<u64> {
    let command = tick_due(due, clock.now())?;
    Some(moment_of(&command))
}

#[test]
fn a_tick_is_due_from_the_timers_moment_on(rt: HostRuntime) -> Result<(), Fail> {
    let due = moment(100)?;
    let early = Still { now: moment(99)? };
    let there = Still { now: moment(100)? };
    let late = Still { now: moment(250)? };
    assert!(rt; ticked(Some(due), &early) == None);
    assert!(rt; ticked(Some(due), &there) == Some(100));
    assert!(rt; ticked(Some(due), &late) == Some(250));
    assert!(rt; ticked(None, &late) == None);
    Ok(())
}
