//! The clock of the system, in moments.
ghost use Rattle.std.specs.Prelude.{◌≡◌, ◌/◌, min};
ghost use Rattle.std.specs.Duration.{as_nanos};

use flow_base::number::{LAST_MOMENT, Moment};
use flow_timers::Clock;
use std::time;
use std::time::Duration;

/// The moment that so many milliseconds are; the last one where they are more.
fn moment_at(milliseconds: u128) -> Moment
    ensures { result ≡ min milliseconds LAST_MOMENT }
{
    let last = u128::from(LAST_MOMENT);
    let number = if milliseconds < last {
        milliseconds as u64
    } else {
        LAST_MOMENT
    };
    Moment::new(number).unwrap()
}

/// The moment so long behind 1970: its whole milliseconds, and the last moment where they are more.
pub fn moment_of(since_1970: Duration) -> Moment
    ensures { result ≡ min (as_nanos since_1970 / 1_000_000) LAST_MOMENT }
{
    moment_at(since_1970.as_millis())
}

/// The milliseconds since 1970; moment 0 where the system's clock can't be read.
#[derive(Clone, Copy)]
pub struct SystemClock<R: time::Clock> {
    rt: R,
}

impl<R: time::Clock> SystemClock<R> {
    /// The clock of a runtime.
    pub fn new(rt: R) -> SystemClock<R> {
        SystemClock { rt }
    }
}

impl<R: time::Clock> Clock for SystemClock<R> {
    // The system may tell any moment.
    ghost tells = { λ _ _. Unit {0} };

    fn now(&self) -> Moment {
        match self.rt.since_1970() {
            Ok(time) => moment_of(time),
            Err(_) => moment_at(0),
        }
    }
}
