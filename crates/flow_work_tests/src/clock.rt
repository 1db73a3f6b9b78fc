//! A clock that stands.
use flow_base::number::Moment;
use flow_timers::Clock;

/// A clock that stands.
#[derive(Clone, Copy)]
pub struct Still {
    now: Moment,
}

impl Still {
    /// A clock that stands at this moment.
    pub fn at(now: u64) -> Option<Still> {
        let now = Moment::new(now)?;
        Some(Still { now })
    }
}

impl Clock for Still {
    ghost use Rattle.std.specs.Prelude.{◌≡◌};

    ghost tells = { λ c at. at ≡ c.now };

    fn now(&self) -> Moment {
        self.now
    }
}
