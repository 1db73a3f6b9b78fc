//! Which open timer is due first.
ghost use Rattle.std.specs.Prelude.{◌≡◌};
ghost use Rattle.flow_model.specs.Book as words;

use flow_base::book::{Due, Timer};
use flow_base::number::{Moment, RunId};

fn is_before(a: &Due, b: &Due) -> bool
    ensures { result ≡ words.is_before a.now b.now }
{
    a.due.get() < b.due.get()
        || (a.due.get() == b.due.get()
            && (a.run.get() < b.run.get()
                || (a.run.get() == b.run.get() && a.id.get() < b.id.get())))
}

/// The one that is due first, of what was found before and another one.
pub fn lesser(best: Option<Due>, due: Due) -> Due
    ensures { result ≡ words.lesser best due }
{
    let Some(found) = best else {
        return due;
    };
    if is_before(&found, &due) { found } else { due }
}

/// The one that is due first, of what was found before and a run's timers that are due by a moment.
pub fn least_of(at: Moment, run: RunId, best: Option<Due>, timers: &[Timer]) -> Option<Due>
    ensures { result ≡ words.least_of at run best timers.now }
{
    let mut least = best;
    for timer in timers {
        if timer.due.get() <= at.get() {
            least = Some(lesser(
                least,
                Due {
                    due: timer.due,
                    run,
                    id: timer.id,
                },
            ));
        }
    }
    least
}
