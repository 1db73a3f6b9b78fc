//! A look at rows, run by run: the first damage of each table, and the runs that undamaged rows tell. A damage is noted, and the look
//! goes on: a damage of a table that is tried first may come with a later run.
ghost use Rattle.std.specs.Prelude.{◌≡◌, ◌+◌, Bool, IfOk, [], None, length};
ghost use Rattle.flow_base.specs.Syntax.{Bytes};
ghost use Rattle.flow_model.specs.Checked.{is_program_by};
ghost use Rattle.flow_rows.specs.Parts.{Passed, or_else, with_run};
ghost use Rattle.flow_rows.specs.Inspecting.{HasSeen, GivesRun, IsClean, first_met, first_passed, part_in};

use crate::events::read_history;
use crate::outbox::outbox_damage;
use crate::rows::{RunRows, TextRow};
use crate::runs::run_damage;
use crate::taken_names::NamesInUse;
use crate::texts::text_damage;
use crate::timers::timer_damage;
use crate::told_run::undamaged_run;
use flow_base::book::Run;
use flow_base::fault::Damage;
use flow_base::number::RunId;
use flow_model::texts::Texts;
use std::alloc::{AllocError, Global};

/// The first damage of each table.
#[derive(Clone, Copy, Debug)]
struct Met {
    texts: Option<Damage>,
    runs: Option<Damage>,
    events: Option<Damage>,
    timers: Option<Damage>,
    outbox: Option<Damage>,
}

/// The first rows of no run of three tables.
#[derive(Clone, Copy, Debug)]
pub struct StrayDamages {
    pub events: Option<Damage>,
    pub timers: Option<Damage>,
    pub outbox: Option<Damage>,
}

/// The earlier of two damages, or the one that there is.
pub fn either(earlier: Option<Damage>, later: Option<Damage>) -> Option<Damage>
    ensures { result ≡ or_else earlier later }
{
    match earlier {
        Some(found) => Some(found),
        None => later,
    }
}

impl Met {
    /// The first damage of all tables.
    fn first(&self) -> Option<Damage>
        ensures { result ≡ first_met self.now }
    {
        let behind_events = either(self.timers, self.outbox);
        let behind_runs = either(self.events, behind_events);
        either(self.texts, either(self.runs, behind_runs))
    }
}

/// What a look at rows has met so far.
#[derive(Drop)]
pub struct Inspection {
    /// How many texts there are.
    texts: usize,
    taken: NamesInUse,
    met: Met,
}

impl Inspection {
    /// Begins with all texts.
    pub fn begin<T: Texts>(
        alloc: Global,
        texts: &T,
        rows: &[TextRow],
    ) -> Result<Inspection, AllocError>
        ensures { IfOk result (λ i. HasSeen (is_program_by T.meaning) i (record { texts = rows.now; runs = [] })) }
    {
        let damage = text_damage(alloc, texts, rows)?;
        Ok(Inspection {
            texts: rows.len(),
            taken: NamesInUse::none(alloc),
            met: Met {
                texts: damage,
                runs: None,
                events: None,
                timers: None,
                outbox: None,
            },
        })
    }

    /// One more run. It is given while nothing is damaged.
    pub fn see_run(
        &mut self,
        alloc: Global,
        number: RunId,
        rows: &RunRows<'_, '_>,
    ) -> Result<Option<Run>, AllocError>
        ensures { IfOk result (λ o. (p : Bytes → Bool) → (g : Passed) → number ≡ length g.runs + 1 → HasSeen p self.old g
            → HasSeen p self.new (with_run g (part_in number rows.now)) × GivesRun self.old self.new (part_in number rows.now) o) }
    {
        let n = number.get();
        let broken = run_damage(self.texts, &self.taken, n, rows);
        self.met.runs = either(self.met.runs, broken);
        self.taken.add(alloc, rows.row)?;
        match read_history(alloc, n, rows.events)? {
            Ok(history) => {
                let timers = timer_damage(alloc, n, rows.timers, history.as_slice())?;
                self.met.timers = either(self.met.timers, timers);
                let outbox = outbox_damage(alloc, n, rows.outbox, history.as_slice())?;
                self.met.outbox = either(self.met.outbox, outbox);
                let given = undamaged_run(alloc, self.met.first(), n, rows, history)?;
                Ok(given)
            }
            Err(found) => {
                self.met.events = either(self.met.events, Some(found));
                Ok(None)
            }
        }
    }

    /// The first damage, with the first rows of no run.
    pub fn finish(&self, below: &StrayDamages, behind: &StrayDamages) -> Option<Damage>
        ensures first { (p : Bytes → Bool) → (g : Passed) → HasSeen p self.now g → result ≡ first_passed p g below.now behind.now }
        ensures clean { result ≡ None → IsClean self.now }
    {
        let events = either(below.events, either(self.met.events, behind.events));
        let timers = either(below.timers, either(self.met.timers, behind.timers));
        let outbox = either(below.outbox, either(self.met.outbox, behind.outbox));
        let met = Met {
            texts: self.met.texts,
            runs: self.met.runs,
            events,
            timers,
            outbox,
        };
        met.first()
    }
}
