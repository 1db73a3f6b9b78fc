//! Positions of runs: those that are kept, and those of the batch that is being decided.
ghost use Rattle.std.specs.Prelude.{◌≡◌, ◌≤◌, ◌⊎◌, ◌∷◌, ◌++◌, [], IfOk, IfErr, IfSome, true};
ghost use Rattle.flow_base.specs.Syntax.{Program as Tree};
ghost use Rattle.flow_machine.specs.Reached.{Meaning};
ghost use Rattle.flow_machine.specs.Seated.{AreAlike, FitSeats, Grows, HasNone, IsCopy, IsCopyAhead, IsLedAt, IsPlace, KeepsAlike, KeepsAll, KeepsOne, Settles, without_entries};
ghost use Rattle.flow_model.specs.Book.{Book};
ghost use Rattle.flow_run.specs.Position.{config_of};

use flow_base::fault::Fault;
use flow_base::number::{RunId, TextNo};
use flow_cache::positions::Positions;
use flow_run::fault::RunFault;
use flow_run::stance::Stance;
use flow_view::fault::ViewFault;
use std::alloc::Global;
use std::mem;

/// The position to which a turn led its run.
#[derive(Drop)]
pub struct Led {
    pub run: RunId,
    /// The text under which the run went on.
    pub text: TextNo,
    pub stance: Stance,
}

impl Led {
    fn is_at(&self, run: RunId, text: TextNo, events: u64) -> bool
        ensures yes { result ≡ true → IsLedAt self.now run text events }
    {
        self.run == run && self.text == text && self.stance.events() == events
    }
}

/// Where runs stand. What a batch leads to isn't kept before the batch is: until then it stands ahead, and it goes with the batch
/// where that is rolled back.
#[derive(Drop)]
pub struct Seats {
    alloc: Global,
    kept: Positions,
    ahead: Vec<Led>,
    /// The runs that the batch closes.
    over: Vec<RunId>,
}

impl Seats {
    /// None yet. So many are kept at most, from 1 to 4,096.
    ///
    /// # Failure
    /// E01.
    pub fn new(alloc: Global, capacity: usize) -> Result<Seats, Fault>
        requires first { 1 ≤ capacity }
        requires last { capacity ≤ 4096 }
        ensures none { IfOk result (λ s. HasNone s) }
        // So they are fit for every book.
        ensures fit { IfOk result (λ s. (m : Meaning) (b : Book) → FitSeats m b s) }
        ensures memory { IfErr result (λ e. e ≡ Fault.NoMemory _) }
    {
        let kept = Positions::new(alloc, capacity)?;
        Ok(Seats {
            alloc,
            kept,
            ahead: Vec::new(alloc),
            over: Vec::new(alloc),
        })
    }

    /// A copy of the position of a run with so many events under a text, of those ahead or those that are kept.
    ///
    /// # Failure
    /// E01.
    pub fn take(
        &mut self,
        run: RunId,
        text: TextNo,
        events: u64,
    ) -> Result<Option<Stance>, ViewFault>
        ensures found { IfOk result (λ o. IfSome o (λ s. IsPlace self.old run text events s)) }
        ensures memory { IfErr result (λ e. e ≡ ViewFault.NoMemory _) }
        ensures alike { KeepsAlike self.old self.new }
        ensures ahead { self.new.ahead.items ≡ self.old.ahead.items }
        ensures over { self.new.over.items ≡ self.old.over.items }
    {
        if let Some(stance) = ahead_at(self.alloc, &self.ahead, run, text, events)? {
            return Ok(Some(stance));
        }
        let found = kept_at(self.alloc, &mut self.kept, run, text, events)?;
        Ok(found)
    }

    /// A position to which the batch leads. Where a growth is refused, it is let go.
    pub fn lead(&mut self, led: Led)
        ensures led { (self.new.ahead.items ≡ self.old.ahead.items ++ led ∷ []) ⊎ (self.new.ahead.items ≡ self.old.ahead.items) }
        ensures over { self.new.over.items ≡ self.old.over.items }
        ensures kept { self.new.kept ≡ self.old.kept }
    {
        match self.ahead.push(led) {
            Ok(()) => {}
            Err(_refused) => {}
        }
    }

    /// A run that the batch closes. Where a growth is refused, its position is thrown out as any other.
    pub(crate) fn end(&mut self, run: RunId)
        ensures ended { (self.new.over.items ≡ self.old.over.items ++ run ∷ []) ⊎ (self.new.over.items ≡ self.old.over.items) }
        ensures ahead { self.new.ahead.items ≡ self.old.ahead.items }
        ensures kept { self.new.kept ≡ self.old.kept }
    {
        match self.over.push(run) {
            Ok(()) => {}
            Err(_refused) => {}
        }
    }

    /// Where the batch leads a run: to a position, or to its end.
    pub(crate) fn lead_or_end(&mut self, run: RunId, led: Option<Led>)
        ensures grown { Grows self.old led self.new }
        // Of a run that goes on no position is let go.
        ensures over { IfSome led (λ l. self.new.over.items ≡ self.old.over.items) }
        ensures kept { self.new.kept ≡ self.old.kept }
    {
        match led {
            Some(led) => self.lead(led),
            None => self.end(run),
        }
    }

    /// What stands ahead is kept, once the batch is, and the positions of runs that it closes are let go. Where a growth is
    /// refused, a position is let go.
    pub fn settle(&mut self)
        ensures settled { Settles self.old self.new }
        ensures none { self.new.ahead.items ≡ [] }
        ensures over { self.new.over.items ≡ [] }
        // What was fit for a book is so again.
        ensures fit { (m : Meaning) (b : Book) → FitSeats m b self.old → FitSeats m b self.new }
    {
        let ahead = mem::replace(&mut self.ahead, Vec::new(self.alloc));
        let over = mem::replace(&mut self.over, Vec::new(self.alloc));
        keep_all(&mut self.kept, ahead);
        let_all_go(&mut self.kept, over.as_slice());
    }

    /// What stands ahead is let go, where the batch isn't kept, and each run that it closed keeps its position.
    pub fn forget(&mut self)
        ensures none { self.new.ahead.items ≡ [] }
        ensures over { self.new.over.items ≡ [] }
        ensures kept { self.new.kept ≡ self.old.kept }
    {
        self.ahead = Vec::new(self.alloc);
        self.over = Vec::new(self.alloc);
    }
}

// A copy of one that stands ahead.
fn ahead_at(
    alloc: Global,
    ahead: &[Led],
    run: RunId,
    text: TextNo,
    events: u64,
) -> Result<Option<Stance>, ViewFault>
    ensures found { IfOk result (λ o. IfSome o (IsCopyAhead ahead.now run text events)) }
    ensures memory { IfErr result (λ e. e ≡ ViewFault.NoMemory _) }
{
    for led in ahead {
        if led.is_at(run, text, events) {
            return Ok(Some(copied(alloc, &led.stance)?));
        }
    }
    Ok(None)
}

fn copied(alloc: Global, stance: &Stance) -> Result<Stance, ViewFault>
    ensures same { IfOk result (λ s. (p : Tree) → config_of p s ≡ config_of p stance.now) }
    ensures memory { IfErr result (λ e. e ≡ ViewFault.NoMemory _) }
{
    match stance.copy(alloc) {
        Ok(copy) => Ok(copy),
        Err(refused) => Err(ViewFault::from(refused)),
    }
}

// A copy of one that is kept.
fn kept_at(
    alloc: Global,
    kept: &mut Positions,
    run: RunId,
    text: TextNo,
    events: u64,
) -> Result<Option<Stance>, ViewFault>
    ensures found { IfOk result (λ o. IfSome o (λ s. IsCopy kept.old.entries run text events s)) }
    ensures memory { IfErr result (λ e. e ≡ ViewFault.NoMemory _) }
    ensures alike { AreAlike kept.old.entries kept.new.entries }
{
    match kept.find(run, text, events) {
        Some(stance) => Ok(Some(copied(alloc, stance)?)),
        None => Ok(None),
    }
}

fn keep_all(kept: &mut Positions, ahead: Vec<Led>)
    ensures { KeepsAll kept.old ahead.items kept.new }
{
    for led in ahead {
        keep(kept, led);
    }
}

fn let_all_go(kept: &mut Positions, runs: &[RunId])
    ensures { kept.new ≡ without_entries runs.now kept.old }
{
    for run in runs {
        kept.let_go(*run);
    }
}

fn keep(kept: &mut Positions, led: Led)
    ensures { KeepsOne kept.old led kept.new }
{
    kept.keep(led.run, led.text, led.stance);
}
