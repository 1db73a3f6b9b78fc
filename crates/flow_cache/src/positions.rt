ghost use Rattle.std.specs.Prelude.{◌≡◌, ◌≤◌, ◌≢◌, ◌⊎◌, [], length, IfOk, IfErr, IfSome, IsSome, Some, None, true, false};
ghost use Rattle.std.specs.Borrow.{sem};
ghost use Rattle.flow_run.specs.declared.stance.Stance.{Stance as AStance};
ghost use Rattle.flow_cache.specs.Entries.{IsAt, IsKept, HasOneARun, entry_of, used, with_entry, without_entry};
ghost use Rattle.flow_cache.specs.Lent.{ends_as};

use flow_base::fault::Fault;
use flow_base::number::{RunId, TextNo};
use flow_run::stance::Stance;
use lru::LruCache;
use std::alloc::Global;
use std::marker::Model;
use std::num::NonZeroUsize;

/// The most positions that are kept.
pub const MOST_POSITIONS: usize = 4096;

/// The position of a run, and the text with which it was made.
#[derive(Drop)]
pub struct Entry {
    pub text: TextNo,
    pub stance: Stance,
}

impl Entry {
    /// Whether the run has so many events, and the text is this one.
    fn is_at(&self, text: TextNo, events: u64) -> bool
        ensures yes { result ≡ true → IsAt self.now text events }
        ensures no { result ≡ false → IsAt self.now text events → ⊥ }
    {
        self.text == text && self.stance.events() == events
    }
}

/// The positions of runs, one of each, that of the run used last first. A text of a run that was replaced by another, or a
/// history that went on, isn't known here: whoever asks says which text and how many events he means.
#[derive(Drop)]
pub struct Positions {
    cache: LruCache<u64, Entry>,
}

impl Model for Positions {
    ghost use Rattle.flow_cache.specs.Entries.{Kept, kept_code};

    ghost Value = { Kept };

    ghost coded = { kept_code };

    ghost view = { λ p. record { entries = p.cache.entries; capacity = p.cache.cap } };
}

impl Positions {
    /// None yet. So many are kept at most, from 1 to [`MOST_POSITIONS`].
    ///
    /// # Failure
    /// E01.
    pub fn new(alloc: Global, capacity: usize) -> Result<Positions, Fault>
        requires first { 1 ≤ capacity }
        requires last { capacity ≤ 4096 }
        ensures empty { IfOk result (λ p. p.entries ≡ []) }
        ensures capacity { IfOk result (λ p. p.capacity ≡ capacity) }
        ensures memory { IfErr result (λ e. e ≡ Fault.NoMemory _) }
    {
        let capacity = NonZeroUsize::new(capacity).unwrap();
        let cache = LruCache::new(alloc, capacity)?;
        Ok(Positions { cache })
    }

    /// The position of a run with so many events under a text, where it is that of the run's entry. The run is then the one used
    /// last.
    pub fn find(&mut self, run: RunId, text: TextNo, events: u64) -> Option<&Stance>
        ensures* used { sem 𝓛 (ends_as self.entry (used run self.old.entries)) }
        ensures found { IfSome result (λ s. IsKept self.old.entries run text events s.now) }
        ensures none { result ≡ None → (s : AStance) → IsKept self.old.entries run text events s → ⊥ }
    {
        let entry = self.cache.get(&run.get())?;
        if entry.is_at(text, events) {
            Some(&entry.stance)
        } else {
            None
        }
    }

    /// Keeps the position of a run in front, in place of its old one or, in a full list, of the last. Where a growth is refused,
    /// all stays as it was; none is needed for a run that has an entry.
    pub fn keep(&mut self, run: RunId, text: TextNo, stance: Stance)
        ensures kept { (self.new ≡ with_entry run (record { text = text; stance = stance }) self.old) ⊎ (self.new ≡ self.old) }
        ensures replaced { IsSome (entry_of run self.old.entries)
            → self.new ≡ with_entry run (record { text = text; stance = stance }) self.old }
    {
        match self.cache.put(run.get(), Entry { text, stance }) {
            Ok(old) => drop(old),
            Err(refused) => drop(refused),
        }
    }

    /// The position of a run is let go, if it has one.
    pub fn let_go(&mut self, run: RunId)
        ensures { self.new ≡ without_entry run self.old }
    {
        drop(self.cache.pop_entry(&run.get()));
    }

    /// How many are kept.
    pub fn len(&self) -> usize
        ensures count { result ≡ length self.now.entries }
        ensures bounded { result ≤ self.now.capacity }
        ensures one { HasOneARun self.now.entries }
    {
        self.cache.len()
    }
}
