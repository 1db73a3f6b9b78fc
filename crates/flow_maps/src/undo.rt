//! What takes the changes of a book back that were noted: where a batch isn't applied, what is known of all runs but those that it
//! changed stays as it is, and these are put back.
ghost use Rattle.std.specs.Prelude.{◌≡◌, ◌++◌, ◌∷◌, [], IfSome, MatchOption, None, Some, true};
ghost use Rattle.flow_model.specs.Book.{Book};
ghost use Rattle.flow_maps.specs.Undoing.{IsUndo, LeadsBack};
ghost use Rattle.flow_maps.specs.declared.undo.Undo.{Undo as AnUndo};

use crate::seat::Seat;
use flow_base::number::RunId;
use flow_base::text::Key;
use std::alloc::Global;

/// An open run as it was before a change.
#[derive(Drop)]
pub struct RunBefore {
    pub(crate) run: RunId,
    /// What is known of its activities went on with it.
    pub(crate) seat: Seat,
    /// The request of the signal that it took by the change, if it took one.
    pub(crate) signal: Option<Key>,
}

/// What takes one change back.
#[derive(Drop)]
pub enum Undo {
    /// A text came.
    Text,
    /// A run came, which this request started, or none.
    Begun(Option<Key>),
    Before(RunBefore),
}

/// What takes all changes back that were noted since the last commit, the oldest first. None where it isn't known how.
#[derive(Drop)]
pub struct Journal {
    pub(crate) alloc: Global,
    steps: Option<Vec<Undo>>,
}

/// Whether there was memory for it.
fn push(steps: &mut Vec<Undo>, undo: Undo) -> bool
    ensures { result ≡ true → steps.new.items ≡ steps.old.items ++ undo ∷ [] }
{
    steps.push(undo).is_ok()
}

/// Whether there is something, and there was memory for it.
fn put(steps: &mut Vec<Undo>, undo: Option<Undo>) -> bool
    ensures { result ≡ true → (u : AnUndo) × (undo ≡ Some u) × (steps.new.items ≡ steps.old.items ++ u ∷ []) }
{
    match undo {
        Some(undo) => push(steps, undo),
        None => false,
    }
}

impl Journal {
    /// Nothing was noted yet.
    pub fn new(alloc: Global) -> Journal
        ensures { (b : Book) → LeadsBack result b b }
    {
        Journal {
            alloc,
            steps: Some(Vec::new(alloc)),
        }
    }

    /// It isn't known any more how to go back.
    pub fn lose(&mut self)
        ensures { self.new.steps ≡ None }
    {
        self.steps = None;
    }

    /// One more change was noted, which this takes back. Without it, or without memory, it isn't known any more how to go back.
    pub fn add(&mut self, undo: Option<Undo>)
        ensures { (k b c : Book) → IfSome undo (λ u. IsUndo u b c) → LeadsBack self.old k b → LeadsBack self.new k c }
    {
        if let Some(steps) = &mut self.steps {
            if put(steps, undo) {
                return;
            }
        }
        self.lose();
    }

    /// Whether it is known that nothing was noted.
    pub fn is_blank(&self) -> bool
        ensures { result ≡ true → MatchOption self.now.steps ⊥ (λ us. us.items ≡ []) }
    {
        match &self.steps {
            Some(steps) => steps.is_empty(),
            None => false,
        }
    }

    /// What was noted; from now on nothing is.
    pub fn take(&mut self) -> Option<Vec<Undo>>
        ensures taken { result ≡ self.old.steps }
        ensures anew { (b : Book) → LeadsBack self.new b b }
    {
        let steps = self.steps.take();
        self.steps = Some(Vec::new(self.alloc));
        steps
    }
}
