ghost use Rattle.std.specs.Prelude.{◌≡◌, [], ◌∷◌, IfOk, OnOk, OnErr};
ghost use Rattle.flow_model.specs.Configuration.{none_decided};
ghost use Rattle.flow_values.specs.Named.{look_up};

use flow_base::text::Key;
use std::alloc::{AllocError, Global};
use std::marker::Model;

/// Patches and whether each took its first list, the newest first.
#[derive(Debug, Drop)]
pub struct Decided {
    entries: Vec<(Key, bool)>,
}

impl Model for Decided {
    ghost use Rattle.std.specs.Prelude.{List, ℕ, Bool};

    ghost Value = { List (List ℕ × Bool) };

    ghost view = { λ v. v.entries.items };
}

impl Decided {
    /// No patch has an answer yet.
    pub fn new(alloc: Global) -> Decided
        ensures empty { result ≡ [] }
        ensures none { look_up result ≡ none_decided }
    {
        Decided {
            entries: Vec::new(alloc),
        }
    }

    /// The answer of a patch, if it has one.
    pub fn find(&self, id: &Key) -> Option<bool>
        ensures { result ≡ look_up self.now id.now }
    {
        for e in &self.entries {
            if id.is(&e.0) {
                return Some(e.1);
            }
        }
        None
    }

    /// Gives a patch its answer, for good. After an error all is as it was.
    pub fn insert(&mut self, alloc: Global, id: &Key, answer: bool) -> Result<(), AllocError>
        ensures ok { OnOk result (self.new ≡ (id.now, answer) ∷ self.old) }
        ensures err { OnErr result (self.new ≡ self.old) }
    {
        let id = id.copy(alloc)?;
        self.entries.insert(0, (id, answer))?;
        Ok(())
    }

    /// Equal answers, or E01.
    pub fn copy(&self, alloc: Global) -> Result<Decided, AllocError>
        ensures { IfOk result (λ v. v ≡ self.now) }
    {
        let entries = copy_entries(alloc, &self.entries)?;
        Ok(Decided { entries })
    }
}

fn copy_entries(alloc: Global, entries: &[(Key, bool)]) -> Result<Vec<(Key, bool)>, AllocError>
    ensures { IfOk result (λ v. v.items ≡ entries.now) }
{
    let mut list = Vec::new(alloc);
    for e in entries {
        let id = e.0.copy(alloc)?;
        list.push((id, e.1))?;
    }
    Ok(list)
}
