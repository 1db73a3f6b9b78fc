//! What is committed at once.
ghost use Rattle.std.specs.Prelude.{◌≡◌, ◌≤◌, ◌∷◌, [], IfOk, IfErr, length};

use flow_base::submission::Taken;
use std::alloc::{AllocError, Global};
use std::marker::Model;

/// Submissions that are committed together, 1 to 64.
#[derive(Drop)]
pub struct Batch {
    taken: Vec<Taken>,
}

impl Model for Batch {
    ghost use Rattle.std.specs.Prelude.{◌≤◌, List, length};
    ghost use Rattle.flow_base.specs.declared.submission.Taken.{Taken};
    ghost use Rattle.flow_commit.specs.Keeping.{batch_code};

    ghost Value = { List Taken };

    ghost coded = { batch_code };

    ghost view = { λ b. b.taken.items };

    ghost invariant = { λ b. (1 ≤ length b.taken.items) × (length b.taken.items ≤ 64) };
}

impl Batch {
    /// The batch of one submission.
    ///
    /// # Failure
    /// E01, which hands it back.
    pub fn one(alloc: Global, taken: Taken) -> Result<Batch, (Taken, AllocError)>
        ensures one { IfOk result (λ b. b ≡ taken ∷ []) }
        ensures back { IfErr result (λ e. e.0 ≡ taken) }
    {
        let mut list = Vec::new(alloc);
        if let Err(refused) = list.reserve(1) {
            return Err((taken, refused));
        }
        list.push_reserved(taken);
        Ok(Batch { taken: list })
    }

    /// The batch of these submissions, which are kept together or not at all.
    pub fn of(taken: Vec<Taken>) -> Batch
        requires some { 1 ≤ length taken.items }
        requires most { length taken.items ≤ 64 }
        ensures { result ≡ taken.items }
    {
        Batch { taken }
    }

    /// The submissions, to be read.
    pub(crate) fn as_slice(&self) -> &[Taken]
        ensures same { result.now ≡ self.now }
        ensures some { 1 ≤ length self.now }
        ensures most { length self.now ≤ 64 }
    {
        &self.taken
    }

    /// The submissions, in their order, as whoever answers a batch that isn't kept needs them.
    pub fn into_taken(self) -> Vec<Taken>
        ensures same { result.items ≡ self }
        // So they may be a batch again.
        ensures some { 1 ≤ length self }
        ensures most { length self ≤ 64 }
    {
        let Batch { taken } = self;
        taken
    }
}
