//! What is kept of the runs of a book while its rows are gone through: what the maps know of them. Whoever listens is told of each run,
//! which is then let go of.
ghost use Rattle.std.specs.Prelude.{◌≡◌, ◌+◌, ◌++◌, ◌∷◌, [], List, length, map};
ghost use Rattle.flow_base.specs.Syntax.{Bytes};
ghost use Rattle.flow_base.specs.declared.book.Run.{Run as ARun};
ghost use Rattle.flow_rows.specs.Told.{body_of};
ghost use Rattle.flow_tables.specs.Unread.{AreTold};

use crate::listener::{Listener, nth_of};
use crate::unread::{no_runs, with_one};
use flow_base::book::Run;
use flow_base::number::RunId;
use flow_maps::maps::Maps;
use flow_rows::pass::Onlooker;
use flow_rows::rows::TextRow;
use std::alloc::{AllocError, Global};
use unseen::Listed;

/// The runs that were told so far.
#[derive(Drop)]
pub(crate) struct ToldRuns<L> {
    pub(crate) maps: Maps,
    /// They themselves, for contracts alone.
    pub(crate) runs: Listed<Run>,
    pub(crate) listener: L,
}

/// Tells a run to who listens.
fn tell<L: Listener>(alloc: Global, listener: &mut L, texts: &[TextRow], number: RunId, run: &Run)
    ensures { (rs : List ARun) → number ≡ length rs + 1 → L.heard listener.old (map body_of texts.now) rs
        → L.heard listener.new (map body_of texts.now) (rs ++ run.now ∷ []) }
{
    match nth_of(texts, run.text.get()) {
        Some(row) => listener.hear(alloc, number, run, &row.body),
        None => listener.hear_without(alloc, number, run),
    }
}

impl<L: Listener> ToldRuns<L> {
    /// For who listens.
    pub(crate) fn new(alloc: Global, listener: L) -> ToldRuns<L> {
        ToldRuns {
            maps: Maps::none(alloc),
            runs: no_runs(),
            listener,
        }
    }

    /// Begins anew: no run was told.
    pub(crate) fn begin(&mut self, alloc: Global)
        ensures { (texts : List Bytes) → AreTold L.heard texts self.new.maps self.new.runs self.new.listener [] }
    {
        self.maps = Maps::none(alloc);
        self.runs = no_runs();
        self.listener.begin(alloc);
    }

    /// The book has so many texts.
    pub(crate) fn count_texts(&mut self, count: u64)
        ensures { (texts : List Bytes) → (rs : List ARun) → length texts ≡ count
            → AreTold L.heard texts self.old.maps self.old.runs self.old.listener rs
            → AreTold L.heard texts self.new.maps self.new.runs self.new.listener rs }
    {
        self.maps.count_texts(count);
    }
}

impl<L: Listener> Onlooker for ToldRuns<L> {
    ghost use Rattle.std.specs.Prelude.{map};
    ghost use Rattle.flow_rows.specs.Told.{body_of};
    ghost use Rattle.flow_tables.specs.Unread.{AreTold};

    ghost seen = { λ k texts rs. AreTold L.heard (map body_of texts) k.maps k.runs k.listener rs };

    fn see(
        &mut self,
        alloc: Global,
        texts: &[TextRow],
        number: RunId,
        run: Run,
    ) -> Result<(), AllocError> {
        self.maps.add_whole(&run);
        self.runs = with_one(&self.runs, &run);
        tell(alloc, &mut self.listener, texts, number, &run);
        Ok(())
    }
}
