//! The book that rows tell, for contracts alone: a run of which nobody wants anything more is let go of, and the book still has it.
ghost use Rattle.std.specs.Prelude.{◌≡◌, ◌++◌, ◌∷◌, [], map};
ghost use Rattle.flow_model.specs.Book.{no_book};
ghost use Rattle.flow_rows.specs.Told.{body_of};
ghost use Rattle.flow_rows.specs.Whole as whole;
ghost use Rattle.flow_tables.specs.Unread.{shown_book};

use flow_base::book::Run;
use flow_base::sequence::Sequence;
use flow_base::text::RawText;
use flow_rows::book::WholeBook;
use flow_rows::rows::TextRow;
use unseen::{Listed, Makes};

// No text, and no run.
struct Nothing;

impl<E> Makes<(), E> for Nothing {
    ghost use Rattle.std.specs.Prelude.{[]};

    ghost list = { λ _. [] };
}

// These.
struct Members;

impl<E> Makes<Sequence<E>, E> for Members {
    ghost list = { λ s. s };
}

// The texts of these rows.
struct Bodies;

impl Makes<Vec<TextRow>, RawText> for Bodies {
    ghost use Rattle.std.specs.Prelude.{map};
    ghost use Rattle.flow_rows.specs.Told.{body_of};

    ghost list = { λ v. map body_of v.items };
}

// The runs, and behind them this one.
struct OneMore;

impl Makes<(Listed<Run>, &Run), Run> for OneMore {
    ghost use Rattle.std.specs.Prelude.{[], ◌∷◌, ◌++◌};

    ghost list = { λ p. p.0 ++ p.1.now ∷ [] };
}

/// No run yet.
pub(crate) fn no_runs() -> Listed<Run>
    ensures { result ≡ [] }
{
    Listed::of::<(), Nothing>(&())
}

/// The runs that were told, and one more.
pub(crate) fn with_one(runs: &Listed<Run>, run: &Run) -> Listed<Run>
    ensures { result ≡ runs.now ++ run.now ∷ [] }
{
    Listed::of::<(Listed<Run>, &Run), OneMore>(&(runs.again(), run))
}

/// A book that no code reads. It has no bytes.
#[derive(Drop)]
pub struct ToldBook {
    texts: Listed<RawText>,
    runs: Listed<Run>,
}

impl ToldBook {
    /// The empty book.
    pub fn none() -> ToldBook
        ensures { shown_book result ≡ no_book }
    {
        ToldBook {
            texts: Listed::of::<(), Nothing>(&()),
            runs: no_runs(),
        }
    }

    /// The book of a list of texts and these runs.
    pub(crate) fn of_rows(texts: &Vec<TextRow>, runs: Listed<Run>) -> ToldBook
        ensures { shown_book result ≡ record { texts = map body_of texts.now.items; runs = runs } }
    {
        ToldBook {
            texts: Listed::of::<Vec<TextRow>, Bodies>(texts),
            runs,
        }
    }

    /// The same as a book in lists.
    pub fn of_lists(book: &WholeBook) -> ToldBook
        ensures { shown_book result ≡ whole.shown_book book.now }
    {
        ToldBook {
            texts: Listed::of::<Sequence<RawText>, Members>(&book.texts),
            runs: Listed::of::<Sequence<Run>, Members>(&book.runs),
        }
    }
}
