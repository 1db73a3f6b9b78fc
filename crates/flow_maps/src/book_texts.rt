//! What is known of the texts of a book: how many there are, and some of them, so that no statement asks for them.
ghost use Rattle.std.specs.Prelude.{◌≡◌, ◌+◌, ◌++◌, ◌∷◌, [], ℕ, IfSome, length};
ghost use Rattle.flow_base.specs.Syntax.{Bytes};
ghost use Rattle.flow_base.specs.declared.book.Change.TheVariants.{AddText};
ghost use Rattle.flow_model.specs.Book.{Book, changed};
ghost use Rattle.flow_maps.specs.KnownTexts.{KnowsTexts};

use crate::texts::TextBodies;
use flow_base::book::Change;
use flow_base::number::{LAST_NUMBER, TextNo};
use flow_base::text::RawText;
use std::alloc::Global;

/// The texts of a book, as far as they are known.
#[derive(Drop)]
pub struct BookTexts {
    pub(crate) bodies: TextBodies,
    /// How many there are, if that is known.
    pub(crate) count: Option<u64>,
}

/// The number of the text after so many.
fn next_text(count: Option<u64>) -> Option<TextNo>
    ensures { (k : ℕ) → IfSome count (λ c. c ≡ k) → IfSome result (λ n. n ≡ k + 1) }
{
    match count {
        Some(known) => {
            if known >= LAST_NUMBER {
                return None;
            }
            Some(TextNo::new(known + 1).unwrap())
        }
        None => None,
    }
}

/// How many texts there are, by the number of the last one.
fn count_of(last: &Option<TextNo>) -> Option<u64>
    ensures { (k : ℕ) → IfSome last.now (λ n. n ≡ k) → IfSome result (λ c. c ≡ k) }
{
    match last {
        Some(number) => Some(number.get()),
        None => None,
    }
}

/// One text less.
fn one_less(count: Option<u64>) -> Option<u64>
    ensures { (k : ℕ) → IfSome count (λ c. c ≡ k + 1) → IfSome result (λ c. c ≡ k) }
{
    match count {
        Some(known) => {
            if known == 0 {
                return None;
            }
            Some(known - 1)
        }
        None => None,
    }
}

impl BookTexts {
    /// Nothing is known.
    pub fn new(alloc: Global) -> BookTexts
        ensures { (b : Book) → KnowsTexts result b }
    {
        BookTexts {
            bodies: TextBodies::new(alloc),
            count: None,
        }
    }

    /// From now on nothing is known.
    pub fn forget(&mut self)
        ensures { (b : Book) → KnowsTexts self.new b }
    {
        self.bodies.forget();
        self.count = None;
    }

    /// There are so many texts.
    pub fn count_all(&mut self, count: u64)
        ensures { (b : Book) → length b.texts ≡ count → KnowsTexts self.old b → KnowsTexts self.new b }
    {
        self.count = Some(count);
    }

    /// One more text, which is kept under its number, if that is known.
    fn add(&mut self, body: &RawText)
        ensures { (b : Book) → KnowsTexts self.old b → KnowsTexts self.new (changed b (AddText body.now)) }
    {
        let next = next_text(self.count);
        let count = count_of(&next);
        self.bodies.keep_next(&next, body);
        self.count = count;
    }

    /// The book is changed so.
    pub fn follow(&mut self, change: &Change)
        ensures { (b : Book) → KnowsTexts self.old b → KnowsTexts self.new (changed b change.now) }
    {
        match change {
            Change::AddText(body) => self.add(body),
            Change::AddRun(_, _, _text, _) => {}
            Change::AddTurn(_run, _) => {}
            Change::SetAttempt(_run, _, _, _) => {}
            Change::SetText(_run, _) => {}
        }
    }

    /// The last text is there no more.
    pub fn take_back(&mut self)
        ensures { (b : Book) → (t : Bytes) → KnowsTexts self.old (record b { texts = b.texts ++ t ∷ [] }) → KnowsTexts self.new b }
    {
        let fewer = one_less(self.count);
        self.bodies.take_back();
        self.count = fewer;
    }
}
