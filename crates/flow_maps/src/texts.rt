//! The texts that runs were last started and went on with, in memory, so that no statement asks for them.
ghost use Rattle.std.specs.Prelude.{◌≡◌, ◌++◌, ◌∷◌, [], ℕ, IfSome, Option, Some, None, cond, true};
ghost use Rattle.std.specs.BTreeMap.{get, IsUpperBound};
ghost use Rattle.std.specs.Ordering.{nat_cmp};
ghost use Rattle.flow_base.specs.Syntax.{Bytes};
ghost use Rattle.flow_model.specs.Book.{Book, nth};
ghost use Rattle.flow_maps.specs.KnownTexts.{KnowsBodies};
ghost use Rattle.flow_maps.specs.OfRuns.{is_run};

use flow_base::number::TextNo;
use flow_base::text::RawText;
use std::alloc::Global;
use std::collections::BTreeMap;

/// The most bytes of texts that are kept: where more come, all are forgotten.
const MOST_BYTES: usize = 1_048_576;

/// Texts by their numbers.
#[derive(Drop)]
pub struct TextBodies {
    alloc: Global,
    known: BTreeMap<u64, RawText>,
    /// How many bytes they have.
    bytes: usize,
}

fn copied(alloc: Global, body: &RawText) -> Option<RawText>
    ensures { IfSome result (λ t. t ≡ body.now) }
{
    match body.copy(alloc) {
        Ok(body) => Some(body),
        Err(_) => None,
    }
}

/// Whether there was memory for it.
fn insert(known: &mut BTreeMap<u64, RawText>, number: TextNo, body: RawText) -> bool
    ensures { result ≡ true → (n : ℕ) → get nat_cmp known.new n ≡ cond (is_run number n) (Some body) (get nat_cmp known.old n) }
{
    known.insert(number.get(), body).is_ok()
}

/// The last of the texts that are known, taken out.
fn take_last(known: &mut BTreeMap<u64, RawText>) -> Option<(u64, RawText)>
    ensures there { IfSome result (λ p. get nat_cmp known.old p.0 ≡ Some p.1) }
    ensures last { IfSome result (λ p. IsUpperBound nat_cmp known.old p.0) }
    ensures others { IfSome result (λ p. (n : ℕ) → get nat_cmp known.new n ≡ cond (is_run p.0 n) None (get nat_cmp known.old n)) }
{
    known.pop_last()
}

impl TextBodies {
    /// None is known.
    pub fn new(alloc: Global) -> TextBodies
        ensures { (b : Book) → KnowsBodies result b }
    {
        TextBodies {
            alloc,
            known: BTreeMap::new(alloc),
            bytes: 0,
        }
    }

    /// From now on none is known.
    pub fn forget(&mut self)
        ensures { (b : Book) → KnowsBodies self.new b }
    {
        self.known = BTreeMap::new(self.alloc);
        self.bytes = 0;
    }

    /// The text of a number, if it is known and there is memory for it.
    pub fn find(&self, number: TextNo) -> Option<RawText>
        ensures { IfSome result (λ t. (b : Book) → KnowsBodies self.now b → Some t ≡ nth b.texts number) }
    {
        match self.known.get(&number.get()) {
            Some(body) => copied(self.alloc, body),
            None => None,
        }
    }

    /// Whether the text of a number is known.
    pub fn has(&self, number: TextNo) -> bool {
        self.known.contains_key(&number.get())
    }

    /// There is room for so many bytes more.
    fn make_room(&mut self, bytes: usize)
        ensures { (b : Book) → KnowsBodies self.old b → KnowsBodies self.new b }
    {
        if bytes > MOST_BYTES || self.bytes > MOST_BYTES - bytes {
            self.forget();
        }
        if bytes <= MOST_BYTES && self.bytes <= MOST_BYTES - bytes {
            self.bytes += bytes;
        }
    }

    /// The last text is there no more, if it is known. Another one that is the last of those that are known may be forgotten.
    pub fn take_back(&mut self)
        ensures { (b : Book) → (t : Bytes) → KnowsBodies self.old (record b { texts = b.texts ++ t ∷ [] }) → KnowsBodies self.new b }
    {
        match take_last(&mut self.known) {
            Some(last) => self.bytes = self.bytes.saturating_sub(last.1.as_str().len()),
            None => self.forget(),
        }
    }

    fn put(&mut self, number: TextNo, body: RawText)
        ensures { (b : Book) → nth b.texts number ≡ Some body → KnowsBodies self.old b → KnowsBodies self.new b }
    {
        if !insert(&mut self.known, number, body) {
            self.forget();
        }
    }

    /// A copy of this is kept as the text of a number, if that is known and there is memory for it.
    pub fn keep_next(&mut self, number: &Option<TextNo>, body: &RawText)
        ensures { (b : Book) → IfSome number.now (λ n. nth b.texts n ≡ Some body.now) → KnowsBodies self.old b → KnowsBodies self.new b }
    {
        match number {
            Some(number) => self.keep_copy(*number, body),
            None => {}
        }
    }

    /// The same of a number that is known.
    pub fn keep_copy(&mut self, number: TextNo, body: &RawText)
        ensures { (b : Book) → nth b.texts number ≡ Some body.now → KnowsBodies self.old b → KnowsBodies self.new b }
    {
        match copied(self.alloc, body) {
            Some(copy) => self.keep(number, copy),
            None => {}
        }
    }

    /// This is the text of a number. One that is longer than all room isn't kept.
    pub fn keep(&mut self, number: TextNo, body: RawText)
        ensures { (b : Book) → nth b.texts number ≡ Some body → KnowsBodies self.old b → KnowsBodies self.new b }
    {
        let bytes = body.as_str().len();
        if bytes <= MOST_BYTES {
            self.make_room(bytes);
            self.put(number, body);
        }
    }
}
