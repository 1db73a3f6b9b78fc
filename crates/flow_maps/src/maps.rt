//! What is known of a book, kept beside it: of its runs all or nothing, how many texts it has, and some of them.
ghost use Rattle.std.specs.Prelude.{MatchOption, ◌≡◌, ◌+◌, ◌++◌, ◌∷◌, [], length, IfSome, Some, true};
ghost use Rattle.flow_base.specs.declared.book.Run.{Run as ARun};
ghost use Rattle.flow_model.specs.Book as words;
ghost use Rattle.flow_model.specs.Book.{Book, nth, changed};
ghost use Rattle.flow_maps.specs.Outlooks.{outlook_of};
ghost use Rattle.flow_maps.specs.Seats.{IsSeat, Knows};
ghost use Rattle.flow_maps.specs.Undoing.{GoesBack, IsUndo, Leads, Returns};
ghost use Rattle.flow_maps.specs.KnownTexts.{KnowsTexts};
ghost use Rattle.flow_maps.specs.Serving.{Serves, KnowsFacts};
ghost use Rattle.flow_view.specs.Heads.{head_at, event_at};
ghost use Rattle.flow_view.specs.Outlines.{outline_at};

use crate::book_texts::BookTexts;
use crate::calls::find_call;
use crate::facts::Facts;
use crate::heads::copied_if;
use crate::outlook::{BookWaits, outlook};
use crate::seat::{Seat, outline_by};
use crate::time_slots::first_due;
use crate::undo::{Journal, Undo};
use flow_base::book::{Change, Due, Run};
use flow_base::event::Event;
use flow_base::number::{EventId, Moment, RunId, TextNo};
use flow_base::text::{Key, RawText};
use flow_view::head::Head;
use flow_view::outline::Outline;
use std::alloc::Global;

/// What is known of the runs, what is known of texts, and what takes the changes back that were noted since the last commit.
#[derive(Drop)]
pub struct Maps {
    facts: Option<Facts>,
    texts: BookTexts,
    journal: Journal,
}

/// What is known of the runs behind a change, and what takes the change back; where one of both isn't known, both aren't.
fn note(facts: &mut Option<Facts>, change: &Change) -> Option<Undo>
    ensures serves { (b : Book) → KnowsFacts facts.old b → KnowsFacts facts.new (changed b change.now) }
    ensures undo { IfSome result (λ u. (b : Book) → KnowsFacts facts.old b → IsUndo u b (changed b change.now)) }
{
    if let Some(known) = facts {
        if let Some(undo) = known.note(change) {
            return Some(undo);
        }
    }
    *facts = None;
    None
}

/// What is known of the runs where a change is taken back.
fn take_back(facts: &mut Option<Facts>, undo: Undo)
    ensures { (b c : Book) → IsUndo undo b c → KnowsFacts facts.old c → KnowsFacts facts.new b }
{
    if let Some(known) = facts {
        if known.take_back(undo) {
            return;
        }
    }
    *facts = None;
}

impl Maps {
    /// Nothing is known.
    pub fn unknown(alloc: Global) -> Maps
        ensures { (b : Book) → Serves result b }
    {
        Maps {
            facts: None,
            texts: BookTexts::new(alloc),
            journal: Journal::new(alloc),
        }
    }

    /// There is no run yet.
    pub fn none(alloc: Global) -> Maps
        ensures serves { (b : Book) → b.runs ≡ [] → Serves result b }
        ensures goes_back { (b : Book) → GoesBack result b b }
    {
        Maps {
            facts: Some(Facts::none(alloc)),
            texts: BookTexts::new(alloc),
            journal: Journal::new(alloc),
        }
    }

    /// From now on nothing is known, nor how to go back.
    pub fn forget(&mut self)
        ensures serves { (b : Book) → Serves self.new b }
        ensures goes_back { (b c : Book) → GoesBack self.new b c }
    {
        self.journal.lose();
        self.facts = None;
        self.texts.forget();
    }

    /// A text that came is known no more where it is there no more.
    fn take_text_back(&mut self, undo: &Undo)
        ensures texts { (b c : Book) → IsUndo undo.now b c → KnowsTexts self.old.texts c → KnowsTexts self.new.texts b }
        ensures facts { self.new.facts ≡ self.old.facts }
    {
        match undo {
            Undo::Text => self.texts.take_back(),
            Undo::Begun(_request) => {}
            Undo::Before(_before) => {}
        }
    }

    /// One change is taken back.
    fn take_back(&mut self, undo: Undo)
        ensures { (b c : Book) → IsUndo undo b c → Serves self.old c → Serves self.new b }
    {
        self.take_text_back(&undo);
        take_back(&mut self.facts, undo);
    }

    /// All these are, the newest first.
    fn take_all_back(&mut self, mut steps: Vec<Undo>)
        ensures { (b c : Book) → Leads steps.items b c → Serves self.old c → Serves self.new b }
    {
        while let Some(undo) = steps.pop() {
            self.take_back(undo);
        }
    }

    /// All that was noted is, where it is known how, and else nothing is known any more.
    fn take_noted_back(&mut self, noted: Option<Vec<Undo>>)
        ensures { (b : Book) → MatchOption noted (Unit {0}) (λ us. (c : Book) × Leads us.items b c × Serves self.old c) → Serves self.new b }
    {
        match noted {
            Some(steps) => self.take_all_back(steps),
            None => self.forget(),
        }
    }

    /// The book that was kept is shown again: of the runs that were changed is known what was known before, and where it isn't known how
    /// to go back, all is forgotten.
    pub fn go_back(&mut self)
        ensures serves { (b : Book) → Returns self.old b → Serves self.new b }
        ensures goes_back { (b : Book) → GoesBack self.new b b }
    {
        let noted = self.journal.take();
        self.take_noted_back(noted);
        self.settle();
    }

    /// The book as it is now is kept.
    pub fn settle(&mut self)
        ensures serves { (b : Book) → Serves self.old b → Serves self.new b }
        ensures goes_back { (b : Book) → GoesBack self.new b b }
    {
        let _noted = self.journal.take();
    }

    /// Whether nothing was noted since the last commit: then what is known is of the book that was kept.
    pub fn is_settled(&self) -> bool
        ensures { result ≡ true → (b : Book) → Returns self.now b → Serves self.now b }
    {
        self.journal.is_blank()
    }

    /// It isn't known any more how to go back.
    pub fn lose_way_back(&mut self)
        ensures serves { (b : Book) → Serves self.old b → Serves self.new b }
        ensures returns { (b : Book) → Returns self.new b }
        ensures goes_back { (b c : Book) → GoesBack self.new b c }
    {
        self.journal.lose();
    }

    /// One more run, which was read whole.
    pub fn add_whole(&mut self, whole: &Run)
        ensures serves { (b : Book) → Serves self.old b → Serves self.new (record b { runs = b.runs ++ whole.now ∷ [] }) }
        ensures journal { self.new.journal ≡ self.old.journal }
    {
        if let Some(facts) = &mut self.facts {
            if facts.add_whole(whole) {
                return;
            }
        }
        self.facts = None;
    }

    /// This is the text of a number. It is known from now on, if there is memory for it.
    pub fn keep_text(&mut self, number: TextNo, body: &RawText)
        ensures serves { (b : Book) → nth b.texts number ≡ Some body.now → Serves self.old b → Serves self.new b }
        ensures journal { self.new.journal ≡ self.old.journal }
    {
        if self.texts.bodies.has(number) {
            return;
        }
        self.texts.bodies.keep_copy(number, body);
    }

    /// There are so many texts.
    pub fn count_texts(&mut self, count: u64)
        ensures serves { (b : Book) → length b.texts ≡ count → Serves self.old b → Serves self.new b }
        ensures journal { self.new.journal ≡ self.old.journal }
    {
        self.texts.count_all(count);
    }

    /// The book is changed so.
    pub fn note(&mut self, change: &Change)
        ensures serves { (b : Book) → Serves self.old b → Serves self.new (changed b change.now) }
        ensures goes_back { (k b : Book) → Serves self.old b → GoesBack self.old k b → GoesBack self.new k (changed b change.now) }
    {
        let undo = note(&mut self.facts, change);
        self.texts.follow(change);
        self.journal.add(undo);
    }

    /// The run that a request started, if that is known.
    pub fn requested(&self, request: &Key) -> Option<Option<RunId>>
        ensures { IfSome result (λ o. (b : Book) → Serves self.now b → o ≡ words.requested b request.now) }
    {
        match &self.facts {
            Some(facts) => facts.runs.requests.find(request),
            None => None,
        }
    }

    /// The open run of a flow, if that is known.
    pub fn open_run(&self, flow: &Key) -> Option<Option<RunId>>
        ensures { IfSome result (λ o. (b : Book) → Serves self.now b → o ≡ words.open_run b flow.now) }
    {
        match &self.facts {
            Some(facts) => facts.runs.seats.flows.find(flow),
            None => None,
        }
    }

    /// What is known of a run, if it is open.
    pub fn seat(&self, run: RunId) -> Option<&Seat>
        ensures { IfSome result (λ s. (b : Book) → Serves self.now b → (r : ARun) × (nth b.runs run ≡ Some r) × IsSeat s.now r) }
    {
        match &self.facts {
            Some(facts) => facts.runs.seats.seat(run),
            None => None,
        }
    }

    /// The head of a run, if it is known and there is memory for it.
    pub fn head(&self, run: RunId) -> Option<Head>
        ensures { IfSome result (λ h. (b : Book) → Serves self.now b → Some h ≡ head_at b.runs run) }
    {
        match self.seat(run) {
            Some(seat) => copied_if(self.journal.alloc, &seat.head),
            None => None,
        }
    }

    /// How a run stands, if it is open, that is known, and there is memory for it.
    pub fn outline(&self, run: RunId) -> Option<Outline>
        ensures { IfSome result (λ o. (b : Book) → Serves self.now b → Some o ≡ outline_at b.runs run) }
    {
        match self.seat(run) {
            Some(seat) => outline_by(self.journal.alloc, seat),
            None => None,
        }
    }

    /// An event of a run, if it is known and there is memory for it.
    pub fn event(&self, run: RunId, event: EventId) -> Option<Event>
        ensures { IfSome result (λ e. (b : Book) → Serves self.now b → Some e ≡ event_at b.runs run event) }
    {
        match self.seat(run) {
            Some(seat) => find_call(self.journal.alloc, seat.calls.as_slice(), event),
            None => None,
        }
    }

    /// The text of a number, if it is known and there is memory for it.
    pub fn text(&self, number: TextNo) -> Option<RawText>
        ensures { IfSome result (λ t. (b : Book) → Serves self.now b → Some t ≡ nth b.texts number) }
    {
        self.texts.bodies.find(number)
    }

    /// How many texts there are, if that is known.
    pub fn text_count(&self) -> Option<u64>
        ensures { IfSome result (λ n. (b : Book) → Serves self.now b → n ≡ length b.texts) }
    {
        self.texts.count
    }

    /// How many runs there are, if that is known.
    pub fn run_count(&self) -> Option<u64>
        ensures { IfSome result (λ n. (b : Book) → Serves self.now b → n ≡ length b.runs) }
    {
        match &self.facts {
            Some(facts) => Some(facts.runs.count),
            None => None,
        }
    }

    /// The open timer that is due first, of those that are due by a moment, if that is known.
    pub fn least_due(&self, at: Moment) -> Option<Option<Due>>
        ensures { IfSome result (λ o. (b : Book) → Serves self.now b → o ≡ words.least_due b at) }
    {
        match &self.facts {
            Some(facts) => first_due(&facts.runs.seats.due, at),
            None => None,
        }
    }

    /// What the book waits for at a moment, and not before another, if that is known and there is memory for the list.
    pub fn outlook(&self, since: u64, at: Moment) -> Option<BookWaits>
        ensures { IfSome result (λ v. (b : Book) → Serves self.now b → v ≡ outlook_of since at b) }
    {
        match &self.facts {
            Some(facts) => outlook(self.journal.alloc, &facts.runs.seats, since, at),
            None => None,
        }
    }

    /// Where the signal of a request is recorded in the runs of a flow, if that is known.
    pub fn signalled(&self, flow: &Key, request: &Key) -> Option<Option<(RunId, EventId)>>
        ensures { IfSome result (λ o. (b : Book) → Serves self.now b → o ≡ words.signalled b flow.now request.now) }
    {
        match &self.facts {
            Some(facts) => facts.signals.find(flow, request),
            None => None,
        }
    }
}
