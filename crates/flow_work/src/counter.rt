//! The thread that submits lines, prints their replies in the order of the lines, and prints tasks in between.
ghost use Rattle.std.specs.Prelude.{◌≡◌, ◌⊎◌, ◌<◌, [], ◌∷◌, ◌++◌, ℕ, List, Option, true, false, length};
ghost use Rattle.flow_work.specs.Counting.{Counted, Counts, Goes, is_open, is_task};
ghost use Rattle.flow_work.specs.Inputs.{Takes, lines_in};
ghost use Rattle.flow_work.specs.Questions.{line_served};
ghost use Rattle.flow_work.specs.Silence.{AnswersOldest, EndsServed, HasAll, IsHeldUp, IsServed, IsShut, IsStep, Listens, Quits};

use crate::desk::Desk;
use crate::giving::Giving;
use crate::input::InputMessage;
use crate::lines::{no_lines, with_line};
use crate::page::Page;
use crate::question::Accepted;
use flow_base::text::RawText;
use flow_hub::fed::Fed;
use flow_hub::feed::Feed;
use flow_hub::seats::Room;
use flow_hub::submitter::Submitter;
use flow_timers::Clock;
use std::io::Write;
use std::snapshot::Snapshot;
use std::sync::Wait;
use std::time;
use unseen::Listed;

/// Whether more may come.
fn is_open(fed: &Fed) -> bool
    ensures { result ≡ is_open fed.now }
{
    !matches!(fed, Fed::Closed)
}

fn is_task(fed: &Fed) -> bool
    ensures { result ≡ is_task fed.now }
{
    matches!(fed, Fed::Task(_))
}

/// A desk, and who gives out the tasks that it prints.
#[derive(Drop)]
pub(crate) struct Counter<B: Room, W: Write> {
    desk: Desk<B, W>,
    feed: Feed<B>,
    /// The lines that were taken in, for contracts alone.
    lines: Listed<RawText>,
}

/// What is left of a counter: what was printed, who submitted and gave tasks out, and which lines were taken in.
#[derive(Drop)]
pub(crate) struct Told<B: Room, W: Write> {
    pub(crate) page: Page<W>,
    pub(crate) submitter: Submitter<B>,
    pub(crate) feed: Feed<B>,
    pub(crate) lines: Listed<RawText>,
}

impl<B: Room, W: Write + Drop> Counter<B, W> {
    /// Answers lines at this desk, and prints what is given out here.
    pub(crate) fn new(desk: Desk<B, W>, feed: Feed<B>) -> Counter<B, W>
        ensures { (result.desk ≡ desk) × (result.feed ≡ feed) × (result.lines ≡ []) }
    {
        Counter {
            desk,
            feed,
            lines: no_lines(),
        }
    }

    /// What is left of it.
    pub(crate) fn into_told(self) -> Told<B, W>
        ensures { (result.page ≡ self.desk.page) × (result.submitter ≡ self.desk.submitter) × (result.feed ≡ self.feed)
            × (result.lines ≡ self.lines) }
    {
        let Counter { desk, feed, lines } = self;
        let (page, submitter) = desk.into_parts();
        Told {
            page,
            submitter,
            feed,
            lines,
        }
    }

    /// Takes in a line. No where nothing is answered any more.
    fn take<R: Wait + time::Clock, C: Clock>(&mut self, rt: &R, clock: &C, line: Vec<u8>) -> bool
        requires { length self.old.desk.pending.lines.items < 64 }
        ensures counted { (first : Option (List ℕ)) → Counts line_served
            (C.tells clock.now) first self.old.feed self.old.desk.submitter self.old.desk.pending.lines.items self.old.lines self.old.desk.page
            → Goes line_served (C.tells clock.now) first result self.new.feed self.new.desk.submitter self.new.desk.pending.lines.items self.new.lines self.new.desk.page }
        ensures quits { (first : Option (List ℕ)) → Counts line_served
            (C.tells clock.now) first self.old.feed self.old.desk.submitter self.old.desk.pending.lines.items self.old.lines self.old.desk.page
            → result ≡ false → Quits line_served (C.tells clock.now) self.new.desk.submitter }
        ensures lines { self.new.lines ≡ self.old.lines ++ line.items ∷ [] }
    {
        let read = Snapshot::of(&line);
        let goes_on = self.desk.take_line(rt, clock, Accepted::QuestionsToo, line);
        let lines = with_line(&self.lines, read);
        self.lines = lines;
        goes_on
    }

    /// Prints the task that is given out next, or sleeps until there is something else to be done. No where nothing is any more.
    fn listen<R: Wait + time::Clock, C: Clock>(&mut self, rt: &R, _clock: &C) -> bool
        ensures counted { (first : Option (List ℕ)) → Counts line_served
            (C.tells _clock.now) first self.old.feed self.old.desk.submitter self.old.desk.pending.lines.items self.old.lines self.old.desk.page
            → Goes line_served (C.tells _clock.now) first result self.new.feed self.new.desk.submitter self.new.desk.pending.lines.items self.new.lines self.new.desk.page }
        ensures closed { result ≡ false → self.new.feed.closed ≡ true }
        ensures listens { Listens self.old.feed self.new.feed }
        ensures lines { self.new.lines ≡ self.old.lines }
    {
        let fed = self.feed.listen(rt);
        self.desk.print_fed(rt, &fed);
        is_open(&fed)
    }

    /// Prints one more of the tasks that are ready once all that was submitted is answered. No where there is none.
    fn print_last<R: Wait + time::Clock, C: Clock>(&mut self, rt: &R, _clock: &C) -> bool
        ensures counted { (first : Option (List ℕ)) → Counted line_served
            (C.tells _clock.now) first self.old.feed self.old.desk.submitter self.old.lines self.old.desk.page
            → Counted line_served (C.tells _clock.now) first self.new.feed self.new.desk.submitter self.new.lines self.new.desk.page }
        ensures all { result ≡ false → HasAll self.new.feed }
        ensures pending { self.new.desk.pending.lines.items ≡ self.old.desk.pending.lines.items }
        ensures submitter { self.new.desk.submitter ≡ self.old.desk.submitter }
        ensures failed { self.old.desk.page.status ≡ 3 → self.new.desk.page.status ≡ 3 }
        ensures lines { self.new.lines ≡ self.old.lines }
    {
        let fed = self.feed.last(rt);
        self.desk.print_fed(rt, &fed);
        is_task(&fed)
    }

    /// Prints all of these.
    fn print_all<R: Wait + time::Clock, C: Clock>(&mut self, rt: &R, clock: &C)
        ensures counted { (first : Option (List ℕ)) → Counted line_served
            (C.tells clock.now) first self.old.feed self.old.desk.submitter self.old.lines self.old.desk.page
            → Counted line_served (C.tells clock.now) first self.new.feed self.new.desk.submitter self.new.lines self.new.desk.page }
        ensures all { HasAll self.new.feed }
        ensures pending { self.new.desk.pending.lines.items ≡ self.old.desk.pending.lines.items }
        ensures submitter { self.new.desk.submitter ≡ self.old.desk.submitter }
        ensures failed { self.old.desk.page.status ≡ 3 → self.new.desk.page.status ≡ 3 }
        ensures lines { self.new.lines ≡ self.old.lines }
    {
        'tasks: for _ in rt.forever() {
            if !self.print_last(rt, clock) {
                return;
            }
        }
        unreachable!()
    }

    /// Prints all replies that are to come, and then the tasks that are ready.
    fn end<R: Wait + time::Clock, C: Clock>(&mut self, rt: &R, clock: &C)
        ensures counted { (first : Option (List ℕ)) → Counts line_served
            (C.tells clock.now) first self.old.feed self.old.desk.submitter self.old.desk.pending.lines.items self.old.lines self.old.desk.page
            → Counted line_served (C.tells clock.now) first self.new.feed self.new.desk.submitter self.new.lines self.new.desk.page }
        ensures ends { (first : Option (List ℕ)) → Counts line_served
            (C.tells clock.now) first self.old.feed self.old.desk.submitter self.old.desk.pending.lines.items self.old.lines self.old.desk.page
            → ((self.new.desk.pending.lines.items ≡ []) × HasAll self.new.feed)
            ⊎ IsShut line_served (C.tells clock.now) self.new.desk.submitter self.new.feed }
        ensures failed { self.old.desk.page.status ≡ 3 → self.new.desk.page.status ≡ 3 }
        ensures lines { self.new.lines ≡ self.old.lines }
    {
        self.desk.tell_all(rt);
        self.print_all(rt, clock);
    }

    /// As `end`, where the input can't be read any more.
    fn fail<R: Wait + time::Clock, C: Clock>(&mut self, rt: &R, clock: &C)
        ensures counted { (first : Option (List ℕ)) → Counts line_served
            (C.tells clock.now) first self.old.feed self.old.desk.submitter self.old.desk.pending.lines.items self.old.lines self.old.desk.page
            → Counted line_served (C.tells clock.now) first self.new.feed self.new.desk.submitter self.new.lines self.new.desk.page }
        ensures ends { (first : Option (List ℕ)) → Counts line_served
            (C.tells clock.now) first self.old.feed self.old.desk.submitter self.old.desk.pending.lines.items self.old.lines self.old.desk.page
            → ((self.new.desk.pending.lines.items ≡ []) × HasAll self.new.feed × (self.new.desk.page.status ≡ 3))
            ⊎ IsShut line_served (C.tells clock.now) self.new.desk.submitter self.new.feed }
        ensures lines { self.new.lines ≡ self.old.lines }
    {
        self.desk.fail();
        self.end(rt, clock);
    }

    /// Prints the oldest reply; where nothing is to be answered, a task, or sleeps until there is something. No where it is over.
    fn tell<R: Wait + time::Clock, C: Clock>(&mut self, rt: &R, clock: &C) -> bool
        ensures counted { (first : Option (List ℕ)) → Counts line_served
            (C.tells clock.now) first self.old.feed self.old.desk.submitter self.old.desk.pending.lines.items self.old.lines self.old.desk.page
            → Goes line_served (C.tells clock.now) first result self.new.feed self.new.desk.submitter self.new.desk.pending.lines.items self.new.lines self.new.desk.page }
        ensures shut { (first : Option (List ℕ)) → Counts line_served
            (C.tells clock.now) first self.old.feed self.old.desk.submitter self.old.desk.pending.lines.items self.old.lines self.old.desk.page
            → result ≡ false → IsShut line_served (C.tells clock.now) self.new.desk.submitter self.new.feed }
        ensures does { AnswersOldest self.old.desk.pending.lines.items self.new.desk.pending.lines.items
            ⊎ Listens self.old.feed self.new.feed }
        ensures lines { self.new.lines ≡ self.old.lines }
    {
        if self.desk.has_pending() {
            return self.desk.tell_oldest(rt);
        }
        self.listen(rt, clock)
    }

    /// Does what is to be done of what was read. No where it is no line and all is printed, or nothing is answered any more.
    #[tactic(auto, using(crate::proofs::Counting::goes_over, crate::proofs::Counting::counted))]
    fn deal<R: Wait + time::Clock, C: Clock>(
        &mut self,
        rt: &R,
        clock: &C,
        input: InputMessage,
    ) -> bool
        requires { length self.old.desk.pending.lines.items < 64 }
        ensures counted { (first : Option (List ℕ)) → Counts line_served
            (C.tells clock.now) first self.old.feed self.old.desk.submitter self.old.desk.pending.lines.items self.old.lines self.old.desk.page
            → Goes line_served (C.tells clock.now) first result self.new.feed self.new.desk.submitter self.new.desk.pending.lines.items self.new.lines self.new.desk.page }
        ensures shut { (first : Option (List ℕ)) → Counts line_served
            (C.tells clock.now) first self.old.feed self.old.desk.submitter self.old.desk.pending.lines.items self.old.lines self.old.desk.page
            → result ≡ false → IsServed input self.new.desk.pending.lines.items self.new.feed
            self.new.desk.page.status ⊎ IsShut line_served (C.tells clock.now) self.new.desk.submitter self.new.feed }
        ensures lines { Takes input self.old.lines self.new.lines }
    {
        match input {
            InputMessage::Line(line) => self.take(rt, clock, line),
            InputMessage::Ended => {
                self.end(rt, clock);
                false
            }
            InputMessage::Failed => {
                self.fail(rt, clock);
                false
            }
            InputMessage::Stopped => false,
        }
    }

    /// Takes in the line that is there; else tells of what it has. So a worker that writes its report before it reads on is never
    /// waited for by one who waits for it: a task is printed only where no report waits. No where it is over.
    fn step<R: Wait + time::Clock, C: Clock, G: Giving>(
        &mut self,
        rt: &R,
        clock: &C,
        inputs: &mut G,
    ) -> bool
        ensures counted { (first : Option (List ℕ)) → Counts line_served
            (C.tells clock.now) first self.old.feed self.old.desk.submitter self.old.desk.pending.lines.items self.old.lines self.old.desk.page
            → Goes line_served (C.tells clock.now) first result self.new.feed self.new.desk.submitter self.new.desk.pending.lines.items self.new.lines self.new.desk.page }
        ensures ends { (first : Option (List ℕ)) → Counts line_served
            (C.tells clock.now) first self.old.feed self.old.desk.submitter self.old.desk.pending.lines.items self.old.lines self.old.desk.page
            → result ≡ false → EndsServed line_served (C.tells clock.now) self.new.desk.submitter self.new.desk.pending.lines.items
            self.new.feed self.new.desk.page.status (G.given inputs.new) }
        // No round passes in which nothing is done.
        ensures steps { IsStep (G.given inputs.old) (G.given inputs.new)
            ((AnswersOldest self.old.desk.pending.lines.items self.new.desk.pending.lines.items
            ⊎ Listens self.old.feed self.new.feed) × IsHeldUp self.old.desk.pending.lines.items (G.lacks inputs.new)) }
        ensures lines { self.old.lines ≡ lines_in (G.given inputs.old) → self.new.lines ≡ lines_in (G.given inputs.new) }
    {
        match self.desk.ready_input(rt, inputs) {
            Some(input) => self.deal(rt, clock, input),
            None => self.tell(rt, clock),
        }
    }

    /// Submits the lines that are read, each at the moment that the clock tells then, and prints their replies in the order of the
    /// lines, and tasks in between, until the input has ended and all is printed, or nothing is answered any more.
    pub(crate) fn serve_lines<R: Wait + time::Clock, C: Clock, G: Giving>(
        &mut self,
        rt: &R,
        clock: &C,
        inputs: &mut G,
    )
        ensures counted { (first : Option (List ℕ)) → Counts line_served
            (C.tells clock.now) first self.old.feed self.old.desk.submitter self.old.desk.pending.lines.items self.old.lines self.old.desk.page
            → Counted line_served (C.tells clock.now) first self.new.feed self.new.desk.submitter self.new.lines self.new.desk.page }
        ensures ends { (first : Option (List ℕ)) → Counts line_served
            (C.tells clock.now) first self.old.feed self.old.desk.submitter self.old.desk.pending.lines.items self.old.lines self.old.desk.page
            → EndsServed line_served (C.tells clock.now) self.new.desk.submitter self.new.desk.pending.lines.items
            self.new.feed self.new.desk.page.status (G.given inputs.new) }
        ensures lines { self.old.lines ≡ lines_in (G.given inputs.old) → self.new.lines ≡ lines_in (G.given inputs.new) }
    {
        'steps: for _ in rt.forever() {
            if !self.step(rt, clock, inputs) {
                return;
            }
        }
        unreachable!()
    }
}
