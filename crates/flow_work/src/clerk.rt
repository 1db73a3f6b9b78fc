//! The thread that submits lines and prints their replies in the order of the lines.
ghost use Rattle.std.specs.Prelude.{◌≡◌, ◌⊎◌, ◌<◌, [], ◌∷◌, ◌++◌, ℕ, List, Option, false, length};
ghost use Rattle.flow_lines.specs.Commands.{line_command};
ghost use Rattle.flow_hub.specs.Knowing.{IsBefore, nothing};
ghost use Rattle.flow_work.specs.Counting.{Counted, Counts, Goes, Owes};
ghost use Rattle.flow_work.specs.Inputs.{Takes, lines_in};
ghost use Rattle.flow_work.specs.Printing.{blank};
ghost use Rattle.flow_work.specs.Resting.{HasRested};
ghost use Rattle.flow_work.specs.Silence.{AnswersOldest, EndsTaking, HasEnded, IsFewer, IsHeldUp, IsOver, IsStep, Quits};

use crate::desk::Desk;
use crate::giving::Giving;
use crate::input::InputMessage;
use crate::lines::{no_lines, with_line};
use crate::page::Page;
use crate::progress::Progress;
use crate::question::Accepted;
use flow_base::text::RawText;
use flow_hub::seats::Room;
use flow_hub::submitter::Submitter;
use flow_timers::Clock;
use std::io::Write;
use std::snapshot::Snapshot;
use std::sync::Wait;
use std::time;
use unseen::Listed;

/// A desk, and the lines that were taken in there.
#[derive(Drop)]
pub(crate) struct Clerk<B: Room, W: Write> {
    desk: Desk<B, W>,
    /// The lines that were taken in, for contracts alone.
    lines: Listed<RawText>,
}

/// What is left of a clerk: what was printed, who submitted, and which lines were taken in.
#[derive(Drop)]
pub(crate) struct Answered<B: Room, W: Write> {
    pub(crate) page: Page<W>,
    pub(crate) submitter: Submitter<B>,
    pub(crate) lines: Listed<RawText>,
}

impl<B: Room, W: Write + Drop> Clerk<B, W> {
    /// Answers lines at this desk.
    fn new(desk: Desk<B, W>) -> Clerk<B, W>
        ensures { (result.desk ≡ desk) × (result.lines ≡ []) }
    {
        Clerk {
            desk,
            lines: no_lines(),
        }
    }

    /// What is left of it.
    fn into_answered(self) -> Answered<B, W>
        ensures { (result.page ≡ self.desk.page) × (result.submitter ≡ self.desk.submitter) × (result.lines ≡ self.lines) }
    {
        let Clerk { desk, lines } = self;
        let (page, submitter) = desk.into_parts();
        Answered {
            page,
            submitter,
            lines,
        }
    }

    /// Waits until no run is open, or the hub is closed.
    fn rest<R: Wait + time::Clock, C: Clock, P: Write + Drop>(
        &mut self,
        rt: &R,
        clock: &C,
        progress: Option<Progress<P>>,
    )
        ensures rested { HasRested self.new.desk.submitter.was }
        ensures counted { (first : Option (List ℕ))
            → Counted line_command (C.tells clock.now) first nothing self.old.desk.submitter self.old.lines self.old.desk.page
            → Counted line_command (C.tells clock.now) first nothing self.new.desk.submitter self.new.lines self.new.desk.page }
        ensures grows { IsBefore self.old.desk.submitter.was self.new.desk.submitter.was }
        ensures same { self.new.desk.submitter.id ≡ self.old.desk.submitter.id }
        ensures page { self.new.desk.page ≡ self.old.desk.page }
        ensures lines { self.new.lines ≡ self.old.lines }
    {
        self.desk.rest(rt, clock, progress);
    }

    /// Takes in a line. No where nothing is answered any more.
    fn take<R: Wait + time::Clock, C: Clock>(&mut self, rt: &R, clock: &C, line: Vec<u8>) -> bool
        requires { length self.old.desk.pending.lines.items < 64 }
        ensures counted { (first : Option (List ℕ)) → Counts line_command
            (C.tells clock.now) first nothing self.old.desk.submitter self.old.desk.pending.lines.items self.old.lines self.old.desk.page
            → Goes line_command (C.tells clock.now) first result nothing self.new.desk.submitter self.new.desk.pending.lines.items self.new.lines self.new.desk.page }
        ensures quits { (first : Option (List ℕ)) → Counts line_command
            (C.tells clock.now) first nothing self.old.desk.submitter self.old.desk.pending.lines.items self.old.lines self.old.desk.page
            → result ≡ false → Quits line_command (C.tells clock.now) self.new.desk.submitter }
        ensures lines { self.new.lines ≡ self.old.lines ++ line.items ∷ [] }
    {
        let read = Snapshot::of(&line);
        let goes_on = self.desk.take_line(rt, clock, Accepted::Commands, line);
        let lines = with_line(&self.lines, read);
        self.lines = lines;
        goes_on
    }

    /// Prints all replies that are to come.
    fn end<R: Wait + time::Clock, C: Clock>(&mut self, rt: &R, clock: &C)
        ensures counted { (first : Option (List ℕ)) → Counts line_command
            (C.tells clock.now) first nothing self.old.desk.submitter self.old.desk.pending.lines.items self.old.lines self.old.desk.page
            → Counted line_command (C.tells clock.now) first nothing self.new.desk.submitter self.new.lines self.new.desk.page }
        ensures ends { (first : Option (List ℕ)) → Counts line_command
            (C.tells clock.now) first nothing self.old.desk.submitter self.old.desk.pending.lines.items self.old.lines self.old.desk.page
            → (self.new.desk.pending.lines.items ≡ []) ⊎ Quits line_command (C.tells clock.now) self.new.desk.submitter }
        ensures failed { self.old.desk.page.status ≡ 3 → self.new.desk.page.status ≡ 3 }
        ensures lines { self.new.lines ≡ self.old.lines }
    {
        self.desk.tell_all(rt);
    }

    /// As `end`, where the input can't be read any more.
    fn fail<R: Wait + time::Clock, C: Clock>(&mut self, rt: &R, clock: &C)
        ensures counted { (first : Option (List ℕ)) → Counts line_command
            (C.tells clock.now) first nothing self.old.desk.submitter self.old.desk.pending.lines.items self.old.lines self.old.desk.page
            → Counted line_command (C.tells clock.now) first nothing self.new.desk.submitter self.new.lines self.new.desk.page }
        ensures ends { (first : Option (List ℕ)) → Counts line_command
            (C.tells clock.now) first nothing self.old.desk.submitter self.old.desk.pending.lines.items self.old.lines self.old.desk.page
            → ((self.new.desk.pending.lines.items ≡ []) × (self.new.desk.page.status ≡ 3))
            ⊎ Quits line_command (C.tells clock.now) self.new.desk.submitter }
        ensures lines { self.new.lines ≡ self.old.lines }
    {
        self.desk.fail();
        self.end(rt, clock);
    }

    /// Prints the oldest reply. No where nothing is answered any more.
    fn tell<R: Wait + time::Clock, C: Clock>(&mut self, rt: &R, clock: &C) -> bool
        ensures counted { (first : Option (List ℕ)) → Counts line_command
            (C.tells clock.now) first nothing self.old.desk.submitter self.old.desk.pending.lines.items self.old.lines self.old.desk.page
            → Goes line_command (C.tells clock.now) first result nothing self.new.desk.submitter self.new.desk.pending.lines.items self.new.lines self.new.desk.page }
        ensures quits { (first : Option (List ℕ)) → Counts line_command
            (C.tells clock.now) first nothing self.old.desk.submitter self.old.desk.pending.lines.items self.old.lines self.old.desk.page
            → result ≡ false → Quits line_command (C.tells clock.now) self.new.desk.submitter }
        ensures fewer { IsFewer self.old.desk.pending.lines.items self.new.desk.pending.lines.items }
        ensures lines { self.new.lines ≡ self.old.lines }
    {
        self.desk.tell_oldest(rt)
    }

    /// Does what is to be done of what was read. No where it is no line and all is printed, or nothing is answered any more.
    #[tactic(auto, using(crate::proofs::Counting::goes_over, crate::proofs::Counting::counted))]
    fn deal<R: Wait + time::Clock, C: Clock>(
        &mut self,
        rt: &R,
        clock: &C,
        input: InputMessage,
    ) -> bool
        requires { length self.old.desk.pending.lines.items < 64 }
        ensures counted { (first : Option (List ℕ)) → Counts line_command
            (C.tells clock.now) first nothing self.old.desk.submitter self.old.desk.pending.lines.items self.old.lines self.old.desk.page
            → Goes line_command (C.tells clock.now) first result nothing self.new.desk.submitter self.new.desk.pending.lines.items self.new.lines self.new.desk.page }
        ensures quits { (first : Option (List ℕ)) → Counts line_command
            (C.tells clock.now) first nothing self.old.desk.submitter self.old.desk.pending.lines.items self.old.lines self.old.desk.page
            → result ≡ false → IsOver input self.new.desk.pending.lines.items self.new.desk.page.status
            ⊎ Quits line_command (C.tells clock.now) self.new.desk.submitter }
        ensures lines { Takes input self.old.lines self.new.lines }
    {
        match input {
            InputMessage::Line(line) => self.take(rt, clock, line),
            InputMessage::Ended => {
                self.end(rt, clock);
                false
            }
            InputMessage::Failed => {
                self.fail(rt, clock);
                false
            }
            InputMessage::Stopped => false,
        }
    }

    /// Takes in what is read next, or prints the oldest reply. No where what was read is no line and all is printed, or nothing is
    /// answered any more.
    fn step<R: Wait + time::Clock, C: Clock, G: Giving>(
        &mut self,
        rt: &R,
        clock: &C,
        inputs: &mut G,
    ) -> bool
        ensures counted { (first : Option (List ℕ)) → Counts line_command
            (C.tells clock.now) first nothing self.old.desk.submitter self.old.desk.pending.lines.items self.old.lines self.old.desk.page
            → Goes line_command (C.tells clock.now) first result nothing self.new.desk.submitter self.new.desk.pending.lines.items self.new.lines self.new.desk.page }
        ensures ends { (first : Option (List ℕ)) → Counts line_command
            (C.tells clock.now) first nothing self.old.desk.submitter self.old.desk.pending.lines.items self.old.lines self.old.desk.page
            → result ≡ false → EndsTaking line_command (C.tells clock.now) self.new.desk.submitter self.new.desk.pending.lines.items
            self.new.desk.page.status (G.given inputs.new) }
        // No round passes in which nothing is done.
        ensures steps { IsStep (G.given inputs.old) (G.given inputs.new)
            (AnswersOldest self.old.desk.pending.lines.items self.new.desk.pending.lines.items
            × IsHeldUp self.old.desk.pending.lines.items (G.lacks inputs.new)) }
        ensures lines { self.old.lines ≡ lines_in (G.given inputs.old) → self.new.lines ≡ lines_in (G.given inputs.new) }
    {
        match self.desk.next_input(rt, inputs) {
            Some(input) => self.deal(rt, clock, input),
            None => self.tell(rt, clock),
        }
    }

    /// Submits the lines that are read, each at the moment that the clock tells then, and prints their replies, until the input has
    /// ended and all is printed, or nothing is answered any more. A line is submitted again after E90; a command that was answered E80
    /// or E01 is told as not applied.
    fn answer_lines<R: Wait + time::Clock, C: Clock, G: Giving>(
        &mut self,
        rt: &R,
        clock: &C,
        inputs: &mut G,
    )
        ensures counted { (first : Option (List ℕ)) → Counts line_command
            (C.tells clock.now) first nothing self.old.desk.submitter self.old.desk.pending.lines.items self.old.lines self.old.desk.page
            → Counted line_command (C.tells clock.now) first nothing self.new.desk.submitter self.new.lines self.new.desk.page }
        ensures ends { (first : Option (List ℕ)) → Counts line_command
            (C.tells clock.now) first nothing self.old.desk.submitter self.old.desk.pending.lines.items self.old.lines self.old.desk.page
            → EndsTaking line_command (C.tells clock.now) self.new.desk.submitter self.new.desk.pending.lines.items
            self.new.desk.page.status (G.given inputs.new) }
        ensures lines { self.old.lines ≡ lines_in (G.given inputs.old) → self.new.lines ≡ lines_in (G.given inputs.new) }
    {
        'steps: for _ in rt.forever() {
            if !self.step(rt, clock, inputs) {
                return;
            }
        }
        unreachable!()
    }
}

/// Answers lines at a desk until the input has ended and no run is open, or nothing is answered any more.
pub(crate) fn run_clerk<
    B: Room,
    W: Write + Drop,
    R: Wait + time::Clock,
    C: Clock,
    P: Write + Drop,
    G: Giving,
>(
    rt: &R,
    desk: Desk<B, W>,
    clock: &C,
    inputs: &mut G,
    progress: Option<Progress<P>>,
) -> Answered<B, W>
    ensures owes { Owes line_command (C.tells clock.now) desk.page desk.pending.lines.items nothing nothing result.submitter result.lines result.page }
    ensures ended { (first : Option (List ℕ)) → desk.page ≡ blank first → desk.pending.lines.items ≡ []
        → HasEnded line_command (C.tells clock.now) result.submitter result.page.status (G.given inputs.new) }
    ensures took { G.given inputs.old ≡ [] → result.lines ≡ lines_in (G.given inputs.new) }
    ensures rested { HasRested result.submitter.was }
{
    let mut clerk = Clerk::new(desk);
    clerk.answer_lines(rt, clock, inputs);
    clerk.rest(rt, clock, progress);
    clerk.into_answered()
}
