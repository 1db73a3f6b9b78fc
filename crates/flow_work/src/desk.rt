//! The thread that submits lines and prints their replies, in the order of the lines.
ghost use Rattle.std.specs.Prelude.{◌≡◌, ◌≤◌, ◌<◌, ◌⊎◌, ◌++◌, ◌∷◌, [], Option, List, true, false, length, is_some, IfNone, IfSome, MatchOption};
ghost use Rattle.flow_lines.specs.declared.reply.Line.{Line as ALine};
ghost use Rattle.flow_hub.specs.Knowing.{IsBefore};
ghost use Rattle.flow_work.specs.Counting.{PrintsFed};
ghost use Rattle.flow_work.specs.Endings.{IsToldOf, line_instead};
ghost use Rattle.flow_work.specs.Printing.{blank};
ghost use Rattle.flow_work.specs.Questions.{read_as};
ghost use Rattle.flow_work.specs.Reading.{IsOf, IsPendingOf};
ghost use Rattle.flow_work.specs.Resting.{HasRested};
ghost use Rattle.flow_work.specs.Silence.{IsHeldUp, IsSilent};
ghost use Rattle.flow_work.specs.Telling.{AnswersFirst, HasTold, IsAnswer, PrintsAnswer};
ghost use Rattle.flow_work.specs.declared.queue.Pending.{Pending as APending};

use crate::giving::Giving;
use crate::input::InputMessage;
use crate::moments::command_at;
use crate::page::Page;
use crate::progress::Progress;
use crate::question::{Accepted, read_as};
use crate::queue::{MOST_PENDING, PendingLine, Queue, Waiting};
use crate::status::Status;
use flow_base::code::Code;
use flow_base::command::Command;
use flow_base::memory::NoMemory;
use flow_hub::denied::Denied;
use flow_hub::fed::Fed;
use flow_hub::rested::Rested;
use flow_hub::seats::Room;
use flow_hub::submitter::Submitter;
use flow_hub::ticket::{NotDone, Ticket, Why};
use flow_lines::command::LineFault;
use flow_lines::reply::Line;
use flow_timers::Clock;
use std::alloc::Global;
use std::io::Write;
use std::sync::Wait;
use std::time::Duration;
use std::{thread, time};

/// The longest time for which nobody looks at what is left, in milliseconds.
const LONGEST_REST: u64 = 1_000;

/// Lines that were read and of which nothing is printed yet, and where their replies go.
#[derive(Drop)]
pub(crate) struct Desk<B: Room, W: Write> {
    alloc: Global,
    submitter: Submitter<B>,
    pending: Queue<B>,
    page: Page<W>,
}

/// What is printed of a command that has no receipt. None where nothing is answered any more.
fn line_instead(why: Why) -> Option<Line>
    ensures { result ≡ line_instead why }
{
    match why {
        Why::Refused(Code::NoMemory) => Some(Line::NotApplied(NoMemory::told().code())),
        Why::Refused(Code::StoreRefused) => Some(Line::NotApplied(Code::StoreRefused)),
        _ => None,
    }
}

/// The answer to a ticket. None where nothing is answered any more.
fn answer_to<B: Room, R: Wait>(
    rt: &R,
    submitter: &mut Submitter<B>,
    ticket: Ticket<B>,
) -> Option<Line>
    ensures told { IsToldOf submitter.new ticket result }
    ensures grows { IsBefore submitter.old.was submitter.new.was }
    ensures same { submitter.new.id ≡ submitter.old.id }
{
    match submitter.wait(rt, ticket) {
        Ok(receipt) => Some(Line::Of(receipt.reply)),
        Err(instead) => line_instead(instead.code),
    }
}

/// The answer to a line that waits. None where nothing is answered any more.
#[tactic(auto, using(flow_hub::proofs::Growing::before_self))]
fn answer_of<B: Room, R: Wait>(
    rt: &R,
    submitter: &mut Submitter<B>,
    pending: PendingLine<B>,
) -> Option<Line>
    ensures answer { IsAnswer submitter.new pending result }
    ensures grows { IsBefore submitter.old.was submitter.new.was }
    ensures same { submitter.new.id ≡ submitter.old.id }
{
    match pending.line {
        Waiting::Submitted(ticket) => answer_to(rt, submitter, ticket),
        Waiting::Known(line) => Some(line),
    }
}

impl<B: Room, W: Write + Drop> Desk<B, W> {
    /// Submits by this submitter, with these lines to be told of, and prints to this writer.
    pub(crate) fn new(
        alloc: Global,
        submitter: Submitter<B>,
        pending: Queue<B>,
        writer: W,
    ) -> Desk<B, W>
        ensures parts { (result.submitter ≡ submitter) × (result.pending ≡ pending) }
        ensures page { result.page ≡ blank (W.contents writer) }
    {
        Desk {
            alloc,
            submitter,
            pending,
            page: Page::new(alloc, writer),
        }
    }

    /// What is printed, and who submitted.
    pub(crate) fn into_parts(self) -> (Page<W>, Submitter<B>)
        ensures { (result.0 ≡ self.page) × (result.1 ≡ self.submitter) }
    {
        let Desk {
            alloc: _,
            submitter,
            pending: _pending,
            page,
        } = self;
        (page, submitter)
    }

    /// Something couldn't be read or written.
    pub(crate) fn fail(&mut self)
        ensures page { self.new.page ≡ record self.old.page { status = 3 } }
        ensures pending { self.new.pending ≡ self.old.pending }
        ensures submitter { self.new.submitter ≡ self.old.submitter }
    {
        self.page.fail();
    }

    /// Prints what was given out, if it is a task.
    pub(crate) fn print_fed<R: Wait + time::Clock>(&mut self, rt: &R, fed: &Fed)
        ensures printed { PrintsFed fed.now self.old.page self.new.page }
        ensures pending { self.new.pending ≡ self.old.pending }
        ensures submitter { self.new.submitter ≡ self.old.submitter }
    {
        match fed {
            Fed::Task(task) => self.page.print_task(rt, task),
            Fed::Nothing | Fed::Closed => {}
        }
    }

    /// Prints an answer. No where there is none.
    fn print_answer<R: Wait + time::Clock>(&mut self, rt: &R, answer: Option<Line>) -> bool
        ensures printed { PrintsAnswer answer self.old.page self.new.page }
        ensures goes_on { result ≡ is_some answer }
        ensures pending { self.new.pending ≡ self.old.pending }
        ensures submitter { self.new.submitter ≡ self.old.submitter }
    {
        match answer {
            Some(line) => {
                self.page.print_line(rt, &line);
                true
            }
            None => false,
        }
    }

    /// Waits for the answer of the oldest line and prints it. No where nothing is answered any more.
    #[tactic(auto, using(flow_hub::proofs::Growing::before_self))]
    pub(crate) fn tell_oldest<R: Wait + time::Clock>(&mut self, rt: &R) -> bool
        ensures oldest { (told : Option ALine) × AnswersFirst self.new.submitter self.old.pending.lines.items self.new.pending.lines.items told result
            × PrintsAnswer told self.old.page self.new.page }
        ensures told { HasTold self.new.submitter result self.old.pending.lines.items self.new.pending.lines.items self.old.page self.new.page }
        ensures grows { IsBefore self.old.submitter.was self.new.submitter.was }
        ensures same { self.new.submitter.id ≡ self.old.submitter.id }
        ensures fewer { length self.new.pending.lines.items ≤ length self.old.pending.lines.items }
    {
        let Some(pending) = self.pending.pop() else {
            return true;
        };
        let answer = answer_of(rt, &mut self.submitter, pending);
        self.print_answer(rt, answer)
    }

    /// Submits a command until it is taken in. None where nothing is answered any more.
    #[tactic(auto, using(crate::proofs::Telling::told_none, crate::proofs::Telling::told_then, crate::proofs::Telling::told_later, crate::proofs::Telling::told_ends, flow_hub::proofs::Growing::before_trans))]
    fn submit<R: Wait + time::Clock>(&mut self, rt: &R, command: Command) -> Option<Ticket<B>>
        ensures ticket { IfSome result (λ t. IsOf self.new.submitter command t) }
        ensures silent { IfNone result (IsSilent self.new.submitter self.old.pending.lines.items) }
        ensures told { HasTold self.new.submitter
            (is_some result) self.old.pending.lines.items self.new.pending.lines.items self.old.page self.new.page }
        ensures grows { IsBefore self.old.submitter.was self.new.submitter.was }
        ensures same { self.new.submitter.id ≡ self.old.submitter.id }
        ensures fewer { length self.new.pending.lines.items ≤ length self.old.pending.lines.items }
    {
        let mut command = command;
        'tries: for _ in rt.forever() {
            match self.submitter.submit(rt, command) {
                Ok(ticket) => return Some(ticket),
                Err((_back, Denied::HubClosed)) => return None,
                Err((back, Denied::InboxFull)) => command = back,
            }
            if !self.tell_oldest(rt) {
                return None;
            }
            thread::yield_now();
        }
        unreachable!()
    }

    /// What becomes of a line. None where nothing is answered any more.
    fn pending_of<R: Wait + time::Clock, C: Clock>(
        &mut self,
        rt: &R,
        clock: &C,
        accepted: Accepted,
        line: Vec<u8>,
    ) -> Option<PendingLine<B>>
        ensures pending { IfSome result (λ p. IsPendingOf (read_as accepted) (C.tells clock.now) self.new.submitter line.items p) }
        ensures silent { IfNone result (IsSilent self.new.submitter self.old.pending.lines.items) }
        ensures told { HasTold self.new.submitter
            (is_some result) self.old.pending.lines.items self.new.pending.lines.items self.old.page self.new.page }
        ensures grows { IsBefore self.old.submitter.was self.new.submitter.was }
        ensures same { self.new.submitter.id ≡ self.old.submitter.id }
        ensures fewer { length self.new.pending.lines.items ≤ length self.old.pending.lines.items }
    {
        match read_as(self.alloc, accepted, line.as_slice()) {
            Ok(command) => {
                let ticket = self.submit(rt, command_at(command, clock.now()))?;
                Some(PendingLine::submitted(ticket))
            }
            Err(LineFault::NotACommand) => Some(PendingLine::known(Line::Bad)),
            Err(LineFault::NoMemory(no_memory)) => {
                Some(PendingLine::known(Line::NotApplied(no_memory.code())))
            },
        }
    }

    /// Takes in a line. No where nothing is answered any more.
    pub(crate) fn take_line<R: Wait + time::Clock, C: Clock>(
        &mut self,
        rt: &R,
        clock: &C,
        accepted: Accepted,
        line: Vec<u8>,
    ) -> bool
        requires { length self.old.pending.lines.items < 64 }
        ensures taken { result ≡ true → (p : APending) × (rest : List APending)
            × IsPendingOf (read_as accepted) (C.tells clock.now) self.new.submitter line.items p
            × (self.new.pending.lines.items ≡ rest ++ p ∷ [])
            × HasTold self.new.submitter true self.old.pending.lines.items rest self.old.page self.new.page }
        ensures silent { result ≡ false → IsSilent self.new.submitter self.old.pending.lines.items }
        ensures not_taken { result ≡ false → HasTold self.new.submitter false self.old.pending.lines.items self.new.pending.lines.items self.old.page self.new.page }
        ensures grows { IsBefore self.old.submitter.was self.new.submitter.was }
        ensures same { self.new.submitter.id ≡ self.old.submitter.id }
    {
        match self.pending_of(rt, clock, accepted, line) {
            Some(pending) => {
                self.pending.push(pending);
                true
            }
            None => false,
        }
    }

    /// What is read next. None where there is nothing yet and a reply can be waited for meanwhile.
    #[tactic(auto, using(crate::proofs::Silence::held_by_none, crate::proofs::Silence::held_by_room))]
    pub(crate) fn next_input<R: Wait, G: Giving>(
        &self,
        rt: &R,
        inputs: &mut G,
    ) -> Option<InputMessage>
        ensures room { IfSome result (λ _. length self.now.pending.lines.items < 64) }
        // Where nothing waits for a reply it waits for what is read.
        ensures waits { IfNone result (0 < length self.now.pending.lines.items) }
        ensures held { IfNone result (IsHeldUp self.now.pending.lines.items (G.lacks inputs.new)) }
        ensures given { MatchOption result (G.given inputs.new ≡ G.given inputs.old)
            (λ i. G.given inputs.new ≡ G.given inputs.old ++ i ∷ []) }
    {
        let count = self.pending.len();
        if count == 0 {
            return Some(inputs.next(rt));
        }
        if count >= MOST_PENDING {
            return None;
        }
        inputs.ready(rt)
    }

    /// What is read next, if it is there and room is left for what waits for a reply.
    #[tactic(auto, using(crate::proofs::Silence::held_by_none, crate::proofs::Silence::held_by_room))]
    pub(crate) fn ready_input<R: Wait, G: Giving>(
        &self,
        rt: &R,
        inputs: &mut G,
    ) -> Option<InputMessage>
        ensures room { IfSome result (λ _. length self.now.pending.lines.items < 64) }
        ensures held { IfNone result (IsHeldUp self.now.pending.lines.items (G.lacks inputs.new)) }
        ensures given { MatchOption result (G.given inputs.new ≡ G.given inputs.old)
            (λ i. G.given inputs.new ≡ G.given inputs.old ++ i ∷ []) }
    {
        if self.pending.len() >= MOST_PENDING {
            return None;
        }
        inputs.ready(rt)
    }

    /// Whether a line waits for its reply.
    pub(crate) fn has_pending(&self) -> bool
        ensures none { result ≡ false → self.now.pending.lines.items ≡ [] }
        ensures some { result ≡ true → 0 < length self.now.pending.lines.items }
    {
        self.pending.len() != 0
    }

    /// Prints all replies that are to come.
    pub(crate) fn tell_all<R: Wait + time::Clock>(&mut self, rt: &R)
        ensures ends { (self.new.pending.lines.items ≡ []) ⊎ IsSilent self.new.submitter self.old.pending.lines.items }
        ensures told { HasTold self.new.submitter false self.old.pending.lines.items self.new.pending.lines.items self.old.page self.new.page }
        ensures grows { IsBefore self.old.submitter.was self.new.submitter.was }
        ensures same { self.new.submitter.id ≡ self.old.submitter.id }
    {
        'lines: for _ in rt.forever() {
            if !self.has_pending() {
                return;
            }
            if !self.tell_oldest(rt) {
                return;
            }
        }
        unreachable!()
    }

    /// Waits until no run is open, or the hub is closed. A terminal shows meanwhile what is left: only now, since nothing is printed any
    /// more that would mix with it.
    #[tactic(auto, using(crate::proofs::Resting::rested_by))]
    pub(crate) fn rest<R: Wait + time::Clock, C: Clock, P: Write + Drop>(
        &mut self,
        rt: &R,
        clock: &C,
        progress: Option<Progress<P>>,
    )
        ensures rested { HasRested self.new.submitter.was }
        ensures grows { IsBefore self.old.submitter.was self.new.submitter.was }
        ensures same { self.new.submitter.id ≡ self.old.submitter.id }
        ensures page { self.new.page ≡ self.old.page }
    {
        match progress {
            Some(progress) => self.rest_shown(rt, clock, progress),
            None => {
                let _idle = self.submitter.rest(rt);
            }
        }
    }

    fn rest_shown<R: Wait + time::Clock, C: Clock, P: Write + Drop>(
        &mut self,
        rt: &R,
        clock: &C,
        progress: Progress<P>,
    )
        ensures rested { HasRested self.new.submitter.was }
        ensures grows { IsBefore self.old.submitter.was self.new.submitter.was }
        ensures same { self.new.submitter.id ≡ self.old.submitter.id }
        ensures page { self.new.page ≡ self.old.page }
    {
        let mut progress = progress;
        'rests: for _ in rt.forever() {
            if !self.rest_once(rt, clock, &mut progress) {
                return;
            }
        }
        unreachable!()
    }

    /// Waits for a while, and shows what is left then. No where nothing is, or the hub is closed.
    fn rest_once<R: Wait + time::Clock, C: Clock, P: Write + Drop>(
        &mut self,
        rt: &R,
        clock: &C,
        progress: &mut Progress<P>,
    ) -> bool
        ensures rested { result ≡ false → HasRested self.new.submitter.was }
        ensures grows { IsBefore self.old.submitter.was self.new.submitter.was }
        ensures same { self.new.submitter.id ≡ self.old.submitter.id }
        ensures page { self.new.page ≡ self.old.page }
    {
        match self
            .submitter
            .rest_for(rt, Duration::from_millis(LONGEST_REST))
        {
            Rested::NotYet(outlook) => {
                progress.draw(outlook, clock.now());
                true
            }
            Rested::Idle => {
                progress.clear();
                false
            }
            Rested::Closed => {
                progress.clear();
                false
            }
        }
    }
}
