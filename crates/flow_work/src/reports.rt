//! A submitter, as workers report to it and the timer thread ticks by it.
ghost use Rattle.std.specs.Prelude.{◌≡◌, [], ◌∷◌, ◌++◌, IfErr, IfSome, IfNone, Some, true};
ghost use Rattle.flow_base.specs.declared.command.Command.{Command as ACommand};
ghost use Rattle.flow_hub.specs.Feeding.{IsTickOf};
ghost use Rattle.flow_hub.specs.Knowing.{IsBefore};
ghost use Rattle.flow_pool.specs.Reports.{came_of};
ghost use Rattle.flow_work.specs.Endings.{unheard_denied, unheard_why};
ghost use Rattle.flow_work.specs.Firing.{FiresOne, Pauses, is_last, is_replied};
ghost use Rattle.flow_work.specs.Hearing.{IsHeard};

use crate::tally::Tally;
use flow_base::code::Code;
use flow_base::command::{Command, Reply};
use flow_hub::denied::Denied;
use flow_hub::seats::Room;
use flow_hub::submitter::Submitter;
use flow_hub::ticket::{NotDone, Why};
use flow_pool::report::{Reports, Unheard};
use flow_timers::Clock;
use flow_timers::pause::Pause;
use std::snapshot::Snapshot;
use std::sync::Wait;
use std::time;
use unseen::{Listed, Makes};

/// What was told, and what came of it.
type Telling = (Command, Result<Reply, Unheard>);

/// What came of a command: its reply; or it comes back, and why.
type Heard = Result<Reply, (Command, Unheard)>;

/// Reports to a hub.
#[derive(Drop)]
pub(crate) struct Reporter<B: Room> {
    submitter: Submitter<B>,
    /// How many tasks aren't reported yet, where it reports them.
    tally: Option<Tally>,
    /// All that was told, for contracts alone.
    told: Listed<Telling>,
}

struct Nothing;

impl Makes<(), Telling> for Nothing {
    ghost use Rattle.std.specs.Prelude.{[]};

    ghost list = { λ _. [] };
}

struct OneMore;

impl Makes<(Listed<Telling>, Snapshot<Command>, Snapshot<Heard>), Telling> for OneMore {
    ghost use Rattle.std.specs.Prelude.{[], ◌∷◌, ◌++◌};
    ghost use Rattle.flow_pool.specs.Reports.{came_of};

    ghost list = { λ p. p.0 ++ (p.1.value, came_of p.2.value) ∷ [] };
}

/// What was told, and one more.
fn with_heard(
    told: &Listed<Telling>,
    asked: Snapshot<Command>,
    heard: Snapshot<Heard>,
) -> Listed<Telling>
    ensures { result ≡ told.now ++ (asked.value, came_of heard.value) ∷ [] }
{
    let more = (told.again(), asked, heard);
    Listed::of::<(Listed<Telling>, Snapshot<Command>, Snapshot<Heard>), OneMore>(&more)
}

fn unheard_denied(denied: Denied) -> Unheard
    ensures { result ≡ unheard_denied denied }
{
    match denied {
        Denied::InboxFull => Unheard::InboxFull,
        Denied::HubClosed => Unheard::HubClosed,
    }
}

fn unheard_why(why: Why) -> Unheard
    ensures { result ≡ unheard_why why }
{
    match why {
        Why::Refused(Code::NoMemory) => Unheard::NoMemory,
        Why::Refused(Code::StoreRefused) => Unheard::StoreRefused,
        Why::Refused(Code::Unknown) => Unheard::Unknown,
        _ => Unheard::Halted,
    }
}

/// The command that comes back, and why.
fn unheard_of<B: Room>(instead: NotDone<B>) -> (Command, Unheard)
    requires { (c : ACommand) × (instead.command ≡ Some c) }
    ensures back { instead.command ≡ Some result.0 }
    ensures why { result.1 ≡ unheard_why instead.code }
{
    let NotDone {
        ticket: _ticket,
        code,
        command,
    } = instead;
    match command {
        Some(command) => (command, unheard_why(code)),
        None => unreachable!(),
    }
}

/// Submits a command and waits for its reply.
#[tactic(auto, using(crate::proofs::Hearing::has_reply, flow_hub::proofs::Growing::before_trans))]
fn heard<B: Room, R: Wait>(rt: &R, submitter: &mut Submitter<B>, command: Command) -> Heard
    ensures heard { IsHeard submitter.old submitter.new command result }
    ensures back { IfErr result (λ e. e.0 ≡ command) }
    ensures grows { IsBefore submitter.old.was submitter.new.was }
{
    match submitter.submit(rt, command) {
        Ok(ticket) => match submitter.wait(rt, ticket) {
            Ok(receipt) => Ok(receipt.reply),
            Err(instead) => Err(unheard_of(instead)),
        },
        Err((back, denied)) => Err((back, unheard_denied(denied))),
    }
}

/// Whether a task is reported for good.
fn is_over(heard: &Heard) -> bool {
    match heard {
        Ok(Reply::Refused(Code::WrongType)) => false,
        Ok(_reply) => true,
        Err((_back, unheard)) => unheard.is_final(),
    }
}

/// Whether it is a reply.
fn is_replied(heard: &Heard) -> bool
    ensures { result ≡ is_replied (came_of heard.now) }
{
    match heard {
        Ok(_reply) => true,
        Err(_back) => false,
    }
}

/// Whether nothing is answered any more behind it.
fn is_last(heard: &Heard) -> bool
    ensures { result ≡ is_last (came_of heard.now) }
{
    match heard {
        Ok(_reply) => false,
        Err((_back, unheard)) => unheard.is_final(),
    }
}

impl<B: Room> Reporter<B> {
    pub(crate) fn new(submitter: Submitter<B>, tally: Option<Tally>) -> Reporter<B>
        ensures { (result.submitter ≡ submitter) × (result.told ≡ []) }
    {
        Reporter {
            submitter,
            tally,
            told: Listed::of::<(), Nothing>(&()),
        }
    }

    /// Counts a task less, where its report has its answer, or never will. Behind the wrong type another report follows.
    fn count(&self, heard: &Heard) {
        let Some(tally) = &self.tally else {
            return;
        };
        if is_over(heard) {
            tally.end();
        }
    }

    /// Sleeps until something is due by the clock, and gives the command that fires it. None where the hub is closed.
    fn next_tick<R: Wait + time::Clock, C: Clock>(&mut self, rt: &R, clock: &C) -> Option<Command>
        ensures tick { IfSome result (λ c. IsTickOf (C.tells clock.now) self.new.submitter.was c) }
        ensures none { IfNone result (self.new.submitter.was.closed ≡ true) }
        ensures told { self.new.told ≡ self.old.told }
        ensures grows { IsBefore self.old.submitter.was self.new.submitter.was }
    {
        self.submitter.next_tick(rt, clock)
    }

    /// Submits a command and waits for its reply.
    fn report<R: Wait>(&mut self, rt: &R, command: Command) -> Heard
        ensures heard { IsHeard self.old.submitter self.new.submitter command result }
        ensures told { self.new.told ≡ self.old.told ++ (command, came_of result) ∷ [] }
        ensures back { IfErr result (λ e. e.0 ≡ command) }
        ensures grows { IsBefore self.old.submitter.was self.new.submitter.was }
    {
        let asked = Snapshot::of(&command);
        let heard = heard(rt, &mut self.submitter, command);
        self.count(&heard);
        self.told = with_heard(&self.told, asked, Snapshot::of(&heard));
        heard
    }

    /// Sleeps until something is due by the clock, tells the tick that fires it, and waits for its answer. If that is no reply it
    /// sleeps for the pause too, since the tick is due again at once. No where nothing is answered any more.
    #[tactic(auto, using(crate::proofs::Firing::fires_nothing, flow_hub::proofs::Growing::before_trans))]
    pub(crate) fn fire<R: Wait + time::Clock, C: Clock>(
        &mut self,
        rt: &R,
        clock: &C,
        pause: &mut Pause,
    ) -> bool
        ensures fires { FiresOne (C.tells clock.now) self.new.submitter.was self.old.told self.new.told result }
        ensures pauses { result ≡ true → Pauses self.old.told self.new.told pause.old pause.new }
        ensures grows { IsBefore self.old.submitter.was self.new.submitter.was }
    {
        let Some(tick) = self.next_tick(rt, clock) else {
            return false;
        };
        let heard = self.report(rt, tick);
        let ends = is_last(&heard);
        let replied = is_replied(&heard);
        drop(heard);
        if ends {
            return false;
        }
        pause.wait_unless(rt, replied);
        true
    }
}

impl<B: Room> Reports for Reporter<B> {
    ghost told = { λ r. r.told };

    fn tell<R: Wait>(&mut self, rt: &R, command: Command) -> Result<Reply, (Command, Unheard)> {
        self.report(rt, command)
    }
}
