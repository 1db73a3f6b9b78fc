//! What is done with a keeper, and what is told of it. Whoever owns one has a single exit on which it is let go: it is lent to
//! what asks it, and closed.
ghost use Rattle.flow_tables.specs.Unread.{shown_book};
ghost use Rattle.flow_tables.specs.Owned.{state_of, IsFit, Keeps};

use crate::calls::{Call, Calls, Told, Want, add_receipts, command, is_as};
use flow_base::number::Moment;
use flow_base::submission::{Receipt, Taken};
use flow_base::task::{Posted, Task};
use flow_check::language::Language;
use flow_commit::batch::Batch;
use flow_commit::board::Board;
use flow_commit::keeper::Keeper;
use flow_commit::outcome::Outcome;
use flow_tables::listener::Nobody;
use flow_tables::tables::Tables;
use flow_tables::unread::ToldBook;
use flow_view::fault::ViewFault;
use sqlite::{Alter, Connection};
use std::alloc::Global;
use std::collections::BTreeSet;

/// How calls are cut into batches.
#[derive(Clone, Copy)]
pub enum Cut {
    /// Each is a batch by itself.
    Singly,
    /// In batches of so many, the last of what is left.
    InBatches(usize),
}

/// Of a board: how many tasks, the run, the event and the attempt of the first one (zeros of none), when there is more to be done
/// (0: never), and how many runs are open.
pub type Shown = (usize, Posted, u64, u64);

/// What a keeper is asked for.
#[derive(Clone, Copy)]
pub enum Keeping {
    /// It commits calls, of which this is told.
    Commits(Calls, Cut, Want),
    /// It commits calls one by one, which are all kept, and has this on its board at a moment, where these tasks were posted.
    Boards(Calls, &'static [Posted], u64, Shown),
}

fn taken(alloc: Global, ticket: u64, call: Call) -> Option<Taken> {
    let command = command(alloc, call)?;
    Some(Taken { ticket, command })
}

fn one(alloc: Global, taken: Taken) -> Option<Batch> {
    match Batch::one(alloc, taken) {
        Ok(batch) => Some(batch),
        Err((_, _)) => None,
    }
}

/// The batch of a call with this ticket.
pub fn batch(alloc: Global, ticket: u64, call: Call) -> Option<Batch> {
    match taken(alloc, ticket, call) {
        Some(taken) => one(alloc, taken),
        None => None,
    }
}

fn add_taken(alloc: Global, list: &mut Vec<Taken>, ticket: u64, call: Call) -> bool {
    match taken(alloc, ticket, call) {
        Some(taken) => list.push(taken).is_ok(),
        None => false,
    }
}

fn all_taken(alloc: Global, list: &mut Vec<Taken>, calls: &[(u64, Call)]) -> bool {
    let mut are = true;
    for (ticket, call) in calls {
        are = add_taken(alloc, list, *ticket, *call) && are;
    }
    are
}

/// The batch of these calls, each with its ticket, where they are 1 to 64.
fn batch_of(alloc: Global, calls: &[(u64, Call)]) -> Option<Batch> {
    let mut list = Vec::new(alloc);
    let are = all_taken(alloc, &mut list, calls);
    if !are || list.is_empty() || list.len() > 64 {
        return None;
    }
    Some(Batch::of(list))
}

/// The code of a commit that has changed nothing.
pub fn code_of(fault: &ViewFault) -> u8 {
    match fault {
        ViewFault::NoMemory(_) => 1,
        ViewFault::StoreRefused => 80,
    }
}

/// The code of a commit of which nobody knows.
fn code_of_end(fault: &ViewFault) -> u8 {
    match fault {
        ViewFault::NoMemory(_) => 1,
        ViewFault::StoreRefused => 84,
    }
}

/// The receipts of a batch that is kept, or the code of its refusal.
fn ended(outcome: Outcome) -> Result<Vec<Receipt>, u8> {
    match outcome {
        Outcome::Kept(receipts, stamp) => {
            stamp.discard();
            Ok(receipts)
        }
        Outcome::NotApplied(_batch, fault) => Err(code_of(&fault)),
        Outcome::Unknown(_batch, fault) => Err(code_of_end(&fault)),
        Outcome::Halted(_batch) => Err(85),
    }
}

/// Puts what is told of a batch behind what was told before. One that isn't kept is told once, whatever it has.
fn add_told(list: &mut Vec<Told>, ended: &Result<Vec<Receipt>, u8>, is_halted: bool) -> bool {
    match ended {
        Ok(receipts) => add_receipts(list, receipts.as_slice(), is_halted),
        Err(code) => list.push(Told::Refused(*code, is_halted)).is_ok(),
    }
}

/// Whether there is room for what a keeper tells of a batch.
fn commit<S: Alter>(list: &mut Vec<Told>, keeper: &mut Keeper<S>, batch: Batch) -> bool {
    let ended = ended(keeper.commit(batch));
    add_told(list, &ended, keeper.is_halted())
}

/// The same of these calls, in batches of one.
fn commit_each<S: Alter>(
    alloc: Global,
    list: &mut Vec<Told>,
    keeper: &mut Keeper<S>,
    calls: &[(u64, Call)],
) -> bool {
    let mut are = true;
    for (ticket, call) in calls {
        are = match batch(alloc, *ticket, *call) {
            Some(batch) => commit(list, keeper, batch) && are,
            None => false,
        };
    }
    are
}

/// The same in batches of so many.
fn commit_parts<S: Alter>(
    alloc: Global,
    list: &mut Vec<Told>,
    keeper: &mut Keeper<S>,
    calls: &[(u64, Call)],
    most: usize,
) -> bool {
    if most == 0 {
        return false;
    }
    let mut are = true;
    for part in calls.chunks(most) {
        are = match batch_of(alloc, part) {
            Some(batch) => commit(list, keeper, batch) && are,
            None => false,
        };
    }
    are
}

fn commit_all<S: Alter>(
    alloc: Global,
    list: &mut Vec<Told>,
    keeper: &mut Keeper<S>,
    calls: &[(u64, Call)],
    cut: Cut,
) -> bool {
    match cut {
        Cut::Singly => commit_each(alloc, list, keeper, calls),
        Cut::InBatches(most) => commit_parts(alloc, list, keeper, calls, most),
    }
}

/// Whether this is told of calls.
pub fn tells<S: Alter>(
    alloc: Global,
    keeper: &mut Keeper<S>,
    calls: &[(u64, Call)],
    cut: Cut,
    want: Want,
) -> bool {
    let mut list = Vec::new(alloc);
    commit_all(alloc, &mut list, keeper, calls, cut) && is_as(list.as_slice(), calls.len(), want)
}

fn first(tasks: &[Task]) -> Posted {
    if tasks.len() == 0 {
        return (0, 0, 0);
    }
    let task = &tasks[0];
    (task.run.get(), task.event.get(), task.attempt)
}

fn shown(board: Board) -> Shown {
    let (tasks, due, open_runs) = board.into_parts();
    let due = match due {
        Some(moment) => moment.get(),
        None => 0,
    };
    (tasks.len(), first(tasks.as_slice()), due, open_runs)
}

fn set_of(alloc: Global, posted: &[Posted]) -> Option<BTreeSet<Posted>> {
    let mut set = BTreeSet::new(alloc);
    let mut are = true;
    for one in posted {
        are = set.insert(*one).is_ok() && are;
    }
    if are { Some(set) } else { None }
}

/// The board of a keeper at a moment, where these tasks were posted.
fn board_of<S: Alter>(keeper: &mut Keeper<S>, posted: &BTreeSet<Posted>, at: u64) -> Option<Shown> {
    let at = Moment::new(at)?;
    match keeper.board(posted, at) {
        Ok(board) => Some(shown(board)),
        Err(_) => None,
    }
}

fn has_board<S: Alter>(
    alloc: Global,
    keeper: &mut Keeper<S>,
    posted: &[Posted],
    at: u64,
    wanted: Shown,
) -> bool {
    match &set_of(alloc, posted) {
        Some(set) => board_of(keeper, set, at) == Some(wanted),
        None => false,
    }
}

fn is_kept_so<S: Alter>(alloc: Global, keeper: &mut Keeper<S>, keeping: Keeping) -> bool {
    match keeping {
        Keeping::Commits(calls, cut, want) => tells(alloc, keeper, calls, cut, want),
        Keeping::Boards(calls, posted, at, wanted) => {
            tells(alloc, keeper, calls, Cut::Singly, Want::Kept)
                && has_board(alloc, keeper, posted, at, wanted)
        }
    }
}

/// Closes a keeper.
pub fn closed<S: Alter>(keeper: Keeper<S>) -> Connection<S> {
    keeper.into_tables().into_connection()
}

fn over_tables<S: Alter>(
    alloc: Global,
    tables: Tables<S>,
    book: &ToldBook,
    keeping: Keeping,
) -> (bool, Connection<S>)
    requires { IsFit S.Store tables → Keeps (state_of S.Store tables) (shown_book book.now) }
{
    match Keeper::anew(alloc, tables, book, 2) {
        Ok(keeper) => {
            let mut keeper = keeper;
            let is = is_kept_so(alloc, &mut keeper, keeping);
            (is, closed(keeper))
        }
        Err((_, tables)) => (false, tables.into_connection()),
    }
}

/// Whether a keeper that is opened for it alone does so, and the store behind it.
pub fn keeps<S: Alter>(
    alloc: Global,
    conn: Connection<S>,
    keeping: Keeping,
) -> (bool, Connection<S>) {
    match Tables::open(alloc, &Language, conn, Nobody) {
        Ok((tables, book, _nobody)) => over_tables(alloc, tables, &book, keeping),
        Err((_, conn)) => (false, conn),
    }
}
