//! The headline, as laws of every store.
ghost use Rattle.flow_engine.specs.Headline.{BoardedCallsJoin, BoardsAreCalls, CallsJoin, CommitsAreCalls, DrivenAreBoarded, Headline, OpenedBegin, VerifiesAreCalls};
ghost use Rattle.flow_engine.specs.Stopping.{CloseContinues, StopContinues};
ghost use Rattle.flow_engine.specs.Worlds.{LivesAreSteps};

use flow_world::world_is_safe;
use sqlite::Alter;
use sqlite_disk::Disk;

/// Whatever lives the engine has over one store, however its batches are gathered and wherever it is stopped: there is one
/// log of the commands that it kept. Each life finds the book after a beginning of it, with exactly one position for each open run,
/// which stands there; what it puts into the log is what it committed, and its batch in hand whole or not at all; and each receipt is
/// at its place with its reply. No opening over such a book is refused for what the store holds.
pub fn lives_make_one_log<S: Alter>()
    ensures { Headline S.Store }
{}

/// A life may begin over what a connection was opened over: a file with a book, or a store that is empty or was stopped while its
/// tables were being made, also where its opening is refused.
pub fn opened_stores_begin<S: Alter>()
    ensures { OpenedBegin S.Store }
{}

/// Batches that were answered in several calls of one life were answered as in one.
pub fn calls_join<S: Alter>()
    ensures { CallsJoin S.Store }
{}

/// So were those that were answered with boards in between. Batches that were driven are such calls.
pub fn boarded_calls_join<S: Alter>()
    ensures join { BoardedCallsJoin S.Store }
    ensures driven { DrivenAreBoarded S.Store }
{}

/// What a commit says is a part of a life, and so is what a board or a verify says, by which no batch is answered.
pub fn calls_are_parts<S: Alter>()
    ensures commit { CommitsAreCalls S.Store }
    ensures board { BoardsAreCalls S.Store }
    ensures verify { VerifiesAreCalls S.Store }
{}

/// What a stop leaves of the two files of a store is a database that the store allows, so a life over them continues the one that
/// was stopped.
pub fn stopped_files_continue<D: Disk>()
    ensures { StopContinues D.Disk }
{}

/// The two files that closing a connection gave back hold what was kept, as they are and as a stop may leave them, so a life over them
/// continues the one that was closed. `Connection::close` is that call, and gives the files to nobody.
pub fn closed_files_continue<D: Disk>()
    ensures { CloseContinues D.Disk }
{}

/// The lives of an engine are steps of the world of `flow_world`, and each ends in a world that is safe: what a stop may leave on
/// the disk is a book that a stop may leave there, so it is of a beginning of the accepted commands that holds every acknowledged one.
pub fn lives_are_steps<S: Alter>()
    ensures { LivesAreSteps S.Store }
{
    world_is_safe();
}
