//! What the program has of its system: the words that it was called with, files, and its streams.
//!
//! No contract can say which words, files and bytes a system gives. So each call says of its answer that this was given, by a word that
//! nothing else tells: whoever tells it on has made the call, with that name.
ghost use Rattle.std.specs.Prelude.{◌≡◌, ℕ, List, Bool, Result, String, Vec, Option, Some, false, IfOk};
ghost use Rattle.std.specs.declared.alloc.Global.{Global};
ghost use Rattle.std.specs.declared.io.Error.{Error};
ghost use Rattle.sqlite.specs.declared.error.Error.{Error as BaseError};
ghost use Rattle.sqlite.specs.declared.error.ErrorCode.{ErrorCode as BaseCode};
ghost use Rattle.sqlite.specs.Held.{Held};
ghost use Rattle.flow_cli.specs.declared.reason.Unopened.{Unopened as Why};

use flow_cli::reason::Unopened;
use flow_lines::input::LineSource;
use sqlite::{Alter, Connection, Error, ErrorCode};
use std::io;
use std::io::{BufRead, Write};

/// A system.
pub trait System {
    /// What keeps a store in a file.
    type Base: Alter + Drop;

    /// The lines of standard input, one after the other.
    type Lines: LineSource + Drop;

    /// Standard input, for a thread.
    type Reader: BufRead + Drop + Send + 'static;

    /// Standard output, for a thread.
    type Replies: Write + Drop + Send + 'static;

    /// Standard error, for a thread.
    type Notes: Write + Drop + Send + 'static;

    /// The program was called with these words.
    ghost calls: { Self → Result (Vec (String Global) Global) Error → Type 0 };

    /// Reading the file of this name gave that.
    ghost reads: { Self → List ℕ → Result (String Global) Error → Type 0 };

    /// Reading all of the input gave that.
    ghost takes: { Self → Result (String Global) Error → Type 0 };

    /// These are the files in the folder of this name, or there is no such folder.
    ghost lists: { Self → List ℕ → Result (Option (Vec (String Global) Global)) Error → Type 0 };

    /// Nothing has this name, or something has.
    ghost misses: { Self → List ℕ → Bool → Type 0 };

    /// Opening the store in the file of this name gave that.
    ghost opens: { Self → List ℕ → Result (Held Self.Base) BaseError → Type 0 };

    /// A second look at the file of this name, of whose opening this was said, found that.
    ghost finds: { Self → List ℕ → BaseCode → Why → Type 0 };

    /// This connection was closed.
    ghost closes: { Self → Held Self.Base → Type 0 };

    /// The lines of the input come from there, or can't be read.
    ghost gives: { Self → Result Self.Lines Error → Type 0 };

    /// The input is that, or can't be read.
    ghost lends: { Self → Result Self.Reader Error → Type 0 };

    /// The output is that.
    ghost prints: { Self → Self.Replies → Type 0 };

    /// The words that the program was called with; its own name is the first.
    fn words(&self) -> io::Result<Vec<String>>
        ensures { calls self.now result };

    /// The text of a file.
    fn text(&self, file: &str) -> io::Result<String>
        ensures { reads self.now file.now result };

    /// All of standard input.
    fn input(&self) -> io::Result<String>
        ensures { takes self.now result };

    /// The files in a folder, in the order of their names; none where it is no folder.
    fn folder(&self, path: &str) -> io::Result<Option<Vec<String>>>
        ensures { lists self.now path.now result };

    /// Whether nothing has this name, in a folder that is there.
    fn is_not_there(&self, file: &str) -> bool
        ensures { misses self.now file.now result };

    /// The store in a file, which is made where there is none.
    fn open(&self, file: &str) -> Result<Connection<Self::Base>, Error>
        ensures { opens self.now file.now result };

    /// Why a file isn't opened, by what was said of it.
    fn unopened(&self, file: &str, said: ErrorCode) -> Unopened
        ensures { finds self.now file.now said result };

    /// Copies the log of a file into the file, and takes the connection away. What was kept is kept in either, and the next opening reads
    /// both.
    fn close(&self, conn: &mut Option<Connection<Self::Base>>)
        ensures { (held : Held Self.Base) → conn.old ≡ Some held → closes self.now held };

    /// The lines of standard input.
    fn lines(&self) -> io::Result<Self::Lines>
        ensures given { gives self.now result }
        ensures fresh { IfOk result (λ lines. Self.Lines.failed lines ≡ false) };

    /// Standard input, for a thread.
    fn reader(&self) -> io::Result<Self::Reader>
        ensures { lends self.now result };

    /// Standard output, for a thread.
    fn replies(&self) -> Self::Replies
        ensures { prints self.now result };

    /// Standard error, for a thread.
    fn notes(&self) -> Self::Notes;

    /// Standard error, where it is a terminal.
    fn terminal(&self) -> Option<Self::Notes>;
}
