//! Where lines go.
ghost use Rattle.std.specs.Prelude.{◌≡◌, ℕ, Bool, List, ◌++◌, ◌∷◌, [], Option, IfOk, OnOk, IfErr, string_bytes};
ghost use Rattle.std.specs.Io.KnownBytes.{Appends, Keeps};
ghost use Rattle.flow_lines.specs.Driving.{WritesBeginning};
ghost use Rattle.flow_lines.specs.Ends.{fault_of_unwritten, write_failed, write_ran_out};
ghost use Rattle.flow_lines.specs.Replies.{line_text};

use crate::reply::Line;
use flow_base::fault::Fault;
use flow_base::memory::NoMemory;
use std::alloc::{AllocError, Global};

/// Why not all was written.
#[derive(Clone, Copy, Debug, PartialEq, Eq)]
pub enum Unwritten {
    /// Memory was refused, and nothing was written.
    NoMemory(NoMemory),
    /// The output can't be written.
    Failed,
}

impl Unwritten {
    /// E01 or E95.
    pub fn fault(self) -> Fault
        ensures { result ≡ fault_of_unwritten self }
    {
        match self {
            Unwritten::NoMemory(no_memory) => Fault::NoMemory(no_memory),
            Unwritten::Failed => Fault::OutputFailed,
        }
    }
}

impl From<AllocError> for Unwritten {
    ghost use Rattle.std.specs.Prelude.{◌≡◌};
    ghost use Rattle.flow_lines.specs.declared.output.Unwritten.TheVariants.{NoMemory};

    ghost from_gives = { λ _ e. e ≡ NoMemory _ };

    fn from(refused: AllocError) -> Unwritten {
        Unwritten::NoMemory(NoMemory::from(refused))
    }
}

/// A line with its end.
pub(crate) fn with_end(mut line: String) -> Result<String, AllocError>
    ensures { IfOk result (λ whole. string_bytes whole ≡ string_bytes line ++ 10 ∷ []) }
{
    line.push('\n')?;
    Ok(line)
}

/// Where bytes and reply lines are written.
pub trait Output {
    /// What it holds, where that is known.
    ghost contents: { Self → Option (List ℕ) };

    /// Whether it has failed. Nothing else than a call that fails makes it so.
    ghost failed: { Self → Bool };

    /// Whether memory was refused for what was to be written. Nothing else than such a call makes it so.
    ghost ran_out: { Self → Bool };

    /// Writes all bytes.
    fn put(&mut self, bytes: &[u8]) -> Result<(), Unwritten>
        ensures all { OnOk result (Appends (contents self.old) (contents self.new) bytes.now) }
        ensures beginning { WritesBeginning (contents self.old) (contents self.new) bytes.now }
        ensures kept { IfErr result (λ e. e ≡ Unwritten.NoMemory _ → Keeps (contents self.old) (contents self.new)) }
        ensures failed { failed self.new ≡ write_failed result (failed self.old) }
        ensures ran_out { ran_out self.new ≡ write_ran_out result (ran_out self.old) };

    /// Writes what is told of a line.
    fn put_line(&mut self, alloc: Global, line: &Line) -> Result<(), Unwritten>
        ensures all { OnOk result (Appends (contents self.old) (contents self.new) (line_text line.now ++ 10 ∷ [])) }
        ensures beginning { WritesBeginning (contents self.old) (contents self.new) (line_text line.now ++ 10 ∷ []) }
        ensures kept { IfErr result (λ e. e ≡ Unwritten.NoMemory _ → Keeps (contents self.old) (contents self.new)) }
        ensures failed { failed self.new ≡ write_failed result (failed self.old) }
        ensures ran_out { ran_out self.new ≡ write_ran_out result (ran_out self.old) };
}
