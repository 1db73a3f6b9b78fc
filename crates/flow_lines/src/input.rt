//! Where lines come from.
ghost use Rattle.std.specs.Prelude.{◌≡◌, ℕ, Bool, List, [], Option, Some, IfOk, IfSome, IfNone};
ghost use Rattle.flow_lines.specs.Answering.{FirstLine};
ghost use Rattle.flow_lines.specs.Ends.{fault_of_unread, read_failed, Gives};

use flow_base::fault::Fault;
use flow_base::memory::NoMemory;
use std::alloc::Global;

/// Why no line was read.
#[derive(Clone, Copy, Debug, PartialEq, Eq)]
pub enum Unread {
    /// Memory was refused.
    NoMemory(NoMemory),
    /// The input can't be read.
    Failed,
}

impl Unread {
    /// E01 or E94.
    pub fn fault(self) -> Fault
        ensures { result ≡ fault_of_unread self }
    {
        match self {
            Unread::NoMemory(no_memory) => Fault::NoMemory(no_memory),
            Unread::Failed => Fault::InputFailed,
        }
    }
}

/// Lines, one after the other.
pub trait LineSource {
    /// The bytes that are left, where they are known.
    ghost left: { Self → Option (List ℕ) };

    /// Whether it has failed. Nothing else than a call that fails makes it so.
    ghost failed: { Self → Bool };

    /// How many lines it has given.
    ghost given: { Self → ℕ };

    /// The next line, without its end; none after the last one. An input that goes on after as many lines as are counted has failed.
    fn next_line(&mut self, alloc: Global) -> Result<Option<Vec<u8>>, Unread>
        ensures line { IfOk result (λ found. IfSome found
            (λ line. IfSome (left self.old) (λ bytes. FirstLine bytes line.items (left self.new)))) }
        ensures end { IfOk result (λ found. IfNone found (IfSome (left self.old) (λ bytes. (bytes ≡ []) × (left self.new ≡ Some bytes)))) }
        ensures given { IfOk result (λ found. IfSome found (λ line. Gives 1 (given self.old) (given self.new))) }
        ensures still { IfOk result (λ found. IfNone found (Gives 0 (given self.old) (given self.new))) }
        ensures failed { failed self.new ≡ read_failed result (failed self.old) };
}
