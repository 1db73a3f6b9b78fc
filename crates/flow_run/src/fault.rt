ghost use Rattle.std.specs.Prelude.{◌≡◌};
ghost use Rattle.flow_run.specs.Codes.{run_fault_code};

use flow_base::code::Code;
use flow_base::memory::NoMemory;
use std::alloc::AllocError;

/// Why a run did not go on.
#[derive(Debug, Drop, thiserror::Error)]
pub enum RunFault {
    #[error("{} out of memory", self.code())]
    NoMemory(NoMemory),
    /// The run is open, or hasn't begun, and can't take this input.
    #[error("{} not awaited", self.code())]
    NotAwaited,
    #[error("{} closed", self.code())]
    Closed,
}

impl RunFault {
    /// The number of the refusal.
    pub fn code(&self) -> Code
        ensures { result ≡ run_fault_code self.now }
    {
        match self {
            RunFault::NoMemory(no_memory) => no_memory.code(),
            RunFault::NotAwaited => Code::NotAwaited,
            RunFault::Closed => Code::Closed,
        }
    }
}

impl From<AllocError> for RunFault {
    ghost use Rattle.std.specs.Prelude.{◌≡◌};
    ghost use Rattle.flow_run.specs.declared.fault.RunFault.TheVariants.{NoMemory};

    ghost from_gives = { λ _ e. e ≡ NoMemory _ };

    fn from(refused: AllocError) -> RunFault {
        RunFault::NoMemory(NoMemory::from(refused))
    }
}
