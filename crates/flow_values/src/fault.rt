ghost use Rattle.std.specs.Prelude.{◌≡◌};

use flow_base::code::Code;
use flow_base::memory::NoMemory;
use std::alloc::{AllocError, AllocFailed};

/// Why no value was computed.
#[derive(Debug, Drop, thiserror::Error)]
pub enum EvalFault {
    #[error("{} out of memory", self.code())]
    NoMemory(NoMemory),
}

impl EvalFault {
    /// The number of the refusal.
    pub fn code(&self) -> Code
        ensures { result ≡ Code.NoMemory }
    {
        match self {
            EvalFault::NoMemory(no_memory) => no_memory.code(),
        }
    }
}

impl From<AllocError> for EvalFault {
    fn from(refused: AllocError) -> EvalFault {
        EvalFault::NoMemory(NoMemory::from(refused))
    }
}

impl<T: Drop> From<AllocFailed<T>> for EvalFault {
    fn from(refused: AllocFailed<T>) -> EvalFault {
        EvalFault::NoMemory(NoMemory::from(refused))
    }
}
