ghost use Rattle.std.specs.Prelude.{◌≡◌};
ghost use Rattle.flow_view.specs.Codes.{view_fault_code};

use flow_base::code::Code;
use flow_base::memory::NoMemory;
use std::alloc::{AllocError, AllocFailed};

/// Why a view gave no answer. What it then holds of the changes that were under way isn't said: the caller rolls back.
#[derive(Debug, Drop, thiserror::Error)]
pub enum ViewFault {
    #[error("{} out of memory", self.code())]
    NoMemory(NoMemory),
    /// The store refused a statement, or a number has passed the last one.
    #[error("{} store refused", self.code())]
    StoreRefused,
}

impl ViewFault {
    /// The number of the refusal.
    pub fn code(&self) -> Code
        ensures { result ≡ view_fault_code self.now }
    {
        match self {
            ViewFault::NoMemory(no_memory) => no_memory.code(),
            ViewFault::StoreRefused => Code::StoreRefused,
        }
    }
}

impl From<AllocError> for ViewFault {
    ghost use Rattle.std.specs.Prelude.{◌≡◌};
    ghost use Rattle.flow_view.specs.declared.fault.ViewFault.TheVariants.{NoMemory};

    ghost from_gives = { λ _ e. e ≡ NoMemory _ };

    fn from(refused: AllocError) -> ViewFault {
        ViewFault::NoMemory(NoMemory::from(refused))
    }
}

impl<T: Drop> From<AllocFailed<T>> for ViewFault {
    ghost use Rattle.std.specs.Prelude.{◌≡◌};
    ghost use Rattle.flow_view.specs.declared.fault.ViewFault.TheVariants.{NoMemory};

    ghost from_gives = { λ _ e. e ≡ NoMemory _ };

    fn from(refused: AllocFailed<T>) -> ViewFault {
        ViewFault::NoMemory(NoMemory::from(refused))
    }
}
