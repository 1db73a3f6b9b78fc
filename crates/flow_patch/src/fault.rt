ghost use Rattle.std.specs.Prelude.{◌≡◌};
ghost use Rattle.flow_patch.specs.Refusals.{unsettled_code};

use flow_base::code::Code;
use flow_base::memory::NoMemory;
use std::alloc::AllocError;

/// A change that isn't known to be safe for the runs that have begun.
#[derive(Clone, Copy, Debug, PartialEq, Eq, thiserror::Error)]
#[error("{code} at {at}")]
pub struct Unsafe {
    /// The byte of the new text where it first differs from what it would have to be.
    pub at: usize,
    /// The number of the refusal.
    pub code: Code,
}

/// Why it isn't told which patches a text settles.
#[derive(Clone, Copy, Debug, PartialEq, Eq, thiserror::Error)]
pub enum Unsettled {
    #[error("{} out of memory", self.code())]
    NoMemory(NoMemory),
    /// The new text isn't the old one with patches settled.
    #[error("{} at {}", self.code(), .0.at)]
    Differs(Unsafe),
}

impl Unsettled {
    /// The number of the refusal.
    pub fn code(self) -> Code
        ensures { result ≡ unsettled_code self }
    {
        match self {
            Unsettled::NoMemory(no_memory) => no_memory.code(),
            Unsettled::Differs(difference) => difference.code,
        }
    }
}

impl From<AllocError> for Unsettled {
    ghost use Rattle.std.specs.Prelude.{◌≡◌};
    ghost use Rattle.flow_patch.specs.declared.fault.Unsettled.TheVariants.{NoMemory};

    ghost from_gives = { λ _ e. e ≡ NoMemory _ };

    fn from(refused: AllocError) -> Unsettled {
        Unsettled::NoMemory(NoMemory::from(refused))
    }
}
