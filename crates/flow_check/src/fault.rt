ghost use Rattle.std.specs.Prelude.{◌≡◌};
ghost use Rattle.flow_check.specs.Faults.{check_fault_code, check_fault_place};

use flow_base::code::Code;
use flow_base::command::TextFault;
use flow_base::memory::NoMemory;
use std::alloc::AllocError;

/// Why a program isn't checked.
#[derive(Debug, Drop, thiserror::Error)]
pub enum CheckFault {
    #[error("{} out of memory", self.code())]
    NoMemory(NoMemory),
    /// E20 to E29: the rule that is broken at the least place, and of those there the one with the lowest number.
    #[error("{} at {}", self.code(), .0.at)]
    Rule(TextFault),
}

impl CheckFault {
    /// The number of the refusal.
    pub fn code(&self) -> Code
        ensures { result ≡ check_fault_code self.now }
    {
        match self {
            CheckFault::NoMemory(no_memory) => no_memory.code(),
            CheckFault::Rule(fault) => fault.code,
        }
    }

    /// The byte where the rule is broken.
    pub fn at(&self) -> Option<usize>
        ensures { result ≡ check_fault_place self.now }
    {
        match self {
            CheckFault::NoMemory(_) => None,
            CheckFault::Rule(fault) => Some(fault.at),
        }
    }
}

impl From<AllocError> for CheckFault {
    ghost use Rattle.std.specs.Prelude.{◌≡◌};
    ghost use Rattle.flow_check.specs.declared.fault.CheckFault.TheVariants.{NoMemory};

    ghost from_gives = { λ _ e. e ≡ NoMemory _ };

    fn from(refused: AllocError) -> CheckFault {
        CheckFault::NoMemory(NoMemory::from(refused))
    }
}
