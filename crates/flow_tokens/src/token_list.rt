ghost use Rattle.std.specs.Prelude.{◌≡◌};

use flow_base::code::Code;
use flow_base::memory::NoMemory;
use flow_base::token::Token;
use std::alloc::{AllocError, AllocFailed};

/// The tokens of a text up to its first fault.
#[derive(Debug, Drop)]
pub struct Tokens {
    pub list: Vec<Token>,
    /// The place of the first E10, if there is one: the byte at which no token begins, or the first byte of a token
    /// that breaks a rule.
    pub fault: Option<usize>,
}

/// Why a text was not cut into tokens.
#[derive(Debug, Drop, thiserror::Error)]
pub enum TokensFault {
    #[error("{} out of memory", self.code())]
    NoMemory(NoMemory),
}

impl TokensFault {
    /// The number of the refusal.
    pub fn code(&self) -> Code
        ensures { result ≡ Code.NoMemory }
    {
        match self {
            TokensFault::NoMemory(no_memory) => no_memory.code(),
        }
    }
}

impl From<AllocError> for TokensFault {
    ghost use Rattle.std.specs.Prelude.{◌≡◌};
    ghost use Rattle.flow_tokens.specs.declared.token_list.TokensFault.TheVariants.{NoMemory};

    ghost from_gives = { λ _ e. e ≡ NoMemory _ };

    fn from(refused: AllocError) -> TokensFault {
        TokensFault::NoMemory(NoMemory::from(refused))
    }
}

impl<T: Drop> From<AllocFailed<T>> for TokensFault {
    ghost use Rattle.std.specs.Prelude.{◌≡◌};
    ghost use Rattle.flow_tokens.specs.declared.token_list.TokensFault.TheVariants.{NoMemory};

    ghost from_gives = { λ _ e. e ≡ NoMemory _ };

    fn from(refused: AllocFailed<T>) -> TokensFault {
        TokensFault::NoMemory(NoMemory::from(refused))
    }
}
