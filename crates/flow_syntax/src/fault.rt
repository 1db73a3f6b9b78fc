ghost use Rattle.std.specs.Prelude.{◌≡◌, MatchResult, None, Some};
ghost use Rattle.flow_syntax.specs.Faults.{fault_code, fault_place};

use flow_base::code::Code;
use flow_base::memory::NoMemory;
use flow_tokens::TokensFault;
use std::alloc::{AllocError, AllocFailed};

/// Why a text is no program. A place is a byte of the text.
#[derive(Debug, Drop, thiserror::Error)]
pub enum ParseFault {
    #[error("{} out of memory", self.code())]
    NoMemory(NoMemory),
    /// No token begins here.
    #[error("{} at {}", self.code(), .0)]
    BadToken(usize),
    /// The first token that no beginning of a program admits, or the text's length where it ends early.
    #[error("{} at {}", self.code(), .0)]
    Unexpected(usize),
    /// The text has more than 65,536 bytes.
    #[error("{} at 65536", self.code())]
    TextTooLong,
    /// The bracket with which 65 stand unclosed, or the 65th operator of one outermost expression.
    #[error("{} at {}", self.code(), .0)]
    TooDeep(usize),
}

impl ParseFault {
    /// The number of the refusal.
    pub fn code(&self) -> Code
        ensures { result ≡ fault_code self.now }
    {
        match self {
            ParseFault::NoMemory(no_memory) => no_memory.code(),
            ParseFault::BadToken(_) => Code::BadToken,
            ParseFault::Unexpected(_) => Code::Unexpected,
            ParseFault::TextTooLong => Code::TextTooLong,
            ParseFault::TooDeep(_) => Code::TooDeep,
        }
    }

    /// The place of the fault; the want of memory where it is none of the text.
    pub fn place(&self) -> Result<usize, NoMemory>
        ensures { MatchResult result (λ at. fault_place self.now ≡ Some at) (λ _. fault_place self.now ≡ None) }
    {
        match self {
            ParseFault::NoMemory(no_memory) => Err(*no_memory),
            ParseFault::BadToken(at) => Ok(*at),
            ParseFault::Unexpected(at) => Ok(*at),
            ParseFault::TextTooLong => Ok(65536),
            ParseFault::TooDeep(at) => Ok(*at),
        }
    }

    /// The place of the fault. The want of memory has none.
    pub fn at(&self) -> Option<usize>
        ensures { result ≡ fault_place self.now }
    {
        match self {
            ParseFault::NoMemory(_) => None,
            ParseFault::BadToken(at) => Some(*at),
            ParseFault::Unexpected(at) => Some(*at),
            ParseFault::TextTooLong => Some(65536),
            ParseFault::TooDeep(at) => Some(*at),
        }
    }
}

impl From<AllocError> for ParseFault {
    ghost use Rattle.std.specs.Prelude.{◌≡◌};
    ghost use Rattle.flow_syntax.specs.declared.fault.ParseFault.TheVariants.{NoMemory};

    ghost from_gives = { λ _ e. e ≡ NoMemory _ };

    fn from(refused: AllocError) -> ParseFault {
        ParseFault::NoMemory(NoMemory::from(refused))
    }
}

impl From<TokensFault> for ParseFault {
    ghost use Rattle.std.specs.Prelude.{◌≡◌};
    ghost use Rattle.flow_syntax.specs.declared.fault.ParseFault.TheVariants.{NoMemory};

    ghost from_gives = { λ _ e. e ≡ NoMemory _ };

    fn from(fault: TokensFault) -> ParseFault {
        match fault {
            TokensFault::NoMemory(no_memory) => ParseFault::NoMemory(no_memory),
        }
    }
}

/// Why tokens weren't read: no memory, or a token doesn't fit with so many left, itself among them.
#[derive(Debug, Drop)]
pub(crate) enum Stop {
    NoMemory(NoMemory),
    Unexpected(usize),
}

impl From<AllocError> for Stop {
    ghost use Rattle.std.specs.Prelude.{◌≡◌};
    ghost use Rattle.flow_syntax.specs.declared.fault.Stop.TheVariants.{NoMemory};

    ghost from_gives = { λ _ e. e ≡ NoMemory _ };

    fn from(refused: AllocError) -> Stop {
        Stop::NoMemory(NoMemory::from(refused))
    }
}

impl<T: Drop> From<AllocFailed<T>> for Stop {
    ghost use Rattle.std.specs.Prelude.{◌≡◌};
    ghost use Rattle.flow_syntax.specs.declared.fault.Stop.TheVariants.{NoMemory};

    ghost from_gives = { λ _ e. e ≡ NoMemory _ };

    fn from(refused: AllocFailed<T>) -> Stop {
        Stop::NoMemory(NoMemory::from(refused))
    }
}
