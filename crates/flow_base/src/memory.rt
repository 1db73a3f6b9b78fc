//! Want of memory: each fault with the number E01 holds this one value, and nobody makes it up.
ghost use Rattle.std.specs.Prelude.{◌≡◌};

use crate::code::Code;
use std::alloc::{AllocError, AllocFailed};

/// Memory was refused: E01. It is made of what an allocator answered; or of what another library or another thread tells of it, in
/// the arm of that kind of error or of that number.
///
/// No other file can make one, and in no expression of another file stands `AllocError` or `Code::NoMemory`. So who reads this file
/// and looks up who calls [`NoMemory::told`] has seen every place at which an E01 begins.
#[derive(Clone, Copy, Debug, PartialEq, Eq)]
pub struct NoMemory {
    refused: AllocError,
}

impl NoMemory {
    /// Somebody else told it: it is called in the arm of a kind of error which says so, or of the number E01.
    pub fn told() -> NoMemory {
        NoMemory {
            refused: AllocError,
        }
    }

    /// Its number.
    pub fn code(self) -> Code
        ensures { result ≡ Code.NoMemory }
    {
        Code::NoMemory
    }

    /// What the allocator answered.
    pub fn error(self) -> AllocError {
        self.refused
    }
}

impl From<AllocError> for NoMemory {
    fn from(refused: AllocError) -> NoMemory {
        NoMemory { refused }
    }
}

impl<T: Drop> From<AllocFailed<T>> for NoMemory {
    fn from(refused: AllocFailed<T>) -> NoMemory {
        NoMemory {
            refused: AllocError::from(refused),
        }
    }
}
