ghost use Rattle.std.specs.Prelude.{◌≡◌, IsTrue, ◌↔◌, IfOk};
ghost use Rattle.flow_base.specs.Kinds.{kind_of_value, value_fault_code};

use crate::code::Code;
use crate::memory::NoMemory;
use crate::text::Text;
use std::alloc::{AllocError, AllocFailed, Global};

/// The type of a value.
#[derive(Clone, Copy, Debug, PartialEq, Eq)]
pub enum Kind {
    Int,
    Text,
}

/// What variables hold and activities give.
#[derive(Debug, Drop)]
pub enum Value {
    Int(i64),
    Text(Text),
}

impl Value {
    /// An equal value, or E01.
    pub fn copy(&self, alloc: Global) -> Result<Value, AllocError>
        ensures { IfOk result (λ v. v ≡ self.now) }
    {
        match self {
            Value::Int(n) => Ok(Value::Int(*n)),
            Value::Text(t) => Ok(Value::Text(t.copy(alloc)?)),
        }
    }

    /// Whether it is this value.
    pub fn is(&self, other: &Value) -> bool
        ensures { IsTrue result ↔ (self.now ≡ other.now) }
    {
        match (self, other) {
            (Value::Int(n), Value::Int(m)) => *n == *m,
            (Value::Text(t), Value::Text(u)) => t.is(u),
            _ => false,
        }
    }

    /// Its type: `int` or `text`.
    pub fn kind(&self) -> Kind
        ensures { result ≡ kind_of_value self.now }
    {
        match self {
            Value::Int(_) => Kind::Int,
            Value::Text(_) => Kind::Text,
        }
    }
}

/// Why something is no value, text or key.
#[derive(Debug, Drop, thiserror::Error)]
pub enum ValueFault {
    #[error("{} out of memory", self.code())]
    NoMemory(NoMemory),
    #[error("{} not a value", self.code())]
    NotAValue,
    #[error("{} too long", self.code())]
    TooLong,
}

impl ValueFault {
    /// The number of the refusal.
    pub fn code(&self) -> Code
        ensures { result ≡ value_fault_code self.now }
    {
        match self {
            ValueFault::NoMemory(no_memory) => no_memory.code(),
            ValueFault::NotAValue => Code::NotAValue,
            ValueFault::TooLong => Code::TooLong,
        }
    }
}

impl From<AllocError> for ValueFault {
    ghost use Rattle.std.specs.Prelude.{◌≡◌};
    ghost use Rattle.flow_base.specs.declared.value.ValueFault.TheVariants.{NoMemory};

    ghost from_gives = { λ _ e. e ≡ NoMemory _ };

    fn from(refused: AllocError) -> ValueFault {
        ValueFault::NoMemory(NoMemory::from(refused))
    }
}

impl<T: Drop> From<AllocFailed<T>> for ValueFault {
    ghost use Rattle.std.specs.Prelude.{◌≡◌};
    ghost use Rattle.flow_base.specs.declared.value.ValueFault.TheVariants.{NoMemory};

    ghost from_gives = { λ _ e. e ≡ NoMemory _ };

    fn from(refused: AllocFailed<T>) -> ValueFault {
        ValueFault::NoMemory(NoMemory::from(refused))
    }
}
