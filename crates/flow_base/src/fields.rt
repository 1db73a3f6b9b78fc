//! The members of a JSON object, read in the byte order of their keys.
ghost use Rattle.std.specs.Prelude.{◌≡◌, ◌≤◌, Some, option_map, IfOk};
ghost use Rattle.serde_json.specs.Find.{as_object};
ghost use Rattle.serde_json.specs.View.{view};
ghost use Rattle.flow_base.specs.Codec.{behind, front, field, none_left};
ghost use Rattle.flow_base.specs.Leaves.{whole, value, values, any_values, moment, position, key as a_key, long_text, any_text, kind, cause, fixed};
ghost use Rattle.flow_base.specs.Gives.{Gives};
ghost use Rattle.flow_base.specs.Fields.{left};

use crate::encoding::{any_values_of_json, values_of_json};
use crate::event::Cause;
use crate::memory::NoMemory;
use crate::number::{EventId, LAST_MOMENT, LAST_NUMBER, Moment, RunId, TextNo};
use crate::sequence::Sequence;
use crate::text::{Key, RawText, Text};
use crate::value::{Kind, Value, ValueFault};
use serde_json::{Map, Value as Json};
use std::alloc::{AllocError, AllocFailed, Global};

/// Why a reader stopped.
#[derive(Clone, Copy, Debug, PartialEq, Eq)]
pub enum FieldFault {
    /// A growth of memory was refused.
    Memory(NoMemory),
    /// The JSON isn't what is read.
    Unfit,
}

impl From<AllocError> for FieldFault {
    ghost use Rattle.std.specs.Prelude.{◌≡◌};
    ghost use Rattle.flow_base.specs.declared.fields.FieldFault.TheVariants.{Memory};

    ghost from_gives = { λ _ e. e ≡ Memory _ };

    fn from(refused: AllocError) -> FieldFault {
        FieldFault::Memory(NoMemory::from(refused))
    }
}

impl<T: Drop> From<AllocFailed<T>> for FieldFault {
    ghost use Rattle.std.specs.Prelude.{◌≡◌};
    ghost use Rattle.flow_base.specs.declared.fields.FieldFault.TheVariants.{Memory};

    ghost from_gives = { λ _ e. e ≡ Memory _ };

    fn from(refused: AllocFailed<T>) -> FieldFault {
        FieldFault::Memory(NoMemory::from(refused))
    }
}

impl From<ValueFault> for FieldFault {
    ghost use Rattle.std.specs.Prelude.{◌≡◌};
    ghost use Rattle.flow_base.specs.Gives.{refusal_of};

    ghost from_gives = { λ f e. e ≡ refusal_of f };

    fn from(fault: ValueFault) -> FieldFault {
        match fault {
            ValueFault::NoMemory(no_memory) => FieldFault::Memory(no_memory),
            ValueFault::NotAValue => FieldFault::Unfit,
            ValueFault::TooLong => FieldFault::Unfit,
        }
    }
}

/// The members of an object that aren't read yet. Each reader takes the member of the least key, which must be the one
/// that it is asked for; where it gives nothing that member is gone too, and no other.
#[derive(Drop)]
pub struct Fields {
    map: Map<String, Json>,
}

impl Fields {
    /// All members of an object.
    pub fn of_json(json: Json) -> Result<Fields, FieldFault>
        ensures { Gives left result (as_object (view json)) }
    {
        match json {
            Json::Object(map) => Ok(Fields { map }),
            _ => Err(FieldFault::Unfit),
        }
    }

    /// The value at the key, if that is the least key that is left.
    fn next(&mut self, key: &str) -> Option<Json>
        ensures front { option_map (λ v. (view v, left self.new)) result ≡ front key.now (left self.old) }
        ensures rest { left self.new ≡ behind (left self.old) }
    {
        let (name, value) = self.map.pop_first()?;
        if name.as_str() == key {
            Some(value)
        } else {
            None
        }
    }

    /// A whole number from `low` to `high`.
    pub fn whole(&mut self, key: &str, low: u64, high: u64) -> Result<u64, FieldFault>
        ensures gives { Gives (λ n. (n, left self.new)) result (field key.now (whole low high) (left self.old)) }
        ensures rest { left self.new ≡ behind (left self.old) }
        ensures within { IfOk result (λ n. (low ≤ n) × (n ≤ high)) }
    {
        let json = self.next(key).ok_or(FieldFault::Unfit)?;
        match json.as_u64() {
            Some(n) if low <= n && n <= high => Ok(n),
            _ => Err(FieldFault::Unfit),
        }
    }

    /// The number of a run.
    pub fn run(&mut self, key: &str) -> Result<RunId, FieldFault>
        ensures gives { Gives (λ n. (n, left self.new)) result (field key.now position (left self.old)) }
        ensures rest { left self.new ≡ behind (left self.old) }
    {
        let number = self.whole(key, 1, LAST_NUMBER)?;
        RunId::new(number).ok_or(FieldFault::Unfit)
    }

    /// The number of an event.
    pub fn event(&mut self, key: &str) -> Result<EventId, FieldFault>
        ensures gives { Gives (λ n. (n, left self.new)) result (field key.now position (left self.old)) }
        ensures rest { left self.new ≡ behind (left self.old) }
    {
        let number = self.whole(key, 1, LAST_NUMBER)?;
        EventId::new(number).ok_or(FieldFault::Unfit)
    }

    /// The number of a text.
    pub fn text_number(&mut self, key: &str) -> Result<TextNo, FieldFault>
        ensures gives { Gives (λ n. (n, left self.new)) result (field key.now position (left self.old)) }
        ensures rest { left self.new ≡ behind (left self.old) }
    {
        let number = self.whole(key, 1, LAST_NUMBER)?;
        TextNo::new(number).ok_or(FieldFault::Unfit)
    }

    /// A moment.
    pub fn moment(&mut self, key: &str) -> Result<Moment, FieldFault>
        ensures gives { Gives (λ n. (n, left self.new)) result (field key.now moment (left self.old)) }
        ensures rest { left self.new ≡ behind (left self.old) }
    {
        let milliseconds = self.whole(key, 0, LAST_MOMENT)?;
        Moment::new(milliseconds).ok_or(FieldFault::Unfit)
    }

    /// A name of 1 to 64 bytes.
    pub fn key(&mut self, alloc: Global, key: &str) -> Result<Key, FieldFault>
        ensures gives { Gives (λ n. (n, left self.new)) result (field key.now a_key (left self.old)) }
        ensures rest { left self.new ≡ behind (left self.old) }
    {
        let json = self.next(key).ok_or(FieldFault::Unfit)?;
        let text = json.as_str().ok_or(FieldFault::Unfit)?;
        Ok(Key::new(alloc, text)?)
    }

    /// A text of at most 4,096 bytes.
    pub fn text(&mut self, alloc: Global, key: &str) -> Result<Text, FieldFault>
        ensures gives { Gives (λ n. (n, left self.new)) result (field key.now long_text (left self.old)) }
        ensures rest { left self.new ≡ behind (left self.old) }
    {
        let json = self.next(key).ok_or(FieldFault::Unfit)?;
        let text = json.as_str().ok_or(FieldFault::Unfit)?;
        Ok(Text::new(alloc, text)?)
    }

    /// Any string.
    pub fn any_text(&mut self, alloc: Global, key: &str) -> Result<RawText, FieldFault>
        ensures gives { Gives (λ n. (n, left self.new)) result (field key.now any_text (left self.old)) }
        ensures rest { left self.new ≡ behind (left self.old) }
    {
        let json = self.next(key).ok_or(FieldFault::Unfit)?;
        let text = json.as_str().ok_or(FieldFault::Unfit)?;
        Ok(RawText::new(alloc, text)?)
    }

    /// A value.
    pub fn value(&mut self, alloc: Global, key: &str) -> Result<Value, FieldFault>
        ensures gives { Gives (λ n. (n, left self.new)) result (field key.now value (left self.old)) }
        ensures rest { left self.new ≡ behind (left self.old) }
    {
        let json = self.next(key).ok_or(FieldFault::Unfit)?;
        Ok(Value::of_json(alloc, &json)?)
    }

    /// A list of at most 256 values.
    pub fn values(&mut self, alloc: Global, key: &str) -> Result<Sequence<Value>, FieldFault>
        ensures gives { Gives (λ n. (n, left self.new)) result (field key.now values (left self.old)) }
        ensures rest { left self.new ≡ behind (left self.old) }
    {
        let json = self.next(key).ok_or(FieldFault::Unfit)?;
        values_of_json(alloc, &json)
    }

    /// A list of values, however many.
    pub fn any_values(&mut self, alloc: Global, key: &str) -> Result<Sequence<Value>, FieldFault>
        ensures gives { Gives (λ n. (n, left self.new)) result (field key.now any_values (left self.old)) }
        ensures rest { left self.new ≡ behind (left self.old) }
    {
        let json = self.next(key).ok_or(FieldFault::Unfit)?;
        any_values_of_json(alloc, &json)
    }

    /// The name of a type.
    pub fn kind(&mut self, key: &str) -> Result<Kind, FieldFault>
        ensures gives { Gives (λ n. (n, left self.new)) result (field key.now kind (left self.old)) }
        ensures rest { left self.new ≡ behind (left self.old) }
    {
        let json = self.next(key).ok_or(FieldFault::Unfit)?;
        let text = json.as_str().ok_or(FieldFault::Unfit)?;
        Kind::named(text).ok_or(FieldFault::Unfit)
    }

    /// The name of a cause.
    pub fn cause(&mut self, key: &str) -> Result<Cause, FieldFault>
        ensures gives { Gives (λ n. (n, left self.new)) result (field key.now cause (left self.old)) }
        ensures rest { left self.new ≡ behind (left self.old) }
    {
        let json = self.next(key).ok_or(FieldFault::Unfit)?;
        let text = json.as_str().ok_or(FieldFault::Unfit)?;
        Cause::named(text).ok_or(FieldFault::Unfit)
    }

    /// This very word.
    pub fn fixed(&mut self, key: &str, word: &str) -> Result<(), FieldFault>
        ensures gives { Gives (λ n. (n, left self.new)) result (field key.now (fixed word.now) (left self.old)) }
        ensures rest { left self.new ≡ behind (left self.old) }
    {
        let json = self.next(key).ok_or(FieldFault::Unfit)?;
        match json.as_str() {
            Some(text) if text == word => Ok(()),
            _ => Err(FieldFault::Unfit),
        }
    }

    /// Nothing is left.
    pub fn finish(mut self) -> Result<(), FieldFault>
        ensures { Gives (λ _. tt) result (none_left (left self)) }
    {
        match self.map.pop_first() {
            None => Ok(()),
            Some(_) => Err(FieldFault::Unfit),
        }
    }
}
