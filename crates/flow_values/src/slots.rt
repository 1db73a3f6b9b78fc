ghost use Rattle.std.specs.Prelude.{◌≡◌, ◌<◌, ◌∷◌, [], ◌++◌, length, IfOk, OnOk, MatchOption, None, Some};
ghost use Rattle.flow_base.specs.declared.value.Value.{Value as AValue};
ghost use Rattle.flow_model.specs.Values.{with_variable, none_set};
ghost use Rattle.flow_values.specs.Held.{held};
ghost use Rattle.flow_values.specs.Slots.{number_of, slot_of, slots, value_at, written};

use crate::evaluate::Vars;
use flow_base::text::Key;
use flow_base::value::Value;
use std::alloc::{AllocError, Global};
use std::marker::Model;
use std::sync::Arc;

/// The values of variables, each by the number of its name in a list of names. What is shared are the same lists until one of the
/// two changes; the names change only where a name gets a value that isn't among them.
#[derive(Debug, Drop)]
pub struct Slots {
    names: Arc<Vec<Key>>,
    /// None where no variable has a value yet, which takes no memory. A number past the end has none.
    values: Option<Arc<Vec<Option<Value>>>>,
}

impl Model for Slots {
    ghost use Rattle.std.specs.Prelude.{List, ℕ, Option};
    ghost use Rattle.flow_base.specs.declared.value.Value.{Value as AValue};
    ghost use Rattle.flow_values.specs.Held.{held};
    ghost use Rattle.flow_values.specs.Slots.{slots};

    ghost Value = { List (List ℕ × Option AValue) };

    ghost view = { λ s. slots s.names.value.items (held s.values (λ a. a.value.items)) };
}

impl Slots {
    /// No variable has a value.
    pub fn new(names: Arc<Vec<Key>>) -> Slots
        ensures { slot_of result ≡ none_set }
    {
        Slots {
            names,
            values: None,
        }
    }

    /// The same values, not a copy of them.
    pub fn share(&self) -> Result<Slots, AllocError>
        ensures { IfOk result (λ s. s ≡ self.now) }
    {
        let names = self.names.clone()?;
        match &self.values {
            Some(values) => {
                let values = Some(values.clone()?);
                Ok(Slots { names, values })
            }
            None => Ok(Slots {
                names,
                values: None,
            }),
        }
    }

    /// Gives a variable a value.
    ///
    /// # Failure
    /// E01.
    pub fn set(&mut self, alloc: Global, name: &Key, value: Value) -> Result<(), AllocError>
        ensures { OnOk result (slot_of self.new ≡ with_variable (slot_of self.old) name.now value) }
    {
        match number(&self.names, name) {
            Some(i) => write(alloc, &mut self.values, i, value)?,
            None => {
                let names = with_name(alloc, &self.names, name)?;
                write(alloc, &mut self.values, self.names.len(), value)?;
                self.names = names;
            }
        }
        Ok(())
    }

    /// The value of a variable, if it has one.
    pub fn find(&self, name: &str) -> Option<&Value>
        ensures { MatchOption result (slot_of self.now name.now ≡ None) (λ v. slot_of self.now name.now ≡ Some v.now) }
    {
        found(&self.names, &self.values, name)
    }
}

impl Vars for Slots {
    ghost use Rattle.flow_values.specs.Slots.{slot_of};

    ghost variables = { slot_of };

    fn get(&self, name: &Key) -> Option<&Value> {
        self.find(name.as_str())
    }
}

// The value of the first number that a name has.
fn found<'a>(
    names: &[Key],
    values: &'a Option<Arc<Vec<Option<Value>>>>,
    name: &str,
) -> Option<&'a Value>
    ensures { MatchOption result (slot_of (slots names.now (held values.now (λ a. a.value.items))) name.now ≡ None)
        (λ v. slot_of (slots names.now (held values.now (λ a. a.value.items))) name.now ≡ Some v.now) }
{
    for (i, n) in names.iter().enumerate() {
        if name == n.as_str() {
            return value_in(values, i);
        }
    }
    None
}

// What a number has.
fn value_in(values: &Option<Arc<Vec<Option<Value>>>>, i: usize) -> Option<&Value>
    ensures { MatchOption result (value_at (held values.now (λ a. a.value.items)) i ≡ None)
        (λ v. value_at (held values.now (λ a. a.value.items)) i ≡ Some v.now) }
{
    match values {
        Some(list) => nth(list, i),
        None => None,
    }
}

#[tactic(auto, using(crate::proofs::Slotted::value_index, crate::proofs::Slotted::value_past))]
fn nth(values: &[Option<Value>], i: usize) -> Option<&Value>
    ensures { MatchOption result (value_at values.now i ≡ None) (λ v. value_at values.now i ≡ Some v.now) }
{
    if i >= values.len() {
        return None;
    }
    match &values[i] {
        Some(value) => Some(value),
        None => None,
    }
}

// The first number of a name.
fn number(names: &[Key], name: &Key) -> Option<usize>
    ensures { result ≡ number_of names.now name.now }
{
    for (i, n) in names.iter().enumerate() {
        if n.is(name) {
            return Some(i);
        }
    }
    None
}

// The names, and one more.
fn with_name(alloc: Global, names: &[Key], name: &Key) -> Result<Arc<Vec<Key>>, AllocError>
    ensures { IfOk result (λ a. a.value.items ≡ names.now ++ name.now ∷ []) }
{
    let mut list = Vec::new(alloc);
    for n in names {
        list.push(n.copy(alloc)?)?;
    }
    list.push(name.copy(alloc)?)?;
    Ok(Arc::new(alloc, list)?)
}

// A number gets a value: values that nobody else has are changed in place, else a copy of them.
fn write(
    alloc: Global,
    values: &mut Option<Arc<Vec<Option<Value>>>>,
    i: usize,
    value: Value,
) -> Result<(), AllocError>
    ensures { OnOk result (held values.new (λ a. a.value.items) ≡ written (held values.old (λ a. a.value.items)) i value) }
{
    match values {
        Some(list) => write_shared(alloc, list, i, value)?,
        None => {
            let mut own = Vec::with_capacity(alloc, i.saturating_add(1))?;
            write_in(&mut own, i, value)?;
            *values = Some(Arc::new(alloc, own)?);
        }
    }
    Ok(())
}

fn write_shared(
    alloc: Global,
    values: &mut Arc<Vec<Option<Value>>>,
    i: usize,
    value: Value,
) -> Result<(), AllocError>
    ensures { OnOk result (values.new.value.items ≡ written values.old.value.items i value) }
{
    match Arc::get_mut(values) {
        Some(own) => write_in(own, i, value)?,
        None => {
            let mut own = copy_values(alloc, values)?;
            write_in(&mut own, i, value)?;
            *values = Arc::new(alloc, own)?;
        }
    }
    Ok(())
}

fn write_in(values: &mut Vec<Option<Value>>, i: usize, value: Value) -> Result<(), AllocError>
    ensures { OnOk result (values.new.items ≡ written values.old.items i value) }
{
    make_room(values, i)?;
    values[i] = Some(value);
    Ok(())
}

// Numbers up to this one are there, those that weren't with no value.
fn make_room(values: &mut Vec<Option<Value>>, i: usize) -> Result<(), AllocError>
    ensures there { OnOk result (i < length values.new.items) }
    ensures same { OnOk result ((v : AValue) → written values.new.items i v ≡ written values.old.items i v) }
{
    while values.len() <= i {
        values.push(None)?;
    }
    Ok(())
}

fn copy_values(alloc: Global, values: &[Option<Value>]) -> Result<Vec<Option<Value>>, AllocError>
    ensures { IfOk result (λ v. v.items ≡ values.now) }
{
    let mut list = Vec::with_capacity(alloc, values.len())?;
    for v in values {
        list.push(copy_value(alloc, v)?)?;
    }
    Ok(list)
}

fn copy_value(alloc: Global, value: &Option<Value>) -> Result<Option<Value>, AllocError>
    ensures { IfOk result (λ v. v ≡ value.now) }
{
    match value {
        Some(v) => {
            let v = v.copy(alloc)?;
            Ok(Some(v))
        }
        None => Ok(None),
    }
}
