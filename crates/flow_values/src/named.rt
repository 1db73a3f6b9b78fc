ghost use Rattle.std.specs.Prelude.{◌≡◌, ◌<◌, ℕ, List, [], ◌∷◌, ◌++◌, length, slice_index_or, remove, IfOk, OnOk, OnErr, MatchOption, None, Some, Ok};
ghost use Rattle.flow_base.specs.declared.value.Value.{Value as AValue};
ghost use Rattle.flow_model.specs.Values.{with_variable};
ghost use Rattle.flow_model.specs.Step.{oldest, without_oldest};
ghost use Rattle.flow_values.specs.Named.{look_up, put, IsPlace, IsOldest};

use crate::evaluate::Vars;
use flow_base::text::Key;
use flow_base::value::Value;
use std::alloc::{AllocError, Global};
use std::marker::Model;
use std::sync::Arc;

/// Values with names, in order. What is shared is the same list until one of the two changes.
#[derive(Debug, Drop)]
pub struct NamedValues {
    /// None where there is no entry yet, which takes no memory.
    list: Option<Arc<Vec<(Key, Value)>>>,
}

impl Model for NamedValues {
    ghost use Rattle.std.specs.Prelude.{List, ℕ};
    ghost use Rattle.flow_base.specs.declared.value.Value.{Value as AValue};
    ghost use Rattle.flow_values.specs.Held.{held};

    ghost Value = { List (List ℕ × AValue) };

    ghost view = { λ v. held v.list (λ a. a.value.items) };
}

impl NamedValues {
    /// No entries.
    pub fn new() -> NamedValues
        ensures { result ≡ [] }
    {
        NamedValues { list: None }
    }

    /// The entries, in their order.
    pub fn entries(&self) -> &[(Key, Value)]
        ensures { result.now ≡ self.now }
    {
        match &self.list {
            Some(list) => list.as_slice(),
            None => &[],
        }
    }

    /// The same entries, not a copy of them.
    pub fn share(&self) -> Result<NamedValues, AllocError>
        ensures { IfOk result (λ v. v ≡ self.now) }
    {
        match &self.list {
            Some(list) => {
                let list = Some(list.clone()?);
                Ok(NamedValues { list })
            }
            None => Ok(NamedValues { list: None }),
        }
    }

    /// Gives a name a value. After an error all is as it was.
    pub fn set(&mut self, alloc: Global, name: &Key, value: Value) -> Result<(), AllocError>
        ensures ok { OnOk result (self.new ≡ put name.now value self.old) }
        ensures variables { OnOk result (look_up self.new ≡ with_variable (look_up self.old) name.now value) }
        ensures err { OnErr result (self.new ≡ self.old) }
    {
        match &mut self.list {
            Some(list) => put_shared(alloc, list, name, value)?,
            None => self.list = Some(one(alloc, name, value)?),
        }
        Ok(())
    }

    /// Puts an entry behind all others, whether or not the name has one. After an error all is as it was.
    pub fn push(&mut self, alloc: Global, name: &Key, value: Value) -> Result<(), AllocError>
        ensures ok { OnOk result (self.new ≡ self.old ++ (name.now, value) ∷ []) }
        ensures err { OnErr result (self.new ≡ self.old) }
    {
        match &mut self.list {
            Some(list) => push_shared(alloc, list, name, value)?,
            None => self.list = Some(one(alloc, name, value)?),
        }
        Ok(())
    }

    /// Takes the first entry of this name out, and gives what it has. After an error all is as it was.
    pub fn take(&mut self, alloc: Global, name: &Key) -> Result<Option<Value>, AllocError>
        ensures taken { IfOk result (λ o. o ≡ oldest name.now self.old) }
        ensures others { OnOk result (self.new ≡ without_oldest name.now self.old) }
        ensures none { result ≡ Ok None → self.new ≡ self.old }
        ensures err { OnErr result (self.new ≡ self.old) }
    {
        match &mut self.list {
            Some(list) => take_shared(alloc, list, name),
            None => Ok(None),
        }
    }

    /// What the first entry of this name has.
    pub fn find(&self, name: &str) -> Option<&Value>
        ensures { MatchOption result (look_up self.now name.now ≡ None) (λ v. look_up self.now name.now ≡ Some v.now) }
    {
        for e in self.entries() {
            if name == e.0.as_str() {
                return Some(&e.1);
            }
        }
        None
    }
}

impl Vars for NamedValues {
    ghost use Rattle.flow_values.specs.Named.{look_up};

    ghost variables = { look_up };

    fn get(&self, name: &Key) -> Option<&Value> {
        self.find(name.as_str())
    }
}

fn copy_entries(alloc: Global, entries: &[(Key, Value)]) -> Result<Vec<(Key, Value)>, AllocError>
    ensures { IfOk result (λ v. v.items ≡ entries.now) }
{
    let mut list = Vec::new(alloc);
    for e in entries {
        let name = e.0.copy(alloc)?;
        let value = e.1.copy(alloc)?;
        list.push((name, value))?;
    }
    Ok(list)
}

// A list of one entry.
fn one(alloc: Global, name: &Key, value: Value) -> Result<Arc<Vec<(Key, Value)>>, AllocError>
    ensures { IfOk result (λ a. a.value.items ≡ (name.now, value) ∷ []) }
{
    let mut list = Vec::new(alloc);
    push_in(alloc, &mut list, name, value)?;
    Ok(Arc::new(alloc, list)?)
}

// A list that nobody else has is changed in place, else a copy of it.
fn put_shared(
    alloc: Global,
    list: &mut Arc<Vec<(Key, Value)>>,
    name: &Key,
    value: Value,
) -> Result<(), AllocError>
    ensures ok { OnOk result (list.new.value.items ≡ put name.now value list.old.value.items) }
    ensures err { OnErr result (list.new.value.items ≡ list.old.value.items) }
{
    match Arc::get_mut(list) {
        Some(own) => put_in(alloc, own, name, value)?,
        None => {
            let mut own = copy_entries(alloc, list)?;
            put_in(alloc, &mut own, name, value)?;
            *list = Arc::new(alloc, own)?;
        }
    }
    Ok(())
}

fn push_shared(
    alloc: Global,
    list: &mut Arc<Vec<(Key, Value)>>,
    name: &Key,
    value: Value,
) -> Result<(), AllocError>
    ensures ok { OnOk result (list.new.value.items ≡ list.old.value.items ++ (name.now, value) ∷ []) }
    ensures err { OnErr result (list.new.value.items ≡ list.old.value.items) }
{
    match Arc::get_mut(list) {
        Some(own) => push_in(alloc, own, name, value)?,
        None => {
            let mut own = copy_entries(alloc, list)?;
            push_in(alloc, &mut own, name, value)?;
            *list = Arc::new(alloc, own)?;
        }
    }
    Ok(())
}

// A list without an entry of this name stays shared.
fn take_shared(
    alloc: Global,
    list: &mut Arc<Vec<(Key, Value)>>,
    name: &Key,
) -> Result<Option<Value>, AllocError>
    ensures taken { IfOk result (λ o. o ≡ oldest name.now list.old.value.items) }
    ensures others { OnOk result (list.new.value.items ≡ without_oldest name.now list.old.value.items) }
    ensures none { result ≡ Ok None → list.new.value.items ≡ list.old.value.items }
    ensures err { OnErr result (list.new.value.items ≡ list.old.value.items) }
{
    match first(list, name) {
        Some(i) => {
            let value = remove_shared(alloc, list, i)?;
            Ok(Some(value))
        }
        None => Ok(None),
    }
}

fn remove_shared(
    alloc: Global,
    list: &mut Arc<Vec<(Key, Value)>>,
    i: usize,
) -> Result<Value, AllocError>
    requires { i < length list.old.value.items }
    ensures taken { IfOk result (λ v. (d : List ℕ × AValue) → v ≡ (slice_index_or list.old.value.items i d).1) }
    ensures others { OnOk result (list.new.value.items ≡ remove list.old.value.items i) }
    ensures err { OnErr result (list.new.value.items ≡ list.old.value.items) }
{
    match Arc::get_mut(list) {
        Some(own) => {
            let (_name, value) = own.remove(i);
            Ok(value)
        }
        None => {
            let mut own = copy_entries(alloc, list)?;
            let (_name, value) = own.remove(i);
            *list = Arc::new(alloc, own)?;
            Ok(value)
        }
    }
}

fn push_in(
    alloc: Global,
    entries: &mut Vec<(Key, Value)>,
    name: &Key,
    value: Value,
) -> Result<(), AllocError>
    ensures ok { OnOk result (entries.new.items ≡ entries.old.items ++ (name.now, value) ∷ []) }
    ensures err { OnErr result (entries.new.items ≡ entries.old.items) }
{
    let name = name.copy(alloc)?;
    entries.push((name, value))?;
    Ok(())
}

fn put_in(
    alloc: Global,
    entries: &mut Vec<(Key, Value)>,
    name: &Key,
    value: Value,
) -> Result<(), AllocError>
    ensures ok { OnOk result (entries.new.items ≡ put name.now value entries.old.items) }
    ensures err { OnErr result (entries.new.items ≡ entries.old.items) }
{
    match place(entries, name) {
        Some(i) => {
            entries[i].1 = value;
            Ok(())
        }
        None => {
            push_in(alloc, entries, name, value)?;
            Ok(())
        }
    }
}

// Where a name stands.
fn place(entries: &[(Key, Value)], name: &Key) -> Option<usize>
    ensures { IsPlace entries.now name.now result }
{
    for (i, e) in entries.iter().enumerate() {
        if e.0.is(name) {
            return Some(i);
        }
    }
    None
}

// Where the first entry of a name stands.
fn first(entries: &[(Key, Value)], name: &Key) -> Option<usize>
    ensures { IsOldest entries.now name.now result }
{
    for (i, e) in entries.iter().enumerate() {
        if e.0.is(name) {
            return Some(i);
        }
    }
    None
}
