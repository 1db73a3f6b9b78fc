//! The numbers of runs by names, in memory.
ghost use Rattle.std.specs.Prelude.{◌≡◌, ℕ, Option, Some, None, true, IfSome};
ghost use Rattle.flow_base.specs.Syntax.{Bytes};
ghost use Rattle.flow_maps.specs.Keys.{IsFound, IsIndex};
ghost use Rattle.flow_maps.specs.OfRuns.{replaced};

use crate::name::Name;
use flow_base::number::RunId;
use flow_base::text::Key;
use std::alloc::Global;
use std::collections::BTreeMap;

/// The numbers of runs by their names. Each has four bytes: more runs than that have no room in memory.
#[derive(Drop)]
pub struct Index {
    alloc: Global,
    map: BTreeMap<Name, u32>,
}

/// A number in four bytes, if it has room there.
pub(crate) fn in_four_bytes(number: u64) -> Option<u32>
    ensures { IfSome result (λ n. n ≡ number) }
{
    if number > 4_294_967_295 {
        return None;
    }
    Some(number as u32)
}

impl Index {
    /// No run has a name.
    pub fn new(alloc: Global) -> Index
        ensures { IsIndex result (λ n. None) }
    {
        Index {
            alloc,
            map: BTreeMap::new(alloc),
        }
    }

    /// A run that had no name has this one. Whether none had it, and there was memory for it.
    pub fn put(&mut self, run: RunId, name: &Key) -> bool
        ensures { result ≡ true → (f : ℕ → Option Bytes) → f run ≡ None → IsIndex self.old f
            → IsIndex self.new (replaced run (Some name.now) f) }
    {
        let Some(name) = Name::new(self.alloc, name.as_str().as_bytes()) else {
            return false;
        };
        let Some(number) = in_four_bytes(run.get()) else {
            return false;
        };
        let Ok(before) = self.map.insert(name, number) else {
            return false;
        };
        before.is_none()
    }

    /// The same of a run that may have none.
    pub fn put_if(&mut self, run: RunId, name: &Option<Key>) -> bool
        ensures { result ≡ true → (f : ℕ → Option Bytes) → f run ≡ None → IsIndex self.old f → IsIndex self.new (replaced run name.now f) }
    {
        match name {
            Some(name) => self.put(run, name),
            None => true,
        }
    }

    /// A run has its name no more. Whether there was memory to look for it.
    pub fn remove(&mut self, name: &Key) -> bool
        ensures { result ≡ true → (f : ℕ → Option Bytes) → (run : ℕ) → f run ≡ Some name.now → IsIndex self.old f
            → IsIndex self.new (replaced run None f) }
    {
        let Some(name) = Name::new(self.alloc, name.as_str().as_bytes()) else {
            return false;
        };
        self.map.remove(&name);
        true
    }

    /// The same of a run that may have none.
    pub fn remove_if(&mut self, name: &Option<Key>) -> bool
        ensures { result ≡ true → (f : ℕ → Option Bytes) → (run : ℕ) → f run ≡ name.now → IsIndex self.old f
            → IsIndex self.new (replaced run None f) }
    {
        match name {
            Some(name) => self.remove(name),
            None => true,
        }
    }

    /// The run with a name, if there is memory to look for it.
    pub fn find(&self, name: &Key) -> Option<Option<RunId>>
        ensures { IfSome result (λ o. (f : ℕ → Option Bytes) → IsIndex self.now f → IsFound o name.now f) }
    {
        let Some(name) = Name::new(self.alloc, name.as_str().as_bytes()) else {
            return None;
        };
        let Some(number) = self.map.get(&name) else {
            return Some(None);
        };
        let Some(run) = RunId::new(u64::from(*number)) else {
            return None;
        };
        Some(Some(run))
    }
}
