ghost use Rattle.std.specs.Prelude.{◌≡◌, [], ◌∷◌, ◌++◌, length, nat_eq, OnOk, OnErr};

use std::alloc::{AllocError, Global};
use std::marker::Model;

/// A list that contracts see as its elements, so that a value which holds one equals its copy.
#[derive(Debug, Drop)]
pub struct Sequence<T> {
    list: Vec<T>,
}

impl<T> Model for Sequence<T> {
    ghost use Rattle.std.specs.Prelude.{List};
    ghost use Rattle.std.specs.Coded.{coded_list};

    ghost Value = { List T };

    ghost coded = { coded_list T.code };

    ghost view = { λ s. s.list.items };
}

impl<T> Sequence<T> {
    /// A list of nothing.
    pub fn new(alloc: Global) -> Sequence<T>
        ensures { result ≡ [] }
    {
        Sequence {
            list: Vec::new(alloc),
        }
    }

    /// These elements.
    pub fn from_vec(list: Vec<T>) -> Sequence<T>
        ensures { result ≡ list.items }
    {
        Sequence { list }
    }

    /// The elements, to be owned by the caller.
    pub fn into_vec(self) -> Vec<T>
        ensures { result.items ≡ self }
    {
        let Sequence { list } = self;
        list
    }

    /// The elements.
    pub fn as_slice(&self) -> &[T]
        ensures { result.now ≡ self.now }
    {
        self.list.as_slice()
    }

    /// How many there are.
    pub fn len(&self) -> usize
        ensures { result ≡ length self.now }
    {
        self.list.len()
    }

    /// Whether there is none.
    pub fn is_empty(&self) -> bool
        ensures { result ≡ nat_eq (length self.now) 0 }
    {
        self.list.len() == 0
    }

    /// Puts one more at the end. After an error the list is as it was.
    pub fn push(&mut self, element: T) -> Result<(), AllocError>
    where
        T: Drop,
        ensures ok { OnOk result (self.new ≡ self.old ++ element ∷ []) }
        ensures err { OnErr result (self.new ≡ self.old) }
    {
        self.list.push(element)?;
        Ok(())
    }
}
