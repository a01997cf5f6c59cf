//! Lists in the fields of records.
#![tactic(auto)]

ghost use Rattle.std.specs.Prelude.{◌≡◌, ◌==◌, [], ◌∷◌, ◌++◌, OnErr, OnOk, length};

use std::alloc::{AllocError, Global};
use std::marker::Model;

/// A list, as contracts see it.
#[derive(Clone, Debug, Drop)]
pub struct Sequence<T> {
    items: Vec<T>,
}

impl<T> Model for Sequence<T> {
    ghost use Rattle.std.specs.Prelude.{List};

    ghost Value = { List T };

    ghost view = { λ s. s.items.items };
}

impl<T> Sequence<T> {
    /// Makes the empty list.
    pub fn new(alloc: Global) -> Sequence<T>
        ensures { result ≡ [] }
    {
        Sequence {
            items: Vec::new(alloc),
        }
    }

    /// Takes a vector over as it is.
    pub fn from_vec(items: Vec<T>) -> Sequence<T>
        ensures { result ≡ items.items }
    {
        Sequence { items }
    }

    /// Lends the values.
    pub fn as_slice(&self) -> &[T]
        ensures { result.now ≡ self.now }
    {
        self.items.as_slice()
    }

    /// Returns how many values there are.
    pub fn len(&self) -> usize
        ensures { result ≡ length self.now }
    {
        self.items.len()
    }

    /// Tests whether there are no values.
    pub fn is_empty(&self) -> bool
        ensures { result ≡ (length self.now == 0) }
    {
        self.items.is_empty()
    }

    /// Gives the values away as a vector.
    pub fn into_vec(self) -> Vec<T>
        ensures { result.items ≡ self }
    {
        let Sequence { items } = self;
        items
    }
}

impl<T: Drop> Sequence<T> {
    /// Adds a value at the end. If memory runs out, the list stays as it was.
    pub fn push(&mut self, value: T) -> Result<(), AllocError>
        ensures added { OnOk result (self.new ≡ self.old ++ value ∷ []) }
        ensures kept { OnErr result (self.new ≡ self.old) }
    {
        self.items.push(value)?;
        Ok(())
    }
}
