//! The lines under one key.

ghost use Rattle.std.specs.Prelude.{◌≡◌, ◌++◌, ◌∷◌, [], OnOk};

use desk_exports::Few;
use std::alloc::{AllocError, Global};
use std::marker::Model;

/// The numbers of the lines under one key, in ascending order. A number by itself, which most keys have, takes no memory
/// elsewhere.
#[derive(Drop)]
pub struct IndexRow {
    numbers: Few<u32>,
}

impl Model for IndexRow {
    ghost use Rattle.std.specs.Prelude.{List, ℕ};

    ghost Value = { List ℕ };

    ghost view = { λ row. row.numbers };
}

impl IndexRow {
    /// Makes the list of no line.
    pub(crate) fn new() -> IndexRow
        ensures { result ≡ [] }
    {
        IndexRow {
            numbers: Few::new(),
        }
    }

    /// Adds a line at the end. If there is no memory for it, the list is lost.
    pub(crate) fn push(&mut self, alloc: Global, line: u32) -> Result<(), AllocError>
        ensures { OnOk result (self.new ≡ self.old ++ line ∷ []) }
    {
        self.numbers.push(alloc, line)
    }

    /// Lends the numbers of the lines.
    pub fn lines(&self) -> &[u32]
        ensures { result.now ≡ self.now }
    {
        self.numbers.as_slice()
    }
}
