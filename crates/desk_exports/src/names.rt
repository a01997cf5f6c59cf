//! The names of a line, in one text.

ghost use Rattle.std.specs.Prelude.{◌≡◌, ◌==◌, ◌<◌, ◌∷◌, [], ◌++◌, IfOk, OnOk, length};
ghost use Rattle.std.specs.List.{slice_index_or};

use desk_text::Text;
use std::alloc::{AllocError, Global};
use std::marker::Model;
use std::mem;

/// The names of a line, in their order. A name by itself, which most lines have, lies in the list itself; more share one
/// text, so that a long line takes little more memory than it is long.
#[derive(Drop)]
pub struct Names {
    values: Values,
}

#[derive(Drop)]
enum Values {
    Nothing,
    One(Text),
    Many(Box<Joined>),
}

/// Names, one behind the other, and where each of them ends.
#[derive(Drop)]
struct Joined {
    text: String,
    ends: Vec<usize>,
}

impl Model for Names {
    ghost use Rattle.std.specs.Prelude.{List, ℕ};
    ghost use Rattle.desk_exports.specs.PrivateNames.{ArePieces, names_in};

    ghost Value = { List (List ℕ) };

    ghost view = { λ names. names_in names.values };

    ghost invariant = { λ names. ArePieces names.values };
}

impl Names {
    /// Makes the empty list.
    pub(crate) fn new() -> Names
        ensures { result ≡ [] }
    {
        Names {
            values: Values::Nothing,
        }
    }

    /// Adds a copy of a name at the end. If there is no memory for it, the list is lost.
    pub(crate) fn push(&mut self, alloc: Global, name: &str) -> Result<(), AllocError>
        ensures { OnOk result (self.new ≡ self.old ++ name.now ∷ []) }
    {
        self.values = match mem::replace(&mut self.values, Values::Nothing) {
            Values::Nothing => Values::One(Text::copy(alloc, name)?),
            Values::One(first) => {
                let names = Joined::pair(alloc, first.as_str(), name)?;
                Values::Many(Box::new(alloc, names)?)
            }
            Values::Many(mut names) => {
                names.push(name)?;
                Values::Many(names)
            }
        };
        Ok(())
    }

    /// Returns how many names there are.
    pub fn len(&self) -> usize
        ensures { result ≡ length self.now }
    {
        match &self.values {
            Values::Nothing => 0,
            Values::One(_) => 1,
            Values::Many(names) => names.ends.len(),
        }
    }

    /// Tests whether there are no names.
    pub fn is_empty(&self) -> bool
        ensures { result ≡ (length self.now == 0) }
    {
        self.len() == 0
    }

    /// Lends the name at this place.
    pub fn get(&self, index: usize) -> &str
        requires { index < length self.now }
        ensures { result.now ≡ slice_index_or self.now index [] }
    {
        match &self.values {
            Values::Nothing => "",
            Values::One(name) => name.as_str(),
            Values::Many(names) => names.get(index),
        }
    }
}

impl Joined {
    ghost use Rattle.desk_exports.specs.PrivateNames.{AreCut, pieces_of};

    /// Puts two names into one text.
    fn pair(alloc: Global, first: &str, second: &str) -> Result<Joined, AllocError>
        ensures pieces { IfOk result (λ names. pieces_of names ≡ first.now ∷ second.now ∷ []) }
        ensures cut { IfOk result AreCut }
    {
        let mut names = Joined {
            text: String::new(alloc),
            ends: Vec::new(alloc),
        };
        names.push(first)?;
        names.push(second)?;
        Ok(names)
    }

    /// Adds a copy of a name at the end.
    fn push(&mut self, name: &str) -> Result<(), AllocError>
        requires { AreCut self.old }
        ensures pieces { OnOk result (pieces_of self.new ≡ pieces_of self.old ++ name.now ∷ []) }
        ensures cut { OnOk result (AreCut self.new) }
    {
        self.text.push_str(name)?;
        self.ends.push(self.text.len())?;
        Ok(())
    }

    /// Lends the name at this place.
    fn get(&self, index: usize) -> &str
        requires within { index < length self.now.ends.items }
        requires cut { AreCut self.now }
        ensures { result.now ≡ slice_index_or (pieces_of self.now) index [] }
    {
        let start = begin_of(self.ends.as_slice(), index);
        &self.text.as_str()[start..self.ends[index]]
    }
}

/// Finds where the name at this place begins: where the one before it ends.
fn begin_of(ends: &[usize], index: usize) -> usize
    requires { index < length ends.now }
    ensures { result ≡ slice_index_or (0 ∷ ends.now) index 0 }
{
    if index == 0 { 0 } else { ends[index - 1] }
}
