//! Lists of mostly one value.

ghost use Rattle.std.specs.Prelude.{◌≡◌, ◌++◌, ◌∷◌, [], IfOk, OnOk};
ghost use Rattle.std.specs.List.{filter_map};
ghost use Rattle.std.specs.Mem.{FitsInMemory};
ghost use Rattle.std.specs.Result.{result_ok};

use std::alloc::{AllocError, Global};
use std::marker::Model;
use std::{mem, slice};

/// The most values for which no room is made before they come.
const A_FEW: usize = 16;

/// A list that mostly has one value, which then lies in the list itself.
#[derive(Drop)]
pub struct Few<T> {
    values: Values<T>,
}

#[derive(Drop)]
enum Values<T> {
    Nothing,
    One(T),
    Many(Box<Vec<T>>),
}

impl<T> Model for Few<T> {
    ghost use Rattle.std.specs.Prelude.{List};
    ghost use Rattle.desk_exports.specs.PrivateFew.{values_in};

    ghost Value = { List T };

    ghost view = { λ few. values_in few.values };
}

impl<T> Few<T> {
    /// Makes the empty list.
    pub fn new() -> Few<T>
        ensures { result ≡ [] }
    {
        Few {
            values: Values::Nothing,
        }
    }

    /// Lends the values.
    pub fn as_slice(&self) -> &[T]
        requires { FitsInMemory T.row }
        ensures { result.now ≡ self.now }
    {
        match &self.values {
            Values::Nothing => &[],
            Values::One(value) => slice::from_ref(value),
            Values::Many(values) => values.as_slice(),
        }
    }
}

impl<T: Drop> Few<T> {
    /// Makes the empty list, with room for as many values if they are more than a few.
    pub(crate) fn with_room(alloc: Global, count: usize) -> Result<Few<T>, AllocError>
        ensures { IfOk result (λ few. few ≡ []) }
    {
        if count <= A_FEW {
            return Ok(Few::new());
        }
        let values = Vec::with_capacity(alloc, count)?;
        Ok(Few {
            values: Values::Many(Box::new(alloc, values)?),
        })
    }

    /// Adds a value at the end. If there is no memory for it, the list is lost.
    pub fn push(&mut self, alloc: Global, value: T) -> Result<(), AllocError>
        ensures { OnOk result (self.new ≡ self.old ++ value ∷ []) }
    {
        self.values = match mem::replace(&mut self.values, Values::Nothing) {
            Values::Nothing => Values::One(value),
            Values::One(first) => Values::Many(pair(alloc, first, value)?),
            Values::Many(mut values) => {
                values.push(value)?;
                Values::Many(values)
            }
        };
        Ok(())
    }
}

impl<T: Drop, F: Drop> Few<Result<T, F>> {
    /// Keeps the values of those results that have one.
    pub(crate) fn into_oks(self, alloc: Global) -> Result<Few<T>, AllocError>
        ensures { IfOk result (λ few. few ≡ filter_map result_ok self) }
    {
        let Few { values } = self;
        let values = match values {
            Values::Nothing => Values::Nothing,
            Values::One(result) => match result {
                Ok(value) => Values::One(value),
                Err(_fault) => Values::Nothing,
            },
            Values::Many(results) => Values::Many(oks(alloc, Box::into_inner(results))?),
        };
        Ok(Few { values })
    }
}

/// Keeps the values of those results that have one.
#[tactic(auto, using(crate::proofs::FewLemmas::oks_more))]
fn oks<T: Drop, F: Drop>(
    alloc: Global,
    results: Vec<Result<T, F>>,
) -> Result<Box<Vec<T>>, AllocError>
    ensures { IfOk result (λ values. values.value.items ≡ filter_map result_ok results.items) }
{
    let mut values = Vec::with_capacity(alloc, results.len())?;
    for result in results {
        push_ok(&mut values, result)?;
    }
    Ok(Box::new(alloc, values)?)
}

/// Adds the value of a result, if it has one.
fn push_ok<T: Drop, F: Drop>(values: &mut Vec<T>, read: Result<T, F>) -> Result<(), AllocError>
    ensures { OnOk result (values.new.items ≡ values.old.items ++ filter_map result_ok (read ∷ [])) }
{
    if let Ok(value) = read {
        values.push(value)?;
    }
    Ok(())
}

/// Puts two values into a vector.
fn pair<T: Drop>(alloc: Global, first: T, second: T) -> Result<Box<Vec<T>>, AllocError>
    ensures { IfOk result (λ values. values.value.items ≡ first ∷ second ∷ []) }
{
    let mut values = Vec::new(alloc);
    values.push(first)?;
    values.push(second)?;
    Ok(Box::new(alloc, values)?)
}
