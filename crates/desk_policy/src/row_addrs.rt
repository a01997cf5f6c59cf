//! The addresses of a line in force.

ghost use Rattle.std.specs.Prelude.{◌≡◌, ◌∷◌, [], IfOk, map};
ghost use Rattle.std.specs.List.Sorted.{IsStrictlyIncreasing};
ghost use Rattle.desk_text.specs.Address.{number_of};
ghost use Rattle.desk_text.specs.AddrSet.{is_among};

use desk_text::{Addr, AddrSet};
use std::alloc::{AllocError, Global};
use std::marker::Model;
use std::rc::Rc;
use std::slice;

/// Addresses in ascending order, each once. An address by itself, which most lines have, takes no memory elsewhere; more lie
/// in one place for all lines that share them.
#[derive(Drop)]
pub struct RowAddrs {
    values: Values,
}

#[derive(Drop)]
enum Values {
    Nothing,
    One(Addr),
    Many(Rc<AddrSet>),
}

impl Model for RowAddrs {
    ghost use Rattle.std.specs.Prelude.{List, ℕ};
    ghost use Rattle.desk_policy.specs.PrivateRowAddrs.{addresses_in};

    ghost Value = { List ℕ };

    ghost view = { λ addresses. addresses_in addresses.values };
}

impl RowAddrs {
    /// Makes the empty set.
    pub(crate) fn new() -> RowAddrs
        ensures { result ≡ [] }
    {
        RowAddrs {
            values: Values::Nothing,
        }
    }

    /// Makes the set of one address.
    pub(crate) fn of_address(address: Addr) -> RowAddrs
        ensures { result ≡ number_of address ∷ [] }
    {
        RowAddrs {
            values: Values::One(address),
        }
    }

    /// Takes a set over.
    pub(crate) fn of_set(alloc: Global, set: AddrSet) -> Result<RowAddrs, AllocError>
        ensures { IfOk result (λ addresses. addresses ≡ set) }
    {
        let values = match set.as_slice() {
            [] => Values::Nothing,
            [address] => Values::One(*address),
            _ => Values::Many(Rc::new(alloc, set)?),
        };
        Ok(RowAddrs { values })
    }

    /// Makes the same set once more. Its addresses are not copied.
    pub(crate) fn share(&self) -> Result<RowAddrs, AllocError>
        ensures { IfOk result (λ addresses. addresses ≡ self.now) }
    {
        let values = match &self.values {
            Values::Nothing => Values::Nothing,
            Values::One(address) => Values::One(*address),
            Values::Many(set) => Values::Many(set.clone()?),
        };
        Ok(RowAddrs { values })
    }

    /// Tests whether there is more than one address.
    pub(crate) fn are_many(&self) -> bool {
        matches!(&self.values, Values::Many(_))
    }

    /// Tests whether the address is in the set.
    pub fn contains(&self, address: Addr) -> bool
        ensures { result ≡ is_among (number_of address) self.now }
    {
        match &self.values {
            Values::Nothing => false,
            Values::One(only) => *only == address,
            Values::Many(set) => set.contains(address),
        }
    }

    /// Lends the addresses, in ascending order.
    pub fn as_slice(&self) -> &[Addr]
        ensures value { map number_of result.now ≡ self.now }
        ensures ascending { IsStrictlyIncreasing self.now }
    {
        match &self.values {
            Values::Nothing => &[],
            Values::One(address) => slice::from_ref(address),
            Values::Many(set) => set.as_slice(),
        }
    }
}
