//! Sets of addresses.

ghost use Rattle.std.specs.Prelude.{◌≡◌, ◌==◌, [], map, length};
ghost use Rattle.std.specs.List.Sorted.{IsStrictlyIncreasing};
ghost use Rattle.desk_text.specs.Address.{number_of};
ghost use Rattle.desk_text.specs.AddrSet.{is_among, sorted_set};

use crate::address::Addr;
use std::alloc::Global;
use std::marker::Model;

/// Addresses in ascending order, each once.
#[derive(Drop)]
pub struct AddrSet {
    items: Vec<Addr>,
}

impl Model for AddrSet {
    ghost use Rattle.std.specs.Prelude.{List, ℕ, map};
    ghost use Rattle.std.specs.List.Sorted.{IsStrictlyIncreasing};
    ghost use Rattle.desk_text.specs.Address.{number_of};

    ghost Value = { List ℕ };

    ghost view = { λ set. map number_of set.items.items };

    ghost invariant = { λ set. IsStrictlyIncreasing (map number_of set.items.items) };
}

impl AddrSet {
    /// Makes the empty set.
    pub fn new(alloc: Global) -> AddrSet
        ensures { result ≡ [] }
    {
        AddrSet {
            items: Vec::new(alloc),
        }
    }

    /// Makes the set of these addresses, which may come in any order and more than once.
    pub fn from_vec(addresses: Vec<Addr>) -> AddrSet
        ensures { result ≡ sorted_set (map number_of addresses.items) }
    {
        let mut items = addresses;
        items.sort_unstable();
        items.dedup();
        AddrSet { items }
    }

    /// Tests whether the address is in the set, by a binary search.
    pub fn contains(&self, address: Addr) -> bool
        ensures { result ≡ is_among (number_of address) self.now }
    {
        self.items.binary_search(&address).is_ok()
    }

    /// Tests whether the set has no address.
    pub fn is_empty(&self) -> bool
        ensures { result ≡ (length self.now == 0) }
    {
        self.items.is_empty()
    }

    /// Lends the addresses, in ascending order.
    pub fn as_slice(&self) -> &[Addr]
        ensures value { map number_of result.now ≡ self.now }
        ensures ascending { IsStrictlyIncreasing self.now }
    {
        self.items.as_slice()
    }

    /// Gives the addresses away, in ascending order.
    pub fn into_vec(self) -> Vec<Addr>
        ensures value { map number_of result.items ≡ self }
        ensures ascending { IsStrictlyIncreasing self }
    {
        let AddrSet { items } = self;
        items
    }
}
