//! Names that were looked up, with the addresses for which they stand.

ghost use Rattle.std.specs.Prelude.{◌≡◌, ◌∷◌, [], IfOk, List, OnOk};
ghost use Rattle.desk_tables.specs.declared.hosts.HostRow.{HostRow};
ghost use Rattle.desk_netgroup.specs.declared.group_line.GroupLine.{GroupLine};
ghost use Rattle.desk_policy.specs.Names.{addresses_of_names, stands_for};
ghost use Rattle.desk_policy.specs.PrivateKnownNames.{AreKnown};
ghost use Rattle.desk_policy.specs.PrivateNames.{Gains};

use crate::names::{addresses_of_name, written_address};
use crate::row_addrs::RowAddrs;
use desk_exports::Names;
use desk_netgroup::Netgroups;
use desk_tables::Hosts;
use desk_text::laws::sorted_sets_are_unique;
use desk_text::{Addr, AddrSet};
use std::alloc::{AllocError, Global};
use std::collections::BTreeMap;

/// The names that were looked up by the tables of a site, with the addresses for which each stands: so a name is looked up once
/// however many lines have it, and these share its addresses. Not kept are addresses and hosts with one, which are found as fast.
#[derive(Drop)]
pub struct KnownNames {
    addresses: BTreeMap<String, RowAddrs>,
}

impl KnownNames {
    /// Begins with no name.
    pub fn new(alloc: Global) -> KnownNames
        ensures { (netgroups : List GroupLine) (hosts : List HostRow) → AreKnown netgroups hosts result }
    {
        KnownNames {
            addresses: BTreeMap::new(alloc),
        }
    }

    /// Finds the addresses for which some of the names stands.
    pub fn addresses_of(
        &mut self,
        alloc: Global,
        netgroups: &Netgroups,
        hosts: &Hosts,
        names: &Names,
    ) -> Result<RowAddrs, AllocError>
        requires { AreKnown netgroups.now hosts.now self.old }
        ensures addresses { IfOk result (λ addresses. addresses ≡ addresses_of_names netgroups.now hosts.now names.now) }
        ensures known { OnOk result (AreKnown netgroups.now hosts.now self.new) }
    {
        if names.len() == 1 {
            return self.addresses_of_name(alloc, netgroups, hosts, names.get(0));
        }
        let mut addresses = Vec::new(alloc);
        for index in 0..names.len() {
            self.push_name(alloc, netgroups, hosts, names.get(index), &mut addresses)?;
        }
        // Sets are equal that have the same addresses.
        sorted_sets_are_unique();
        RowAddrs::of_set(alloc, AddrSet::from_vec(addresses))
    }

    /// Adds the addresses for which a name stands.
    fn push_name(
        &mut self,
        alloc: Global,
        netgroups: &Netgroups,
        hosts: &Hosts,
        name: &str,
        addresses: &mut Vec<Addr>,
    ) -> Result<(), AllocError>
        requires { AreKnown netgroups.now hosts.now self.old }
        ensures gains { OnOk result (Gains addresses.old.items addresses.new.items (stands_for netgroups.now hosts.now name.now)) }
        ensures known { OnOk result (AreKnown netgroups.now hosts.now self.new) }
    {
        let found = self.addresses_of_name(alloc, netgroups, hosts, name)?;
        // What it has is what the name stands for.
        sorted_sets_are_unique();
        addresses.extend_from_slice(found.as_slice())
    }

    /// Finds the addresses for which a name stands.
    fn addresses_of_name(
        &mut self,
        alloc: Global,
        netgroups: &Netgroups,
        hosts: &Hosts,
        name: &str,
    ) -> Result<RowAddrs, AllocError>
        requires { AreKnown netgroups.now hosts.now self.old }
        ensures addresses { IfOk result (λ addresses. addresses ≡ addresses_of_names netgroups.now hosts.now (name.now ∷ [])) }
        ensures known { OnOk result (AreKnown netgroups.now hosts.now self.new) }
    {
        if let Some(address) = written_address(name) {
            return Ok(RowAddrs::of_address(address));
        }
        if let Some(known) = self.addresses.get(name) {
            return known.share();
        }
        let found = addresses_of_name(alloc, netgroups, hosts, name)?;
        let found = RowAddrs::of_set(alloc, found)?;
        if found.are_many() || netgroups.group(name).is_some() {
            self.keep(alloc, name, &found)?;
        }
        Ok(found)
    }

    /// Keeps the addresses for which a name stands.
    fn keep(&mut self, alloc: Global, name: &str, addresses: &RowAddrs) -> Result<(), AllocError>
        ensures { OnOk result ((netgroups : List GroupLine) (hosts : List HostRow) → AreKnown netgroups hosts self.old
            → addresses.now ≡ addresses_of_names netgroups hosts (name.now ∷ []) → AreKnown netgroups hosts self.new) }
    {
        let shared = addresses.share()?;
        self.addresses
            .insert(String::from_str(alloc, name)?, shared)?;
        Ok(())
    }
}
