//! The addresses for which written names stand. (exports(5), netgroup(5), hosts(5))

ghost use Rattle.std.specs.Prelude.{◌≡◌, ◌==◌, ◌∷◌, [], IfOk, OnOk, map, string_bytes};
ghost use Rattle.std.specs.List.{list_any};
ghost use Rattle.std.specs.Option.{option_copied, option_map};
ghost use Rattle.std.specs.Result.{result_ok};
ghost use Rattle.desk_text.specs.Address.{number_of, read_addr};
ghost use Rattle.desk_text.specs.AddrSet.{is_among};
ghost use Rattle.desk_tables.specs.Hosts.{addresses_of_host};
ghost use Rattle.desk_policy.specs.Names.{addresses_of_names, first_name_for, host_stands_for, is_address_like, stands_for};
ghost use Rattle.desk_policy.specs.PrivateNames.{Gains};

use desk_exports::Names;
use desk_netgroup::Netgroups;
use desk_tables::Hosts;
use desk_text::laws::sorted_sets_are_unique;
use desk_text::{Addr, AddrSet, is_dotted, is_ipv6};
use std::alloc::{AllocError, Global};

/// Lists the addresses for which a written name stands, ascending, without duplicates. A dot address stands for itself, and a text
/// with `:`, or of other digits and dots, for none. Any other name stands for the addresses of the hosts of its group if it
/// is a group's, and else for those of the host of that name. The hosts of a group are never taken for groups.
pub fn addresses_of(
    alloc: Global,
    netgroups: &Netgroups,
    hosts: &Hosts,
    name: &str,
) -> Result<Vec<Addr>, AllocError>
    ensures { IfOk result (λ v. map number_of v.items ≡ addresses_of_names netgroups.now hosts.now (name.now ∷ [])) }
{
    Ok(addresses_of_name(alloc, netgroups, hosts, name)?.into_vec())
}

/// Finds the first of the names of a line that stands for an address, by the tables that its policy is read with.
pub fn first_name_for<'a>(
    alloc: Global,
    netgroups: &Netgroups,
    hosts: &Hosts,
    names: &'a Names,
    address: Addr,
) -> Result<Option<&'a str>, AllocError>
    ensures { IfOk result (λ found. option_copied found ≡ first_name_for netgroups.now hosts.now names.now (number_of address)) }
{
    for index in 0..names.len() {
        let name = names.get(index);
        if stands_for(alloc, netgroups, hosts, name, address)? {
            return Ok(Some(name));
        }
    }
    Ok(None)
}

/// Tests whether a written name stands for an address.
fn stands_for(
    alloc: Global,
    netgroups: &Netgroups,
    hosts: &Hosts,
    name: &str,
    address: Addr,
) -> Result<bool, AllocError>
    ensures { IfOk result (λ stands. stands ≡ stands_for netgroups.now hosts.now name.now (number_of address)) }
{
    let mut addresses = Vec::new(alloc);
    push_name(alloc, netgroups, hosts, name, &mut addresses)?;
    Ok(has_address(addresses.as_slice(), address))
}

/// Tests whether an address is one of these.
fn has_address(addresses: &[Addr], address: Addr) -> bool
    ensures { result ≡ list_any (λ other. number_of other == number_of address) addresses.now }
{
    addresses.iter().any(|other| *other == address)
}

/// Finds the addresses for which a written name stands.
pub(crate) fn addresses_of_name(
    alloc: Global,
    netgroups: &Netgroups,
    hosts: &Hosts,
    name: &str,
) -> Result<AddrSet, AllocError>
    ensures { IfOk result (λ addresses. addresses ≡ addresses_of_names netgroups.now hosts.now (name.now ∷ [])) }
{
    let mut addresses = Vec::new(alloc);
    push_name(alloc, netgroups, hosts, name, &mut addresses)?;
    // Sets are equal that have the same addresses.
    sorted_sets_are_unique();
    Ok(AddrSet::from_vec(addresses))
}

/// Adds the addresses for which a written name stands.
fn push_name(
    alloc: Global,
    netgroups: &Netgroups,
    hosts: &Hosts,
    name: &str,
    addresses: &mut Vec<Addr>,
) -> Result<(), AllocError>
    ensures { OnOk result (Gains addresses.old.items addresses.new.items (stands_for netgroups.now hosts.now name.now)) }
{
    if let Some(address) = written_address(name) {
        addresses.push(address)?;
        return Ok(());
    }
    if is_address_like(name) {
        return Ok(());
    }
    match netgroups.hosts_of(alloc, name)? {
        Some(members) => push_hosts(alloc, hosts, members.as_slice(), addresses),
        None => push_listed(alloc, hosts, name, addresses),
    }
}

/// Tests whether a name is written like an address, so that it is never taken for a group's.
pub(crate) fn is_address_like(name: &str) -> bool
    ensures { result ≡ is_address_like name.now }
{
    is_ipv6(name) || is_dotted(name)
}

/// Adds the addresses for which the texts of hosts stand.
fn push_hosts(
    alloc: Global,
    hosts: &Hosts,
    names: &[String],
    addresses: &mut Vec<Addr>,
) -> Result<(), AllocError>
    ensures { OnOk result (Gains addresses.old.items addresses.new.items
        (λ address. list_any (λ name. host_stands_for hosts.now name address) (map string_bytes names.now))) }
{
    for name in names {
        push_host(alloc, hosts, name.as_str(), addresses)?;
    }
    Ok(())
}

/// Adds the addresses for which a host's text stands.
fn push_host(
    alloc: Global,
    hosts: &Hosts,
    name: &str,
    addresses: &mut Vec<Addr>,
) -> Result<(), AllocError>
    ensures { OnOk result (Gains addresses.old.items addresses.new.items (host_stands_for hosts.now name.now)) }
{
    if let Some(address) = written_address(name) {
        addresses.push(address)?;
        return Ok(());
    }
    if is_address_like(name) {
        return Ok(());
    }
    push_listed(alloc, hosts, name, addresses)
}

/// Adds the addresses that the hosts file gives a name.
fn push_listed(
    alloc: Global,
    hosts: &Hosts,
    name: &str,
    addresses: &mut Vec<Addr>,
) -> Result<(), AllocError>
    ensures { OnOk result (Gains addresses.old.items addresses.new.items
        (λ address. is_among address (addresses_of_host hosts.now name.now))) }
{
    let listed = hosts.addresses(alloc, name)?;
    addresses.extend_from_slice(listed.as_slice())
}

/// Reads the address that a text writes, if it writes one. A name that begins with a letter is not read to its end.
pub(crate) fn written_address(text: &str) -> Option<Addr>
    ensures { option_map number_of result ≡ result_ok (read_addr text.now) }
{
    match text.as_bytes().first() {
        Some(first) if first.is_ascii_digit() => Addr::read(text).ok(),
        _ => None,
    }
}
