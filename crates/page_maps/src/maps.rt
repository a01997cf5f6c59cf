//! Which maps are needed, so that each address at which the class changes lies on the grid of one of them.

ghost use Rattle.std.specs.Prelude.{◌≡◌, ◌≤◌, All, IfOk, map};
ghost use Rattle.desk_text.specs.Address.{number_of};
ghost use Rattle.desk_text.specs.Network.{IsBlock, block_of};
ghost use Rattle.page_data.specs.Classes.{class_run};
ghost use Rattle.page_maps.specs.Maps as spec;
ghost use Rattle.page_maps.specs.Maps.{AreMapsFrom, IsWide, fixed_maps, is_listed, map_at, maps_with_fixed, same_network};

use crate::order::ordered;
use desk_text::{Addr, Net, Prefix};
use desk_who::Run;
use page_data::Class;
use std::alloc::{AllocError, Global};

/// Lists the maps that are needed to show where the class changes: that of all addresses first, the wider ones before the narrower,
/// then by address.
pub fn maps_of(alloc: Global, runs: &[Run<Class>]) -> Result<Vec<Net>, AllocError>
    ensures maps { IfOk result (λ maps. AreMapsFrom (map class_run runs.now) maps.items) }
    ensures wide { IfOk result (λ maps. All IsWide maps.items) }
{
    let mut maps = Vec::new(alloc);
    for run in runs {
        maps.push(map_at(run.first))?;
    }
    ordered(maps)
}

/// Finds the map of an address: the first one, at which no class changes, has that of all addresses, which is always needed.
fn map_at(address: Addr) -> Net
    ensures map { result ≡ map_at (number_of address) }
    ensures network { IsBlock result }
    ensures wide { IsWide result }
{
    let prefix = map_prefix(address.number());
    let map = Net::new(address, prefix);
    let _ = map.first();
    map
}

/// Finds the prefix of that map.
fn map_prefix(address: u32) -> Prefix
    ensures { result ≡ spec.map_prefix address }
{
    if address % (1 << 24) == 0 {
        prefix(0)
    } else if address % (1 << 16) == 0 {
        prefix(8)
    } else if address % (1 << 8) == 0 {
        prefix(16)
    } else {
        prefix(24)
    }
}

/// Lists the maps that each file system has, so that two can be compared: of all addresses, and of the private networks (RFC 1918);
/// and then those others that are needed.
pub fn with_fixed_maps(alloc: Global, maps: &[Net]) -> Result<Vec<Net>, AllocError>
    requires { All IsWide maps.now }
    ensures maps { IfOk result (λ all. all.items ≡ maps_with_fixed maps.now) }
    ensures wide { IfOk result (λ all. All IsWide all.items) }
{
    let fixed = fixed_networks();
    let mut all = Vec::from_slice(alloc, &fixed)?;
    for map in maps {
        if !is_listed(&fixed, *map) {
            all.push(*map)?;
        }
    }
    Ok(all)
}

/// Returns the networks of the maps that each file system has.
pub(crate) fn fixed_networks() -> [Net; 4]
    ensures { result ≡ fixed_maps }
{
    [
        network(0, 0),
        network(0x0a00_0000, 8),
        network(0xac10_0000, 12),
        network(0xc0a8_0000, 16),
    ]
}

/// Tests whether a network is one of these.
fn is_listed(networks: &[Net], network: Net) -> bool
    ensures { result ≡ is_listed networks.now network }
{
    networks
        .iter()
        .any(|other| is_same_network(network, *other))
}

/// Tests whether two networks are the same.
fn is_same_network(network: Net, other: Net) -> bool
    ensures { result ≡ same_network network other }
{
    network.first().number() == other.first().number()
        && network.prefix().get() == other.prefix().get()
}

/// Makes the network of this prefix that an address is in.
fn network(address: u32, bits: u8) -> Net
    requires { bits ≤ 32 }
    ensures { result ≡ block_of address bits }
{
    Net::new(Addr::from_number(address), prefix(bits))
}

/// Makes the prefix of so many bits.
fn prefix(bits: u8) -> Prefix
    requires { bits ≤ 32 }
    ensures { result ≡ bits }
{
    let Some(prefix) = Prefix::new(bits) else {
        unreachable!()
    };
    prefix
}
