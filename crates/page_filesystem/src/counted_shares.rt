//! The shares of which a file system is told: how many addresses of which networks may mount some directory of it.

ghost use Rattle.std.specs.Prelude.{◌≡◌, ◌≤◌, ◌++◌, All, IfOk, OnOk, map};
ghost use Rattle.page_data.specs.Classes.{class_run};
ghost use Rattle.page_data.specs.Values.{AreRunsOfSome};
ghost use Rattle.page_filesystem.specs.Shares.{HasSize};
ghost use Rattle.desk_text.specs.Network.{block_of};
ghost use Rattle.page_maps.specs.Maps.{is_listed, same_network};
ghost use Rattle.page_filesystem.specs.CountedShares as spec;
ghost use Rattle.page_filesystem.specs.CountedShares.{AreShares, AreSharesOf, IsShareFrom, network_space, private_networks};

use crate::counting::{all_counts, counts_between, counts_outside};
use crate::shares::{Share, Space};
use desk_policy::Row;
use desk_text::{Addr, Net, Prefix, Sequence};
use desk_who::Run;
use page_data::Class;
use page_maps::written_networks;
use std::alloc::{AllocError, Global};

/// So many of the networks that lines write have a share.
const MOST_NETWORKS: usize = 12;

/// Shares, and how many networks have none.
#[derive(Drop)]
pub struct Shares {
    pub shares: Sequence<Share>,
    pub left_out: u64,
}

/// Counts by class what part of all addresses, of those outside the private networks, of each of these, and of each of the first
/// twelve other networks that lines write may mount some directory, given what clients may at most.
pub fn shares_of(alloc: Global, classes: &[Run<Class>], rows: &[Row]) -> Result<Shares, AllocError>
    requires { AreRunsOfSome (map class_run classes.now) }
    ensures shares { IfOk result (λ made. AreShares (map class_run classes.now) rows.now made) }
    ensures sizes { IfOk result (λ made. All HasSize made.shares) }
{
    let own = own_networks(alloc, rows)?;
    let count = own.len().min(MOST_NETWORKS);
    let shares = shares_among(alloc, classes, &own[..count])?;
    Ok(Shares {
        shares: Sequence::from_vec(shares),
        left_out: (own.len() - count) as u64,
    })
}

/// Lists the networks that lines write, but for the private ones.
fn own_networks(alloc: Global, rows: &[Row]) -> Result<Vec<Net>, AllocError>
    ensures { IfOk result (λ own. spec.AreOwnNetworks rows.now own.items) }
{
    let mut own = written_networks(alloc, rows)?;
    own.retain(|network| !is_private(*network));
    Ok(own)
}

/// Lists the shares, given the networks that have one beside the private ones.
fn shares_among(
    alloc: Global,
    classes: &[Run<Class>],
    own: &[Net],
) -> Result<Vec<Share>, AllocError>
    requires { AreRunsOfSome (map class_run classes.now) }
    ensures shares { IfOk result (λ shares. AreSharesOf (map class_run classes.now) (spec.spaces own.now) shares.items) }
    ensures sizes { IfOk result (λ shares. All HasSize shares.items) }
{
    let private = private_networks();
    let mut shares = Vec::new(alloc);
    shares.push(whole_share(classes))?;
    shares.push(outside_share(classes))?;
    push_networks(classes, &private, &mut shares)?;
    push_networks(classes, own, &mut shares)?;
    Ok(shares)
}

/// Adds the shares of networks.
fn push_networks(
    classes: &[Run<Class>],
    networks: &[Net],
    shares: &mut Vec<Share>,
) -> Result<(), AllocError>
    requires runs { AreRunsOfSome (map class_run classes.now) }
    requires each { All (IsShareFrom (map class_run classes.now)) shares.old.items }
    requires sizes { All HasSize shares.old.items }
    ensures spaces { OnOk result (map (λ share. share.space) shares.new.items
        ≡ map (λ share. share.space) shares.old.items ++ map network_space networks.now) }
    ensures each { All (IsShareFrom (map class_run classes.now)) shares.new.items }
    ensures sizes { All HasSize shares.new.items }
{
    for network in networks {
        shares.push(network_share(classes, *network))?;
    }
    Ok(())
}

/// Returns the share of all addresses.
fn whole_share(classes: &[Run<Class>]) -> Share
    requires { AreRunsOfSome (map class_run classes.now) }
    ensures space { result.space ≡ spec.whole }
    ensures share { IsShareFrom (map class_run classes.now) result }
    ensures size { HasSize result }
{
    Share {
        space: Space::All,
        counts: all_counts(classes),
    }
}

/// Returns that of the addresses outside the private networks.
fn outside_share(classes: &[Run<Class>]) -> Share
    requires { AreRunsOfSome (map class_run classes.now) }
    ensures space { result.space ≡ spec.outside }
    ensures share { IsShareFrom (map class_run classes.now) result }
    ensures size { HasSize result }
{
    Share {
        space: Space::OutsidePrivate,
        counts: counts_outside(classes),
    }
}

/// Returns that of a network.
fn network_share(classes: &[Run<Class>], network: Net) -> Share
    requires { AreRunsOfSome (map class_run classes.now) }
    ensures space { result.space ≡ network_space network }
    ensures share { IsShareFrom (map class_run classes.now) result }
    ensures size { HasSize result }
{
    let first = network.first();
    let last = network.last();
    Share {
        space: Space::Network(first, network.prefix().get()),
        counts: counts_between(classes, first.number(), last.number()),
    }
}

/// Returns the private networks (RFC 1918).
fn private_networks() -> [Net; 3]
    ensures { result ≡ private_networks }
{
    [
        network(0x0a00_0000, 8),
        network(0xac10_0000, 12),
        network(0xc0a8_0000, 16),
    ]
}

/// Makes the network of this prefix that an address is in.
fn network(address: u32, bits: u8) -> Net
    requires { bits ≤ 32 }
    ensures { result ≡ block_of address bits }
{
    let Some(prefix) = Prefix::new(bits) else {
        unreachable!()
    };
    Net::new(Addr::from_number(address), prefix)
}

/// Tests whether a network is a private one.
fn is_private(network: Net) -> bool
    ensures { result ≡ is_listed private_networks network }
{
    is_listed(&private_networks(), network)
}

/// Tests whether a network is one of these.
fn is_listed(networks: &[Net], network: Net) -> bool
    ensures { result ≡ is_listed networks.now network }
{
    networks
        .iter()
        .any(|other| is_same_network(network, *other))
}

/// Tests whether two networks are the same.
fn is_same_network(network: Net, other: Net) -> bool
    ensures { result ≡ same_network network other }
{
    network.first().number() == other.first().number()
        && network.prefix().get() == other.prefix().get()
}
