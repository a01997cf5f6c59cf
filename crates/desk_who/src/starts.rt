//! The addresses at which something may change.

ghost use Rattle.std.specs.Prelude.{◌≡◌, ◌++◌, ◌+◌, ◌∷◌, ◌≤◌, ◌^◌, [], IfOk, OnOk, false, filter, map};
ghost use Rattle.std.specs.List.{flat_map};
ghost use Rattle.std.specs.List.Sorted.{IsStrictlyIncreasing};
ghost use Rattle.desk_text.specs.Address.{number_of};
ghost use Rattle.desk_text.specs.AddrSet.{is_among};
ghost use Rattle.desk_text.specs.Network.{IsBlock, last_of};
ghost use Rattle.desk_policy.specs.Keys.{HasBlock};
ghost use Rattle.desk_who.specs.MostlySame.{AreStartsWithin};
ghost use Rattle.desk_who.specs.PrivateStarts.{around, is_between, kept, starts_of, within};
ghost use Rattle.desk_who.specs.Starts.{AreJoined, AreStarts, AreStartsUnder};

use desk_exports::Clients;
use desk_policy::{Policy, Row, RowAddrs};
use desk_text::laws::{covers_between_first_and_last, sorted_sets_are_unique};
use desk_text::{Addr, AddrSet, Net, Path};
use std::alloc::{AllocError, Global};

/// Gathers the addresses at which one of these lines begins or ceases to match, but for the first address of all.
pub fn starts_among(alloc: Global, rows: &[Row]) -> Result<AddrSet, AllocError>
    ensures { IfOk result (AreStarts rows.now) }
{
    covers_between_first_and_last();
    sorted_sets_are_unique();
    let mut starts = Vec::new(alloc);
    for row in rows {
        push_row(&mut starts, row)?;
    }
    Ok(AddrSet::from_vec(starts))
}

/// Gathers the addresses at which the verdict on a path may change, and so on each path of its file system: those at which the
/// lines of that begin or cease to match.
pub fn starts_under(alloc: Global, policy: &Policy, path: &Path) -> Result<AddrSet, AllocError>
    ensures { IfOk result (AreStartsUnder policy.now path.now) }
{
    match policy.filesystems().of(path) {
        Some(fs) => starts_among(alloc, policy.rows(fs)),
        None => Ok(AddrSet::new(alloc)),
    }
}

/// Gathers the addresses at which one of these lines begins or ceases to match, but for the first address of all, and those of
/// the starts at which one of them matches.
pub fn starts_within(alloc: Global, starts: &AddrSet, rows: &[&Row]) -> Result<AddrSet, AllocError>
    requires { is_among 0 starts.now ≡ false }
    ensures { IfOk result (AreStartsWithin starts.now (map (λ row. row.now) rows.now)) }
{
    covers_between_first_and_last();
    sorted_sets_are_unique();
    let mut found = Vec::new(alloc);
    for row in rows {
        push_row(&mut found, row)?;
        push_within(&mut found, starts.as_slice(), row)?;
    }
    Ok(AddrSet::from_vec(found))
}

/// Joins two sets of addresses.
pub fn joined(starts: AddrSet, others: &AddrSet) -> Result<AddrSet, AllocError>
    ensures { IfOk result (AreJoined starts others.now) }
{
    sorted_sets_are_unique();
    let mut all = starts.into_vec();
    all.extend_from_slice(others.as_slice())?;
    Ok(AddrSet::from_vec(all))
}

/// Adds those of a line.
fn push_row(starts: &mut Vec<Addr>, row: &Row) -> Result<(), AllocError>
    ensures added { OnOk result (map number_of starts.new.items ≡ map number_of starts.old.items ++ starts_of row.now) }
    ensures block { HasBlock row.now.entry.clients }
{
    match &row.entry.clients {
        Clients::Hosts(_) => push_hosts(starts, &row.addrs),
        Clients::Net(net, _) => push_net(starts, *net),
        Clients::Net6(_) | Clients::World => Ok(()),
    }
}

/// Adds those of the starts, which ascend, at which a line matches, unless it names clients.
fn push_within(found: &mut Vec<Addr>, starts: &[Addr], row: &Row) -> Result<(), AllocError>
    requires { IsStrictlyIncreasing (map number_of starts.now) }
    ensures { OnOk result (map number_of found.new.items ≡ map number_of found.old.items ++ within (map number_of starts.now) row.now) }
{
    match &row.entry.clients {
        Clients::Net(net, _) => {
            found.extend_from_slice(between(starts, net.first(), net.last()))?;
            Ok(())
        }
        Clients::World => {
            found.extend_from_slice(starts)?;
            Ok(())
        }
        Clients::Hosts(_) | Clients::Net6(_) => Ok(()),
    }
}

/// Lends those of ascending addresses that lie between two, by two binary searches.
fn between(addresses: &[Addr], first: Addr, last: Addr) -> &[Addr]
    requires { IsStrictlyIncreasing (map number_of addresses.now) }
    ensures { map number_of result.now ≡ filter (is_between (number_of first) (number_of last)) (map number_of addresses.now) }
{
    let end = addresses.partition_point(|address| address.number() <= last.number());
    let below = &addresses[..end];
    let begin = below.partition_point(|address| address.number() < first.number());
    &below[begin..]
}

/// Adds each address of a line's names, and the one behind it.
fn push_hosts(starts: &mut Vec<Addr>, addresses: &RowAddrs) -> Result<(), AllocError>
    ensures { OnOk result (map number_of starts.new.items ≡ map number_of starts.old.items ++ flat_map around addresses.now) }
{
    for address in addresses.as_slice() {
        let number = address.number();
        push_both(starts, number, u64::from(number) + 1)?;
    }
    Ok(())
}

/// Adds the first address of a network, and the one behind its last one.
fn push_net(starts: &mut Vec<Addr>, net: Net) -> Result<(), AllocError>
    ensures added { OnOk result (map number_of starts.new.items ≡ map number_of starts.old.items ++ kept (net.first ∷ (last_of net + 1) ∷ [])) }
    ensures block { IsBlock net }
{
    push_both(
        starts,
        net.first().number(),
        u64::from(net.last().number()) + 1,
    )
}

/// Adds the first address of a range, and the one behind it.
pub(crate) fn push_both(starts: &mut Vec<Addr>, first: u32, behind: u64) -> Result<(), AllocError>
    ensures { OnOk result (map number_of starts.new.items ≡ map number_of starts.old.items ++ kept (first ∷ behind ∷ [])) }
{
    push_start(starts, u64::from(first))?;
    push_start(starts, behind)?;
    Ok(())
}

/// Adds the address with this number, if there is one, and one before it.
fn push_start(starts: &mut Vec<Addr>, number: u64) -> Result<(), AllocError>
    ensures { OnOk result (map number_of starts.new.items ≡ map number_of starts.old.items ++ kept (number ∷ [])) }
{
    if 0 < number && number < 1 << 32 {
        starts.push(Addr::from_number(number as u32))?;
    }
    Ok(())
}
