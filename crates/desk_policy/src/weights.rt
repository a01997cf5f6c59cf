//! With which weight the lines of a file system match an address, and the first line of the greatest weight.
//!
//! The selected lines are never gathered in a list: one scan finds their weight, and a second one the line to name among
//! those that have it. So a decision takes no memory, and can have no other answer than a verdict; the second scan costs
//! less than the list would.

ghost use Rattle.std.specs.Prelude.{◌≡◌, ◌&&◌, IfOk, filter, find, map};
ghost use Rattle.std.specs.Option.{option_copied};
ghost use Rattle.desk_text.specs.Address.{number_of};
ghost use Rattle.desk_policy.specs.Weights.{weight_of};
ghost use Rattle.desk_policy.specs.Verdict.{lists_here};
ghost use Rattle.desk_policy.specs.PrivateWeights.{has_weight, greater, IsGreatest};

use crate::row::Row;
use desk_exports::Clients;
use desk_text::{Addr, Path};
use std::alloc::{AllocError, Global};

/// The weight of a line that names the client: above that of any network, of which the heaviest has 33.
const NAME_WEIGHT: u8 = 34;

/// Weighs how closely a line matches an address, if it does.
pub fn weight_of(row: &Row, address: Addr) -> Option<u8>
    ensures { result ≡ weight_of row.now (number_of address) }
{
    match &row.entry.clients {
        Clients::Hosts(_) if row.addrs.contains(address) => Some(NAME_WEIGHT),
        Clients::Net(net, _) if net.covers(address) => Some(net.prefix().get() + 1),
        Clients::World => Some(0),
        Clients::Hosts(_) | Clients::Net(_, _) | Clients::Net6(_) => None,
    }
}

/// Finds the greatest weight with which a line matches the address.
pub fn greatest_weight(rows: &[Row], address: Addr) -> Option<u8>
    ensures { IsGreatest rows.now (number_of address) result }
{
    let mut greatest = None;
    for row in rows {
        greatest = greater(greatest, weight_of(row, address));
    }
    greatest
}

fn greater(a: Option<u8>, b: Option<u8>) -> Option<u8>
    ensures { result ≡ greater a b }
{
    match (a, b) {
        (None, b) => b,
        (Some(v), None) => Some(v),
        (Some(v), Some(w)) => Some(if v < w { w } else { v }),
    }
}

/// Finds the first line that matches with this weight.
pub fn first_with(rows: &[Row], address: Addr, weight: u8) -> Option<&Row>
    ensures { option_copied result ≡ find (has_weight (number_of address) weight) rows.now }
{
    rows.iter().find(|row| weighs(row, address, weight))
}

/// Gathers the lines that match with this weight.
pub fn all_with<'a>(
    alloc: Global,
    rows: &'a [Row],
    address: Addr,
    weight: u8,
) -> Result<Vec<&'a Row>, AllocError>
    ensures { IfOk result (λ found. map (λ row. row.now) found.items ≡ filter (has_weight (number_of address) weight) rows.now) }
{
    let mut found = Vec::new(alloc);
    for row in rows {
        if weighs(row, address, weight) {
            found.push(row)?;
        }
    }
    Ok(found)
}

/// Tests whether a line matches the address with this weight.
fn weighs(row: &Row, address: Addr, weight: u8) -> bool
    ensures { result ≡ has_weight (number_of address) weight row.now }
{
    match weight_of(row, address) {
        Some(other) => other == weight,
        None => false,
    }
}

/// Finds the first line that matches with this weight and lists a path of its own file system.
pub fn first_listing<'a>(rows: &'a [Row], address: Addr, weight: u8, path: &Path) -> Option<&'a Row>
    ensures { option_copied result
        ≡ find (λ row. has_weight (number_of address) weight row && lists_here path.now row) rows.now }
{
    rows.iter()
        .find(|row| weighs(row, address, weight) && row.lists_here(path))
}
