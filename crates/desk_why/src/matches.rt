//! The lines that match a client, heaviest first.
//!
//! One scan is made for each of the 35 weights: no line is kept but those that match, and nothing is sorted.

ghost use Rattle.std.specs.Prelude.{◌≡◌, ◌++◌, IfOk, OnOk, filter, map};
ghost use Rattle.desk_text.specs.Address.{number_of};
ghost use Rattle.desk_why.specs.Matches as spec;

use desk_exports::Clients;
use desk_policy::{Row, RowAddrs, weight_of};
use desk_text::Addr;
use std::alloc::{AllocError, Global};

/// The weight of a line that names the client: above that of any network, of which the heaviest has 33.
const NAME_WEIGHT: u8 = 34;

/// Lists the lines that match an address, heaviest first, and those of one weight in the order of the lines.
pub fn matching<'a>(
    alloc: Global,
    rows: &'a [Row],
    address: Addr,
) -> Result<Vec<&'a Row>, AllocError>
    ensures { IfOk result (λ found. map (λ row. row.now) found.items ≡ spec.matching rows.now (number_of address)) }
{
    let mut found = Vec::new(alloc);
    for weight in (0..NAME_WEIGHT + 1).rev() {
        push_weighing(rows, address, weight, &mut found)?;
    }
    Ok(found)
}

/// Adds the lines that match with this weight.
fn push_weighing<'a>(
    rows: &'a [Row],
    address: Addr,
    weight: u8,
    found: &mut Vec<&'a Row>,
) -> Result<(), AllocError>
    ensures { OnOk result (map (λ row. row.now) found.new.items
        ≡ map (λ row. row.now) found.old.items ++ filter (spec.weighs (number_of address) weight) rows.now) }
{
    for row in rows {
        if weighs(row, address, weight) {
            found.push(row)?;
        }
    }
    Ok(())
}

/// Tests whether a line matches an address with this weight.
fn weighs(row: &Row, address: Addr, weight: u8) -> bool
    ensures { result ≡ spec.weighs (number_of address) weight row.now }
{
    match weight_of(row, address) {
        Some(other) => other == weight,
        None => false,
    }
}

/// Weighs the first of these lines.
pub(crate) fn first_weight(rows: &[&Row], address: Addr) -> Option<u8>
    ensures { result ≡ spec.first_weight (map (λ row. row.now) rows.now) (number_of address) }
{
    match rows.first() {
        Some(row) => weight_of(row, address),
        None => None,
    }
}

/// Tests whether two lines match with one weight.
pub(crate) fn is_as_heavy(weight: Option<u8>, other: Option<u8>) -> bool
    ensures { result ≡ spec.is_as_heavy weight other }
{
    match (weight, other) {
        (Some(weight), Some(other)) => other == weight,
        _ => false,
    }
}

/// Tests whether a line matches no address.
pub(crate) fn is_for_nobody(row: &Row) -> bool
    ensures { result ≡ spec.is_for_nobody row.now }
{
    has_no_client(&row.entry.clients, &row.addrs)
}

/// Tests whether no client is one of these, whose names stand for these addresses.
fn has_no_client(clients: &Clients, addresses: &RowAddrs) -> bool
    ensures { result ≡ spec.has_no_client clients.now addresses.now }
{
    match clients {
        Clients::Hosts(_) => addresses.as_slice().is_empty(),
        Clients::Net6(_) => true,
        Clients::Net(_, _) | Clients::World => false,
    }
}
