//! Whether two lines are the same.

ghost use Rattle.std.specs.Prelude.{◌≡◌, true, map};
ghost use Rattle.desk_text.specs.Address.{number_of};

use desk_exports::{Boxed, Clients, Entry, Names};
use desk_policy::{Row, same_terms};
use desk_text::{Addr, Net, Path, Text};

/// Tests whether two lines are the same: their numbers, all that they say, and the addresses of their names.
pub(crate) fn is_same_row(row: &Row, other: &Row) -> bool
    ensures { result ≡ true → row.now ≡ other.now }
{
    is_same_entry(&row.entry, &other.entry)
        && are_same_addresses(row.addrs.as_slice(), other.addrs.as_slice())
}

fn is_same_entry(entry: &Entry, other: &Entry) -> bool
    ensures { result ≡ true → entry.now ≡ other.now }
{
    entry.line == other.line
        && entry.alldirs == other.alldirs
        && are_same_paths(entry.dirs.as_slice(), other.dirs.as_slice())
        && same_terms(&entry.terms, &other.terms)
        && are_same_clients(&entry.clients, &other.clients)
}

fn are_same_clients(clients: &Clients, others: &Clients) -> bool
    ensures { result ≡ true → clients.now ≡ others.now }
{
    match (clients, others) {
        (Clients::Hosts(names), Clients::Hosts(others)) => are_same_names(names, others),
        (Clients::Net(net, value), Clients::Net(other, other_value)) => is_same_network(
            *net, *other,
        ) && is_same_value(value, other_value),
        (Clients::Net6(value), Clients::Net6(other)) => is_same_text(value, other),
        (Clients::World, Clients::World) => true,
        _ => false,
    }
}

fn is_same_network(network: Net, other: Net) -> bool
    ensures { result ≡ true → network ≡ other }
{
    network.first().number() == other.first().number()
        && network.prefix().get() == other.prefix().get()
}

/// Tests whether two networks are written with the same value, or both with a prefix or a mask.
fn is_same_value(value: &Option<Boxed<Text>>, other: &Option<Boxed<Text>>) -> bool
    ensures { result ≡ true → value.now ≡ other.now }
{
    match (value, other) {
        (Some(value), Some(other)) => is_same_text(value, other),
        (None, None) => true,
        (Some(_), None) | (None, Some(_)) => false,
    }
}

fn is_same_text(text: &Text, other: &Text) -> bool
    ensures { result ≡ true → text.now ≡ other.now }
{
    is_same_name(text.as_str(), other.as_str())
}

fn are_same_names(names: &Names, others: &Names) -> bool
    ensures { result ≡ true → names.now ≡ others.now }
{
    let count = names.len();
    if others.len() != count {
        return false;
    }
    for place in 0..count {
        if !is_same_name(names.get(place), others.get(place)) {
            return false;
        }
    }
    true
}

fn is_same_name(name: &str, other: &str) -> bool
    ensures { result ≡ true → name.now ≡ other.now }
{
    name == other
}

fn are_same_paths(paths: &[Path], others: &[Path]) -> bool
    ensures { result ≡ true → paths.now ≡ others.now }
{
    let count = paths.len();
    if others.len() != count {
        return false;
    }
    for place in 0..count {
        if !is_same_path(&paths[place], &others[place]) {
            return false;
        }
    }
    true
}

fn is_same_path(path: &Path, other: &Path) -> bool
    ensures { result ≡ true → path.now ≡ other.now }
{
    *path == *other
}

fn are_same_addresses(addresses: &[Addr], others: &[Addr]) -> bool
    ensures { result ≡ true → map number_of addresses.now ≡ map number_of others.now }
{
    let count = addresses.len();
    if others.len() != count {
        return false;
    }
    for place in 0..count {
        if !is_same_address(addresses[place], others[place]) {
            return false;
        }
    }
    true
}

fn is_same_address(address: Addr, other: Addr) -> bool
    ensures { result ≡ true → number_of address ≡ number_of other }
{
    address.number() == other.number()
}
