//! The hosts file. (hosts(5))

ghost use Rattle.std.specs.Prelude.{◌≡◌, ◌∷◌, [], IfOk, OnOk, Some, map, slice_get};
ghost use Rattle.std.specs.Cmp.Lexicographic.{slice_cmp};
ghost use Rattle.std.specs.List.{All};
ghost use Rattle.std.specs.Ordering.{is_lt, nat_cmp};
ghost use Rattle.std.specs.Str.{str_to_ascii_lowercase};
ghost use Rattle.desk_text.specs.Address.{number_of};
ghost use Rattle.desk_text.specs.Lines.{IsReadable};
ghost use Rattle.desk_text.specs.Reading.{Reads};
ghost use Rattle.desk_tables.specs.Faults.{IsPlaced};
ghost use Rattle.desk_tables.specs.Hosts as spec;
ghost use Rattle.desk_tables.specs.PrivateIndex.{AddsHosts, AreByHost, HasAddresses, KeepsHosts, has_key, host_key, host_of, listed_hosts};

use crate::faults::{PlacedFault, Slice, find_faults};
use crate::index::{Listing, compare_lowered, name_at};
use crate::rows::read_rows;
use crate::rules::{TableFault, TableRule};
use crate::spaced_lines::{
    has_long_name, long_word_slice, push_copies, word_slice, words_before_comment,
};
use desk_text::{Addr, AddrSet, ReadError, Sequence, Text, is_ipv6};
use std::alloc::{AllocError, Global};
use std::cmp::Ordering;
use std::marker::Model;

/// A row of the hosts file: an address, and the name of the host with its aliases.
#[derive(Drop)]
pub struct HostRow {
    pub addr: Addr,
    pub names: Sequence<Text>,
}

/// The rows of a hosts file, in the order of its lines, with a listing of each of their names: in byte order of the names
/// in small letters, and those of one name in the order of the rows.
pub struct Hosts {
    rows: Sequence<HostRow>,
    listings: Vec<Listing>,
}

// It is written out, so that the crates above do not prove again how each part is dropped.
impl Drop for Hosts {
    fn drop(self) {
        let Hosts {
            rows: _,
            listings: _,
        } = self;
    }
}

impl Model for Hosts {
    ghost use Rattle.std.specs.Prelude.{List};
    ghost use Rattle.desk_tables.specs.PrivateIndex.{AreByHost, HasAddresses};
    ghost use Rattle.desk_tables.specs.declared.hosts.HostRow.{HostRow};

    ghost Value = { List HostRow };

    ghost view = { λ hosts. hosts.rows };

    ghost invariant = { λ hosts. AreByHost hosts.rows hosts.listings.items × HasAddresses hosts.rows hosts.listings.items };
}

impl Hosts {
    /// Makes the table without hosts.
    pub fn new(alloc: Global) -> Hosts
        ensures { result ≡ [] }
    {
        Hosts {
            rows: Sequence::new(alloc),
            listings: Vec::new(alloc),
        }
    }

    /// Reads a hosts file: on each line an address, a name and its aliases, between blanks. `#` begins a comment. A line
    /// without a word before its comment, and one whose address has a `:`, is skipped. A line may break Fields (no name),
    /// Number (the address cannot be read) and Name (a name is over 255 bytes). (hosts(5))
    pub fn read(alloc: Global, text: &str) -> Result<Hosts, ReadError<TableFault>>
        requires { IsReadable text.now }
        ensures { Reads result (spec.read_hosts text.now) }
    {
        let rows = read_rows(alloc, text, read_line)?;
        let listings = listings_by_name(alloc, rows.as_slice())?;
        Ok(Hosts { rows, listings })
    }

    /// Finds the faults of a text: all its faulty lines, in order, each with the first rule that it breaks and the place
    /// of the slice at fault. `read` reports the first of them.
    pub fn faults(alloc: Global, text: &str) -> Result<Sequence<PlacedFault>, AllocError>
        requires { IsReadable text.now }
        ensures faults { IfOk result (λ found. map (λ one. one.fault) found ≡ spec.host_faults text.now) }
        ensures placed { IfOk result (All (IsPlaced text.now)) }
    {
        find_faults(alloc, text, read_line, slice_at_fault)
    }

    /// Lists the addresses of all rows that have the name, as their name or as an alias, without ASCII case: ascending,
    /// without duplicates. (hosts(5))
    pub fn addresses(&self, alloc: Global, name: &str) -> Result<Vec<Addr>, AllocError>
        ensures { IfOk result (λ v. map number_of v.items ≡ spec.addresses_of_host self.now name.now) }
    {
        let addresses = listed_addresses(
            alloc,
            self.rows.as_slice(),
            self.listings.as_slice(),
            name.as_bytes(),
        )?;
        Ok(AddrSet::from_vec(addresses).into_vec())
    }
}

/// Copies the addresses that are listed under the name.
fn listed_addresses(
    alloc: Global,
    rows: &[HostRow],
    listings: &[Listing],
    name: &[u8],
) -> Result<Vec<Addr>, AllocError>
    requires { AreByHost rows.now listings.now }
    ensures { IfOk result (λ v. v.items ≡ listed_hosts rows.now listings.now (str_to_ascii_lowercase name.now)) }
{
    let mut addresses = Vec::new(alloc);
    let first = listings.partition_point(|listing| is_before(rows, listing, name));
    for index in first..listings.len() {
        let listing = listings[index];
        if !has_name(rows, &listing, name) {
            return Ok(addresses);
        }
        addresses.push(listing.addr)?;
    }
    Ok(addresses)
}

/// Compares the name that is listed with a name, without ASCII case.
fn compare_name(rows: &[HostRow], listing: &Listing, name: &[u8]) -> Ordering
    ensures { result ≡ slice_cmp nat_cmp (host_key rows.now listing.now) (str_to_ascii_lowercase name.now) }
{
    compare_lowered(host_of(rows, listing).as_bytes(), name)
}

/// Tests whether a listing is of the name.
fn has_name(rows: &[HostRow], listing: &Listing, name: &[u8]) -> bool
    ensures { result ≡ has_key rows.now (str_to_ascii_lowercase name.now) listing.now }
{
    compare_name(rows, listing, name).is_eq()
}

/// Tests whether a listing stands before those of the name.
fn is_before(rows: &[HostRow], listing: &Listing, name: &[u8]) -> bool
    ensures { result ≡ is_lt (slice_cmp nat_cmp (host_key rows.now listing.now) (str_to_ascii_lowercase name.now)) }
{
    compare_name(rows, listing, name).is_lt()
}

/// Lends the name that is listed.
fn host_of<'a>(rows: &'a [HostRow], listing: &Listing) -> &'a str
    ensures { result.now ≡ host_of rows.now listing.now }
{
    match rows.get(listing.row) {
        Some(row) => name_at(row.names.as_slice(), listing.name),
        None => "",
    }
}

/// Lists the names of the rows.
fn listings_by_name(alloc: Global, rows: &[HostRow]) -> Result<Vec<Listing>, AllocError>
    ensures order { IfOk result (λ listings. AreByHost rows.now listings.items) }
    ensures addresses { IfOk result (λ listings. HasAddresses rows.now listings.items) }
{
    let mut listings = Vec::new(alloc);
    for (place, row) in rows.iter().enumerate() {
        add_hosts(&mut listings, rows, place, row)?;
    }
    sort_by_name(rows, &mut listings)?;
    Ok(listings)
}

/// Lists the names of the row at the place.
fn add_hosts(
    listings: &mut Vec<Listing>,
    rows: &[HostRow],
    place: usize,
    row: &HostRow,
) -> Result<(), AllocError>
    requires { slice_get rows.now place ≡ Some row.now }
    ensures { OnOk result (AddsHosts rows.now listings.old.items listings.new.items row.now.addr row.now.names) }
{
    for name in 0..row.names.len() {
        listings.push(Listing {
            row: place,
            name,
            addr: row.addr,
        })?;
    }
    Ok(())
}

/// Compares two listings by their names.
fn by_name(rows: &[HostRow], a: &Listing, b: &Listing) -> Ordering
    ensures { result ≡ slice_cmp nat_cmp (host_key rows.now a.now) (host_key rows.now b.now) }
{
    compare_name(rows, a, host_of(rows, b).as_bytes())
}

/// Sorts the listings by name. Those of one name stay in their order.
fn sort_by_name(rows: &[HostRow], listings: &mut Vec<Listing>) -> Result<(), AllocError>
    ensures order { OnOk result (AreByHost rows.now listings.new.items) }
    ensures kept { KeepsHosts rows.now listings.old.items listings.new.items }
{
    listings.sort_by(|a, b| by_name(rows, a, b))
}

/// Reads the row of a line, or the first rule that it breaks.
fn read_line(alloc: Global, line: &str) -> Result<Option<HostRow>, ReadError<TableRule>>
    ensures { Reads result (spec.line_answer line.now) }
{
    let words = words_before_comment(alloc, line)?;
    match words.as_slice().split_first() {
        Some((address, names)) => read_row(alloc, address, names),
        None => Ok(None),
    }
}

/// Reads the row with this address and these names, or the first rule that it breaks.
fn read_row(
    alloc: Global,
    address: &str,
    names: &[&str],
) -> Result<Option<HostRow>, ReadError<TableRule>>
    ensures { Reads result (spec.words_answer (address.now ∷ map (λ x. x.now) names.now)) }
{
    if is_ipv6(address) {
        return Ok(None);
    }
    if names.is_empty() {
        return Err(ReadError::Fault(TableRule::Fields));
    }
    let Ok(addr) = Addr::read(address) else {
        return Err(ReadError::Fault(TableRule::Number));
    };
    if has_long_name(names) {
        return Err(ReadError::Fault(TableRule::Name));
    }
    let mut copies = Sequence::from_vec(Vec::with_capacity(alloc, names.len())?);
    push_copies(alloc, &mut copies, names)?;
    Ok(Some(HostRow {
        addr,
        names: copies,
    }))
}

/// Finds the slice of a line at fault, if this is the first rule that it breaks: the address, which is the only word of a
/// line with too few, or the long name.
fn slice_at_fault(line: &str, rule: TableRule) -> Slice {
    match rule {
        TableRule::Name => long_word_slice(line),
        _ => word_slice(line, 0),
    }
}
