//! The networks file. (networks(5))

ghost use Rattle.std.specs.Prelude.{◌≡◌, ◌∷◌, [], IfOk, OnOk, Some, map, slice_get};
ghost use Rattle.std.specs.Cmp.Lexicographic.{slice_cmp};
ghost use Rattle.std.specs.List.{All};
ghost use Rattle.std.specs.Ordering.{is_lt, nat_cmp};
ghost use Rattle.desk_text.specs.Lines.{IsReadable};
ghost use Rattle.desk_text.specs.Reading.{Reads};
ghost use Rattle.desk_tables.specs.Faults.{IsPlaced};
ghost use Rattle.desk_tables.specs.Networks as spec;
ghost use Rattle.desk_tables.specs.PrivateIndex.{AddsNumber, AreByName, HasNumbers, KeepsNamed, name_of, numbered};

use crate::faults::{PlacedFault, Slice, find_faults};
use crate::index::{Listing, name_at};
use crate::rows::read_rows;
use crate::rules::{TableFault, TableRule};
use crate::spaced_lines::{
    has_long_name, long_word_slice, push_copies, word_slice, words_before_comment,
};
use desk_text::{Addr, ReadError, Sequence, Text};
use std::alloc::{AllocError, Global};
use std::cmp::Ordering;
use std::marker::Model;

/// A row of the networks file: the number of a network, and its name with its aliases.
#[derive(Drop)]
pub struct NetworkName {
    pub number: Addr,
    pub names: Sequence<Text>,
}

/// The rows of a networks file, in the order of its lines, with a listing of each of their names: in byte order of the
/// names, and those of one name in the order of the rows.
pub struct Networks {
    rows: Sequence<NetworkName>,
    listings: Vec<Listing>,
}

// It is written out, so that the crates above do not prove again how each part is dropped.
impl Drop for Networks {
    fn drop(self) {
        let Networks {
            rows: _,
            listings: _,
        } = self;
    }
}

impl Model for Networks {
    ghost use Rattle.std.specs.Prelude.{List};
    ghost use Rattle.desk_tables.specs.PrivateIndex.{AreByName, HasNumbers};
    ghost use Rattle.desk_tables.specs.declared.networks.NetworkName.{NetworkName};

    ghost Value = { List NetworkName };

    ghost view = { λ networks. networks.rows };

    ghost invariant = { λ networks. AreByName networks.rows networks.listings.items × HasNumbers networks.rows networks.listings.items };
}

impl Networks {
    /// Makes the table without networks.
    pub fn new(alloc: Global) -> Networks
        ensures { result ≡ [] }
    {
        Networks {
            rows: Sequence::new(alloc),
            listings: Vec::new(alloc),
        }
    }

    /// Reads a networks file: on each line a name, a number of one to four parts, and aliases, between blanks. `#` begins a
    /// comment, and a line without a word before its comment is skipped. A line may break Fields (no number), Number (the
    /// number cannot be read) and Name (a name is over 255 bytes). (networks(5))
    pub fn read(alloc: Global, text: &str) -> Result<Networks, ReadError<TableFault>>
        requires { IsReadable text.now }
        ensures { Reads result (spec.read_networks text.now) }
    {
        let rows = read_rows(alloc, text, read_line)?;
        let listings = listings_by_name(alloc, rows.as_slice())?;
        Ok(Networks { rows, listings })
    }

    /// Finds the faults of a text: all its faulty lines, in order, each with the first rule that it breaks and the place
    /// of the slice at fault. `read` reports the first of them.
    pub fn faults(alloc: Global, text: &str) -> Result<Sequence<PlacedFault>, AllocError>
        requires { IsReadable text.now }
        ensures faults { IfOk result (λ found. map (λ one. one.fault) found ≡ spec.network_faults text.now) }
        ensures placed { IfOk result (All (IsPlaced text.now)) }
    {
        find_faults(alloc, text, read_line, slice_at_fault)
    }

    /// Finds the number of the first row that has the name, as its name or as an alias. (networks(5))
    pub fn find(&self, name: &str) -> Option<Addr>
        ensures { result ≡ spec.network_number self.now name.now }
    {
        find_number(self.rows.as_slice(), self.listings.as_slice(), name)
    }
}

/// Finds the number of the first listing of the name.
fn find_number(rows: &[NetworkName], listings: &[Listing], name: &str) -> Option<Addr>
    requires { AreByName rows.now listings.now }
    ensures { result ≡ numbered rows.now listings.now name.now }
{
    let bytes = name.as_bytes();
    let first = listings.partition_point(|listing| is_before(rows, listing, bytes));
    match listings.get(first) {
        Some(listing) if name == name_of(rows, listing) => Some(listing.addr),
        _ => None,
    }
}

/// Lends the name that is listed.
fn name_of<'a>(rows: &'a [NetworkName], listing: &Listing) -> &'a str
    ensures { result.now ≡ name_of rows.now listing.now }
{
    match rows.get(listing.row) {
        Some(row) => name_at(row.names.as_slice(), listing.name),
        None => "",
    }
}

/// Lists the names of the rows.
fn listings_by_name(alloc: Global, rows: &[NetworkName]) -> Result<Vec<Listing>, AllocError>
    ensures order { IfOk result (λ listings. AreByName rows.now listings.items) }
    ensures numbers { IfOk result (λ listings. HasNumbers rows.now listings.items) }
{
    let mut listings = Vec::new(alloc);
    for (place, row) in rows.iter().enumerate() {
        add_names(&mut listings, rows, place, row)?;
    }
    sort_by_name(rows, &mut listings)?;
    Ok(listings)
}

/// Lists the names of the row at the place.
fn add_names(
    listings: &mut Vec<Listing>,
    rows: &[NetworkName],
    place: usize,
    row: &NetworkName,
) -> Result<(), AllocError>
    requires { slice_get rows.now place ≡ Some row.now }
    ensures { OnOk result (AddsNumber rows.now listings.old.items listings.new.items row.now) }
{
    for name in 0..row.names.len() {
        listings.push(Listing {
            row: place,
            name,
            addr: row.number,
        })?;
    }
    Ok(())
}

/// Compares two listings by their names.
fn by_name(rows: &[NetworkName], a: &Listing, b: &Listing) -> Ordering
    ensures { result ≡ slice_cmp nat_cmp (name_of rows.now a.now) (name_of rows.now b.now) }
{
    name_of(rows, a).cmp(name_of(rows, b))
}

/// Tests whether a listing stands before those of the name.
fn is_before(rows: &[NetworkName], listing: &Listing, name: &[u8]) -> bool
    ensures { result ≡ is_lt (slice_cmp nat_cmp (name_of rows.now listing.now) name.now) }
{
    name_of(rows, listing).as_bytes().cmp(name).is_lt()
}

/// Sorts the listings by name. Those of one name stay in their order.
fn sort_by_name(rows: &[NetworkName], listings: &mut Vec<Listing>) -> Result<(), AllocError>
    ensures order { OnOk result (AreByName rows.now listings.new.items) }
    ensures kept { KeepsNamed rows.now listings.old.items listings.new.items }
{
    listings.sort_by(|a, b| by_name(rows, a, b))
}

/// Reads the row of a line, or the first rule that it breaks.
fn read_line(alloc: Global, line: &str) -> Result<Option<NetworkName>, ReadError<TableRule>>
    ensures { Reads result (spec.line_answer line.now) }
{
    let words = words_before_comment(alloc, line)?;
    match words.as_slice().split_first() {
        Some((name, fields)) => read_row(alloc, name, fields),
        None => Ok(None),
    }
}

/// Reads the row with this name and these words behind it, or the first rule that it breaks.
fn read_row(
    alloc: Global,
    name: &str,
    fields: &[&str],
) -> Result<Option<NetworkName>, ReadError<TableRule>>
    ensures { Reads result (spec.words_answer (name.now ∷ map (λ x. x.now) fields.now)) }
{
    let Some((number, aliases)) = fields.split_first() else {
        return Err(ReadError::Fault(TableRule::Fields));
    };
    let Ok(number) = Addr::read_short(number) else {
        return Err(ReadError::Fault(TableRule::Number));
    };
    if name.len() > 255 || has_long_name(aliases) {
        return Err(ReadError::Fault(TableRule::Name));
    }
    let mut names = Sequence::from_vec(Vec::with_capacity(alloc, fields.len())?);
    names.push(Text::copy(alloc, name)?)?;
    push_copies(alloc, &mut names, aliases)?;
    Ok(Some(NetworkName { number, names }))
}

/// Finds the slice of a line at fault, if this is the first rule that it breaks: the number, the long name, or the only word
/// of a line with too few.
fn slice_at_fault(line: &str, rule: TableRule) -> Slice {
    match rule {
        TableRule::Number => word_slice(line, 1),
        TableRule::Name => long_word_slice(line),
        _ => word_slice(line, 0),
    }
}
