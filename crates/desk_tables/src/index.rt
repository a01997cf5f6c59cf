//! Indexes of tables: what is listed under each name. Look-ups by name or number go by them.

ghost use Rattle.std.specs.Prelude.{◌≡◌, [], OnOk, option_and_then, slice_get, slice_index_or};
ghost use Rattle.std.specs.Cmp.Lexicographic.{slice_cmp};
ghost use Rattle.std.specs.Option.{option_copied};
ghost use Rattle.std.specs.Ordering.{nat_cmp};
ghost use Rattle.std.specs.Str.{str_to_ascii_lowercase};
ghost use Rattle.std.specs.String.{string_bytes};
ghost use Rattle.desk_tables.specs.PrivateIndex.{AddsFirst, AddsFirstNumber, AddsUnder};

use desk_text::{Addr, Text};
use std::alloc::{AllocError, Global};
use std::cmp::Ordering;
use std::collections::BTreeMap;

/// A name of a row: the place of the row in its table, that of the name among those of the row, and the row's address.
#[derive(Clone, Copy)]
pub struct Listing {
    pub row: usize,
    pub name: usize,
    pub addr: Addr,
}

/// Lends the name at the place, or the empty text if none is there.
pub fn name_at(names: &[Text], place: usize) -> &str
    ensures { result.now ≡ slice_index_or names.now place [] }
{
    match names.get(place) {
        Some(name) => name.as_str(),
        None => "",
    }
}

/// Compares two texts in small letters.
pub fn compare_lowered(a: &[u8], b: &[u8]) -> Ordering
    ensures { result ≡ slice_cmp nat_cmp (str_to_ascii_lowercase a.now) (str_to_ascii_lowercase b.now) }
{
    for index in 0..a.len().min(b.len()) {
        // (most letters are alike as they are, and need not be made small)
        if a[index] != b[index] {
            let order = a[index]
                .to_ascii_lowercase()
                .cmp(&b[index].to_ascii_lowercase());
            if order != Ordering::Equal {
                return order;
            }
        }
    }
    a.len().cmp(&b.len())
}

/// Adds the value under the name, if nothing is there yet.
pub fn add_first<T: Copy>(
    alloc: Global,
    index: &mut BTreeMap<String, T>,
    name: &str,
    value: T,
) -> Result<(), AllocError>
    ensures { OnOk result (AddsFirst index.old index.new name.now value) }
{
    if !index.contains_key(name) {
        let key = String::from_str(alloc, name)?;
        index.insert(key, value)?;
    }
    Ok(())
}

/// Adds the value under the number, if nothing is there yet.
pub fn add_first_number<T: Copy>(
    index: &mut BTreeMap<u32, T>,
    number: u32,
    value: T,
) -> Result<(), AllocError>
    ensures { OnOk result (AddsFirstNumber index.old index.new number value) }
{
    if !index.contains_key(&number) {
        index.insert(number, value)?;
    }
    Ok(())
}

/// Adds the value behind those that are under the name.
pub fn add_under<T: Copy>(
    index: &mut BTreeMap<String, Vec<T>>,
    name: String,
    value: T,
) -> Result<(), AllocError>
    ensures { OnOk result (AddsUnder index.old index.new (string_bytes name) value) }
{
    index.entry(name)?.or_default().push(value)?;
    Ok(())
}

/// Finds the row at the place that an index gives.
pub fn row_at<'a, Row>(rows: &'a [Row], place: Option<&usize>) -> Option<&'a Row>
    ensures { option_copied result ≡ option_and_then (slice_get rows.now) (option_copied place.entry) }
{
    match place {
        Some(place) => rows.get(*place),
        None => None,
    }
}
